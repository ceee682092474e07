// The lines of a standard path: segments, hop fields, interfaces in order of travel, the moves ahead, and the path of a reply.
ghost use Rattle.std.specs.Prelude.{◌+◌, ◌≤◌};

use crate::text::Hex;
use crate::{refusal, text};
use errors::path_error::PathError;
use path::dataplane::DataplanePath;
use path::standard::StandardPath;
use path_fields::{HopField, InfoField, Interface};
use path_interfaces::InterfaceAt;
use path_meta_header::PathMetaHeader;
use path_moves::WalkAnswer;
use path_reverse::{copy_to_slice, reverse_to_slice};
use std::fmt::Display;
use std::{fmt, io};
use wire_encoding::read::wide;

// The most moves that a path can take, for one of more than 64 hop fields is refused.
const MOST_MOVES: usize = 63;

// The number of an interface.
#[derive(Clone, Copy)]
struct Number(Interface);

impl Display for Number {
    fn fmt<W: fmt::Write>(&self, f: &mut fmt::Formatter<W>) -> fmt::Result {
        match self.0 {
            None => write!(f, "none"),
            Some(id) => write!(f, "{id}"),
        }
    }
}

// Calls on a standard path.
fn standard() -> DataplanePath {
    DataplanePath::new(DataplanePath::SCION)
}

// The name of a flag where it is set, else nothing.
fn flag(on: bool, name: &'static str) -> &'static str {
    if on { name } else { "" }
}

// A hop field: entry and exit in order of travel, expiry, alerts and code, and whether the packet stands on it.
fn hop_field(
    out: &impl Print,
    info: InfoField,
    field: HopField,
    j: usize,
    current: usize,
) -> io::Result<()> {
    text::line(
        out,
        "    hop field",
        format_args!(
            "{j} entry {} exit {} expiry byte {} expires {} ms code {}{}{}{}",
            Number(field.ingress_interface(info)),
            Number(field.egress_interface(info)),
            field.exp_time,
            field.expiry_time(info),
            Hex(&field.mac),
            flag(
                field.is_cons_ingress_router_alert(),
                " construction ingress alert"
            ),
            flag(
                field.is_cons_egress_router_alert(),
                " construction egress alert"
            ),
            flag(j == current, " * the packet stands here")
        ),
    )
}

// The hop fields of a segment.
fn hop_fields(
    out: &impl Print,
    bytes: &[u8],
    info: InfoField,
    first: usize,
    count: usize,
    current: usize,
) -> io::Result<()>
    requires { first + count ≤ 1020 }
{
    for j in first..first + count {
        let field = HopField::new(standard().hop_field(bytes, j)).unwrap_or(HopField::ZERO);
        hop_field(out, info, field, j, current)?;
    }
    Ok(())
}

// The direction of a segment.
fn direction(info: InfoField) -> &'static str {
    if info.is_constructed_dir() {
        "in construction direction"
    } else {
        "against construction direction"
    }
}

// A segment: direction, peering, accumulator, time, expiry, and its hop fields.
fn segment(
    out: &impl Print,
    bytes: &[u8],
    meta_header: PathMetaHeader,
    k: usize,
    current: usize,
) -> io::Result<()> {
    let info = InfoField::new(standard().info_field(bytes, k)).unwrap_or(InfoField::ZERO);
    let expiry = path_expiry::segment_expiry_time(standard(), bytes, k);
    text::line(
        out,
        "  segment",
        format_args!(
            "{k} {}{} accumulator 0x{:04x} time {} s expires {} ms",
            direction(info),
            flag(info.is_peering(), " peering"),
            info.accumulator,
            info.timestamp,
            expiry.map_or(0, |found| found.value)
        ),
    )?;
    hop_fields(
        out,
        bytes,
        info,
        meta_header.first_hop_field(k),
        meta_header.segment_length(k),
        current,
    )
}

// Every segment.
fn segments(out: &impl Print, bytes: &[u8], meta_header: PathMetaHeader) -> io::Result<()> {
    let current = wide(meta_header.current_hop_field);
    for k in 0..meta_header.info_fields_count() {
        segment(out, bytes, meta_header, k, current)?;
    }
    Ok(())
}

// An interface, and the hop field that it belongs to.
fn interface_line(out: &impl Print, bytes: &[u8], index: usize) -> io::Result<()> {
    let nowhere = InterfaceAt {
        hop_field: 0,
        interface: None,
    };
    let found = path_interfaces::interface(standard(), bytes, index);
    let at = found.map_or(nowhere, |found| found.value);
    text::line(
        out,
        "    interface",
        format_args!(
            "{index} hop field {} number {}",
            at.hop_field,
            Number(at.interface)
        ),
    )
}

// Every interface, in order of travel.
fn interfaces(out: &impl Print, bytes: &[u8]) -> io::Result<()> {
    let found = path_interfaces::interfaces_count(standard(), bytes);
    let count = found.map_or(0, |found| found.value);
    text::line(out, "  interfaces", count)?;
    for i in 0..count {
        interface_line(out, bytes, i)?;
    }
    Ok(())
}

// The next move, made on a copy.
fn moved(bytes: &[u8], copy: &mut [u8]) -> Result<StandardPath, PathError> {
    copy_to_slice(standard(), bytes, copy)?;
    path_moves::single_move(standard(), copy)
}

// Where the next move leads.
fn next_move(out: &impl Print, bytes: &[u8], copy: &mut [u8]) -> io::Result<()> {
    match moved(bytes, copy) {
        Ok(path) => text::line(
            out,
            "  next move",
            format_args!(
                "to hop field {}, segment {}",
                path.meta_header.current_hop_field, path.meta_header.current_info_field
            ),
        ),
        Err(error) => refusal::none(out, "  next move", error),
    }
}

// The path of a reply: that of a packet that has arrived, reversed.
fn reply(out: &impl Print, bytes: &[u8], reversed: &mut [u8]) -> io::Result<()> {
    match reverse_to_slice(standard(), bytes, reversed) {
        Ok(_) => text::line(out, "  reply's path", Hex(reversed)),
        Err(error) => refusal::none(out, "  reply's path", error),
    }
}

// The reply, where there is room for it, as there is for every path in a packet.
fn reply_in_room(out: &impl Print, bytes: &[u8]) -> io::Result<()> {
    let mut room = [0u8; 4096];
    match room.get_mut(..bytes.len()) {
        Some(reversed) => reply(out, bytes, reversed),
        None => Ok(()),
    }
}

// The walk to the last hop field, made on a copy.
fn walked(bytes: &[u8], copy: &mut [u8]) -> Result<WalkAnswer, PathError> {
    copy_to_slice(standard(), bytes, copy)?;
    path_moves::walk(standard(), copy, MOST_MOVES)
}

// How many moves are left, and the reply's path. On a path that can't be walked no packet arrives, and none is replied to.
fn walk(out: &impl Print, bytes: &[u8], copy: &mut [u8]) -> io::Result<()> {
    match walked(bytes, copy) {
        Ok(walked) => {
            text::line(out, "  moves left", walked.moves)?;
            reply_in_room(out, copy)
        }
        Err(error) => {
            refusal::none(out, "  moves left", error)?;
            refusal::none(out, "  reply's path", error)
        }
    }
}

// What lies ahead of the packet.
fn onward(out: &impl Print, bytes: &[u8], copy: &mut [u8]) -> io::Result<()> {
    next_move(out, bytes, copy)?;
    walk(out, bytes, copy)
}

// The same, where there is room for a copy, as there is for every path in a packet.
fn onward_in_room(out: &impl Print, bytes: &[u8]) -> io::Result<()> {
    let mut room = [0u8; 4096];
    match room.get_mut(..bytes.len()) {
        Some(copy) => onward(out, bytes, copy),
        None => Ok(()),
    }
}

// A standard path, all of `bytes`, by its record.
pub fn path(out: &impl Print, bytes: &[u8], path: StandardPath) -> io::Result<()> {
    let meta_header = path.meta_header;
    text::line(out, "  info pointer", meta_header.current_info_field)?;
    text::line(out, "  hop pointer", meta_header.current_hop_field)?;
    text::line(out, "  reserved", meta_header.reserved)?;
    text::line(out, "  hop fields", meta_header.hop_fields_count())?;
    text::line(
        out,
        "  expiry",
        format_args!("{} ms since 1970", path.expiry_time()),
    )?;
    segments(out, bytes, meta_header)?;
    interfaces(out, bytes)?;
    onward_in_room(out, bytes)
}
