// Calls on paths as bytes: word 1 is the type, word 2 the bytes, word 3 an index or a time.
use crate::{meta_headers, print};
use errors::path_error::PathError;
use path::dataplane::DataplanePath;
use path::standard::{Found, Part};
use scion_paths::{
    ScionExpiry, ScionInterface, ScionInterfaceCount, ScionPathRead, ScionSegment, ScionTimeLeft,
};
use std::io;

// The part that stands in the place of one that was refused.
const NOWHERE: Part = Part { start: 0, len: 0 };

// `path T B`: the path's length, its pointers, its reserved bits and its lengths.
pub fn read(out: &impl Print, path: DataplanePath, bytes: &[u8]) -> io::Result<()> {
    let read = ScionPathRead::from(path.decode(bytes));
    print::handed(out, read.answer)?;
    print::number(out, read.length)?;
    meta_headers::record(out, read.path.meta_header)
}

// `raw T B`: the bytes of the path; none where it is refused.
pub fn raw(out: &impl Print, path: DataplanePath, bytes: &[u8]) -> io::Result<()> {
    print::bytes(out, path.raw(bytes))
}

// A part by its start and its length.
fn part(out: &impl Print, part: Part) -> io::Result<()> {
    print::two(out, part.start, part.len)
}

// Where a field lies.
fn located(out: &impl Print, located: Result<Found<Part>, PathError>) -> io::Result<()> {
    print::answer(out, located)?;
    part(out, located.map_or(NOWHERE, |found| found.value))
}

// `locinfo T B i`: where info field i lies, and its bytes.
pub fn locinfo(
    out: &impl Print,
    path: DataplanePath,
    bytes: &[u8],
    index: usize,
) -> io::Result<()> {
    located(out, path.locate_info_field(bytes, index))?;
    print::bytes(out, path.info_field(bytes, index))
}

// `lochop T B i`: where hop field i lies, and its bytes.
pub fn lochop(out: &impl Print, path: DataplanePath, bytes: &[u8], index: usize) -> io::Result<()> {
    located(out, path.locate_hop_field(bytes, index))?;
    print::bytes(out, path.hop_field(bytes, index))
}

// `segment T B i`: where segment i's info field and its hop fields lie.
pub fn segment(
    out: &impl Print,
    path: DataplanePath,
    bytes: &[u8],
    index: usize,
) -> io::Result<()> {
    let segment = ScionSegment::from(path.segment(bytes, index));
    print::handed(out, segment.answer)?;
    part(out, segment.info_field)?;
    part(out, segment.hop_fields)
}

// An expiry in ms.
pub fn expiry(out: &impl Print, found: Result<Found<u64>, PathError>) -> io::Result<()> {
    let expiry = ScionExpiry::from(found);
    print::handed(out, expiry.answer)?;
    print::number(out, expiry.ms)
}

// `left T B now`: the time left.
pub fn left(out: &impl Print, path: DataplanePath, bytes: &[u8], now: u64) -> io::Result<()> {
    let left = ScionTimeLeft::from(path_expiry::time_left(path, bytes, now));
    print::handed(out, left.answer)?;
    print::number(out, left.ms)
}

// `ifcount T B`: the number of interfaces.
pub fn ifcount(out: &impl Print, path: DataplanePath, bytes: &[u8]) -> io::Result<()> {
    let counted = ScionInterfaceCount::from(path_interfaces::interfaces_count(path, bytes));
    print::handed(out, counted.answer)?;
    print::number(out, counted.count)
}

// `iface T B i`: interface i's hop field and its number.
pub fn iface(out: &impl Print, path: DataplanePath, bytes: &[u8], index: usize) -> io::Result<()> {
    let interface = ScionInterface::from(path_interfaces::interface(path, bytes, index));
    print::handed(out, interface.answer)?;
    print::two(out, interface.hop_field, interface.id)
}
