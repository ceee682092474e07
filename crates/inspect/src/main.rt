// What is in a captured packet: every header value, the path, the moves ahead and the reply's path, or why it is refused; whether it is
// short, having fewer bytes than its headers say, for a station refuses such a packet. Each argument names a file that holds one packet;
// without arguments the packet is on standard input. A packet is at most 65,536 bytes here.
// Standard error stays empty unless a file can't be looked at, which leaves the exit status 0, or the output can't be written.
#![tactic(auto)]

mod header_lines;
mod path_lines;
mod refusal;
mod text;
mod unread;

ghost use Rattle.std.specs.Prelude.{◌≤◌, length};

use crate::text::Hex;
use errors::packet_error::DecodeError;
use packet::raw::ScionPacketRaw;
use path::dataplane::DataplanePath;
use path::standard::Part;
use std::env::{Env, FillError};
use std::fs::Files;
use std::io::{ErrorKind, Read};
use std::{fs, io};

// The system's number for a name that is too long.
const NAME_TOO_LONG: i32 = 36;

// The bytes after a packet's payload, and whether they read as a packet.
fn following(out: &impl Print, rest: &[u8], at: usize) -> io::Result<()> {
    text::size_line(out, "after the payload", rest.len())?;
    match ScionPacketRaw::decode_capture(rest) {
        Ok(_) => text::line(out, "second packet", format_args!("begins at {at}")),
        Err(_) => Ok(()),
    }
}

// What follows a payload, if anything.
fn after(out: &impl Print, bytes: &[u8], payload: Part) -> io::Result<()> {
    let from_payload = bytes.get(payload.start..).unwrap_or(&[]);
    let rest = from_payload.get(payload.len..).unwrap_or(&[]);
    if rest.is_empty() {
        return Ok(());
    }
    following(out, rest, bytes.len() - rest.len())
}

// A packet that was split.
fn accepted(out: &impl Print, bytes: &[u8], packet: ScionPacketRaw) -> io::Result<()> {
    let path_bytes = packet.path(bytes);
    header_lines::common(out, packet.common)?;
    header_lines::address(out, packet.address)?;
    print!(out; "path\n")?;
    text::line(out, "  starts at", packet.path_part.start)?;
    text::line(out, "  bytes", Hex(path_bytes))?;
    if packet.common.path_type == DataplanePath::SCION {
        path_lines::path(out, path_bytes, packet.path)?;
    }
    print!(out; "payload\n")?;
    text::line(out, "  starts at", packet.payload_part.start)?;
    text::line(out, "  bytes", Hex(packet.payload(bytes)))?;
    after(out, bytes, packet.payload_part)
}

// A station's refusal, where it is another than the capture's.
fn at_a_station(out: &impl Print, bytes: &[u8], capture: Option<DecodeError>) -> io::Result<()> {
    let station = ScionPacketRaw::decode(bytes).err();
    match station {
        Some(error) if station != capture => refusal::line(out, "at a station", error),
        _ => Ok(()),
    }
}

// One capture. One that is refused is not short.
fn inspect(out: &impl Print, bytes: &[u8]) -> io::Result<()> {
    text::size_line(out, "packet", bytes.len())?;
    match ScionPacketRaw::decode_capture(bytes) {
        Ok(read) => {
            text::line(out, "answer", "0 accepted")?;
            text::flag_line(out, "short", read.short)?;
            at_a_station(out, bytes, None)?;
            accepted(out, bytes, read.packet)
        }
        Err(error) => {
            refusal::line(out, "answer", error)?;
            text::flag_line(out, "short", false)?;
            at_a_station(out, bytes, Some(error))
        }
    }
}

// Reads until a file ends, a read fails or a buffer is full; how many bytes it then holds.
fn read_full(file: &mut impl Read, buffer: &mut [u8]) -> usize
    ensures { result ≤ length buffer.old }
{
    let mut filled: usize = 0;
    while filled < buffer.len() {
        match file.read(&mut buffer[filled..]) {
            Ok(0) | Err(_) => break,
            Ok(got) => filled += got,
        }
    }
    filled
}

// The packet that an open file holds. One read more tells a file's end from a read that failed and from a file that is too long.
fn inspect_open(
    out: &impl Print,
    err: &impl Print,
    name: &[u8],
    file: &mut impl Read,
) -> io::Result<()> {
    let mut buffer = [0u8; 65536];
    let length = read_full(file, &mut buffer);
    let mut beyond = [0u8; 1];
    match file.read(&mut beyond) {
        Ok(0) => inspect(out, &buffer[..length]),
        Ok(_) => unread::line(out, err, name, length),
        Err(error) => unread::not_read(out, err, name, error),
    }
}

// Opens the file of a name, which std takes only where it is UTF-8.
fn open<R: Files>(rt: &R, name: &[u8]) -> io::Result<R::File> {
    match str::from_utf8(name) {
        Ok(path) => fs::open(rt, path),
        Err(_) => Err(io::Error::from(ErrorKind::InvalidFilename)),
    }
}

// The packet in a file.
fn inspect_file(rt: &(impl Files + Print), err: &impl Print, name: &[u8]) -> io::Result<()> {
    text::name_line(rt, "file", name)?;
    match open(rt, name) {
        Ok(mut file) => inspect_open(rt, err, name, &mut file),
        Err(error) => unread::failed(rt, err, name, "can't be opened", error),
    }
}

// The packet in the file that argument `k` names.
fn inspect_named(rt: &(impl Env + Files + Print), err: &impl Print, k: usize) -> io::Result<()> {
    let mut name = [0u8; 4096];
    match rt.arg(k, &mut name) {
        Ok(length) => inspect_file(rt, err, &name[..length]),
        Err(_) => {
            let error = io::Error::from_raw_os_error(NAME_TOO_LONG);
            unread::failed(rt, err, b"argument", "the name is too long", error)
        }
    }
}

// How many arguments there are, the program's name among them.
fn argument_count(rt: &impl Env) -> usize {
    (0..usize::MAX)
        .find(|k| matches!(rt.arg(*k, &mut []), Err(FillError::NotPresent)))
        .unwrap_or(usize::MAX)
}

fn main(rt: HostRuntime) -> io::Result<()> {
    let err = rt.stderr();
    let count = argument_count(&rt);
    if count < 2 {
        inspect_open(&rt, &err, b"standard input", &mut rt.stdin())?;
    }
    for k in 1..count {
        inspect_named(&rt, &err, k)?;
    }
    Ok(())
}
