// The records that calls hand back of a path, each by its meta header and its expiry. Word 1 is the type, word 2 the bytes.
use crate::{meta_headers, packets, print, words};
use errors::path_error::PathError;
use packet::raw::ScionPacketRaw;
use path::dataplane::{DataplanePath, Extent};
use path::standard::StandardPath;
use path_meta_header::PathMetaHeader;
use path_moves::WalkAnswer;
use scion_packets::ScionPacket;
use scion_paths::{
    ScionAnswer, ScionExpiry, ScionInterface, ScionInterfaceCount, ScionPathAnswer, ScionPathRead,
    ScionSegment, ScionTimeLeft, ScionWalk, ScionWrittenPath, hop_field_out, info_field_out,
};
use std::io;

// An answer and the record beside it: pointers, reserved bits, lengths, and the expiry.
fn record(out: &impl Print, answer: ScionAnswer, path: StandardPath) -> io::Result<()> {
    print::handed(out, answer)?;
    meta_headers::record(out, path.meta_header)?;
    print::number(out, path.expiry_time())
}

// `recordread T B`: the record that reading hands back.
pub fn read(out: &impl Print, path: DataplanePath, bytes: &[u8]) -> io::Result<()> {
    let read = ScionPathRead::from(path.decode(bytes));
    record(out, read.answer, read.path)
}

// `recordviews T B i`: the expiry in the record beside info field, hop field and segment i, the expiry of segment i and of the path,
// the time left at i, the number of interfaces, and interface i.
pub fn views(out: &impl Print, path: DataplanePath, bytes: &[u8], index: usize) -> io::Result<()> {
    let records = [
        info_field_out(bytes, path.locate_info_field(bytes, index)).path,
        hop_field_out(bytes, path.locate_hop_field(bytes, index)).path,
        ScionSegment::from(path.segment(bytes, index)).path,
        ScionExpiry::from(path_expiry::segment_expiry_time(path, bytes, index)).path,
        ScionExpiry::from(path_expiry::expiry_time(path, bytes)).path,
        ScionTimeLeft::from(path_expiry::time_left(path, bytes, index as u64)).path,
        ScionInterfaceCount::from(path_interfaces::interfaces_count(path, bytes)).path,
        ScionInterface::from(path_interfaces::interface(path, bytes, index)).path,
    ];
    for handed in records {
        print::number(out, handed.expiry)?;
    }
    Ok(())
}

// `recordpacket B`: the record of a packet's path.
pub fn packet(out: &impl Print, bytes: &[u8]) -> io::Result<()> {
    let packet = ScionPacket::from(ScionPacketRaw::decode(bytes));
    record(out, packet.answer, packet.path)
}

// `recordcapture B`: the record of a capture's path.
pub fn capture(out: &impl Print, bytes: &[u8]) -> io::Result<()> {
    let packet = packets::split_capture(bytes).packet;
    record(out, packet.answer, packet.path)
}

// The record of the path that a call leaves.
pub fn left(out: &impl Print, left: Result<StandardPath, PathError>) -> io::Result<()> {
    let left = ScionPathAnswer::from(left);
    record(out, left.answer, left.path)
}

// The record of the path that a walk leaves.
pub fn walk(out: &impl Print, walked: Result<WalkAnswer, PathError>) -> io::Result<()> {
    let walk = ScionWalk::from(walked);
    record(out, walk.answer, walk.path)
}

// The record of the path that is written to a destination, and how many bytes of it the path is.
pub fn written(out: &impl Print, written: Result<Extent, PathError>) -> io::Result<()> {
    let written = ScionWrittenPath::from(written);
    record(out, written.answer, written.path)?;
    print::number(out, written.length)
}

// A record made by hand: a header of zeros, and this expiry.
fn made(expiry: u64) -> StandardPath {
    StandardPath {
        meta_header: PathMetaHeader::from(0),
        expiry,
    }
}

// `recordexp e`: the expiry that a record with the stored number e tells.
pub fn expiry(out: &impl Print, line: &[u8]) -> io::Result<()> {
    print::number(out, made(words::number_at(line, 1)).expiry_time())
}

// `recordleft e now`: the time left of it at a time, and the expiry in the record beside it.
pub fn time_left(out: &impl Print, line: &[u8]) -> io::Result<()> {
    let path = made(words::number_at(line, 1));
    let left = ScionTimeLeft::from(path.time_left(words::number_at(line, 2)));
    print::handed(out, left.answer)?;
    print::number(out, left.ms)?;
    print::number(out, left.path.expiry)
}
