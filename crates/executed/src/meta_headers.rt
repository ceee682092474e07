// Calls on the meta header of a path.
ghost use Rattle.std.specs.Prelude.{◌<◌};

use crate::{packets, print, values, words};
use errors::path_error::PathError;
use path_meta_header::PathMetaHeader;
use std::io;

// The three lengths.
fn lengths(out: &impl Print, meta_header: PathMetaHeader) -> io::Result<()> {
    let [first, second, third] = meta_header.segment_lengths;
    print!(out; " {first} {second} {third}")
}

// The pointers, the reserved bits and the three lengths.
pub fn record(out: &impl Print, meta_header: PathMetaHeader) -> io::Result<()> {
    print!(out;
        " {} {} {}",
        meta_header.current_info_field, meta_header.current_hop_field, meta_header.reserved
    )?;
    lengths(out, meta_header)
}

// The header that stands in the place of one that was refused.
fn zero() -> PathMetaHeader {
    PathMetaHeader::from(0)
}

// The three lengths from word `k` on.
fn lengths_at(line: &[u8], k: usize) -> [u8; 3]
    requires { k < 100 }
{
    let first = words::number_at(line, k);
    let second = words::number_at(line, k + 1);
    let third = words::number_at(line, k + 2);
    [first, second, third]
}

// The header of the six bytes in words 1 to 6.
fn record_at(line: &[u8]) -> PathMetaHeader {
    PathMetaHeader {
        current_info_field: words::number_at(line, 1),
        current_hop_field: words::number_at(line, 2),
        reserved: words::number_at(line, 3),
        segment_lengths: lengths_at(line, 4),
    }
}

// The header of the lengths in words 1 to 3, at its start.
fn start_at(line: &[u8]) -> PathMetaHeader {
    PathMetaHeader {
        segment_lengths: lengths_at(line, 1),
        ..zero()
    }
}

// `meta B`: the header that begins the bytes.
pub fn meta(out: &impl Print, bytes: &[u8]) -> io::Result<()> {
    let read = PathMetaHeader::decode(bytes);
    print::answer(out, read)?;
    record(out, read.unwrap_or(zero()))
}

// `firsts B`: the number of `meta`'s answer for every byte in the place of B's first of 4, from 0 on.
pub fn firsts(out: &impl Print, bytes: &[u8]) -> io::Result<()> {
    if bytes.len() < PathMetaHeader::LENGTH {
        return Ok(());
    }
    for first in 0..=u8::MAX {
        let header = [first, bytes[1], bytes[2], bytes[3]];
        print::answer_number(out, PathMetaHeader::decode(&header))?;
    }
    Ok(())
}

// `counts C H R a b c`: what a header of these fields counts, its word and its reversed lengths.
pub fn counts(out: &impl Print, line: &[u8]) -> io::Result<()> {
    let meta_header = record_at(line);
    print!(out;
        " {} {} {} {} {}",
        meta_header.info_fields_count(),
        meta_header.hop_fields_count(),
        meta_header.interfaces_count(),
        meta_header.encoded_path_length(),
        meta_header.computed_info_field_index()
    )?;
    values::fitting(out, meta_header.as_u32())?;
    lengths(out, meta_header.to_reversed())
}

// `encode C H R a b c B`: a header written to a destination that holds B.
pub fn encode(out: &impl Print, line: &[u8], dst: &mut [u8]) -> io::Result<()> {
    packets::encoded(out, record_at(line).encode_to(dst))
}

// `ifhop a b c i`: the hop field of interface i.
pub fn ifhop(out: &impl Print, line: &[u8]) -> io::Result<()> {
    let index = start_at(line).hop_field_index_for_interface(words::number_at(line, 4));
    print::answered(out, index.ok_or(PathError::NoSuchField))
}

// `offset a b c i`: where info field i starts, and hop field i.
pub fn offset(out: &impl Print, line: &[u8]) -> io::Result<()> {
    let meta_header = start_at(line);
    let index = words::number_at(line, 4);
    let info_field = meta_header.info_field_offset(index);
    print::answered(out, info_field.ok_or(PathError::NoSuchField))?;
    let hop_field = meta_header.hop_field_offset(index);
    print::answered(out, hop_field.ok_or(PathError::NoSuchField))
}
