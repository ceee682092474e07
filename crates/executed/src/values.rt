// Calls on numbers on the wire, bounded numbers and addresses.
use crate::{packets, print, words};
use address::host::{HostAddr, HostType};
use address::ia::IsdAsn;
use address::service::ServiceAddr;
use errors::packet_error::DecodeError;
use errors::path_error::PathError;
use packet_common_header::{AddressInfo, CommonHeader};
use path::dataplane::DataplanePath;
use path_fields::{HopField, InfoField};
use path_meta_header::PathMetaHeader;
use std::fmt::Display;
use std::io;
use wire_encoding::bounded::{U2, U4, U6, U20};
use wire_encoding::number::Number;
use wire_encoding::{read, write};

// `get 2 B at`, `get 4 B at` and `get 8 B at`: the number of 16, 32 or 64 bits.
pub fn get<T: Number>(out: &impl Print, bytes: &[u8], at: usize) -> io::Result<()> {
    let number = read::get::<T>(bytes, at).map(|number| number.to_u64());
    print::answered(out, number.ok_or(DecodeError::PacketEmptyOrTruncated))
}

// `put 2 B at n`, `put 4 B at n` and `put 8 B at n`: a number of 16, 32 or 64 bits written.
pub fn put<T: Number>(out: &impl Print, bytes: &mut [u8], at: usize, number: T) -> io::Result<()> {
    let answer = write::put(bytes, at, number);
    print::answer_number(out, answer.map_err(|_| PathError::InadequateBufferSize))
}

// A number that fits its bits.
pub fn fitting<T: Copy + Display + Default>(out: &impl Print, number: Option<T>) -> io::Result<()> {
    print::answered(out, number.ok_or(PathError::NumberTooWide))
}

// `isdasn n`: the ISD, the AS, and whether either is the wildcard.
pub fn isdasn(out: &impl Print, line: &[u8]) -> io::Result<()> {
    let isd_asn = IsdAsn(words::number_at(line, 1));
    print::two(out, isd_asn.isd(), isd_asn.asn())?;
    print::flag(out, isd_asn.is_wildcard())
}

// `newisdasn i a`: the network number of ISD i and AS a, or 10 where a has more than 48 bits.
pub fn new_isdasn(out: &impl Print, line: &[u8]) -> io::Result<()> {
    let isd_asn = IsdAsn::new(words::number_at(line, 1), words::number_at(line, 2));
    fitting(out, isd_asn.map(|isd_asn| u64::from(isd_asn)))
}

// `service n`: whether it is multicast, whether it is anycast, and its number with the multicast bit set and cleared.
pub fn service(out: &impl Print, line: &[u8]) -> io::Result<()> {
    let service = ServiceAddr(words::number_at(line, 1));
    print::flag(out, service.is_multicast())?;
    print::flag(out, service.is_anycast())?;
    print::two(out, service.multicast().0, service.anycast().0)
}

// A number after 1; 0 where there is none.
fn known(out: &impl Print, number: Option<u8>) -> io::Result<()> {
    print::flag(out, number.is_some())?;
    print::number(out, number.unwrap_or(0))
}

// The type that the byte of word 1 names.
fn host_type(line: &[u8]) -> Option<HostType> {
    HostType::try_from(words::number_at::<u8>(line, 1)).ok()
}

// `hosttype n`: the number of the type that a byte names, after 1; 0 where it names none.
pub fn hosttype(out: &impl Print, line: &[u8]) -> io::Result<()> {
    known(out, host_type(line).map(|named| u8::from(named)))
}

// `hostkind n`: the host kind on the wire of the type that a byte names.
pub fn hostkind(out: &impl Print, line: &[u8]) -> io::Result<()> {
    known(out, host_type(line).and_then(|named| named.kind()))
}

// `hostlength k`: how many bytes a host of kind k takes; for kinds 0, 3 and 4 then the number of its type, and k.
pub fn hostlength(out: &impl Print, line: &[u8]) -> io::Result<()> {
    let kind = words::number_at(line, 1);
    print::number(out, AddressInfo(kind).address_length())?;
    match packets::named_host(kind, 0) {
        Some(host) => print::two(out, u8::from(HostType::from(host)), host.kind()),
        None => print::two(out, 0, 0),
    }
}

// `constant k`: a constant of the library, by its place in this list; 0 beyond it.
pub fn constant(out: &impl Print, k: u8) -> io::Result<()> {
    match k {
        0 => print::two(out, U2::BITS, U2::MAX),
        1 => print::two(out, U4::BITS, U4::MAX),
        2 => print::two(out, U6::BITS, U6::MAX),
        3 => print::two(out, U20::BITS, U20::MAX),
        4 => print::two(out, PathMetaHeader::LENGTH, DataplanePath::MAX_LEN),
        5 => print::two(out, InfoField::LENGTH, HopField::LENGTH),
        6 => print::two(
            out,
            InfoField::CONSTRUCTION_DIRECTION_FLAG,
            InfoField::PEERING_FLAG,
        ),
        7 => print::two(
            out,
            CommonHeader::LENGTH,
            CommonHeader::HEADER_LENGTH_MULTIPLICAND,
        ),
        8 => print::two(
            out,
            CommonHeader::MAX_HEADER_LENGTH,
            HostAddr::MAX_ADDRESS_BYTES,
        ),
        9 => print::two(out, DataplanePath::EMPTY, DataplanePath::SCION),
        10 => print::two(out, IsdAsn::WILDCARD.0, IsdAsn::MAX.0),
        11 => print::two(out, IsdAsn::BITS, IsdAsn::ASN_BITS),
        12 => print::two(out, ServiceAddr::DAEMON.0, ServiceAddr::CONTROL.0),
        13 => print::two(out, ServiceAddr::WILDCARD.0, 0),
        _ => print::two(out, 0, 0),
    }
}
