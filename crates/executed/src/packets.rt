// Calls on packets and on their headers. A host is four words: its kind, a service's number, its bytes, and a service's padding; that
// of an address, which has no padding, is the first three.
ghost use Rattle.std.specs.Prelude.{◌<◌};

use crate::print::Hex;
use crate::{meta_headers, print, words};
use address::host::HostAddr;
use address::ia::IsdAsn;
use address::scion_address::ScionAddr;
use address::service::ServiceAddr;
use errors::packet_error::EncodeError;
use packet::raw::ScionPacketRaw;
use packet_address_header::{AddressHeader, AddressHeaderRead, HostAddress, MaybeEncoded};
use packet_common_header::CommonHeader;
use packet_headers::ScionHeaders;
use path::standard::Part;
use scion_packets::{ScionCapture, ScionHost, ScionPacket, capture_out, encoded_out};
use std::io;

// Document 01's number of an answer to writing.
pub fn encoded(out: &impl Print, encoded: Result<(), EncodeError>) -> io::Result<()> {
    print::number(out, encoded_out(&encoded).number)
}

// Version, traffic class, flow, next header, factor, payload length, path type, host kinds and reserved bytes.
fn common_record(out: &impl Print, header: CommonHeader) -> io::Result<()> {
    print!(out;
        " {} {} {} {} {} {} {} {} {} {}",
        header.version,
        header.traffic_class,
        header.flow_id,
        header.next_header,
        header.header_length_factor,
        header.payload_length,
        header.path_type,
        header.destination_kind,
        header.source_kind,
        header.reserved
    )
}

// The number of a service, 0 for any other host.
fn service_number(host: HostAddr) -> u16 {
    match host {
        HostAddr::V4 | HostAddr::V6 => 0,
        HostAddr::Svc(service) => service.0,
    }
}

// A host's kind, a service's number, the sixteen bytes and the padding.
fn host(out: &impl Print, host: ScionHost) -> io::Result<()> {
    print!(out;
        " {} {} {} {}",
        host.kind,
        host.service,
        Hex(&host.bytes),
        host.padding
    )
}

// The networks and the hosts, each destination first.
fn address_record(
    out: &impl Print,
    destination_ia: u64,
    destination: ScionHost,
    source_ia: u64,
    source: ScionHost,
) -> io::Result<()> {
    print::two(out, destination_ia, source_ia)?;
    host(out, destination)?;
    host(out, source)
}

// `common B`: the common header that begins the bytes, and the lengths of all headers, of those after it, and of the payload.
pub fn common(out: &impl Print, bytes: &[u8]) -> io::Result<()> {
    let read = CommonHeader::decode(bytes);
    print::answer(out, read)?;
    let header = read.unwrap_or(CommonHeader::zero());
    common_record(out, header)?;
    print!(out;
        " {} {} {}",
        header.header_length(),
        header.remaining_header_length(),
        header.payload_size()
    )
}

// Two host kinds in one byte, as the common header has them.
fn host_kinds(destination: u8, source: u8) -> u8 {
    destination % 16 * 16 + source % 16
}

// The network of an address, its host's kind, a service's number and the sixteen bytes.
fn scion_address(out: &impl Print, address: ScionAddr) -> io::Result<()> {
    print!(out;
        " {} {} {} {}",
        address.isd_asn.0,
        address.kind(),
        service_number(address.host),
        Hex(&address.bytes)
    )
}

// Whether the host of an end has a name, and its address, all zero where it has none.
fn end(out: &impl Print, end: Option<ScionAddr>) -> io::Result<()> {
    print::flag(out, end.is_some())?;
    let nobody = ScionAddr::new(IsdAsn::WILDCARD, HostAddr::V4, [0; 16]);
    scion_address(out, end.unwrap_or(nobody))
}

// `address D S B`: the address header that begins the bytes, of hosts of kinds D and S, both below 16; its length; whether each end's
// host has a name, and then its address.
pub fn address(out: &impl Print, line: &[u8]) -> io::Result<()> {
    let mut room = [0u8; words::MOST_BYTES];
    let bytes = words::bytes_at(line, 3, &mut room);
    let kinds = host_kinds(words::number_at(line, 1), words::number_at(line, 2));
    let answer = AddressHeader::decode_with_context(bytes, kinds);
    print::answer(out, answer)?;
    let read = answer.unwrap_or(AddressHeaderRead {
        header: AddressHeader::zero(),
        length: 0,
    });
    let header = read.header;
    address_record(
        out,
        header.destination_ia.0,
        ScionHost::from(header.destination),
        header.source_ia.0,
        ScionHost::from(header.source),
    )?;
    print::number(out, read.length)?;
    end(out, header.destination())?;
    end(out, header.source())
}

// The common header of a packet that was split; its kinds are those of the hosts.
fn common_of(packet: ScionPacket) -> CommonHeader {
    CommonHeader {
        version: packet.version,
        traffic_class: packet.traffic_class,
        flow_id: packet.flow_id,
        next_header: packet.next_header,
        header_length_factor: packet.header_length_factor,
        payload_length: packet.payload_length,
        path_type: packet.path_type,
        destination_kind: packet.destination.kind,
        source_kind: packet.source.kind,
        reserved: packet.reserved,
    }
}

// A part of the bytes: where it lies, and its bytes.
fn part(out: &impl Print, part: Part, bytes: &[u8]) -> io::Result<()> {
    print::two(out, part.start, Hex(part.of(bytes)))
}

// A packet or capture that was split: its headers, where its path and its payload lie, and their bytes.
fn packet_record(out: &impl Print, packet: ScionPacket, bytes: &[u8]) -> io::Result<()> {
    print::handed(out, packet.answer)?;
    common_record(out, common_of(packet))?;
    address_record(
        out,
        packet.destination_ia,
        packet.destination,
        packet.source_ia,
        packet.source,
    )?;
    meta_headers::record(out, packet.path.meta_header)?;
    part(out, packet.path_part, bytes)?;
    part(out, packet.payload_part, bytes)
}

// `packet B`: the packet that begins the bytes.
pub fn packet(out: &impl Print, bytes: &[u8]) -> io::Result<()> {
    packet_record(out, ScionPacket::from(ScionPacketRaw::decode(bytes)), bytes)
}

// The capture that begins the bytes, split.
pub fn split_capture(bytes: &[u8]) -> ScionCapture {
    let read = ScionPacketRaw::decode_capture(bytes);
    let packet = ScionPacket::from(read.map(|capture| capture.packet));
    capture_out(packet, bytes.len())
}

// `capture B`: the capture that begins the bytes, and whether it is short.
pub fn capture(out: &impl Print, bytes: &[u8]) -> io::Result<()> {
    let capture = split_capture(bytes);
    packet_record(out, capture.packet, bytes)?;
    print::flag(out, capture.is_short)
}

// A host of a kind that has a name: IPv4, IPv6 or a service.
pub fn named_host(kind: u8, service: u16) -> Option<HostAddr> {
    match kind {
        0 => Some(HostAddr::V4),
        3 => Some(HostAddr::V6),
        4 => Some(HostAddr::Svc(ServiceAddr(service))),
        _ => None,
    }
}

// The sixteen bytes that word `k` begins.
fn host_bytes_at(line: &[u8], k: usize) -> [u8; 16] {
    let mut bytes = [0u8; 16];
    words::bytes_at(line, k, &mut bytes);
    bytes
}

// The host of the four words from word `k` on.
fn host_at(line: &[u8], k: usize) -> HostAddress
    requires { k < 100 }
{
    let kind = words::number_at(line, k);
    let host = match named_host(kind, words::number_at(line, k + 1)) {
        Some(host) => MaybeEncoded::Decoded(host),
        None => MaybeEncoded::Encoded(kind),
    };
    HostAddress {
        host,
        bytes: host_bytes_at(line, k + 2),
        padding: words::number_at(line, k + 3),
    }
}

// The address header of the ten words from word `k` on: both networks, then both hosts.
pub fn address_at(line: &[u8], k: usize) -> AddressHeader
    requires { k < 50 }
{
    AddressHeader {
        destination_ia: IsdAsn(words::number_at(line, k)),
        source_ia: IsdAsn(words::number_at(line, k + 1)),
        destination: host_at(line, k + 2),
        source: host_at(line, k + 6),
    }
}

// The address of a network and of the host that the three words from word `k` on name: of a kind without a name, an IPv4 host.
fn scion_address_at(line: &[u8], isd_asn: u64, k: usize) -> ScionAddr
    requires { k < 100 }
{
    let host = named_host(words::number_at(line, k), words::number_at(line, k + 1));
    ScionAddr::new(
        IsdAsn(isd_asn),
        host.unwrap_or(HostAddr::V4),
        host_bytes_at(line, k + 2),
    )
}

// `endhost n H m K`: the address of host H in network n; the same host in network m; and host K there.
pub fn endhost(out: &impl Print, line: &[u8]) -> io::Result<()> {
    let made = scion_address_at(line, words::number_at(line, 1), 2);
    scion_address(out, made)?;
    let moved = made.set_isd_asn(IsdAsn(words::number_at(line, 5)));
    scion_address(out, moved)?;
    let other = scion_address_at(line, 0, 6);
    scion_address(out, moved.set_host(other.host, other.bytes))
}

// `newaddr`, two networks, the three words of each of two hosts that have names, and D: the length of the header made of the two
// addresses, and the header written to D.
pub fn new_address(out: &impl Print, line: &[u8], dst: &mut [u8]) -> io::Result<()> {
    let destination = scion_address_at(line, words::number_at(line, 1), 3);
    let source = scion_address_at(line, words::number_at(line, 2), 6);
    let header = AddressHeader::new(destination, source);
    print::number(out, header.encoded_length())?;
    encoded(out, header.encode_to(dst))
}

// `write version class flow next factor payload type reserved` and the ten words of an address header, then `P D`: the headers and
// the path P written to a destination that holds D, after the length that they ask for.
pub fn write(out: &impl Print, line: &[u8], path: &[u8], dst: &mut [u8]) -> io::Result<()> {
    let headers = ScionHeaders {
        version: words::number_at(line, 1),
        traffic_class: words::number_at(line, 2),
        flow_id: words::number_at(line, 3),
        next_header: words::number_at(line, 4),
        header_length_factor: words::number_at(line, 5),
        payload_length: words::number_at(line, 6),
        path_type: words::number_at(line, 7),
        reserved: words::number_at(line, 8),
        address: address_at(line, 9),
    };
    print::number(out, headers.encoded_length(path.len()))?;
    encoded(out, headers.encode_to(path, dst))
}

// `new next payload flow type` and the ten words of an address header, then `P D`: the factor of headers made for the path P, and the
// headers and the path written to a destination that holds D.
pub fn new(out: &impl Print, line: &[u8], path: &[u8], dst: &mut [u8]) -> io::Result<()> {
    let headers = ScionHeaders::new(
        address_at(line, 5),
        words::number_at(line, 4),
        path.len(),
        words::number_at(line, 1),
        words::number_at(line, 2),
        words::number_at(line, 3),
    );
    print::number(out, headers.header_length_factor)?;
    encoded(out, headers.encode_to(path, dst))
}

// `putcommon version class flow next factor payload type destination source reserved D`: a common header written alone.
pub fn put_common(out: &impl Print, line: &[u8], dst: &mut [u8]) -> io::Result<()> {
    let header = CommonHeader {
        version: words::number_at(line, 1),
        traffic_class: words::number_at(line, 2),
        flow_id: words::number_at(line, 3),
        next_header: words::number_at(line, 4),
        header_length_factor: words::number_at(line, 5),
        payload_length: words::number_at(line, 6),
        path_type: words::number_at(line, 7),
        destination_kind: words::number_at(line, 8),
        source_kind: words::number_at(line, 9),
        reserved: words::number_at(line, 10),
    };
    encoded(out, header.encode_to(dst))
}
