// What calls on packets take from C and hand to it, in the layout of include/scion_proto.h, and how it is made.
#![tactic(auto)]

ghost use Rattle.std.specs.Prelude.{◌≡◌, ◌*◌, ltb};
ghost use Rattle.scion_packets.specs.Packets as spec;

use address::host::HostAddr;
use address::ia::IsdAsn;
use address::service::ServiceAddr;
use errors::packet_error::{DecodeError, EncodeError};
use packet::raw::ScionPacketRaw;
use packet_address_header::{AddressHeader, HostAddress, MaybeEncoded};
use packet_common_header::CommonHeader;
use packet_headers::ScionHeaders as Headers;
use path::standard::{Part, StandardPath};
use scion_paths::{ScionAnswer, decoded_out};
use wire_encoding::read::wide;

// The structs are C's, field by field (include/scion_proto.h): there kinds, types and refusals are numbers, beside zeros.

// A host: its kind on the wire, a service's number and padding, or the first bytes of `bytes`.
#[repr(C)]
#[derive(Clone, Copy)]
pub struct ScionHost {
    pub kind: u8,
    pub service: u16,
    pub bytes: [u8; 16],
    pub padding: u16,
}

// A packet that was split: every value of its headers, and where its path and its payload lie.
#[repr(C)]
#[derive(Clone, Copy)]
pub struct ScionPacket {
    pub answer: ScionAnswer,
    pub path: StandardPath,
    pub version: u8,
    pub traffic_class: u8,
    pub next_header: u8,
    pub header_length_factor: u8,
    pub path_type: u8,
    pub payload_length: u16,
    pub reserved: u16,
    pub flow_id: u32,
    pub destination_ia: u64,
    pub source_ia: u64,
    pub destination: ScionHost,
    pub source: ScionHost,
    pub path_part: Part,
    pub payload_part: Part,
}

// A capture that was split, and whether it has fewer bytes than its headers say; `short` is a word of C's.
#[repr(C)]
#[derive(Clone, Copy)]
pub struct ScionCapture {
    pub packet: ScionPacket,
    pub is_short: bool,
}

// The headers to be written.
#[repr(C)]
#[derive(Clone, Copy)]
pub struct ScionHeaders {
    pub version: u8,
    pub traffic_class: u8,
    pub next_header: u8,
    pub path_type: u8,
    pub reserved: u16,
    pub flow_id: u32,
    pub header_length_factor: usize,
    pub payload_length: usize,
    pub destination_ia: u64,
    pub source_ia: u64,
    pub destination: ScionHost,
    pub source: ScionHost,
}

// A service's number; 0 for any other host.
fn service_of(host: MaybeEncoded) -> u16
    ensures { result ≡ spec.service_of host }
{
    match host {
        MaybeEncoded::Decoded(HostAddr::Svc(service)) => service.0,
        _ => 0,
    }
}

// A host that was read.
impl From<HostAddress> for ScionHost {
    ghost from_gives = { λ host out. out ≡ spec.host_out host };

    #[tactic(auto, unfolding(crate::specs::Packets::host_out))]
    fn from(address: HostAddress) -> ScionHost {
        let bytes = address.bytes;
        ScionHost {
            kind: address.kind(),
            service: service_of(address.host),
            bytes,
            padding: address.padding,
        }
    }
}

// A host to be written, by its kind; only a service has a padding.
impl From<ScionHost> for HostAddress {
    ghost from_gives = { λ given host. host ≡ spec.host_in given };

    #[tactic(auto, unfolding(crate::specs::Packets::host_in, packet_address_header::specs::AddressHeader::host_of_kind))]
    fn from(given: ScionHost) -> HostAddress {
        let bytes = given.bytes;
        let host = match given.kind {
            0 => MaybeEncoded::Decoded(HostAddr::V4),
            3 => MaybeEncoded::Decoded(HostAddr::V6),
            4 => MaybeEncoded::Decoded(HostAddr::Svc(ServiceAddr(given.service))),
            kind => MaybeEncoded::Encoded(kind),
        };
        let padding = if given.kind == 4 { given.padding } else { 0 };
        HostAddress {
            host,
            bytes,
            padding,
        }
    }
}

// The address header of both ends.
#[tactic(auto, unfolding(crate::specs::Packets::address_in))]
pub fn address_in(
    destination_ia: u64,
    destination: ScionHost,
    source_ia: u64,
    source: ScionHost,
) -> AddressHeader
    ensures { result ≡ spec.address_in destination_ia destination source_ia source }
{
    AddressHeader {
        destination_ia: IsdAsn(destination_ia),
        source_ia: IsdAsn(source_ia),
        destination: HostAddress::from(destination),
        source: HostAddress::from(source),
    }
}

// What stands in the place of a packet that was refused.
#[tactic(auto, unfolding(crate::specs::Packets::no_packet))]
fn no_packet() -> ScionPacketRaw
    ensures { result ≡ spec.no_packet }
{
    let nowhere = Part { start: 0, len: 0 };
    ScionPacketRaw {
        common: CommonHeader::zero(),
        address: AddressHeader::zero(),
        path: StandardPath::zero(),
        path_part: nowhere,
        payload_part: nowhere,
    }
}

// A packet that was split; all zero but the answer where it was refused.
impl From<Result<ScionPacketRaw, DecodeError>> for ScionPacket {
    ghost from_gives = { λ read out. out ≡ spec.packet_out read };

    #[tactic(auto, unfolding(crate::specs::Packets::packet_out))]
    fn from(read: Result<ScionPacketRaw, DecodeError>) -> ScionPacket {
        let answer = decoded_out(&read);
        let packet = match read {
            Ok(packet) => packet,
            Err(_) => no_packet(),
        };
        let common = packet.common;
        let address = packet.address;
        ScionPacket {
            answer,
            path: packet.path,
            version: common.version,
            traffic_class: common.traffic_class,
            next_header: common.next_header,
            header_length_factor: common.header_length_factor,
            path_type: common.path_type,
            payload_length: common.payload_length,
            reserved: common.reserved,
            flow_id: common.flow_id,
            destination_ia: address.destination_ia.0,
            source_ia: address.source_ia.0,
            destination: ScionHost::from(address.destination),
            source: ScionHost::from(address.source),
            path_part: packet.path_part,
            payload_part: packet.payload_part,
        }
    }
}

// A capture of `len` bytes. One that was refused has factor 0, and nothing is shorter than that.
pub fn capture_out(packet: ScionPacket, len: usize) -> ScionCapture
    ensures { result ≡ record { packet = packet; is_short = ltb len (4 * packet.header_length_factor) } }
{
    let length = 4 * wide(packet.header_length_factor);
    ScionCapture {
        packet,
        is_short: len < length,
    }
}

// The headers as the library takes them.
impl From<ScionHeaders> for Headers {
    ghost from_gives = { λ given headers. headers ≡ spec.headers_in given };

    #[tactic(auto, unfolding(crate::specs::Packets::headers_in))]
    fn from(given: ScionHeaders) -> Headers {
        let destination = given.destination;
        let source = given.source;
        let address = address_in(given.destination_ia, destination, given.source_ia, source);
        Headers {
            version: given.version,
            traffic_class: given.traffic_class,
            flow_id: given.flow_id,
            next_header: given.next_header,
            header_length_factor: given.header_length_factor,
            payload_length: given.payload_length,
            path_type: given.path_type,
            reserved: given.reserved,
            address,
        }
    }
}

// The headers as C takes them.
impl From<Headers> for ScionHeaders {
    ghost from_gives = { λ made out. out ≡ spec.headers_out made };

    #[tactic(auto, unfolding(crate::specs::Packets::headers_out))]
    fn from(made: Headers) -> ScionHeaders {
        let address = made.address;
        ScionHeaders {
            version: made.version,
            traffic_class: made.traffic_class,
            next_header: made.next_header,
            path_type: made.path_type,
            reserved: made.reserved,
            flow_id: made.flow_id,
            header_length_factor: made.header_length_factor,
            payload_length: made.payload_length,
            destination_ia: address.destination_ia.0,
            source_ia: address.source_ia.0,
            destination: ScionHost::from(address.destination),
            source: ScionHost::from(address.source),
        }
    }
}

// The answer of a writer.
#[tactic(auto, unfolding(crate::specs::Packets::encoded_out))]
pub fn encoded_out(written: &Result<(), EncodeError>) -> ScionAnswer
    ensures { result ≡ spec.encoded_out written.now }
{
    match written {
        Ok(_) => ScionAnswer::ACCEPTED,
        Err(error) => ScionAnswer {
            number: error.number(),
            value: 0,
        },
    }
}
