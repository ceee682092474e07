// The common header of a packet, by value: read from bytes, and written as bytes.
#![tactic(auto)]

ghost use Rattle.std.specs.Prelude.{◌≡◌, ◌≤◌, ◌<◌, length};
ghost use Rattle.packet_common_header.specs.CommonHeader as spec;
ghost use Rattle.wire_encoding.specs.Result.{done, or_else};

use errors::packet_error::{DecodeError, EncodeError};
use wire_encoding::read::{get_or_zero, wide};

// Every field, whatever its value: path type and host kinds are numbers, since a reader takes those that have no name too, and
// `common_at` and `common_bytes` speak of them. The host kinds are of 4 bits, as the version; the flow is of 20.
#[derive(Clone, Copy, Debug, PartialEq, Eq, Hash)]
pub struct CommonHeader {
    pub version: u8,
    pub traffic_class: u8,
    pub flow_id: u32,
    pub next_header: u8,
    pub header_length_factor: u8,
    pub payload_length: u16,
    pub path_type: u8,
    pub destination_kind: u8,
    pub source_kind: u8,
    pub reserved: u16,
}

// A host kind: 0 IPv4, 3 IPv6, 4 service, any other opaque.
#[derive(Clone, Copy, Debug, PartialEq, Eq, Hash)]
pub struct AddressInfo(pub u8);

impl AddressInfo {
    // How many bytes a host of this kind has.
    #[tactic(auto, unfolding(crate::specs::CommonHeader::host_length))]
    pub fn address_length(self) -> usize
        ensures { (result ≡ spec.host_length self.0) × (result ≤ 16) }
    {
        let kind = wide(self.0);
        4 * (kind % 4 + 1)
    }
}

// Whether each number is of its field's width.
#[tactic(auto, unfolding(crate::specs::CommonHeader::fields_fit))]
pub fn fields_fit(version: u8, flow_id: u32, destination_kind: u8, source_kind: u8) -> bool
    ensures { result ≡ spec.fields_fit version flow_id destination_kind source_kind }
{
    if 16 <= version {
        return false;
    }
    if 0x10_0000 <= flow_id {
        return false;
    }
    if 16 <= destination_kind {
        return false;
    }
    source_kind < 16
}

impl CommonHeader {
    pub const LENGTH: usize = 12;

    pub const HEADER_LENGTH_MULTIPLICAND: usize = 4;

    pub const MAX_HEADER_LENGTH: usize = 1020;

    const MIN_HEADER_LENGTH_FACTOR: u8 = 9;

    // Where the byte of the host kinds stands.
    pub const HOST_KINDS: usize = 9;

    // The header that stands in the place of one that was refused.
    #[tactic(auto, unfolding(crate::specs::CommonHeader::zero_common, crate::specs::CommonHeader::common_at, wire_encoding::specs::BigEndian::big_endian))]
    pub fn zero() -> CommonHeader
        ensures { result ≡ spec.zero_common }
    {
        CommonHeader {
            version: 0,
            traffic_class: 0,
            flow_id: 0,
            next_header: 0,
            header_length_factor: 0,
            payload_length: 0,
            path_type: 0,
            destination_kind: 0,
            source_kind: 0,
            reserved: 0,
        }
    }

    // The length of all headers, in bytes.
    #[tactic(auto, unfolding(crate::specs::CommonHeader::header_length))]
    pub fn header_length(self) -> usize
        ensures { (result ≡ spec.header_length self) × (result ≤ 1020) }
    {
        4 * wide(self.header_length_factor)
    }

    // The length of the headers after this one.
    #[tactic(auto, unfolding(crate::specs::CommonHeader::remaining_header_length))]
    pub fn remaining_header_length(self) -> usize
        ensures { result ≡ spec.remaining_header_length self }
    {
        let length = self.header_length();
        if length < CommonHeader::LENGTH {
            return 0;
        }
        length - CommonHeader::LENGTH
    }

    // The length of the payload.
    pub fn payload_size(self) -> usize
        ensures { result ≡ self.payload_length }
    {
        self.payload_length as usize
    }

    // Reads the common header that begins `bytes`.
    #[tactic(auto, using(wire_encoding::proofs::BigEndian::or_zero_is), unfolding(crate::specs::CommonHeader::read_common, crate::specs::CommonHeader::common_at))]
    pub fn decode(bytes: &[u8]) -> Result<CommonHeader, DecodeError>
        ensures { result ≡ spec.read_common bytes.now }
    {
        if bytes.len() == 0 {
            return Err(DecodeError::PacketEmptyOrTruncated);
        }
        let version = bytes[0] / 16;
        if version != 0 {
            return Err(DecodeError::UnsupportedVersion(version));
        }
        if bytes.len() < CommonHeader::LENGTH {
            return Err(DecodeError::PacketEmptyOrTruncated);
        }
        let factor = bytes[5];
        if factor < CommonHeader::MIN_HEADER_LENGTH_FACTOR {
            return Err(DecodeError::InvalidHeaderLength(factor));
        }
        let first: u32 = get_or_zero(bytes, 0);
        let kinds = bytes[CommonHeader::HOST_KINDS];
        Ok(CommonHeader {
            version: (first / 0x1000_0000 % 16) as u8,
            traffic_class: (first / 0x10_0000 % 256) as u8,
            flow_id: first % 0x10_0000,
            next_header: bytes[4],
            header_length_factor: factor,
            payload_length: get_or_zero(bytes, 6),
            path_type: bytes[8],
            destination_kind: kinds / 16,
            source_kind: kinds % 16,
            reserved: get_or_zero(bytes, 10),
        })
    }

    // Writes the header to a destination of exactly 12 bytes, or leaves it as it is.
    pub fn encode_to(self, dst: &mut [u8]) -> Result<(), EncodeError>
        ensures value { result ≡ done (spec.write_common self (length dst.old)) }
        ensures dst_after { dst.new ≡ or_else (spec.write_common self (length dst.old)) dst.old }
    {
        if !fields_fit(
            self.version,
            self.flow_id,
            self.destination_kind,
            self.source_kind,
        ) {
            return Err(EncodeError::NumberTooWide);
        }
        if self.header_length_factor == 0 {
            return Err(EncodeError::InvalidHeaderLength);
        }
        if dst.len() != CommonHeader::LENGTH {
            return Err(EncodeError::InadequateBufferSize);
        }
        let first = (self.version as u32 * 256 + self.traffic_class as u32) * 0x10_0000
            + self.flow_id;
        let payload_length = self.payload_length;
        let reserved = self.reserved;
        let raw = [
            (first / 0x100_0000) as u8,
            (first / 0x1_0000 % 256) as u8,
            (first / 0x100 % 256) as u8,
            (first % 256) as u8,
            self.next_header,
            self.header_length_factor,
            (payload_length / 256) as u8,
            (payload_length % 256) as u8,
            self.path_type,
            self.destination_kind * 16 + self.source_kind,
            (reserved / 256) as u8,
            (reserved % 256) as u8,
        ];
        dst.copy_from_slice(&raw);
        Ok(())
    }
}
