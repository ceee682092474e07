// All headers of a packet, put together and written.
#![tactic(auto)]

ghost use Rattle.std.specs.Prelude.{◌≡◌, ◌+◌, eqb, length};
ghost use Rattle.wire_encoding.specs.Result.{done, or_else};
ghost use Rattle.packet_headers.specs.Headers as spec;

use errors::packet_error::EncodeError;
use packet_address_header::AddressHeader;
use packet_common_header::{CommonHeader, fields_fit};
use wire_encoding::write::put_slice;

// The headers of a packet but for its path, which stands beside them; its type is the byte of the wire, which may be any. The host kinds are the hosts' own. Factor and payload
// length may be any number: the encoder tests them.
#[derive(Clone, Copy, Debug, PartialEq, Eq, Hash)]
pub struct ScionHeaders {
    pub version: u8,
    pub traffic_class: u8,
    pub flow_id: u32,
    pub next_header: u8,
    pub header_length_factor: usize,
    pub payload_length: usize,
    pub path_type: u8,
    pub reserved: u16,
    pub address: AddressHeader,
}

// How many bytes a path of a type adds to the headers: none for the empty path, all of them for any other.
#[tactic(auto, unfolding(crate::specs::Headers::added_length))]
fn path_length(path_type: u8, path_len: usize) -> usize
    ensures { result ≡ spec.added_length path_type path_len }
{
    if path_type == 0 {
        return 0;
    }
    path_len
}

// Whether two runs of these lengths fill `size` bytes; their sum need not be a number.
fn fills(fixed: usize, added: usize, size: usize) -> bool
    ensures { result ≡ eqb size (fixed + added) }
{
    if size < fixed {
        return false;
    }
    size - fixed == added
}

impl ScionHeaders {
    // The headers of a new packet with a path of `path_len` bytes: version, traffic class, reserved bytes and both paddings 0, those of
    // hosts that were read too; the factor by the lengths.
    #[tactic(auto, using(crate::proofs::Headers::factor_is), unfolding(crate::specs::Headers::new_headers))]
    pub fn new(
        address: AddressHeader,
        path_type: u8,
        path_len: usize,
        next_header: u8,
        payload_length: usize,
        flow_id: u32,
    ) -> ScionHeaders
        ensures { result ≡ spec.new_headers address path_type path_len next_header payload_length flow_id }
    {
        let fixed = CommonHeader::LENGTH + address.encoded_length();
        let added = path_length(path_type, path_len);
        ScionHeaders {
            version: 0,
            traffic_class: 0,
            flow_id,
            next_header,
            header_length_factor: fixed / 4 + added / 4,
            payload_length,
            path_type,
            reserved: 0,
            address: address.without_padding(),
        }
    }

    // How many bytes the headers take with a path of `path_len` bytes, where a number can say it; else the largest number.
    #[tactic(auto, unfolding(crate::specs::Headers::encoded_length, crate::specs::Headers::headers_length))]
    pub fn encoded_length(self, path_len: usize) -> usize
        ensures { result ≡ spec.encoded_length self path_len }
    {
        let fixed = CommonHeader::LENGTH + self.address.encoded_length();
        let added = path_length(self.path_type, path_len);
        if added <= 0xFFFF_FFFF_FFFF_FFFF - fixed {
            return fixed + added;
        }
        0xFFFF_FFFF_FFFF_FFFF
    }

    // Writes the headers and the path after them to a destination that they fill, or leaves it as it is.
    #[tactic(auto, using(crate::proofs::Headers::encodes), unfolding(crate::specs::Headers::write_headers, crate::specs::Headers::headers_length, crate::specs::Headers::common_of, wire_encoding::specs::Result::done, packet_common_header::specs::CommonHeader::common_fits, packet_address_header::specs::AddressHeader::on_wire, packet_address_header::specs::AddressHeader::host_on_wire, packet_address_header::specs::AddressHeader::wire_length, packet_address_header::specs::AddressHeader::address_length))]
    pub fn encode_to(self, path: &[u8], dst: &mut [u8]) -> Result<(), EncodeError>
        ensures value { result ≡ done (spec.write_headers self path.now (length dst.old)) }
        ensures dst_after { dst.new ≡ or_else (spec.write_headers self path.now (length dst.old)) dst.old }
    {
        let wire = self.address.on_wire();
        if !fields_fit(
            self.version,
            self.flow_id,
            wire.destination.kind,
            wire.source.kind,
        ) {
            return Err(EncodeError::NumberTooWide);
        }
        if self.header_length_factor == 0 {
            return Err(EncodeError::InvalidHeaderLength);
        }
        if 255 < self.header_length_factor {
            return Err(EncodeError::HeaderTooLarge);
        }
        if 65535 < self.payload_length {
            return Err(EncodeError::PayloadTooLarge);
        }
        let fixed = CommonHeader::LENGTH + wire.encoded_length();
        let added = path_length(self.path_type, path.len());
        if !fills(fixed, added, dst.len()) {
            return Err(EncodeError::InadequateBufferSize);
        }
        let common = CommonHeader {
            version: self.version,
            traffic_class: self.traffic_class,
            flow_id: self.flow_id,
            next_header: self.next_header,
            header_length_factor: self.header_length_factor as u8,
            payload_length: self.payload_length as u16,
            path_type: self.path_type,
            destination_kind: wire.destination.kind,
            source_kind: wire.source.kind,
            reserved: self.reserved,
        };
        wire.put(dst, CommonHeader::LENGTH).unwrap();
        common.encode_to(&mut dst[0..CommonHeader::LENGTH]).unwrap();
        put_slice(dst, fixed, &path[0..added]).unwrap();
        Ok(())
    }
}
