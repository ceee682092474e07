// A packet split: its headers as values, its path and its payload as parts of the caller's bytes.
ghost use Rattle.std.specs.Prelude.{◌≡◌, false, cond, ltb, ◌≤◌, min, Ok};
ghost use Rattle.path.specs.Dataplane.{part_in};
ghost use Rattle.packet_common_header.specs.CommonHeader.{header_length, read_common};
ghost use Rattle.packet.specs.Raw as spec;

use errors::packet_error::DecodeError;
use packet_address_header::AddressHeader;
use packet_common_header::CommonHeader;
use path::dataplane::DataplanePath;
use path::standard::{Part, StandardPath};

// A packet that was split: its headers, the record of its path, and where its path and its payload lie.
#[derive(Clone, Copy, Debug, PartialEq, Eq, Hash)]
pub struct ScionPacketRaw {
    pub common: CommonHeader,
    pub address: AddressHeader,
    pub path: StandardPath,
    pub path_part: Part,
    pub payload_part: Part,
}

// A capture that was split, and whether it is short: whether it has fewer than 4 times the factor bytes.
#[derive(Clone, Copy, Debug, PartialEq, Eq, Hash)]
pub struct CaptureRead {
    pub packet: ScionPacketRaw,
    pub short: bool,
}

// Whether a packet of `len` bytes is refused for being short; a capture is not.
fn is_refused(common: CommonHeader, len: usize, capture: bool) -> bool
    ensures { result ≡ cond capture false (ltb len (header_length common)) }
{
    if capture {
        return false;
    }
    len < common.header_length()
}

// Where the headers end: at 4 times the factor, or where the bytes do.
fn header_end(common: CommonHeader, len: usize) -> usize
    ensures { (result ≡ min (header_length common) len) × (result ≤ len) }
{
    let end = common.header_length();
    if end < len {
        return end;
    }
    len
}

impl ScionPacketRaw {
    // Splits what follows the common header.
    #[tactic(auto, using(crate::proofs::RawLaws::stages))]
    fn rest(common: CommonHeader, bytes: &[u8]) -> Result<ScionPacketRaw, DecodeError>
        requires { read_common bytes.now ≡ Ok common }
        ensures { result ≡ spec.packet_answer (spec.read_rest common bytes.now) }
    {
        let end = header_end(common, bytes.len());
        let address_read = AddressHeader::decode_with_context(
            &bytes[CommonHeader::LENGTH..end],
            bytes[CommonHeader::HOST_KINDS],
        )?;
        let start = CommonHeader::LENGTH + address_read.length;
        let path_read = DataplanePath::new(common.path_type).decode(&bytes[start..end])?;
        let len = path_read.length;
        if len != end - start {
            return Err(DecodeError::InconsistentPathLength);
        }
        let size = common.payload_size();
        if bytes.len() - end < size {
            return Err(DecodeError::PacketEmptyOrTruncated);
        }
        Ok(ScionPacketRaw {
            common,
            address: address_read.header,
            path: path_read.path,
            path_part: Part { start, len },
            payload_part: Part {
                start: end,
                len: size,
            },
        })
    }

    // Splits the packet that begins `bytes`, or the capture; the bytes after its payload are no part of it.
    #[tactic(auto, using(crate::proofs::RawLaws::splits))]
    pub fn split(bytes: &[u8], capture: bool) -> Result<ScionPacketRaw, DecodeError>
        ensures { result ≡ spec.packet_answer (spec.reader_of capture bytes.now) }
    {
        let common = CommonHeader::decode(bytes)?;
        if is_refused(common, bytes.len(), capture) {
            return Err(DecodeError::PacketEmptyOrTruncated);
        }
        ScionPacketRaw::rest(common, bytes)
    }

    // Splits the packet that begins `bytes`. A short one is refused.
    pub fn decode(bytes: &[u8]) -> Result<ScionPacketRaw, DecodeError>
        ensures { result ≡ spec.packet_answer (spec.read_packet bytes.now) }
    {
        ScionPacketRaw::split(bytes, false)
    }

    // Splits the capture that begins `bytes`, short or not.
    #[tactic(auto, using(crate::proofs::RawLaws::captured))]
    pub fn decode_capture(bytes: &[u8]) -> Result<CaptureRead, DecodeError>
        ensures { result ≡ spec.capture_answer bytes.now }
    {
        let packet = ScionPacketRaw::split(bytes, true)?;
        let short = bytes.len() < packet.common.header_length();
        Ok(CaptureRead { packet, short })
    }

    // The path of the packet or capture: the part of its bytes that this answer names.
    pub fn path(self, bytes: &[u8]) -> &[u8]
        ensures { result.now ≡ part_in bytes.now self.path_part }
    {
        self.path_part.of(bytes)
    }

    // The payload of the packet or capture: the part of its bytes that this answer names.
    pub fn payload(self, bytes: &[u8]) -> &[u8]
        ensures { result.now ≡ part_in bytes.now self.payload_part }
    {
        self.payload_part.of(bytes)
    }
}
