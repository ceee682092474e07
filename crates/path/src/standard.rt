// The standard path: a meta header, info fields and hop fields, read from bytes.
ghost use Rattle.std.specs.Prelude.{◌≡◌, ◌≤◌, IfOk};
ghost use Rattle.wire_encoding.specs.Result.{mapped, or_else};
ghost use Rattle.path_least_expiry.specs.Expiry.{largest_expiry};
ghost use Rattle.path.specs.Segment.{nowhere};
ghost use Rattle.path.specs.Standard as spec;
ghost use Rattle.path.specs.Dataplane.{part_in};

use errors::packet_error::DecodeError;
use errors::path_error::PathError;
use path_least_expiry::path_expiry_or_zero;
use path_meta_header::PathMetaHeader;
use wire_encoding::read::part_of;

pub mod peering;
pub mod segment;
pub mod time_left;

// The record of a path that was read: its meta header, and when it expires, in ms since 1970. Its bytes stay with the caller.
// Where a path was refused, or is not a standard path, the record is all zero, and the 0 is no expiry.
#[repr(C)]
#[derive(Clone, Copy, Debug, PartialEq, Eq, Hash)]
pub struct StandardPath {
    pub meta_header: PathMetaHeader,
    pub expiry: u64,
}

// What is found of a path that was read, beside its record.
#[derive(Clone, Copy, Debug, PartialEq, Eq, Hash)]
pub struct Found<T> {
    pub path: StandardPath,
    pub value: T,
}

// A part of the caller's bytes.
#[repr(C)]
#[derive(Clone, Copy, Debug, PartialEq, Eq, Hash)]
pub struct Part {
    pub start: usize,
    pub len: usize,
}

impl StandardPath {
    // The record that stands in the place of a path that was refused, or that is not a standard path.
    pub fn zero() -> StandardPath
        ensures { result ≡ spec.no_path }
    {
        let meta_header = PathMetaHeader::from(0);
        StandardPath {
            meta_header,
            expiry: 0,
        }
    }

    // Reads the path that begins `bytes`: its meta header, whether its fields are all there, and when it expires.
    #[tactic(auto, using(crate::proofs::Reading::record_found), unfolding(crate::specs::Standard::read_record, crate::specs::Standard::read_path))]
    pub fn decode(bytes: &[u8]) -> Result<StandardPath, DecodeError>
        ensures value { result ≡ spec.read_record bytes.now }
        ensures expiry_le_largest_expiry { IfOk result (λ path. path.expiry ≤ largest_expiry) }
    {
        let meta_header = PathMetaHeader::decode(bytes)?;
        if bytes.len() < meta_header.encoded_path_length() {
            return Err(DecodeError::PacketEmptyOrTruncated);
        }
        let expiry = path_expiry_or_zero(bytes, meta_header);
        Ok(StandardPath {
            meta_header,
            expiry,
        })
    }
}

impl Part {
    // The bytes of the part; where it reaches beyond their end, what there is of it.
    pub fn of(self, bytes: &[u8]) -> &[u8]
        ensures { result.now ≡ part_in bytes.now self }
    {
        part_of(bytes, self.start, self.len)
    }

    // The bytes of a part that was found; none where it was refused.
    pub fn found(read: Result<Found<Part>, PathError>, bytes: &[u8]) -> &[u8]
        ensures { result.now ≡ part_in bytes.now (or_else (mapped (λ found. found.value) read) nowhere) }
    {
        match read {
            Ok(found) => found.value.of(bytes),
            Err(_) => &bytes[..0],
        }
    }
}
