// Paths as a packet carries them: a type byte beside the bytes. Each call reads the bytes first.
ghost use Rattle.std.specs.Prelude.{◌≡◌, ◌≤◌, ◌<◌, take, IfOk};
ghost use Rattle.wire_encoding.specs.Result.{or_else, mapped};
ghost use Rattle.path_least_expiry.specs.Expiry.{largest_expiry};
ghost use Rattle.path.specs.Standard.{beside};
ghost use Rattle.path.specs.Segment.{nowhere, no_segment};
ghost use Rattle.path.specs.Dataplane as spec;

use crate::standard::segment::Segment;
use crate::standard::{Found, Part, StandardPath};
use errors::packet_error::DecodeError;
use errors::path_error::PathError;
use path_fields::{HopField, InfoField};
use path_meta_header::PathMetaHeader;
use wire_encoding::flags::with_bit;
use wire_encoding::read::part_of;

// A path, and how many bytes it has. The record is all zero unless the path is a standard one.
#[derive(Clone, Copy, Debug, PartialEq, Eq, Hash)]
pub struct Extent {
    pub path: StandardPath,
    pub length: usize,
}

// A path by its type byte: 0 empty, 1 standard, any other opaque. The path's bytes stand beside it. The type is the byte of the wire,
// which may be any: the contracts of all calls and the theorems on `read_dataplane` speak of that number.
#[derive(Clone, Copy, Debug, PartialEq, Eq, Hash)]
pub struct DataplanePath {
    pub path_type: u8,
}

impl Extent {
    // A path that needs no reading: `length` bytes of it.
    fn unread(length: usize) -> Extent
        ensures { result ≡ spec.unread length }
    {
        let path = StandardPath::zero();
        Extent { path, length }
    }
}

impl DataplanePath {
    pub const EMPTY: u8 = 0;

    pub const SCION: u8 = 1;
    // The most bytes that a path in a packet can have.
    pub const MAX_LEN: usize = 984;

    pub fn new(path_type: u8) -> DataplanePath
        ensures { result.path_type ≡ path_type }
    {
        DataplanePath { path_type }
    }

    // Reads a path of this type: an empty one has no bytes, an opaque one is all of them.
    #[tactic(auto, unfolding(crate::specs::Dataplane::read_dataplane))]
    pub fn decode(self, bytes: &[u8]) -> Result<Extent, DecodeError>
        ensures value { result ≡ spec.read_dataplane self.path_type bytes.now }
        ensures expiry_le_largest_expiry { IfOk result (λ read. read.path.expiry ≤ largest_expiry) }
    {
        if self.path_type == DataplanePath::EMPTY {
            return Ok(Extent::unread(0));
        }
        if self.path_type != DataplanePath::SCION {
            return Ok(Extent::unread(bytes.len()));
        }
        let path = StandardPath::decode(bytes)?;
        Ok(Extent {
            path,
            length: path.meta_header.encoded_path_length(),
        })
    }

    // The path's own bytes; none where it is refused.
    #[tactic(auto, using(crate::proofs::Reading::length_front))]
    pub fn raw(self, bytes: &[u8]) -> &[u8]
        ensures { result.now
            ≡ take (or_else (mapped (λ read. read.length) (spec.read_dataplane self.path_type bytes.now)) 0) bytes.now }
    {
        match self.decode(bytes) {
            Ok(read) => &bytes[..read.length],
            Err(_) => &bytes[..0],
        }
    }

    // Reading, then the refusal of every type but 1: where the calls on standard paths begin.
    #[tactic(auto, using(crate::proofs::Reading::path_given), unfolding(crate::specs::Dataplane::standard, crate::specs::Dataplane::path_answer))]
    pub fn standard(self, bytes: &[u8]) -> Result<StandardPath, PathError>
        ensures { result
            ≡ spec.path_answer (spec.path_of self.path_type bytes.now) (spec.standard self.path_type bytes.now) }
    {
        let read = self.decode(bytes)?;
        if self.path_type != DataplanePath::SCION {
            return Err(PathError::NoSuchField);
        }
        Ok(read.path)
    }

    // Where info field `index` lies.
    #[tactic(auto, using(crate::proofs::Reading::answers_read), unfolding(crate::specs::Dataplane::info_field_in))]
    pub fn locate_info_field(self, bytes: &[u8], index: usize) -> Result<Found<Part>, PathError>
        ensures { result
            ≡ beside (spec.path_of self.path_type bytes.now)
            (spec.info_field_in self.path_type bytes.now index) }
    {
        let path = self.standard(bytes)?;
        let start = path
            .meta_header
            .info_field_offset(index)
            .ok_or(PathError::NoSuchField)?;
        let len = InfoField::LENGTH;
        Ok(Found {
            path,
            value: Part { start, len },
        })
    }

    // Where hop field `index` lies.
    #[tactic(auto, using(crate::proofs::Reading::answers_read), unfolding(crate::specs::Dataplane::hop_field_in))]
    pub fn locate_hop_field(self, bytes: &[u8], index: usize) -> Result<Found<Part>, PathError>
        ensures { result
            ≡ beside (spec.path_of self.path_type bytes.now)
            (spec.hop_field_in self.path_type bytes.now index) }
    {
        let path = self.standard(bytes)?;
        let start = path
            .meta_header
            .hop_field_offset(index)
            .ok_or(PathError::NoSuchField)?;
        let len = HopField::LENGTH;
        Ok(Found {
            path,
            value: Part { start, len },
        })
    }

    // Info field `index`, as a part of the path's bytes; empty where it is refused.
    #[tactic(auto, using(crate::proofs::Reading::beside_ok, crate::proofs::Reading::beside_refused))]
    pub fn info_field(self, bytes: &[u8], index: usize) -> &[u8]
        ensures { result.now
            ≡ spec.part_in bytes.now (or_else (spec.info_field_in self.path_type bytes.now index) nowhere) }
    {
        Part::found(self.locate_info_field(bytes, index), bytes)
    }

    // Hop field `index`, as a part of the path's bytes; empty where it is refused.
    #[tactic(auto, using(crate::proofs::Reading::beside_ok, crate::proofs::Reading::beside_refused))]
    pub fn hop_field(self, bytes: &[u8], index: usize) -> &[u8]
        ensures { result.now
            ≡ spec.part_in bytes.now (or_else (spec.hop_field_in self.path_type bytes.now index) nowhere) }
    {
        Part::found(self.locate_hop_field(bytes, index), bytes)
    }

    // Segment `index`: where its info field and its hop fields lie.
    #[tactic(auto, using(crate::proofs::Reading::answers_read), unfolding(crate::specs::Dataplane::segment_in))]
    pub fn segment(self, bytes: &[u8], index: usize) -> Result<Found<Segment>, PathError>
        ensures { result
            ≡ beside (spec.path_of self.path_type bytes.now)
            (spec.segment_in self.path_type bytes.now index) }
    {
        let path = self.standard(bytes)?;
        let meta_header = path.meta_header;
        if meta_header.info_fields_count() <= index {
            return Err(PathError::NoSuchField);
        }
        let info_field = Part {
            start: PathMetaHeader::LENGTH + index * InfoField::LENGTH,
            len: InfoField::LENGTH,
        };
        let hop_fields = Part {
            start: meta_header.hop_fields_start()
                + meta_header.first_hop_field(index) * HopField::LENGTH,
            len: meta_header.segment_length(index) * HopField::LENGTH,
        };
        Ok(Found {
            path,
            value: Segment {
                info_field,
                hop_fields,
            },
        })
    }

    // The hop fields of segment `index`, as a part of the path's bytes; empty where it is refused.
    #[tactic(auto, using(crate::proofs::Reading::beside_ok, crate::proofs::Reading::beside_refused))]
    pub fn segment_hop_fields(self, bytes: &[u8], index: usize) -> &[u8]
        ensures { result.now
            ≡ spec.part_in bytes.now (or_else (spec.segment_in self.path_type bytes.now index) no_segment).hop_fields }
    {
        match self.segment(bytes, index) {
            Ok(found) => found.value.hop_fields.of(bytes),
            Err(_) => &bytes[..0],
        }
    }

    // Sets or clears the alert flag that is bit `BIT` of the flags of hop field `index`.
    #[tactic(auto, using(crate::proofs::Kept::flags), unfolding(crate::specs::Dataplane::written_answer))]
    fn set_alert<const BIT: u32>(
        self,
        bytes: &mut [u8],
        index: usize,
        enable: bool,
    ) -> Result<StandardPath, PathError>
        requires { BIT < 8 }
        ensures value { result
            ≡ spec.written_answer self.path_type (spec.alerted BIT enable self.path_type bytes.old index) }
        ensures bytes_after { bytes.new
            ≡ spec.contents (spec.alerted BIT enable self.path_type bytes.old index) bytes.old }
    {
        let found = self.locate_hop_field(bytes, index)?;
        let start = found.value.start;
        bytes[start] = with_bit::<BIT>(bytes[start], enable);
        Ok(found.path)
    }

    // Sets or clears the ingress alert flag of hop field `index`.
    pub fn set_cons_ingress_router_alert(
        self,
        bytes: &mut [u8],
        index: usize,
        enable: bool,
    ) -> Result<StandardPath, PathError>
        ensures value { result ≡ spec.written_answer self.path_type (spec.alerted 1 enable self.path_type bytes.old index) }
        ensures bytes_after { bytes.new
            ≡ spec.contents (spec.alerted 1 enable self.path_type bytes.old index) bytes.old }
    {
        self.set_alert::<1>(bytes, index, enable)
    }

    // Sets or clears the egress alert flag of hop field `index`.
    pub fn set_cons_egress_router_alert(
        self,
        bytes: &mut [u8],
        index: usize,
        enable: bool,
    ) -> Result<StandardPath, PathError>
        ensures value { result ≡ spec.written_answer self.path_type (spec.alerted 0 enable self.path_type bytes.old index) }
        ensures bytes_after { bytes.new
            ≡ spec.contents (spec.alerted 0 enable self.path_type bytes.old index) bytes.old }
    {
        self.set_alert::<0>(bytes, index, enable)
    }
}
