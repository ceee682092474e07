// The meta header of a standard path, by value: read, written, reversed.
#![tactic(auto)]

ghost use Rattle.std.specs.Prelude.{◌≡◌, ◌-◌, ◌^◌, ◌≤◌, ◌<◌, ◌∷◌, [], length};
ghost use Rattle.std.specs.Option.{ok_or};
ghost use Rattle.wire_encoding.specs.Result.{done, or_else};
ghost use Rattle.errors.specs.declared.path_error.PathError.TheVariants.{NoSuchField};
ghost use Rattle.path_meta_header.specs.MetaHeader as spec;
ghost use Rattle.path_meta_header.specs.Encoding as encoding;
ghost use Rattle.path_meta_header.specs.Reversal as reversal;

use errors::packet_error::{DecodeError, EncodeError};
use errors::path_error::DataplanePathErrorKind;
use path_fields::{HopField, InfoField};
use wire_encoding::bounded::{Bounded, U2, U6};
use wire_encoding::number::Number;
use wire_encoding::read::{get_word, wide};

// A 2-bit index into the info fields.
pub type InfoFieldIndex = U2;
// A 6-bit index into the hop fields.
pub type HopFieldIndex = U6;
// A 6-bit count of the hop fields of a segment.
pub type SegmentLength = U6;
// The 6 bits of a meta header that mean nothing yet.
pub type PathMetaReserved = U6;

// The largest number of each of these names: an info pointer has 2 bits, the others 6.
pub fn largest_of_fields() -> [u8; 4]
    ensures { result ≡ ((2 ^ 2 - 1) ∷ (2 ^ 6 - 1) ∷ (2 ^ 6 - 1) ∷ (2 ^ 6 - 1) ∷ []) }
{
    [
        InfoFieldIndex::MAX,
        HopFieldIndex::MAX,
        SegmentLength::MAX,
        PathMetaReserved::MAX,
    ]
}

// The pointers, the reserved bits and the three segment lengths. Each may hold any byte: writing one tests their widths.
#[repr(C)]
#[derive(Clone, Copy, Debug, PartialEq, Eq, Hash)]
pub struct PathMetaHeader {
    pub current_info_field: u8,
    pub current_hop_field: u8,
    pub reserved: u8,
    pub segment_lengths: [u8; 3],
}

// Field n of the six fields of a meta header: 2 bits, then five times 6.
#[tactic(auto, unfolding(crate::specs::MetaHeader::nth_field))]
fn nth_field(fields: u32, n: u32) -> u8
    requires { n ≤ 5 }
    ensures { result ≡ spec.nth_field fields n }
{
    ((fields >> ((5 - n) * 6)) % 64) as u8
}

// Whether a number has at most `BITS` bits.
#[tactic(auto, using(crate::proofs::Encoding::bounded_fits))]
fn fits<const BITS: u32>(number: u8) -> bool
    ensures { result ≡ encoding.fits BITS number }
{
    Bounded::<u8, BITS>::new(number).is_some()
}

// The header of a path of these lengths, its pointers at the start.
#[tactic(auto, unfolding(crate::specs::Reversal::at_start))]
fn at_start(first: u8, second: u8, third: u8) -> PathMetaHeader
    ensures { result ≡ reversal.at_start (first ∷ second ∷ third ∷ []) }
{
    PathMetaHeader {
        current_info_field: 0,
        current_hop_field: 0,
        reserved: 0,
        segment_lengths: [first, second, third],
    }
}

// The header that a word spells, whatever its values.
impl From<u32> for PathMetaHeader {
    ghost from_gives = { λ fields meta_header. meta_header ≡ spec.meta_of fields };

    #[tactic(auto, unfolding(crate::specs::MetaHeader::meta_of))]
    fn from(fields: u32) -> PathMetaHeader {
        let first = nth_field(fields, 3);
        let second = nth_field(fields, 4);
        let third = nth_field(fields, 5);
        PathMetaHeader {
            current_info_field: nth_field(fields, 0),
            current_hop_field: nth_field(fields, 1),
            reserved: nth_field(fields, 2),
            segment_lengths: [first, second, third],
        }
    }
}

impl PathMetaHeader {
    pub const LENGTH: usize = 4;

    // I, the number of info fields: the lengths before the first zero.
    #[tactic(auto, unfolding(crate::specs::MetaHeader::info_fields_count))]
    pub fn info_fields_count(self) -> usize
        ensures { (result ≡ spec.info_fields_count self) × (result ≤ 3) }
    {
        let lengths = self.segment_lengths;
        if lengths[0] == 0 {
            return 0;
        }
        if lengths[1] == 0 {
            return 1;
        }
        if lengths[2] == 0 {
            return 2;
        }
        3
    }

    // N, the number of hop fields: the sum of the lengths.
    #[tactic(auto, unfolding(crate::specs::MetaHeader::hop_fields_count))]
    pub fn hop_fields_count(self) -> usize
        ensures { (result ≡ spec.hop_fields_count self) × (result ≤ 765) }
    {
        let lengths = self.segment_lengths;
        wide(lengths[0]) + wide(lengths[1]) + wide(lengths[2])
    }

    // The number of interfaces by the header alone; a peering path has two more.
    #[tactic(auto, using(crate::proofs::MetaHeader::info_le_hop), unfolding(crate::specs::MetaHeader::interfaces_count))]
    pub fn interfaces_count(self) -> usize
        ensures { (result ≡ spec.interfaces_count self) × (result ≤ 1530) }
    {
        (self.hop_fields_count() - self.info_fields_count()) * 2
    }

    // The segment of link `link`, where links are counted along the path.
    #[tactic(auto, unfolding(crate::specs::MetaHeader::segment_of_link))]
    fn segment_of_link(self, link: usize) -> usize
        requires { link < 765 }
        ensures { (result ≡ spec.segment_of_link self link) × (result ≤ 2) }
    {
        let lengths = self.segment_lengths;
        let first = wide(lengths[0]);
        let second = wide(lengths[1]);
        if link + 1 < first {
            return 0;
        }
        if link + 2 < first + second {
            return 1;
        }
        2
    }

    // The hop field that interface `index` belongs to by the header alone, which does not tell a peering path.
    #[tactic(auto, unfolding(crate::specs::MetaHeader::hop_field_of, crate::specs::MetaHeader::link_end))]
    pub fn hop_field_index_for_interface(self, index: usize) -> Option<usize>
        ensures { ok_or result NoSuchField ≡ spec.hop_field_of self index }
    {
        if self.interfaces_count() <= index {
            return None;
        }
        let link = index / 2;
        Some(link + index % 2 + self.segment_of_link(link))
    }

    // Where info field `index` starts.
    #[tactic(auto, unfolding(crate::specs::MetaHeader::info_field_offset))]
    pub fn info_field_offset(self, index: usize) -> Option<usize>
        ensures { ok_or result NoSuchField ≡ spec.info_field_offset self index }
    {
        if index < self.info_fields_count() {
            return Some(PathMetaHeader::LENGTH + index * InfoField::LENGTH);
        }
        None
    }

    // Where the hop fields start: after the info fields.
    pub fn hop_fields_start(self) -> usize
        ensures { (result ≡ spec.hop_fields_start self) × (result ≤ 28) }
    {
        PathMetaHeader::LENGTH + self.info_fields_count() * InfoField::LENGTH
    }

    // Where hop field `index` starts.
    #[tactic(auto, unfolding(crate::specs::MetaHeader::hop_field_offset))]
    pub fn hop_field_offset(self, index: usize) -> Option<usize>
        ensures { ok_or result NoSuchField ≡ spec.hop_field_offset self index }
    {
        if index < self.hop_fields_count() {
            return Some(self.hop_fields_start() + index * HopField::LENGTH);
        }
        None
    }

    // The length of the whole path in bytes.
    #[tactic(auto, unfolding(crate::specs::MetaHeader::path_length))]
    pub fn encoded_path_length(self) -> usize
        ensures { (result ≡ spec.path_length self) × (result ≤ 9208) }
    {
        self.hop_fields_start() + self.hop_fields_count() * HopField::LENGTH
    }

    // The segment in which hop field `index` lies.
    #[tactic(auto, unfolding(crate::specs::MetaHeader::segment_of))]
    pub fn segment_of(self, index: usize) -> usize
        ensures { (result ≡ spec.segment_of self index) × (result ≤ 2) }
    {
        let lengths = self.segment_lengths;
        let first = wide(lengths[0]);
        let second = wide(lengths[1]);
        if index < first {
            return 0;
        }
        if index < first + second {
            return 1;
        }
        2
    }

    // The segment in which the hop pointer lies.
    pub fn computed_info_field_index(self) -> usize
        ensures { (result ≡ spec.segment_of self self.current_hop_field) × (result ≤ 2) }
    {
        self.segment_of(wide(self.current_hop_field))
    }

    // The number of hop fields of segment `k`; 0 for a segment that isn't there.
    pub fn segment_length(self, k: usize) -> usize
        ensures { (result ≡ spec.segment_length self k) × (result ≤ 255) }
    {
        let lengths = self.segment_lengths;
        if k < 3 {
            return wide(lengths[k]);
        }
        0
    }

    // The index of the first hop field of segment `k`: the sum of the lengths before it.
    #[tactic(auto, unfolding(crate::specs::MetaHeader::first_hop_field, crate::specs::MetaHeader::hop_fields_count))]
    pub fn first_hop_field(self, k: usize) -> usize
        ensures { (result ≡ spec.first_hop_field self k) × (result ≤ 765) }
    {
        if k == 0 {
            return 0;
        }
        if k == 1 {
            return self.segment_length(0);
        }
        if k == 2 {
            return self.segment_length(0) + self.segment_length(1);
        }
        self.hop_fields_count()
    }

    // Whether the first length is not zero and no length follows a zero one.
    #[tactic(auto, unfolding(crate::specs::MetaHeader::lengths_valid))]
    fn lengths_valid(self) -> bool
        ensures { result ≡ spec.lengths_valid self }
    {
        let lengths = self.segment_lengths;
        if lengths[0] == 0 {
            return false;
        }
        if lengths[1] == 0 {
            return lengths[2] == 0;
        }
        true
    }

    // Whether the hop pointer lies in the path, in the segment that the info pointer names.
    #[tactic(auto, unfolding(crate::specs::MetaHeader::hop_valid))]
    fn hop_valid(self) -> bool
        ensures { result ≡ spec.hop_valid self }
    {
        let hop = wide(self.current_hop_field);
        if self.hop_fields_count() <= hop {
            return false;
        }
        self.computed_info_field_index() == wide(self.current_info_field)
    }

    // Whether the info pointer names one of the info fields.
    #[tactic(auto, unfolding(crate::specs::MetaHeader::info_valid))]
    fn info_valid(self) -> bool
        ensures { result ≡ spec.info_valid self }
    {
        wide(self.current_info_field) < self.info_fields_count()
    }

    // The rules of a meta header: lengths, info pointer, hop pointer.
    #[tactic(auto, unfolding(crate::specs::MetaHeader::checked))]
    fn check(self) -> Result<PathMetaHeader, DecodeError>
        ensures { result ≡ spec.checked self }
    {
        if !self.lengths_valid() {
            return Err(DecodeError::InvalidPath(DataplanePathErrorKind::InvalidSegmentLengths));
        }
        if !self.info_valid() {
            return Err(DecodeError::InvalidPath(DataplanePathErrorKind::InfoFieldOutOfRange));
        }
        if !self.hop_valid() {
            return Err(DecodeError::InvalidPath(DataplanePathErrorKind::HopFieldOutOfRange));
        }
        Ok(self)
    }

    // Reads the meta header that begins `bytes`.
    #[tactic(auto, using(wire_encoding::proofs::BigEndian::was_read, wire_encoding::proofs::BigEndian::was_truncated), unfolding(crate::specs::MetaHeader::read_meta))]
    pub fn decode(bytes: &[u8]) -> Result<PathMetaHeader, DecodeError>
        ensures { result ≡ spec.read_meta bytes.now }
    {
        let fields = get_word(bytes, 0).ok_or(DecodeError::PacketEmptyOrTruncated)?;
        PathMetaHeader::from(fields).check()
    }

    // WRITING, AND THE REVERSED PATH

    // Whether each number fits its field.
    #[tactic(auto, unfolding(crate::specs::Encoding::meta_fits))]
    fn fields_fit(self) -> bool
        ensures { result ≡ encoding.meta_fits self }
    {
        let lengths = self.segment_lengths;
        fits::<2>(self.current_info_field)
            && fits::<6>(self.current_hop_field)
            && fits::<6>(self.reserved)
            && fits::<6>(lengths[0])
            && fits::<6>(lengths[1])
            && fits::<6>(lengths[2])
    }

    // The header as one number, unless a number is wider than its field.
    #[tactic(auto, using(crate::proofs::Encoding::word_below, crate::proofs::Encoding::fitting), unfolding(crate::specs::Encoding::as_word, crate::specs::Encoding::word_of))]
    pub fn as_u32(self) -> Option<u32>
        ensures { ok_or result 10 ≡ encoding.as_word self }
    {
        let lengths = self.segment_lengths;
        if self.fields_fit() {
            let info = wide(self.current_info_field);
            let hop = wide(self.current_hop_field);
            let reserved = wide(self.reserved);
            let first = wide(lengths[0]);
            let second = wide(lengths[1]);
            let third = wide(lengths[2]);
            let number = ((((info * 64 + hop) * 64 + reserved) * 64 + first) * 64 + second) * 64
                + third;
            return Some(number as u32);
        }
        None
    }

    // Writes the header to a destination of exactly 4 bytes, or leaves it as it is.
    #[tactic(auto, using(crate::proofs::Encoding::encodes), unfolding(crate::specs::Encoding::write_meta, wire_encoding::specs::Result::done))]
    pub fn encode_to(self, dst: &mut [u8]) -> Result<(), EncodeError>
        ensures value { result ≡ done (encoding.write_meta self (length dst.old)) }
        ensures dst_after { dst.new ≡ or_else (encoding.write_meta self (length dst.old)) dst.old }
    {
        let number = self.as_u32().ok_or(EncodeError::NumberTooWide)?;
        if dst.len() == PathMetaHeader::LENGTH {
            number.write_be(dst);
            return Ok(());
        }
        Err(EncodeError::InadequateBufferSize)
    }

    // The header of the reversed path: pointers and reserved bits zero, the I lengths in opposite order.
    #[tactic(auto, unfolding(crate::specs::Reversal::reversed_meta, crate::specs::Reversal::reversed_lengths, crate::specs::MetaHeader::info_fields_count))]
    pub fn to_reversed(self) -> PathMetaHeader
        ensures { result ≡ reversal.reversed_meta self }
    {
        let lengths = self.segment_lengths;
        let first = lengths[0];
        let second = lengths[1];
        let third = lengths[2];
        if first == 0 {
            return at_start(0, 0, 0);
        }
        if second == 0 {
            return at_start(first, 0, 0);
        }
        if third == 0 {
            return at_start(second, first, 0);
        }
        at_start(third, second, first)
    }
}
