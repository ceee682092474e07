// Peering paths: two segments that a link between networks joins.
ghost use Rattle.std.specs.Prelude.{◌≡◌};
ghost use Rattle.wire_encoding.specs.Bits.{bit_of};
ghost use Rattle.path.specs.Standard as spec;

use path_fields::InfoField;
use path_meta_header::PathMetaHeader;

// Whether peering is set among an info field's flags.
fn has_peering(flags: u8) -> bool
    ensures { result ≡ bit_of 1 flags }
{
    flags / InfoField::PEERING_FLAG % 2 == 1
}

// Whether peering is set on both of two info fields, `info_fields` being their number. Bytes that end before the second one's flags
// have none.
#[tactic(auto, unfolding(crate::specs::Standard::both_peering, path_fields::specs::Fields::info_field_at))]
pub fn both_peering(info_fields: usize, bytes: &[u8]) -> bool
    ensures { result ≡ spec.both_peering bytes.now info_fields }
{
    let second = PathMetaHeader::LENGTH + InfoField::LENGTH;
    if info_fields != 2 {
        return false;
    }
    if bytes.len() <= second {
        return false;
    }
    if has_peering(bytes[PathMetaHeader::LENGTH]) {
        return has_peering(bytes[second]);
    }
    false
}

// Whether a path of this header is a peering path: two segments, and both have peering.
#[tactic(auto, unfolding(crate::specs::Standard::peering_path))]
pub fn is_peering_path(meta_header: PathMetaHeader, bytes: &[u8]) -> bool
    ensures { result ≡ spec.peering_path bytes.now meta_header }
{
    both_peering(meta_header.info_fields_count(), bytes)
}
