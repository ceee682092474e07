// Path reversal, which document 01 calls a turn, and copying: a path written into lent bytes.
#![tactic(auto)]

ghost use Rattle.std.specs.Prelude.{◌≡◌, ℕ, List, ◌++◌, ◌+◌, ◌*◌, ◌≤◌, length, drop};
ghost use Rattle.std.proofs.lemmas.List.Edits.{sets};
ghost use Rattle.path_meta_header.specs.MetaHeader.{path_length};
ghost use Rattle.path_reverse.specs.Copy as copying;
ghost use Rattle.path_reverse.specs.Reverse as spec;

use errors::path_error::PathError;
use path::dataplane::{DataplanePath, Extent};
use path::standard::StandardPath;
use path_fields::{HopField, InfoField};
use path_meta_header::PathMetaHeader;
use wire_encoding::number::Number;
use wire_encoding::write::put_slice;

// Copies the path to the front of a destination of at least its length; the bytes behind it stay as they are. Answers with the
// record of the path as written, and how many bytes it has.
#[tactic(auto, using(crate::proofs::Calls::copies), unfolding(crate::specs::Copy::copy, crate::specs::Copy::written_path))]
pub fn copy_to_slice(path: DataplanePath, bytes: &[u8], dst: &mut [u8]) -> Result<Extent, PathError>
    ensures value { result
        ≡ copying.written_path path.path_type (copying.copy path.path_type bytes.now dst.old) }
    ensures dst_after { dst.new
        ≡ copying.contents_after (copying.copy path.path_type bytes.now dst.old) dst.old }
{
    let read = path.decode(bytes)?;
    if dst.len() < read.length {
        return Err(PathError::InadequateBufferSize);
    }
    put_slice(dst, 0, &bytes[..read.length]).unwrap();
    Ok(read)
}

// A field of a path, as a reversal writes it.
trait ReversedField {
    ghost LENGTH: { ℕ };

    ghost reversed: { List ℕ → List ℕ };

    const LENGTH: usize;

    // Writes the field that `src` is to `dst`.
    fn write_reversed(src: &[u8], dst: &mut [u8])
        requires { (length src.now ≡ LENGTH) × (length dst.old ≡ LENGTH) }
        ensures { dst.new ≡ reversed src.now };
}

// The direction bit of an info field is flipped.
impl ReversedField for InfoField {
    ghost LENGTH = { 8 };

    ghost reversed = { spec.flipped };

    const LENGTH: usize = InfoField::LENGTH;

    #[tactic(auto, using(crate::proofs::Reverse::flipped_written))]
    fn write_reversed(src: &[u8], dst: &mut [u8]) {
        dst.copy_from_slice(src);
        dst[0] = src[0] ^ InfoField::CONSTRUCTION_DIRECTION_FLAG;
    }
}

impl ReversedField for HopField {
    ghost LENGTH = { 12 };

    ghost reversed = { spec.same };

    const LENGTH: usize = HopField::LENGTH;

    // The bytes go by way of numbers: a copy from one slice to another looks first whether the two overlap.
    fn write_reversed(src: &[u8], dst: &mut [u8]) {
        let first: u64 = Number::from_be(&src[..8]);
        let last: u32 = Number::from_be(&src[8..]);
        first.write_be(&mut dst[..8]);
        last.write_be(&mut dst[8..]);
    }
}

// Writes `count` fields of `src` from `from` on to `dst` from `to` on, the last one first.
#[tactic(auto, using(crate::proofs::Reverse::step, crate::proofs::Reverse::done))]
fn reverse_fields<F: ReversedField>(
    src: &[u8],
    from: usize,
    dst: &mut [u8],
    to: usize,
    count: usize,
)
    requires { (from + count * F.LENGTH ≤ length src.now) × (to + count * F.LENGTH ≤ length dst.old) }
    ensures { dst.new ≡ sets dst.old to (spec.reversed_records F.reversed F.LENGTH count (drop from src.now)) }
{
    let mut next = to;
    for left in (0..count).rev() {
        let at = from + left * F::LENGTH;
        F::write_reversed(&src[at..at + F::LENGTH], &mut dst[next..next + F::LENGTH]);
        next += F::LENGTH;
    }
}

// Writes a whole path reversed to the front of a destination of at least its length.
#[tactic(auto, using(crate::proofs::Reverse::all_written, path_meta_header::proofs::Encoding::meta_written), unfolding(path_meta_header::specs::MetaHeader::path_length, wire_encoding::specs::Result::done))]
fn reverse_path(meta_header: PathMetaHeader, bytes: &[u8], dst: &mut [u8])
    requires { spec.Reversible meta_header (length bytes.now) (length dst.old) }
    ensures { dst.new
        ≡ spec.reversed_path meta_header bytes.now ++ drop (path_length meta_header) dst.old }
{
    let infos = meta_header.info_fields_count();
    let hops = meta_header.hop_fields_count();
    meta_header
        .to_reversed()
        .encode_to(&mut dst[..PathMetaHeader::LENGTH])
        .unwrap();
    let first_info = PathMetaHeader::LENGTH;
    reverse_fields::<InfoField>(bytes, first_info, dst, first_info, infos);
    let first_hop = meta_header.hop_fields_start();
    reverse_fields::<HopField>(bytes, first_hop, dst, first_hop, hops);
}

// Writes the reversed path to the front of a destination of at least the path's length: a standard path by the draft's Path
// Reversal, an opaque one as it is. The bytes behind it stay as they are. Answers as `copy_to_slice` does.
#[tactic(auto, using(crate::proofs::Calls::turns), unfolding(crate::specs::Copy::written_path))]
pub fn reverse_to_slice(
    path: DataplanePath,
    bytes: &[u8],
    dst: &mut [u8],
) -> Result<Extent, PathError>
    ensures value { result
        ≡ copying.written_path path.path_type (spec.reverse path.path_type bytes.now dst.old) }
    ensures dst_after { dst.new
        ≡ copying.contents_after (spec.reverse path.path_type bytes.now dst.old) dst.old }
{
    if path.path_type != DataplanePath::SCION {
        return copy_to_slice(path, bytes, dst);
    }
    let read = StandardPath::decode(bytes)?;
    let meta_header = read.meta_header;
    let length = meta_header.encoded_path_length();
    if dst.len() < length {
        return Err(PathError::InadequateBufferSize);
    }
    reverse_path(meta_header, bytes, dst);
    let reversed = StandardPath {
        meta_header: meta_header.to_reversed(),
        expiry: read.expiry,
    };
    Ok(Extent {
        path: reversed,
        length,
    })
}
