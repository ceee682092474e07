// How long a path is valid: the expiry of its segments and of the whole path, and the time left.
#![tactic(auto)]

ghost use Rattle.std.specs.Prelude.{◌≡◌};
ghost use Rattle.path.specs.Standard.{beside};
ghost use Rattle.path.specs.Dataplane.{path_of};
ghost use Rattle.path_expiry.specs.Expiry as spec;

use errors::path_error::PathError;
use path::dataplane::DataplanePath;
use path::standard::Found;
use path_least_expiry::segment_expiry_or_zero;

// The expiry of segment `index` in ms since 1970: the least of its hop fields'.
#[tactic(auto, using(path::proofs::Reading::answers_read, crate::proofs::Asked::segment_there), unfolding(crate::specs::Expiry::segment_expiry_in))]
pub fn segment_expiry_time(
    path: DataplanePath,
    bytes: &[u8],
    index: usize,
) -> Result<Found<u64>, PathError>
    ensures { result
        ≡ beside (path_of path.path_type bytes.now)
        (spec.segment_expiry_in path.path_type bytes.now index) }
{
    let read = path.standard(bytes)?;
    if read.meta_header.info_fields_count() <= index {
        return Err(PathError::NoSuchField);
    }
    Ok(Found {
        path: read,
        value: segment_expiry_or_zero(bytes, read.meta_header, index),
    })
}

// The expiry of the path in ms since 1970: the least of its segments'.
#[tactic(auto, using(path::proofs::Reading::answers_read, crate::proofs::Asked::stored), unfolding(crate::specs::Expiry::expiry_in))]
pub fn expiry_time(path: DataplanePath, bytes: &[u8]) -> Result<Found<u64>, PathError>
    ensures { result
        ≡ beside (path_of path.path_type bytes.now) (spec.expiry_in path.path_type bytes.now) }
{
    let read = path.standard(bytes)?;
    Ok(Found {
        path: read,
        value: read.expiry_time(),
    })
}

// The path's expiry less `at`, a time of 0 to 9,000,000,000,000 ms; below zero once the path has expired.
#[tactic(auto, using(path::proofs::Reading::answers_read, crate::proofs::Asked::time_left_told), unfolding(crate::specs::Expiry::expiry_in, crate::specs::Expiry::time_left_in))]
pub fn time_left(path: DataplanePath, bytes: &[u8], at: u64) -> Result<Found<i64>, PathError>
    ensures { result
        ≡ beside (path_of path.path_type bytes.now) (spec.time_left_in path.path_type bytes.now at) }
{
    path.standard(bytes)?.time_left(at)
}
