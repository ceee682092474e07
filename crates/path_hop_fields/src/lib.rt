// Runs of hop fields, read from either end: functions on their bytes, the view that holds them, and the run that a path's hop fields are.
#![tactic(auto)]

pub mod run;
pub mod view;

ghost use Rattle.std.specs.Prelude.{◌≡◌};
ghost use Rattle.wire_encoding.specs.Result.{or_else};
ghost use Rattle.path.specs.Segment.{nowhere};
ghost use Rattle.path.specs.Standard.{beside};
ghost use Rattle.path.specs.Dataplane.{path_of, part_in};
ghost use Rattle.path_hop_fields.specs.PathRuns as spec;

use errors::path_error::PathError;
use path::dataplane::DataplanePath;
use path::standard::{Found, Part};
use path_fields::HopField;

// Where the hop fields of a standard path lie, all of them.
#[tactic(auto, using(path::proofs::Reading::answers_read), unfolding(crate::specs::PathRuns::hop_fields_in))]
pub fn locate(path: DataplanePath, bytes: &[u8]) -> Result<Found<Part>, PathError>
    ensures { result ≡ beside (path_of path.path_type bytes.now) (spec.hop_fields_in path.path_type bytes.now) }
{
    let read = path.standard(bytes)?;
    let meta_header = read.meta_header;
    let start = meta_header.hop_fields_start();
    let len = meta_header.hop_fields_count() * HopField::LENGTH;
    Ok(Found {
        path: read,
        value: Part { start, len },
    })
}

// The hop fields of a standard path, all of them, as a part of its bytes; empty where `locate` refuses.
#[tactic(auto, using(path::proofs::Reading::beside_ok, path::proofs::Reading::beside_refused))]
pub fn hop_fields(path: DataplanePath, bytes: &[u8]) -> &[u8]
    ensures { result.now
        ≡ part_in bytes.now (or_else (spec.hop_fields_in path.path_type bytes.now) nowhere) }
{
    Part::found(locate(path, bytes), bytes)
}
