// A run of hop fields as bytes: the hop field at either end, what is left without it, how many there are.
ghost use Rattle.std.specs.Prelude.{◌≡◌};
ghost use Rattle.wire_encoding.specs.Result.{done};
ghost use Rattle.path_hop_fields.specs.Run as spec;

use errors::path_error::PathError;
use path_fields::HopField;

// Whether bytes are a run of hop fields: their number has to be a multiple of 12.
#[tactic(auto, unfolding(crate::specs::Run::run_of, wire_encoding::specs::Result::done))]
pub fn check(bytes: &[u8]) -> Result<(), PathError>
    ensures { result ≡ done (spec.run_of bytes.now) }
{
    if bytes.len() % HopField::LENGTH == 0 {
        return Ok(());
    }
    Err(PathError::InadequateBufferSize)
}

// The run that the bytes are; empty where they are refused.
#[tactic(auto, unfolding(crate::specs::Run::whole, crate::specs::Run::run_of))]
pub fn whole(bytes: &[u8]) -> &[u8]
    ensures { result.now ≡ spec.whole bytes.now }
{
    if bytes.len() % HopField::LENGTH == 0 {
        return bytes;
    }
    &bytes[..0]
}

// How many hop fields a run has.
pub fn count(run: &[u8]) -> usize
    ensures { result ≡ spec.count run.now }
{
    run.len() / HopField::LENGTH
}

// The hop field at the front; empty where none is left.
#[tactic(auto, unfolding(crate::specs::Run::first))]
pub fn first(run: &[u8]) -> &[u8]
    ensures { result.now ≡ spec.first run.now }
{
    if run.len() < HopField::LENGTH {
        return &run[..0];
    }
    &run[..HopField::LENGTH]
}

// The run without the hop field at its front.
#[tactic(auto, using(crate::proofs::RunParts::nothing_after, crate::proofs::RunParts::to_the_end))]
pub fn after_first(run: &[u8]) -> &[u8]
    ensures { result.now ≡ spec.after_first run.now }
{
    if run.len() < HopField::LENGTH {
        return &run[..0];
    }
    &run[HopField::LENGTH..]
}

// The hop field at the back; empty where none is left.
#[tactic(auto, using(crate::proofs::RunParts::to_the_end), unfolding(crate::specs::Run::last))]
pub fn last(run: &[u8]) -> &[u8]
    ensures { result.now ≡ spec.last run.now }
{
    if run.len() < HopField::LENGTH {
        return &run[..0];
    }
    &run[run.len() - HopField::LENGTH..]
}

// The run without the hop field at its back.
#[tactic(auto, using(crate::proofs::RunParts::nothing_before))]
pub fn before_last(run: &[u8]) -> &[u8]
    ensures { result.now ≡ spec.before_last run.now }
{
    if run.len() < HopField::LENGTH {
        return &run[..0];
    }
    &run[..run.len() - HopField::LENGTH]
}
