// The view of a run of hop fields: it holds the bytes that are left and is read from either end.
ghost use Rattle.std.specs.Prelude.{◌≡◌};
ghost use Rattle.path_hop_fields.specs.Run as spec;

use crate::run::{after_first, before_last, count, first, last, whole};
use path_fields::HopField;

#[derive(Clone, Copy)]
pub struct HopFields<'a> {
    run: &'a [u8],
}

// What is read at the front of a run, what is then read at its back, and how many hop fields are left between.
#[derive(Clone, Copy, Debug, PartialEq, Eq, Hash)]
pub struct Ends {
    pub first: HopField,
    pub last: HopField,
    pub between: usize,
}

impl<'a> HopFields<'a> {
    // The view of a run; of bytes that are no run, `run::check` tells, it is an empty one.
    pub fn new(bytes: &'a [u8]) -> HopFields<'a>
        ensures { result.run.now ≡ spec.whole bytes.now }
    {
        HopFields { run: whole(bytes) }
    }

    // How many hop fields are left.
    pub fn len(&self) -> usize
        ensures { result ≡ spec.count self.now.run.now }
    {
        count(self.run)
    }

    // Takes the hop field at the front; empty where none is left.
    pub fn next(&mut self) -> &'a [u8]
        ensures { (result.now ≡ spec.first self.old.run.now)
            × (self.new.run.now ≡ spec.after_first self.old.run.now) }
    {
        let run = self.run;
        self.run = after_first(run);
        first(run)
    }

    // Takes the hop field at the back; empty where none is left.
    pub fn next_back(&mut self) -> &'a [u8]
        ensures { (result.now ≡ spec.last self.old.run.now)
            × (self.new.run.now ≡ spec.before_last self.old.run.now) }
    {
        let run = self.run;
        self.run = before_last(run);
        last(run)
    }
}

// The ends of a run, of which two parts and a count were read.
#[tactic(auto, unfolding(crate::specs::Run::ends_of, path_fields::specs::Fields::zero_hop_field))]
fn ends_of(first: &[u8], last: &[u8], between: usize) -> Ends
    ensures { result ≡ spec.ends_of first.now last.now between }
{
    Ends {
        first: HopField::new(first).unwrap_or(HopField::ZERO),
        last: HopField::new(last).unwrap_or(HopField::ZERO),
        between,
    }
}

// Reads a run of hop fields at the front and then at the back; a hop field that is not there is all zero.
#[tactic(auto, unfolding(crate::specs::Run::ends))]
pub fn read_ends(bytes: &[u8]) -> Ends
    ensures { result ≡ spec.ends (spec.whole bytes.now) }
{
    let mut hop_fields = HopFields::new(bytes);
    let first = hop_fields.next();
    let last = hop_fields.next_back();
    ends_of(first, last, hop_fields.len())
}
