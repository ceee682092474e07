// The expiry and the time left of a path's record: they take the record alone, and its stored number as it is.
ghost use Rattle.std.specs.Prelude.{◌≡◌, ◌≤◌};
ghost use Rattle.std.proofs.Math.IntN.{sub_ℕ};
ghost use Rattle.path.specs.Standard.{beside};
ghost use Rattle.path.specs.TimeLeft as spec;

use crate::standard::{Found, StandardPath};
use errors::path_error::PathError;

// An expiry less a time, both in ms and far below the largest number.
fn left(expiry: u64, at: u64) -> i64
    requires { (expiry ≤ spec.largest_time) × (at ≤ spec.largest_time) }
    ensures { result ≡ sub_ℕ expiry at }
{
    expiry as i64 - at as i64
}

impl StandardPath {
    // The largest expiry that a path can have.
    pub const MAX_EXPIRY: u64 = 4295053695000;
    // The largest time that time left is told at.
    pub const MAX_TIME: u64 = 9000000000000;

    // When the path expires, as the record has it.
    pub fn expiry_time(self) -> u64
        ensures { result ≡ self.expiry }
    {
        self.expiry
    }

    // The record's expiry less `at` in ms, both within their bounds; below zero once the path has expired.
    #[tactic(auto, unfolding(crate::specs::TimeLeft::time_left_of, crate::specs::Standard::beside))]
    pub fn time_left(self, at: u64) -> Result<Found<i64>, PathError>
        ensures { result ≡ beside self (spec.time_left_of self at) }
    {
        if StandardPath::MAX_EXPIRY < self.expiry {
            return Err(PathError::NumberTooWide);
        }
        if StandardPath::MAX_TIME < at {
            return Err(PathError::NumberTooWide);
        }
        Ok(Found {
            path: self,
            value: left(self.expiry, at),
        })
    }
}
