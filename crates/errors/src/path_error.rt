// Refusals of paths: what is wrong with a meta header, and why a call on a path is refused.
ghost use Rattle.std.specs.Prelude.{◌≡◌};
ghost use Rattle.errors.specs.declared.path_error.PathError.TheVariants.{Decode};
ghost use Rattle.errors.specs.Errors.{kind_number, path_number, path_value};

use crate::packet_error::DecodeError;
use std::error::Error;
use std::fmt;

// What is wrong with a meta header.
#[derive(Clone, Copy, Debug, PartialEq, Eq, Hash)]
pub enum DataplanePathErrorKind {
    InvalidSegmentLengths,
    InfoFieldOutOfRange,
    HopFieldOutOfRange,
}

// Why a call on a path is refused.
#[derive(Clone, Copy, Debug, PartialEq, Eq, Hash)]
pub enum PathError {
    Decode(DecodeError),
    NoSuchField,
    InadequateBufferSize,
    NumberTooWide,
    TooManyHopFields,
    PeeringNotOnBoth,
    AtLastHopField,
}

// A path that can't be read is refused with the reader's own refusal.
impl From<DecodeError> for PathError {
    ghost from_gives = { λ error refusal. refusal ≡ Decode error };

    fn from(refusal: DecodeError) -> PathError {
        PathError::Decode(refusal)
    }
}

impl fmt::Display for DataplanePathErrorKind {
    fn fmt<W: fmt::Write>(&self, f: &mut fmt::Formatter<W>) -> fmt::Result {
        match self {
            DataplanePathErrorKind::InvalidSegmentLengths => write!(
                f,
                "segment lengths: the first is 0, or another than 0 follows a 0"
            ),
            DataplanePathErrorKind::InfoFieldOutOfRange => {
                write!(f, "info pointer beyond the info fields")
            }
            DataplanePathErrorKind::HopFieldOutOfRange => write!(
                f,
                "hop pointer beyond the hop fields, or in another segment"
            ),
        }
    }
}

impl fmt::Display for PathError {
    fn fmt<W: fmt::Write>(&self, f: &mut fmt::Formatter<W>) -> fmt::Result {
        match self {
            PathError::Decode(error) => write!(f, "{error}"),
            PathError::NoSuchField => write!(f, "no such field"),
            PathError::InadequateBufferSize => write!(f, "a buffer that is too small"),
            PathError::NumberTooWide => write!(f, "a number wider than its field"),
            PathError::TooManyHopFields => write!(f, "more than 64 hop fields"),
            PathError::PeeringNotOnBoth => {
                write!(f, "peering is not set on both of two segments")
            }
            PathError::AtLastHopField => write!(f, "already at the last hop field"),
        }
    }
}

impl Error for PathError {}

impl DataplanePathErrorKind {
    pub fn number(self) -> u8
        ensures { result ≡ kind_number self }
    {
        match self {
            DataplanePathErrorKind::InvalidSegmentLengths => 4,
            DataplanePathErrorKind::InfoFieldOutOfRange => 5,
            DataplanePathErrorKind::HopFieldOutOfRange => 6,
        }
    }
}

impl PathError {
    pub fn number(self) -> u8
        ensures { result ≡ path_number self }
    {
        match self {
            PathError::Decode(error) => error.number(),
            PathError::NoSuchField => 8,
            PathError::InadequateBufferSize => 9,
            PathError::NumberTooWide => 10,
            PathError::TooManyHopFields => 13,
            PathError::PeeringNotOnBoth => 14,
            PathError::AtLastHopField => 15,
        }
    }

    // The version or the factor that was refused, else 0.
    pub fn value(self) -> u8
        ensures { result ≡ path_value self }
    {
        match self {
            PathError::Decode(error) => error.value(),
            PathError::NoSuchField => 0,
            PathError::InadequateBufferSize => 0,
            PathError::NumberTooWide => 0,
            PathError::TooManyHopFields => 0,
            PathError::PeeringNotOnBoth => 0,
            PathError::AtLastHopField => 0,
        }
    }
}
