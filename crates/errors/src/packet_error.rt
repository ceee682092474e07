// Refusals of packets: why bytes can't be read, and why headers can't be written.
ghost use Rattle.std.specs.Prelude.{◌≡◌};
ghost use Rattle.errors.specs.Errors.{decode_number, decode_value, encode_number};

use crate::path_error::DataplanePathErrorKind;
use std::error::Error;
use std::fmt;

// Why bytes can't be read.
#[derive(Clone, Copy, Debug, PartialEq, Eq, Hash)]
pub enum DecodeError {
    PacketEmptyOrTruncated,
    UnsupportedVersion(u8),
    InvalidHeaderLength(u8),
    InvalidPath(DataplanePathErrorKind),
    InconsistentPathLength,
}

// Why headers can't be written.
#[derive(Clone, Copy, Debug, PartialEq, Eq, Hash)]
pub enum EncodeError {
    // A number wider than its field.
    NumberTooWide,
    // A factor of 0.
    InvalidHeaderLength,
    // A factor above 255.
    HeaderTooLarge,
    PayloadTooLarge,
    InadequateBufferSize,
}

impl fmt::Display for DecodeError {
    fn fmt<W: fmt::Write>(&self, f: &mut fmt::Formatter<W>) -> fmt::Result {
        match self {
            DecodeError::PacketEmptyOrTruncated => write!(
                f,
                "cut short: there are fewer bytes than its headers and payload take"
            ),
            DecodeError::UnsupportedVersion(version) => {
                write!(f, "version not supported: {version}")
            }
            DecodeError::InvalidHeaderLength(factor) => {
                write!(f, "header length factor under 9: {factor}")
            }
            DecodeError::InvalidPath(kind) => write!(f, "{kind}"),
            DecodeError::InconsistentPathLength => write!(f, "left-over bytes after the path"),
        }
    }
}

impl Error for DecodeError {}

impl fmt::Display for EncodeError {
    fn fmt<W: fmt::Write>(&self, f: &mut fmt::Formatter<W>) -> fmt::Result {
        match self {
            EncodeError::NumberTooWide => write!(f, "a number wider than its field"),
            EncodeError::InvalidHeaderLength => write!(f, "header length factor 0"),
            EncodeError::HeaderTooLarge => write!(f, "header length factor above 255"),
            EncodeError::PayloadTooLarge => write!(f, "more than 65,535 bytes of payload"),
            EncodeError::InadequateBufferSize => write!(f, "a buffer of another size"),
        }
    }
}

impl Error for EncodeError {}

impl DecodeError {
    pub fn number(self) -> u8
        ensures { result ≡ decode_number self }
    {
        match self {
            DecodeError::PacketEmptyOrTruncated => 1,
            DecodeError::UnsupportedVersion(_) => 2,
            DecodeError::InvalidHeaderLength(_) => 3,
            DecodeError::InvalidPath(kind) => kind.number(),
            DecodeError::InconsistentPathLength => 7,
        }
    }

    // The version or the factor that was refused, else 0.
    pub fn value(self) -> u8
        ensures { result ≡ decode_value self }
    {
        match self {
            DecodeError::PacketEmptyOrTruncated => 0,
            DecodeError::UnsupportedVersion(version) => version,
            DecodeError::InvalidHeaderLength(factor) => factor,
            DecodeError::InvalidPath(_) => 0,
            DecodeError::InconsistentPathLength => 0,
        }
    }
}

impl EncodeError {
    pub fn number(self) -> u8
        ensures { result ≡ encode_number self }
    {
        match self {
            EncodeError::NumberTooWide => 10,
            EncodeError::InvalidHeaderLength => 3,
            EncodeError::HeaderTooLarge => 12,
            EncodeError::PayloadTooLarge => 11,
            EncodeError::InadequateBufferSize => 9,
        }
    }
}
