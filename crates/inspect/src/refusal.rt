// Document 01's answers: their numbers, and what they mean.
use crate::text;
use errors::packet_error::DecodeError;
use errors::path_error::PathError;
use std::io;

// What is not there, and the refusal that is why: of a move or a walk on a standard path that was read.
pub fn none(out: &impl Print, title: &str, error: PathError) -> io::Result<()> {
    text::line(out, title, format_args!("none: {} {error}", error.number()))
}

// The refusal of a packet, with the version or the factor that was refused.
pub fn line(out: &impl Print, title: &str, error: DecodeError) -> io::Result<()> {
    text::line(out, title, format_args!("{} {error}", error.number()))
}
