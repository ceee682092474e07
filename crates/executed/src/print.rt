// Answers on standard output: each number or byte string after a space.
use errors::path_error::PathError;
use scion_paths::ScionAnswer;
use std::fmt::Display;
use std::{fmt, io};

// A byte string: the two digits of each byte; `-` where it is empty.
#[derive(Clone, Copy)]
pub struct Hex<'a>(pub &'a [u8]);

impl Display for Hex<'_> {
    fn fmt<W: fmt::Write>(&self, f: &mut fmt::Formatter<W>) -> fmt::Result {
        if self.0.is_empty() {
            return write!(f, "-");
        }
        for byte in self.0 {
            write!(f, "{byte:02x}")?;
        }
        Ok(())
    }
}

// That a line is no call.
pub fn unknown(out: &impl Print) -> io::Result<()> {
    print!(out; " ?")
}

// A number in decimal.
pub fn number(out: &impl Print, number: impl Display + Drop) -> io::Result<()> {
    print!(out; " {number}")
}

// Two numbers.
pub fn two(
    out: &impl Print,
    first: impl Display + Drop,
    second: impl Display + Drop,
) -> io::Result<()> {
    print!(out; " {first} {second}")
}

// A flag as 1 or 0.
pub fn flag(out: &impl Print, on: bool) -> io::Result<()> {
    number(out, u8::from(on))
}

// A byte string.
pub fn bytes(out: &impl Print, bytes: &[u8]) -> io::Result<()> {
    print!(out; " {}", Hex(bytes))
}

// Document 01's number and value of an answer.
pub fn answer<T: Copy, E: Into<PathError>>(
    out: &impl Print,
    answer: Result<T, E>,
) -> io::Result<()> {
    match answer {
        Ok(_) => two(out, 0, 0),
        Err(error) => {
            let error: PathError = error.into();
            two(out, error.number(), error.value())
        }
    }
}

// The number and value of an answer that is handed to C.
pub fn handed(out: &impl Print, answer: ScionAnswer) -> io::Result<()> {
    two(out, answer.number, answer.value)
}

// Document 01's number of an answer alone.
pub fn answer_number<T: Copy, E: Into<PathError>>(
    out: &impl Print,
    answer: Result<T, E>,
) -> io::Result<()> {
    match answer {
        Ok(_) => number(out, 0),
        Err(error) => {
            let error: PathError = error.into();
            number(out, error.number())
        }
    }
}

// Document 01's number of an answer, and the number that was answered, 0 where it was refused.
pub fn answered<T: Copy + Display + Default, E: Copy + Into<PathError>>(
    out: &impl Print,
    answered: Result<T, E>,
) -> io::Result<()> {
    answer_number(out, answered)?;
    number(out, answered.unwrap_or_default())
}
