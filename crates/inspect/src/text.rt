// Text on standard output: a line is a name, padded to a column, and what it says. Numbers are decimal, or hexadecimal after 0x.
use std::fmt::Display;
use std::{fmt, io};

// The two hexadecimal digits of each byte; `none` where there is no byte.
#[derive(Clone, Copy)]
pub struct Hex<'a>(pub &'a [u8]);

impl Display for Hex<'_> {
    fn fmt<W: fmt::Write>(&self, f: &mut fmt::Formatter<W>) -> fmt::Result {
        if self.0.is_empty() {
            return write!(f, "none");
        }
        for byte in self.0 {
            write!(f, "{byte:02x}")?;
        }
        Ok(())
    }
}

// A line.
pub fn line(out: &impl Print, title: &str, value: impl Display + Drop) -> io::Result<()> {
    print!(out; "{title:24}{value}\n")
}

// A line with a number of bytes.
pub fn size_line(out: &impl Print, title: &str, size: usize) -> io::Result<()> {
    line(out, title, format_args!("{size} bytes"))
}

// A line with yes or no.
pub fn flag_line(out: &impl Print, title: &str, flag: bool) -> io::Result<()> {
    line(out, title, if flag { "yes" } else { "no" })
}

// A line with a name, which need not be text.
pub fn name_line(out: &impl Print, title: &str, name: &[u8]) -> io::Result<()> {
    print!(out; "{title:24}")?;
    out.write_all(name)?;
    print!(out; "\n")
}

// A line on standard error: what it is about, and what is wrong with it.
pub fn complaint(err: &impl Print, about: &[u8], words: &[u8]) -> io::Result<()> {
    err.write_all(about)?;
    print!(err; ": ")?;
    err.write_all(words)?;
    print!(err; "\n")
}
