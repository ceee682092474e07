// Files that give no packet to look at: what is wrong with one stands in a line of its own, and with its name on standard error.
use crate::text;
use std::io;
use std::io::{Cursor, ErrorKind, Write};

// A file that holds something else than one packet.
fn wrong(out: &impl Print, err: &impl Print, name: &[u8], words: &str) -> io::Result<()> {
    text::complaint(err, name, words.as_bytes())?;
    text::line(out, "no packet", words)
}

// The words that begin an error's text, before the system's number in brackets or the zeros that follow the text.
fn words(text: &[u8]) -> &[u8] {
    for (i, byte) in text.iter().enumerate() {
        if *byte == 0 || text[i..].starts_with(b" (") {
            return &text[..i];
        }
    }
    text
}

// A line on standard error: what a call failed on, and the system's words for why.
fn complain(err: &impl Print, about: &[u8], error: io::Error) -> io::Result<()> {
    let mut text = Cursor::new([0u8; 256]);
    let _ = write!(text, "{error}");
    let text = text.into_inner();
    text::complaint(err, about, words(&text))
}

// A file on which a call has just failed; standard error gets the system's words.
pub fn failed(
    out: &impl Print,
    err: &impl Print,
    name: &[u8],
    words: &str,
    error: io::Error,
) -> io::Result<()> {
    complain(err, name, error)?;
    text::line(out, "no packet", words)
}

// A file of which a read has just failed.
pub fn not_read(
    out: &impl Print,
    err: &impl Print,
    name: &[u8],
    error: io::Error,
) -> io::Result<()> {
    let words = match error.kind() {
        ErrorKind::IsADirectory => "a folder, not a file",
        _ => "can't be read",
    };
    failed(out, err, name, words, error)
}

// A file of which `length` bytes were read and that is not at its end: the next read gave a byte.
pub fn line(out: &impl Print, err: &impl Print, name: &[u8], length: usize) -> io::Result<()> {
    if length < 65536 {
        return wrong(out, err, name, "grew while it was read");
    }
    wrong(
        out,
        err,
        name,
        "holds more than 65,536 bytes, which is more than inspect reads",
    )
}
