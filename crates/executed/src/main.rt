// Executes the calls on standard input, one to a line, and prints each line, then ` => ` and its answer.
// An empty line and one that begins with `#` are copied. The comment of a call's function, or of its arm in calls.rt, says its words.
// Where C has a struct for a call's answer, the fields of that struct are printed, of a refusal too.
#![tactic(auto)]

mod calls;
mod fields;
mod meta_headers;
mod packets;
mod paths;
mod print;
mod records;
mod runs;
mod travel;
mod values;
mod words;

ghost use Rattle.std.specs.Prelude.{◌≡◌, ◌≤◌, length, take, IfOk, IfErr};

use std::io;
use std::io::Read;

// Whether a line is a call: it is not empty, and no comment.
fn is_call(line: &[u8]) -> bool {
    line.first().is_some_and(|first| *first != b'#')
}

// Prints a line, with its answer where it is a call.
fn execute(out: &impl Print, line: &[u8]) -> io::Result<()> {
    out.write_all(line)?;
    if is_call(line) {
        print!(out; " =>")?;
        calls::answer(out, line)?;
    }
    print!(out; "\n")
}

// Executes each line of a text.
fn execute_all(out: &impl Print, text: &[u8]) -> io::Result<()> {
    for line in text.split_inclusive(|byte| *byte == b'\n') {
        execute(out, line.strip_suffix(b"\n").unwrap_or(line))?;
    }
    Ok(())
}

// Where the last line of a text ends, its newline included; the text's end where it has no newline.
fn last_line_end(text: &[u8]) -> usize
    ensures { result ≤ length text.now }
{
    match text.iter().rposition(|byte| *byte == b'\n') {
        Some(last) => last + 1,
        None => text.len(),
    }
}

// Moves what lies from `start` to `end` to the front of a text; how many bytes that is.
fn keep_rest(text: &mut [u8], start: usize, end: usize) -> usize
    requires { (start ≤ end) × (end ≤ length text.old) }
    ensures { result ≤ end }
{
    text.copy_within(start..end, 0);
    end - start
}

// Reads until the input ends, a read fails or a buffer is full; how many bytes it then holds.
fn read_full(from: &mut impl Read, buffer: &mut [u8]) -> usize
    ensures { result ≤ length buffer.old }
{
    let mut filled: usize = 0;
    while filled < buffer.len() {
        match from.read(&mut buffer[filled..]) {
            Ok(0) | Err(_) => break,
            Ok(got) => filled += got,
        }
    }
    filled
}

// Reads on after the `held` bytes of a line that has begun, which stay; how many bytes there are then.
fn read_on(from: &mut impl Read, input: &mut [u8], held: usize) -> usize
    requires { held ≤ length input.old }
    ensures count { result ≤ length input.old }
    ensures line_begun { take held input.new ≡ take held input.old }
{
    let got = read_full(from, &mut input[held..]);
    held + got
}

// Executes the whole lines of what was read, and keeps the beginning of a line after them; how many bytes that is. Where an answer
// can't be written, the input is as it was.
fn execute_lines(out: &impl Print, input: &mut [u8], filled: usize) -> io::Result<usize>
    requires { filled ≤ length input.old }
    ensures kept { IfOk result (λ n. n ≤ filled) }
    ensures unwritten { IfErr result (λ _. input.new ≡ input.old) }
{
    let end = last_line_end(&input[..filled]);
    execute_all(out, &input[..end])?;
    Ok(keep_rest(input, end, filled))
}

// Executes the lines on standard input, of which it reads at most 32 blocks.
fn main(rt: HostRuntime) -> io::Result<()> {
    let mut stdin = rt.stdin();
    let mut input = [0u8; 65536];
    let mut held: usize = 0;
    for _ in 0..32 {
        let filled = read_on(&mut stdin, &mut input, held);
        held = execute_lines(&rt, &mut input, filled)?;
    }
    Ok(())
}
