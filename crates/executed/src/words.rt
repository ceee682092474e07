// The words of a line, which single spaces part: numbers in decimal, and byte strings.
// A byte string is `-` where it is empty, else pairs of hexadecimal digits; `+N` after them adds N zero bytes.
ghost use Rattle.std.specs.Prelude.{◌<◌, ◌≤◌, length};

use std::num::TryFromIntError;

// The most bytes of a byte string.
pub const MOST_BYTES: usize = 2400;

// Word `k` of a line, counted from 0; empty where there is no such word.
pub fn word(line: &[u8], k: usize) -> &[u8] {
    line.split(|byte| *byte == b' ').nth(k).unwrap_or(&[])
}

// The number that a word spells.
fn decimal(word: &[u8]) -> Option<u64> {
    word.iter().try_fold(0u64, |number, glyph| {
        let digit = char::from(*glyph).to_digit(10)?;
        number.checked_mul(10)?.checked_add(u64::from(digit))
    })
}

// Whether a word is a number of at most `most`.
fn is_number(word: &[u8], most: u64) -> bool {
    !word.is_empty() && decimal(word).is_some_and(|number| number <= most)
}

// The pairs of digits that begin a byte string, and the number of zero bytes that follow, where it has one.
fn pairs_and_zeros(word: &[u8]) -> (&[u8], Option<&[u8]>) {
    match word.iter().position(|glyph| *glyph == b'+') {
        Some(plus) => (&word[..plus], Some(&word[plus + 1..])),
        None => (word, None),
    }
}

// Whether these are pairs of digits, of at least one byte.
fn are_pairs(pairs: &[u8]) -> bool {
    !pairs.is_empty() && pairs.len() % 2 == 0 && pairs.iter().all(|glyph| glyph.is_ascii_hexdigit())
}

// Whether a word is a byte string of at most `MOST_BYTES`.
fn is_bytes(word: &[u8]) -> bool {
    if word == b"-".as_slice() {
        return true;
    }
    let (pairs, zeros) = pairs_and_zeros(word);
    if !are_pairs(pairs) {
        return false;
    }
    match (zeros, MOST_BYTES.checked_sub(pairs.len() / 2)) {
        (Some(zeros), Some(most)) => is_number(zeros, most as u64),
        (None, Some(_)) => true,
        (_, None) => false,
    }
}

// Whether a word is an order of reads: `f` for each at the front, `b` for each at the back, in the order they are made.
fn is_order(word: &[u8]) -> bool {
    !word.is_empty() && word.iter().all(|letter| matches!(*letter, b'f' | b'b'))
}

// Whether a word is of a kind: `s` a byte string, `o` an order of reads, `f` a flag; `b`, `h`, `w` and `n` a number of 8, 16, 32 and 64
// bits; a digit that digit itself, `t` the number 20.
fn is_of_kind(word: &[u8], kind: u8) -> bool {
    match kind {
        b's' => is_bytes(word),
        b'o' => is_order(word),
        b'0'..=b'9' => word == [kind].as_slice(),
        b't' => word == b"20".as_slice(),
        b'f' => is_number(word, 1),
        b'b' => is_number(word, u64::from(u8::MAX)),
        b'h' => is_number(word, u64::from(u16::MAX)),
        b'w' => is_number(word, u64::from(u32::MAX)),
        _ => is_number(word, u64::MAX),
    }
}

// Whether the words after the first are of these kinds, one of each.
fn are_of_kinds(line: &[u8], kinds: &str) -> bool {
    let words = line.split(|byte| *byte == b' ');
    words.count() == kinds.len() + 1
        && line
            .split(|byte| *byte == b' ')
            .skip(1)
            .zip(kinds.bytes())
            .all(|(word, kind)| is_of_kind(word, kind))
}

// Which call of a table a line is. The table has each call's name, the kinds of its words, and the call.
pub fn call_of<C: Copy>(line: &[u8], table: &[(&str, &str, C)]) -> Option<C> {
    let name = word(line, 0);
    table
        .iter()
        .find(|call| name == call.0.as_bytes() && are_of_kinds(line, call.1))
        .map(|call| call.2)
}

// Word `k` as a number, 0 where it is none of the type.
pub fn number_at<T: TryFrom<u64, Error = TryFromIntError> + Default>(line: &[u8], k: usize) -> T {
    let number = decimal(word(line, k)).unwrap_or(0);
    T::try_from(number).unwrap_or_default()
}

// Word `k` as a flag.
pub fn flag_at(line: &[u8], k: usize) -> bool {
    number_at::<u64>(line, k) == 1
}

// The value of a hexadecimal digit, 0 for any other glyph.
fn digit(glyph: u8) -> u8
    ensures { result < 16 }
{
    char::from(glyph).to_digit(16).unwrap_or(0) as u8
}

// Puts the bytes that pairs of digits spell at the start of `room`.
fn put_pairs(pairs: &[u8], room: &mut [u8]) {
    let (pairs, _) = pairs.as_chunks::<2>();
    for (byte, [high, low]) in room.iter_mut().zip(pairs) {
        *byte = digit(*high) * 16 + digit(*low);
    }
}

// The byte string of word `k`, put at the start of `room`, which holds zeros.
pub fn bytes_at<'r>(line: &[u8], k: usize, room: &'r mut [u8]) -> &'r mut [u8]
    ensures { length result.now ≤ length room.old }
{
    let (pairs, zeros) = pairs_and_zeros(word(line, k));
    put_pairs(pairs, room);
    let zeros = zeros.and_then(|zeros| decimal(zeros)).unwrap_or(0);
    let length = pairs.len() / 2 + MOST_BYTES.min(zeros as usize);
    let length = length.min(room.len());
    &mut room[..length]
}
