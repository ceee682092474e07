// Big-endian numbers, read at an offset of a slice.
ghost use Rattle.std.specs.Prelude.{◌≡◌, ◌+◌, ◌<◌, leb};
ghost use Rattle.wire_encoding.specs.BigEndian.{number_at, part};
ghost use Rattle.wire_encoding.specs.Answers.{number_of};
ghost use Rattle.wire_encoding.specs.Result.{or_else};

use crate::number::Number;

// A byte as an index or a count. Its bound stands in the contract, since a field of a struct that is passed brings none of its own;
// `usize::from` promises none.
pub fn wide(byte: u8) -> usize
    ensures { (result ≡ byte) × (result < 256) }
{
    usize::from(byte)
}

// Whether `len` bytes have `n` bytes at `at`; the sum of the two need not be a number.
pub(crate) fn has_room(len: usize, at: usize, n: usize) -> bool
    ensures { result ≡ leb (at + n) len }
{
    at <= len && n <= len - at
}

// The `len` bytes from `start` on; where they reach beyond the end, what there is of them.
pub fn part_of(bytes: &[u8], start: usize, len: usize) -> &[u8]
    ensures { result.now ≡ part start len bytes.now }
{
    if bytes.len() < start {
        return &bytes[..0];
    }
    if bytes.len() - start < len {
        return &bytes[start..];
    }
    &bytes[start..start + len]
}

// The number at `at`, unless there are too few bytes for it.
#[tactic(auto, using(crate::proofs::BigEndian::reads))]
pub fn get<T: Number>(bytes: &[u8], at: usize) -> Option<T>
    ensures { number_of T.value result ≡ number_at T.WIDTH bytes.now at }
{
    if has_room(bytes.len(), at, T::WIDTH) {
        return Some(T::from_be(&bytes[at..at + T::WIDTH]));
    }
    None
}

// The 32-bit number at `at`, unless there are too few bytes for it, byte by byte: of a word whose fields are taken apart, the compiler
// then sees of which bytes each is made.
#[tactic(auto, using(crate::proofs::BigEndian::reads), unfolding(crate::specs::BigEndian::big_endian))]
pub fn get_word(bytes: &[u8], at: usize) -> Option<u32>
    ensures { number_of (λ n. n) result ≡ number_at 4 bytes.now at }
{
    if !has_room(bytes.len(), at, 4) {
        return None;
    }
    let high = u32::from(bytes[at]) * 256 + u32::from(bytes[at + 1]);
    let low = u32::from(bytes[at + 2]) * 256 + u32::from(bytes[at + 3]);
    Some(high * 0x1_0000 + low)
}

// The number at `at`, or 0 where there are too few bytes.
pub fn get_or_zero<T: Number>(bytes: &[u8], at: usize) -> T
    ensures { T.value result ≡ or_else (number_at T.WIDTH bytes.now at) 0 }
{
    match get(bytes, at) {
        Some(number) => number,
        None => T::zero(),
    }
}
