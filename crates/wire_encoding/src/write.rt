// Big-endian numbers, and runs of bytes, written at an offset of a lent slice.
ghost use Rattle.std.specs.Prelude.{◌≡◌, ◌+◌, ◌≤◌, length};
ghost use Rattle.std.proofs.lemmas.List.Edits.{sets};
ghost use Rattle.wire_encoding.specs.BigEndian.{bytes_of, written, placed};
ghost use Rattle.wire_encoding.specs.Answers.{put_answer};

use crate::number::Number;
use crate::read::has_room;

// The destination has too few bytes: nothing was written.
#[derive(Clone, Copy, Debug, PartialEq, Eq, Hash)]
pub struct InadequateBufferSize;

// Writes a number at `at`, or nothing.
#[tactic(auto, using(crate::proofs::Writes::writes))]
pub fn put<T: Number>(dst: &mut [u8], at: usize, number: T) -> Result<(), InadequateBufferSize>
    ensures value { result ≡ put_answer (written dst.old at (bytes_of T.WIDTH (T.value number))) }
    ensures dst_after { dst.new ≡ placed dst.old at (bytes_of T.WIDTH (T.value number)) }
{
    if !has_room(dst.len(), at, T::WIDTH) {
        return Err(InadequateBufferSize);
    }
    number.write_be(&mut dst[at..at + T::WIDTH]);
    Ok(())
}

// Copies all of `src` to `dst` from `at` on, byte by byte: the library's copy of any length needs a function of the C library.
#[tactic(auto, using(crate::proofs::Writes::runs))]
fn write_bytes(src: &[u8], dst: &mut [u8], at: usize)
    requires { at + length src.now ≤ length dst.old }
    ensures { dst.new ≡ sets dst.old at src.now }
{
    for i in 0..src.len() {
        dst[at + i] = src[i];
    }
}

// Writes the bytes of `src` at `at`, all of them or none.
#[tactic(auto, using(crate::proofs::Writes::writes))]
pub fn put_slice(dst: &mut [u8], at: usize, src: &[u8]) -> Result<(), InadequateBufferSize>
    ensures value { result ≡ put_answer (written dst.old at src.now) }
    ensures dst_after { dst.new ≡ placed dst.old at src.now }
{
    if !has_room(dst.len(), at, src.len()) {
        return Err(InadequateBufferSize);
    }
    write_bytes(src, dst, at);
    Ok(())
}
