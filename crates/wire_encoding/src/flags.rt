// A single bit of a byte set or cleared, the other seven kept.
ghost use Rattle.std.specs.Prelude.{◌≡◌, cond, ltb};
ghost use Rattle.wire_encoding.specs.Bits.{with_bit};

// The byte with bit `BIT` set or cleared; bit 0 is the lowest. A byte has no bit from 8 on, and stays as it is.
#[tactic(auto, using(crate::proofs::Bits::shifts))]
pub fn with_bit<const BIT: u32>(byte: u8, on: bool) -> u8
    ensures { result ≡ cond (ltb BIT 8) (with_bit BIT on byte) byte }
{
    if 8 <= BIT {
        return byte;
    }
    if on {
        byte | 1 << BIT
    } else {
        byte & !(1 << BIT)
    }
}
