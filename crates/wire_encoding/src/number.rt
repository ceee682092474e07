// Unsigned numbers on the wire: their bytes, the highest first.
ghost use Rattle.std.specs.Prelude.{◌≡◌, ℕ};
ghost use Rattle.wire_encoding.specs.BigEndian.{number_at, bytes_of, placed};
ghost use Rattle.wire_encoding.specs.Result.{or_else};

use crate::read::has_room;

// A number of `WIDTH` bytes.
pub trait Number: Copy {
    ghost value: { Self → ℕ };

    ghost WIDTH: { ℕ };

    const WIDTH: usize;

    // The number that begins the bytes, or 0 where there are too few.
    fn from_be(bytes: &[u8]) -> Self
        ensures { value result ≡ or_else (number_at WIDTH bytes.now 0) 0 };

    // Writes the number to the front of the destination, or nothing where it has too few bytes.
    fn write_be(self, dst: &mut [u8])
        ensures { dst.new ≡ placed dst.old 0 (bytes_of WIDTH (value self)) };

    fn to_u64(self) -> u64
        ensures { result ≡ value self };

    fn zero() -> Self
        ensures { value result ≡ 0 };
}

impl Number for u8 {
    ghost value = { λ n. n };

    ghost WIDTH = { 1 };

    const WIDTH: usize = 1;

    #[tactic(auto, using(crate::proofs::BigEndian::whole), unfolding(crate::specs::BigEndian::big_endian))]
    fn from_be(bytes: &[u8]) -> u8 {
        if has_room(bytes.len(), 0, 1) {
            return bytes[0];
        }
        0
    }

    #[tactic(auto, using(crate::proofs::Writes::front_byte, crate::proofs::Writes::front_refused))]
    fn write_be(self, dst: &mut [u8]) {
        if has_room(dst.len(), 0, 1) {
            dst[0] = self;
        }
    }

    fn to_u64(self) -> u64 {
        u64::from(self)
    }

    fn zero() -> u8 {
        0
    }
}

impl Number for u16 {
    ghost value = { λ n. n };

    ghost WIDTH = { 2 };

    const WIDTH: usize = 2;

    #[tactic(auto, using(crate::proofs::BigEndian::whole), unfolding(crate::specs::BigEndian::big_endian))]
    fn from_be(bytes: &[u8]) -> u16 {
        if has_room(bytes.len(), 0, 2) {
            return u16::from_be_bytes([bytes[0], bytes[1]]);
        }
        0
    }

    #[tactic(auto, using(crate::proofs::Writes::fronts))]
    fn write_be(self, dst: &mut [u8]) {
        if has_room(dst.len(), 0, 2) {
            dst[..2].copy_from_slice(&u16::to_be_bytes(self));
        }
    }

    fn to_u64(self) -> u64 {
        u64::from(self)
    }

    fn zero() -> u16 {
        0
    }
}

impl Number for u32 {
    ghost value = { λ n. n };

    ghost WIDTH = { 4 };

    const WIDTH: usize = 4;

    #[tactic(auto, using(crate::proofs::BigEndian::whole), unfolding(crate::specs::BigEndian::big_endian))]
    fn from_be(bytes: &[u8]) -> u32 {
        if has_room(bytes.len(), 0, 4) {
            return u32::from_be_bytes([bytes[0], bytes[1], bytes[2], bytes[3]]);
        }
        0
    }

    #[tactic(auto, using(crate::proofs::Writes::fronts))]
    fn write_be(self, dst: &mut [u8]) {
        if has_room(dst.len(), 0, 4) {
            dst[..4].copy_from_slice(&u32::to_be_bytes(self));
        }
    }

    fn to_u64(self) -> u64 {
        u64::from(self)
    }

    fn zero() -> u32 {
        0
    }
}

impl Number for u64 {
    ghost value = { λ n. n };

    ghost WIDTH = { 8 };

    const WIDTH: usize = 8;

    #[tactic(auto, using(crate::proofs::BigEndian::whole), unfolding(crate::specs::BigEndian::big_endian))]
    fn from_be(bytes: &[u8]) -> u64 {
        if has_room(bytes.len(), 0, 8) {
            return u64::from_be_bytes([
                bytes[0], bytes[1], bytes[2], bytes[3], bytes[4], bytes[5], bytes[6], bytes[7],
            ]);
        }
        0
    }

    #[tactic(auto, using(crate::proofs::Writes::fronts))]
    fn write_be(self, dst: &mut [u8]) {
        if has_room(dst.len(), 0, 8) {
            dst[..8].copy_from_slice(&u64::to_be_bytes(self));
        }
    }

    fn to_u64(self) -> u64 {
        self
    }

    fn zero() -> u64 {
        0
    }
}
