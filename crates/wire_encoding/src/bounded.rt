// Numbers of fewer bits than their type has.
ghost use Rattle.std.specs.Prelude.{◌≡◌, ◌-◌, ◌^◌, ◌∷◌, []};
ghost use Rattle.wire_encoding.specs.Bounded.{bounded, bounded_of};

use crate::number::Number;

// A number of at most `WIDTH` bits.
#[derive(Clone, Copy, Debug, PartialEq, Eq, PartialOrd, Ord, Hash)]
pub struct Bounded<T, const WIDTH: u32>(T);

// 2 bits: an info pointer.
pub type U2 = Bounded<u8, 2>;
// 4 bits: a version, a host kind.
pub type U4 = Bounded<u8, 4>;
// 6 bits: a hop pointer, a reserved field, a segment length.
pub type U6 = Bounded<u8, 6>;
// 20 bits: a flow.
pub type U20 = Bounded<u32, 20>;

impl<T: Number, const WIDTH: u32> Bounded<T, WIDTH> {
    pub const BITS: u32 = WIDTH;

    // The number, unless it has more bits.
    #[tactic(auto, using(crate::proofs::Widths::widths))]
    pub fn new(value: T) -> Option<Bounded<T, WIDTH>>
        ensures { bounded_of T.value result ≡ bounded WIDTH (T.value value) }
    {
        let bits = 64 - value.to_u64().leading_zeros();
        if bits <= WIDTH {
            return Some(Bounded(value));
        }
        None
    }

    pub fn get(self) -> T
        ensures { result ≡ self.0 }
    {
        self.0
    }
}

impl Bounded<u8, 2> {
    pub const MAX: u8 = 3;
}

impl Bounded<u8, 4> {
    pub const MAX: u8 = 15;
}

impl Bounded<u8, 6> {
    pub const MAX: u8 = 63;
}

impl Bounded<u32, 20> {
    pub const MAX: u32 = 0xF_FFFF;
}

// The largest number of each width, which has all its bits set.
pub fn largest_numbers() -> [u32; 4]
    ensures { result ≡ ((2 ^ 2 - 1) ∷ (2 ^ 4 - 1) ∷ (2 ^ 6 - 1) ∷ (2 ^ 20 - 1) ∷ []) }
{
    [
        u32::from(U2::MAX),
        u32::from(U4::MAX),
        u32::from(U6::MAX),
        U20::MAX,
    ]
}
