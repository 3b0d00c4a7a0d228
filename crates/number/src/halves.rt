// A number of up to 128 bits in its two halves of 64 bits, as a row of the table has it.
// `==`, `<` and `<=` compare the numbers (proofs/laws/Orders): the upper halves come first.
ghost use Rattle.std.proofs.Common.{rules};
ghost use Rattle.std.specs.Cmp.{partial_order_from_own_ties};
ghost use Rattle.std.specs.Cmp.Rules.{comparing};
ghost use Rattle.std.specs.Ordering.{as_partial_cmp};
ghost use Rattle.std.specs.Prelude.{◌≡◌, ◌+◌, ltb};
ghost use Rattle.number.specs.Halves as spec;

use std::cmp::Ordering;

#[derive(Clone, Copy, PartialEq, Eq)]
pub struct Halves {
    pub upper: u64,
    pub lower: u64,
}

impl From<Halves> for u128 {
    // Returns the number of the two halves, which are its halves.
    fn from(a: Halves) -> u128
        ensures whole { result ≡ spec.whole a }
        ensures halves { spec.halves result ≡ a }
    {
        u128::from(a.upper) << 64 | u128::from(a.lower)
    }
}

// The order that a derive would give, by one comparison of 128 bits: a derive's two, one of each half, take more instructions.
impl Ord for Halves {
    ghost cmp = { spec.order };

    ghost total = { Prim.search (comparing, rules) };

    ghost matches_partial_cmp = { Prim.search (comparing, rules) };

    ghost matches_eq = { Prim.search (comparing, rules) };

    fn cmp(&self, other: &Halves) -> Ordering {
        u128::from(*self).cmp(&u128::from(*other))
    }
}

impl PartialOrd for Halves {
    ghost partial_cmp = { as_partial_cmp spec.order };

    ghost laws = { partial_order_from_own_ties (Prim.search (comparing, rules)) (Prim.search (comparing, rules)) };

    fn partial_cmp(&self, other: &Halves) -> Option<Ordering> {
        Some(self.cmp(other))
    }
}

pub const ZERO: Halves = Halves { upper: 0, lower: 0 };

// A number of up to 64 bits.
impl From<u64> for Halves {
    ghost from_gives = { λ n all. all ≡ spec.halves n };

    fn from(n: u64) -> Halves {
        Halves { lower: n, ..ZERO }
    }
}

// How many bits a number of a space has: "at most 32 or 128 bits" (document 01).
#[derive(Clone, Copy, PartialEq, Eq)]
pub enum Width {
    Bits32,
    Bits128,
}

impl Width {
    // Returns the width as a number of bits.
    pub fn bits(self) -> u32
        ensures { result ≡ spec.bits self }
    {
        match self {
            Width::Bits32 => 32,
            Width::Bits128 => 128,
        }
    }
}

// Returns the number after a. The last number of 128 bits has none after it, and stays: nothing wraps to 0.
pub fn next(a: Halves) -> Halves
    ensures { result ≡ spec.halves (spec.next (spec.whole a)) }
{
    if a.lower < u64::MAX {
        return Halves {
            upper: a.upper,
            lower: a.lower + 1,
        };
    }
    if a.upper < u64::MAX {
        return Halves {
            upper: a.upper + 1,
            lower: 0,
        };
    }
    a
}

// Whether b is more than 1 past a.
fn apart(a: u64, b: u64) -> bool
    ensures { result ≡ ltb (a + 1) b }
{
    a < b && 1 < b - a
}

// Returns whether low is more than 1 past high ("each low is greater than the high before it plus 1"): never at the last number.
pub fn past(high: Halves, low: Halves) -> bool
    ensures { result ≡ ltb (spec.whole high + 1) (spec.whole low) }
{
    if high.upper == low.upper {
        return apart(high.lower, low.lower);
    }
    // Only a high that ends in ones and a low that ends in zeros can be neighbours.
    if high.lower < u64::MAX || 0 < low.lower {
        return high.upper < low.upper;
    }
    apart(high.upper, low.upper)
}
