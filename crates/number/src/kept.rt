// The shortened bit lengths of min and max, and the bits filled in again (RFC 3779, section 2.2.3.9).
ghost use Rattle.std.specs.Prelude.{◌≡◌, ◌+◌, ◌-◌, ◌*◌, ◌/◌, ◌^◌, ◌<◌, ◌≤◌};
ghost use Rattle.number.specs.Halves.{whole, halves, bits as bits_of};
ghost use Rattle.number.specs.Kept as spec;

use crate::halves::{Halves, Width, ZERO};

// The run of zeros at the end of 128 bits, by the trailing-zero count of each half.
fn zeros_at_end(n: Halves) -> u32
    ensures { result ≡ spec.run 0 128 (whole n) }
{
    if n.lower == 0 {
        return 64 + n.upper.trailing_zeros();
    }
    n.lower.trailing_zeros()
}

// Returns the length of the run of zeros at the end of the width bits of n.
pub fn zeros(width: Width, n: Halves) -> u32
    ensures { result ≡ spec.run 0 (bits_of width) (whole n) }
{
    width.bits().min(zeros_at_end(n))
}

// n with each bit the other one.
fn flipped(n: Halves) -> Halves
    ensures { result ≡ halves (2 ^ 128 - 1 - whole n) }
{
    Halves {
        upper: u64::MAX - n.upper,
        lower: u64::MAX - n.lower,
    }
}

// Returns the length of the run of ones at the end of the width bits of n: the zeros of both halves complemented.
pub fn ones(width: Width, n: Halves) -> u32
    ensures { result ≡ spec.run 1 (bits_of width) (whole n) }
{
    zeros(width, flipped(n))
}

// x without its last j bits: zeros in their place.
fn half_cut(x: u64, j: u32) -> u64
    requires { j < 64 }
    ensures { result ≡ x / 2 ^ j * 2 ^ j }
{
    let unit = 1u64 << j;
    x - x % unit
}

// n without its last j bits: zeros in their place.
fn cut(n: Halves, j: u32) -> Halves
    requires { j ≤ 128 }
    ensures { result ≡ halves (whole n / 2 ^ j * 2 ^ j) }
{
    if j < 64 {
        return Halves {
            upper: n.upper,
            lower: half_cut(n.lower, j),
        };
    }
    if j < 128 {
        return Halves {
            upper: half_cut(n.upper, j - 64),
            lower: 0,
        };
    }
    ZERO
}

// n with ones for its last j bits: with each bit the other one, zeros in their place.
fn filled(n: Halves, j: u32) -> Halves
    requires { j ≤ 128 }
    ensures { result ≡ halves (whole n / 2 ^ j * 2 ^ j + (2 ^ j - 1)) }
{
    flipped(cut(flipped(n), j))
}

// How many of the width bits are not among the first `kept`.
fn lost(width: Width, kept: u32) -> u32
    ensures { result ≡ bits_of width - kept }
{
    width.bits().saturating_sub(kept)
}

// Returns n with its first `kept` bits, of as many as the width has, and zeros after them.
pub fn zero_filled(width: Width, kept: u32, n: Halves) -> Halves
    ensures { result ≡ halves (spec.zero_filled (bits_of width) kept (whole n)) }
{
    cut(n, lost(width, kept))
}

// Returns n with its first `kept` bits, of as many as the width has, and ones after them.
pub fn one_filled(width: Width, kept: u32, n: Halves) -> Halves
    ensures { result ≡ halves (spec.one_filled (bits_of width) kept (whole n)) }
{
    filled(n, lost(width, kept))
}

// Returns how many bits of min are kept: all but its trailing zeros.
pub fn kept_min(width: Width, n: Halves) -> u32
    ensures { result ≡ spec.kept_min (bits_of width) (whole n) }
{
    width.bits() - zeros(width, n)
}

// Returns how many bits of max are kept: all but its trailing ones, of which the first is kept where no one bit would be left.
pub fn kept_max(width: Width, n: Halves) -> u32
    ensures { result ≡ spec.kept_max (bits_of width) (whole n) }
{
    let run = ones(width, n);
    let kept = width.bits() - run;
    if run == 0 {
        return kept;
    }
    let left = cut(n, run);
    if left == ZERO { kept + 1 } else { kept }
}
