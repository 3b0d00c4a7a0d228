// Whether the numbers from low to high are a prefix or a range (RFC 3779, section 2.2.3.7).
ghost use Rattle.std.specs.Prelude.{◌≡◌, eqb};
ghost use Rattle.number.specs.Shape as spec;
ghost use Rattle.number.specs.Halves.{whole, bits as bits_of};
ghost use Rattle.number.specs.Address.{number_of};
ghost use Rattle.number.specs.Kept.{one_filled};

use crate::address::Address;
use crate::halves::{Halves, Width};
use crate::{address, kept};

// How many bits at the end run through all their values from low to high, if those are a prefix.
fn free(width: Width, low: Halves, high: Halves) -> u32
    ensures { result ≡ spec.free (bits_of width) (whole low) (whole high) }
{
    kept::zeros(width, low).min(kept::ones(width, high))
}

// Whether high is low with ones after its first `count` bits.
fn is_filled(width: Width, count: u32, low: Halves, high: Halves) -> bool
    ensures { result ≡ eqb (whole high) (one_filled (bits_of width) count (whole low)) }
{
    high == kept::one_filled(width, count, low)
}

// The number of bits of the prefix that the numbers from low to high are, or None where they are a range.
fn prefix(width: Width, low: Halves, high: Halves) -> Option<u32>
    ensures { result ≡ spec.shape_of (bits_of width) (whole low) (whole high) }
{
    let count = width.bits() - free(width, low, high);
    is_filled(width, count, low, high).then_some(count)
}

// Returns whether the numbers from low to high are a prefix.
pub fn is_prefix(width: Width, low: Halves, high: Halves) -> bool
    ensures { result ≡ spec.is_prefix (bits_of width) (whole low) (whole high) }
{
    prefix(width, low, high).is_some()
}

// Returns the number of bits of the prefix that the addresses from low to high are, or None where they are a range. Both are read at the width of low.
pub fn tell(low: Address, high: Address) -> Option<u32>
    ensures { result ≡ spec.shape_of (bits_of low.width) (number_of low) (number_of high) }
{
    prefix(low.width, address::to_halves(low), address::to_halves(high))
}
