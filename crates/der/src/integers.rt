// The contents of an INTEGER from 0 to 4,294,967,295 (X.690, section 8.3).
ghost use Rattle.std.specs.Prelude.{◌≡◌};
ghost use Rattle.der.specs.Integer.{padded, integer_of, integer_size, integer_octets};
ghost use Rattle.der.specs.Written.{written};

use crate::writing;
use number::address;
use number::halves::{Halves, Width};

// Why the contents are no INTEGER from 0 to 4,294,967,295.
#[derive(Clone, Copy, PartialEq, Eq)]
pub enum BadInteger {
    Empty,
    Negative,
    Padded,
    TooLarge,
}

// Whether the first octet could be left out: it is 0, and the next one does not begin with a set bit.
fn is_padded(contents: &[u8]) -> bool
    ensures { result ≡ padded contents.now }
{
    1 < contents.len() && contents[0] == 0 && contents[1] < 128
}

// Returns the number that the contents of an INTEGER are, or why they are none.
pub fn read(contents: &[u8]) -> Result<u32, BadInteger>
    ensures { result ≡ integer_of contents.now }
{
    if contents.len() == 0 {
        return Err(BadInteger::Empty);
    }
    if 128 <= contents[0] {
        return Err(BadInteger::Negative);
    }
    if is_padded(contents) {
        return Err(BadInteger::Padded);
    }
    if 5 < contents.len() {
        return Err(BadInteger::TooLarge);
    }
    let x = address::spelled(contents);
    if 4294967295 < x {
        return Err(BadInteger::TooLarge);
    }
    Ok(x as u32)
}

// Returns how many octets the contents of an INTEGER take.
pub fn octets(x: u32) -> usize
    ensures { result ≡ integer_size x }
{
    if x < 128 {
        return 1;
    }
    if x < 32768 {
        return 2;
    }
    if x < 8388608 {
        return 3;
    }
    if x < 2147483648 {
        return 4;
    }
    5
}

// Writes the contents of an INTEGER at a place of `out`; nothing where they do not fit.
pub fn put(out: &mut [u8], at: usize, x: u32)
    ensures { out.new ≡ written out.old at (integer_octets x) }
{
    let n = Halves::from(u64::from(x));
    // An address of 128 bits has the octets of x at its end.
    let a = address::from_halves(Width::Bits128, n);
    let all = a.octets;
    let sixteen: &[u8] = &all;
    let k = octets(x);
    writing::put(out, at, &sixteen[16 - k..16]);
}
