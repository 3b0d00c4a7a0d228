// The contents of a BIT STRING that begins an address (X.690, sections 8.6 and 11.2).
ghost use Rattle.std.specs.Prelude.{◌≡◌, ◌+◌, ◌-◌, ◌*◌, ◌/◌, ◌%◌, ◌^◌, ◌<◌, ◌≤◌, ◌++◌, length, get_or, take, drop, replicate, eqb};
ghost use Rattle.number.specs.Octets.{value};
ghost use Rattle.der.specs.Bits.{bit_string_of, bits_size};
ghost use Rattle.der.specs.Written.{bits_written};

use crate::writing;
use number::address::Address;
use number::halves::{Halves, Width};
use number::{address, halves};

// The address that the bits begin, zeros after them, and how many bits they are.
#[derive(Clone, Copy)]
pub struct BitString {
    pub count: u32,
    pub address: Address,
}

// Octet k of s, 0 past its end.
fn octet_or_zero(s: &[u8], k: usize) -> u64
    ensures { (result ≡ get_or s.now k 0) × (result < 256) }
{
    if k < s.len() {
        return u64::from(s[k]);
    }
    0
}

// The number that the first eight octets of s spell, zeros where it has fewer.
fn padded(s: &[u8]) -> u64
    ensures { result ≡ value (take 8 s.now ++ replicate (8 - length s.now) 0) }
{
    let mut n: u64 = 0;
    for k in 0..8 {
        n = n * 256 + octet_or_zero(s, k);
    }
    n
}

// The same. Eight octets at fixed places are one read.
fn upper(s: &[u8]) -> u64
    ensures { result ≡ value (take 8 s.now ++ replicate (8 - length s.now) 0) }
{
    if 8 <= s.len() {
        return address::spelled(&s[0..8]);
    }
    padded(s)
}

// The number that the next eight octets of s spell, zeros where it has fewer.
fn lower(s: &[u8]) -> u64
    ensures { result ≡ value (take 8 (drop 8 s.now) ++ replicate (8 - length (drop 8 s.now)) 0) }
{
    if s.len() <= 8 {
        return 0;
    }
    if 16 <= s.len() {
        return address::spelled(&s[8..16]);
    }
    padded(&s[8..])
}

// The first sixteen octets of s, zeros where it has fewer.
// By two numbers and not octet by octet: a copy of so many octets as s has is a call.
fn sixteen(s: &[u8]) -> [u8; 16]
    ensures { result ≡ take 16 s.now ++ replicate (16 - length s.now) 0 }
{
    let both = Halves {
        upper: upper(s),
        lower: lower(s),
    };
    let address = address::from_halves(Width::Bits128, both);
    address.octets
}

// Whether the last `unused` bits of the octets are zeros.
fn ends_in_zeros(octets: &[u8], unused: u8) -> bool
    requires { unused < 8 }
    ensures { result ≡ eqb (value octets.now % 2 ^ unused) 0 }
{
    octets.len() == 0 || octets[octets.len() - 1] % (1u8 << unused) == 0
}

// Returns the address that the contents of a BIT STRING begin, or none where they are against the rules: "at most 32 or 128 bits; unused bits 0 to 7, all zero; with no octets the
// initial octet is 0".
pub fn read(width: Width, contents: &[u8]) -> Option<BitString>
    ensures { result ≡ bit_string_of width contents.now }
{
    if contents.len() == 0 {
        return None;
    }
    let unused = contents[0];
    if 7 < unused {
        return None;
    }
    let octets = &contents[1..];
    if 16 < octets.len() {
        return None;
    }
    // Before the tests that are left: what stands behind many tests is compiled as seldom reached.
    let address = Address {
        width,
        octets: sixteen(octets),
    };
    let all = 8 * (octets.len() as u32);
    if all < unused as u32 {
        return None;
    }
    let count = all - unused as u32;
    if width.bits() < count {
        return None;
    }
    if ends_in_zeros(octets, unused) {
        return Some(BitString { count, address });
    }
    None
}

// Returns how many octets the contents of a BIT STRING of so many bits take.
pub fn octets(count: u32) -> usize
    ensures { result ≡ bits_size count }
{
    1 + (count as usize + 7) / 8
}

// How many bits are left over in the last octet of so many bits.
fn unused(count: u32) -> u8
    requires { count ≤ 128 }
    ensures { result ≡ 8 * ((count + 7) / 8) - count }
{
    ((8 - count % 8) % 8) as u8
}

// Writes the contents of a BIT STRING of the first `count` bits of an address at a place of `out`; nothing where they do not fit, or there are not so many.
pub fn put(out: &mut [u8], at: usize, count: u32, address: Address)
    ensures { out.new ≡ bits_written out.old at count address }
{
    if 128 < count {
        return;
    }
    let k = (count as usize + 7) / 8;
    if out.len() < at {
        return;
    }
    if out.len() - at < k + 1 {
        return;
    }
    out[at] = unused(count);
    let octets = address.octets;
    let sixteen: &[u8] = &octets;
    writing::put(out, at + 1, &sixteen[0..k]);
}
