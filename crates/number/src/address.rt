// An address between the octets of a BIT STRING and the halves of a row (document 01: "its width and its sixteen octets, unused ones zero").
ghost use Rattle.std.specs.Prelude.{◌≡◌, ◌-◌, ◌*◌, ◌/◌, ◌%◌, ◌^◌, ◌<◌, take};
ghost use Rattle.number.specs.Halves.{whole, halves, bits as bits_of};
ghost use Rattle.number.specs.Octets.{value, octet_at};
ghost use Rattle.number.specs.Address.{address_of, number_of};

use crate::halves::{Halves, Width};

#[derive(Clone, Copy, PartialEq, Eq)]
pub struct Address {
    pub width: Width,
    pub octets: [u8; 16],
}

// The eight bits of x that are followed by `shift` more.
fn half_octet(x: u64, shift: u32) -> u8
    requires { shift < 64 }
    ensures { result ≡ x / 2 ^ shift % 2 ^ 8 }
{
    ((x >> shift) % 256) as u8
}

// Octet k of 128 bits, the highest first.
fn octet(n: Halves, k: u32) -> u8
    requires { k < 16 }
    ensures { result ≡ octet_at 128 (whole n) k }
{
    let shift = 120 - 8 * k;
    if shift < 64 {
        return half_octet(n.lower, shift);
    }
    half_octet(n.upper, shift - 64)
}

// The last bits of n, as many as the width has, as the first of 128, with zeros after them: the octets of an address are then at the same places for each width.
fn first_bits(width: Width, n: Halves) -> Halves
    ensures { whole result ≡ whole n % 2 ^ bits_of width * 2 ^ (128 - bits_of width) }
{
    match width {
        Width::Bits32 => Halves {
            upper: (n.lower % 4294967296) << 32,
            lower: 0,
        },
        Width::Bits128 => n,
    }
}

// Returns the address of the last bits of n, as many as the width has.
pub fn from_halves(width: Width, n: Halves) -> Address
    ensures { result ≡ address_of width (whole n) }
{
    let first = first_bits(width, n);
    let mut octets = [0u8; 16];
    for (k, place) in octets.iter_mut().enumerate() {
        *place = octet(first, k as u32);
    }
    Address { width, octets }
}

// Returns the number that at most eight octets spell, the highest first; of more octets, the first eight.
pub fn spelled(octets: &[u8]) -> u64
    ensures { result ≡ value (take 8 octets.now) }
{
    // Eight octets are one load.
    if let Some(first) = octets.first_chunk() {
        return u64::from_be_bytes(*first);
    }
    let mut n: u64 = 0;
    for octet in octets {
        n = n * 256 + u64::from(*octet);
    }
    n
}

// Returns the number of an address: what the octets within its width spell.
pub fn to_halves(a: Address) -> Halves
    ensures { result ≡ halves (number_of a) }
{
    let octets = a.octets;
    let width = a.width;
    let all: &[u8] = &octets;
    let first = spelled(all);
    match width {
        Width::Bits32 => Halves::from(first >> 32),
        Width::Bits128 => Halves {
            upper: first,
            lower: spelled(&all[8..16]),
        },
    }
}
