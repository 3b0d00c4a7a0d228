// Brief elements of an address family: prefixes and ranges whose BIT STRINGs have at most eight octets are read a word at a time.
// What is taken here is right; any other element is read, or refused, by `addresses`.
ghost use Rattle.std.specs.Prelude.{◌≡◌, true, ◌+◌, ◌-◌};
ghost use Rattle.number.specs.Halves.{halves, bits as bits_of};
ghost use Rattle.number.specs.Address.{address_of};
ghost use Rattle.values.specs.Briefs.{Within, Leading, placed_bits, filled_bits, BriefBits, BriefSpan, IsRange};

use crate::briefs;
use der::tags;
use number::address::Address;
use number::halves::{Halves, Width};
use number::{address, halves, kept};

// The bits of a BIT STRING of one to eight octets: how many, and these as the first of 64, with zeros after them.
#[derive(Clone, Copy)]
pub struct Brief {
    pub count: u32,
    pub bits: u64,
}

// The brief BIT STRING that s begins with, and how many octets it took; or none where it is not brief, or is to be refused.
// Its octets are the first of a word, and the bits of them that are left over must be zeros.
fn brief_bits(width: Width, s: &[u8]) -> Option<(Brief, usize)>
    ensures { BriefBits (bits_of width) s.now result }
{
    if !briefs::is_brief(tags::BIT_STRING, 2, 9, s) || 7 < s[2] {
        return None;
    }
    let octets = u32::from(s[1]) - 1;
    let count = 8 * octets - u32::from(s[2]);
    if width.bits() < count {
        return None;
    }
    let word = Halves {
        upper: address::spelled(&s[3..11]),
        lower: 0,
    };
    let own = kept::zero_filled(Width::Bits128, 8 * octets, word);
    let bits = own.upper;
    if bits % (1u64 << (64 - count)) != 0 {
        return None;
    }
    Some((Brief { count, bits }, 3 + octets as usize))
}

// The address that begins with these bits, none of which is past the width: so its octets are those of 128 bits that begin with them.
fn placed(width: Width, bits: u64) -> Address
    requires { Within (bits_of width) bits }
    ensures { result ≡ address_of width (placed_bits (bits_of width) bits) }
{
    let all = Halves {
        upper: bits,
        lower: 0,
    };
    let address = address::from_halves(Width::Bits128, all);
    let octets = address.octets;
    Address { width, octets }
}

// The bits, of which the first `count` may be ones, with ones after those.
fn filled(count: u32, bits: u64) -> u64
    requires { Leading count bits }
    ensures { result ≡ filled_bits count bits }
{
    bits + ((1u64 << (64 - count)) - 1)
}

// The last address that begins with the bits before the ones at the end of `last`.
fn placed_last(width: Width, last: u64) -> Halves
    requires { Within (bits_of width) (last + 1) }
    ensures { result ≡ halves (placed_bits (bits_of width) (last + 1) - 1) }
{
    match width {
        Width::Bits32 => Halves::from(last >> 32),
        Width::Bits128 => Halves {
            upper: last,
            lower: u64::MAX,
        },
    }
}

// The numbers of an element, from low to high.
#[derive(Clone, Copy)]
pub struct Span {
    pub low: Halves,
    pub high: Halves,
}

// The brief prefix that s begins with, and how many octets it took.
fn brief_prefix(width: Width, s: &[u8]) -> Option<(Span, usize)>
    ensures { BriefSpan (bits_of width) s.now result }
{
    let (prefix, end) = brief_bits(width, s)?;
    let low = address::to_halves(placed(width, prefix.bits));
    let high = placed_last(width, filled(prefix.count, prefix.bits));
    Some((Span { low, high }, end))
}

// Whether min and max are sure to be the one form of a range. Most ranges are; `addresses::range_row` judges any other.
#[inline(always)]
fn is_range(min: Brief, max: Brief) -> bool
    requires min_leads { Leading min.count min.bits }
    requires max_leads { Leading max.count max.bits }
    ensures { result ≡ true → IsRange min.count min.bits max.count max.bits }
{
    // Min ends in a one.
    if (min.bits >> (64 - min.count)) % 2 == 0 {
        return false;
    }
    // Max ends in a zero, and a one is before it.
    if (max.bits >> (64 - max.count)) % 2 == 1 || max.bits == 0 {
        return false;
    }
    let last = filled(max.count, max.bits);
    if last <= min.bits {
        return false;
    }
    // A prefix has a power of two of addresses, and that has no bit in common with one less.
    let more = last - min.bits;
    more != u64::MAX && (more + 1) & more != 0
}

// The brief range that s begins with, and how many octets it took.
// Two brief BIT STRINGs have fewer than 128 octets: if they are the contents, the length is one octet, and the head need not be read.
fn brief_range(width: Width, s: &[u8]) -> Option<(Span, usize)>
    ensures { BriefSpan (bits_of width) s.now result }
{
    if s.len() < 2 || s[0] != tags::SEQUENCE {
        return None;
    }
    let rest = &s[2..];
    let (min, k) = brief_bits(width, rest)?;
    let (max, j) = brief_bits(width, &rest[k..])?;
    if k + j != usize::from(s[1]) || !is_range(min, max) {
        return None;
    }
    let low = address::to_halves(placed(width, min.bits));
    let high = placed_last(width, filled(max.count, max.bits));
    Some((Span { low, high }, 2 + k + j))
}

// The numbers of the brief element that s begins with, and how many octets it took; or none where it is not brief, or not sure to be right.
pub(crate) fn brief_row(width: Width, s: &[u8]) -> Option<(Span, usize)>
    ensures { BriefSpan (bits_of width) s.now result }
{
    if 0 < s.len() && s[0] == tags::BIT_STRING {
        return brief_prefix(width, s);
    }
    brief_range(width, s)
}
