// ASIdOrRange: "at least one INTEGER or range (min, max)" (RFC 3779, section 3.2.3).
// "An AS number is never compared with a routing domain identifier": each has a type of its own.
ghost use Rattle.std.specs.Prelude.{◌≡◌, length};
ghost use Rattle.table.specs.Rows.{in_halves};
ghost use Rattle.values.specs.Choices.{listed_row};
ghost use Rattle.values.specs.Ids as spec;
ghost use Rattle.values.specs.Seen.{integer_seen, IntegerIn, pair_at_seen, PairAtIn, range_seen, found_seen, FoundIn};
ghost use Rattle.values.specs.Briefs.{BriefNumber, BriefPair};

use crate::briefs;
use crate::faults::Taken;
use der::{heads, integers, tags};
use number::address;
use number::halves::Halves;
use number::refusal::Refusal;
use table::rows::Row;
use table::spaces;

// A number of 32 bits in a space. Numbers of two spaces are of two types.
#[derive(Clone, Copy)]
pub struct Id<const SPACE: u64>(pub u32);

pub type AsNumber = Id<{ spaces::AS_NUMBERS }>;

pub type RdiNumber = Id<{ spaces::ROUTING_DOMAINS }>;

// Returns the row of the identifiers from low to high.
pub fn row<const SPACE: u64>(low: Id<SPACE>, high: Id<SPACE>) -> Row
    ensures { result ≡ in_halves (listed_row SPACE (low.entry.0, high.entry.0)) }
{
    Row {
        space: SPACE,
        inherit: 0,
        low: Halves::from(u64::from(low.0)),
        high: Halves::from(u64::from(high.0)),
    }
}

// Returns the row of a range of identifiers, or none where min is not below max: "A range has min below max."
pub fn range<const SPACE: u64>(min: Id<SPACE>, max: Id<SPACE>) -> Option<Row>
    ensures { result ≡ range_seen SPACE min.entry.0 max.entry.0 }
{
    if min.0 < max.0 {
        return Some(row(min, max));
    }
    None
}

// The INTEGER that s begins with, by its head and its contents.
fn any_integer_at(s: &[u8]) -> Taken<u32>
    ensures seen { integer_seen s.now result ≡ spec.integer_at s.now }
    ensures inside { IntegerIn (length s.now) result }
{
    let (k, end) = heads::open(tags::INTEGER, s)?;
    let x = integers::read(&s[k..end])?;
    Ok((x, end))
}

// The INTEGER of one to five octets that s begins with, and how many octets it took; or none where it is not brief, or is to be refused.
// Its octets are the first of a word.
fn brief_number(s: &[u8]) -> Option<(u32, usize)>
    ensures { BriefNumber s.now result }
{
    if !briefs::is_brief(tags::INTEGER, 1, 5, s) {
        return None;
    }
    let octets = u32::from(s[1]);
    let x = address::spelled(&s[2..10]) >> (64 - 8 * octets);
    if 4294967295 < x {
        return None;
    }
    let number = x as u32;
    // So many octets are the number's own: they are minimal, and not negative.
    if integers::octets(number) != octets as usize {
        return None;
    }
    Some((number, 2 + octets as usize))
}

// The INTEGER that s begins with.
#[inline]
fn integer_at(s: &[u8]) -> Taken<u32>
    ensures seen { integer_seen s.now result ≡ spec.integer_at s.now }
    ensures inside { IntegerIn (length s.now) result }
{
    brief_number(s).map_or_else(|| any_integer_at(s), Ok)
}

// The range that s begins with, by its head and its contents. Not by `integer_at`: where both are brief, `pair_at` has taken them.
fn any_pair_at(s: &[u8]) -> Taken<(u32, u32)>
    ensures seen { pair_at_seen s.now result ≡ spec.pair_at s.now }
    ensures inside { PairAtIn (length s.now) result }
{
    crate::pair_at(any_integer_at, s)
}

// The range of two brief INTEGERs that s begins with, and how many octets it took.
// Two such have fewer than 128 octets: if they are the contents, the length is one octet, and the head need not be read.
fn brief_pair(s: &[u8]) -> Option<((u32, u32), usize)>
    ensures { BriefPair s.now result }
{
    if s.len() < 2 || s[0] != tags::SEQUENCE {
        return None;
    }
    let rest = &s[2..];
    let (min, k) = brief_number(rest)?;
    let (max, j) = brief_number(&rest[k..])?;
    if k + j != usize::from(s[1]) {
        return None;
    }
    Some(((min, max), 2 + k + j))
}

// The range that s begins with.
#[inline]
fn pair_at(s: &[u8]) -> Taken<(u32, u32)>
    ensures seen { pair_at_seen s.now result ≡ spec.pair_at s.now }
    ensures inside { PairAtIn (length s.now) result }
{
    brief_pair(s).map_or_else(|| any_pair_at(s), Ok)
}

// The row of the identifier that s begins with.
fn number_at<const SPACE: u64>(s: &[u8]) -> Taken<Row>
    ensures seen { found_seen s.now result ≡ spec.number_at s.now }
    ensures inside { FoundIn SPACE (length s.now) result }
{
    let (x, end) = integer_at(s)?;
    let id = Id::<SPACE>(x);
    Ok((row(id, id), end))
}

// The row of the range of identifiers that s begins with.
fn range_at<const SPACE: u64>(s: &[u8]) -> Taken<Row>
    ensures seen { found_seen s.now result ≡ spec.range_at s.now }
    ensures inside { FoundIn SPACE (length s.now) result }
{
    let ((min, max), end) = pair_at(s)?;
    let row = range(Id::<SPACE>(min), Id::<SPACE>(max)).ok_or(Refusal::RangeForm)?;
    Ok((row, end))
}

// Returns the row of an element of a list of identifiers of a space, and how many octets it took.
pub fn element<const SPACE: u64>(s: &[u8]) -> Taken<Row>
    ensures seen { found_seen s.now result ≡ spec.id_at s.now }
    ensures inside { FoundIn SPACE (length s.now) result }
{
    if 0 < s.len() && s[0] == tags::INTEGER {
        return number_at::<SPACE>(s);
    }
    range_at::<SPACE>(s)
}
