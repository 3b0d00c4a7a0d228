// IPAddressOrRange: "a BIT STRING (prefix) or a SEQUENCE of two (range)" (RFC 3779, sections 2.2.3.7 to 2.2.3.9).
// Each function reads the element that s begins with; places count from the start of s.
ghost use Rattle.std.specs.Prelude.{◌≡◌, length};
ghost use Rattle.number.specs.Halves.{whole, bits as bits_of};
ghost use Rattle.number.specs.Kept.{one_filled};
ghost use Rattle.table.specs.Rows.{in_halves};
ghost use Rattle.table.specs.Spaces.{width_of};
ghost use Rattle.values.specs.Forms.{ranged};
ghost use Rattle.values.specs.Addresses as spec;
ghost use Rattle.values.specs.Choices.{listed_row};
ghost use Rattle.values.specs.Seen.{bits_seen, BitsIn, bounds_at_seen, BoundsAtIn, ranged_seen, found_seen, FoundIn};

use crate::faults::Taken;
use crate::{brief_addresses, pair_at};
use der::{bits, heads, tags};
use number::halves::{Halves, Width};
use number::refusal::Refusal;
use number::{address, halves, kept, shape};
use table::rows::Row;
use table::spaces;

// What a BIT STRING says: how many bits, and the address that they begin, zeros after them.
#[derive(Clone, Copy)]
pub struct Start {
    pub bits: u32,
    pub address: Halves,
}

// The BIT STRING that s begins with, by its head and its contents.
fn bits_at(width: Width, s: &[u8]) -> Taken<Start>
    ensures seen { bits_seen s.now result ≡ spec.bits_at (bits_of width) s.now }
    ensures inside { BitsIn (bits_of width) (length s.now) result }
{
    let (k, end) = heads::open(tags::BIT_STRING, s)?;
    let string = bits::read(width, &s[k..end]).ok_or(Refusal::Contents)?;
    let start = Start {
        bits: string.count,
        address: address::to_halves(string.address),
    };
    Ok((start, end))
}

// The addresses that begin with the bits: zeros after them at the low end, ones at the high end.
fn prefix_row(space: u64, prefix: Start) -> Row
    ensures { result ≡ in_halves (listed_row space (whole prefix.address, one_filled (bits_of (width_of space)) prefix.bits (whole prefix.address))) }
{
    Row {
        space,
        inherit: 0,
        low: prefix.address,
        high: kept::one_filled(spaces::width(space), prefix.bits, prefix.address),
    }
}

// The row of the prefix that s begins with.
fn prefix_at(space: u64, s: &[u8]) -> Taken<Row>
    ensures seen { found_seen s.now result ≡ spec.prefix_at (bits_of (width_of space)) s.now }
    ensures inside { FoundIn space (length s.now) result }
{
    let (prefix, end) = bits_at(spaces::width(space), s)?;
    Ok((prefix_row(space, prefix), end))
}

// The range that s begins with, by its head and its contents.
fn bounds_at(width: Width, s: &[u8]) -> Taken<(Start, Start)>
    ensures seen { bounds_at_seen s.now result ≡ spec.range_at (bits_of width) s.now }
    ensures inside { BoundsAtIn (bits_of width) (length s.now) result }
{
    pair_at(|part| bits_at(width, part), s)
}

// The row of a range, or none where min and max are not its one form: "min must be below max"; min keeps no trailing zero, max no trailing one but the kept one; "a range that is a prefix must be written as a prefix".
fn range_row(space: u64, min: Start, max: Start) -> Option<Row>
    ensures { result ≡ ranged_seen space (ranged (bits_of (width_of space)) min.bits (whole min.address) max.bits (one_filled (bits_of (width_of space)) max.bits (whole max.address))) }
{
    let width = spaces::width(space);
    let low = min.address;
    let high = kept::one_filled(width, max.bits, max.address);
    if !(low < high) {
        return None;
    }
    if min.bits != kept::kept_min(width, low) {
        return None;
    }
    if max.bits != kept::kept_max(width, high) {
        return None;
    }
    if shape::is_prefix(width, low, high) {
        return None;
    }
    Some(Row {
        space,
        inherit: 0,
        low,
        high,
    })
}

// The row of the range that s begins with.
fn range_at(space: u64, s: &[u8]) -> Taken<Row>
    ensures seen { found_seen s.now result ≡ spec.range_row_at (bits_of (width_of space)) s.now }
    ensures inside { FoundIn space (length s.now) result }
{
    let ((min, max), end) = bounds_at(spaces::width(space), s)?;
    let row = range_row(space, min, max).ok_or(Refusal::RangeForm)?;
    Ok((row, end))
}

// The row of an element, by its head and its contents: every one is read, or refused, here.
fn any_element(space: u64, s: &[u8]) -> Taken<Row>
    ensures seen { found_seen s.now result ≡ spec.address_at (bits_of (width_of space)) s.now }
    ensures inside { FoundIn space (length s.now) result }
{
    if 0 < s.len() && s[0] == tags::BIT_STRING {
        return prefix_at(space, s);
    }
    range_at(space, s)
}

// Returns the row of an element of an address family, and how many octets it took.
pub fn element(space: u64, s: &[u8]) -> Taken<Row>
    ensures seen { found_seen s.now result ≡ spec.address_at (bits_of (width_of space)) s.now }
    ensures inside { FoundIn space (length s.now) result }
{
    match brief_addresses::brief_row(spaces::width(space), s) {
        None => any_element(space, s),
        Some((span, end)) => {
            let row = Row {
                space,
                inherit: 0,
                low: span.low,
                high: span.high,
            };
            Ok((row, end))
        }
    }
}
