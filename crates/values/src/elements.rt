// The elements of one list: "an element starts more than 1 after the end of the one before".
// The functions that lead to the loop over them are inlined (here, in `choices` and in `identifiers`): each kind of list then has a loop of its own, which is faster, and each of identifiers in a function of its own.
ghost use Rattle.std.specs.Prelude.{◌≡◌, IfErr, length, ltb};
ghost use Rattle.number.specs.Halves.{whole};
ghost use Rattle.values.specs.Spaces.{space_number};
ghost use Rattle.values.specs.Choices.{listed_rows};
ghost use Rattle.values.specs.Elements as spec;
ghost use Rattle.values.specs.Seen.{found_seen, FoundIn};
ghost use Rattle.values.specs.Into.{CountedOn};
ghost use Rattle.values.specs.declared.elements.Space.TheVariants as variants;

use crate::counted::Rows;
use crate::faults::{Fault, Read, Taken};
use crate::{addresses, after, ids};
use number::halves;
use number::halves::Halves;
use number::refusal::Refusal;
use table::rows::Row;
use table::spaces;

// The lists that a value may have: addresses of a space, AS numbers, routing domain identifiers.
#[derive(Clone, Copy)]
pub enum Space {
    Addresses(u64),
    AsNumbers,
    RoutingDomains,
}

// The number that a list's rows have for their space.
impl From<Space> for u64 {
    ghost from_gives = { λ space number. number ≡ space_number space };

    fn from(space: Space) -> u64 {
        match space {
            Space::Addresses(number) => number,
            Space::AsNumbers => spaces::AS_NUMBERS,
            Space::RoutingDomains => spaces::ROUTING_DOMAINS,
        }
    }
}

// The element that s begins with.
#[inline(always)]
fn element(space: Space, s: &[u8]) -> Taken<Row>
    ensures seen { found_seen s.now result ≡ spec.element_at space s.now }
    ensures inside { FoundIn (space_number space) (length s.now) result }
{
    match space {
        Space::Addresses(number) => addresses::element(number, s),
        Space::AsNumbers => ids::element::<{ spaces::AS_NUMBERS }>(s),
        Space::RoutingDomains => ids::element::<{ spaces::ROUTING_DOMAINS }>(s),
    }
}

// Whether an element at `at` that starts with low is too early: the first one never is, a later one starts more than 1 after last.
fn early(at: usize, last: Halves, low: Halves) -> bool
    ensures { result ≡ ltb (whole low) (spec.least_at at (whole last)) }
{
    at != 0 && !halves::past(last, low)
}

// The loop over the elements of s, for every kind of list.
#[inline(always)]
fn list(space: Space, s: &[u8], rows: &mut Rows) -> Read<()>
    ensures same_table { rows.new.table.ghost_name ≡ rows.old.table.ghost_name }
    ensures rows { CountedOn (listed_rows (space_number space)) (length s.now) rows.old (spec.elements_of space rows.old.count s.now) result rows.new }
    ensures kept { IfErr result (λ _. rows.new.count ≡ rows.old.count) }
{
    // Of its own through the loop: what it counts stays in registers.
    let mut listed = Rows::new(rows.table, rows.count);
    let mut rest = s;
    let mut last = halves::ZERO;
    while 0 < rest.len() {
        let at = s.len() - rest.len();
        let (row, k) = after(at, element(space, rest))?;
        if early(at, last, row.low) {
            return Err(Fault::at(at, Refusal::ElementOrder));
        }
        if let Err(refusal) = listed.push(row) {
            return Err(Fault::at(at, refusal));
        }
        last = row.high;
        rest = &rest[k..];
    }
    rows.count = listed.count;
    Ok(())
}

// The loop over AS numbers. Inlined with all that leads to it, it would have to keep its place in memory.
#[inline(never)]
fn as_numbers(s: &[u8], rows: &mut Rows) -> Read<()>
    ensures same_table { rows.new.table.ghost_name ≡ rows.old.table.ghost_name }
    ensures rows { CountedOn (listed_rows (space_number variants.AsNumbers)) (length s.now) rows.old (spec.elements_of variants.AsNumbers rows.old.count s.now) result rows.new }
    ensures kept { IfErr result (λ _. rows.new.count ≡ rows.old.count) }
{
    list(Space::AsNumbers, s, rows)
}

// The loop over routing domain identifiers, in the same way.
#[inline(never)]
fn routing_domains(s: &[u8], rows: &mut Rows) -> Read<()>
    ensures same_table { rows.new.table.ghost_name ≡ rows.old.table.ghost_name }
    ensures rows { CountedOn (listed_rows (space_number variants.RoutingDomains)) (length s.now) rows.old (spec.elements_of variants.RoutingDomains rows.old.count s.now) result rows.new }
    ensures kept { IfErr result (λ _. rows.new.count ≡ rows.old.count) }
{
    list(Space::RoutingDomains, s, rows)
}

// Reads the elements of s into the table, after the rows so far.
// Returns the refusal and its place in s, if there is one; the rows are then counted as before.
#[inline(always)]
pub fn read(space: Space, s: &[u8], rows: &mut Rows) -> Read<()>
    ensures same_table { rows.new.table.ghost_name ≡ rows.old.table.ghost_name }
    ensures rows { CountedOn (listed_rows (space_number space)) (length s.now) rows.old (spec.elements_of space rows.old.count s.now) result rows.new }
    ensures kept { IfErr result (λ _. rows.new.count ≡ rows.old.count) }
{
    match space {
        Space::Addresses(_) => list(space, s, rows),
        Space::AsNumbers => as_numbers(s, rows),
        Space::RoutingDomains => routing_domains(s, rows),
    }
}
