// "NULL (inherit) or a SEQUENCE of at least one element".
ghost use Rattle.std.specs.Prelude.{◌≡◌, IfErr};
ghost use Rattle.table.specs.Rows.{in_halves};
ghost use Rattle.values.specs.Spaces.{space_number};
ghost use Rattle.values.specs.Choices as spec;
ghost use Rattle.values.specs.Into.{ChosenOn};

use crate::counted::Rows;
use crate::elements::Space;
use crate::faults::{Fault, Read};
use crate::{after, elements};
use der::{heads, strings, tags};
use number::halves;
use number::refusal::Refusal;
use table::rows::Row;

// "An inherit row has zeros for low and high".
fn inherit_row(space: u64) -> Row
    ensures { result ≡ in_halves (spec.inherit_row space) }
{
    Row {
        space: space,
        inherit: 1,
        low: halves::ZERO,
        high: halves::ZERO,
    }
}

// The NULL that s begins with: its row says that the space is inherited. Its end.
fn inherit_at(space: u64, s: &[u8], rows: &mut Rows) -> Read<usize>
    ensures same_table { rows.new.table.ghost_name ≡ rows.old.table.ghost_name }
    ensures rows { ChosenOn space s.now rows.old (spec.inherit_at rows.old.count s.now) result rows.new }
    ensures kept { IfErr result (λ _. rows.new.count ≡ rows.old.count) }
{
    let (k, end) = heads::open(tags::NULL, s)?;
    if !strings::null(&s[k..end]) {
        return Err(Fault::from(Refusal::Contents));
    }
    rows.push(inherit_row(space))?;
    Ok(end)
}

// The list that s begins with: "at least one element". Its end.
#[inline(always)]
fn list_at(space: Space, s: &[u8], rows: &mut Rows) -> Read<usize>
    ensures same_table { rows.new.table.ghost_name ≡ rows.old.table.ghost_name }
    ensures rows { ChosenOn (space_number space) s.now rows.old (spec.listed_at space rows.old.count s.now) result rows.new }
    ensures kept { IfErr result (λ _. rows.new.count ≡ rows.old.count) }
{
    let (k, end) = heads::open(tags::SEQUENCE, s)?;
    let before = rows.count;
    after(k, elements::read(space, &s[k..end], rows))?;
    if rows.count == before {
        return Err(Fault::from(Refusal::EmptyList));
    }
    Ok(end)
}

// Reads the NULL or the list that s begins with into the table, after the rows so far.
// Returns the octets taken, or the refusal and its place in s; the rows are then counted as before.
#[inline(always)]
pub fn read(space: Space, s: &[u8], rows: &mut Rows) -> Read<usize>
    ensures same_table { rows.new.table.ghost_name ≡ rows.old.table.ghost_name }
    ensures rows { ChosenOn (space_number space) s.now rows.old (spec.choice_at space rows.old.count s.now) result rows.new }
    ensures kept { IfErr result (λ _. rows.new.count ≡ rows.old.count) }
{
    if 0 < s.len() && s[0] == tags::NULL {
        return inherit_at(u64::from(space), s, rows);
    }
    list_at(space, s, rows)
}
