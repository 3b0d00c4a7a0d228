// ASIdentifiers: "[0] AS numbers, then [1] routing domain identifiers, each optional, at least one" (RFC 3779, section 3.2.3).
ghost use Rattle.std.specs.Prelude.{◌≡◌, length};
ghost use Rattle.values.specs.Limits.{routing_domains};
ghost use Rattle.values.specs.Spaces.{space_number};
ghost use Rattle.values.specs.Choices.{choice_rows};
ghost use Rattle.values.specs.Identifiers as spec;
ghost use Rattle.values.specs.Tables.{identifiers_rows};
ghost use Rattle.values.specs.Into.{CountedInto, CountedOn, ChosenOn};

use crate::counted::Rows;
use crate::elements::Space;
use crate::faults::{Fault, Read};
use crate::{after, choices, limits};
use der::{heads, readers, tags};
use number::refusal::Refusal;

// The member that s begins with: it "wraps NULL or a SEQUENCE", and nothing follows in it. Its end.
#[inline(always)]
fn member(tag: u8, space: Space, s: &[u8], rows: &mut Rows) -> Read<usize>
    ensures same_table { rows.new.table.ghost_name ≡ rows.old.table.ghost_name }
    ensures rows { ChosenOn (space_number space) s.now rows.old (spec.member_at tag space rows.old.count s.now) result rows.new }
{
    let (k, end) = heads::open(tag, s)?;
    let inner = &s[k..end];
    let j = after(k, choices::read(space, inner, rows))?;
    if j < inner.len() {
        return Err(Fault::at(k + j, Refusal::OctetsLeft));
    }
    Ok(end)
}

// [1], and nothing after it: "any octet after [1] is 5".
fn last(s: &[u8], rows: &mut Rows) -> Read<()>
    ensures same_table { rows.new.table.ghost_name ≡ rows.old.table.ghost_name }
    ensures rows { CountedOn (choice_rows routing_domains) (length s.now) rows.old (spec.last_of rows.old.count s.now) result rows.new }
{
    let end = member(limits::RDI, Space::RoutingDomains, s, rows)?;
    if end < s.len() {
        return Err(Fault::at(end, Refusal::OctetsLeft));
    }
    Ok(())
}

// [0], and [1] or nothing after it.
fn first(s: &[u8], rows: &mut Rows) -> Read<()>
    ensures same_table { rows.new.table.ghost_name ≡ rows.old.table.ghost_name }
    ensures rows { CountedOn identifiers_rows (length s.now) rows.old (spec.first_of rows.old.count s.now) result rows.new }
{
    let end = member(limits::ASNUM, Space::AsNumbers, s, rows)?;
    if end < s.len() {
        return after(end, last(&s[end..], rows));
    }
    Ok(())
}

// The members: [0] first, or [1] alone.
fn members(s: &[u8], rows: &mut Rows) -> Read<()>
    ensures same_table { rows.new.table.ghost_name ≡ rows.old.table.ghost_name }
    ensures rows { CountedOn identifiers_rows (length s.now) rows.old (spec.members_of rows.old.count s.now) result rows.new }
{
    if 0 < s.len() && s[0] == limits::ASNUM {
        return first(s, rows);
    }
    last(s, rows)
}

// Reads an ASIdentifiers value into the table, from row `count` on.
// Returns the rows so far, or the refusal and its place in the value.
pub fn read(value: &[u8], count: usize, table: &mut [u64]) -> Read<usize>
    ensures { CountedInto identifiers_rows (length value.now) count table.old (spec.read_identifiers count value.now) result table.new }
{
    let (k, end) = readers::outermost(tags::SEQUENCE, value)?;
    if k == end {
        return Err(Fault::from(Refusal::EmptyList));
    }
    let mut rows = Rows::new(table, count);
    after(k, members(&value[k..end], &mut rows))?;
    if end < value.len() {
        return Err(Fault::at(end, Refusal::OctetsLeft));
    }
    Ok(rows.count)
}
