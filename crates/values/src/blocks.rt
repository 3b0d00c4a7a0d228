// IPAddrBlocks: "a SEQUENCE of families" (RFC 3779, section 2.2.3).
ghost use Rattle.std.specs.Prelude.{◌≡◌, ◌<◌, length};
ghost use Rattle.values.specs.Blocks as spec;
ghost use Rattle.values.specs.Tables.{blocks_rows};
ghost use Rattle.values.specs.Seen.{space_seen, space_of_seen, SpaceIn};
ghost use Rattle.values.specs.Into.{CountedInto, FamilyOn};

use crate::counted::Rows;
use crate::elements::Space;
use crate::faults::{Fault, Read, Taken};
use crate::{after, choices};
use der::{heads, readers, strings, tags};
use number::refusal::Refusal;

// The space of an OCTET STRING's contents. "AFI must be 0001 or 0002; any SAFI": "AFI × 1024, plus 1 + SAFI if a SAFI is present".
fn space_of(contents: &[u8]) -> Result<u64, Refusal>
    ensures { space_of_seen result ≡ spec.space_of contents.now }
{
    if !strings::sized(contents, 2, 3) {
        return Err(Refusal::Contents);
    }
    let afi = u64::from(contents[0]) * 256 + u64::from(contents[1]);
    if afi < 1 || 2 < afi {
        return Err(Refusal::Afi);
    }
    if contents.len() < 3 {
        return Ok(afi * 1024);
    }
    Ok(afi * 1024 + (1 + u64::from(contents[2])))
}

// The OCTET STRING that s begins with; its space is at least `least`.
fn space_at(s: &[u8], least: u64) -> Taken<u64>
    ensures seen { space_seen s.now result ≡ spec.space_at least s.now }
    ensures inside { SpaceIn (length s.now) result }
{
    let (k, end) = heads::open(tags::OCTET_STRING, s)?;
    let space = space_of(&s[k..end])?;
    if space < least {
        return Err(Fault::from(Refusal::FamilyOrder));
    }
    Ok((space, end))
}

// The contents of a family: its space, its choice, then nothing. Its space.
fn family_of(s: &[u8], least: u64, rows: &mut Rows) -> Read<u64>
    ensures same_table { rows.new.table.ghost_name ≡ rows.old.table.ghost_name }
    ensures rows { FamilyOn (length s.now) rows.old (spec.family_of least rows.old.count s.now) result rows.new }
{
    let (space, k) = space_at(s, least)?;
    let rest = &s[k..];
    let j = after(k, choices::read(Space::Addresses(space), rest, rows))?;
    if j < rest.len() {
        return Err(Fault::at(k + j, Refusal::OctetsLeft));
    }
    Ok(space)
}

// The families of s, into the table from row 0 on: "Rows ascend by space", so the next space is at least one more.
fn families(s: &[u8], table: &mut [u64]) -> Read<usize>
    ensures { CountedInto blocks_rows (length s.now) 0 table.old (spec.families_of s.now) result table.new }
{
    let mut rows = Rows::new(table, 0);
    let mut rest = s;
    let mut least: u64 = 0;
    while 0 < rest.len() {
        let at = s.len() - rest.len();
        let (k, end) = match heads::open(tags::SEQUENCE, rest) {
            Ok(opening) => opening,
            Err(refusal) => return Err(Fault::at(at, refusal)),
        };
        let space = after(at + k, family_of(&rest[k..end], least, &mut rows))?;
        least = space + 1;
        rest = &rest[end..];
    }
    Ok(rows.count)
}

// Reads an IPAddrBlocks value into the table, from row 0 on.
// Returns the rows, or the refusal and its place in the value.
pub fn read(value: &[u8], table: &mut [u64]) -> Read<usize>
    ensures { CountedInto blocks_rows (length value.now) 0 table.old (spec.read_blocks value.now) result table.new }
{
    let (k, end) = readers::outermost(tags::SEQUENCE, value)?;
    let n = after(k, families(&value[k..end], table))?;
    if end < value.len() {
        return Err(Fault::at(end, Refusal::OctetsLeft));
    }
    Ok(n)
}
