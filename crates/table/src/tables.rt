// Whether a run of numbers is a table: what the writer's refusal 19 asks of its rows.
ghost use Rattle.std.specs.Prelude.{◌≡◌};
ghost use Rattle.number.specs.Halves.{whole};
ghost use Rattle.table.specs.Rows.{seen};
ghost use Rattle.table.specs.Spaces.{kind_number};
ghost use Rattle.table.specs.Tables as spec;

use crate::kinds::Kind;
use crate::rows::Row;
use crate::{rows, spaces};
use number::halves;
use number::halves::{Halves, Width, ZERO};

// Whether a number has at most the width's bits: "upper half 0 and lower half up to 4,294,967,295".
fn fits(width: Width, n: Halves) -> bool
    ensures { result ≡ spec.fits width (whole n) }
{
    match width {
        Width::Bits32 => n.upper == 0 && n.lower <= 4294967295,
        Width::Bits128 => true,
    }
}

// Whether a table of the kind takes rows of the kind `own`.
fn takes(kind: u64, own: Kind) -> bool
    ensures { result ≡ spec.takes kind (kind_number own) }
{
    kind == spaces::MIXED || kind == u64::from(own)
}

// Whether low and high are as the row's mark says: zeros where it inherits, else in order and not above the width.
fn marked(row: Row) -> bool
    ensures { result ≡ spec.marked (seen row) }
{
    if row.inherit == 1 {
        return row.low == ZERO && row.high == ZERO;
    }
    row.inherit == 0 && row.low <= row.high && fits(spaces::width(row.space), row.high)
}

// Whether a row may stand in a table of the kind, whatever stands before it.
fn proper(kind: u64, row: Row) -> bool
    ensures { result ≡ spec.proper kind (seen row) }
{
    let Some(own) = spaces::kind(row.space) else {
        return false;
    };
    takes(kind, own) && marked(row)
}

// Whether a row may come after another: a higher space, or in the same space more than 1 past it, where neither inherits.
fn follows(before: Row, row: Row) -> bool
    ensures { result ≡ spec.follows (seen before) (seen row) }
{
    if before.space == row.space {
        return before.inherit != 1 && row.inherit != 1 && halves::past(before.high, row.low);
    }
    before.space < row.space
}

// Returns whether the numbers are a table of the kind (MIXED, IP or AS): six numbers a row, at most 512 rows, and each as "The table" says.
// An AS table without rows is left to the writer's refusal 8.
pub fn is_table(kind: u64, numbers: &[u64]) -> bool
    ensures { result ≡ spec.is_table kind numbers.now }
{
    if spaces::AS < kind || numbers.len() % rows::ROW != 0 || rows::NUMBERS < numbers.len() {
        return false;
    }
    let mut before = rows::NOTHING;
    for k in 0..numbers.len() / rows::ROW {
        let row = rows::get(numbers, k);
        if !proper(kind, row) || !follows(before, row) {
            return false;
        }
        before = row;
    }
    true
}
