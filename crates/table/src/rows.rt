// A row in a lent run of numbers: "six 64-bit numbers: space, inherit mark (0 or 1), low (upper half, lower half), high (upper half, lower half)".
// Only this file knows how many numbers a row has and in which order.
ghost use Rattle.std.specs.Prelude.{◌≡◌, ◌<◌, min};
ghost use Rattle.number.specs.Halves.{halves};
ghost use Rattle.table.specs.Sizes.{row_numbers};
ghost use Rattle.table.specs.Rows.{in_halves, seen, row_paper, room, column, row_at, with_row, cleared};

use number::halves::{Halves, ZERO};

// The numbers of a row, the rows of a table at most, and the numbers of those.
pub const ROW: usize = 6;

pub const ROWS: usize = 512;

pub const NUMBERS: usize = 3072;

#[derive(Clone, Copy, PartialEq, Eq)]
pub struct Row {
    pub space: u64,
    pub inherit: u64,
    pub low: Halves,
    pub high: Halves,
}

impl Row {
    // The numbers of the row, in their order.
    fn numbers(self) -> [u64; ROW]
        ensures { result ≡ row_paper self }
    {
        [
            self.space,
            self.inherit,
            self.low.upper,
            self.low.lower,
            self.high.upper,
            self.high.lower,
        ]
    }
}

// Zeros, which no table has as a row.
pub const NOTHING: Row = Row {
    space: 0,
    inherit: 0,
    low: ZERO,
    high: ZERO,
};

// Returns the lower of two counts.
pub fn fewer(a: usize, b: usize) -> usize
    ensures { result ≡ min a b }
{
    a.min(b)
}

// Returns how many of its first n rows a run has: n, or all that fit it.
pub fn count(run: &[u64], n: usize) -> usize
    ensures { result ≡ min n (room run.now) }
{
    fewer(n, run.len() / ROW)
}

// The number in a column of row n of a run, or 0 where the run has no row n.
fn number<const COLUMN: usize>(run: &[u64], n: usize) -> u64
    requires { COLUMN < row_numbers }
    ensures { result ≡ column COLUMN run.now n }
{
    if run.len() / ROW <= n {
        return 0;
    }
    run[ROW * n + COLUMN]
}

// Returns the space of row n of a run, or 0 where the run has no row n.
pub fn space(run: &[u64], n: usize) -> u64
    ensures { result ≡ (row_at run.now n).space }
{
    number::<0>(run, n)
}

// Returns the inherit mark of row n of a run, or 0 where the run has no row n.
pub fn inherit(run: &[u64], n: usize) -> u64
    ensures { result ≡ (row_at run.now n).inherit }
{
    number::<1>(run, n)
}

// Returns the low of row n of a run, or 0 where the run has no row n.
pub fn low(run: &[u64], n: usize) -> Halves
    ensures { result ≡ halves (row_at run.now n).low }
{
    Halves {
        upper: number::<2>(run, n),
        lower: number::<3>(run, n),
    }
}

// Returns the high of row n of a run, or 0 where the run has no row n.
pub fn high(run: &[u64], n: usize) -> Halves
    ensures { result ≡ halves (row_at run.now n).high }
{
    Halves {
        upper: number::<4>(run, n),
        lower: number::<5>(run, n),
    }
}

// Returns row n of a run, or a row of zeros where the run has no row n.
pub fn get(run: &[u64], n: usize) -> Row
    ensures { result ≡ in_halves (row_at run.now n) }
{
    Row {
        space: space(run, n),
        inherit: inherit(run, n),
        low: low(run, n),
        high: high(run, n),
    }
}

// Writes row n of a run; nothing is done where the run has no row n.
pub fn put(run: &mut [u64], n: usize, row: Row)
    ensures { run.new ≡ with_row run.old n (seen row) }
{
    if run.len() / ROW <= n {
        return;
    }
    let at = ROW * n;
    run[at..at + ROW].copy_from_slice(&row.numbers());
}

// Sets the first `count` numbers of a run to zero, or all of them where it has fewer; the later ones stay.
pub fn clear(run: &mut [u64], count: usize)
    ensures { run.new ≡ cleared count run.old }
{
    let n = fewer(count, run.len());
    run[..n].fill(0);
}
