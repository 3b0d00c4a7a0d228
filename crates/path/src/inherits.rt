// Inheritance: "where it inherits, what its issuer holds there". Inherit rows are replaced by the issuer's rows of their space, in place.
ghost use Rattle.std.specs.Prelude.{◌≤◌, ◌≡◌, length};
ghost use Rattle.table.specs.Rows.{seen, rows_of, rows_all, with_rows};
ghost use Rattle.path.specs.Inherit as spec;

use table::rows;
use table::rows::Row;

// Why there are no rows after inheritance: a space that the issuer does not have (refusal 14), too many rows (11), or a table too short (16).
#[derive(Clone, Copy, PartialEq, Eq)]
pub enum Uninherited {
    NoSpace(u64),
    TooMany,
    Short,
}

// How many of the issuer's rows are in the space.
fn count_in(issuer: &[u64], space: u64) -> usize
    ensures { result ≡ length (spec.in_space space (rows_all issuer.now)) }
{
    let mut n: usize = 0;
    for k in 0..issuer.len() / rows::ROW {
        if rows::space(issuer, k) == space {
            n += 1;
        }
    }
    n
}

// How many rows a row is after inheritance.
fn count_row(row: Row, issuer: &[u64]) -> usize
    ensures { result ≡ length (spec.replaced (rows_all issuer.now) (seen row)) }
{
    if row.inherit == 1 {
        return count_in(issuer, row.space);
    }
    1
}

// How many rows the own rows are after inheritance, by the lowest space first. More than a table has are counted as one more.
fn count_all(own: &[u64], issuer: &[u64]) -> Result<usize, Uninherited>
    ensures { result ≡ spec.count_of (rows_all issuer.now) (rows_all own.now) }
{
    let mut total: usize = 0;
    for k in 0..own.len() / rows::ROW {
        let row = rows::get(own, k);
        let more = count_row(row, issuer);
        if more == 0 {
            return Err(Uninherited::NoSpace(row.space));
        }
        total = rows::fewer(total + more, rows::ROWS + 1);
    }
    Ok(total)
}

// Writes the issuer's rows of a space up to row `end`, from the last to the first. Returns where they start.
fn put_space(own: &mut [u64], end: usize, issuer: &[u64], space: u64) -> usize
    requires { length (spec.in_space space (rows_all issuer.now)) ≤ end }
    ensures { (result, own.new) ≡ spec.up_to own.old end (spec.in_space space (rows_all issuer.now)) }
{
    let mut w = end;
    for k in (0..issuer.len() / rows::ROW).rev() {
        let row = rows::get(issuer, k);
        if row.space == space {
            w -= 1;
            rows::put(own, w, row);
        }
    }
    w
}

// Writes what a row is after inheritance up to row `end`. Returns where it starts.
fn put_row(own: &mut [u64], end: usize, issuer: &[u64], row: Row) -> usize
    requires { length (spec.replaced (rows_all issuer.now) (seen row)) ≤ end }
    ensures { (result, own.new) ≡ spec.up_to own.old end (spec.replaced (rows_all issuer.now) (seen row)) }
{
    if row.inherit == 1 {
        return put_space(own, end, issuer, row.space);
    }
    rows::put(own, end - 1, row);
    end - 1
}

// Writes the rows after inheritance up to row `total`, from the last to the first: no row is written over before it is read.
fn put_all(own: &mut [u64], n: usize, issuer: &[u64], total: usize)
    requires { spec.Filling (rows_all issuer.now) own.old n total }
    ensures { own.new ≡ with_rows own.old 0 (spec.resolved (rows_all issuer.now) (rows_of n own.old)) }
{
    let mut w = total;
    for k in (0..n).rev() {
        let row = rows::get(own, k);
        w = put_row(own, w, issuer, row);
    }
}

// Whether one of the own rows inherits. Most certificates have no such row, and are left as they are.
fn any_inherits(own: &[u64]) -> bool
    ensures { result ≡ spec.inherits (rows_all own.now) }
{
    for row in own.chunks_exact(rows::ROW) {
        if rows::inherit(row, 0) == 1 {
            return true;
        }
    }
    false
}

// Replaces each inherit row of the first n rows of `own` by the issuer's rows of its space, of the issuer's first m rows.
// Returns the rows then; on a refusal `own` is unchanged.
pub fn inherit(own: &mut [u64], n: usize, issuer: &[u64], m: usize) -> Result<usize, Uninherited>
    ensures { (result, own.new) ≡ spec.inherit n own.old m issuer.now }
{
    if own.len() < rows::NUMBERS {
        return Err(Uninherited::Short);
    }
    let count = rows::count(own, n);
    let listed = &own[..rows::ROW * count];
    if !any_inherits(listed) {
        if rows::ROWS < count {
            return Err(Uninherited::TooMany);
        }
        return Ok(count);
    }
    let issuer = &issuer[..rows::ROW * rows::count(issuer, m)];
    let total = count_all(listed, issuer)?;
    if rows::ROWS < total {
        return Err(Uninherited::TooMany);
    }
    put_all(own, count, issuer, total);
    Ok(total)
}
