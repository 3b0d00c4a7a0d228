// The walk over own and issuer's rows, after inheritance, with the number of row pairs looked at.
ghost use Rattle.std.specs.Prelude.{◌≡◌, Some};
ghost use Rattle.table.specs.Rows.{row_at, rows_in};
ghost use Rattle.path.specs.Walk as spec;

use number::halves;
use number::halves::Halves;
use table::rows;

// A number that the certificate holds and the issuer does not.
#[derive(Clone, Copy)]
pub struct Missing {
    pub space: u64,
    pub value: Halves,
}

// The smallest number that is missing, space first; none if the issuer holds all that the certificate holds.
// "The reply carries the number of row pairs looked at."
#[derive(Clone, Copy)]
pub struct Walked {
    pub missing: Option<Missing>,
    pub pairs: usize,
}

// How an own row and an issuer's row meet.
#[derive(Clone, Copy)]
pub enum Meet {
    // "the own row lies within the issuer's row"
    Within,
    // "the issuer's row ends before the own row begins (space first)"
    Passed,
    // neither: the smallest number of the own row that the issuer's row, and any after it, does not have
    Apart(Halves),
}

// How the rows meet that the two runs begin with. Each number is read where it is first asked for.
fn how(own: &[u64], issuer: &[u64]) -> Meet
    ensures { result ≡ spec.meet_of (row_at own.now 0) (row_at issuer.now 0) }
{
    let space = rows::space(own, 0);
    let low = rows::low(own, 0);
    let held = rows::space(issuer, 0);
    if space == held {
        let end = rows::high(issuer, 0);
        if end < low {
            if end < rows::high(own, 0) {
                return Meet::Passed;
            }
            if low < rows::low(issuer, 0) {
                return Meet::Passed;
            }
            // Both, as only a row can be whose high is below its low, which no table has: document 01 asks whether it is within first.
            return Meet::Within;
        }
        if low < rows::low(issuer, 0) {
            return Meet::Apart(low);
        }
        if end < rows::high(own, 0) {
            return Meet::Apart(halves::next(end));
        }
        return Meet::Within;
    }
    if held < space {
        return Meet::Passed;
    }
    Meet::Apart(low)
}

fn stopped(space: u64, value: Halves, pairs: usize) -> Walked
    ensures { result ≡ record { missing = Some (record { space = space; value = value }); pairs = pairs } }
{
    Walked {
        missing: Some(Missing { space, value }),
        pairs,
    }
}

// Walks the first n rows of `own` against the first m rows of `issuer`; a run with fewer rows counts with those that it has.
// Returns the smallest own number that is not the issuer's, if there is one, and the number of pairs looked at.
pub fn walk(own: &[u64], n: usize, issuer: &[u64], m: usize) -> Walked
    ensures { result ≡ spec.walked_of (spec.walk (rows_in n own.now) (rows_in m issuer.now)) }
{
    let last = rows::ROW * rows::count(own, n);
    let end = rows::ROW * rows::count(issuer, m);
    let mut left = &own[..last];
    let mut held = &issuer[..end];
    let mut pairs: usize = 0;
    while rows::ROW <= left.len() {
        if held.len() < rows::ROW {
            return stopped(rows::space(left, 0), rows::low(left, 0), pairs);
        }
        pairs += 1;
        match how(left, held) {
            Meet::Within => {
                left = &left[rows::ROW..];
            }
            Meet::Passed => {
                held = &held[rows::ROW..];
            }
            Meet::Apart(first) => {
                return stopped(rows::space(left, 0), first, pairs);
            }
        }
    }
    Walked {
        missing: None,
        pairs,
    }
}
