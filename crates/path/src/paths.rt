// The path check: a bundle, and two lent tables; the last certificate's rows in the first, or a refusal.
ghost use Rattle.std.specs.Prelude.{Err, ◌≡◌, ◌+◌, ◌*◌, ◌^◌, ◌≤◌, ◌<◌, length};
ghost use Rattle.table.specs.Sizes.{row_numbers};
ghost use Rattle.path.specs.Bundle.{value_in, after_value, certificates_in};
ghost use Rattle.path.specs.Certificate.{anchor};
ghost use Rattle.path.specs.Paths as spec;

use crate::certificates::Above;
use crate::replies::{Accepted, Reply};
use crate::{bundles, certificates};
use number::refusal::Refusal;
use table::rows;
use values::readings;
use values::readings::Refused;

// "Numbers 12 and 16 to 20 name certificate 0 and extension 0".
fn bare(refusal: Refusal) -> Refused
    ensures { Err result ≡ spec.bare refusal }
{
    readings::naming(refusal, 0, 0, 0)
}

// Returns the value that s begins with, its length before it, and what comes after it.
fn value(s: &[u8]) -> (&[u8], &[u8])
    requires { spec.Begun s.now }
    ensures { (result.0.now ≡ value_in s.now) × (result.1.now ≡ after_value s.now) }
{
    s[2..].split_at(bundles::length(s))
}

// A certificate with these two values and n rows after inheritance, as the next one's issuer.
fn below(above: Above, ip: &[u8], ids: &[u8], n: usize) -> Above
    requires { above.certificates + 1 < 2 ^ 64 }
    ensures { result ≡ spec.issuer_of above ip.now ids.now n }
{
    Above {
        certificates: above.certificates + 1,
        rows: n,
        ip: !ip.is_empty(),
        ids: !ids.is_empty(),
    }
}

// Where a table that had `old` rows now has n others, and those are fewer, the rows after them are cleared.
fn clear_rest(own: &mut [u64], n: usize, old: usize)
    requires { row_numbers * old ≤ length own.old }
    ensures { own.new ≡ spec.cleared_rest n old own.old }
{
    if n < old {
        rows::clear(&mut own[rows::ROW * n..], rows::ROW * (old - n));
    }
}

// The descent: the next certificate of `left` is read into `own`, over `old` rows of the certificate two above; `issuer` has the rows of its issuer.
// The two tables change roles from certificate to certificate. Returns the last certificate's rows and all pairs, or the first refusal.
fn descend(
    left: usize,
    rest: &[u8],
    own: &mut [u64],
    old: usize,
    issuer: &mut [u64],
    above: Above,
    pairs: usize,
) -> Reply
    requires { spec.Descending left rest.now own.old old issuer.old above pairs }
    ensures { (result, own.new, issuer.new) ≡ spec.descended left rest.now own.old issuer.old above pairs }
{
    if left == 0 {
        rows::clear(own, rows::ROW * old);
        return Ok(Accepted {
            rows: above.rows,
            pairs,
        });
    }
    let (ip, rest) = value(rest);
    let (ids, rest) = value(rest);
    let done = match certificates::certificate(ip, ids, own, issuer, above) {
        Ok(done) => done,
        Err(fault) => {
            rows::clear(issuer, rows::NUMBERS);
            return Err(fault);
        }
    };
    clear_rest(own, done.rows, old);
    let next = below(above, ip, ids, done.rows);
    descend(
        left - 1,
        rest,
        issuer,
        above.rows,
        own,
        next,
        pairs + done.pairs,
    )
}

// The descent from the anchor, with no rows in either table. The tables' roles are chosen so that the last certificate's rows end in the first.
fn descend_all(count: usize, certificates: &[u8], first: &mut [u64], second: &mut [u64]) -> Reply
    requires { spec.Starting count certificates.now first.old second.old }
    ensures { (result, first.new, second.new) ≡ spec.leaves (spec.descent anchor 0 (certificates_in count certificates.now)) first.old second.old }
{
    let none = Above {
        certificates: 0,
        rows: 0,
        ip: true,
        ids: true,
    };
    if count % 2 == 0 {
        return descend(count, certificates, second, 0, first, none, 0);
    }
    descend(count, certificates, first, 0, second, none, 0)
}

// Checks a path: a bundle, and two lent tables. "Path order: 16, length 18, 17, 12, framing 18; then per certificate".
// Returns the rows of the last certificate, which are left in the first table, and the pairs looked at; or the refusal.
// On 16 both tables are unchanged; otherwise the first 3,072 numbers of the first are the rows and then zeros, and those of the second are zero.
pub fn check(bundle: &[u8], first: &mut [u64], second: &mut [u64]) -> Reply
    ensures { (result, first.new, second.new) ≡ spec.check bundle.now first.old second.old }
{
    if first.len() < rows::NUMBERS || second.len() < rows::NUMBERS {
        return Err(bare(Refusal::TableShort));
    }
    rows::clear(first, rows::NUMBERS);
    rows::clear(second, rows::NUMBERS);
    let count = bundles::frame(bundle).map_err(bare)?;
    descend_all(count, &bundle[bundles::HEAD..], first, second)
}
