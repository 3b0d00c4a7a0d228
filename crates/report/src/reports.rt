// The entry of the crate.
ghost use Rattle.std.specs.Prelude.{◌≡◌};
ghost use Rattle.report.specs.Reports as spec;

use path::replies::Reply;
use table::rows;

// Room for any report.
pub const ROOM: usize = 65536;

// Writes the text of a reply, and of its rows as the table has them, at the start of `out`; of a table no more rows than a certificate may have.
// Returns how many octets it has; 0, and `out` unchanged, where `out` has not room for any report.
pub fn report(reply: Reply, table: &[u64], out: &mut [u8]) -> usize
    ensures { (result, out.new) ≡ spec.report reply table.now out.old }
{
    if out.len() < ROOM {
        return 0;
    }
    match reply {
        Ok(done) => {
            let most = rows::count(table, rows::fewer(done.rows, rows::ROWS));
            crate::put_ok(out, done, &table[..rows::ROW * most])
        }
        Err(fault) => crate::put_no(out, fault),
    }
}
