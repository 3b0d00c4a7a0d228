// Runs of numbers that are tables of a kind, and runs that are none.
use crate::print;
use number::halves::Halves;
use table::rows::Row;
use table::{rows, tables};

// The last number of 32 bits, and the half of 64 ones.
const LAST: u64 = 4294967295;

const FULL: u64 = 18446744073709551615;

// Whether a run is a mixed table, an IP table, an AS table, and one of a kind that is none.
fn tried(rt: &impl Print, run: &[u64]) {
    let _ = rt.write_all(b"table");
    print::long(rt, run.len() as u64);
    print::flag(rt, tables::is_table(0, run));
    print::flag(rt, tables::is_table(1, run));
    print::flag(rt, tables::is_table(2, run));
    print::flag(rt, tables::is_table(3, run));
    print::end(rt);
}

fn single_rows(rt: &impl Print) {
    tried(rt, &[]);
    tried(rt, &[1024, 0, 0, 0, 0]);
    tried(rt, &[1024, 0, 0, 0, 0, LAST]);
    tried(rt, &[1024, 0, 0, 0, 0, LAST + 1]);
    tried(rt, &[1024, 0, 0, 0, 1, 0]);
    tried(rt, &[1024, 0, 0, 2, 0, 1]);
    tried(rt, &[2048, 0, 0, 0, FULL, FULL]);
    tried(rt, &[2048, 0, FULL, FULL, FULL, FULL]);
    tried(rt, &[2048, 0, 1, 0, 0, FULL]);
    tried(rt, &[2048, 2, 0, 0, 0, 0]);
    tried(rt, &[4096, 1, 0, 0, 0, 0]);
    tried(rt, &[5120, 1, 0, 0, 0, 1]);
    tried(rt, &[5120, 1, 1, 0, 0, 0]);
    tried(rt, &[0, 0, 0, 0, 0, 0]);
    tried(rt, &[1023, 0, 0, 0, 0, 0]);
    tried(rt, &[1281, 1, 0, 0, 0, 0]);
}

fn pairs_of_rows(rt: &impl Print) {
    tried(rt, &[1024, 0, 0, 0, 0, 4, 1024, 0, 0, 5, 0, 9]);
    tried(rt, &[1024, 0, 0, 0, 0, 4, 1024, 0, 0, 6, 0, 9]);
    tried(rt, &[1024, 0, 0, 6, 0, 9, 1024, 0, 0, 0, 0, 4]);
    tried(rt, &[2048, 0, 0, 0, 0, FULL, 2048, 0, 1, 0, 1, 0]);
    tried(rt, &[2048, 0, 0, 0, 0, FULL, 2048, 0, 1, 1, 1, 1]);
    tried(rt, &[2048, 0, FULL, FULL, FULL, FULL, 2048, 0, 0, 0, 0, 0]);
    tried(rt, &[1024, 1, 0, 0, 0, 0, 1024, 0, 0, 6, 0, 9]);
    tried(rt, &[1024, 0, 0, 0, 0, 4, 1024, 1, 0, 0, 0, 0]);
    tried(rt, &[1024, 1, 0, 0, 0, 0, 1024, 1, 0, 0, 0, 0]);
    tried(rt, &[1024, 1, 0, 0, 0, 0, 1026, 1, 0, 0, 0, 0]);
    tried(rt, &[1026, 1, 0, 0, 0, 0, 1024, 1, 0, 0, 0, 0]);
    tried(rt, &[4096, 0, 0, 9, 0, 9, 5120, 0, 0, 9, 0, 9]);
    tried(rt, &[2304, 1, 0, 0, 0, 0, 4096, 0, 0, 9, 0, 9]);
    tried(rt, &[1024, 0, 0, 0, 0, 4, 0, 0, 0, 0, 0, 0]);
}

// As many rows as a table may have, and one more.
fn many_rows(rt: &impl Print) {
    let mut run = [0u64; 3078];
    for k in 0..513 {
        let n = Halves::from(2 * (k as u64));
        let row = Row {
            space: 4096,
            inherit: 0,
            low: n,
            high: n,
        };
        rows::put(&mut run, k, row);
    }
    tried(rt, &run[0..3071]);
    tried(rt, &run[0..3072]);
    tried(rt, &run);
}

pub fn tables_or_not(rt: &impl Print) {
    single_rows(rt);
    pairs_of_rows(rt);
    many_rows(rt);
}
