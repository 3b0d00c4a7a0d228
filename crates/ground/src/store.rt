// Rows put into a run of numbers, got back, and cleared away.
use crate::{edges, print};
use number::halves::Width;
use table::rows;
use table::rows::Row;

fn numbers(rt: &impl Print, run: &[u64]) {
    for n in run {
        print::long(rt, *n);
    }
    print::end(rt);
}

fn put(rt: &impl Print, n: usize, row: Row) {
    let mut run = [7u64; 13];
    rows::put(&mut run, n, row);
    let _ = rt.write_all(b"put");
    print::long(rt, n as u64);
    numbers(rt, &run);
}

fn got(rt: &impl Print, n: usize) {
    let run = [
        1u64,
        2,
        3,
        4,
        5,
        6,
        u64::MAX,
        u64::MAX,
        u64::MAX,
        u64::MAX,
        u64::MAX,
        u64::MAX,
        13,
    ];
    let row = rows::get(&run, n);
    let _ = rt.write_all(b"get");
    print::long(rt, n as u64);
    print::long(rt, row.space);
    print::long(rt, row.inherit);
    print::whole(rt, row.low);
    print::whole(rt, row.high);
    print::end(rt);
}

fn clear(rt: &impl Print, count: usize) {
    let mut run = [7u64; 13];
    rows::clear(&mut run, count);
    let _ = rt.write_all(b"clear");
    print::long(rt, count as u64);
    numbers(rt, &run);
}

pub fn rows_of_a_run(rt: &impl Print) {
    let low = edges::value(edges::at(64));
    let high = edges::value(edges::last(Width::Bits128));
    let row = Row {
        space: 2048,
        inherit: 0,
        low: low,
        high: high,
    };
    put(rt, 0, row);
    put(rt, 1, row);
    put(rt, 2, row);
    put(rt, usize::MAX, row);
    got(rt, 0);
    got(rt, 1);
    got(rt, 2);
    got(rt, usize::MAX);
    clear(rt, 0);
    clear(rt, 1);
    clear(rt, 12);
    clear(rt, 13);
    clear(rt, 14);
    clear(rt, usize::MAX);
}
