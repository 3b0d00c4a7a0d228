// The bits that min and max keep, and the bits filled in again.
use crate::edges::Edge;
use crate::{edges, print};
use number::halves::{Halves, Width};
use number::kept;

fn row(rt: &impl Print, width: Width, edge: Edge) {
    let n = edges::value(edge);
    let min = kept::kept_min(width, n);
    let max = kept::kept_max(width, n);
    let _ = rt.write_all(b"kept");
    print::wide(rt, width);
    print::named(rt, edge);
    print::count(rt, min);
    print::whole(rt, kept::zero_filled(width, min, n));
    print::count(rt, max);
    print::whole(rt, kept::one_filled(width, max, n));
    print::end(rt);
}

pub fn rows(rt: &impl Print, width: Width) {
    let w = width.bits();
    for k in 0..w {
        row(rt, width, edges::below(k));
        row(rt, width, edges::at(k));
        row(rt, width, edges::above(k));
    }
    row(rt, width, edges::last(width));
}

fn fill(rt: &impl Print, width: Width, first: u32, n: Halves) {
    let _ = rt.write_all(b"fill");
    print::wide(rt, width);
    print::count(rt, first);
    print::whole(rt, kept::zero_filled(width, first, n));
    print::whole(rt, kept::one_filled(width, first, n));
    print::end(rt);
}

// Ones and zeros in turn, alone and in pairs.
fn pattern(width: Width) -> Halves {
    match width {
        Width::Bits32 => Halves::from(0xa5a5a5a5),
        Width::Bits128 => Halves {
            upper: 0xa5a5a5a5a5a5a5a5,
            lower: 0xa5a5a5a5a5a5a5a5,
        },
    }
}

// Every number of bits that can be kept, and more than there are.
pub fn fills(rt: &impl Print, width: Width) {
    let n = pattern(width);
    let w = width.bits();
    for k in 0..w {
        fill(rt, width, k, n);
    }
    fill(rt, width, w, n);
    fill(rt, width, 129, n);
    fill(rt, width, u32::MAX, n);
    let end = edges::value(edges::last(width));
    fill(rt, width, 0, end);
    fill(rt, width, 1, end);
    fill(rt, width, w, end);
}
