// Prefixes and ranges.
use crate::edges::Edge;
use crate::{edges, print};
use number::halves::Width;
use number::{address, shape};

fn told(rt: &impl Print, from: Width, low: Edge, to: Width, high: Edge) {
    let a = address::from_halves(from, edges::value(low));
    let b = address::from_halves(to, edges::value(high));
    let _ = rt.write_all(b"shape");
    print::wide(rt, from);
    print::named(rt, low);
    print::wide(rt, to);
    print::named(rt, high);
    print::shaped(rt, shape::tell(a, b));
    print::end(rt);
}

fn pair(rt: &impl Print, width: Width, low: Edge, high: Edge) {
    told(rt, width, low, width, high);
}

// A power of two, with the numbers beside it and up to the next power.
fn around(rt: &impl Print, width: Width, k: u32, next: u32) {
    pair(rt, width, edges::at(k), edges::at(k));
    pair(rt, width, edges::below(k), edges::at(k));
    pair(rt, width, edges::at(k), edges::above(k));
    pair(rt, width, edges::zero(), edges::below(k));
    pair(rt, width, edges::at(k), edges::below(next));
}

pub fn pairs(rt: &impl Print, width: Width) {
    let w = width.bits();
    for k in 0..w {
        around(rt, width, k, k + 1);
    }
    let end = edges::last(width);
    pair(rt, width, edges::zero(), end);
    pair(rt, width, edges::at(0), end);
    pair(rt, width, end, end);
    pair(rt, width, end, edges::zero());
}

// Addresses of two widths.
pub fn mixes(rt: &impl Print) {
    for k in 0..40 {
        told(
            rt,
            Width::Bits32,
            edges::at(k),
            Width::Bits128,
            edges::at(k),
        );
        told(
            rt,
            Width::Bits128,
            edges::below(k),
            Width::Bits32,
            edges::at(k),
        );
    }
}
