// Numbers compared and stepped.
use crate::edges::Edge;
use crate::{edges, print};
use number::halves;
use number::halves::Width;

fn order(rt: &impl Print, a: Edge, b: Edge) {
    let x = edges::value(a);
    let y = edges::value(b);
    let _ = rt.write_all(b"order");
    print::named(rt, a);
    print::named(rt, b);
    print::flag(rt, x == y);
    print::flag(rt, x < y);
    print::flag(rt, x <= y);
    print::flag(rt, halves::past(x, y));
    print::end(rt);
}

fn step(rt: &impl Print, a: Edge) {
    let _ = rt.write_all(b"next");
    print::named(rt, a);
    print::whole(rt, halves::next(edges::value(a)));
    print::end(rt);
}

fn around(rt: &impl Print, k: u32) {
    step(rt, edges::below(k));
    step(rt, edges::at(k));
    step(rt, edges::above(k));
    order(rt, edges::below(k), edges::at(k));
    order(rt, edges::at(k), edges::at(k));
    order(rt, edges::at(k), edges::below(k));
    order(rt, edges::below(k), edges::above(k));
    order(rt, edges::zero(), edges::at(k));
}

pub fn orders(rt: &impl Print) {
    for k in 0..128 {
        around(rt, k);
    }
    let end = edges::last(Width::Bits128);
    step(rt, end);
    order(rt, end, end);
    order(rt, end, edges::zero());
    order(rt, edges::zero(), end);
}
