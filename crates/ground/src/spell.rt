// Addresses, and the numbers that octets spell.
use crate::edges::Edge;
use crate::{edges, print};
use number::address::Address;
use number::halves::Width;
use number::{address, kept};

// A number at a width: its runs, its address, and the number of that.
fn value(rt: &impl Print, width: Width, edge: Edge) {
    let n = edges::value(edge);
    let a = address::from_halves(width, n);
    let octets = a.octets;
    let _ = rt.write_all(b"value");
    print::wide(rt, width);
    print::named(rt, edge);
    print::count(rt, kept::zeros(width, n));
    print::count(rt, kept::ones(width, n));
    print::octets(rt, octets);
    print::whole(rt, address::to_halves(a));
    print::end(rt);
}

// The numbers beside the first powers of two, and the last number of 128 bits.
pub fn values(rt: &impl Print, width: Width, powers: u32) {
    for k in 0..powers {
        value(rt, width, edges::below(k));
        value(rt, width, edges::at(k));
        value(rt, width, edges::above(k));
    }
    value(rt, width, edges::last(Width::Bits128));
}

// An address of 32 bits with octets past its width that are not 0.
fn leftover(rt: &impl Print, edge: Edge) {
    let full = address::from_halves(Width::Bits128, edges::value(edge));
    let octets = full.octets;
    let a = Address {
        width: Width::Bits32,
        octets,
    };
    let _ = rt.write_all(b"leftover");
    print::named(rt, edge);
    print::whole(rt, address::to_halves(a));
    print::end(rt);
}

pub fn leftovers(rt: &impl Print) {
    for k in 96..129 {
        leftover(rt, edges::below(k));
    }
}

// The first k of the octets, where there are so many.
fn part(rt: &impl Print, octets: &[u8], k: usize) {
    if k <= octets.len() {
        let _ = rt.write_all(b"spelled");
        print::long(rt, k as u64);
        print::long(rt, address::spelled(&octets[0..k]));
        print::end(rt);
    }
}

fn each_part(rt: &impl Print, octets: &[u8]) {
    for k in 0..18 {
        part(rt, octets, k);
    }
}

pub fn parts(rt: &impl Print) {
    each_part(rt, b"");
    each_part(rt, &[255; 17]);
    each_part(rt, &[0, 0, 0, 0, 0, 0, 0, 1, 2]);
    each_part(rt, &[128, 0, 0, 0, 0, 0, 0, 0, 1]);
    each_part(rt, &[1, 2, 3, 4, 5, 6, 7, 8, 9, 10, 11, 12, 13, 14, 15, 16]);
}
