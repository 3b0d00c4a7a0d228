// The parts of a line. Each is written with a space before it.
use crate::edges::{Edge, Side};
use number::halves::{Halves, Width};

pub fn end(rt: &impl Print) {
    let _ = rt.write_all(b"\n");
}

pub fn count(rt: &impl Print, n: u32) {
    let _ = rt.write_all(b" ");
    let _ = rt.print(n as u64);
}

pub fn long(rt: &impl Print, n: u64) {
    let _ = rt.write_all(b" ");
    let _ = rt.print(n);
}

pub fn flag(rt: &impl Print, is: bool) {
    if is {
        let _ = rt.write_all(b" yes");
    } else {
        let _ = rt.write_all(b" no");
    }
}

pub fn whole(rt: &impl Print, n: Halves) {
    let upper = n.upper;
    let lower = n.lower;
    let _ = rt.write_all(b" ");
    if 0 < upper {
        let _ = print!(rt; "{upper:x}");
        let _ = print!(rt; "{lower:016x}");
    } else {
        let _ = print!(rt; "{lower:x}");
    }
}

pub fn named(rt: &impl Print, edge: Edge) {
    let _ = rt.write_all(b" 2^");
    let _ = rt.print(edge.power as u64);
    let side = edge.side;
    match side {
        Side::Below => {
            let _ = rt.write_all(b"-1");
        }
        Side::At => {}
        Side::Above => {
            let _ = rt.write_all(b"+1");
        }
    }
}

pub fn octets(rt: &impl Print, octets: [u8; 16]) {
    let _ = rt.write_all(b" ");
    for octet in octets {
        let _ = print!(rt; "{octet:02x}");
    }
}

pub fn wide(rt: &impl Print, width: Width) {
    count(rt, width.bits());
}

// The number of bits of a prefix, or that there is none.
pub fn shaped(rt: &impl Print, shape: Option<u32>) {
    match shape {
        Some(n) => {
            let _ = rt.write_all(b" prefix");
            count(rt, n);
        }
        None => {
            let _ = rt.write_all(b" range");
        }
    }
}
