// The edge values: powers of two and the numbers beside them. 0 is below 2 ^ 0, and all ones are below 2 ^ 32 and 2 ^ 128.
use number::halves;
use number::halves::{Halves, Width};

#[derive(Clone, Copy)]
pub enum Side {
    Below,
    At,
    Above,
}

#[derive(Clone, Copy)]
pub struct Edge {
    pub power: u32,
    pub side: Side,
}

pub fn below(power: u32) -> Edge {
    Edge {
        power,
        side: Side::Below,
    }
}

pub fn at(power: u32) -> Edge {
    Edge {
        power,
        side: Side::At,
    }
}

pub fn above(power: u32) -> Edge {
    Edge {
        power,
        side: Side::Above,
    }
}

pub fn zero() -> Edge {
    below(0)
}

// The last number of a width.
pub fn last(width: Width) -> Edge {
    below(width.bits())
}

// 2 ^ k, and 0 where that has more than 128 bits.
fn power(k: u32) -> Halves {
    if k < 64 {
        return Halves::from(1u64 << k);
    }
    if k < 128 {
        return Halves {
            upper: 1u64 << (k - 64),
            lower: 0,
        };
    }
    halves::ZERO
}

// The number before n, and of 0 the last number of 128 bits.
fn before(n: Halves) -> Halves {
    if 0 < n.lower {
        return Halves {
            upper: n.upper,
            lower: n.lower - 1,
        };
    }
    if 0 < n.upper {
        return Halves {
            upper: n.upper - 1,
            lower: u64::MAX,
        };
    }
    Halves {
        upper: u64::MAX,
        lower: u64::MAX,
    }
}

pub fn value(edge: Edge) -> Halves {
    let n = power(edge.power);
    let side = edge.side;
    match side {
        Side::Below => before(n),
        Side::At => n,
        Side::Above => halves::next(n),
    }
}
