// The spaces, their kinds and the widths of their numbers.
use crate::print;
use table::spaces;

fn show(rt: &impl Print, space: u64) {
    let _ = rt.write_all(b"space");
    print::long(rt, space);
    print::long(rt, spaces::kind(space).map_or(0, u64::from));
    print::wide(rt, spaces::width(space));
    print::end(rt);
}

// A space and its two neighbours.
fn beside(rt: &impl Print, space: u64) {
    if 0 < space {
        show(rt, space - 1);
    }
    show(rt, space);
    if space < u64::MAX {
        show(rt, space + 1);
    }
}

pub fn edges(rt: &impl Print) {
    beside(rt, 0);
    beside(rt, spaces::IPV4);
    beside(rt, spaces::IPV4_LAST);
    beside(rt, spaces::IPV6);
    beside(rt, spaces::IPV6_LAST);
    beside(rt, spaces::AS_NUMBERS);
    beside(rt, spaces::ROUTING_DOMAINS);
    beside(rt, u64::MAX);
}
