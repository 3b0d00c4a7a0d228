// Runs the shared path cases through `path` and `report`: bundles on standard input, each with its length in four octets before it, high octet first;
// what `pathtable` prints for each on standard output, one after another.
#![tactic(auto)]

use path::{bundles, paths};
use std::io::Read;
use table::rows;

// What the lent tables hold before the first call, as far as they are longer than a table.
const RUBBISH: u64 = 0xdeadbeef;

// What is lent to all cases, one after another.
#[derive(Drop)]
struct Lent {
    room: [u8; bundles::MOST_OCTETS + 64],
    first: [u64; rows::NUMBERS + 8],
    second: [u64; rows::NUMBERS + 8],
    text: [u8; report::ROOM],
}

impl Lent {
    // The next case: its length and its octets, and its report. None if there is no other that the room takes.
    fn next(&mut self, rt: &impl Print, input: &mut impl Read) -> Option<()> {
        let mut four = [0u8; 4];
        input.read_exact(&mut four).ok()?;
        let bundle = self.room.get_mut(..u32::from_be_bytes(four) as usize)?;
        let _ = input.read_exact(bundle);
        let reply = paths::check(bundle, &mut self.first, &mut self.second);
        let n = report::report(reply, &self.first, &mut self.text);
        let _ = rt.write_all(&self.text[..n]);
        Some(())
    }
}

fn main(rt: HostRuntime) {
    let mut lent = Lent {
        room: [0; bundles::MOST_OCTETS + 64],
        first: [0; rows::NUMBERS + 8],
        second: [0; rows::NUMBERS + 8],
        text: [0; report::ROOM],
    };
    // Filled in place: as parts of the struct's value they would be made beside it first, and take stack twice.
    lent.first.fill(RUBBISH);
    lent.second.fill(RUBBISH);
    let mut input = rt.stdin();
    for _ in 0..100000 {
        if lent.next(&rt, &mut input).is_none() {
            return;
        }
    }
}
