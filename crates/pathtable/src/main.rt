// pathtable: a bundle on standard input; the last certificate's table, or the refusal, on standard output.
#![tactic(auto)]

ghost use Rattle.pathtable.specs.Inputs.{Within};

use path::{bundles, paths};
use std::io::{self, Read};
use table::rows;

// Reads the input to its end, or until the room is full. Returns how many octets were read.
fn read_input(input: &mut impl Read, room: &mut [u8]) -> io::Result<usize>
    ensures { Within result room.new }
{
    let mut done: usize = 0;
    while done < room.len() {
        match input.read(&mut room[done..])? {
            0 => break,
            more => done += more,
        }
    }
    Ok(done)
}

// The path check on the octets that were read, and its report.
fn print_table(rt: &impl Print, bundle: &[u8]) -> io::Result<()> {
    let mut first = [0u64; rows::NUMBERS];
    let mut second = [0u64; rows::NUMBERS];
    let mut text = [0u8; report::ROOM];
    let reply = paths::check(bundle, &mut first, &mut second);
    let n = report::report(reply, &first, &mut text);
    rt.write_all(&text[..n])
}

fn main(rt: HostRuntime) {
    // one octet more than a bundle may have: more than 65,536 octets are refused (18)
    let mut room = [0u8; bundles::MOST_OCTETS + 1];
    let Ok(n) = read_input(&mut rt.stdin(), &mut room) else {
        let _ = rt.eprint("pathtable: standard input could not be read\n");
        return;
    };
    if print_table(&rt, &room[..n]).is_err() {
        let _ = rt.eprint("pathtable: standard output could not be written\n");
    }
}
