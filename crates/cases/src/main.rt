// Runs the shared cases of document 01 through the readers, the writer and the path check: a case after another on standard input, its answer as a line on standard output.
// tools/cases.py makes both files, crates/cases/stdin and stdout, from the shared cases.
#![tactic(auto)]

mod answers;
mod fields;
mod parted;
mod written;

use path::paths;
use std::io::Read;
use values::readings;

// What the lent tables hold before a call.
const RUBBISH: u64 = 0xdeadbeef;

// R: a value, and how many numbers of the table are lent.
fn reader_case(rt: &impl Print, input: &mut impl Read) {
    let mut table = [RUBBISH; 4096];
    let mut room = [0u8; 40000];
    let extension = fields::number(input);
    let length = fields::number(input);
    let value = fields::octets(input, &mut room);
    let Some(lent) = table.get_mut(..length) else {
        return;
    };
    let reading = if extension == 1 {
        readings::read_ip(value, lent)
    } else {
        readings::read_as(value, lent)
    };
    answers::reading(rt, reading, &table);
}

// F: the octets at fault of one certificate's two values, and the reply of their reading.
fn part_case(rt: &impl Print, input: &mut impl Read) {
    let mut table = [RUBBISH; 4096];
    let mut first = [0u8; 40000];
    let mut second = [0u8; 40000];
    let length = fields::number(input);
    let ip = fields::octets(input, &mut first);
    let ids = fields::octets(input, &mut second);
    parted::run(rt, ip, ids, &mut table, length);
}

// W: a kind, rows, and how many octets of the output are lent.
fn writer_case(rt: &impl Print, input: &mut impl Read) {
    let mut numbers = [RUBBISH; 4096];
    let mut out = [0xeeu8; 40000];
    let kind = fields::long(input);
    let table = fields::longs(input, &mut numbers);
    let room = fields::number(input);
    written::run(rt, kind, table, &mut out, room);
}

// P: a bundle, and how many numbers of both tables are lent.
fn path_case(rt: &impl Print, input: &mut impl Read) {
    let mut first = [RUBBISH; 4096];
    let mut second = [RUBBISH; 4096];
    let mut room = [0u8; 65536];
    let length = fields::number(input);
    let other = fields::number(input);
    let bundle = fields::octets(input, &mut room);
    let (Some(one), Some(two)) = (first.get_mut(..length), second.get_mut(..other)) else {
        return;
    };
    let reply = paths::check(bundle, one, two);
    let mut text = [0u8; report::ROOM];
    let n = report::report(reply, &first, &mut text);
    let _ = rt.write_all(&text[..n]);
}

fn main(rt: HostRuntime) {
    let mut input = rt.stdin();
    let mut letter = [0u8; 1];
    for _ in 0..100000 {
        if fields::read_full(&mut input, &mut letter) == 0 {
            return;
        }
        match letter[0] {
            b'R' => reader_case(&rt, &mut input),
            b'W' => writer_case(&rt, &mut input),
            b'P' => path_case(&rt, &mut input),
            _ => part_case(&rt, &mut input),
        }
    }
}
