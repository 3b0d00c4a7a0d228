// The C face: the readers, the writer, the path check and the octets at fault over numbers and slices, for C and Rust (include/rch.h).
// Each function gives its reply as nine numbers in a lent run, and returns the first of them.
#![tactic(auto)]

ghost use Rattle.std.specs.Prelude.{◌≤◌, ◌≡◌, length};
ghost use Rattle.values.specs.Papers as values;
ghost use Rattle.path.specs.Papers as path;
ghost use Rattle.writer.specs.Papers as writer;
ghost use Rattle.face.specs.Face as spec;

use number::refusal::Refusal;
use path::paths;
use path::replies::Reply;
use values::readings::{Reading, Refused};
use values::{limits, parts, readings};

// The numbers of a reply.
pub const NUMBERS: usize = 9;

// "number (0 if accepted), certificate, extension, place, space, value upper half, value lower half, rows (the writer: octets), pairs".
#[derive(Clone, Copy)]
struct Nine {
    number: u64,
    certificate: u64,
    extension: u64,
    place: u64,
    space: u64,
    upper: u64,
    lower: u64,
    rows: u64,
    pairs: u64,
}

impl Nine {
    // The numbers in their order.
    fn numbers(self) -> [u64; NUMBERS]
        ensures { result ≡ spec.numbers self }
    {
        [
            self.number,
            self.certificate,
            self.extension,
            self.place,
            self.space,
            self.upper,
            self.lower,
            self.rows,
            self.pairs,
        ]
    }

    // "On acceptance certificate, extension and place are 0 everywhere."
    fn accepted(rows: usize, pairs: usize) -> Nine
        ensures { spec.numbers result ≡ values.accepted rows pairs }
    {
        Nine {
            number: 0,
            certificate: 0,
            extension: 0,
            place: 0,
            space: 0,
            upper: 0,
            lower: 0,
            rows: rows as u64,
            pairs: pairs as u64,
        }
    }

    // The reply with a part of a value in the fields of space and value.
    fn with_part(self, which: u64, start: usize, end: usize) -> Nine
        ensures { spec.numbers result ≡ spec.parted (spec.numbers self) (which, start, end) }
    {
        Nine {
            space: which,
            upper: start as u64,
            lower: end as u64,
            ..self
        }
    }
}

// A refusal "reports 0 rows", and 0 pairs.
impl From<Refused> for Nine {
    ghost from_gives = { λ fault nine. spec.numbers nine ≡ values.refused fault };

    fn from(fault: Refused) -> Nine {
        Nine {
            number: u64::from(fault.refusal),
            certificate: fault.certificate,
            extension: fault.extension,
            place: fault.place as u64,
            space: fault.space,
            upper: fault.value.upper,
            lower: fault.value.lower,
            rows: 0,
            pairs: 0,
        }
    }
}

// The answer of a reader, which is of rows, and of the writer, which is of octets.
impl From<Result<usize, Refused>> for Nine {
    ghost from_gives = { λ answer nine. (spec.numbers nine ≡ values.paper answer) × (spec.numbers nine ≡ writer.paper answer) };

    fn from(answer: Result<usize, Refused>) -> Nine {
        match answer {
            Ok(n) => Nine::accepted(n, 0),
            Err(fault) => Nine::from(fault),
        }
    }
}

// The answer of the path check.
impl From<Reply> for Nine {
    ghost from_gives = { λ reply nine. spec.numbers nine ≡ path.paper reply };

    fn from(reply: Reply) -> Nine {
        match reply {
            Ok(done) => Nine::accepted(done.rows, done.pairs),
            Err(fault) => Nine::from(fault),
        }
    }
}

// Writes the nine numbers at the start of a run. Returns the first of them.
fn put(reply: &mut [u64], nine: Nine) -> u64
    requires { spec.nine ≤ length reply.old }
    ensures { (result, reply.new) ≡ spec.told (spec.numbers nine) reply.old }
{
    reply[..NUMBERS].copy_from_slice(&nine.numbers());
    nine.number
}

// The reading of one certificate's two values, with the octets at fault: of which value, from where to where.
fn of_fault(reading: Reading, ip: usize, ids: usize) -> Nine
    ensures { spec.numbers result ≡ spec.parted (values.paper reading) (spec.part_of ip ids reading) }
{
    let nine = Nine::from(reading);
    match reading {
        Err(fault) if parts::has_octets(fault.refusal) => {
            if fault.extension == limits::IP_EXTENSION {
                return nine.with_part(limits::IP_EXTENSION, fault.place, ip);
            }
            nine.with_part(limits::AS_EXTENSION, fault.place, ids)
        }
        _ => nine.with_part(limits::IP_EXTENSION, 0, 0),
    }
}

// "A reply run shorter than nine: 16 is returned and nothing at all changes."
fn short() -> u64
    ensures { result ≡ spec.too_short }
{
    u64::from(Refusal::TableShort)
}

// Reads an IPAddrBlocks value into the table. Returns the number of the refusal, or 0.
pub fn rch_read_ip(value: &[u8], table: &mut [u64], reply: &mut [u64]) -> u64
    ensures { (result, table.new, reply.new) ≡ spec.read_ip_face value.now table.old reply.old }
{
    if reply.len() < NUMBERS {
        return short();
    }
    let reading = readings::read_ip(value, table);
    put(reply, Nine::from(reading))
}

// Reads an ASIdentifiers value into the table. Returns the number of the refusal, or 0.
pub fn rch_read_as(value: &[u8], table: &mut [u64], reply: &mut [u64]) -> u64
    ensures { (result, table.new, reply.new) ≡ spec.read_as_face value.now table.old reply.old }
{
    if reply.len() < NUMBERS {
        return short();
    }
    let reading = readings::read_as(value, table);
    put(reply, Nine::from(reading))
}

// Writes the value of rows: kind 1 IPAddrBlocks, 2 ASIdentifiers. Returns the number of the refusal, or 0.
pub fn rch_write(kind: u64, rows: &[u64], out: &mut [u8], reply: &mut [u64]) -> u64
    ensures { (result, out.new, reply.new) ≡ spec.write_face kind rows.now out.old reply.old }
{
    if reply.len() < NUMBERS {
        return short();
    }
    let writing = writer::write(kind, rows, out);
    put(reply, Nine::from(writing))
}

// Checks the path of a bundle; the last certificate's rows are left in the first table. Returns the number of the refusal, or 0.
pub fn rch_path(bundle: &[u8], first: &mut [u64], second: &mut [u64], reply: &mut [u64]) -> u64
    ensures { (result, (first.new, second.new), reply.new) ≡ spec.path_face bundle.now first.old second.old reply.old }
{
    if reply.len() < NUMBERS {
        return short();
    }
    let answer = paths::check(bundle, first, second);
    put(reply, Nine::from(answer))
}

// Reads one certificate's two values, and says which octets are at fault. Returns the number of the refusal, or 0.
pub fn rch_fault(ip: &[u8], ids: &[u8], table: &mut [u64], reply: &mut [u64]) -> u64
    ensures { (result, table.new, reply.new) ≡ spec.fault_face ip.now ids.now table.old reply.old }
{
    if reply.len() < NUMBERS {
        return short();
    }
    let reading = readings::read_both(ip, ids, table);
    put(reply, of_fault(reading, ip.len(), ids.len()))
}
