// 'part WHICH START END number EXTENSION PLACE rows n,n,..'.
use crate::answers;
use values::readings::Reading;
use values::{limits, parts, readings};

// Whether the octets at fault are the AS value's.
fn of_ids(reading: Reading) -> bool {
    match reading {
        Ok(_) => false,
        Err(fault) => fault.extension == limits::AS_EXTENSION,
    }
}

fn has_part(reading: Reading) -> bool {
    match reading {
        Ok(_) => false,
        Err(fault) => {
            let refusal = fault.refusal;
            parts::has_octets(refusal)
        }
    }
}

// Where a part that ends with its value starts and ends.
fn ends(rt: &impl Print, which: u64, length: usize, part: &[u8]) {
    let _ = rt.write_all(b"part");
    answers::field(rt, which);
    if part.len() <= length {
        answers::field(rt, (length - part.len()) as u64);
    }
    answers::field(rt, length as u64);
}

fn part<'a>(rt: &impl Print, ip: &'a [u8], ids: &'a [u8], table: &mut [u64], reading: Reading) {
    let octets = parts::fault(ip, ids, table);
    if !has_part(reading) {
        ends(rt, 1, 0, octets);
        return;
    }
    if of_ids(reading) {
        ends(rt, 2, ids.len(), octets);
        return;
    }
    ends(rt, 1, ip.len(), octets);
}

// The number, the extension and the place of the refusal, or zeros; then the rows.
fn reply(rt: &impl Print, reading: Reading, table: &[u64]) {
    match reading {
        Ok(n) => {
            let _ = rt.write_all(b" 0 0 0");
            answers::field(rt, n as u64);
            answers::numbers(rt, table, n);
        }
        Err(fault) => {
            let refusal = fault.refusal;
            answers::field(rt, u64::from(refusal));
            answers::field(rt, fault.extension);
            answers::field(rt, fault.place as u64);
            let _ = rt.write_all(b" 0 -");
        }
    }
    let _ = rt.write_all(b"\n");
}

// The first numbers of the table are lent.
pub fn run(rt: &impl Print, ip: &[u8], ids: &[u8], table: &mut [u64], length: usize) {
    let Some(lent) = table.get_mut(..length) else {
        return;
    };
    let reading = readings::read_both(ip, ids, lent);
    part(rt, ip, ids, lent, reading);
    reply(rt, reading, table);
}
