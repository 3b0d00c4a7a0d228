// The answers as lines.
use number::halves::Halves;
use table::rows;
use values::readings::Reading;

// A field: a blank, and a number.
pub fn field(rt: &impl Print, n: u64) {
    let _ = print!(rt; " {n}");
}

fn value_field(rt: &impl Print, value: Halves) {
    let _ = print!(rt; " {:016x}{:016x}", value.upper, value.lower);
}

// The numbers of so many rows, with commas between them.
pub fn numbers(rt: &impl Print, table: &[u64], count: usize) {
    if count == 0 {
        let _ = rt.write_all(b" -");
        return;
    }
    let _ = rt.write_all(b" ");
    for (k, n) in table.iter().enumerate() {
        if k / rows::ROW == count {
            return;
        }
        if 0 < k {
            let _ = rt.write_all(b",");
        }
        let _ = rt.print(*n);
    }
}

// A reader's reply: 'ok ROWS n,n,..', or 'no NUMBER CERTIFICATE EXTENSION PLACE SPACE VALUE'.
pub fn reading(rt: &impl Print, reading: Reading, table: &[u64]) {
    match reading {
        Ok(n) => {
            let _ = rt.write_all(b"ok");
            field(rt, n as u64);
            numbers(rt, table, n);
        }
        Err(fault) => {
            let refusal = fault.refusal;
            let value = fault.value;
            let _ = rt.write_all(b"no");
            field(rt, u64::from(refusal));
            field(rt, fault.certificate);
            field(rt, fault.extension);
            field(rt, fault.place as u64);
            field(rt, fault.space);
            value_field(rt, value);
        }
    }
    let _ = rt.write_all(b"\n");
}
