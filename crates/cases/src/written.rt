// W: rows written to the start of an output. 'ok LENGTH hex', or the refusal.
use crate::answers;
use values::readings::Reading;
use writer::Writing;

fn reply(rt: &impl Print, writing: Writing, out: &[u8]) {
    match writing {
        Ok(n) => {
            let _ = rt.write_all(b"ok");
            answers::field(rt, n as u64);
            let _ = rt.write_all(b" ");
            for octet in out.iter().take(n) {
                let _ = print!(rt; "{octet:02x}");
            }
            let _ = rt.write_all(b"\n");
        }
        Err(fault) => answers::reading(rt, Err(fault), &[]),
    }
}

// The first octets of the output are lent.
pub fn run(rt: &impl Print, kind: u64, table: &[u64], out: &mut [u8], room: usize) {
    let Some(lent) = out.get_mut(..room) else {
        return;
    };
    let writing = writer::write(kind, table, lent);
    reply(rt, writing, lent);
}
