// The static library for C and Rust (include/rch.h): each export is the function of `face` of its name, under the same promise.
#![tactic(auto)]

ghost use Rattle.std.specs.Prelude.{◌≡◌};
ghost use Rattle.face.specs.Face as spec;

// Reads an IPAddrBlocks value into the table. Returns the number of the refusal, or 0.
#[unsafe(no_mangle)]
pub extern "C" fn rch_read_ip(value: &[u8], table: &mut [u64], reply: &mut [u64]) -> u64
    ensures { (result, table.new, reply.new) ≡ spec.read_ip_face value.now table.old reply.old }
{
    face::rch_read_ip(value, table, reply)
}

// Reads an ASIdentifiers value into the table. Returns the number of the refusal, or 0.
#[unsafe(no_mangle)]
pub extern "C" fn rch_read_as(value: &[u8], table: &mut [u64], reply: &mut [u64]) -> u64
    ensures { (result, table.new, reply.new) ≡ spec.read_as_face value.now table.old reply.old }
{
    face::rch_read_as(value, table, reply)
}

// Writes the value of rows: kind 1 IPAddrBlocks, 2 ASIdentifiers. Returns the number of the refusal, or 0.
#[unsafe(no_mangle)]
pub extern "C" fn rch_write(kind: u64, rows: &[u64], out: &mut [u8], reply: &mut [u64]) -> u64
    ensures { (result, out.new, reply.new) ≡ spec.write_face kind rows.now out.old reply.old }
{
    face::rch_write(kind, rows, out, reply)
}

// Checks the path of a bundle; the last certificate's rows are left in the first table. Returns the number of the refusal, or 0.
#[unsafe(no_mangle)]
pub extern "C" fn rch_path(
    bundle: &[u8],
    first: &mut [u64],
    second: &mut [u64],
    reply: &mut [u64],
) -> u64
    ensures { (result, (first.new, second.new), reply.new) ≡ spec.path_face bundle.now first.old second.old reply.old }
{
    face::rch_path(bundle, first, second, reply)
}

// Reads one certificate's two values, and says which octets are at fault. Returns the number of the refusal, or 0.
#[unsafe(no_mangle)]
pub extern "C" fn rch_fault(ip: &[u8], ids: &[u8], table: &mut [u64], reply: &mut [u64]) -> u64
    ensures { (result, table.new, reply.new) ≡ spec.fault_face ip.now ids.now table.old reply.old }
{
    face::rch_fault(ip, ids, table, reply)
}
