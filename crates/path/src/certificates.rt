// One certificate's check, its steps in document 01's order: "IP value, AS value, 13 for IP, 13 for AS, 14 by space, 11, 15".
ghost use Rattle.std.specs.Prelude.{◌≡◌, ◌≤◌, length};
ghost use Rattle.table.specs.Sizes.{max_rows, table_numbers};
ghost use Rattle.table.specs.Rows.{rows_of, rows_in};
ghost use Rattle.path.specs.Certificate as spec;

use crate::inherits::Uninherited;
use crate::replies::{Accepted, Reply};
use crate::{inherits, replies, walks};
use number::halves;
use number::refusal::Refusal;
use table::rows;
use values::readings::{Reading, Refused};
use values::{limits, readings};

// What the certificates above leave for the next one: how many they are, and of the last of them, the issuer, its rows and which extensions it carries.
// Above the anchor there is none: 0 certificates, no row, and nothing that the anchor may not carry.
#[derive(Clone, Copy)]
pub struct Above {
    pub certificates: u64,
    pub rows: usize,
    pub ip: bool,
    pub ids: bool,
}

// "15: a held number is not held by the issuer." The anchor has no issuer.
fn hold(own: &[u64], n: usize, issuer: &[u64], above: Above) -> Reply
    ensures { spec.zeroed result own.now ≡ spec.held_by n own.now (spec.hold_step (spec.seen_above above issuer.now) (rows_in n own.now)) }
{
    if above.certificates == 0 {
        return Ok(Accepted { rows: n, pairs: 0 });
    }
    let walked = walks::walk(own, n, issuer, above.rows);
    if let Some(number) = walked.missing {
        return Err(replies::fault_in(
            Refusal::NotHeld,
            above.certificates,
            number.space,
            number.value,
        ));
    }
    Ok(Accepted {
        rows: n,
        pairs: walked.pairs,
    })
}

// Why a certificate has no rows after inheritance, as a refusal.
fn uninherited(reason: Uninherited, certificate: u64) -> Refused
    ensures { result ≡ spec.uninherited certificate reason }
{
    match reason {
        Uninherited::NoSpace(space) => replies::fault_in(
            Refusal::NothingToInherit,
            certificate,
            space,
            halves::ZERO,
        ),
        Uninherited::TooMany => readings::naming(Refusal::RowCount, certificate, 0, 0),
        Uninherited::Short => readings::naming(Refusal::TableShort, 0, 0, 0),
    }
}

// "14: inherit, and the issuer has no such space, or anchor"; "11: row 513 .. after inheritance"; then 15.
fn inherit(own: &mut [u64], n: usize, issuer: &[u64], above: Above) -> Reply
    requires { (n ≤ max_rows) × (table_numbers ≤ length own.old) }
    ensures { spec.zeroed result own.new ≡ spec.left (spec.after_presence (spec.seen_above above issuer.now) (rows_of n own.old)) own.old }
{
    match inherits::inherit(own, n, issuer, above.rows) {
        Ok(total) => hold(own, total, issuer, above),
        Err(reason) => Err(uninherited(reason, above.certificates)),
    }
}

// "13: extension carried, issuer has none": the extension, IP first.
fn lacked(ip: &[u8], ids: &[u8], above: Above) -> Option<u64>
    ensures { result ≡ spec.lacked ip.now ids.now above.ip above.ids }
{
    if !ip.is_empty() && !above.ip {
        return Some(limits::IP_EXTENSION);
    }
    if !ids.is_empty() && !above.ids {
        return Some(limits::AS_EXTENSION);
    }
    None
}

// The steps, over a table that is long enough. A refusal leaves any numbers in it, which `certificate` clears.
fn steps(ip: &[u8], ids: &[u8], own: &mut [u64], issuer: &[u64], above: Above) -> Reply
    requires { table_numbers ≤ length own.old }
    ensures { spec.zeroed result own.new ≡ spec.left (spec.certificate (spec.seen_above above issuer.now) ip.now ids.now) own.old }
{
    let n = match readings::step_both(ip, ids, own) {
        Ok(n) => n,
        Err(fault) => return Err(replies::named(fault, above.certificates)),
    };
    if let Some(extension) = lacked(ip, ids, above) {
        return Err(readings::naming(Refusal::IssuerLacks, above.certificates, extension, 0));
    }
    inherit(own, n, issuer, above)
}

// Checks one certificate, its two values (empty where absent), against its issuer's table. Its rows are left in `own`, over the first numbers that it had; the later ones stay.
// Returns the rows and the pairs of its walk, or the refusal; on a refusal but 16 the first 3,072 numbers of `own` are zero.
pub fn certificate(ip: &[u8], ids: &[u8], own: &mut [u64], issuer: &[u64], above: Above) -> Reply
    ensures { (result, own.new) ≡ spec.checked (spec.seen_above above issuer.now) ip.now ids.now own.old }
{
    if own.len() < rows::NUMBERS {
        return Err(readings::naming(Refusal::TableShort, 0, 0, 0));
    }
    let reply = steps(ip, ids, own, issuer, above);
    if reply.is_err() {
        rows::clear(own, rows::NUMBERS);
    }
    reply
}
