// The two readers: a value and a lent table in; the rows in the table, or a refusal and a table of zeros, out.
ghost use Rattle.std.specs.Prelude.{◌≡◌, length};
ghost use Rattle.values.specs.Readings as spec;
ghost use Rattle.values.specs.Inside.{IpIn, AsIn, BothIn};

use crate::faults::Read;
use crate::{blocks, identifiers, limits};
use number::halves;
use number::halves::Halves;
use number::refusal::Refusal;
use table::rows;

// "A refusal names certificate, extension (0 none, 1 IP, 2 AS), place, space and value".
#[derive(Clone, Copy)]
pub struct Refused {
    pub refusal: Refusal,
    pub certificate: u64,
    pub extension: u64,
    pub place: usize,
    pub space: u64,
    pub value: Halves,
}

// The rows that the table has now, or a refusal.
pub type Reading = Result<usize, Refused>;

// Returns the refusal with what it names: "Space is set for 14 and 15, value for 15, else 0".
pub fn naming(refusal: Refusal, certificate: u64, extension: u64, place: usize) -> Refused
    ensures { result ≡ spec.naming refusal certificate extension place }
{
    Refused {
        refusal,
        certificate,
        extension,
        place,
        space: 0,
        value: halves::ZERO,
    }
}

// A refusal of a reader: "the reader and the writer alone name certificate 0".
fn refuse(refusal: Refusal, extension: u64, place: usize) -> Reading
    ensures { result ≡ spec.refused_at refusal extension place }
{
    Err(naming(refusal, 0, extension, place))
}

// The reader's answer to what was counted. A refusal leaves zeros in the table.
fn answer(extension: u64, counted: Read<usize>, table: &mut [u64]) -> Reading
    ensures { (result, table.new) ≡ spec.answered extension counted table.old }
{
    match counted {
        Ok(n) => Ok(n),
        Err(fault) => {
            rows::clear(table, rows::NUMBERS);
            refuse(fault.refusal, extension, fault.place)
        }
    }
}

// The tests of a value as a step of a path, before it is read: 16 before 1.
fn admit(extension: u64, value: &[u8], table: &mut [u64]) -> Result<(), Refused>
    ensures { (result, table.new) ≡ spec.admitted extension value.now table.old }
{
    if table.len() < rows::NUMBERS {
        return Err(naming(Refusal::TableShort, 0, 0, 0));
    }
    if limits::MAX_OCTETS < value.len() {
        rows::clear(table, rows::NUMBERS);
        return Err(naming(Refusal::ValueSize, 0, extension, 0));
    }
    Ok(())
}

// The tests of a value by itself, and a table of zeros for it: 16 before 1.
fn admit_alone(extension: u64, value: &[u8], table: &mut [u64]) -> Result<(), Refused>
    ensures { (result, table.new) ≡ spec.admitted_alone extension value.now table.old }
{
    if table.len() < rows::NUMBERS {
        return Err(naming(Refusal::TableShort, 0, 0, 0));
    }
    rows::clear(table, rows::NUMBERS);
    if value.len() == 0 {
        return Err(naming(Refusal::ValueSize, 0, extension, 0));
    }
    Ok(())
}

// Reads an IPAddrBlocks value as a step of a path: its rows come first in the table.
// Returns the rows so far, or the refusal; on a refusal but 16 the first 3,072 numbers of the table are zero.
pub fn step_ip(value: &[u8], table: &mut [u64]) -> Reading
    ensures reply { (result, table.new) ≡ spec.step_ip value.now table.old }
    ensures inside { IpIn (length value.now) result }
{
    admit(limits::IP_EXTENSION, value, table)?;
    let counted = blocks::read(value, table);
    answer(limits::IP_EXTENSION, counted, table)
}

// Reads an ASIdentifiers value as a step of a path: "The AS value's rows are counted on from the IP rows", of which there are `count`.
// Returns the rows so far, or the refusal; on a refusal but 16 the first 3,072 numbers of the table are zero.
pub fn step_as(value: &[u8], count: usize, table: &mut [u64]) -> Reading
    ensures reply { (result, table.new) ≡ spec.step_as value.now count table.old }
    ensures inside { AsIn (length value.now) result }
{
    admit(limits::AS_EXTENSION, value, table)?;
    let counted = identifiers::read(value, count, table);
    answer(limits::AS_EXTENSION, counted, table)
}

// Reads an IPAddrBlocks value by itself.
// Returns the rows, or the refusal; but on 16 the first 3,072 numbers of the table are the rows and then zeros.
pub fn read_ip(value: &[u8], table: &mut [u64]) -> Reading
    ensures { (result, table.new) ≡ spec.read_ip value.now table.old }
{
    admit_alone(limits::IP_EXTENSION, value, table)?;
    step_ip(value, table)
}

// Reads an ASIdentifiers value by itself.
// Returns the rows, or the refusal; but on 16 the first 3,072 numbers of the table are the rows and then zeros.
pub fn read_as(value: &[u8], table: &mut [u64]) -> Reading
    ensures { (result, table.new) ≡ spec.read_as value.now table.old }
{
    admit_alone(limits::AS_EXTENSION, value, table)?;
    step_as(value, 0, table)
}

// After the IP value's rows: the AS value's are counted on; an empty value is absent.
fn after_ip(count: usize, ids: &[u8], table: &mut [u64]) -> Reading
    ensures reply { (result, table.new) ≡ spec.on_as ids.now table.old (Ok count) }
    ensures inside { AsIn (length ids.now) result }
{
    if ids.len() == 0 {
        return Ok(count);
    }
    step_as(ids, count, table)
}

// Reads one certificate's two values as a step of a path: IP rows, then AS rows; an empty value is absent.
// Returns the rows, or the refusal; on a refusal but 16 the first 3,072 numbers of the table are zero.
pub fn step_both(ip: &[u8], ids: &[u8], table: &mut [u64]) -> Reading
    ensures reply { (result, table.new) ≡ spec.step_both ip.now ids.now table.old }
    ensures inside { BothIn (length ip.now) (length ids.now) result }
{
    if ip.len() == 0 {
        return after_ip(0, ids, table);
    }
    let count = step_ip(ip, table)?;
    after_ip(count, ids, table)
}

// Reads one certificate's two values: IP rows, then AS rows; an empty value is absent.
// Returns the rows, or the refusal; but on 16 the first 3,072 numbers of the table are the rows and then zeros.
pub fn read_both(ip: &[u8], ids: &[u8], table: &mut [u64]) -> Reading
    ensures reply { (result, table.new) ≡ spec.read_both ip.now ids.now table.old }
    ensures inside { BothIn (length ip.now) (length ids.now) result }
{
    if table.len() < rows::NUMBERS {
        return refuse(Refusal::TableShort, 0, 0);
    }
    rows::clear(table, rows::NUMBERS);
    step_both(ip, ids, table)
}
