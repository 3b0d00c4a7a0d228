// The text of a reply of the path check and its table, as `pathtable` prints it.
// The pieces ask for room, so they are private; they stand here, where `reports`, which has the entry, sees them.
#![tactic(auto)]

ghost use Rattle.std.specs.Prelude.{◌+◌, ◌≤◌, ◌<◌, ◌≡◌, [], length, drop};
ghost use Rattle.number.specs.Halves.{whole};
ghost use Rattle.table.specs.Rows.{rows_all, seen};
ghost use Rattle.report.specs.Text as text;
ghost use Rattle.report.specs.Reports.{put};

use der::writing;
use number::halves::Halves;
use path::replies::Accepted;
use table::rows;
use table::rows::Row;
use values::readings::Refused;

mod reports;

pub use reports::{ROOM, report};

// A digit below 16 as its character.
fn glyph(d: u64) -> u8
    requires { d < 16 }
    ensures { result ≡ text.glyph d }
{
    if d < 10 {
        return b'0' + d as u8;
    }
    b'a' + (d - 10) as u8
}

// The decimal digits of n at the end of a run, from the last to the first. Returns where they start.
fn spell_decimal(run: &mut [u8], n: u64) -> usize
    ensures { (result ≤ length run.old) × (drop result run.new ≡ text.decimal_from (length run.old) n []) }
{
    let mut left = n;
    for k in (0..run.len()).rev() {
        run[k] = glyph(left % 10);
        left /= 10;
        if left == 0 {
            return k;
        }
    }
    0
}

// A run full of hexadecimal digits: those of n, from the last to the first.
fn spell_hex(run: &mut [u8], n: u64)
    ensures { run.new ≡ text.hex_from (length run.old) n [] }
{
    let mut left = n;
    for k in (0..run.len()).rev() {
        run[k] = glyph(left % 16);
        left /= 16;
    }
}

// A text that is being written: the run that it is written to, and the place after it.
// Each method writes a part behind it, into the same run, for which it asks room.
#[derive(Drop)]
struct Text<'a> {
    out: &'a mut [u8],
    at: usize,
}

impl<'a> Text<'a> {
    // Characters.
    fn put(&mut self, s: &[u8])
        requires { self.old.at + length s.now ≤ length self.old.out.now }
        ensures same_run { self.new.out.ghost_name ≡ self.old.out.ghost_name }
        ensures written { (self.new.at, self.new.out.now) ≡ put self.old.out.now self.old.at s.now }
    {
        writing::put(self.out, self.at, s);
        self.at += s.len();
    }

    fn decimal(&mut self, n: u64)
        requires { self.old.at + length (text.decimal n) ≤ length self.old.out.now }
        ensures same_run { self.new.out.ghost_name ≡ self.old.out.ghost_name }
        ensures written { (self.new.at, self.new.out.now) ≡ put self.old.out.now self.old.at (text.decimal n) }
    {
        let mut digits = [0u8; 20];
        let start = spell_decimal(&mut digits, n);
        self.put(&digits[start..]);
    }

    // A number of 64 bits as 16 hexadecimal digits.
    fn half(&mut self, n: u64)
        requires { self.old.at + length (text.hex_from 16 n []) ≤ length self.old.out.now }
        ensures same_run { self.new.out.ghost_name ≡ self.old.out.ghost_name }
        ensures written { (self.new.at, self.new.out.now) ≡ put self.old.out.now self.old.at (text.hex_from 16 n []) }
    {
        let mut digits = [0u8; 16];
        spell_hex(&mut digits, n);
        self.put(&digits);
    }

    // A number of 128 bits as 32 hexadecimal digits.
    fn hexadecimal(&mut self, n: Halves)
        requires { self.old.at + length (text.hexadecimal (whole n)) ≤ length self.old.out.now }
        ensures same_run { self.new.out.ghost_name ≡ self.old.out.ghost_name }
        ensures written { (self.new.at, self.new.out.now) ≡ put self.old.out.now self.old.at (text.hexadecimal (whole n)) }
    {
        self.half(n.upper);
        self.half(n.lower);
    }

    // A blank, and a number.
    fn field(&mut self, n: u64)
        requires { self.old.at + length (text.field n) ≤ length self.old.out.now }
        ensures same_run { self.new.out.ghost_name ≡ self.old.out.ghost_name }
        ensures written { (self.new.at, self.new.out.now) ≡ put self.old.out.now self.old.at (text.field n) }
    {
        self.put(b" ");
        self.decimal(n);
    }

    // A blank, and a number of 128 bits.
    fn hex_field(&mut self, n: Halves)
        requires { self.old.at + length (text.hex_field (whole n)) ≤ length self.old.out.now }
        ensures same_run { self.new.out.ghost_name ≡ self.old.out.ghost_name }
        ensures written { (self.new.at, self.new.out.now) ≡ put self.old.out.now self.old.at (text.hex_field (whole n)) }
    {
        self.put(b" ");
        self.hexadecimal(n);
    }

    // "per row space, low, high".
    fn row(&mut self, row: Row)
        requires { self.old.at + length (text.row_line (seen row)) ≤ length self.old.out.now }
        ensures same_run { self.new.out.ghost_name ≡ self.old.out.ghost_name }
        ensures written { (self.new.at, self.new.out.now) ≡ put self.old.out.now self.old.at (text.row_line (seen row)) }
    {
        self.decimal(row.space);
        self.hex_field(row.low);
        self.hex_field(row.high);
        self.put(b"\n");
    }

    // The rows of a table, a line each.
    fn rows(&mut self, table: &[u64])
        requires { self.old.at + length (text.row_lines (rows_all table.now)) ≤ length self.old.out.now }
        ensures same_run { self.new.out.ghost_name ≡ self.old.out.ghost_name }
        ensures written { (self.new.at, self.new.out.now) ≡ put self.old.out.now self.old.at (text.row_lines (rows_all table.now)) }
    {
        for k in 0..table.len() / rows::ROW {
            self.row(rows::get(table, k));
        }
    }
}

// "`ok`, rows, pairs", and a line for each row of the table.
fn put_ok(out: &mut [u8], done: Accepted, table: &[u64]) -> usize
    requires { length (text.ok_text done.rows done.pairs (rows_all table.now)) ≤ length out.old }
    ensures { (result, out.new) ≡ put out.old 0 (text.ok_text done.rows done.pairs (rows_all table.now)) }
{
    let mut text = Text { out, at: 0 };
    text.put(b"ok");
    text.field(done.rows as u64);
    text.field(done.pairs as u64);
    text.put(b"\n");
    text.rows(table);
    text.at
}

// "`no`, number, certificate, extension, place, space, value".
fn put_no(out: &mut [u8], fault: Refused) -> usize
    requires { length (text.no_text fault) ≤ length out.old }
    ensures { (result, out.new) ≡ put out.old 0 (text.no_text fault) }
{
    let mut text = Text { out, at: 0 };
    text.put(b"no");
    text.field(u64::from(fault.refusal));
    text.field(fault.certificate);
    text.field(fault.extension);
    text.field(fault.place as u64);
    text.field(fault.space);
    text.hex_field(fault.value);
    text.put(b"\n");
    text.at
}
