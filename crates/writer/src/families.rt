// The value of a table: the families of its rows, their size, and their octets, both from the last row to the first.
// A list's heads say its length, so they are counted or written once its first row was passed: the list is open until then.
ghost use Rattle.std.specs.Prelude.{◌≡◌, ◌+◌, ◌≤◌, length};
ghost use Rattle.table.specs.Rows.{seen};
ghost use Rattle.table.specs.Spaces.{kind_number, kind_of};
ghost use Rattle.der.specs.Tags.{SEQUENCE};
ghost use Rattle.der.specs.Head.{element};
ghost use Rattle.values.specs.Encode.{row_octets};
ghost use Rattle.writer.specs.Families as spec;
ghost use Rattle.writer.specs.Writer as reply;

use crate::{Group, Listed, Writing, element_size, refuse};
use der::{heads, tags};
use number::refusal::Refusal;
use table::kinds::Kind;
use table::rows::Row;
use table::{rows, tables};
use values::limits;

// The rows of one space that were passed last: their space, and how many octets their elements have.
// No list is open where there are none.
#[derive(Clone, Copy)]
pub struct Open {
    pub space: u64,
    pub size: usize,
}

// Whether a row joins the open list.
fn joins(list: Option<Open>, row: Row) -> bool
    ensures { result ≡ spec.joins list (seen row) }
{
    match list {
        Some(open) => row.inherit != 1 && row.space == open.space,
        None => false,
    }
}

// The open list with a row of n octets in front.
fn onward(list: Option<Open>, row: Row, n: usize) -> Option<Open>
    requires { spec.size_in list + n ≤ reply.choice_most }
    ensures { result ≡ spec.onward list (seen row) n }
{
    if row.inherit == 1 {
        return None;
    }
    let behind = match list {
        Some(open) if row.space == open.space => open.size,
        _ => 0,
    };
    Some(Open {
        space: row.space,
        size: behind + n,
    })
}

// How many octets stand in a family before the n octets of its choice's contents.
fn frame_size(kind: Kind, space: u64, n: usize) -> usize
    requires { n ≤ reply.list_most }
    ensures { (result ≡ length (spec.frame (kind_number kind) space SEQUENCE n)) × (result ≤ reply.heads_most) }
{
    let group = Group {
        kind,
        space,
        choice: element_size(n),
    };
    group.heads_size() + heads::head_size(n)
}

// How many octets the heads of the open list have; 0 where there is none.
fn open_size(kind: Kind, list: Option<Open>) -> usize
    requires { spec.size_in list ≤ reply.list_most }
    ensures { (result ≡ length (spec.open_heads (kind_number kind) list)) × (result ≤ reply.heads_most) }
{
    match list {
        Some(open) => frame_size(kind, open.space, open.size),
        None => 0,
    }
}

// How many octets the heads have that stand behind a row.
fn closing_size(kind: Kind, list: Option<Open>, row: Row) -> usize
    requires { spec.size_in list ≤ reply.list_most }
    ensures { (result ≡ length (spec.closing (kind_number kind) list (seen row))) × (result ≤ reply.heads_most) }
{
    if joins(list, row) {
        return 0;
    }
    open_size(kind, list)
}

// How many octets a row has of its own.
fn own_size(kind: Kind, row: Row) -> usize
    requires { spec.Own (kind_number kind) (seen row) }
    ensures { (result ≡ length (spec.own (kind_number kind) (seen row))) × (result ≤ reply.row_most) }
{
    if row.inherit == 1 {
        return frame_size(kind, row.space, 0);
    }
    Listed { kind, row }.size()
}

// A table of one kind, IP or AS, that `tables::is_table` accepts.
#[derive(Clone, Copy)]
struct OneKind<'a> {
    kind: Kind,
    table: &'a [u64],
    ghost sound: { spec.Table (kind_number kind) table.now },
}

impl<'a> OneKind<'a> {
    // How many octets its families have.
    fn size(self) -> usize
        ensures { (result ≡ length (spec.families (kind_number self.entry.kind) self.entry.table.now)) × (result ≤ reply.families_most) }
    {
        let mut list = None;
        let mut size: usize = 0;
        for k in (0..self.table.len() / rows::ROW).rev() {
            let row = rows::get(self.table, k);
            let n = own_size(self.kind, row);
            size += closing_size(self.kind, list, row) + n;
            list = onward(list, row, n);
        }
        size + open_size(self.kind, list)
    }

    // Writes its value to the start of `out`, if it has room.
    fn put(self, out: &mut [u8]) -> Writing
        ensures { (result, out.new) ≡ reply.put (element SEQUENCE (spec.families (kind_number self.entry.kind) self.entry.table.now)) out.old }
    {
        let inner = self.size();
        let all = element_size(inner);
        if out.len() < all {
            return refuse(Refusal::OutputShort, 0);
        }
        heads::put_head(out, 0, tags::SEQUENCE, inner);
        let mut run = Backwards { out, start: all };
        run.families(self);
        Ok(all)
    }
}

// A run of octets that is written from the last to the first: what was written starts at a place in it.
// Each method writes a part in front of that, for which it asks room.
#[derive(Drop)]
struct Backwards<'a> {
    out: &'a mut [u8],
    start: usize,
    ghost inside: { start ≤ length out.now },
}

impl<'a> Backwards<'a> {
    // What stands in a family before the n octets of its choice's contents.
    fn frame(&mut self, kind: Kind, space: u64, tag: u8, n: usize)
        requires { (kind_of space ≡ kind_number kind) × (n ≤ reply.list_most) × (length (spec.frame (kind_number kind) space tag n) ≤ self.old.start) }
        ensures same_run { self.new.out.ghost_name ≡ self.old.out.ghost_name }
        ensures written { spec.Upto self.old.out.now self.old.start (spec.frame (kind_number kind) space tag n) self.new.start self.new.out.now }
    {
        self.start -= heads::head_size(n);
        heads::put_head(self.out, self.start, tag, n);
        let group = Group {
            kind,
            space,
            choice: element_size(n),
        };
        self.start -= group.heads_size();
        group.put_heads(self.out, self.start);
    }

    // The heads of the open list.
    fn close(&mut self, kind: Kind, list: Option<Open>)
        requires { spec.Opened (kind_number kind) list × (length (spec.open_heads (kind_number kind) list) ≤ self.old.start) }
        ensures same_run { self.new.out.ghost_name ≡ self.old.out.ghost_name }
        ensures written { spec.Upto self.old.out.now self.old.start (spec.open_heads (kind_number kind) list) self.new.start self.new.out.now }
    {
        if let Some(open) = list {
            self.frame(kind, open.space, tags::SEQUENCE, open.size);
        }
    }

    // The heads that stand behind a row.
    fn closing(&mut self, kind: Kind, list: Option<Open>, row: Row)
        requires { spec.Opened (kind_number kind) list × (length (spec.closing (kind_number kind) list (seen row)) ≤ self.old.start) }
        ensures same_run { self.new.out.ghost_name ≡ self.old.out.ghost_name }
        ensures written { spec.Upto self.old.out.now self.old.start (spec.closing (kind_number kind) list (seen row)) self.new.start self.new.out.now }
    {
        if !joins(list, row) {
            self.close(kind, list);
        }
    }

    // The element of a row that lists numbers.
    fn listed(&mut self, listed: Listed)
        requires { length (row_octets (kind_number listed.kind) (seen listed.row)) ≤ self.old.start }
        ensures same_run { self.new.out.ghost_name ≡ self.old.out.ghost_name }
        ensures written { spec.Upto self.old.out.now self.old.start (row_octets (kind_number listed.kind) (seen listed.row)) self.new.start self.new.out.now }
    {
        self.start -= listed.size();
        listed.put(self.out, self.start);
    }

    // A row's own octets.
    fn own(&mut self, kind: Kind, row: Row)
        requires { spec.Own (kind_number kind) (seen row) × (length (spec.own (kind_number kind) (seen row)) ≤ self.old.start) }
        ensures same_run { self.new.out.ghost_name ≡ self.old.out.ghost_name }
        ensures written { spec.Upto self.old.out.now self.old.start (spec.own (kind_number kind) (seen row)) self.new.start self.new.out.now }
    {
        if row.inherit == 1 {
            self.frame(kind, row.space, tags::NULL, 0);
        } else {
            self.listed(Listed { kind, row });
        }
    }

    // The families of a table.
    fn families(&mut self, one: OneKind)
        requires { length (spec.families (kind_number one.kind) one.table.now) ≤ self.old.start }
        ensures same_run { self.new.out.ghost_name ≡ self.old.out.ghost_name }
        ensures written { spec.Upto self.old.out.now self.old.start (spec.families (kind_number one.entry.kind) one.entry.table.now) self.new.start self.new.out.now }
    {
        let mut list = None;
        for k in (0..one.table.len() / rows::ROW).rev() {
            let row = rows::get(one.table, k); // the next one towards the first
            self.closing(one.kind, list, row);
            let end = self.start;
            self.own(one.kind, row);
            list = onward(list, row, end - self.start);
        }
        self.close(one.kind, list);
    }
}

// Whether a table lacks the row that its kind asks for: "an AS table at least one".
fn rowless(kind: Kind, count: usize) -> bool
    ensures { result ≡ reply.rowless (kind_number kind) count }
{
    kind == Kind::As && count == 0
}

// Writes the value of a table of the kind, 1 (IP) or 2 (AS), to the start of `out`.
// Returns how many octets it has; on a refusal (19, 8, 20 in this order) `out` is unchanged.
pub fn write(kind: u64, table: &[u64], out: &mut [u8]) -> Writing
    ensures { (result, out.new) ≡ reply.write kind table.now out.old }
{
    let Ok(own) = Kind::try_from(kind) else {
        return refuse(Refusal::NotATable, 0);
    };
    if !tables::is_table(kind, table) {
        return refuse(Refusal::NotATable, 0);
    }
    if rowless(own, table.len() / rows::ROW) {
        return refuse(Refusal::EmptyList, limits::AS_EXTENSION);
    }
    OneKind { kind: own, table }.put(out)
}
