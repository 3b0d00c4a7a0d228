// The rows of a lent table, counted as they are read.
ghost use Rattle.std.specs.Prelude.{◌≡◌};
ghost use Rattle.table.specs.Rows.{seen};
ghost use Rattle.values.specs.Into.{Pushed};

use number::refusal::Refusal;
use table::rows;
use table::rows::Row;

// A lent table, and how many rows it has so far.
// Each function that takes them says that the table is the one that it was.
#[derive(Drop)]
pub(crate) struct Rows<'a> {
    pub(crate) table: &'a mut [u64],
    pub(crate) count: usize,
}

impl<'a> Rows<'a> {
    // A table that has `count` rows.
    pub(crate) fn new(table: &'a mut [u64], count: usize) -> Rows<'a>
        ensures same_table { result.table.ghost_name ≡ table.entry.ghost_name }
        ensures left { result.table.now ≡ table.old }
        ensures counted { result.count ≡ count }
    {
        Rows { table, count }
    }

    // One row more: "row 513" is refused.
    pub(crate) fn push(&mut self, row: Row) -> Result<(), Refusal>
        ensures same_table { self.new.table.ghost_name ≡ self.old.table.ghost_name }
        ensures pushed { Pushed self.old.count self.old.table.now (seen row) result self.new.count self.new.table.now }
    {
        if rows::ROWS <= self.count {
            return Err(Refusal::RowCount);
        }
        rows::put(self.table, self.count, row);
        self.count += 1;
        Ok(())
    }
}
