// The places: starts of literals that are annotated as keys.
ghost use Rattle.std.specs.Prelude.{◌≡◌, None, OnErr, nat_lt};
ghost use Rattle.options.specs.Giving.{Gives};
ghost use Rattle.table.specs.Rows.{Sound, SameMemory};

use crate::give::give;
use pages::Refusal;
use table::{Entry, Table};

// The most places.
pub const PLACE_LIMIT: usize = 4_096;

#[derive(Drop)]
pub struct Places<'a> {
    pub table: Table<'a, u32, ()>,
}

impl<'a> Places<'a> {
    // No places, in memory that is lent for them.
    pub fn new(entries: &'a mut [Entry<u32, ()>]) -> Places<'a>
        ensures empty { result.table.len ≡ 0 }
        ensures lent { result.table.entries ≡ entries.entry }
        ensures sound { Sound nat_lt result.table }
    {
        Places {
            table: Table::new(entries),
        }
    }

    // Adds a place; one that is there already stays.
    pub fn add<'b>(&mut self, start: u32) -> Result<(), Refusal<'b>>
        ensures lent { SameMemory self.old.table self.new.table }
        ensures refused { OnErr result (self.new.table ≡ self.old.table) }
        ensures gives { Sound nat_lt self.old.table → Gives nat_lt 4096 None start tt self.old.table self.new.table result }
    {
        give(&mut self.table, PLACE_LIMIT, start, ())
    }
}
