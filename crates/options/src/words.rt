// The reserved words: names that no property is shortened to, and that stay as they are.
ghost use Rattle.std.specs.Prelude.{◌≡◌, OnErr};
ghost use Rattle.names.specs.Names.{before, name_of};
ghost use Rattle.options.specs.Giving.{Gives, name_fault};
ghost use Rattle.table.specs.Rows.{Sound, SameMemory};

use crate::give::give;
use crate::given::{NO_NODE, checked_name};
use names::Name;
use pages::Refusal;
use table::{Entry, Table};

// The most reserved words.
pub const WORD_LIMIT: usize = 1_024;

#[derive(Drop)]
pub struct ReservedWords<'a> {
    pub table: Table<'a, Name, ()>,
}

impl<'a> ReservedWords<'a> {
    // No reserved words, in memory that is lent for them.
    pub fn new(entries: &'a mut [Entry<Name, ()>]) -> ReservedWords<'a>
        ensures empty { result.table.len ≡ 0 }
        ensures lent { result.table.entries ≡ entries.entry }
        ensures sound { Sound before result.table }
    {
        ReservedWords {
            table: Table::new(entries),
        }
    }

    // Reserves a word; one that is there already stays.
    pub fn reserve<'b>(&mut self, word: &'b [u8]) -> Result<(), Refusal<'b>>
        ensures lent { SameMemory self.old.table self.new.table }
        ensures refused { OnErr result (self.new.table ≡ self.old.table) }
        ensures gives { Sound before self.old.table → Gives before 1024 (name_fault word.now) (name_of word.now) tt self.old.table self.new.table result }
    {
        let key = checked_name(NO_NODE, word)?;
        give(&mut self.table, WORD_LIMIT, key, ())
    }
}
