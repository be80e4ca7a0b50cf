// The cache: names that have a target already, and names that are to stay.
ghost use Rattle.std.specs.Prelude.{◌≡◌, length, Some, None, OnErr, ◌==◌};
ghost use Rattle.std.specs.List.{slice_get};
ghost use Rattle.names.specs.Names.{before, name_of};
ghost use Rattle.options.specs.Giving.{Gives, found, name_fault, pin_fault};
ghost use Rattle.table.specs.Rows.{Sound, SameMemory, rows};

use crate::give::give;
use crate::given::{NO_NODE, checked_name, checked_pin};
use names::Name;
use pages::Refusal;
use table::{Entry, Table};

// The most entries of a cache.
pub const CACHE_LIMIT: usize = 8_192;

// A name with a pin has its target here, and a kept name has none.
#[derive(Drop)]
pub struct ManglePropertyCache<'a> {
    pub table: Table<'a, Name, Option<Name>>,
}

impl<'a> ManglePropertyCache<'a> {
    // A cache with no entries, in memory that is lent for them.
    pub fn new(entries: &'a mut [Entry<Name, Option<Name>>]) -> ManglePropertyCache<'a>
        ensures empty { result.table.len ≡ 0 }
        ensures lent { result.table.entries ≡ entries.entry }
        ensures sound { Sound before result.table }
    {
        ManglePropertyCache {
            table: Table::new(entries),
        }
    }

    // Pins a name to a target. A later pin or keep of the name takes its place.
    pub fn pin<'b>(&mut self, name: &'b [u8], target: &'b [u8]) -> Result<(), Refusal<'b>>
        ensures lent { SameMemory self.old.table self.new.table }
        ensures refused { OnErr result (self.new.table ≡ self.old.table) }
        ensures gives { Sound before self.old.table → Gives before 8192 (pin_fault name.entry target.entry) (name_of name.now) (Some (name_of target.now)) self.old.table self.new.table result }
    {
        let (key, value) = checked_pin(name, target)?;
        give(&mut self.table, CACHE_LIMIT, key, Some(value))
    }

    // Keeps a name as it is. A later pin or keep of the name takes its place.
    pub fn keep<'b>(&mut self, name: &'b [u8]) -> Result<(), Refusal<'b>>
        ensures lent { SameMemory self.old.table self.new.table }
        ensures refused { OnErr result (self.new.table ≡ self.old.table) }
        ensures gives { Sound before self.old.table → Gives before 8192 (name_fault name.now) (name_of name.now) None self.old.table self.new.table result }
    {
        let key = checked_name(NO_NODE, name)?;
        give(&mut self.table, CACHE_LIMIT, key, None)
    }

    // The entry at a place, in ascending order of the names.
    pub fn at(&self, i: usize) -> Option<Entry<Name, Option<Name>>>
        ensures { result ≡ slice_get (rows self.now.table) i }
    {
        self.table.at(i)
    }

    pub fn is_empty(&self) -> bool
        ensures { result ≡ (length (rows self.now.table) == 0) }
    {
        self.table.is_empty()
    }

    // What the cache has for a name: nothing, a target, or that the name is kept.
    pub fn get(&self, name: &[u8]) -> Option<Option<Name>>
        ensures { Sound before self.now.table → result ≡ found name.now (rows self.now.table) }
    {
        let key = Name::new(name)?;
        self.table.find(&key)
    }
}
