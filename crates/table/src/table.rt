// The table and its calls.
ghost use Rattle.std.specs.Prelude.{◌≡◌, length, ◌==◌};
ghost use Rattle.std.specs.List.{slice_get};
ghost use Rattle.table.specs.Calls.{Answered, Grows};
ghost use Rattle.table.specs.Maps.{lookup};
ghost use Rattle.table.specs.Rows.{cleared, memory, rows, SameMemory, Sound};

use crate::finding::{look_up, seek};
use crate::key::Key;
use crate::shift::put_in;
use std::mem::replace;

// A key with its value.
#[derive(Clone, Copy, PartialEq, Eq, Debug, Default)]
pub struct Entry<K, V> {
    pub key: K,
    pub value: V,
}

// An ordered map: the first `len` of the entries that the caller lends, in ascending order of their keys. The library
// takes no memory of its own. The calls promise the order (`Sound`), and it is no invariant: a table may be made over
// memory that holds anything.
#[derive(Drop)]
pub struct Table<'a, K, V> {
    pub entries: &'a mut [Entry<K, V>],
    pub len: usize,
}

// There is no room for a new key.
#[derive(Clone, Copy, PartialEq, Eq, Debug)]
pub struct Full;

impl<'a, K: Key, V: Copy> Table<'a, K, V> {
    // A table with no rows in the memory that is lent. The memory stays as it is.
    pub fn new(entries: &'a mut [Entry<K, V>]) -> Table<'a, K, V>
        ensures empty { result.len ≡ 0 }
        ensures lent { result.entries ≡ entries.entry }
        ensures sound { Sound K.Key.less result }
    {
        Table { entries, len: 0 }
    }

    // The rows, in ascending order of their keys.
    pub fn rows(&self) -> &[Entry<K, V>]
        ensures { result.now ≡ rows self.now }
    {
        let len = self.len.min(self.entries.len());
        &self.entries[..len]
    }

    // The number of rows.
    pub fn len(&self) -> usize
        ensures { result ≡ length (rows self.now) }
    {
        self.rows().len()
    }

    pub fn is_empty(&self) -> bool
        ensures { result ≡ (length (rows self.now) == 0) }
    {
        self.len() == 0
    }

    // The row at a place, in ascending order of the keys.
    pub fn at(&self, i: usize) -> Option<Entry<K, V>>
        ensures { result ≡ slice_get (rows self.now) i }
    {
        self.rows().get(i).copied()
    }

    // The value of a key, where the table has an equivalent one.
    pub fn find(&self, key: &K) -> Option<V>
        ensures { Sound K.Key.less self.now → result ≡ lookup K.Key.less key.now (rows self.now) }
    {
        look_up(self.rows(), key)
    }

    // Takes all rows out. The memory stays as it is.
    pub fn clear(&mut self)
        ensures empty { self.new ≡ cleared self.old }
        ensures sound { Sound K.Key.less self.new }
    {
        self.len = 0;
    }

    // Gives a key a value, and gives back the value that it had. A new key takes a row, which must not pass
    // the limit or the memory.
    pub fn insert_within(&mut self, limit: usize, key: K, value: V) -> Result<Option<V>, Full>
        ensures lent { SameMemory self.old self.new }
        ensures grows { Grows self.old self.new result }
        ensures answered { Sound K.Key.less self.old → Answered K.Key.less limit key value self.old self.new result }
    {
        match seek(self.rows(), &key) {
            Ok(at) => {
                let old = replace(&mut self.entries[at].value, value);
                Ok(Some(old))
            }
            Err(at) => {
                let len = self.len;
                if len >= limit.min(self.entries.len()) {
                    return Err(Full);
                }
                put_in(self.entries, len, at, Entry { key, value });
                self.len = len + 1;
                Ok(None)
            }
        }
    }

    // Gives a key a value as `insert_within` does, with no limit but the memory.
    pub fn insert(&mut self, key: K, value: V) -> Result<Option<V>, Full>
        ensures lent { SameMemory self.old self.new }
        ensures grows { Grows self.old self.new result }
        ensures answered { Sound K.Key.less self.old → Answered K.Key.less (length (memory self.old)) key value self.old self.new result }
    {
        let limit = self.entries.len();
        self.insert_within(limit, key, value)
    }
}
