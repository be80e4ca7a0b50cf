// Adding one table to another. They go side by side: two tables are no one value, and only one of them is changed.
ghost use Rattle.std.specs.Prelude.{◌≡◌, ◌+◌, ◌≤◌, OnErr, nat_le};
ghost use Rattle.table.specs.Rows.{SameMemory, Sound, rows};
ghost use Rattle.tally.specs.Calls.{AnyOrder, Merges, Needs, Only};
ghost use Rattle.tally.specs.Steps.{new_keys};

use crate::adding::add;
use crate::sum::Sum;
use table::{Entry, Full, Key, Table};

// How many keys of the other table this one has not.
fn new_keys<K: Key, V: Sum>(table: &Table<K, V>, other: &[Entry<K, V>]) -> usize
    ensures { Sound K.Key.less table.now → result ≡ new_keys K.Key.less (rows table.now) other.now }
{
    other
        .iter()
        .filter(|row| table.find(&row.key).is_none())
        .count()
}

// Whether so many rows and so many more are within the room.
fn has_room(len: usize, more: usize, room: usize) -> bool
    ensures { result ≡ nat_le (len + more) room }
{
    len.checked_add(more).is_some_and(|all| all <= room)
}

// The number of rows of two tables together. It stops at the largest `usize`, which no memory passes.
pub fn merged_len<K: Key, V: Sum>(table: &Table<K, V>, other: &Table<K, V>) -> usize
    ensures { Sound K.Key.less table.now → Sound K.Key.less other.now → Needs K.Key.less V.Sum.sum table.now other.now result }
{
    table.len().saturating_add(new_keys(table, other.rows()))
}

// Adds each row of the other table to this one. Where the two together would pass the limit or the memory,
// nothing is changed.
pub fn merge<K: Key, V: Sum>(
    table: &mut Table<K, V>,
    other: &Table<K, V>,
    limit: usize,
) -> Result<(), Full>
    ensures lent { SameMemory table.old table.new }
    ensures grows { table.old.len ≤ table.new.len }
    ensures kept { OnErr result (table.new ≡ table.old) }
    ensures merges { Sound K.Key.less table.old → Sound K.Key.less other.now → Merges K.Key.less V.Sum.sum limit table.old other.now table.new result }
    ensures only { Only K.Key.less V.Sum.sum }
    ensures any_order { AnyOrder V.Sum.sum }
{
    let room = limit.min(table.entries.len());
    let rows = other.rows();
    if !has_room(table.len(), new_keys(table, rows), room) {
        return Err(Full);
    }
    for row in rows {
        // There is room for all of them. The answer says so of sound tables alone, and `merge` takes any.
        let _ = add(table, limit, row.key, row.value);
    }
    Ok(())
}
