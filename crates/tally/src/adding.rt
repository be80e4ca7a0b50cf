// Adding a value to what a key has.
ghost use Rattle.std.specs.Prelude.{◌≡◌, ◌≤◌, OnErr};
ghost use Rattle.table.specs.Rows.{SameMemory, Sound};
ghost use Rattle.tally.specs.Calls.{Adds};

use crate::sum::Sum;
use table::{Full, Key, Table};

// Adds a value to what a key has. A new key takes a row, which must not pass the limit or the memory.
pub fn add<K: Key, V: Sum>(
    table: &mut Table<K, V>,
    limit: usize,
    key: K,
    value: V,
) -> Result<(), Full>
    ensures lent { SameMemory table.old table.new }
    ensures grows { table.old.len ≤ table.new.len }
    ensures kept { OnErr result (table.new ≡ table.old) }
    ensures adds { Sound K.Key.less table.old → Adds K.Key.less V.Sum.sum limit key value table.old table.new result }
{
    let sum = table.find(&key).map_or(value, |old| old.plus(value));
    table.insert_within(limit, key, sum)?;
    Ok(())
}
