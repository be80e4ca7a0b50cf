// Giving a key a value in a table, or refusing it.
ghost use Rattle.std.specs.Prelude.{◌≡◌, None, OnErr};
ghost use Rattle.options.specs.Giving.{Gives};
ghost use Rattle.table.specs.Rows.{Sound, SameMemory};

use pages::Refusal;
use table::{Full, Key, Table};

// Gives a key a value, under a limit on the rows.
pub(crate) fn give<'b, K: Key, V: Copy>(
    table: &mut Table<K, V>,
    limit: usize,
    key: K,
    value: V,
) -> Result<(), Refusal<'b>>
    ensures lent { SameMemory table.old table.new }
    ensures refused { OnErr result (table.new ≡ table.old) }
    ensures gives { Sound K.Key.less table.old → Gives K.Key.less limit None key value table.old table.new result }
{
    table
        .insert_within(limit, key, value)
        .map_err(|_| Refusal::Overfull)?;
    Ok(())
}
