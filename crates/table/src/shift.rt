// Making way for an entry.
ghost use Rattle.std.specs.Prelude.{◌<◌, ◌≤◌, length};
ghost use Rattle.table.specs.Search.{PutIn};

use crate::table::Entry;

// Puts an entry at a place among the first `len` entries, and those from there on one higher. Lent only
// `self.entries[..=len]`, it would leave a memory of which the check knows nothing but the length.
pub(crate) fn put_in<K: Copy, V: Copy>(
    entries: &mut [Entry<K, V>],
    len: usize,
    at: usize,
    entry: Entry<K, V>,
)
    requires { (at ≤ len) × (len < length entries.old) }
    ensures { PutIn entries.old len at entry entries.new }
{
    // It comes behind the others, and all from its place on turn by one: one move of the memory, where `copy_within`
    // takes each entry by itself.
    entries[len] = entry;
    entries[at..=len].rotate_right(1);
}
