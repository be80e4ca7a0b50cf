// Where a key stands among rows in ascending order.
ghost use Rattle.std.specs.Prelude.{◌≡◌, ◌≤◌, length};
ghost use Rattle.std.specs.List.Sorted.{IsSearchInRange};
ghost use Rattle.table.specs.Maps.{Ascending, lookup};
ghost use Rattle.table.specs.Search.{Parted, Sought};

use crate::key::Key;
use crate::table::Entry;

// The place of the first of the rows that is not before the key.
fn place<K: Key, V: Copy>(rows: &[Entry<K, V>], key: &K) -> usize
    ensures within { result ≤ length rows.now }
    ensures parts { Ascending K.Key.less rows.now → Parted K.Key.less key.now rows.now result }
{
    rows.partition_point(|row| row.key.is_before(key))
}

// Where the row of an equivalent key stands, or else where a row for the key would come.
pub(crate) fn seek<K: Key, V: Copy>(rows: &[Entry<K, V>], key: &K) -> Result<usize, usize>
    ensures within { IsSearchInRange result (length rows.now) }
    ensures sought { Ascending K.Key.less rows.now → Sought K.Key.less key.now rows.now result }
{
    let at = place(rows, key);
    if at >= rows.len() {
        return Err(at);
    }
    let row = &rows[at];
    if key.is_before(&row.key) {
        Err(at)
    } else {
        Ok(at)
    }
}

// The value of a key in rows, where they have an equivalent one.
pub fn look_up<K: Key, V: Copy>(rows: &[Entry<K, V>], key: &K) -> Option<V>
    ensures { Ascending K.Key.less rows.now → result ≡ lookup K.Key.less key.now rows.now }
{
    let at = seek(rows, key).ok()?;
    Some(rows[at].value)
}
