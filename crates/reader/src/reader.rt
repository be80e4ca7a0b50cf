// The reader of listings.
ghost use Rattle.std.specs.Prelude.{◌≤◌};

use crate::open::{Open, State};
use pages::LEVEL_LIMIT;

// What it waits for, an entry for each open bracket, how many nodes and text bytes it has read, and the
// lowest node that it found misshapen. The entries are an array and a depth, since a library crate uses no
// heap.
#[derive(Drop)]
pub struct Reader {
    pub state: State,
    pub stack: [Open; LEVEL_LIMIT],
    pub depth: usize,
    pub nodes: usize,
    pub bytes: usize,
    pub fault: Option<usize>,
    ghost few: { depth ≤ 64 },
}
