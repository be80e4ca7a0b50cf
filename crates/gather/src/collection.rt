// What is gathered from pages.
use names::Name;
use table::Table;

// The most counted names, and the most occupied texts.
pub const ROW_LIMIT: usize = 4_096;

// The names that are counted, each with how often it stands in a page, and the texts that are occupied: their spellings
// stay in the page, and are given to no name.
#[derive(Drop)]
pub struct PropertyMangleCollection<'a> {
    pub frequencies: Table<'a, Name, u32>,
    pub occupied: Table<'a, Name, ()>,
}
