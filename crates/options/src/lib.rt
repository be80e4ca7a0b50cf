// What a caller gives beside its pages: the cache, the reserved words, and the places of annotated keys.
#![tactic(auto)]

mod cache;
mod give;
mod given;
mod places;
mod words;

pub use cache::{CACHE_LIMIT, ManglePropertyCache};
pub use given::checked_name;
pub use places::{PLACE_LIMIT, Places};
pub use words::{ReservedWords, WORD_LIMIT};
