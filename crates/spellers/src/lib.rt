// Spellers: which new names an original name may get, and in which order they are tried.
#![tactic(auto)]

mod debug;
mod short;
mod speller;

pub use debug::{DebugSpeller, debug_name};
pub use short::{ShortSpeller, ShortSpelling, base54};
pub use speller::{LIST_LIMIT, Speller};
