// Tables of values that add up: counted names, and plain sets.
#![tactic(auto)]

mod adding;
mod merging;
mod sum;

pub use crate::adding::add;
pub use crate::merging::{merge, merged_len};
pub use crate::sum::Sum;
