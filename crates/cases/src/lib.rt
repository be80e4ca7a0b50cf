// Texts as the tables of cases write them: `~` and two digits stand for a byte, `{N:TEXT}` for the text N times,
// and any other byte for itself. It serves programs that replay tables, and so it takes an allocator, as the
// product's own libraries do not.
#![tactic(auto)]

mod digits;
mod expander;

pub use digits::number;
pub use expander::{expanded, expanded_in_64_bits};
