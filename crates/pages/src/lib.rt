// The page tree as rows: what a node is, which rows form a lawful tree, and what is refused.
#![tactic(auto)]

mod kind;
mod memory;
mod refusal;
mod row;
mod shape;

pub use kind::Kind;
pub use memory::clear;
pub use refusal::Refusal;
pub use row::{
    CLEARED, Flags, LEVEL_LIMIT, NO_FLAGS, NODE_LIMIT, Nodes, Part, Row, TEXT_LIMIT,
    is_within_limits,
};
pub use shape::{Place, is_shapely};
