// An ordered map over memory that the caller lends.
#![tactic(auto)]

mod finding;
mod key;
mod shift;
mod table;

pub use crate::finding::look_up;
pub use crate::key::Key;
pub use crate::table::{Entry, Full, Table};
