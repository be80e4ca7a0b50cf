// Where names stand in a page: the two walks over its tree, and what each position is.
#![tactic(auto)]

mod page;
mod role;
mod walk;

pub use page::{Page, PageOptions};
pub use role::{Role, classify};
pub use walk::is_walked_as_key;
