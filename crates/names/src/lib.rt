// Names of at most 255 bytes, their order, and which texts may be names.
#![tactic(auto)]

mod identifier;
mod key;
mod name;
mod words;

pub use identifier::is_identifier_name;
pub use name::{NAME_LIMIT, NAMELESS, Name};
pub use words::{is_foreign, is_hard_name, is_valid_property_mangle_cache_target};
