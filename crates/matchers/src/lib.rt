// Sets of names that tell whether a name is in them.
#![tactic(auto)]

mod matcher;
mod option;
mod pattern;
mod walk;
mod without;
mod word_list;

pub use matcher::Matcher;
pub use pattern::Pattern;
pub use without::Without;
pub use word_list::WordList;
