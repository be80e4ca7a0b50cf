// Gathers the property names of a page: which are there, how often, and which texts are occupied.
#![tactic(auto)]

mod collection;
mod gather;
mod gatherer;
mod note;
mod starts;
mod walk;

pub use collection::{PropertyMangleCollection, ROW_LIMIT};
