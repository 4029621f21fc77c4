//! The objects of a store: a map from keys to states, which stay where they are in memory.
#![tactic(auto)]

mod changes;
mod entries;
mod relation;

pub use changes::apply;
pub use relation::Relation;
