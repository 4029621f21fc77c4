//! A vault that is shared behind a lock: it is led there by its type alone.
#![tactic(auto)]

mod shared;
#[cfg(test)]
mod tests;

pub use shared::led;
