//! Check points: which half of the metadata counts, and how a half is written anew.
#![tactic(auto)]

mod fields;
mod half;
mod header;
mod pages;
mod read;
mod selector;
mod tuples;

pub use half::HalfWriter;
pub use read::{HalfFault, HalfFound, read_half};
pub use selector::{flip, pick};
pub use tuples::{Keyed, Tuples};
