//! Contents on the pages of a disk: writing the pages of a content to the places of its state, and reading bytes of it back.
#![tactic(auto)]

mod checking;
mod gathering;
mod links;
mod places;
mod pouring;
mod verdict;
mod verifying;

pub use checking::check;
pub use gathering::gather;
pub use pouring::pour;
pub use verdict::Verdict;
pub use verifying::verify;
