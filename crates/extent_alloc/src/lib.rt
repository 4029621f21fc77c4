//! The free space of a data area: which blocks of pages are owned, and the least free place of a tier.
#![tactic(auto)]

mod blocks;
mod faults;
mod space;

pub use faults::{BuildFault, NoSpace};
pub use space::Space;
