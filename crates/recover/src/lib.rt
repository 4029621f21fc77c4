//! Opening: what a disk tells of a store, and the turn to its other half; and the format of a new disk.
#![tactic(auto)]

mod fault;
mod formatting;
mod frames;
mod opening;
mod start;
mod turning;
mod verifying;

pub use fault::RecoverFault;
pub use formatting::format;
pub use opening::{Found, recover};
pub use turning::turn;
