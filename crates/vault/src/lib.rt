//! The vault: a store on a disk, with its states in memory. A lead writes the frame of the group at the front of a queue to the log,
//! then the contents, and opens the frame's gate.
#![tactic(auto)]

mod done;
mod fault;
mod group;
mod inner;
mod keeping;
mod knowing;
mod laying;
mod leaving;
mod making;
mod memory;
mod pouring;
mod reading;
mod vault;
mod writing;

pub use done::{Done, History, Prints};
pub use fault::{Cause, GatherFault, LeadFault, OpenFailed};
pub use inner::Core;
pub use keeping::{Keeping, Opened};
pub use memory::Memory;
pub use vault::Vault;
