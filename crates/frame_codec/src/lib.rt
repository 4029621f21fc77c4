//! Entries: what a committed transaction writes to the log, and the stored form of those that are written together.
#![tactic(auto)]

mod decode;
mod encode;
mod entry;
mod fault;
mod fields;
mod read_write;
mod standing;
mod writes;

pub use decode::decode_frame;
pub use encode::{append_entry, encode_frame};
pub use entry::{Entries, Entry, Write};
pub use fault::FrameFault;
pub use writes::{MAX_WRITES, Writes};
