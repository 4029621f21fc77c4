//! Where the bytes of a script come from and where answers go: the traits `Source` and `Sink`, the ends over memory
//! and over std's readers and writers.
#![tactic(auto)]

mod memory;
mod streams;
mod traits;
mod writing;

pub use memory::{MemSink, MemSource};
pub use streams::{StdSink, StdSource};
pub use traits::{Sink, Source};
pub use writing::{PutFault, put_all};
