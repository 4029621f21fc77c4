//! Formatting a store, showing it and checking it: what these runs do with a disk, and what they print.
#![tactic(auto)]

mod checking;
mod formatting;
mod printing;
mod showing;
mod status;

pub use checking::run_check;
pub use formatting::run_format;
pub use printing::print;
pub use showing::run_show;
pub use status::opening_status;
