//! The program over any source, sink and disk: a store is formatted, shown or checked, and a script's lines are read and answered one
//! by one over a store that lasts.
#![tactic(auto)]

mod fault;
mod forms;
mod line;
mod look;
mod run;
mod session;
mod showing;
mod world;

pub use forms::{layout_of, run_alone};
