//! The log area of a half: its gates, and the bodies behind them.
#![tactic(auto)]

mod fault;
mod log;
mod pages;
mod read;

pub use fault::LayFault;
pub use log::Log;
pub use read::{Bodies, Body, BodyList, ReadFault};
