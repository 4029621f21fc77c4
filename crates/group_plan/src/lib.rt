//! Groups: the requests at the front of a queue that are committed together, and the places that they take.
#![tactic(auto)]

mod giving;
mod judging;
mod placing;
mod plan;
mod takings;
mod touching;

pub use plan::{Plan, Queue, Replies, Reply, plan_group};
