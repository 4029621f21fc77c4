//! Transactions: what a session reads and changes, and the request that its commit makes of it.
#![tactic(auto)]

mod change;
mod refusal;
mod request;
mod txn;

pub use change::{Change, Drafted, Extension};
pub use refusal::TxnRefusal;
pub use request::{Changes, Reads, Request};
pub use txn::{Read, Txn};
