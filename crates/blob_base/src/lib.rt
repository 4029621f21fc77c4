//! Keys, bytes and the other lists, and the faults that calls answer.
#![tactic(auto)]

mod faults;
mod key;
mod key_list;
mod lists;
mod page;

pub use faults::{IoFault, OutOfMemory, StoreRefusal};
pub use key::{BadKey, Key};
pub use key_list::KeyList;
pub use lists::{Bytes, Bytes64, Keys, Listed, Names, Numbers, Owned, Word};
pub use page::PAGE_BYTES;
