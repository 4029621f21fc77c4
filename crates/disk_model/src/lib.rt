//! The disk: the trait `Disk`, the layout of its pages, and a disk in memory.
#![tactic(auto)]

mod area;
mod call;
mod disk;
mod layout;
mod memory;
mod page;
mod record;

pub use area::{append_page, append_pages, pages_for};
pub use call::Pick;
pub use disk::{Disk, Page};
pub use layout::Layout;
pub use memory::MemDisk;
pub use page::filled;
