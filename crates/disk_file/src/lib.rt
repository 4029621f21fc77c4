//! A file as a disk: `FileDisk`, with one page a system call and nothing between a page's buffer and the system.
//!
//! ```rust
//! use disk_file::FileDisk;
//! use blob_base::PAGE_BYTES;
//! use disk_model::Disk;
//!
//! let mut disk = FileDisk::create(&rt, "store.img", 16)?;
//! disk.write(3, &[7; PAGE_BYTES])?;
//! disk.sync()?;
//! ```
#![tactic(auto)]

mod failed;
mod file;

pub use failed::OpenFailed;
pub use file::FileDisk;
