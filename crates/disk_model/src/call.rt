// What a disk in memory records.

ghost use Rattle.store_model.specs.Disk.{IsPage};

use crate::Page;

/// The bytes that a crash leaves on a page.
#[derive(Clone, Copy, Debug, PartialEq, Eq)]
pub struct Pick {
    pub page: u32,
    pub bytes: Page,
}

/// Bytes that were written to a page.
#[derive(Drop)]
pub(crate) struct Written {
    pub(crate) page: u32,
    pub(crate) bytes: Box<Page>,
    pub(crate) ghost whole: { IsPage bytes.value },
}

/// A call that a disk in memory took. A sync is done where it answered Ok.
#[derive(Drop)]
pub(crate) enum Call {
    Read,
    Write(Written),
    Sync { done: bool },
}
