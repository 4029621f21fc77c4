// A disk that records its calls.

ghost use Rattle.std.specs.Prelude.{false};
ghost use Rattle.disk_model.specs.Memory.{disk_faults, disk_size};
ghost use Rattle.disk_model.specs.Disks.{untold};

use crate::trial::{Ended, new_disk, talk_on};
use blob_base::IoFault;
use disk_model::{Disk, MemDisk, Page};
use std::alloc::Global;
use std::process::Abort;

/// A call that a disk was given, with its page.
#[derive(Clone, Copy, Debug, PartialEq, Eq)]
pub(crate) enum Given {
    Read(u32),
    Write(u32),
    Sync,
}

/// A disk in memory, and the calls that it was given, in their order.
#[derive(Drop)]
pub(crate) struct Recorder {
    pub(crate) disk: MemDisk,
    given: Vec<Given>,
}

impl Recorder {
    /// A disk that has been given no call.
    pub(crate) fn over(alloc: Global, disk: MemDisk) -> Recorder {
        Recorder {
            disk,
            given: Vec::new(alloc),
        }
    }

    /// Behind the first `count` calls it was given these, and others may follow.
    pub(crate) fn expect_at<R: Abort>(&self, rt: &R, count: usize, given: &[Given]) {
        let rest = self.given.as_slice().get(count..).unwrap_or(&[]);
        assert!(rt; rest.starts_with(given), "{count}");
    }

    /// Behind the first `count` calls it was given these and no others.
    pub(crate) fn expect_rest<R: Abort>(&self, rt: &R, count: usize, given: &[Given]) {
        let rest = self.given.as_slice().get(count..).unwrap_or(&[]);
        assert!(rt; rest == given, "{rest:?}");
    }
}

impl Disk for Recorder {
    ghost tells = { false };

    ghost size = { λ recorder. disk_size recorder.disk };

    ghost story = { λ _. untold };

    ghost calls = { λ _. record { reads = 0; writes = 0; syncs = 0 } };

    ghost faults = { λ recorder. disk_faults recorder.disk };

    ghost frugal = { λ _. false };

    fn pages(&self) -> u32 {
        self.disk.pages()
    }

    fn read(&mut self, page: u32, into: &mut Page) -> Result<(), IoFault> {
        let _ = self.given.push(Given::Read(page));
        self.disk.read(page, into)
    }

    fn write(&mut self, page: u32, from: &Page) -> Result<(), IoFault> {
        let _ = self.given.push(Given::Write(page));
        self.disk.write(page, from)
    }

    fn sync(&mut self) -> Result<(), IoFault> {
        let _ = self.given.push(Given::Sync);
        self.disk.sync()
    }
}

/// Runs a script in the smallest store over a disk that records its calls, and compares its answers.
pub(crate) fn talk_recorded<R: Abort + AllocGlobal>(
    rt: &R,
    parts: &[(&str, &str)],
) -> Ended<Recorder> {
    let disk = Recorder::over(rt.alloc(), new_disk(rt));
    talk_on(rt, "fresh s 1 1", disk, parts)
}
