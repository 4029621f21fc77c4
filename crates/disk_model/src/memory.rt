// A disk in memory.

ghost use Rattle.std.specs.Prelude.{◌≡◌, ◌+◌, ◌-◌, ◌^◌, ◌<◌, ◌≤◌, ◌↔◌, min, true, false, IsTrue, [], ◌∷◌, ◌++◌, length, take, OnOk, IfOk, IfErr};
ghost use Rattle.std.specs.List.{Contains};
ghost use Rattle.blob_base.specs.Faults.{CameFrom, HasCause, OnMade, OnFailed, OnNoMemory};
ghost use Rattle.disk_model.specs.Frame.{Counted, KeepsDisk};
ghost use Rattle.disk_model.specs.Calls.{calls_of, image_of, are_pending, crashed};
ghost use Rattle.disk_model.specs.Stories.{story_of};
ghost use Rattle.store_model.specs.Disk.{zero_page};
ghost use Rattle.store_model.specs.Images.{Settled};

use crate::call::{Call, Pick, Written};
use crate::record::{
    is_pending_after, last_put, last_written, put_again, put_calls, put_picks, read_count,
    sync_count, synced_count, write_count,
};
use crate::{Disk, Page};
use blob_base::{Bytes64, IoFault, OutOfMemory, PAGE_BYTES};
use std::alloc::Global;

/// A disk in memory that fails at chosen calls. It tells its pages and its images, keeps a record of all its calls, and
/// isn't frugal. A write that fails leaves its bytes on the page.
#[derive(Drop)]
pub struct MemDisk {
    alloc: Global,
    size: u32,
    fails: Bytes64,
    start: Vec<Written>,
    calls: Vec<Call>,
    faults: u64,
}

impl MemDisk {
    ghost use Rattle.disk_model.specs.Memory.{disk_story, disk_calls, disk_faults, disk_size, replay_at};

    /// A disk of that many pages, all zeros and nothing pending, that fails at the calls of these numbers, counted from
    /// 1.
    pub fn new(alloc: Global, pages: u32, fails: Bytes64) -> Result<MemDisk, OutOfMemory>
        ensures zeros { IfOk result (λ disk. (disk_story disk).reads ≡ λ _. zero_page) }
        ensures settled { IfOk result (λ disk. Settled (disk_story disk)) }
        ensures time { IfOk result (λ disk. (disk_story disk).time ≡ 0) }
        ensures none { IfOk result (λ disk. disk_calls disk ≡ record { reads = 0; writes = 0; syncs = 0 }) }
        ensures faults { IfOk result (λ disk. disk_faults disk ≡ 0) }
        ensures size { IfOk result (λ disk. disk_size disk ≡ pages) }
        ensures chosen { IfOk result (λ disk. disk.fails ≡ fails) }
    {
        Ok(MemDisk {
            alloc,
            size: pages,
            fails,
            start: Vec::new(alloc),
            calls: Vec::new(alloc),
            faults: 0,
        })
    }

    /// A disk as a crash behind the first `moment` calls leaves it: the picks stand on pages that were pending then, and
    /// each other page reads as at the last sync that answered Ok among those calls. Of two picks on one page the later
    /// one stands. Nothing is pending in it, it has taken no call yet, and none of its calls will fail.
    pub fn crash(&self, alloc: Global, moment: u64, picks: &[Pick]) -> Result<MemDisk, OutOfMemory>
        requires past { moment ≤ (disk_story self.now).time }
        requires pending { IsTrue (are_pending (replay_at self.now moment) picks.now) }
        ensures image { IfOk result (λ disk. (disk_story disk).reads ≡ crashed (replay_at self.now moment) picks.now) }
        ensures left { IfOk result (λ disk. (disk_story self.now).left moment (disk_story disk).reads) }
        ensures settled { IfOk result (λ disk. Settled (disk_story disk)) }
        ensures time { IfOk result (λ disk. (disk_story disk).time ≡ 0) }
        ensures none { IfOk result (λ disk. disk_calls disk ≡ record { reads = 0; writes = 0; syncs = 0 }) }
        ensures faults { IfOk result (λ disk. disk_faults disk ≡ 0) }
        ensures size { IfOk result (λ disk. disk_size disk ≡ disk_size self.now) }
        ensures chosen { IfOk result (λ disk. disk.fails ≡ []) }
    {
        let start = self.crashed_start(alloc, moment, picks)?;
        Ok(MemDisk {
            alloc,
            size: self.size,
            fails: Bytes64::new(alloc),
            start,
            calls: Vec::new(alloc),
            faults: 0,
        })
    }

    /// Whether a page was pending behind the first `moment` calls: it was written, or its write failed, and no sync that
    /// answered Ok came after that.
    pub fn is_pending(&self, moment: u64, page: u32) -> bool
        requires { moment ≤ (disk_story self.now).time }
        ensures { result ≡ (replay_at self.now moment).pending page }
    {
        is_pending_after(self.first_calls(moment), page)
    }

    /// How many reads, writes and syncs it took.
    pub fn calls(&self) -> (u64, u64, u64)
        ensures reads { result.0 ≡ (disk_calls self.now).reads }
        ensures writes { result.1 ≡ (disk_calls self.now).writes }
        ensures syncs { result.2 ≡ (disk_calls self.now).syncs }
        ensures time { result.0 + result.1 + result.2 ≡ (disk_story self.now).time }
        ensures fits { result.0 + result.1 + result.2 < 2 ^ 64 }
    {
        (
            read_count(&self.calls),
            write_count(&self.calls),
            sync_count(&self.calls),
        )
    }

    // The first calls that it took.
    fn first_calls(&self, count: u64) -> &[Call]
        requires { count ≤ length self.now.calls.items }
        ensures { result.now ≡ take count self.now.calls.items }
    {
        let (first, _) = self.calls.as_slice().split_at(count as usize);
        first
    }

    // What a disk begins with that a crash leaves.
    fn crashed_start(
        &self,
        alloc: Global,
        moment: u64,
        picks: &[Pick],
    ) -> Result<Vec<Written>, OutOfMemory>
        requires { moment ≤ length self.now.calls.items }
        ensures { IfOk result (λ start. image_of start.items ≡ crashed (replay_at self.now moment) picks.now) }
    {
        let past = self.first_calls(moment);
        let (synced, _) = past.split_at(synced_count(past));
        let mut start = Vec::new(alloc);
        put_again(alloc, &mut start, &self.start)?;
        put_calls(alloc, &mut start, synced)?;
        put_picks(alloc, &mut start, picks)?;
        Ok(start)
    }

    // What a page reads as.
    fn page_now(&self, page: u32) -> Page
        ensures { result ≡ (disk_story self.now).reads page }
    {
        match last_written(&self.calls, page) {
            Some(bytes) => *bytes,
            None => self.first_page(page),
        }
    }

    // What a page read as before the first call.
    fn first_page(&self, page: u32) -> Page
        ensures { result ≡ image_of self.now.start.items page }
    {
        match last_put(&self.start, page) {
            Some(bytes) => *bytes,
            None => [0; PAGE_BYTES],
        }
    }

    // Whether the next call is one of those that are to fail.
    fn is_next_to_fail(&self) -> bool
        ensures { IsTrue result ↔ Contains self.now.fails (length self.now.calls.items + 1) }
    {
        let number = self.calls.len() as u64 + 1;
        self.fails.as_slice().contains(&number)
    }

    // Records a call, and answers as was chosen.
    fn take(&mut self, call: Call, fails: bool) -> Result<(), IoFault>
        ensures made { OnMade result (self.new.calls.items ≡ self.old.calls.items ++ call ∷ []) }
        ensures unmade { OnNoMemory result (self.new.calls.items ≡ self.old.calls.items) }
        ensures chosen { OnOk result (fails ≡ false) }
        ensures failed { OnFailed result (fails ≡ true) }
        ensures start { self.new.start ≡ self.old.start }
        ensures size { self.new.size ≡ self.old.size }
        ensures fails { self.new.fails ≡ self.old.fails }
        ensures faulted { OnFailed result (self.new.faults ≡ min (self.old.faults + 1) (2 ^ 64 - 1)) }
        ensures faultless { OnOk result (self.new.faults ≡ self.old.faults) }
        ensures faults { self.old.faults ≤ self.new.faults }
        ensures raised { OnNoMemory result (self.new.faults ≡ self.old.faults) }
        ensures cause { IfErr result (λ e. CameFrom e self.old.faults self.new.faults false) }
    {
        if self.calls.push(call).is_err() {
            return Err(IoFault::OutOfMemory);
        }
        if fails {
            self.faults = self.faults.saturating_add(1);
            return Err(IoFault::Failed);
        }
        Ok(())
    }
}

impl Disk for MemDisk {
    ghost use Rattle.disk_model.specs.Memory.{AsChosen, disk_story, disk_calls, disk_faults, disk_frugal, disk_size};
    ghost use Rattle.store_model.specs.Disk.{with_page, with_read, with_write, with_sync};
    ghost use Rattle.store_model.specs.Images.{MayStill, MayTear, Settled, Stayed, Wrote};

    ghost tells = { true };

    ghost size = { λ disk. disk.size };

    ghost story = { λ disk. story_of disk.start.items disk.calls.items };

    ghost calls = { λ disk. calls_of disk.calls.items };

    ghost faults = { λ disk. disk.faults };

    ghost frugal = { λ _. false };

    fn pages(&self) -> u32 {
        self.size
    }

    fn read(&mut self, page: u32, into: &mut Page) -> Result<(), IoFault>
        ensures bytes { OnOk result (into.new ≡ (disk_story self.old).reads page) }
        ensures images { Stayed (disk_story self.old) (disk_story self.new) }
        ensures still { OnMade result (MayStill (disk_story self.old) (disk_story self.new)) }
        ensures counted { Counted true disk_story disk_calls disk_faults with_read self.old self.new result }
        ensures keeps { KeepsDisk disk_size disk_faults disk_frugal self.old self.new }
        ensures cause { HasCause disk_faults disk_frugal self.old self.new result }
        ensures chosen { AsChosen self.old self.new result }
    {
        let fails = self.is_next_to_fail();
        let answer = self.take(Call::Read, fails);
        if answer.is_ok() {
            *into = self.page_now(page);
        }
        answer
    }

    fn write(&mut self, page: u32, from: &Page) -> Result<(), IoFault>
        ensures bytes { OnOk result
            ((disk_story self.new).reads ≡ with_page (disk_story self.old).reads page from.now) }
        ensures images { Wrote (λ p. p ≡ page) (disk_story self.old) (disk_story self.new) }
        ensures torn { OnMade result (MayTear page (disk_story self.old) (disk_story self.new)) }
        ensures counted { Counted true disk_story disk_calls disk_faults with_write self.old self.new result }
        ensures keeps { KeepsDisk disk_size disk_faults disk_frugal self.old self.new }
        ensures cause { HasCause disk_faults disk_frugal self.old self.new result }
        ensures chosen { AsChosen self.old self.new result }
    {
        let Ok(bytes) = Box::new(self.alloc, *from) else {
            return Err(IoFault::OutOfMemory);
        };
        let fails = self.is_next_to_fail();
        self.take(Call::Write(Written { page, bytes }), fails)
    }

    fn sync(&mut self) -> Result<(), IoFault>
        ensures images { Stayed (disk_story self.old) (disk_story self.new) }
        ensures failed { OnFailed result (MayStill (disk_story self.old) (disk_story self.new)) }
        ensures settled { OnOk result (Settled (disk_story self.new)) }
        ensures counted { Counted true disk_story disk_calls disk_faults with_sync self.old self.new result }
        ensures keeps { KeepsDisk disk_size disk_faults disk_frugal self.old self.new }
        ensures cause { HasCause disk_faults disk_frugal self.old self.new result }
        ensures chosen { AsChosen self.old self.new result }
    {
        let fails = self.is_next_to_fail();
        self.take(Call::Sync { done: !fails }, fails)
    }
}
