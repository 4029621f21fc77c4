// The trait of disks.

ghost use Rattle.std.specs.Prelude.{◌≡◌, ℕ, ◌<◌, Bool, IsTrue, OnOk};
ghost use Rattle.blob_base.specs.Faults.{HasCause, OnMade, OnFailed};
ghost use Rattle.disk_model.specs.Frame.{Counted, KeepsDisk};
ghost use Rattle.store_model.specs.Disk.{Calls, with_page, with_read, with_write, with_sync};
ghost use Rattle.store_model.specs.Images.{Story, Settled, MayTear, MayStill, Stayed, Wrote};

use blob_base::{IoFault, PAGE_BYTES};

/// The bytes of a page.
pub type Page = [u8; PAGE_BYTES];

/// A disk of pages. It counts its faults, and the count never falls; a call answers `Failed` only where the count rose
/// in it. A frugal disk never answers `OutOfMemory`, and a call that does has changed nothing.
///
/// Between two syncs that answer Ok a crash may leave any bytes on each page that was written, or whose write failed,
/// and leaves the others as they are. After a sync that answers Ok it leaves what the disk reads as, and after a failed
/// one the same images as before it.
pub trait Disk {
    /// Whether it tells its story and its calls.
    ghost tells: { Bool };

    /// How many pages it has.
    ghost size: { Self → ℕ };

    /// Its time, what its pages read as, and which images a crash may leave.
    ghost story: { Self → Story };

    /// The calls that it took.
    ghost calls: { Self → Calls };

    /// How often it has failed.
    ghost faults: { Self → ℕ };

    /// It never answers `OutOfMemory`.
    ghost frugal: { Self → Bool };

    /// How many pages it has, which never changes.
    fn pages(&self) -> u32
        ensures { result ≡ size self.now };

    /// Reads a page.
    fn read(&mut self, page: u32, into: &mut Page) -> Result<(), IoFault>
        requires { page < size self.old }
        ensures bytes { IsTrue tells → OnOk result (into.new ≡ (story self.old).reads page) }
        ensures images { IsTrue tells → Stayed (story self.old) (story self.new) }
        ensures still { IsTrue tells → OnMade result (MayStill (story self.old) (story self.new)) }
        ensures counted { Counted tells story calls faults with_read self.old self.new result }
        ensures keeps { KeepsDisk size faults frugal self.old self.new }
        ensures cause { HasCause faults frugal self.old self.new result };

    /// Writes a page. Where it failed, the page may read as any bytes.
    fn write(&mut self, page: u32, from: &Page) -> Result<(), IoFault>
        requires { page < size self.old }
        ensures bytes { IsTrue tells
            → OnOk result ((story self.new).reads ≡ with_page (story self.old).reads page from.now) }
        ensures images { IsTrue tells → Wrote (λ p. p ≡ page) (story self.old) (story self.new) }
        ensures torn { IsTrue tells → OnMade result (MayTear page (story self.old) (story self.new)) }
        ensures counted { Counted tells story calls faults with_write self.old self.new result }
        ensures keeps { KeepsDisk size faults frugal self.old self.new }
        ensures cause { HasCause faults frugal self.old self.new result };

    /// Makes the writes so far last.
    fn sync(&mut self) -> Result<(), IoFault>
        ensures images { IsTrue tells → Stayed (story self.old) (story self.new) }
        ensures failed { IsTrue tells → OnFailed result (MayStill (story self.old) (story self.new)) }
        ensures settled { IsTrue tells → OnOk result (Settled (story self.new)) }
        ensures counted { Counted tells story calls faults with_sync self.old self.new result }
        ensures keeps { KeepsDisk size faults frugal self.old self.new }
        ensures cause { HasCause faults frugal self.old self.new result };
}
