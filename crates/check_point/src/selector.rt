// The selector, page 0: which half counts.

ghost use Rattle.std.specs.Prelude.{◌≡◌, ◌<◌, ◌≤◌, IsTrue, IfOk, OnOk};
ghost use Rattle.disk_model.specs.Disks.{Caused, OnlyReads, OnlyWrites};
ghost use Rattle.store_model.specs.Disk.{Took};
ghost use Rattle.store_model.specs.Half.{picked};
ghost use Rattle.check_point.specs.Selectors.{selector_page};

use blob_base::{IoFault, PAGE_BYTES};
use disk_model::{Disk, Page, filled};

/// Writes the selector, so that it picks this half. After a fault the selector may read as any bytes.
pub fn flip<D: Disk>(disk: &mut D, half: u32) -> Result<(), IoFault>
    requires half { half < 2 }
    requires disk { 1 ≤ D.size disk.old }
    ensures page { IsTrue D.tells → OnOk result ((D.story disk.new).reads 0 ≡ selector_page half) }
    ensures picked { IsTrue D.tells → OnOk result (picked ((D.story disk.new).reads 0) ≡ half) }

    // No other page has changed, and a crash leaves each other page as before.
    ensures wrote { OnlyWrites D.Disk (λ p. p ≡ 0) disk.old disk.new }
    ensures writes { IsTrue D.tells → OnOk result (Took 0 1 0 (D.calls disk.old) (D.calls disk.new)) }
    ensures cause { Caused D.Disk disk.old disk.new result }
{
    disk.write(0, &selector(half))
}

/// Reads which half the selector picks.
pub fn pick<D: Disk>(disk: &mut D) -> Result<u32, IoFault>
    requires { 1 ≤ D.size disk.old }
    ensures half { IfOk result (λ half. half < 2) }
    ensures picked { IsTrue D.tells → IfOk result (λ half. half ≡ picked ((D.story disk.old).reads 0)) }
    ensures read { OnlyReads D.Disk disk.old disk.new }
    ensures reads { IsTrue D.tells → OnOk result (Took 1 0 0 (D.calls disk.old) (D.calls disk.new)) }
    ensures cause { Caused D.Disk disk.old disk.new result }
{
    let mut page = [0; PAGE_BYTES];
    disk.read(0, &mut page)?;
    let (text, _) = page.split_at(8);
    if text == b"HALFONE1".as_slice() {
        Ok(1)
    } else {
        Ok(0)
    }
}

// The selector's page that picks a half.
fn selector(half: u32) -> Page
    requires { half < 2 }
    ensures page { result ≡ selector_page half }
    ensures picked { picked result ≡ half }
{
    if half == 1 {
        filled(b"HALFONE1")
    } else {
        [0; PAGE_BYTES]
    }
}
