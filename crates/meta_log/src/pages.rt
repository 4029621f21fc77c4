// The pages of a body.

ghost use Rattle.std.specs.Prelude.{◌≡◌, ℕ, ◌+◌, ◌^◌, ◌<◌, ◌≤◌, length, IsTrue, OnOk};
ghost use Rattle.disk_model.specs.Disks.{Caused, OnlyWrites};
ghost use Rattle.store_model.specs.Disk.{Took};
ghost use Rattle.store_model.specs.Images.{Within};
ghost use Rattle.store_model.specs.Log.{body_page, body_pages};

use blob_base::{IoFault, PAGE_BYTES};
use disk_model::{Disk, Page, filled, pages_for};

/// The least number of pages that hold a body.
pub(crate) fn pages_of(body: &[u8]) -> u32
    requires { length body.now < 2 ^ 32 }
    ensures { result ≡ body_pages (length body.now) }
{
    pages_for(body.len())
}

// Page `number` of a body, which has zeros behind the body's last byte.
fn page(body: &[u8], number: u32) -> Page
    requires { number < 2 ^ 20 }
    ensures { result ≡ body_page body.now number }
{
    let start = (PAGE_BYTES * number as usize).min(body.len());
    let (_, rest) = body.split_at(start);
    let (piece, _) = rest.split_at(PAGE_BYTES.min(rest.len()));
    filled(piece)
}

/// Writes the first `count` pages of a body from page `first` on. Those behind its last byte are pages of zeros.
pub(crate) fn write_pages<D: Disk>(
    disk: &mut D,
    first: u32,
    count: u32,
    body: &[u8],
) -> Result<(), IoFault>
    requires within { first + count ≤ D.size disk.old }
    requires most { first + count < 2 ^ 20 }
    ensures reads { IsTrue D.tells → OnOk result ((i : ℕ) → i < count
        → (D.story disk.new).reads (first + i) ≡ body_page body.now i) }
    ensures wrote { OnlyWrites D.Disk (Within first count) disk.old disk.new }
    ensures calls { IsTrue D.tells → OnOk result (Took 0 count 0 (D.calls disk.old) (D.calls disk.new)) }
    ensures cause { Caused D.Disk disk.old disk.new result }
{
    for number in 0..count {
        disk.write(first + number, &page(body, number))?;
    }
    Ok(())
}
