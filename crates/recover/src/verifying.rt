// Whether the states verify that writes set.

ghost use Rattle.std.specs.Prelude.{ℕ, ◌≡◌, ◌≤◌, false, map, IfOk, IsTrue};
ghost use Rattle.std.specs.List.{All};
ghost use Rattle.disk_model.specs.Disks.{Caused, OnlyReads};
ghost use Rattle.frame_codec.specs.Values.{model_write};
ghost use Rattle.store_model.specs.Cost.{Reads};
ghost use Rattle.store_model.specs.Frame.{IsWrite};
ghost use Rattle.store_model.specs.Layout.{data_pages, total_pages};
ghost use Rattle.store_model.specs.Reading.{DoesWriteVerify};

use blob_base::IoFault;
use disk_model::{Disk, Layout};
use extent_io::{Verdict, verify};
use frame_codec::{Write, Writes};

// Whether the state verifies that a write sets.
fn write_verifies<D: Disk>(disk: &mut D, layout: Layout, one: &Write) -> Result<bool, IoFault>
    requires disk { total_pages layout ≤ D.size disk.old }
    requires write { (number : ℕ) × IsWrite (data_pages layout) number (model_write one.now) }
    ensures verifies { IsTrue D.tells → IfOk result (λ is. IsTrue is → DoesWriteVerify (D.story disk.old).reads layout (model_write one.now)) }
    ensures fails { IsTrue D.tells → IfOk result (λ is. is ≡ false → DoesWriteVerify (D.story disk.old).reads layout (model_write one.now) → ⊥) }
    ensures still { IsTrue D.tells → Reads (D.calls disk.old) (D.calls disk.new) }
    ensures only { OnlyReads D.Disk disk.old disk.new }
    ensures cause { Caused D.Disk disk.old disk.new result }
{
    match one {
        Write::Set { state, .. } => match verify(disk, layout, state)? {
            Verdict::Whole => Ok(true),
            Verdict::Damaged { .. } => Ok(false),
        },
        Write::Del { .. } => Ok(true),
    }
}

/// Whether all the states verify that writes set.
pub(crate) fn verifies<D: Disk>(
    disk: &mut D,
    layout: Layout,
    writes: &Writes,
) -> Result<bool, IoFault>
    requires disk { total_pages layout ≤ D.size disk.old }
    requires writes { (number : ℕ) × All (IsWrite (data_pages layout) number) (map model_write writes.now) }
    ensures verifies { IsTrue D.tells → IfOk result (λ is. IsTrue is
        → All (DoesWriteVerify (D.story disk.old).reads layout) (map model_write writes.now)) }
    ensures fails { IsTrue D.tells → IfOk result (λ is. is ≡ false
        → All (DoesWriteVerify (D.story disk.old).reads layout) (map model_write writes.now) → ⊥) }
    ensures still { IsTrue D.tells → Reads (D.calls disk.old) (D.calls disk.new) }
    ensures only { OnlyReads D.Disk disk.old disk.new }
    ensures cause { Caused D.Disk disk.old disk.new result }
{
    'verified: for i in 0..writes.len() {
        let does_verify = write_verifies(disk, layout, writes.get(i))?;
        if !does_verify {
            return Ok(false);
        }
    }
    Ok(true)
}
