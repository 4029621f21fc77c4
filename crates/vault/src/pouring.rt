// The contents of the entries of a group, written to the places of the states that they set.

ghost use Rattle.std.specs.Prelude.{◌≤◌, zip, OnOk, IsTrue};
ghost use Rattle.std.specs.List.{All, sum_by};
ghost use Rattle.disk_model.specs.Disks.{Caused, OnlyWrites};
ghost use Rattle.store_model.specs.Disk.{Took};
ghost use Rattle.store_model.specs.Layout.{data_pages, total_pages};
ghost use Rattle.store_model.specs.Space.{Apart, AreBlocks};
ghost use Rattle.vault.specs.Pours.{AreAt, AreTold, AreWrittenBy, IsPourPage, Poured, pour_blocks, pour_pages, pours_by, pours_of, pours_of_all, requests_at};

use blob_base::{IoFault, Listed};
use disk_model::{Disk, Layout};
use extent_io::pour;
use frame_codec::{Entries, Entry, Write};
use group_plan::Queue;
use txn::{Change, Request};

// Writes the content that a change puts to the place of the state that is written for it.
fn pour_write<D: Disk>(
    disk: &mut D,
    layout: Layout,
    change: &Change,
    write: &Write,
) -> Result<(), IoFault>
    requires told { AreTold (pours_by change.now write.now) }
    requires disk { total_pages layout ≤ D.size disk.old }
    requires within { AreBlocks (data_pages layout) (pour_blocks (pours_by change.now write.now)) }
    requires apart { Apart (pour_blocks (pours_by change.now write.now)) }
    ensures poured { IsTrue D.tells → OnOk result (All (Poured (D.story disk.new).reads layout) (pours_by change.now write.now)) }
    ensures wrote { OnlyWrites D.Disk (IsPourPage layout (pours_by change.now write.now)) disk.old disk.new }
    ensures writes { IsTrue D.tells → OnOk result
        (Took 0 (sum_by pour_pages (pours_by change.now write.now)) 0 (D.calls disk.old) (D.calls disk.new)) }
    ensures cause { Caused D.Disk disk.old disk.new result }
{
    if let (Change::Put { drafted }, Write::Set { state, .. }) = (change, write) {
        pour(disk, layout, state, 0, drafted.content())?;
    }
    Ok(())
}

// Writes the contents that a request puts to the places of the states that its entry sets.
fn pour_entry<D: Disk>(
    disk: &mut D,
    layout: Layout,
    request: &Request,
    entry: &Entry,
) -> Result<(), IoFault>
    requires written { AreWrittenBy request.now entry.now }
    requires disk { total_pages layout ≤ D.size disk.old }
    requires within { AreBlocks (data_pages layout) (pour_blocks (pours_of (request.now, entry.now))) }
    requires apart { Apart (pour_blocks (pours_of (request.now, entry.now))) }
    ensures poured { IsTrue D.tells → OnOk result (All (Poured (D.story disk.new).reads layout) (pours_of (request.now, entry.now))) }
    ensures wrote { OnlyWrites D.Disk (IsPourPage layout (pours_of (request.now, entry.now))) disk.old disk.new }
    ensures writes { IsTrue D.tells → OnOk result
        (Took 0 (sum_by pour_pages (pours_of (request.now, entry.now))) 0 (D.calls disk.old) (D.calls disk.new)) }
    ensures cause { Caused D.Disk disk.old disk.new result }
{
    'poured: for i in 0..entry.writes.len() {
        let (_, change) = request.writes.nth(i);
        pour_write(disk, layout, change, entry.writes.get(i))?;
    }
    Ok(())
}

/// Writes the contents of entries in their order, each with the request in the queue that it is of.
pub(crate) fn pour_all<D: Disk>(
    disk: &mut D,
    layout: Layout,
    queue: &Queue,
    entries: &Entries,
    members: &Listed<usize>,
) -> Result<(), IoFault>
    requires places { AreAt queue.now entries.now members.now }
    requires disk { total_pages layout ≤ D.size disk.old }
    requires within { AreBlocks (data_pages layout) (pour_blocks (pours_of_all (zip (requests_at queue.now members.now) entries.now))) }
    requires apart { Apart (pour_blocks (pours_of_all (zip (requests_at queue.now members.now) entries.now))) }
    ensures poured { IsTrue D.tells → OnOk result
        (All (Poured (D.story disk.new).reads layout) (pours_of_all (zip (requests_at queue.now members.now) entries.now))) }
    ensures wrote { OnlyWrites D.Disk
        (IsPourPage layout (pours_of_all (zip (requests_at queue.now members.now) entries.now))) disk.old disk.new }
    ensures writes { IsTrue D.tells → OnOk result
        (Took 0 (sum_by pour_pages (pours_of_all (zip (requests_at queue.now members.now) entries.now))) 0 (D.calls disk.old) (D.calls disk.new)) }
    ensures cause { Caused D.Disk disk.old disk.new result }
{
    'poured: for i in 0..entries.len() {
        let request = queue.get(*members.get(i));
        pour_entry(disk, layout, request, entries.get(i))?;
    }
    Ok(())
}
