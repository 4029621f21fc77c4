// The turn to a half that is written anew.

ghost use Rattle.std.specs.Prelude.{◌≡◌, ◌+◌, ◌-◌, ◌*◌, ◌/◌, ◌<◌, ◌≤◌, [], OnOk, IsTrue};
ghost use Rattle.std.specs.FinMap.{FinMap, entries};
ghost use Rattle.check_point.specs.Halves.{Stand};
ghost use Rattle.check_point.specs.Writers.{HasTaken};
ghost use Rattle.disk_model.specs.Disks.{Caused, OnlyWrites};
ghost use Rattle.recover.specs.Turns.{InTurn, IsTurnPage, IsTurned, found_by};
ghost use Rattle.relation.specs.Parts.{encoded_by};
ghost use Rattle.store_model.specs.Disk.{Took, page_bytes};
ghost use Rattle.store_model.specs.Half.{IsHalf, tuples_spelling};
ghost use Rattle.store_model.specs.Images.{Within};
ghost use Rattle.store_model.specs.Key.{key_order};
ghost use Rattle.store_model.specs.Layout.{states_page, total_pages};
ghost use Rattle.store_model.specs.Log.{body_pages};
ghost use Rattle.store_model.specs.Reading.{Opened, Reads, blocks_of_states};
ghost use Rattle.store_model.specs.Space.{Apart};
ghost use Rattle.store_model.specs.State.{State};

use blob_base::IoFault;
use check_point::{HalfWriter, flip};
use disk_model::{Disk, Layout};
use relation::Relation;

// Puts the states into the writer of a half.
fn put_all<D: Disk>(
    disk: &mut D,
    writer: &mut HalfWriter,
    relation: &Relation,
) -> Result<(), IoFault>
    requires disk { total_pages writer.old.layout ≤ D.size disk.old }
    requires room { encoded_by relation.now.states ≤ page_bytes * writer.old.layout.room }
    requires none { HasTaken writer.old [] }
    ensures taken { OnOk result (HasTaken writer.new (entries relation.now.states)) }
    ensures bytes { OnOk result (writer.new.taken ≡ encoded_by relation.now.states) }
    ensures reads { IsTrue D.tells → OnOk result
        (Stand (states_page writer.old.layout writer.old.half) (writer.new.taken / page_bytes) (tuples_spelling relation.now.states)
        (D.story disk.new).reads) }
    ensures layout { writer.new.layout ≡ writer.old.layout }
    ensures half { writer.new.half ≡ writer.old.half }
    ensures last { writer.new.last ≡ writer.old.last }
    ensures wrote { OnlyWrites D.Disk (Within (states_page writer.old.layout writer.old.half) writer.old.layout.room) disk.old disk.new }
    ensures writes { IsTrue D.tells → OnOk result (Took 0 (writer.new.taken / page_bytes) 0 (D.calls disk.old) (D.calls disk.new)) }
    ensures cause { Caused D.Disk disk.old disk.new result }
{
    'put: for i in 0..relation.len() {
        let (key, state) = relation.nth(i);
        writer.put(disk, key, state)?;
    }
    Ok(())
}

/// Ends a half to which these states were written, and turns to it. After a fault the disk's selector may read as any bytes.
pub(crate) fn turn_to<D: Disk>(disk: &mut D, writer: HalfWriter, half: u32) -> Result<(), IoFault>
    requires disk { total_pages writer.layout ≤ D.size disk.old }
    requires half { half ≡ writer.half }
    ensures reads { IsTrue D.tells → (states : FinMap key_order State) → IsHalf writer.layout writer.last states
        → HasTaken writer (entries states)
        → Stand (states_page writer.layout writer.half) (writer.taken / page_bytes) (tuples_spelling states) (D.story disk.old).reads
        → Apart (blocks_of_states states)
        → OnOk result (Reads (D.size disk.old) (D.story disk.new).reads (Opened (found_by writer.layout writer.last states))) }
    ensures turned { IsTrue D.tells → OnOk result (IsTurned (D.story disk.new) writer.half) }
    ensures windows { (states : FinMap key_order State) → IsHalf writer.layout writer.last states → HasTaken writer (entries states)
        → (IsTrue D.tells → Stand (states_page writer.layout writer.half) (writer.taken / page_bytes) (tuples_spelling states) (D.story disk.old).reads)
        → InTurn D.Disk writer.layout writer.half writer.last states disk.old disk.new }
    ensures wrote { OnlyWrites D.Disk (IsTurnPage writer.layout writer.half) disk.old disk.new }
    ensures calls { IsTrue D.tells → OnOk result
        (Took 0 (body_pages writer.taken - writer.taken / page_bytes + 3) 2 (D.calls disk.old) (D.calls disk.new)) }
    ensures cause { Caused D.Disk disk.old disk.new result }
{
    writer.finish(disk)?;
    disk.sync()?;
    flip(disk, half)?;
    disk.sync()
}

/// Writes states to a half, with a log of no bodies, and turns to it: from then on the disk reads as a store of these states.
/// After a fault some pages of this half may have been written, and the selector may read as any bytes.
pub fn turn<D: Disk>(
    disk: &mut D,
    layout: Layout,
    half: u32,
    last: u64,
    relation: &Relation,
) -> Result<(), IoFault>
    requires half { half < 2 }
    requires disk { total_pages layout ≤ D.size disk.old }
    requires states { IsHalf layout last relation.now.states }
    ensures reads { IsTrue D.tells → Apart (blocks_of_states relation.now.states)
        → OnOk result (Reads (D.size disk.old) (D.story disk.new).reads (Opened (found_by layout last relation.now.states))) }
    ensures turned { IsTrue D.tells → OnOk result (IsTurned (D.story disk.new) half) }

    // The half's pages are written first, and the selector behind a sync, where the half holds the states.
    ensures windows { InTurn D.Disk layout half last relation.now.states disk.old disk.new }

    // No other page has changed, and a crash leaves each other page as before.
    ensures wrote { OnlyWrites D.Disk (IsTurnPage layout half) disk.old disk.new }
    ensures calls { IsTrue D.tells → OnOk result
        (Took 0 (body_pages (encoded_by relation.now.states) + 3) 2 (D.calls disk.old) (D.calls disk.new)) }
    ensures cause { Caused D.Disk disk.old disk.new result }
{
    let mut writer = HalfWriter::start(layout, half, last);
    put_all(disk, &mut writer, relation)?;
    turn_to(disk, writer, half)
}
