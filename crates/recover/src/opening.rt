// The opening of a disk.

ghost use Rattle.std.specs.Prelude.{◌≡◌, ℕ, ◌<◌, ◌≤◌, [], Err, IfErr, IfOk, IsTrue, MatchResult, OnOk};
ghost use Rattle.blob_base.specs.declared.faults.StoreRefusal.{StoreRefusal as Why};
ghost use Rattle.disk_model.specs.Disks.{OnlyReads, OnlyWrites};
ghost use Rattle.recover.specs.Faults.{CameFrom, IsOfHalf, IsOfSpace, IsRead};
ghost use Rattle.recover.specs.Frames.{IsSound};
ghost use Rattle.recover.specs.Openings.{BeginsAt, IsFound, IsMetadata, LeavesFound, MayLeaveFound, TookOpening, found_of};
ghost use Rattle.recover.specs.Turns.{IsTurned};
ghost use Rattle.recover.specs.declared.fault.RecoverFault.TheVariants.{Refused};
ghost use Rattle.relation.specs.Parts.{encoded_by};
ghost use Rattle.store_model.specs.Cost as cost;
ghost use Rattle.store_model.specs.Drops.{Drops};
ghost use Rattle.store_model.specs.HalfRefusals.{FindsHalf};
ghost use Rattle.store_model.specs.Layout.{total_pages};
ghost use Rattle.store_model.specs.Reading.{Found as StoreFound, Opened, Reads, blocks_of_states};
ghost use Rattle.store_model.specs.Space.{Apart};

use crate::fault::{RecoverFault, of_half};
use crate::frames::Held;
use crate::start::relation_of;
use crate::turning::turn;
use blob_base::{Numbers, StoreRefusal};
use check_point::{pick, read_half};
use disk_model::{Disk, Layout};
use extent_alloc::{BuildFault, Space};
use meta_log::Log;
use relation::Relation;
use std::alloc::Global;

// How many pages the smallest store takes.
const LEAST_PAGES: u32 = 2053;

/// A store that was opened: its layout, the number of its last entry, its states, the numbers of the entries of the log's last
/// frame that were dropped, in their order, and its log, which has no bodies.
#[derive(Drop)]
pub struct Found {
    pub layout: Layout,
    pub last: u64,
    pub relation: Relation,
    pub dropped: Numbers,
    pub log: Log,
}

// The states of a half, as it tells them.
fn open_half<D: Disk>(alloc: Global, disk: &mut D, half: u32) -> Result<Held, RecoverFault>
    requires half { half < 2 }
    requires disk { LEAST_PAGES ≤ D.size disk.old }
    ensures found { IsTrue D.tells → IfOk result (λ held.
        FindsHalf (D.size disk.old) (D.story disk.old).reads half held.layout held.last held.relation.states) }
    ensures refused { IsTrue D.tells → IfErr result (IsOfHalf (D.size disk.old) (D.story disk.old).reads half) }
    ensures none { IfOk result (λ held. held.dropped ≡ []) }
    ensures sound { IfOk result IsSound }
    ensures fits { IfOk result (λ held. total_pages held.layout ≤ D.size disk.old) }
    ensures still { IsTrue D.tells → OnOk result (cost.Reads (D.calls disk.old) (D.calls disk.new)) }
    ensures only { OnlyReads D.Disk disk.old disk.new }
    ensures failed { IfErr result (CameFrom (D.faults disk.old) (D.faults disk.new)) }
{
    let found = match read_half(alloc, disk, half) {
        Ok(found) => found,
        Err(fault) => return Err(of_half(half, fault)),
    };
    let layout = found.layout;
    layout.rules();
    let relation = relation_of(alloc, found.states)?;
    Ok(Held {
        layout,
        last: found.last,
        relation,
        dropped: Numbers::new(alloc),
    })
}

// Whether no page is owned twice.
fn check_apart(alloc: Global, held: &Held) -> Result<(), RecoverFault>
    requires { IsSound held.now }
    ensures apart { OnOk result (Apart (blocks_of_states held.now.relation.states)) }
    ensures twice { IfErr result (IsOfSpace (blocks_of_states held.now.relation.states)) }
{
    let owned = held.relation.owned(alloc)?;
    match Space::build(alloc, &owned, held.layout.data_pages()) {
        Ok(_) => Ok(()),
        Err(BuildFault::OwnedTwice { page }) => Err(RecoverFault::Refused {
            why: StoreRefusal::OwnedTwice { page },
        }),
        Err(BuildFault::OutOfMemory) => Err(RecoverFault::OutOfMemory),
    }
}

/// Opens a disk: reads the half that the selector picks and the bodies of its log, and then turns to the other half, which
/// has what was found, and no bodies. Where the disk is refused, nothing was written.
pub fn recover<D: Disk>(alloc: Global, disk: &mut D) -> Result<Found, RecoverFault>
    ensures found { IsTrue D.tells → IfOk result (λ found.
        Reads (D.size disk.old) (D.story disk.old).reads (Opened (found_of found))) }
    ensures turned { IsTrue D.tells → IfOk result (λ found.
        Reads (D.size disk.old) (D.story disk.new).reads (Opened (found_of found))) }
    ensures at { IsTrue D.tells → IfOk result (λ found. IsTurned (D.story disk.new) found.log.half) }
    ensures dropped { IsTrue D.tells → IfOk result (λ found. Drops (D.size disk.old) (D.story disk.old).reads found.dropped) }
    ensures refused { IsTrue D.tells → IfErr result (IsRead (D.size disk.old) (D.story disk.old).reads) }
    ensures untouched { (why : Why) → result ≡ Err (Refused why) → OnlyReads D.Disk disk.old disk.new }

    // Whatever the disk tells, what was found is a store that fits it.
    ensures sound { IfOk result (λ found. IsFound (D.size disk.old) found) }

    // It cost the writes of a turn, and a sync before it.
    ensures calls { IsTrue D.tells → IfOk result (λ found.
        TookOpening (encoded_by found.relation.states) (D.calls disk.old) (D.calls disk.new)) }

    // A store that the disk read as survives a crash at each moment from the return of its first sync on and, where nothing was
    // pending, from the call on; or no further call was made, as that sync didn't return well.
    ensures survives { IsTrue D.tells → (found : StoreFound) (since : ℕ) → BeginsAt D.Disk disk.old since
        → Reads (D.size disk.old) (D.story disk.old).reads (Opened found)
        → MatchResult result
        (λ _. LeavesFound D.Disk disk.old found since disk.new) (λ _. MayLeaveFound D.Disk disk.old found since disk.new) }

    // No page of the data area was written, and a crash leaves each as before.
    ensures wrote { OnlyWrites D.Disk (IsMetadata (D.size disk.old) (D.story disk.old).reads) disk.old disk.new }
    ensures failed { IfErr result (CameFrom (D.faults disk.old) (D.faults disk.new)) }
{
    disk.sync()?;
    let pages = disk.pages();
    if pages < LEAST_PAGES {
        return Err(RecoverFault::Refused {
            why: StoreRefusal::TooSmall {
                need: u64::from(LEAST_PAGES),
                have: u64::from(pages),
            },
        });
    }
    let half = pick(disk)?;
    let mut held = open_half(alloc, disk, half)?;
    held.take_log(alloc, disk, half)?;
    check_apart(alloc, &held)?;
    let other = 1 - half;
    turn(disk, held.layout, other, held.last, &held.relation)?;
    let log = Log::start(held.layout, other);
    Ok(Found {
        layout: held.layout,
        last: held.last,
        relation: held.relation,
        dropped: held.dropped,
        log,
    })
}
