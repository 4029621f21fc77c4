// What a vault has in memory: the states, the log at which its disk stands, and the places that the states own.

ghost use Rattle.std.specs.Prelude.{◌≡◌, ℕ, ◌+◌, ◌-◌, ◌≤◌, IfOk, None, OnErr, OnOk, IsTrue};
ghost use Rattle.std.specs.List.Sorted.{IsPermutation};
ghost use Rattle.disk_model.specs.Disks.{Caused, OnlyWrites};
ghost use Rattle.recover.specs.Openings.{IsFound};
ghost use Rattle.recover.specs.Turns.{InTurn, IsTurnPage};
ghost use Rattle.relation.specs.Parts.{encoded_by, owned_by};
ghost use Rattle.store_model.specs.Disk.{Took};
ghost use Rattle.store_model.specs.Half.{IsHalf};
ghost use Rattle.store_model.specs.Layout.{data_pages, total_pages};
ghost use Rattle.store_model.specs.Log.{body_pages};
ghost use Rattle.store_model.specs.Reading.{blocks_of_states};
ghost use Rattle.store_model.specs.Space.{Apart};
ghost use Rattle.vault.specs.Vaults.{IsAtRest, IsHeld, IsSound, SameHeld, SameStore, turned_log};

use blob_base::{IoFault, OutOfMemory};
use disk_model::{Disk, Layout};
use extent_alloc::{BuildFault, Space};
use meta_log::Log;
use recover::{Found, turn};
use relation::Relation;
use std::alloc::Global;

/// What a vault has in memory. The space is none where a group was given up; it is built anew from the states.
#[derive(Drop)]
pub struct Memory {
    pub layout: Layout,
    pub relation: Relation,
    pub space: Option<Space>,
    pub log: Log,
    pub last: u64,
}

// The space of the places that states own.
fn space_of(alloc: Global, layout: Layout, relation: &Relation) -> Result<Space, OutOfMemory>
    requires half { (last : ℕ) × IsHalf layout last relation.now.states }
    requires apart { Apart (blocks_of_states relation.now.states) }
    ensures owned { IfOk result (λ space. IsPermutation space.owned (owned_by relation.now.states)) }
    ensures pages { IfOk result (λ space. space.pages ≡ data_pages layout) }
{
    let owned = relation.owned(alloc)?;
    match Space::build(alloc, &owned, layout.data_pages()) {
        Ok(space) => Ok(space),
        Err(BuildFault::OwnedTwice { .. }) => unreachable!(),
        Err(BuildFault::OutOfMemory) => Err(OutOfMemory),
    }
}

impl Memory {
    /// What was found on a disk.
    pub(crate) fn of_found(alloc: Global, found: Found) -> Result<Memory, OutOfMemory>
        requires { (pages : ℕ) × IsFound pages found }
        ensures sound { IfOk result IsSound }
        ensures layout { IfOk result (λ mine. mine.layout ≡ found.layout) }
        ensures relation { IfOk result (λ mine. mine.relation ≡ found.relation) }
        ensures last { IfOk result (λ mine. mine.last ≡ found.last) }
        ensures log { IfOk result (λ mine. mine.log ≡ found.log) }
    {
        let space = space_of(alloc, found.layout, &found.relation)?;
        Ok(Memory {
            layout: found.layout,
            relation: found.relation,
            space: Some(space),
            log: found.log,
            last: found.last,
        })
    }

    /// Takes the space out, or builds it where there is none.
    pub(crate) fn take_space(&mut self, alloc: Global) -> Result<Space, OutOfMemory>
        requires held { IsHeld self.old }
        ensures owned { IfOk result (λ space. IsPermutation space.owned (owned_by self.old.relation.states)) }
        ensures pages { IfOk result (λ space. space.pages ≡ data_pages self.old.layout) }
        ensures held { IsHeld self.new }
        ensures same { SameStore self.old self.new }
        ensures none { self.new.space ≡ None }
    {
        match self.space.take() {
            Some(space) => Ok(space),
            None => space_of(alloc, self.layout, &self.relation),
        }
    }

    /// Turns to the other half, whose log has no bodies.
    pub(crate) fn turn<D: Disk>(&mut self, disk: &mut D) -> Result<(), IoFault>
        requires sound { IsSound self.old }
        requires disk { total_pages self.old.layout ≤ D.size disk.old }
        ensures rest { IsTrue D.tells → OnOk result (IsAtRest (D.size disk.new) (D.story disk.new) self.new) }
        ensures log { OnOk result (self.new.log ≡ turned_log self.old.layout self.old.log.half) }
        ensures sound { IsSound self.new }
        ensures same { SameHeld self.old self.new }
        ensures err { OnErr result (self.new ≡ self.old) }

        ensures windows { InTurn D.Disk self.old.layout (1 - self.old.log.half) self.old.last self.old.relation.states disk.old disk.new }

        // No other page has changed, and a crash leaves each other page as before.
        ensures wrote { OnlyWrites D.Disk (IsTurnPage self.old.layout (1 - self.old.log.half)) disk.old disk.new }
        ensures calls { IsTrue D.tells → OnOk result
            (Took 0 (body_pages (encoded_by self.old.relation.states) + 3) 2 (D.calls disk.old) (D.calls disk.new)) }
        ensures cause { Caused D.Disk disk.old disk.new result }
    {
        self.log.rules();
        let other = 1 - self.log.half();
        turn(disk, self.layout, other, self.last, &self.relation)?;
        self.log = Log::start(self.layout, other);
        Ok(())
    }
}
