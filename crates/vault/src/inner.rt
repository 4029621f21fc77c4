// The vault: a store on a disk, and what it has of it in memory.

ghost use Rattle.std.specs.Prelude.{◌≡◌, ℕ, ◌+◌, ◌-◌, Err, IfErr, IfOk, IsTrue, MatchResult, None, OnOk, Some, option_copied};
ghost use Rattle.std.specs.FinMap as map;
ghost use Rattle.blob_base.specs.declared.faults.StoreRefusal.{StoreRefusal as Why};
ghost use Rattle.disk_model.specs.Disks.{OnlyReads, OnlyWrites};
ghost use Rattle.recover.specs.Faults.{CameFrom, IsRead};
ghost use Rattle.recover.specs.Openings.{BeginsAt, IsFound, IsMetadata, LeavesFound, MayLeaveFound, TookOpening};
ghost use Rattle.recover.specs.Turns.{IsTurnPage};
ghost use Rattle.recover.specs.declared.fault.RecoverFault.TheVariants.{Refused};
ghost use Rattle.relation.specs.Parts.{encoded_by};
ghost use Rattle.store_model.specs.Cost.{Cost, with_opening, with_turn};
ghost use Rattle.store_model.specs.Disk.{Took};
ghost use Rattle.store_model.specs.Images.{Settled};
ghost use Rattle.store_model.specs.Layout.{Layout};
ghost use Rattle.store_model.specs.Log.{body_pages};
ghost use Rattle.store_model.specs.Reading.{Found as StoreFound, IsWhole, Opened, Reads};
ghost use Rattle.store_model.specs.Standing.{AllHeld};
ghost use Rattle.store_model.specs.Store.{Store as ModelStore};
ghost use Rattle.store_model.specs.Survival.{ReadsAs};
ghost use Rattle.vault.specs.Crashes.{TurnLeaves};
ghost use Rattle.vault.specs.Faults.{IsShutBy, cause_of as model_cause};
ghost use Rattle.vault.specs.declared.fault.LeadFault.TheVariants.{Shut};
ghost use Rattle.vault.specs.Keeps.{HasImages, IsBegun};
ghost use Rattle.vault.specs.Leads.{Costs, IsOpenedAs, StoreStands};
ghost use Rattle.vault.specs.Vaults.{IsSound, IsVault, SameHeld, found_of, turned_log};

use crate::done::History;
use crate::fault::{Cause, LeadFault, OpenFailed, cause_of};
use crate::keeping::Keeping;
use crate::memory::Memory;
use blob_base::{IoFault, Key, OutOfMemory};
use blob_state::BlobState;
use disk_model::Disk;
use recover::{Found, RecoverFault, recover};
use relation::Relation;
use std::alloc::Global;

/// A store on a disk. Where a device call of a lead or a turn has failed, it is shut for good, and writes no more.
#[derive(Drop)]
pub struct Core<D> {
    pub disk: D,
    pub memory: Memory,
    pub shut: Option<Cause>,
    pub keeping: Keeping,
}

// What is held and kept of what was found on a disk.
fn begin(alloc: Global, found: Found) -> Result<(Memory, Keeping), OutOfMemory>
    requires { (pages : ℕ) × IsFound pages found }
    ensures sound { IfOk result (λ both. IsSound both.0) }
    ensures layout { IfOk result (λ both. both.0.layout ≡ found.layout) }
    ensures relation { IfOk result (λ both. both.0.relation ≡ found.relation) }
    ensures last { IfOk result (λ both. both.0.last ≡ found.last) }
    ensures log { IfOk result (λ both. both.0.log ≡ found.log) }
    ensures kept { IfOk result (λ both. IsBegun both.0.relation.states both.0.last both.1) }
{
    let memory = Memory::of_found(alloc, found)?;
    let keeping = Keeping::open(alloc, &memory.relation, memory.last)?;
    Ok((memory, keeping))
}

impl<D: Disk> Core<D> {
    /// Opens the store on a disk. Where it isn't opened, the disk comes back.
    pub(crate) fn open(alloc: Global, mut disk: D) -> Result<Core<D>, OpenFailed<D>>
        // The disk read as the store in memory, and reads as it now; the next frame goes behind the log's gate.
        ensures found { IsTrue D.tells → IfOk result (λ vault.
            Reads (D.size disk) (D.story disk).reads (Opened (found_of vault.memory))) }
        ensures keeps { IfOk result (λ vault. IsVault D.Disk vault.disk vault.memory vault.shut) }
        ensures shut { IfOk result (λ vault. vault.shut ≡ None) }
        ensures refused { IsTrue D.tells → IfErr result (λ failed. IsRead (D.size disk) (D.story disk).reads failed.fault) }
        ensures untouched { IfErr result (λ failed. (why : Why) → failed.fault ≡ Refused why → OnlyReads D.Disk disk failed.disk) }

        ensures kept { IfOk result (λ vault. IsBegun vault.memory.relation.states vault.memory.last vault.keeping) }

        // It cost a sync and a turn.
        ensures calls { IsTrue D.tells → IfOk result (λ vault.
            TookOpening (encoded_by vault.memory.relation.states) (D.calls disk) (D.calls vault.disk)) }
        ensures costs { (store : ModelStore) (cost : Cost) → IfOk result (λ vault. StoreStands vault.memory store
            → Costs D.Disk cost (with_opening store cost) disk vault.disk vault.memory) }

        // A store that the disk read as is the one in memory, and its contents are on the disk.
        ensures stands { IsTrue D.tells → (layout : Layout) (store : ModelStore) → ReadsAs (D.size disk) (D.story disk).reads layout store.objects store.last
            → IfOk result (λ vault. IsOpenedAs D.Disk layout store vault.disk vault.memory) }

        // Whatever store the disk read as, whole or not, is what a crash leaves at any moment from the return of the first sync on, and where
        // nothing was pending, from the call on.
        ensures survives { IsTrue D.tells → (found : StoreFound) (since : ℕ) → BeginsAt D.Disk disk since
            → Reads (D.size disk) (D.story disk).reads (Opened found)
            → MatchResult result (λ vault. LeavesFound D.Disk disk found since vault.disk) (λ failed. MayLeaveFound D.Disk disk found since failed.disk) }

        // Over a disk that read as a whole store, what is kept tells what crashes leave from then on.
        ensures images { IsTrue D.tells → (found : StoreFound) (since : ℕ) → BeginsAt D.Disk disk since → IsWhole (D.size disk) (D.story disk).reads found
            → IfOk result (λ vault. HasImages D.Disk vault since) }

        // No page of the data area was written, and a crash leaves each as before.
        ensures wrote { IfOk result (λ vault. OnlyWrites D.Disk (IsMetadata (D.size disk) (D.story disk).reads) disk vault.disk) }
        ensures wrote_failed { IfErr result (λ failed. OnlyWrites D.Disk (IsMetadata (D.size disk) (D.story disk).reads) disk failed.disk) }
        ensures failed { IfErr result (λ failed. CameFrom (D.faults disk) (D.faults failed.disk) failed.fault) }
    {
        let found = match recover(alloc, &mut disk) {
            Ok(found) => found,
            Err(fault) => return Err(OpenFailed { disk, fault }),
        };
        match begin(alloc, found) {
            Ok((memory, keeping)) => Ok(Core {
                disk,
                memory,
                shut: None,
                keeping,
            }),
            Err(OutOfMemory) => Err(OpenFailed {
                disk,
                fault: RecoverFault::OutOfMemory,
            }),
        }
    }

    /// The state of a key.
    pub(crate) fn look(&self, key: &Key) -> Option<&BlobState>
        ensures { option_copied result ≡ map.get self.now.memory.relation.states key.now }
    {
        self.memory.relation.get(key)
    }

    /// The states.
    pub(crate) fn relation(&self) -> &Relation
        ensures { result.now ≡ self.now.memory.relation }
    {
        &self.memory.relation
    }

    /// The number of the last entry.
    pub(crate) fn front(&self) -> u64
        ensures { result ≡ self.now.memory.last }
    {
        self.memory.last
    }

    /// The committed transactions since it was opened.
    pub(crate) fn history(&self) -> &History
        ensures { result.now ≡ self.now.keeping.history }
    {
        &self.keeping.history
    }

    /// Why it is shut, where it is.
    pub(crate) fn shut(&self) -> Option<Cause>
        ensures { result ≡ self.now.shut }
    {
        self.shut
    }

    /// Its disk. Where it wasn't shut, the disk reads as the store in memory, and a crash leaves just that.
    pub(crate) fn close(self) -> D
        requires { IsVault D.Disk self.disk self.memory self.shut }
        ensures disk { result ≡ self.disk }
        ensures reads { IsTrue D.tells → self.shut ≡ None → (store : ModelStore) → StoreStands self.memory store
            → AllHeld (D.story self.disk).reads self.memory.layout store.objects
            → ReadsAs (D.size result) (D.story result).reads self.memory.layout store.objects store.last × Settled (D.story result) }
    {
        self.disk
    }

    /// Is shut, since a device call failed.
    pub(crate) fn shut_for(&mut self, io: IoFault) -> LeadFault
        ensures fault { result ≡ Shut (model_cause io) }
        ensures shut { self.new.shut ≡ Some (model_cause io) }
        ensures disk { self.new.disk ≡ self.old.disk }
        ensures memory { self.new.memory ≡ self.old.memory }
        ensures keeping { self.new.keeping ≡ self.old.keeping }
    {
        let cause = cause_of(io);
        self.shut = Some(cause);
        LeadFault::Shut { cause }
    }

    /// Turns to the other half: writes the states to it, with a log of no bodies. A shut vault writes nothing.
    pub(crate) fn turn(&mut self) -> Result<(), LeadFault>
        requires { IsVault D.Disk self.old.disk self.old.memory self.old.shut }
        ensures keeps { IsVault D.Disk self.new.disk self.new.memory self.new.shut }
        ensures same { SameHeld self.old.memory self.new.memory }
        ensures keeping { self.new.keeping ≡ self.old.keeping }
        ensures log { OnOk result (self.new.memory.log ≡ turned_log self.old.memory.layout self.old.memory.log.half) }
        ensures ok { OnOk result (self.new.shut ≡ None) }
        ensures calls { IsTrue D.tells → OnOk result
            (Took 0 (body_pages (encoded_by self.old.memory.relation.states) + 3) 2 (D.calls self.old.disk) (D.calls self.new.disk)) }
        ensures costs { (store : ModelStore) (cost : Cost) → StoreStands self.old.memory store → cost.gate ≡ self.old.memory.log.gate
            → OnOk result (Costs D.Disk cost (with_turn store cost) self.old.disk self.new.disk self.new.memory) }

        // No page but those of the other half has changed, and the selector; and a crash leaves each other page as before.
        ensures wrote { OnlyWrites D.Disk (IsTurnPage self.old.memory.layout (1 - self.old.memory.log.half)) self.old.disk self.new.disk }

        // Whether it ends well or not, and whether the contents are whole or not, a crash at any moment of it leaves the store that it had.
        ensures survives { IsTrue D.tells → self.old.shut ≡ None → TurnLeaves D.Disk self.old.memory self.old.disk self.new.disk }

        // Whatever it answers, what is kept goes on telling what crashes leave.
        ensures images { IsTrue D.tells → (since : ℕ) → HasImages D.Disk self.old since → HasImages D.Disk self.new since }

        // A vault that was shut stays so, and writes nothing.
        ensures closed { (cause : Cause) → self.old.shut ≡ Some cause → (result ≡ Err (Shut cause)) × (self.new ≡ self.old) }
        ensures shut { IfErr result (IsShutBy self.old.shut (D.faults self.old.disk) (D.faults self.new.disk) (D.frugal self.old.disk) self.new.shut) }
    {
        if let Some(cause) = self.shut {
            return Err(LeadFault::Shut { cause });
        }
        match self.memory.turn(&mut self.disk) {
            Ok(()) => Ok(()),
            Err(io) => Err(self.shut_for(io)),
        }
    }
}
