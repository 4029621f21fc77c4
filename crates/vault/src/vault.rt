// The vault: a store on a disk that keeps its rules by its type.

ghost use Rattle.std.specs.Prelude.{◌≡◌, ℕ, ◌+◌, ◌-◌, ◌≤◌, ◌⊎◌, [], Err, IfErr, IfOk, IsErrOf, IsTrue, MatchResult, None, OnErr, OnOk, Some, drop, length, map as each, option_copied, ◌≢◌, List, Ok, min, take};
ghost use Rattle.blob_base.specs.declared.faults.StoreRefusal.{StoreRefusal as Why};
ghost use Rattle.disk_model.specs.Disks.{OnlyReads, OnlyWrites};
ghost use Rattle.extent_io.specs.declared.verdict.Verdict.TheVariants.{Damaged, Whole};
ghost use Rattle.group_plan.specs.Plans.{committed, members_of, model_reply};
ghost use Rattle.recover.specs.Faults.{CameFrom, IsRead};
ghost use Rattle.recover.specs.Openings.{BeginsAt, IsMetadata, LeavesFound, MayLeaveFound, TookOpening};
ghost use Rattle.recover.specs.Turns.{IsTurnPage};
ghost use Rattle.recover.specs.declared.fault.RecoverFault.TheVariants.{Refused};
ghost use Rattle.relation.specs.Parts.{encoded_by};
ghost use Rattle.std.specs.FinMap as map;
ghost use Rattle.store_model.specs.Cost.{Cost, with_opening, with_turn};
ghost use Rattle.store_model.specs.Disk.{Took};
ghost use Rattle.store_model.specs.Group.{commits_of, reply_of};
ghost use Rattle.store_model.specs.Holds.{Holds, pages_across};
ghost use Rattle.store_model.specs.Images.{Settled};
ghost use Rattle.store_model.specs.Layout.{Layout, data_page};
ghost use Rattle.store_model.specs.Log.{body_pages};
ghost use Rattle.store_model.specs.Reading.{Found as StoreFound, IsWhole, Opened, Reads};
ghost use Rattle.store_model.specs.Standing.{AllHeld};
ghost use Rattle.store_model.specs.State.{State};
ghost use Rattle.store_model.specs.Store.{Store as ModelStore};
ghost use Rattle.store_model.specs.Survival.{ReadsAs};
ghost use Rattle.store_model.specs.Verify.{FailsFirst, IsDamage, LeadsTo, Verifies, computed};
ghost use Rattle.vault.specs.Crashes.{LeadRests, LeadSurvives, TurnLeaves};
ghost use Rattle.vault.specs.Faults.{IsShutBy, IsUnread};
ghost use Rattle.vault.specs.Frames.{IsLeftUnmade, IsOnlyRead};
ghost use Rattle.vault.specs.Keeps.{HasFailed, HasImages, HasKept, IsBegun};
ghost use Rattle.vault.specs.Leads.{Costs, IsOpenedAs, Led, MayHaveWritten, StoreStands, ledger_in};
ghost use Rattle.vault.specs.Pours.{AreWhole};
ghost use Rattle.vault.specs.Vaults.{IsUnmade, IsVault, SameHeld, found_of, turned_log, number_at};
ghost use Rattle.vault.specs.declared.fault.Cause.{Cause};
ghost use Rattle.vault.specs.declared.fault.GatherFault.TheVariants as gather_fault;
ghost use Rattle.vault.specs.declared.fault.LeadFault.TheVariants as lead_fault;
ghost use Rattle.vault.specs.declared.fault.LeadFault.TheVariants.{Shut};

use crate::done::History;
use crate::fault::{Cause, GatherFault, LeadFault, OpenFailed};
use crate::inner::Core;
use crate::keeping::Keeping;
use blob_base::Key;
use blob_state::BlobState;
use disk_model::{Disk, Layout};
use extent_io::Verdict;
use group_plan::{Queue, Replies};
use relation::Relation;
use std::alloc::Global;
use std::marker::Model;

/// A store on a disk. Where a device call of a lead or a turn has failed, it is shut for good, and writes no more. Whatever a call
/// answers, the vault keeps its rules ([`Vault::rules`]), so that it may lie behind a lock.
#[derive(Drop)]
pub struct Vault<D: Disk> {
    core: Core<D>,
}

impl<D: Disk> Model for Vault<D> {
    ghost use Rattle.std.specs.Coded.{codes};
    ghost use Rattle.relation.specs.Parts.{parts_code};
    ghost use Rattle.vault.specs.Vaults.{IsVault};
    ghost use Rattle.vault.specs.Codes.{reads_code};
    ghost use Rattle.vault.specs.declared.inner.Core.{Core};

    ghost Value = { Core D };

    ghost coded = { Prim.hlevel (D.code, parts_code, reads_code, codes) };

    ghost view = { λ vault. vault.core };

    ghost invariant = { λ vault. IsVault D.Disk vault.core.disk vault.core.memory vault.core.shut };
}

impl<D: Disk> Vault<D> {
    /// Opens the store on a disk. Where it isn't opened, the disk comes back.
    pub fn open(alloc: Global, disk: D) -> Result<Vault<D>, OpenFailed<D>>
        // The disk read as the store in memory, and reads as it now; the next frame goes behind the log's gate.
        ensures found { IsTrue D.tells → IfOk result (λ vault.
            Reads (D.size disk) (D.story disk).reads (Opened (found_of vault.memory))) }
        ensures shut { IfOk result (λ vault. vault.shut ≡ None) }
        ensures refused { IsTrue D.tells → IfErr result (λ failed. IsRead (D.size disk) (D.story disk).reads failed.fault) }
        ensures untouched { IfErr result (λ failed. (why : Why) → failed.fault ≡ Refused why → OnlyReads D.Disk disk failed.disk) }
        ensures kept { IfOk result (λ vault. IsBegun vault.memory.relation.states vault.memory.last vault.keeping) }

        // It cost a sync and a turn.
        ensures calls { IsTrue D.tells → IfOk result (λ vault.
            TookOpening (encoded_by vault.memory.relation.states) (D.calls disk) (D.calls vault.disk)) }
        ensures costs { (store : ModelStore) (cost : Cost) → IfOk result (λ vault. StoreStands vault.memory store
            → Costs D.Disk cost (with_opening store cost) disk vault.disk vault.memory) }

        // A store that the disk read as is the one in memory, and its contents are on the disk.
        ensures stands { IsTrue D.tells → (layout : Layout) (store : ModelStore) → ReadsAs (D.size disk) (D.story disk).reads layout store.objects store.last
            → IfOk result (λ vault. IsOpenedAs D.Disk layout store vault.disk vault.memory) }

        // Whatever store the disk read as, whole or not, is what a crash leaves at any moment from the return of the first sync on, and where
        // nothing was pending, from the call on.
        ensures survives { IsTrue D.tells → (found : StoreFound) (since : ℕ) → BeginsAt D.Disk disk since
            → Reads (D.size disk) (D.story disk).reads (Opened found)
            → MatchResult result (λ vault. LeavesFound D.Disk disk found since vault.disk) (λ failed. MayLeaveFound D.Disk disk found since failed.disk) }

        // Over a disk that read as a whole store, what is kept tells what crashes leave from then on.
        ensures images { IsTrue D.tells → (found : StoreFound) (since : ℕ) → BeginsAt D.Disk disk since → IsWhole (D.size disk) (D.story disk).reads found
            → IfOk result (λ vault. HasImages D.Disk vault since) }

        // No page of the data area was written, and a crash leaves each as before.
        ensures wrote { IfOk result (λ vault. OnlyWrites D.Disk (IsMetadata (D.size disk) (D.story disk).reads) disk vault.disk) }
        ensures wrote_failed { IfErr result (λ failed. OnlyWrites D.Disk (IsMetadata (D.size disk) (D.story disk).reads) disk failed.disk) }
        ensures failed { IfErr result (λ failed. CameFrom (D.faults disk) (D.faults failed.disk) failed.fault) }
    {
        match Core::open(alloc, disk) {
            Ok(core) => Ok(Vault { core }),
            Err(failed) => Err(failed),
        }
    }

    /// The state of a key.
    pub fn look(&self, key: &Key) -> Option<&BlobState>
        ensures { option_copied result ≡ map.get self.now.memory.relation.states key.now }
    {
        self.core.look(key)
    }

    /// The states.
    pub fn relation(&self) -> &Relation
        ensures { result.now ≡ self.now.memory.relation }
    {
        self.core.relation()
    }

    /// The number of the last entry.
    pub fn front(&self) -> u64
        ensures { result ≡ self.now.memory.last }
    {
        self.core.front()
    }

    /// The committed transactions since it was opened.
    pub fn history(&self) -> &History
        ensures { result.now ≡ self.now.keeping.history }
    {
        self.core.history()
    }

    /// Why it is shut, where it is.
    pub fn shut(&self) -> Option<Cause>
        ensures { result ≡ self.now.shut }
    {
        self.core.shut()
    }

    /// The layout of the store.
    pub fn layout(&self) -> Layout
        ensures { result ≡ self.now.memory.layout }
    {
        self.core.memory.layout
    }

    /// What it keeps of its opening, and of what it has done.
    pub fn keeping(&self) -> &Keeping
        ensures { result.now ≡ self.now.keeping }
    {
        &self.core.keeping
    }

    /// Its disk.
    pub fn disk(&self) -> &D
        ensures { result.now ≡ self.now.disk }
    {
        &self.core.disk
    }

    /// What each vault keeps: its states are those that a half may have, no page is owned twice, and where it isn't shut, its disk
    /// reads as the store in memory, and a crash leaves just that.
    pub fn rules(&self)
        ensures { IsVault D.Disk self.now.disk self.now.memory self.now.shut }
    {
        let _ = &self.core;
    }

    /// Its disk. Where it wasn't shut, the disk reads as the store in memory, and a crash leaves just that.
    pub fn close(self) -> D
        ensures disk { result ≡ self.disk }
        ensures reads { IsTrue D.tells → self.shut ≡ None → (store : ModelStore) → StoreStands self.memory store
            → AllHeld (D.story self.disk).reads self.memory.layout store.objects
            → ReadsAs (D.size result) (D.story result).reads self.memory.layout store.objects store.last × Settled (D.story result) }
    {
        self.core.close()
    }

    /// Turns to the other half: writes the states to it, with a log of no bodies. A shut vault writes nothing.
    pub fn turn(&mut self) -> Result<(), LeadFault>
        ensures same { SameHeld self.old.memory self.new.memory }
        ensures keeping { self.new.keeping ≡ self.old.keeping }
        ensures log { OnOk result (self.new.memory.log ≡ turned_log self.old.memory.layout self.old.memory.log.half) }
        ensures ok { OnOk result (self.new.shut ≡ None) }
        ensures calls { IsTrue D.tells → OnOk result
            (Took 0 (body_pages (encoded_by self.old.memory.relation.states) + 3) 2 (D.calls self.old.disk) (D.calls self.new.disk)) }
        ensures costs { (store : ModelStore) (cost : Cost) → StoreStands self.old.memory store → cost.gate ≡ self.old.memory.log.gate
            → OnOk result (Costs D.Disk cost (with_turn store cost) self.old.disk self.new.disk self.new.memory) }

        // No page but those of the other half has changed, and the selector; and a crash leaves each other page as before.
        ensures wrote { OnlyWrites D.Disk (IsTurnPage self.old.memory.layout (1 - self.old.memory.log.half)) self.old.disk self.new.disk }

        // Whether it ends well or not, and whether the contents are whole or not, a crash at any moment of it leaves the store that it had.
        ensures survives { IsTrue D.tells → self.old.shut ≡ None → TurnLeaves D.Disk self.old.memory self.old.disk self.new.disk }

        // Whatever it answers, what is kept goes on telling what crashes leave.
        ensures images { IsTrue D.tells → (since : ℕ) → HasImages D.Disk self.old since → HasImages D.Disk self.new since }

        // A vault that was shut stays so, and writes nothing.
        ensures closed { (cause : Cause) → self.old.shut ≡ Some cause → (result ≡ Err (Shut cause)) × (self.new ≡ self.old) }
        ensures shut { IfErr result (IsShutBy self.old.shut (D.faults self.old.disk) (D.faults self.new.disk) (D.frugal self.old.disk) self.new.shut) }
    {
        self.core.turn()
    }

    /// Commits the group at the front of a queue, takes its members out of the queue, and answers the replies to them. A group
    /// without a committing member writes nothing, and nor does a shut vault. Where there is no memory, nothing was written, and
    /// all is as before.
    pub fn lead(&mut self, alloc: Global, queue: &mut Queue) -> Result<Replies, LeadFault>
        requires whole { AreWhole queue.old }
        requires few { length queue.old ≤ 16 }
        ensures layout { self.new.memory.layout ≡ self.old.memory.layout }
        ensures led { (store : ModelStore) → StoreStands self.old.memory store
            → IfOk result (λ replies. Led D.Disk self.old.disk self.new.disk self.old.memory store queue.old
            (members_of (ledger_in self.old.memory) queue.old) replies self.new.memory) }

        // Whatever store memory is at, the group is judged by what memory has, and one without a commit changes nothing.
        ensures replied { IfOk result (λ replies. each model_reply replies ≡ each reply_of (members_of (ledger_in self.old.memory) queue.old)) }
        ensures idle { commits_of (members_of (ledger_in self.old.memory) queue.old) ≡ []
            → OnOk result (IsUnmade self.old.disk self.new.disk self.old.memory self.new.memory self.old.shut self.new.shut) }
        ensures wrote { (self.new.disk ≡ self.old.disk) ⊎ MayHaveWritten D.Disk self.old.memory queue.old
            (members_of (ledger_in self.old.memory) queue.old) self.old.disk self.new.disk }
        ensures few { IfOk result (λ replies. length replies ≤ length queue.old) }
        ensures left { IfOk result (λ replies. queue.new ≡ drop (length replies) queue.old) }
        ensures stays { OnErr result (queue.new ≡ queue.old) }
        ensures ok { OnOk result (self.new.shut ≡ None) }

        // Whatever it answers, a crash at any moment of it leaves the store that it had, or that one with some whole transactions of the
        // group.
        ensures survives { IsTrue D.tells → self.old.shut ≡ None → LeadSurvives D.Disk self.old.memory queue.old self.old.disk self.new.disk }

        // Where it ended well, the disk rests at the store behind the group.
        ensures rests { IsTrue D.tells → OnOk result (LeadRests D.Disk self.old.memory queue.old self.old.disk self.new.disk) }

        // What is kept of the group: its committed requests and its last number, or the body of a lead that has failed.
        ensures kept { IfOk result (λ replies. HasKept (committed queue.old (members_of (ledger_in self.old.memory) queue.old)) self.new.memory.last
            self.old.keeping self.new.keeping) }
        ensures failed { (cause : Cause) → self.old.shut ≡ None → result ≡ Err (Shut cause)
            → HasFailed (committed queue.old (members_of (ledger_in self.old.memory) queue.old)) self.old.keeping self.new.keeping }

        // Whatever it answers, what is kept goes on telling what crashes leave.
        ensures images { IsTrue D.tells → (since : ℕ) → HasImages D.Disk self.old since → HasImages D.Disk self.new since }

        // A vault that was shut stays so, and writes nothing.
        ensures closed { (cause : Cause) → self.old.shut ≡ Some cause → (result ≡ Err (Shut cause)) × (self.new ≡ self.old) }
        ensures shut { IfErr result (IsShutBy self.old.shut (D.faults self.old.disk) (D.faults self.new.disk) (D.frugal self.old.disk) self.new.shut) }
        ensures unmade { IsErrOf result lead_fault.OutOfMemory → IsLeftUnmade self.old self.new }
    {
        self.core.lead(alloc, queue)
    }

    /// Reads bytes of the content that a key has under the number `born`, from byte `off` on, as many as fit and there are. It
    /// answers how many. Each page that has any of them is read once. After an `Err` nothing is said of the bytes in `into`.
    pub fn gather(
        &mut self,
        key: &Key,
        born: u64,
        off: u64,
        into: &mut [u8],
    ) -> Result<usize, GatherFault>
        ensures bytes { IsTrue D.tells → (state : State) (content : List ℕ) → map.get self.old.memory.relation.states key.now ≡ Some state
            → Holds (D.story self.old.disk).reads (data_page self.old.memory.layout) state content
            → IfOk result (λ n. take n into.new ≡ take n (drop off content)) }
        ensures count { (state : State) → map.get self.old.memory.relation.states key.now ≡ Some state
            → IfOk result (λ n. n ≡ min (length into.old) (state.size - off)) }
        ensures length { length into.new ≡ length into.old }
        ensures reads { IsTrue D.tells → IfOk result (λ n. Took (pages_across off n) 0 0 (D.calls self.old.disk) (D.calls self.new.disk)) }

        // Only the content of that number is read, and of a vault that isn't shut.
        ensures fresh { IfOk result (λ n. number_at self.old.memory.relation.states key.now ≡ Some born) }
        ensures stale { self.old.shut ≡ None → number_at self.old.memory.relation.states key.now ≢ Some born
            → result ≡ Err (gather_fault.Stale (number_at self.old.memory.relation.states key.now)) }
        ensures closed { (cause : Cause) → self.old.shut ≡ Some cause → (result ≡ Err (gather_fault.Shut cause)) × (self.new ≡ self.old) }
        ensures unread { IfErr result (IsUnread (λ number. (number ≡ number_at self.old.memory.relation.states key.now) × (number ≢ Some born)) self.old.shut
            (D.faults self.old.disk) (D.faults self.new.disk) (D.frugal self.old.disk)) }

        // Whatever it answers, what is kept goes on telling what crashes leave.
        ensures images { IsTrue D.tells → (since : ℕ) → HasImages D.Disk self.old since → HasImages D.Disk self.new since }

        // Nothing is written, and the vault stays as it is.
        ensures only { IsOnlyRead D.Disk self.old self.new }
    {
        self.core.gather(key, born, off, into)
    }

    /// Verifies the content of a key, which has one, up to the first link that fails.
    pub fn verify(&mut self, key: &Key) -> Result<Verdict, GatherFault>
        requires there { (state : State) × (map.get self.old.memory.relation.states key.now ≡ Some state) }
        ensures whole { IsTrue D.tells → (state : State) → map.get self.old.memory.relation.states key.now ≡ Some state → result ≡ Ok Whole
            → Verifies (D.story self.old.disk).reads (data_page self.old.memory.layout) state }
        ensures damaged { IsTrue D.tells → (state : State) (link : ℕ) (want got : List ℕ) → map.get self.old.memory.relation.states key.now ≡ Some state
            → result ≡ Ok (Damaged link want got)
            → FailsFirst (computed (D.story self.old.disk).reads (data_page self.old.memory.layout) state) state link want got }

        // Whatever the disk tells, there are bytes that give the verdict: a content of the state's size leads to the state, or the
        // link is the first that fails over such a content.
        ensures led { (state : State) → map.get self.old.memory.relation.states key.now ≡ Some state → result ≡ Ok Whole
            → (content : List ℕ) × LeadsTo content state }
        ensures damage { (state : State) (link : ℕ) (want got : List ℕ) → map.get self.old.memory.relation.states key.now ≡ Some state
            → result ≡ Ok (Damaged link want got) → IsDamage state link want got }

        ensures closed { (cause : Cause) → self.old.shut ≡ Some cause → (result ≡ Err (gather_fault.Shut cause)) × (self.new ≡ self.old) }

        // No number is stale, since none was asked for.
        ensures unread { IfErr result (IsUnread (λ number. ⊥) self.old.shut (D.faults self.old.disk) (D.faults self.new.disk) (D.frugal self.old.disk)) }

        // Whatever it answers, what is kept goes on telling what crashes leave.
        ensures images { IsTrue D.tells → (since : ℕ) → HasImages D.Disk self.old since → HasImages D.Disk self.new since }

        // Nothing is written, and the vault stays as it is.
        ensures only { IsOnlyRead D.Disk self.old self.new }
    {
        self.core.verify(key)
    }
}
