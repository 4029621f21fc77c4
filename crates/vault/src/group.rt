// The lead of a group: its plan, its frame and its contents.

ghost use Rattle.std.specs.Prelude.{◌≡◌, ℕ, ◌+◌, ◌-◌, ◌≤◌, ◌⊎◌, [], ◌∷◌, ◌++◌, Err, IfErr, IfOk, IsErrOf, IsTrue, None, OnErr, OnOk, Some, drop, length, map as each, zip};
ghost use Rattle.std.specs.List.{All, sum_by};
ghost use Rattle.frame_codec.specs.Values.{model_entries};
ghost use Rattle.group_plan.specs.Plans.{committed, members_of, model_reply};
ghost use Rattle.relation.specs.Changes.{with_entries};
ghost use Rattle.relation.specs.Parts.{encoded_by};
ghost use Rattle.store_model.specs.Disk.{Took};
ghost use Rattle.store_model.specs.Frame.{body_bytes, body_spelling};
ghost use Rattle.store_model.specs.Fits.{DoesFrameFit};
ghost use Rattle.store_model.specs.Group.{commits_of, reply_of};
ghost use Rattle.store_model.specs.Layout.{data_pages};
ghost use Rattle.store_model.specs.Log.{body_pages};
ghost use Rattle.store_model.specs.Space.{Apart, AreBlocks};
ghost use Rattle.store_model.specs.Stands.{DoAllTell};
ghost use Rattle.store_model.specs.Store.{Store as ModelStore};
ghost use Rattle.vault.specs.Crashes.{LeadRests, LeadSurvives};
ghost use Rattle.vault.specs.Faults.{IsShutBy};
ghost use Rattle.vault.specs.declared.fault.LeadFault.TheVariants.{Shut};
ghost use Rattle.vault.specs.declared.fault.LeadFault.TheVariants as lead_fault;
ghost use Rattle.vault.specs.Keeps.{HasFailed, HasImages, HasKept, done_of};
ghost use Rattle.vault.specs.Leads.{Led, MayHaveWritten, StoreStands, ledger_in};
ghost use Rattle.vault.specs.Pours.{AreAt, AreWhole, HasRoom, Poured, pour_blocks, pour_pages, pours_of_all, requests_at};
ghost use Rattle.vault.specs.Vaults.{InWindows, IsNextFrame, IsUnmade, IsVault, found_of, turn_pages, turn_syncs, turned_gate};

use crate::fault::{Cause, LeadFault};
use crate::inner::Core;
use crate::knowing::entries_rules;
use crate::leaving::leave;
use crate::making::give_back_all;
use blob_base::Listed;
use disk_model::Disk;
use frame_codec::{Entries, MAX_WRITES, encode_frame};
use group_plan::{Plan, Queue, Replies, plan_group};
use std::alloc::Global;

impl<D: Disk> Core<D> {
    // Writes entries and their contents, and makes them in the states. Memory is taken before the first write.
    fn commit(
        &mut self,
        alloc: Global,
        queue: &Queue,
        entries: Entries,
        members: &Listed<usize>,
    ) -> Result<(), LeadFault>
        requires vault { IsVault D.Disk self.old.disk self.old.memory self.old.shut }
        requires open { self.old.shut ≡ None }
        requires none { self.old.memory.space ≡ None }
        requires frame { IsNextFrame (found_of self.old.memory) (body_spelling (model_entries entries)) (model_entries entries) }
        requires places { AreAt queue.now entries members.now }
        requires whole { AreWhole queue.now }
        requires within { AreBlocks (data_pages self.old.memory.layout) (pour_blocks (pours_of_all (zip (requests_at queue.now members.now) entries))) }
        requires apart { Apart (pour_blocks (pours_of_all (zip (requests_at queue.now members.now) entries))) }
        requires room { HasRoom self.old.memory.relation.states entries }
        ensures keeps { IsVault D.Disk self.new.disk self.new.memory self.new.shut }
        ensures layout { self.new.memory.layout ≡ self.old.memory.layout }
        ensures space { self.new.memory.space ≡ None }
        ensures states { OnOk result (self.new.memory.relation.states ≡ with_entries self.old.memory.relation.states entries) }
        ensures last { OnOk result (self.new.memory.last ≡ self.old.memory.last + length entries) }
        ensures ok { OnOk result (self.new.shut ≡ None) }
        ensures poured { IsTrue D.tells → OnOk result (All (Poured (D.story self.new.disk).reads self.old.memory.layout) (pours_of_all (zip (requests_at queue.now members.now) entries))) }
        // The entries may follow as the next frame, and what was written is theirs.
        ensures frame { IsNextFrame (found_of self.old.memory) (body_spelling (model_entries entries)) (model_entries entries) }
        ensures windows { InWindows D.Disk self.old.memory (body_spelling (model_entries entries)) (pours_of_all (zip (requests_at queue.now members.now) entries)) self.old.disk self.new.disk }
        ensures calls { IsTrue D.tells → OnOk result
            (Took 0
            (turn_pages (511 - self.old.memory.log.gate) (body_pages (body_bytes (model_entries entries)) + 1) (encoded_by self.old.memory.relation.states)
            + body_pages (body_bytes (model_entries entries)) + 1 + (sum_by pour_pages (pours_of_all (zip (requests_at queue.now members.now) entries)) + 1))
            (turn_syncs (511 - self.old.memory.log.gate) (body_pages (body_bytes (model_entries entries)) + 1) + 2)
            (D.calls self.old.disk) (D.calls self.new.disk)) }
        ensures gate { OnOk result (self.new.memory.log.gate
            ≡ turned_gate self.old.memory.log.gate (body_pages (body_bytes (model_entries entries)) + 1) + 1 + body_pages (body_bytes (model_entries entries))) }
        ensures unmade { IsErrOf result lead_fault.OutOfMemory
            → IsUnmade self.old.disk self.new.disk self.old.memory self.new.memory self.old.shut self.new.shut }
        ensures history { OnOk result (self.new.keeping.history
            ≡ self.old.keeping.history ++ each done_of (zip (requests_at queue.now members.now) entries)) }
        ensures groups { OnOk result (self.new.keeping.groups ≡ self.old.keeping.groups ++ (self.old.memory.last + length entries) ∷ []) }
        ensures opened { self.new.keeping.opened ≡ self.old.keeping.opened }
        ensures unfailed { OnOk result (self.new.keeping.failed ≡ self.old.keeping.failed) }
        ensures unkept { IsErrOf result lead_fault.OutOfMemory → self.new.keeping ≡ self.old.keeping }
        ensures failed { (cause : Cause) → result ≡ Err (Shut cause) → self.new.keeping.failed ≡ body_spelling (model_entries entries) }
        ensures lost { (cause : Cause) → result ≡ Err (Shut cause) → self.new.keeping.history ≡ self.old.keeping.history }
        ensures lost_group { (cause : Cause) → result ≡ Err (Shut cause) → self.new.keeping.groups ≡ self.old.keeping.groups }
        // Where the states behind it tell their contents and the entries have the places that fit, what is kept goes on telling what crashes
        // leave.
        ensures images { IsTrue D.tells → (since : ℕ) → HasImages D.Disk self.old since
            → OnOk result (DoAllTell (D.story self.new.disk).reads self.new.memory.layout self.new.memory.relation.states
            × DoesFrameFit (found_of self.old.memory) (model_entries entries)) → HasImages D.Disk self.new since }
        ensures shut { IfErr result (IsShutBy None (D.faults self.old.disk) (D.faults self.new.disk) (D.frugal self.old.disk) self.new.shut) }
    {
        let body = encode_frame(alloc, &entries)?;
        let Some(writes) = entries.len().checked_mul(MAX_WRITES) else {
            return Err(LeadFault::OutOfMemory);
        };
        self.memory.relation.reserve(alloc, writes)?;
        let (done, groups) = (self.keeping.history.len(), self.keeping.groups.len());
        let last = self.memory.last + entries.len() as u64;
        self.keeping.gain(alloc, queue, &entries, members, last)?;
        match self
            .memory
            .write(&mut self.disk, body.as_slice(), queue, &entries, members)
        {
            Ok(()) => self.memory.make(entries),
            Err(io) => {
                self.keeping.lose(alloc, done, groups, body);
                return Err(self.shut_for(io));
            }
        }
        Ok(())
    }

    /// Commits the group at the front of a queue, takes its members out of the queue, and answers the replies to them. A group
    /// without a committing member writes nothing, and nor does a shut vault. Where there is no memory, nothing was written, and
    /// all is as before.
    pub(crate) fn lead(&mut self, alloc: Global, queue: &mut Queue) -> Result<Replies, LeadFault>
        requires vault { IsVault D.Disk self.old.disk self.old.memory self.old.shut }
        requires whole { AreWhole queue.old }
        requires few { length queue.old ≤ 16 }
        ensures keeps { IsVault D.Disk self.new.disk self.new.memory self.new.shut }
        ensures layout { self.new.memory.layout ≡ self.old.memory.layout }
        ensures led { (store : ModelStore) → StoreStands self.old.memory store
            → IfOk result (λ replies. Led D.Disk self.old.disk self.new.disk self.old.memory store queue.old
            (members_of (ledger_in self.old.memory) queue.old) replies self.new.memory) }
        // Whatever store memory is at, the group is judged by what memory has, and one without a commit changes nothing.
        ensures replied { IfOk result (λ replies. each model_reply replies ≡ each reply_of (members_of (ledger_in self.old.memory) queue.old)) }
        ensures idle { commits_of (members_of (ledger_in self.old.memory) queue.old) ≡ []
            → OnOk result (IsUnmade self.old.disk self.new.disk self.old.memory self.new.memory self.old.shut self.new.shut) }
        ensures wrote { (self.new.disk ≡ self.old.disk) ⊎ MayHaveWritten D.Disk self.old.memory queue.old
            (members_of (ledger_in self.old.memory) queue.old) self.old.disk self.new.disk }
        ensures few { IfOk result (λ replies. length replies ≤ length queue.old) }
        ensures left { IfOk result (λ replies. queue.new ≡ drop (length replies) queue.old) }
        ensures stays { OnErr result (queue.new ≡ queue.old) }
        ensures ok { OnOk result (self.new.shut ≡ None) }

        // Whatever it answers, a crash at any moment of it leaves the store that it had, or that one with some whole transactions of the
        // group.
        ensures survives { IsTrue D.tells → self.old.shut ≡ None → LeadSurvives D.Disk self.old.memory queue.old self.old.disk self.new.disk }

        // Where it ended well, the disk rests at the store behind the group.
        ensures rests { IsTrue D.tells → OnOk result (LeadRests D.Disk self.old.memory queue.old self.old.disk self.new.disk) }

        // What is kept of the group: its committed requests and its last number, or the body of a lead that has failed.
        ensures kept { IfOk result (λ replies. HasKept (committed queue.old (members_of (ledger_in self.old.memory) queue.old)) self.new.memory.last
            self.old.keeping self.new.keeping) }
        ensures unkept { IsErrOf result lead_fault.OutOfMemory → self.new.keeping ≡ self.old.keeping }
        ensures failed { (cause : Cause) → self.old.shut ≡ None → result ≡ Err (Shut cause)
            → HasFailed (committed queue.old (members_of (ledger_in self.old.memory) queue.old)) self.old.keeping self.new.keeping }

        // Whatever it answers, what is kept goes on telling what crashes leave.
        ensures images { IsTrue D.tells → (since : ℕ) → HasImages D.Disk self.old since → HasImages D.Disk self.new since }

        // A vault that was shut stays so, and writes nothing.
        ensures closed { (cause : Cause) → self.old.shut ≡ Some cause → (result ≡ Err (Shut cause)) × (self.new ≡ self.old) }
        ensures unmade { IsErrOf result lead_fault.OutOfMemory
            → IsUnmade self.old.disk self.new.disk self.old.memory self.new.memory self.old.shut self.new.shut }
        ensures shut { IfErr result (IsShutBy self.old.shut (D.faults self.old.disk) (D.faults self.new.disk) (D.frugal self.old.disk) self.new.shut) }
    {
        if let Some(cause) = self.shut {
            return Err(LeadFault::Shut { cause });
        }
        let mut space = self.memory.take_space(alloc)?;
        let plan = plan_group(
            alloc,
            queue,
            &self.memory.relation,
            &mut space,
            self.memory.layout.states_bytes(),
            self.memory.last,
        )?;
        let Plan {
            replies,
            entries,
            members,
            frees,
        } = plan;
        space.rules();
        entries_rules(&entries);
        if entries.is_empty() {
            self.memory.space = Some(space);
            leave(queue, replies.len());
            return Ok(replies);
        }
        self.commit(alloc, queue, entries, &members)?;
        give_back_all(&mut space, &frees);
        self.memory.space = Some(space);
        leave(queue, replies.len());
        Ok(replies)
    }
}
