// Bytes of the contents of a vault, read and verified.

ghost use Rattle.std.specs.Prelude.{◌≡◌, ◌≢◌, ℕ, ◌-◌, List, None, Some, Ok, Err, IfErr, IfOk, IsTrue, drop, length, min, take};
ghost use Rattle.std.specs.FinMap as map;
ghost use Rattle.disk_model.specs.Disks.{OnlyReads};
ghost use Rattle.extent_io.specs.declared.verdict.Verdict.TheVariants.{Damaged, Whole};
ghost use Rattle.store_model.specs.Cost.{Reads};
ghost use Rattle.store_model.specs.Disk.{Took};
ghost use Rattle.store_model.specs.Holds.{Holds, pages_across};
ghost use Rattle.store_model.specs.Layout.{data_page};
ghost use Rattle.store_model.specs.State.{State};
ghost use Rattle.store_model.specs.Verify.{FailsFirst, IsDamage, LeadsTo, Verifies, computed};
ghost use Rattle.vault.specs.Faults.{IsUnread};
ghost use Rattle.vault.specs.Keeps.{HasImages};
ghost use Rattle.vault.specs.Vaults.{IsVault, number_at};
ghost use Rattle.vault.specs.declared.fault.Cause.{Cause};
ghost use Rattle.vault.specs.declared.fault.GatherFault.TheVariants as gather_fault;

use crate::fault::GatherFault;
use crate::inner::Core;
use blob_base::Key;
use disk_model::Disk;
use extent_io::{Verdict, gather, verify};

impl<D: Disk> Core<D> {
    /// Reads bytes of the content that a key has under the number `born`, from byte `off` on, as many as fit and there are. It
    /// answers how many. Each page that has any of them is read once. After an `Err` nothing is said of the bytes in `into`.
    pub(crate) fn gather(
        &mut self,
        key: &Key,
        born: u64,
        off: u64,
        into: &mut [u8],
    ) -> Result<usize, GatherFault>
        requires { IsVault D.Disk self.old.disk self.old.memory self.old.shut }
        ensures bytes { IsTrue D.tells → (state : State) (content : List ℕ) → map.get self.old.memory.relation.states key.now ≡ Some state
            → Holds (D.story self.old.disk).reads (data_page self.old.memory.layout) state content
            → IfOk result (λ n. take n into.new ≡ take n (drop off content)) }
        ensures count { (state : State) → map.get self.old.memory.relation.states key.now ≡ Some state
            → IfOk result (λ n. n ≡ min (length into.old) (state.size - off)) }
        ensures length { length into.new ≡ length into.old }
        ensures reads { IsTrue D.tells → IfOk result (λ n. Took (pages_across off n) 0 0 (D.calls self.old.disk) (D.calls self.new.disk)) }

        // Only the content of that number is read, and of a vault that isn't shut.
        ensures fresh { IfOk result (λ n. number_at self.old.memory.relation.states key.now ≡ Some born) }
        ensures stale { self.old.shut ≡ None → number_at self.old.memory.relation.states key.now ≢ Some born
            → result ≡ Err (gather_fault.Stale (number_at self.old.memory.relation.states key.now)) }
        ensures closed { (cause : Cause) → self.old.shut ≡ Some cause → (result ≡ Err (gather_fault.Shut cause)) × (self.new ≡ self.old) }
        ensures unread { IfErr result (IsUnread (λ number. (number ≡ number_at self.old.memory.relation.states key.now) × (number ≢ Some born)) self.old.shut
            (D.faults self.old.disk) (D.faults self.new.disk) (D.frugal self.old.disk)) }

        // Whatever it answers, what is kept goes on telling what crashes leave.
        ensures images { IsTrue D.tells → (since : ℕ) → HasImages D.Disk self.old since → HasImages D.Disk self.new since }

        // Nothing is written, and the vault stays as it is.
        ensures keeps { IsVault D.Disk self.new.disk self.new.memory self.new.shut }
        ensures memory { self.new.memory ≡ self.old.memory }
        ensures shut { self.new.shut ≡ self.old.shut }
        ensures keeping { self.new.keeping ≡ self.old.keeping }
        ensures only { OnlyReads D.Disk self.old.disk self.new.disk }
        ensures still { IsTrue D.tells → Reads (D.calls self.old.disk) (D.calls self.new.disk) }
    {
        if let Some(cause) = self.shut {
            return Err(GatherFault::Shut { cause });
        }
        let Some(state) = self.memory.relation.get(key) else {
            return Err(GatherFault::Stale { now: None });
        };
        if state.born() != born {
            let now = Some(state.born());
            return Err(GatherFault::Stale { now });
        }
        Ok(gather(&mut self.disk, self.memory.layout, state, off, into)?)
    }

    /// Verifies the content of a key, which has one, up to the first link that fails.
    pub(crate) fn verify(&mut self, key: &Key) -> Result<Verdict, GatherFault>
        requires vault { IsVault D.Disk self.old.disk self.old.memory self.old.shut }
        requires there { (state : State) × (map.get self.old.memory.relation.states key.now ≡ Some state) }
        ensures whole { IsTrue D.tells → (state : State) → map.get self.old.memory.relation.states key.now ≡ Some state → result ≡ Ok Whole
            → Verifies (D.story self.old.disk).reads (data_page self.old.memory.layout) state }
        ensures damaged { IsTrue D.tells → (state : State) (link : ℕ) (want got : List ℕ) → map.get self.old.memory.relation.states key.now ≡ Some state
            → result ≡ Ok (Damaged link want got)
            → FailsFirst (computed (D.story self.old.disk).reads (data_page self.old.memory.layout) state) state link want got }

        // Whatever the disk tells, there are bytes that give the verdict: a content of the state's size leads to the state, or the
        // link is the first that fails over such a content.
        ensures led { (state : State) → map.get self.old.memory.relation.states key.now ≡ Some state → result ≡ Ok Whole
            → (content : List ℕ) × LeadsTo content state }
        ensures damage { (state : State) (link : ℕ) (want got : List ℕ) → map.get self.old.memory.relation.states key.now ≡ Some state
            → result ≡ Ok (Damaged link want got) → IsDamage state link want got }

        ensures closed { (cause : Cause) → self.old.shut ≡ Some cause → (result ≡ Err (gather_fault.Shut cause)) × (self.new ≡ self.old) }

        // No number is stale, since none was asked for.
        ensures unread { IfErr result (IsUnread (λ number. ⊥) self.old.shut (D.faults self.old.disk) (D.faults self.new.disk) (D.frugal self.old.disk)) }

        // Whatever it answers, what is kept goes on telling what crashes leave.
        ensures images { IsTrue D.tells → (since : ℕ) → HasImages D.Disk self.old since → HasImages D.Disk self.new since }

        // Nothing is written, and the vault stays as it is.
        ensures keeps { IsVault D.Disk self.new.disk self.new.memory self.new.shut }
        ensures memory { self.new.memory ≡ self.old.memory }
        ensures shut { self.new.shut ≡ self.old.shut }
        ensures keeping { self.new.keeping ≡ self.old.keeping }
        ensures only { OnlyReads D.Disk self.old.disk self.new.disk }
        ensures still { IsTrue D.tells → Reads (D.calls self.old.disk) (D.calls self.new.disk) }
    {
        if let Some(cause) = self.shut {
            return Err(GatherFault::Shut { cause });
        }
        let Some(state) = self.memory.relation.get(key) else {
            unreachable!()
        };
        Ok(verify(&mut self.disk, self.memory.layout, state)?)
    }
}
