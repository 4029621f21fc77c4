// What a look shows of what a store has.

ghost use Rattle.std.specs.Prelude.{◌≡◌, ℕ, List, Some, None, IfErr, IfOk, IsTrue, OnErr, OnOk, length, option_map};
ghost use Rattle.std.specs.FinMap as map;
ghost use Rattle.blob_script.specs.Answers.{model_line};
ghost use Rattle.blob_steps.specs.Faults.{DamageAt, DamageOf, FailsAt, FailsOn, FailsOver, IsRaisedFault, IsUndamagedFault, ShowsDamageFault, gathered_fault};
ghost use Rattle.blob_steps.specs.declared.look.Look.TheVariants as look_kind;
ghost use Rattle.blob_steps.specs.Looks.{ShownOf, VerifiesAt, show_of};
ghost use Rattle.disk_model.specs.Disks.{OnlyReads};
ghost use Rattle.store_model.specs.Answer.{Value};
ghost use Rattle.store_model.specs.Cost.{Reads};
ghost use Rattle.store_model.specs.Holds.{Holds};
ghost use Rattle.store_model.specs.Key.{key_order};
ghost use Rattle.store_model.specs.Layout.{data_page};
ghost use Rattle.store_model.specs.Standing.{AllHeld, SameObjects};
ghost use Rattle.store_model.specs.State.{State};
ghost use Rattle.store_model.specs.Store.{Object};
ghost use Rattle.store_model.specs.Verify.{LeadsTo, Verifies};
ghost use Rattle.vault.specs.declared.fault.GatherFault.TheVariants.{Stale};

use crate::fault::StoreFault;
use crate::look::Look;
use blob_base::{Bytes, Key};
use blob_script::AnswerLine;
use disk_model::Disk;
use extent_io::{Verdict, check};
use std::alloc::Global;
use vault::{Cause, GatherFault, Vault};

// Why no content was read, of a key that has a state.
fn gather_fault(fault: GatherFault) -> StoreFault
    requires { (now : _) → fault ≡ Stale now → ⊥ }
    ensures { result ≡ gathered_fault fault }
{
    match fault {
        GatherFault::Failed => StoreFault::Failed,
        GatherFault::OutOfMemory => StoreFault::OutOfMemory,
        GatherFault::Shut { cause: Cause::Disk } => StoreFault::Failed,
        GatherFault::Shut {
            cause: Cause::Memory,
        } => StoreFault::OutOfMemory,
        GatherFault::Stale { .. } => unreachable!(),
    }
}

/// What a look shows of what a store has under a key, as an answer. A content is read, each page once, and shown where each
/// link of its state holds over what was read.
pub(crate) fn show<D: Disk>(
    alloc: Global,
    vault: &mut Vault<D>,
    look: Look,
    key: &Key,
) -> Result<AnswerLine, StoreFault>
    requires open { vault.old.shut ≡ None }
    // Whatever the disk tells, what is shown was verified: it leads over the state's links to its digest.
    ensures shown { IfOk result (λ line. ShownOf look (map.get vault.old.memory.relation.states key.now) (model_line line)) }
    ensures damaged { IfErr result (DamageAt key.now (map.get vault.old.memory.relation.states key.now)) }
    ensures get { OnErr result (look ≡ look_kind.Get) }

    // Where it tells its pages, a content is shown exactly where its state verifies there.
    ensures verifies { IsTrue D.tells → OnOk result (VerifiesAt look (D.story vault.old.disk).reads (data_page vault.old.memory.layout)
        (map.get vault.old.memory.relation.states key.now)) }
    ensures fails { IsTrue D.tells → IfErr result (FailsAt (D.story vault.old.disk).reads (data_page vault.old.memory.layout)
        (map.get vault.old.memory.relation.states key.now)) }
    ensures line { IsTrue D.tells → (objects : map.FinMap key_order Object)
        → SameObjects vault.old.memory.relation.states objects
        → AllHeld (D.story vault.old.disk).reads vault.old.memory.layout objects
        → IfOk result (λ line. model_line line ≡ show_of look (option_map (λ object. object.content) (map.get objects key.now))) }
    ensures damage { (objects : map.FinMap key_order Object) → SameObjects vault.old.memory.relation.states objects
        → IfErr result (ShowsDamageFault objects) }
    ensures whole { IsTrue D.tells → (objects : map.FinMap key_order Object)
        → SameObjects vault.old.memory.relation.states objects
        → AllHeld (D.story vault.old.disk).reads vault.old.memory.layout objects → IfErr result IsUndamagedFault }
    ensures memory { vault.new.memory ≡ vault.old.memory }
    ensures shut { vault.new.shut ≡ vault.old.shut }
    ensures only_reads { OnlyReads D.Disk vault.old.disk vault.new.disk }
    ensures reads { IsTrue D.tells → Reads (D.calls vault.old.disk) (D.calls vault.new.disk) }
    ensures raised { IfErr result (IsRaisedFault (D.faults vault.old.disk) (D.faults vault.new.disk)) }
{
    match vault.look(key) {
        Some(state) => match look {
            Look::Get => {
                let (size, born) = (state.size(), state.born());
                read_value(alloc, vault, key, size, born)
            }
            Look::Stat => Ok(AnswerLine::Stat {
                size: state.size(),
                digest: *state.digest(),
            }),
        },
        None => Ok(AnswerLine::Absent),
    }
}

// Reads the content that a key has under a number, of a size, and shows it as an answer where each link of the state holds.
fn read_value<D: Disk>(
    alloc: Global,
    vault: &mut Vault<D>,
    key: &Key,
    size: u64,
    born: u64,
) -> Result<AnswerLine, StoreFault>
    requires open { vault.old.shut ≡ None }
    requires there { (state : State) × (map.get vault.old.memory.relation.states key.now ≡ Some state)
        × (state.size ≡ size) × (state.born ≡ born) }
    ensures shown { (state : State) → map.get vault.old.memory.relation.states key.now ≡ Some state
        → IfOk result (λ line. (content : List ℕ) × (model_line line ≡ Value content) × LeadsTo content state) }
    ensures damaged { (state : State) → map.get vault.old.memory.relation.states key.now ≡ Some state
        → IfErr result (DamageOf key.now state) }
    ensures line { IsTrue D.tells → (state : State) → map.get vault.old.memory.relation.states key.now ≡ Some state
        → (content : List ℕ) → Holds (D.story vault.old.disk).reads (data_page vault.old.memory.layout) state content
        → IfOk result (λ line. model_line line ≡ Value content) }
    ensures verifies { IsTrue D.tells → (state : State) → map.get vault.old.memory.relation.states key.now ≡ Some state
        → OnOk result (Verifies (D.story vault.old.disk).reads (data_page vault.old.memory.layout) state) }
    ensures fails { IsTrue D.tells → (state : State) → map.get vault.old.memory.relation.states key.now ≡ Some state
        → IfErr result (FailsOn (D.story vault.old.disk).reads (data_page vault.old.memory.layout) state) }
    ensures memory { vault.new.memory ≡ vault.old.memory }
    ensures shut { vault.new.shut ≡ vault.old.shut }
    ensures only_reads { OnlyReads D.Disk vault.old.disk vault.new.disk }
    ensures reads { IsTrue D.tells → Reads (D.calls vault.old.disk) (D.calls vault.new.disk) }
    ensures raised { IfErr result (IsRaisedFault (D.faults vault.old.disk) (D.faults vault.new.disk)) }
{
    vault.rules();
    let mut content = vec![in alloc; 0; size as usize]?;
    if let Err(fault) = vault.gather(key, born, 0, &mut content) {
        return Err(gather_fault(fault));
    }
    check_value(vault, key, content)
}

// Shows bytes as the content of a key, which has a state, where each link of the state holds over them.
fn check_value<D: Disk>(
    vault: &Vault<D>,
    key: &Key,
    content: Vec<u8>,
) -> Result<AnswerLine, StoreFault>
    requires there { (state : State) × (map.get vault.now.memory.relation.states key.now ≡ Some state)
        × (state.size ≡ length content.items) }
    ensures whole { (state : State) → map.get vault.now.memory.relation.states key.now ≡ Some state
        → IfOk result (λ line. (model_line line ≡ Value content.items) × LeadsTo content.items state) }
    ensures damaged { (state : State) → map.get vault.now.memory.relation.states key.now ≡ Some state
        → IfErr result (FailsOver key.now state content.items) }
{
    let Some(state) = vault.look(key) else {
        unreachable!();
    };
    match check(state, &content) {
        Verdict::Whole => Ok(AnswerLine::Value {
            content: Bytes::from_vec(content),
        }),
        Verdict::Damaged { link, want, got } => Err(StoreFault::Damaged {
            key: key.copy(),
            link,
            want,
            got,
        }),
    }
}
