// The check of a store.

ghost use Rattle.std.specs.Prelude.{◌≡◌, ◌-◌, ◌^◌, ◌<◌, List, [], ◌∷◌, ◌++◌, IfErr, IfOk, IsTrue, None, OnOk, Some};
ghost use Rattle.std.specs.FinMap.{entries, get};
ghost use Rattle.blob_base.specs.Faults.{KeepsEnd};
ghost use Rattle.disk_model.specs.Disks.{OnlyWrites};
ghost use Rattle.recover.specs.Openings.{IsMetadata};
ghost use Rattle.store_model.specs.Cost.{Reads as OnlyTakesReads};
ghost use Rattle.store_model.specs.Report.{Damage, check_text};
ghost use Rattle.store_model.specs.State.{State};
ghost use Rattle.vault.specs.Vaults.{found_of};
ghost use Rattle.blob_report.specs.Ends.{IsCaused};
ghost use Rattle.blob_report.specs.Reports.{Checked as DidCheckStore, CostsOpening, HasReported, NamesDamage, StoreSurvives, damages_text, verdict_of};
ghost use Rattle.blob_report.specs.Checks.{AddsTo, BrokeCheck, DidCheck, HasCounted, WasChecked};

use crate::printing::print;
use crate::status::{opening_status, unread_status};
use blob_base::Key;
use blob_script::{Status, checked_line};
use disk_model::Disk;
use extent_io::Verdict;
use io_ends::Sink;
use std::alloc::Global;
use vault::Vault;

// What a check has found so far: the first damage, where there is one, and how many there are.
#[derive(Drop)]
struct Checked {
    verdict: Status,
    damaged: u64,
}

impl Checked {
    // Nothing yet.
    fn new() -> Checked
        ensures { HasCounted result [] }
    {
        Checked {
            verdict: Status::Done,
            damaged: 0,
        }
    }

    // One damage more.
    fn add(&mut self, damage: Status)
        requires { self.old.damaged < 2 ^ 64 - 1 }
        ensures { (damages : List Damage) (one : Damage) → HasCounted self.old damages → damage ≡ verdict_of (one ∷ [])
            → HasCounted self.new (damages ++ one ∷ []) }
    {
        if self.damaged == 0 {
            self.verdict = damage;
        }
        self.damaged += 1;
    }
}

// Verifies the content of a key, which has one, and prints a line where it is damaged.
fn check_one<K: Sink, D: Disk>(
    sink: &mut K,
    vault: &mut Vault<D>,
    key: Key,
    checked: &mut Checked,
) -> Result<(), Status>
    requires open { vault.old.shut ≡ None }
    requires there { (state : State) × (get vault.old.memory.relation.states key ≡ Some state) }
    requires few { checked.old.damaged < 2 ^ 64 - 1 }
    ensures ok { (state : State) → get vault.old.memory.relation.states key ≡ Some state
        → OnOk result (DidCheck K.Sink D.Disk vault.old.memory.layout ((key, state) ∷ []) (AddsTo checked.old checked.new)
        sink.old sink.new vault.old.disk vault.new.disk) }
    ensures err { (state : State) → get vault.old.memory.relation.states key ≡ Some state
        → IfErr result (λ status.
        BrokeCheck K.Sink D.Disk damages_text vault.old.memory.layout ((key, state) ∷ []) status sink.old sink.new
        vault.old.disk vault.new.disk) }
    ensures memory { vault.new.memory ≡ vault.old.memory }
    ensures shut { vault.new.shut ≡ vault.old.shut }
    ensures still { IsTrue D.tells → OnlyTakesReads (D.calls vault.old.disk) (D.calls vault.new.disk) }
{
    match vault.verify(&key) {
        Ok(Verdict::Whole) => Ok(()),
        Ok(Verdict::Damaged { link, want, got }) => {
            let damage = Status::Damaged {
                key,
                link,
                want,
                got,
            };
            print(sink, damage.closing().as_slice())?;
            checked.add(damage);
            Ok(())
        }
        Err(fault) => Err(unread_status(fault)),
    }
}

// Verifies the content of each key, in the order of the keys.
fn check_states<K: Sink, D: Disk>(sink: &mut K, vault: &mut Vault<D>) -> Result<Checked, Status>
    requires open { vault.old.shut ≡ None }
    ensures ok { IfOk result (λ checked.
        DidCheck K.Sink D.Disk vault.old.memory.layout (entries vault.old.memory.relation.states) (HasCounted checked)
        sink.old sink.new vault.old.disk vault.new.disk) }
    ensures err { IfErr result (λ status.
        BrokeCheck K.Sink D.Disk damages_text vault.old.memory.layout (entries vault.old.memory.relation.states) status
        sink.old sink.new vault.old.disk vault.new.disk) }
    ensures memory { vault.new.memory ≡ vault.old.memory }
    ensures still { IsTrue D.tells → OnlyTakesReads (D.calls vault.old.disk) (D.calls vault.new.disk) }
{
    let mut checked = Checked::new();
    'checked: for i in 0..vault.relation().len() {
        let (key, _) = vault.relation().nth(i);
        let key = key.copy();
        check_one(sink, vault, key, &mut checked)?;
    }
    Ok(checked)
}

// Verifies the content of each key, and prints how many there are. It answers the first damage, and `Done` where there is
// none.
fn check<K: Sink, D: Disk>(sink: &mut K, vault: &mut Vault<D>) -> Result<Status, Status>
    requires open { vault.old.shut ≡ None }
    ensures ok { IfOk result (λ verdict.
        WasChecked K.Sink D.Disk (found_of vault.old.memory) verdict sink.old sink.new vault.old.disk vault.new.disk) }
    ensures err { IfErr result (λ status.
        BrokeCheck K.Sink D.Disk (check_text (found_of vault.old.memory)) vault.old.memory.layout
        (entries vault.old.memory.relation.states) status sink.old sink.new vault.old.disk vault.new.disk) }
    ensures still { IsTrue D.tells → OnlyTakesReads (D.calls vault.old.disk) (D.calls vault.new.disk) }
{
    let checked = check_states(sink, vault)?;
    let states = vault.relation().len() as u64;
    print(sink, checked_line(states, checked.damaged).as_slice())?;
    Ok(checked.verdict)
}

/// Opens the store of a disk, verifies the content of each key, in the order of the keys, and prints a line for each that is
/// damaged, and how many there are. It answers the first damage, where there is one, and the disk.
pub fn run_check<K: Sink, D: Disk>(alloc: Global, sink: &mut K, disk: D) -> (Status, D)
    ensures checked { DidCheckStore K.Sink D.Disk result.0 sink.old sink.new disk result.1 }

    // Whatever the disk tells, damage is that of a link of a state of the key: what the state keeps of it, and another value.
    ensures named { NamesDamage D.Disk result.0 disk }

    // No page of the data area was written, and a crash leaves each as before.
    ensures wrote { OnlyWrites D.Disk (IsMetadata (D.size disk) (D.story disk).reads) disk result.1 }

    // And the store that there was survives a crash at any moment from the return of the first sync on, and where nothing was pending,
    // from the call on.
    ensures survives { StoreSurvives D.Disk disk result.1 }

    // A report that was printed cost an opening, but for reads.
    ensures costs { HasReported result.0 → CostsOpening D.Disk disk result.1 }
    ensures caused { IsCaused result.0 (K.faults sink.old) (K.faults sink.new) (D.faults disk) (D.faults result.1) }
    ensures keeps { KeepsEnd K.faults K.frugal sink.old sink.new }
{
    let mut vault = match Vault::open(alloc, disk) {
        Ok(vault) => vault,
        Err(failed) => return (opening_status(failed.fault), failed.disk),
    };
    vault.rules();
    match check(sink, &mut vault) {
        Ok(verdict) => (verdict, vault.close()),
        Err(status) => (status, vault.close()),
    }
}
