// The show of a store.

ghost use Rattle.std.specs.Prelude.{IfErr, OnOk};
ghost use Rattle.std.specs.FinMap.{entries};
ghost use Rattle.blob_base.specs.Faults.{KeepsEnd};
ghost use Rattle.disk_model.specs.Disks.{OnlyWrites};
ghost use Rattle.recover.specs.Openings.{IsMetadata, found_of};
ghost use Rattle.store_model.specs.Report.{show_text};
ghost use Rattle.blob_report.specs.Ends.{BrokeOff, HasPrinted, IsCaused};
ghost use Rattle.blob_report.specs.Reports.{CostsOpening, HasReported, Showed, StoreSurvives, states_text};

use crate::printing::print;
use crate::status::opening_status;
use blob_script::{Status, last_line, state_line};
use disk_model::Disk;
use io_ends::Sink;
use recover::{Found, recover};
use relation::Relation;
use std::alloc::Global;

// Prints a line for each state, in the order of their keys.
fn show_states<K: Sink>(sink: &mut K, relation: &Relation) -> Result<(), Status>
    ensures ok { OnOk result (HasPrinted K.Sink (states_text (entries relation.now.states)) sink.old sink.new) }
    ensures err { IfErr result (λ status. BrokeOff K.Sink (states_text (entries relation.now.states)) status sink.old sink.new) }
{
    'shown: for i in 0..relation.len() {
        let (key, state) = relation.nth(i);
        let line = state_line(key, state.size(), state.digest(), state.born());
        print(sink, line.as_slice())?;
    }
    Ok(())
}

// Prints what a store has.
fn show<K: Sink>(sink: &mut K, found: &Found) -> Result<(), Status>
    ensures ok { OnOk result (HasPrinted K.Sink (show_text (found_of found.now)) sink.old sink.new) }
    ensures err { IfErr result (λ status. BrokeOff K.Sink (show_text (found_of found.now)) status sink.old sink.new) }
{
    show_states(sink, &found.relation)?;
    print(sink, last_line(found.last).as_slice())
}

/// Opens a disk, and prints its states, in the order of their keys, and the number of its last entry.
pub fn run_show<K: Sink, D: Disk>(alloc: Global, sink: &mut K, disk: &mut D) -> Status
    ensures showed { Showed K.Sink D.Disk result sink.old sink.new disk.old disk.new }

    // No page of the data area was written, and a crash leaves each as before.
    ensures wrote { OnlyWrites D.Disk (IsMetadata (D.size disk.old) (D.story disk.old).reads) disk.old disk.new }

    // And the store that there was survives a crash at any moment from the return of the first sync on, and where nothing was pending,
    // from the call on.
    ensures survives { StoreSurvives D.Disk disk.old disk.new }

    // A report that was printed cost an opening.
    ensures costs { HasReported result → CostsOpening D.Disk disk.old disk.new }
    ensures caused { IsCaused result (K.faults sink.old) (K.faults sink.new) (D.faults disk.old) (D.faults disk.new) }
    ensures keeps { KeepsEnd K.faults K.frugal sink.old sink.new }
{
    let found = match recover(alloc, disk) {
        Ok(found) => found,
        Err(fault) => return opening_status(fault),
    };
    match show(sink, &found) {
        Ok(()) => Status::Done,
        Err(status) => status,
    }
}
