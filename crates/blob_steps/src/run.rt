// The run of a script over a source, a sink and the store of a disk.

ghost use Rattle.std.specs.Prelude.{◌≡◌, ◌≤◌, ◌+◌, ◌^◌, ℕ, [], List, Option, None, Some, OnOk, IfOk, IfErr, MatchBool, MatchResult, IsTrue, true};
ghost use Rattle.std.specs.Io.KnownBytes.{prepend_known};
ghost use Rattle.blob_base.specs.Faults.{KeepsEnd};
ghost use Rattle.disk_model.specs.Disks.{Keeps};
ghost use Rattle.store_model.specs.Cost.{Cost};
ghost use Rattle.std.specs.FinMap.{FinMap};
ghost use Rattle.store_model.specs.Disk.{Image};
ghost use Rattle.store_model.specs.Key.{key_order};
ghost use Rattle.store_model.specs.Layout.{Layout, data_page};
ghost use Rattle.store_model.specs.Report.{Damage};
ghost use Rattle.store_model.specs.Script.{line_at, lines_of};
ghost use Rattle.store_model.specs.State.{State};
ghost use Rattle.store_model.specs.World.{World as ModelWorld, world_over};
ghost use Rattle.store_model.specs.Standing.{AllHeld};
ghost use Rattle.store_model.specs.Store.{Store as ModelStore};
ghost use Rattle.store_model.specs.Survival.{ReadsAs};
ghost use Rattle.blob_script.specs.Words.{IsSession, model_step};
ghost use Rattle.blob_steps.specs.Breaks.{ComesTo, ComingTo, EndsAtBreak, EndsBreaking, IsBrokenGet, NeverBreaks};
ghost use Rattle.blob_steps.specs.Known.{StoreKnown};
ghost use Rattle.blob_steps.specs.Forms.{DidFresh, DidSteps, IsDamageOfState};
ghost use Rattle.blob_steps.specs.Steps.{DoesFollow, DoesPlay, HaveBegun, IsWorld, StepSurvives, WorldKnown, WorldStands};
ghost use Rattle.blob_steps.specs.Runs.{Ended, EndedSo, IsRaised, IsUndamaged, KeepsEnds, ShowsDamage, counts_of};
ghost use Rattle.blob_steps.specs.Going.{EndsNaming, EndsReading, EndsStep, Going, GoingSo, IsAccepted, IsRunning, StartsOn, reading_ending, step_ending};
ghost use Rattle.blob_steps.specs.Nexts.{HasSession, IsAlways, IsLine, IsNeverBuilt, IsNext, IsUnbuilt, TellsLine, next_line};
ghost use Rattle.recover.specs.Openings.{LeavesFrom};
ghost use Rattle.vault.specs.Leads.{StoreStands};

use crate::fault::StoreFault;
use crate::line::{Found, LineFault, LineReader};
use crate::world::{Played, World, new_sessions};
use blob_base::{Bytes, IoFault};
use blob_report::{opening_status, print};
use blob_script::{Status, Step, StepFault};
use disk_model::{Disk, Layout};
use io_ends::{Sink, Source};
use recover::format;
use std::alloc::Global;
use vault::Vault;

// How many lines a script may have.
const MAX_LINES: u64 = 1_000_000;

// A run on the way.
#[derive(Drop)]
struct Run<D: Disk> {
    reader: LineReader,
    world: World<D>,
    line: Bytes,
    text: Bytes,
}

// What was found at the front of what is left of a script.
#[derive(Drop)]
enum Next {
    Step { step: Step },
    Skipped,
    End,
}

impl<D: Disk> Run<D> {
    fn over(alloc: Global, world: World<D>) -> Run<D>
        ensures reader { result.reader ≡ [] }
        ensures world { result.world ≡ world }
    {
        Run {
            reader: LineReader::new(),
            world,
            line: Bytes::new(alloc),
            text: Bytes::new(alloc),
        }
    }

    // Takes the line of this number off the script.
    fn next<S: Source>(
        &mut self,
        alloc: Global,
        number: u64,
        source: &mut S,
    ) -> Result<Next, Status>
        ensures next { IfOk result (IsNext number (prepend_known self.old.reader (S.left source.old))
            (prepend_known self.new.reader (S.left source.new))) }
        ensures few { IfOk result (λ next. IsLine next → number ≤ MAX_LINES) }
        ensures ends { IfErr result (λ status. EndsReading status number (prepend_known self.old.reader (S.left source.old))
            (S.faults source.old) (S.faults source.new)) }
        ensures world { self.new.world ≡ self.old.world }
        ensures keeps { KeepsEnd S.faults S.frugal source.old source.new }
    {
        match self.reader.next_line(alloc, source, &mut self.line) {
            Ok(Found::Line) => read_line(alloc, number, self.line.as_slice()),
            Ok(Found::LongLine) => Err(Status::Malformed { line: number }),
            Ok(Found::End) => Ok(Next::End),
            Err(fault) => Err(reading_status(fault)),
        }
    }

    // Does the step that the line of this number asks for, and makes its answer the text.
    fn do_step(&mut self, alloc: Global, number: u64, step: Step) -> Result<(), Status>
        requires sound { IsWorld self.old.world }
        requires begun { HaveBegun (2 ^ 61) self.old.world }
        requires session { IsSession step }
        ensures step { (world : ModelWorld) → WorldStands self.old.world world
            → OnOk result (DoesPlay D.Disk world (model_step step) self.new.text self.old.world self.new.world Played.Answered) }
        ensures follows { (world : ModelWorld) → WorldKnown self.old.world world
            → OnOk result (DoesFollow D.Disk world (model_step step) self.old.world self.new.world Played.Answered) }
        ensures breaks { IsTrue D.tells → (world : ModelWorld) → WorldKnown self.old.world world
            → MatchResult result (λ _. NeverBreaks D.Disk self.old.world world (model_step step)) (EndsBreaking D.Disk self.old.world world (model_step step)) }
        ensures unbuilt { (world : ModelWorld) → WorldStands self.old.world world
            → IfErr result (IsUnbuilt self.old.world.vault.memory.layout world (model_step step) number self.old.world.vault self.new.world.vault) }
        ensures always { OnOk result (IsAlways (model_step step) Played.Answered) }
        ensures never { IfErr result (IsNeverBuilt number (model_step step)) }
        ensures damage { (world : ModelWorld) → WorldStands self.old.world world
            → IfErr result (λ status. ShowsDamage status world.store.objects) }
        ensures among { IfErr result IsDamageOfState }
        ensures named { IfErr result (EndsNaming (model_step step)) }
        ensures whole { IsTrue D.tells → (world : ModelWorld) → WorldStands self.old.world world
            → AllHeld (D.story self.old.world.vault.disk).reads self.old.world.vault.memory.layout world.store.objects
            → IfErr result IsUndamaged }
        ensures sound { OnOk result (IsWorld self.new.world) }
        ensures begun { (n : ℕ) → HaveBegun n self.old.world → OnOk result (HaveBegun (n + 1) self.new.world) }
        ensures reader { self.new.reader ≡ self.old.reader }
        ensures layout { self.new.world.vault.memory.layout ≡ self.old.world.vault.memory.layout }
        ensures survives { StepSurvives D.Disk (model_step step) self.old.world self.new.world }
        ensures keeps { Keeps D.Disk self.old.world.vault.disk self.new.world.vault.disk }
        ensures ends { IfErr result (λ status. EndsStep status (D.faults self.old.world.vault.disk) (D.faults self.new.world.vault.disk)) }
    {
        self.text.clear();
        match self.world.step(alloc, step, &mut self.text) {
            Ok(Played::Answered) => Ok(()),
            Ok(Played::NotBuilt) => Err(Status::NotBuilt { line: number }),
            Err(fault) => Err(step_status(fault)),
        }
    }

    // Reads the line of this number and answers it. `false` at the end of the script.
    fn answer_line<S: Source, K: Sink>(
        &mut self,
        alloc: Global,
        number: u64,
        source: &mut S,
        sink: &mut K,
    ) -> Result<bool, Status>
        requires sound { IsWorld self.old.world }
        requires begun { HaveBegun (2 ^ 61) self.old.world }
        ensures going { (start : ModelStore) (before begun : Cost) (since : ℕ) (first old : Option (List ℕ)) (was : _)
            → Going D.Disk start before begun since self.old.world number first (prepend_known self.old.reader (S.left source.old)) old
            (K.taken sink.old) was
            → MatchResult result
            (λ more. MatchBool more
            (Going D.Disk start before begun since self.new.world (number + 1) first (prepend_known self.new.reader (S.left source.new)) old
            (K.taken sink.new) was)
            (Ended D.Disk self.old.world.vault.memory.layout start before begun since (K.frugal sink.old) first old (K.taken sink.new) was
            self.new.world.vault.disk Status.Done))
            (λ status. Ended D.Disk self.old.world.vault.memory.layout start before begun since (K.frugal sink.old) first old (K.taken sink.new) was
            self.new.world.vault.disk status) }
        ensures so { (first old : Option (List ℕ))
            → GoingSo number first (prepend_known self.old.reader (S.left source.old)) old (K.taken sink.old)
            → MatchResult result
            (λ more. MatchBool more
            (GoingSo (number + 1) first (prepend_known self.new.reader (S.left source.new)) old (K.taken sink.new))
            (EndedSo first old (K.taken sink.new) Status.Done))
            (λ status. EndedSo first old (K.taken sink.new) status) }
        ensures breaks { IsTrue D.tells → (layout : Layout) (image : Image) (states : FinMap key_order State) (one : Damage)
            → ComingTo D.Disk layout image states one number (prepend_known self.old.reader (S.left source.old)) self.old.world
            → MatchResult result
            (λ more. MatchBool more
            (ComingTo D.Disk layout image states one (number + 1) (prepend_known self.new.reader (S.left source.new)) self.new.world) ⊥)
            (EndsAtBreak one) }
        ensures few { result ≡ Ok true → number ≤ MAX_LINES }
        ensures sound { OnOk result (IsWorld self.new.world) }
        ensures begun { (n : ℕ) → HaveBegun n self.old.world → OnOk result (HaveBegun (n + 1) self.new.world) }
        ensures layout { self.new.world.vault.memory.layout ≡ self.old.world.vault.memory.layout }
        ensures own { IfErr result IsRunning }
        ensures among { IfErr result IsDamageOfState }
        ensures raised { IfErr result (λ status. IsRaised status
            (counts_of S.Source K.Sink D.Disk source.old sink.old self.old.world.vault.disk)
            (counts_of S.Source K.Sink D.Disk source.new sink.new self.new.world.vault.disk)) }
        ensures keeps { KeepsEnds S.Source K.Sink D.Disk source.old sink.old self.old.world.vault.disk
            source.new sink.new self.new.world.vault.disk }
    {
        self.world.vault.rules();
        match self.next(alloc, number, source)? {
            Next::Step { step } => {
                self.do_step(alloc, number, step)?;
                self.world.vault.rules();
                print(sink, self.text.as_slice())?;
                Ok(true)
            }
            Next::Skipped => Ok(true),
            Next::End => Ok(false),
        }
    }

    // Reads and answers each line, up to the script's end.
    fn answer_all<S: Source, K: Sink>(
        &mut self,
        alloc: Global,
        source: &mut S,
        sink: &mut K,
    ) -> Result<(), Status>
        requires sound { IsWorld self.old.world }
        requires begun { HaveBegun 0 self.old.world }
        requires none { self.old.reader ≡ [] }
        ensures ended { (start : ModelStore) (cost : Cost) (since : ℕ) → StartsOn D.Disk start cost since self.old.world
            → MatchResult result
            (λ _. Ended D.Disk self.old.world.vault.memory.layout start cost cost since (K.frugal sink.old) (S.left source.old)
            (K.taken sink.old) (K.taken sink.new) self.old.world.vault.disk self.new.world.vault.disk Status.Done)
            (λ status. Ended D.Disk self.old.world.vault.memory.layout start cost cost since (K.frugal sink.old) (S.left source.old)
            (K.taken sink.old) (K.taken sink.new) self.old.world.vault.disk self.new.world.vault.disk status) }
        ensures so { MatchResult result
            (λ _. EndedSo (S.left source.old) (K.taken sink.old) (K.taken sink.new) Status.Done)
            (λ status. EndedSo (S.left source.old) (K.taken sink.old) (K.taken sink.new) status) }
        ensures breaks { IsTrue D.tells → (layout : Layout) (image : Image) (states : FinMap key_order State) (one : Damage)
            → ComingTo D.Disk layout image states one 1 (S.left source.old) self.old.world
            → MatchResult result (λ _. ⊥) (EndsAtBreak one) }
        ensures own { IfErr result IsRunning }
        ensures among { IfErr result IsDamageOfState }
        ensures raised { IfErr result (λ status. IsRaised status
            (counts_of S.Source K.Sink D.Disk source.old sink.old self.old.world.vault.disk)
            (counts_of S.Source K.Sink D.Disk source.new sink.new self.new.world.vault.disk)) }
        ensures keeps { KeepsEnds S.Source K.Sink D.Disk source.old sink.old self.old.world.vault.disk
            source.new sink.new self.new.world.vault.disk }
    {
        self.world.vault.rules();
        for number in 1..MAX_LINES + 2 {
            if !self.answer_line(alloc, number, source, sink)? {
                return Ok(());
            }
        }
        // The line behind the last that a script may have is malformed.
        unreachable!()
    }
}

// What the line of this number is.
fn read_line(alloc: Global, number: u64, line: &[u8]) -> Result<Next, Status>
    ensures line { IfOk result (λ next. line_at number line.now ≡ next_line next) }
    ensures some { IfOk result IsLine }
    ensures session { IfOk result HasSession }
    ensures few { OnOk result (number ≤ MAX_LINES) }
    ensures ends { IfErr result (TellsLine number (line_at number line.now)) }
{
    if number > MAX_LINES {
        return Err(Status::Malformed { line: number });
    }
    match Step::read(alloc, line) {
        Ok(Some(step)) => Ok(Next::Step { step }),
        Ok(None) => Ok(Next::Skipped),
        Err(StepFault::Malformed) => Err(Status::Malformed { line: number }),
        Err(StepFault::OutOfMemory) => Err(Status::OutOfMemory),
    }
}

// The status of a line that wasn't read.
fn reading_status(fault: LineFault) -> Status
    ensures { result ≡ reading_ending fault }
{
    match fault {
        LineFault::Source {
            cause: IoFault::Failed,
        } => Status::ReadFault,
        LineFault::Source {
            cause: IoFault::OutOfMemory,
        } => Status::OutOfMemory,
        LineFault::OutOfMemory => Status::OutOfMemory,
    }
}

// The status of a step that has no answer.
fn step_status(fault: StoreFault) -> Status
    ensures { result ≡ step_ending fault }
{
    match fault {
        StoreFault::Failed => Status::DiskFault,
        StoreFault::OutOfMemory => Status::OutOfMemory,
        StoreFault::Damaged {
            key,
            link,
            want,
            got,
        } => Status::Damaged {
            key,
            link,
            want,
            got,
        },
    }
}

// The status of a script's run that ended.
fn ended_status(ended: Result<(), Status>) -> Status
    ensures { MatchResult ended (λ _. result ≡ Status.Done) (λ status. result ≡ status) }
{
    match ended {
        Ok(()) => Status::Done,
        Err(status) => status,
    }
}

// Runs a script over a vault, up to its end, and closes the vault.
fn run_script<S: Source, K: Sink, D: Disk>(
    alloc: Global,
    vault: Vault<D>,
    source: &mut S,
    sink: &mut K,
) -> (Status, D)
    requires open { vault.shut ≡ None }
    ensures ended { (start : ModelStore) (cost : Cost) (since : ℕ) → StoreStands vault.memory start → cost.gate ≡ vault.memory.log.gate
        → (IsTrue D.tells → AllHeld (D.story vault.disk).reads vault.memory.layout start.objects)
        → (IsTrue D.tells → LeavesFrom D.Disk (λ image. ReadsAs (D.size vault.disk) image vault.memory.layout start.objects start.last) since vault.disk)
        → Ended D.Disk vault.memory.layout start cost cost since (K.frugal sink.old) (S.left source.old) (K.taken sink.old) (K.taken sink.new)
        vault.disk result.1 result.0 }
    ensures breaks { IsTrue D.tells → (image : Image) (start : ModelStore) (script : List ℕ) (one : Damage) → StoreKnown vault.memory start
        → ((at : ℕ) → (D.story vault.disk).reads (data_page vault.memory.layout + at) ≡ image (data_page vault.memory.layout + at))
        → S.left source.old ≡ Some script
        → ComesTo vault.memory.layout (IsBrokenGet image (data_page vault.memory.layout) vault.memory.relation.states) one 1 (lines_of script) (world_over start)
        → EndsAtBreak one result.0 }
    ensures so { EndedSo (S.left source.old) (K.taken sink.old) (K.taken sink.new) result.0 }
    ensures own { IsAccepted result.0 }
    ensures among { IsDamageOfState result.0 }
    ensures raised { IsRaised result.0
        (counts_of S.Source K.Sink D.Disk source.old sink.old vault.disk)
        (counts_of S.Source K.Sink D.Disk source.new sink.new result.1) }
    ensures keeps { KeepsEnds S.Source K.Sink D.Disk source.old sink.old vault.disk source.new sink.new result.1 }
{
    let Ok(sessions) = new_sessions(alloc) else {
        return (Status::OutOfMemory, vault.close());
    };
    let world = World::over(alloc, vault, sessions);
    let mut run = Run::over(alloc, world);
    let status = ended_status(run.answer_all(alloc, source, sink));
    (status, run.world.vault.close())
}

/// Opens the store of a disk, and runs a script over it.
pub(crate) fn steps<S: Source, K: Sink, D: Disk>(
    alloc: Global,
    source: &mut S,
    sink: &mut K,
    disk: D,
) -> (Status, D)
    ensures did { (cost : Cost) → DidSteps S.Source K.Sink D.Disk cost source.old sink.old disk result.0 source.new sink.new result.1 }
    ensures form { result.0 ≡ Status.Usage → ⊥ }
    ensures raised { IsRaised result.0
        (counts_of S.Source K.Sink D.Disk source.old sink.old disk)
        (counts_of S.Source K.Sink D.Disk source.new sink.new result.1) }
    ensures keeps { KeepsEnds S.Source K.Sink D.Disk source.old sink.old disk source.new sink.new result.1 }
{
    match Vault::open(alloc, disk) {
        Ok(vault) => run_script(alloc, vault, source, sink),
        Err(failed) => (opening_status(failed.fault), failed.disk),
    }
}

/// Formats a disk as a store of this layout, opens it, and runs a script over it.
pub(crate) fn fresh<S: Source, K: Sink, D: Disk>(
    alloc: Global,
    layout: Layout,
    source: &mut S,
    sink: &mut K,
    mut disk: D,
) -> (Status, D)
    ensures did { DidFresh S.Source K.Sink D.Disk layout source.old sink.old disk result.0 source.new sink.new result.1 }
    ensures form { result.0 ≡ Status.Usage → ⊥ }
    ensures raised { IsRaised result.0
        (counts_of S.Source K.Sink D.Disk source.old sink.old disk)
        (counts_of S.Source K.Sink D.Disk source.new sink.new result.1) }
    ensures keeps { KeepsEnds S.Source K.Sink D.Disk source.old sink.old disk source.new sink.new result.1 }
{
    match format(&mut disk, layout) {
        Ok(()) => steps(alloc, source, sink, disk),
        Err(fault) => (opening_status(fault), disk),
    }
}
