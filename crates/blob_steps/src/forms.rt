// The forms of a command line over a source, a sink and a disk.

ghost use Rattle.std.specs.Prelude.{◌≡◌, ◌↔◌, ℕ, List, None, IfSome, IsTrue};
ghost use Rattle.blob_base.specs.Faults.{KeepsEnd};
ghost use Rattle.blob_script.specs.Words.{model_form};
ghost use Rattle.blob_steps.specs.Forms.{Did, IsReportedBy, LeftAlone, Run as WholeRun, layout_of};
ghost use Rattle.blob_steps.specs.Runs.{Closed, IsRaised, KeepsEnds, counts_of};
ghost use Rattle.store_model.specs.Form.{IsForm};

use crate::run::{fresh, steps};
use blob_base::Word;
use blob_report::{print, run_check, run_format, run_show};
use blob_script::{Form, Status};
use disk_model::{Disk, Layout};
use io_ends::{Sink, Source};
use std::alloc::Global;

/// The layout of the store that a form of a command line makes, where it makes one.
pub fn layout_of(form: Form) -> Option<Layout>
    requires { (words : List (List ℕ)) × IsForm words (model_form form) }
    ensures { result ≡ layout_of (model_form form) }
{
    match form {
        Form::Format { units, room } => Some(Layout { units, room }),
        Form::Fresh { units, room } => Some(Layout { units, room }),
        Form::Steps => None,
        Form::Show => None,
        Form::Check => None,
    }
}

// Runs a form, up to the closing line.
fn run_form<S: Source, K: Sink, D: Disk>(
    alloc: Global,
    form: Form,
    source: &mut S,
    sink: &mut K,
    mut disk: D,
) -> (Status, D)
    requires { (words : List (List ℕ)) × IsForm words (model_form form) }
    ensures did { Did S.Source K.Sink D.Disk (model_form form) source.old sink.old disk result.0 source.new sink.new result.1 }
    ensures form { result.0 ≡ Status.Usage → ⊥ }
    ensures raised { IsRaised result.0
        (counts_of S.Source K.Sink D.Disk source.old sink.old disk)
        (counts_of S.Source K.Sink D.Disk source.new sink.new result.1) }
    ensures keeps { KeepsEnds S.Source K.Sink D.Disk source.old sink.old disk source.new sink.new result.1 }
{
    let status = match form {
        Form::Fresh { units, room } => {
            return fresh(alloc, Layout { units, room }, source, sink, disk);
        }
        Form::Steps => return steps(alloc, source, sink, disk),
        Form::Format { units, room } => run_format(Layout { units, room }, sink, &mut disk),
        Form::Show => run_show(alloc, sink, &mut disk),
        Form::Check => return run_check(alloc, sink, disk),
    };
    (status, disk)
}

// Runs the form that the words are, where they are one, up to the closing line.
fn run_words<S: Source, K: Sink, D: Disk>(
    alloc: Global,
    form: Option<Form>,
    source: &mut S,
    sink: &mut K,
    disk: D,
) -> (Status, D)
    requires { IfSome form (λ form. (words : List (List ℕ)) × IsForm words (model_form form)) }
    ensures usage { (result.0 ≡ Status.Usage) ↔ (form ≡ None) }
    ensures alone { form ≡ None → LeftAlone source.old sink.old disk source.new sink.new result.1 }
    ensures did { IfSome form (λ form.
        Did S.Source K.Sink D.Disk (model_form form) source.old sink.old disk result.0 source.new sink.new result.1) }
    ensures raised { IsRaised result.0
        (counts_of S.Source K.Sink D.Disk source.old sink.old disk)
        (counts_of S.Source K.Sink D.Disk source.new sink.new result.1) }
    ensures keeps { KeepsEnds S.Source K.Sink D.Disk source.old sink.old disk source.new sink.new result.1 }
{
    match form {
        Some(form) => run_form(alloc, form, source, sink, disk),
        None => (Status::Usage, disk),
    }
}

// Whether the report of a check stands in place of the closing line.
fn is_reported(form: Option<Form>, status: &Status) -> bool
    ensures { IsTrue result ↔ IsReportedBy form status.now }
{
    match (form, status) {
        (Some(Form::Check), Status::Damaged { .. }) => true,
        _ => false,
    }
}

// Writes the closing line, where the sink takes it. The report of a check that found damage stands in its place.
fn close<K: Sink>(sink: &mut K, form: Option<Form>, status: &Status)
    ensures closed { (IsReportedBy form status.now → ⊥)
        → Closed status.now (K.frugal sink.old) (K.faults sink.old) (K.faults sink.new) (K.taken sink.old) (K.taken sink.new) }
    ensures reported { IsReportedBy form status.now → sink.new ≡ sink.old }
    ensures keeps { KeepsEnd K.faults K.frugal sink.old sink.new }
{
    if is_reported(form, status) {
        return;
    }
    let _ = print(sink, status.closing().as_slice());
}

/// Runs a command line: its words, the script that a source gives, the sink of its answers and the disk of its store.
/// It answers how the run ended, and the disk.
///
/// The forms of words are `format FILE UNITS ROOM`, which formats a store of UNITS times 1024 data pages and ROOM pages for
/// the states of a half; `fresh FILE UNITS ROOM`, which formats one and answers a script over it line by line; `steps FILE`,
/// which opens the store that the disk has and answers a script over that; `show FILE`, which opens a store and prints its
/// states; and `check FILE`, which opens it, verifies each state and prints which are damaged. FILE isn't looked at: the
/// caller has opened the disk.
/// After a status other than `Done` one closing line is written where the sink takes it, but for a check that found damage,
/// whose report stands instead.
pub fn run_alone<S: Source, K: Sink, D: Disk>(
    alloc: Global,
    words: &[Word],
    source: &mut S,
    sink: &mut K,
    disk: D,
) -> (Status, D)
    ensures { WholeRun S.Source K.Sink D.Disk words.now source.old sink.old disk result.0 source.new sink.new result.1 }
{
    let form = Form::read(words);
    let (status, disk) = run_words(alloc, form, source, sink, disk);
    close(sink, form, &status);
    (status, disk)
}
