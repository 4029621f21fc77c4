// The steps of a script.

ghost use Rattle.std.specs.Prelude.{◌≡◌, ◌↔◌, map, option_map, IfOk, IfErr, IfSome, IsTrue};
ghost use Rattle.store_model.specs.Script.{Session, Skipped, action_of, both, line_of, lone_step, number_below, short_line, step_of_words};
ghost use Rattle.blob_script.specs.declared.step.StepFault.TheVariants as fault;
ghost use Rattle.blob_script.specs.Words.{IsSession, model_step, read_line, TellsOf};

use crate::Action;
use crate::number::number_below;
use crate::word::{is, words_of};
use blob_base::OutOfMemory;
use std::alloc::Global;

// The most bytes that a line has without its end.
const MAX_LINE: usize = 65_536;

// One more than the greatest session.
const SESSION_BOUND: u32 = 16;

/// What a line asks for.
#[derive(Drop)]
pub enum Step {
    /// An action of a session. Sessions are numbered from 0 to 15.
    Session { session: u8, action: Action },
    /// The next group of requests is led.
    Lead,
    /// A checkpoint is written.
    Checkpoint,
}

/// Why no step is read.
#[derive(Clone, Copy, Debug, PartialEq, Eq)]
pub enum StepFault {
    /// The line is none of those that a script may have.
    Malformed,
    /// There was no memory.
    OutOfMemory,
}

impl From<OutOfMemory> for StepFault {
    ghost from_gives = { λ _ e. e ≡ fault.OutOfMemory };

    fn from(_: OutOfMemory) -> Self {
        StepFault::OutOfMemory
    }
}

impl Step {
    /// The step that a line asks for, by its bytes without its end; `None` for a line that is skipped, which has no bytes
    /// or begins with `#`.
    pub fn read(alloc: Global, line: &[u8]) -> Result<Option<Step>, StepFault>
        ensures line { IfOk result (λ step. line_of line.now ≡ read_line step) }
        ensures session { IfOk result (λ step. IfSome step IsSession) }
        ensures fault { IfErr result (λ e. TellsOf e (line_of line.now)) }
    {
        if line.len() > MAX_LINE {
            return Err(StepFault::Malformed);
        }
        if is_skipped(line) {
            return Ok(None);
        }
        let words = words_of(alloc, line)?;
        match read_words(alloc, words.as_slice())? {
            Some(step) => Ok(Some(step)),
            None => Err(StepFault::Malformed),
        }
    }
}

// Whether a line has no bytes or begins with `#`.
fn is_skipped(line: &[u8]) -> bool
    ensures { IsTrue result ↔ (short_line line.now ≡ Skipped) }
{
    line.is_empty() || line[0] == b'#'
}

// The step of a line's words, where they ask for one.
fn read_words(alloc: Global, words: &[&[u8]]) -> Result<Option<Step>, OutOfMemory>
    ensures step { IfOk result (λ step. option_map model_step step ≡ step_of_words (map (λ word. word.now) words.now)) }
    ensures session { IfOk result (λ step. IfSome step IsSession) }
{
    match words {
        [] => Ok(None),
        [word] => Ok(read_lone(word)),
        [session, action @ ..] => read_session(alloc, session, action),
    }
}

// The step of a word that is a line of its own.
fn read_lone(word: &[u8]) -> Option<Step>
    ensures step { option_map model_step result ≡ lone_step word.now }
    ensures session { IfSome result IsSession }
{
    if is(word, b"lead") {
        Some(Step::Lead)
    } else if is(word, b"checkpoint") {
        Some(Step::Checkpoint)
    } else {
        None
    }
}

// The step of a session and the words behind it.
fn read_session(alloc: Global, session: &[u8], words: &[&[u8]]) -> Result<Option<Step>, OutOfMemory>
    ensures step { IfOk result (λ step. option_map model_step step
        ≡ both Session (number_below 16 session.now) (action_of (map (λ word. word.now) words.now))) }
    ensures session { IfOk result (λ step. IfSome step IsSession) }
{
    let Some(session) = number_below(SESSION_BOUND, session) else {
        return Ok(None);
    };
    match Action::read(alloc, words)? {
        Some(action) => Ok(Some(Step::Session {
            session: session as u8,
            action,
        })),
        None => Ok(None),
    }
}
