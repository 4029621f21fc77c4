// The world of a run: its vault, its sessions and their queue.

ghost use Rattle.std.specs.Prelude.{◌≡◌, ◌<◌, ◌≤◌, ◌^◌, ◌++◌, [], length, map, None, IfErr, IfOk, IsTrue, MatchResult, OnOk, Some};
ghost use Rattle.std.specs.List.{All};
ghost use Rattle.blob_script.specs.Answers.{model_line};
ghost use Rattle.blob_script.specs.Contents.{content_bytes};
ghost use Rattle.blob_script.specs.Words.{IsSession, model_action, model_step};
ghost use Rattle.disk_model.specs.Disks.{OnlyReads};
ghost use Rattle.group_plan.specs.Plans.{model_reply};
ghost use Rattle.store_model.specs.Answer.{Session as SessionAnswer, answer_text};
ghost use Rattle.store_model.specs.Play.{transact};
ghost use Rattle.store_model.specs.Script as script;
ghost use Rattle.store_model.specs.Store.{Store as ModelStore};
ghost use Rattle.store_model.specs.Turn as turn;
ghost use Rattle.store_model.specs.World.{World as ModelWorld, checkpointed, lead, reply_line, transaction_of, world_over};
ghost use Rattle.std.specs.FinMap as map;
ghost use Rattle.txn.specs.Txns.{own_bytes};
ghost use Rattle.blob_steps.specs.Breaks.{BreaksFault, NeverBreaks};
ghost use Rattle.blob_steps.specs.Faults.{IsUndamagedFault, NamesGet};
ghost use Rattle.blob_steps.specs.Known.{StoreKnown};
ghost use Rattle.blob_steps.specs.Looks.{show_of};
ghost use Rattle.blob_steps.specs.declared.session.Looked.TheVariants as Looked;
ghost use Rattle.blob_steps.specs.Nexts.{IsAlways};
ghost use Rattle.blob_steps.specs.Sessions.{HasLooked, HasTurned, IsPut, look_action};
ghost use Rattle.blob_steps.specs.Steps.{AreNew, CameTo, DoesFollow, DoesPlay, Follows, HaveBegun, IsWorld, LeavesFree, Replying, StepSurvives, Stepped, TakesTurn, WorldKnown, WorldStands, replies_text};
ghost use Rattle.vault.specs.Leads.{StoreStands};

use crate::fault::StoreFault;
use crate::look::Look;
use crate::session::{Looked, Session, Stage};
use crate::showing::show;
use blob_base::{Bytes, Key, Listed, OutOfMemory};
use blob_script::{Action, Answer, AnswerLine, Content, Step};
use disk_model::Disk;
use group_plan::{Queue, Replies, Reply};
use std::alloc::Global;
use vault::Vault;

// How many sessions there are.
const SESSIONS: usize = 16;

/// The vault of a run, its sessions by their numbers, and the requests in its queue.
#[derive(Drop)]
pub(crate) struct World<D: Disk> {
    pub(crate) vault: Vault<D>,
    pub(crate) sessions: Vec<Session>,
    pub(crate) queue: Queue,
}

/// What came of a step.
#[derive(Clone, Copy, Debug, PartialEq, Eq)]
pub(crate) enum Played {
    /// It was answered.
    Answered,
    /// Its verb isn't built.
    NotBuilt,
}

// Adds a session's answer to the text.
fn answer(alloc: Global, text: &mut Bytes, session: u8, line: AnswerLine) -> Result<(), OutOfMemory>
    ensures { OnOk result (text.new ≡ text.old ++ answer_text (SessionAnswer session (model_line line) None)) }
{
    let answer = Answer::Session {
        session,
        line,
        at: None,
    };
    answer.print(alloc, text)
}

// A reply as an answer.
fn reply_line(reply: &Reply) -> AnswerLine
    ensures { model_line result ≡ reply_line (model_reply reply.now) }
{
    match reply {
        Reply::Committed { number } => AnswerLine::Committed { number: *number },
        Reply::Conflict { key, read, now } => AnswerLine::Conflict {
            key: key.copy(),
            read: *read,
            now: *now,
        },
        Reply::NoNumber { last } => AnswerLine::NoNumber { last: *last },
        Reply::NoSpace { key, tier } => AnswerLine::NoSpace {
            key: key.copy(),
            tier: *tier,
        },
        Reply::NoRoom { need, have } => AnswerLine::NoRoom {
            need: *need,
            have: *have,
        },
        Reply::Ahead { seen, front } => AnswerLine::Ahead {
            seen: *seen,
            front: *front,
        },
    }
}

// Deletes a key in a session's transaction.
fn delete<D: Disk>(
    vault: &Vault<D>,
    sessions: &mut Vec<Session>,
    session: u8,
    key: &Key,
) -> Result<AnswerLine, OutOfMemory>
    requires session { session < length sessions.old.items }
    ensures { IfOk result (λ line. HasTurned vault.now.memory sessions.old.items sessions.new.items session (turn.Delete key.now) (model_line line)) }
{
    let now = vault.look(key);
    sessions[session as usize].del(key, now, vault.front())
}

// Looks at a key in a session's transaction.
fn find<D: Disk>(
    vault: &Vault<D>,
    sessions: &mut Vec<Session>,
    session: u8,
    key: &Key,
) -> Result<Looked, OutOfMemory>
    requires session { session < length sessions.old.items }
    ensures { IfOk result (HasLooked vault.now.memory sessions.old.items sessions.new.items session key.now) }
{
    let now = vault.look(key);
    sessions[session as usize].look(key, now, vault.front())
}

// The sessions of the requests in a queue.
fn waiting(alloc: Global, queue: &Queue) -> Result<Listed<u8>, OutOfMemory>
    ensures { IfOk result (λ numbers. numbers ≡ map (λ request. request.session) queue.now) }
{
    let mut numbers = Listed::new(alloc);
    'taken: for i in 0..queue.len() {
        numbers.push(alloc, queue.get(i).session)?;
    }
    Ok(numbers)
}

/// Sixteen sessions that have begun nothing.
pub(crate) fn new_sessions(alloc: Global) -> Result<Vec<Session>, OutOfMemory>
    ensures count { IfOk result (λ sessions. length sessions.items ≡ 16) }
    ensures new { IfOk result (λ sessions. AreNew sessions.items) }
{
    let mut sessions = Vec::new(alloc);
    'made: for _ in 0..SESSIONS {
        sessions.push(Session::new())?;
    }
    Ok(sessions)
}

impl<D: Disk> World<D> {
    /// A vault that isn't shut, and sessions that have begun nothing.
    pub(crate) fn over(alloc: Global, vault: Vault<D>, sessions: Vec<Session>) -> World<D>
        requires open { vault.shut ≡ None }
        requires count { length sessions.items ≡ 16 }
        requires new { AreNew sessions.items }
        ensures sound { IsWorld result }
        ensures vault { result.vault ≡ vault }
        ensures begun { HaveBegun 0 result }
        ensures stands { (store : ModelStore) → StoreStands vault.memory store → WorldStands result (world_over store) }
        ensures known { (store : ModelStore) → StoreKnown vault.memory store → WorldKnown result (world_over store) }
    {
        World {
            vault,
            sessions,
            queue: Queue::new(alloc),
        }
    }

    /// A step, whose answer is added to the text. After an `Err` nothing is said of the world.
    pub(crate) fn step(
        &mut self,
        alloc: Global,
        step: Step,
        text: &mut Bytes,
    ) -> Result<Played, StoreFault>
        requires sound { IsWorld self.old }
        requires begun { HaveBegun (2 ^ 61) self.old }
        requires session { IsSession step }
        requires none { text.old ≡ [] }
        ensures play { (world : ModelWorld) → WorldStands self.old world
            → IfOk result (DoesPlay D.Disk world (model_step step) text.new self.old self.new) }
        ensures always { IfOk result (IsAlways (model_step step)) }
        ensures follows { (world : ModelWorld) → WorldKnown self.old world
            → IfOk result (DoesFollow D.Disk world (model_step step) self.old self.new) }
        ensures breaks { IsTrue D.tells → (world : ModelWorld) → WorldKnown self.old world
            → MatchResult result (λ _. NeverBreaks D.Disk self.old world (model_step step)) (BreaksFault D.Disk self.old world (model_step step)) }
        ensures stepped { Stepped D.Disk self.old self.new result }
        ensures named { IfErr result (NamesGet (model_step step)) }
        ensures survives { StepSurvives D.Disk (model_step step) self.old self.new }
    {
        match step {
            Step::Session { session, action } => self.turn(alloc, session, action, text),
            Step::Lead => {
                self.lead(alloc, text)?;
                Ok(Played::Answered)
            }
            Step::Checkpoint => {
                self.checkpoint(alloc, text)?;
                Ok(Played::Answered)
            }
        }
    }

    // An action of a session.
    fn turn(
        &mut self,
        alloc: Global,
        session: u8,
        action: Action,
        text: &mut Bytes,
    ) -> Result<Played, StoreFault>
        requires sound { IsWorld self.old }
        requires begun { HaveBegun (2 ^ 61) self.old }
        requires session { session < 16 }
        requires none { text.old ≡ [] }
        ensures play { (world : ModelWorld) → WorldStands self.old world
            → IfOk result (DoesPlay D.Disk world (script.Session session (model_action action)) text.new self.old self.new) }
        ensures always { IfOk result (IsAlways (script.Session session (model_action action))) }
        ensures follows { (world : ModelWorld) → WorldKnown self.old world
            → IfOk result (DoesFollow D.Disk world (script.Session session (model_action action)) self.old self.new) }
        ensures breaks { IsTrue D.tells → (world : ModelWorld) → WorldKnown self.old world
            → MatchResult result (λ _. NeverBreaks D.Disk self.old world (script.Session session (model_action action)))
            (BreaksFault D.Disk self.old world (script.Session session (model_action action))) }
        ensures stepped { Stepped D.Disk self.old self.new result }
        ensures named { IfErr result (NamesGet (script.Session session (model_action action))) }
        ensures only_reads { OnlyReads D.Disk self.old.vault.disk self.new.vault.disk }
    {
        let line = match action {
            Action::Begin => self.begin(alloc, session),
            Action::Commit => self.commit(alloc, session)?,
            Action::Abort => self.abort(session),
            Action::Put { key, content } => self.put(alloc, session, &key, &content)?,
            Action::Del { key } => self.del(session, &key)?,
            Action::Get { key } => {
                self.look(alloc, session, Look::Get, &key, text)?;
                return Ok(Played::Answered);
            }
            Action::Stat { key } => {
                self.look(alloc, session, Look::Stat, &key, text)?;
                return Ok(Played::Answered);
            }
            Action::Append { .. } => return Ok(Played::NotBuilt),
            Action::Find { .. } => return Ok(Played::NotBuilt),
            Action::Order { .. } => return Ok(Played::NotBuilt),
            Action::Open { .. } => return Ok(Played::NotBuilt),
            Action::Ls { .. } => return Ok(Played::NotBuilt),
            Action::Pread { .. } => return Ok(Played::NotBuilt),
            Action::Close { .. } => return Ok(Played::NotBuilt),
        };
        answer(alloc, text, session, line)?;
        Ok(Played::Answered)
    }

    // A begin of a session.
    fn begin(&mut self, alloc: Global, session: u8) -> AnswerLine
        requires sound { IsWorld self.old }
        requires begun { HaveBegun (2 ^ 61) self.old }
        requires session { session < 16 }
        ensures { TakesTurn self.old self.new session turn.Begin (model_line result) }
    {
        let front = self.vault.front();
        self.sessions[session as usize].begin(alloc, session, front)
    }

    // An abort of a session.
    fn abort(&mut self, session: u8) -> AnswerLine
        requires sound { IsWorld self.old }
        requires session { session < 16 }
        ensures { TakesTurn self.old self.new session turn.Abort (model_line result) }
    {
        self.sessions[session as usize].abort()
    }

    // A commit of a session, whose request is then the last in the queue.
    fn commit(&mut self, alloc: Global, session: u8) -> Result<AnswerLine, OutOfMemory>
        requires sound { IsWorld self.old }
        requires session { session < 16 }
        ensures turn { IfOk result (λ line. TakesTurn self.old self.new session turn.Commit (model_line line)) }
        ensures vault { self.new.vault ≡ self.old.vault }
    {
        match self.sessions[session as usize].commit() {
            Ok(request) => {
                self.queue.push(alloc, request)?;
                Ok(AnswerLine::Queued)
            }
            Err(line) => Ok(line),
        }
    }

    // A put of a session.
    fn put(
        &mut self,
        alloc: Global,
        session: u8,
        key: &Key,
        content: &Content,
    ) -> Result<AnswerLine, OutOfMemory>
        requires sound { IsWorld self.old }
        requires session { session < 16 }
        ensures turn { IfOk result (λ line. TakesTurn self.old self.new session (turn.Put key.now (content_bytes content.now)) (model_line line)) }
        ensures vault { self.new.vault ≡ self.old.vault }
    {
        self.sessions[session as usize].put(alloc, key, content)
    }

    // A delete of a session.
    fn del(&mut self, session: u8, key: &Key) -> Result<AnswerLine, OutOfMemory>
        requires sound { IsWorld self.old }
        requires session { session < 16 }
        ensures turn { IfOk result (λ line. TakesTurn self.old self.new session (turn.Delete key.now) (model_line line)) }
        ensures vault { self.new.vault ≡ self.old.vault }
    {
        delete(&self.vault, &mut self.sessions, session, key)
    }

    // A look of a session at a key, whose answer is added to the text.
    fn look(
        &mut self,
        alloc: Global,
        session: u8,
        look: Look,
        key: &Key,
        text: &mut Bytes,
    ) -> Result<(), StoreFault>
        requires sound { IsWorld self.old }
        requires session { session < 16 }
        requires none { text.old ≡ [] }
        ensures came { (world : ModelWorld) → WorldStands self.old world
            → OnOk result (CameTo D.Disk world (transact world session (look_action look key.now)) text.new self.old self.new) }
        ensures follows { (world : ModelWorld) → WorldKnown self.old world
            → OnOk result (Follows D.Disk (transact world session (look_action look key.now)).world self.old self.new) }
        ensures breaks { IsTrue D.tells → (world : ModelWorld) → WorldKnown self.old world
            → MatchResult result (λ _. NeverBreaks D.Disk self.old world (script.Session session (script.Transact (look_action look key.now))))
            (BreaksFault D.Disk self.old world (script.Session session (script.Transact (look_action look key.now)))) }
        ensures stepped { Stepped D.Disk self.old self.new result }
        ensures named { IfErr result (NamesGet (script.Session session (script.Transact (look_action look key.now)))) }
        ensures only_reads { OnlyReads D.Disk self.old.vault.disk self.new.vault.disk }
    {
        let line = match find(&self.vault, &mut self.sessions, session, key)? {
            Looked::Line { line } => line,
            Looked::Own => {
                self.show_own(alloc, session, look, key, text)?;
                return Ok(());
            }
            Looked::Stored => show(alloc, &mut self.vault, look, key)?,
        };
        answer(alloc, text, session, line)?;
        Ok(())
    }

    // Adds what a look shows of the content that a session's transaction puts under a key.
    fn show_own(
        &self,
        alloc: Global,
        session: u8,
        look: Look,
        key: &Key,
        text: &mut Bytes,
    ) -> Result<(), OutOfMemory>
        requires sixteen { length self.now.sessions.items ≡ 16 }
        requires session { session < 16 }
        ensures { (world : ModelWorld) → WorldStands self.now world → IsPut (world.sessions session).stage key.now Looked.Own
            → OnOk result (text.new ≡ text.old ++ answer_text (SessionAnswer session
            (show_of look (Some (own_bytes (map.get (transaction_of (world.sessions session).stage).changes key.now)))) None)) }
    {
        let one = &self.sessions[session as usize];
        match look {
            Look::Get => Answer::print_value(alloc, text, session, one.own(key)),
            Look::Stat => match one.print(key) {
                Some(print) => answer(
                    alloc,
                    text,
                    session,
                    AnswerLine::Stat {
                        size: print.size,
                        digest: print.digest,
                    },
                ),
                None => Ok(()),
            },
        }
    }

    // A checkpoint, whose answer is added to the text.
    fn checkpoint(&mut self, alloc: Global, text: &mut Bytes) -> Result<(), StoreFault>
        requires sound { IsWorld self.old }
        requires none { text.old ≡ [] }
        ensures came { (world : ModelWorld) → WorldStands self.old world
            → OnOk result (CameTo D.Disk world (checkpointed world) text.new self.old self.new) }
        ensures follows { (world : ModelWorld) → WorldKnown self.old world → OnOk result (Follows D.Disk world self.old self.new) }
        ensures undamaged { IfErr result IsUndamagedFault }
        ensures stepped { Stepped D.Disk self.old self.new result }
        ensures survives { StepSurvives D.Disk script.Checkpoint self.old self.new }
    {
        self.vault.rules();
        self.vault.turn()?;
        Answer::Checkpointed.print(alloc, text)?;
        Ok(())
    }

    // A lead, whose answers are added to the text.
    fn lead(&mut self, alloc: Global, text: &mut Bytes) -> Result<(), StoreFault>
        requires sound { IsWorld self.old }
        requires none { text.old ≡ [] }
        ensures came { (world : ModelWorld) → WorldStands self.old world
            → OnOk result (CameTo D.Disk world (lead self.old.vault.memory.layout world) text.new self.old self.new) }
        ensures follows { (world : ModelWorld) → WorldKnown self.old world → (lead self.old.vault.memory.layout world).commits ≡ []
            → OnOk result (Follows D.Disk (lead self.old.vault.memory.layout world).world self.old self.new) }
        ensures undamaged { IfErr result IsUndamagedFault }
        ensures stepped { Stepped D.Disk self.old self.new result }
        ensures survives { StepSurvives D.Disk script.Lead self.old self.new }
    {
        if self.queue.is_empty() {
            Answer::Idle.print(alloc, text)?;
            return Ok(());
        }
        let numbers = waiting(alloc, &self.queue)?;
        let replies = self.vault.lead(alloc, &mut self.queue)?;
        self.reply_all(alloc, &numbers, &replies, text)?;
        Ok(())
    }

    // Answers the sessions of a group's members, which have nothing under way then.
    fn reply_all(
        &mut self,
        alloc: Global,
        numbers: &Listed<u8>,
        replies: &Replies,
        text: &mut Bytes,
    ) -> Result<(), OutOfMemory>
        requires sixteen { length self.old.sessions.items ≡ 16 }
        requires sessions { All (λ number. number < 16) numbers.now }
        requires few { length replies.now ≤ length numbers.now }
        requires none { text.old ≡ [] }
        ensures replied { OnOk result (Replying (length replies.now) numbers.now self.old self.new) }
        ensures text { OnOk result (text.new ≡ replies_text numbers.now replies.now) }
        ensures vault { self.new.vault ≡ self.old.vault }
    {
        'replied: for i in 0..replies.len() {
            self.reply(alloc, *numbers.get(i), replies.get(i), text)?;
        }
        Ok(())
    }

    // Answers a session, which has nothing under way then.
    fn reply(
        &mut self,
        alloc: Global,
        session: u8,
        reply: &Reply,
        text: &mut Bytes,
    ) -> Result<(), OutOfMemory>
        requires sixteen { length self.old.sessions.items ≡ 16 }
        requires session { session < 16 }
        ensures left { LeavesFree self.old self.new session }
        ensures text { OnOk result (text.new ≡ text.old ++ answer_text (SessionAnswer session (reply_line (model_reply reply.now)) None)) }
    {
        self.sessions[session as usize].stage = Stage::Free;
        answer(alloc, text, session, reply_line(reply))
    }
}
