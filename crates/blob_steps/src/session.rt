// Sessions.

ghost use Rattle.std.specs.Prelude.{◌≡◌, ◌<◌, ◌≤◌, ◌+◌, ◌^◌, ℕ, Some, None, option_map, IfOk, OnErr, MatchResult};
ghost use Rattle.blob_script.specs.Answers.{model_line};
ghost use Rattle.blob_script.specs.Contents.{content_bytes};
ghost use Rattle.store_model.specs.Store.{Store, number_at};
ghost use Rattle.std.specs.FinMap as map;
ghost use Rattle.store_model.specs.Turn as turn;
ghost use Rattle.store_model.specs.Turn.{put_turn};
ghost use Rattle.store_model.specs.Transaction.{Transaction};
ghost use Rattle.txn.specs.Txns.{own_bytes, print_by, transaction_by};
ghost use Rattle.txn.specs.declared.refusal.TxnRefusal.TheVariants as refusal;
ghost use Rattle.store_model.specs.Turn.{Session as ModelSession};
ghost use Rattle.blob_steps.specs.declared.look.Look.{Look};
ghost use Rattle.blob_steps.specs.Sessions.{Asks, IsNotOpen, LooksTo, SessionStands, TurnsTo, refused_line};

use blob_base::{Key, OutOfMemory};
use blob_script::{AnswerLine, Content};
use blob_state::{BlobState, Print};
use std::alloc::Global;
use std::mem;
use tier_table::MAX_SIZE;
use txn::{Read, Request, Txn, TxnRefusal};

/// What a session has under way: no transaction, an open one, or one whose request is queued.
#[derive(Drop)]
pub(crate) enum Stage {
    Free,
    Open { txn: Txn },
    Waiting,
}

/// A session: how many transactions it has begun, and what it has under way.
#[derive(Drop)]
pub(crate) struct Session {
    pub(crate) begun: u64,
    pub(crate) stage: Stage,
}

/// What a look is answered.
#[derive(Drop)]
pub(crate) enum Looked {
    /// This line.
    Line { line: AnswerLine },
    /// What the transaction itself puts under the key.
    Own,
    /// What the store has under the key.
    Stored,
}

// What a refusal is answered, but for want of memory.
fn refusal_line(refusal: TxnRefusal) -> Result<AnswerLine, OutOfMemory>
    ensures { MatchResult result (λ line. refused_line refusal ≡ Some (model_line line)) (λ _. refused_line refusal ≡ None) }
{
    match refusal {
        TxnRefusal::TooMany { keys } => Ok(AnswerLine::TooMany { keys }),
        TxnRefusal::Stale { now } => Ok(AnswerLine::Stale { now }),
        TxnRefusal::Absent => Ok(AnswerLine::Absent),
        TxnRefusal::TooLong { size } => Ok(AnswerLine::TooLong { size }),
        TxnRefusal::OutOfMemory => Err(OutOfMemory),
    }
}

impl Session {
    /// A session that has begun nothing.
    pub(crate) fn new() -> Session
        ensures begun { result.begun ≡ 0 }
        ensures stands { (number : ℕ) → SessionStands result number turn.new_session }
    {
        Session {
            begun: 0,
            stage: Stage::Free,
        }
    }

    /// Begins a transaction of the session of this number; `front` is the number of the store's last entry.
    pub(crate) fn begin(&mut self, alloc: Global, number: u8, front: u64) -> AnswerLine
        requires number { number < 16 }
        requires begun { self.old.begun < 2 ^ 62 }
        ensures turn { (store : Store) (theirs : ModelSession) → store.last ≡ front → SessionStands self.old number theirs
            → TurnsTo store theirs turn.Begin number self.new (model_line result) }
        ensures begun { self.new.begun ≤ self.old.begun + 1 }
        ensures waits { self.old.stage ≡ Stage.Waiting → self.new.stage ≡ Stage.Waiting }
    {
        match self.stage {
            Stage::Free => {
                self.begun += 1;
                self.stage = Stage::Open {
                    txn: Txn::begin(alloc, number, self.begun, front),
                };
                AnswerLine::Begun
            }
            Stage::Open { .. } => AnswerLine::Already,
            Stage::Waiting => AnswerLine::Busy,
        }
    }

    /// Gives its transaction up.
    pub(crate) fn abort(&mut self) -> AnswerLine
        ensures turn { (store : Store) (theirs : ModelSession) (number : ℕ) → SessionStands self.old number theirs
            → TurnsTo store theirs turn.Abort number self.new (model_line result) }
        ensures begun { self.new.begun ≡ self.old.begun }
        ensures waits { self.old.stage ≡ Stage.Waiting → self.new.stage ≡ Stage.Waiting }
    {
        match self.stage {
            Stage::Free => AnswerLine::NoTransaction,
            Stage::Open { .. } => {
                self.stage = Stage::Free;
                AnswerLine::Aborted
            }
            Stage::Waiting => AnswerLine::Busy,
        }
    }

    /// The request of its open transaction, which it then waits for; or the line that it is answered.
    pub(crate) fn commit(&mut self) -> Result<Request, AnswerLine>
        ensures turn { (store : Store) (theirs : ModelSession) (number : ℕ) → SessionStands self.old number theirs
            → MatchResult result (λ request. Asks theirs number request self.new)
            (λ line. TurnsTo store theirs turn.Commit number self.new (model_line line)) }
        ensures begun { self.new.begun ≡ self.old.begun }
        ensures same { OnErr result (self.new ≡ self.old) }
        ensures not_open { OnErr result (IsNotOpen self.old.stage) }
    {
        match mem::replace(&mut self.stage, Stage::Waiting) {
            Stage::Free => {
                self.stage = Stage::Free;
                Err(AnswerLine::NoTransaction)
            }
            Stage::Open { txn } => Ok(txn.seal()),
            Stage::Waiting => Err(AnswerLine::Busy),
        }
    }

    /// Puts a content under a key.
    pub(crate) fn put(
        &mut self,
        alloc: Global,
        key: &Key,
        content: &Content,
    ) -> Result<AnswerLine, OutOfMemory>
        ensures turn { IfOk result (λ line. (store : Store) (theirs : ModelSession) (number : ℕ) → SessionStands self.old number theirs
            → TurnsTo store theirs (turn.Put key.now (content_bytes content.now)) number self.new (model_line line)) }
        ensures begun { self.new.begun ≡ self.old.begun }
        ensures waits { self.old.stage ≡ Stage.Waiting → self.new.stage ≡ Stage.Waiting }
    {
        match &mut self.stage {
            Stage::Free => Ok(AnswerLine::NoTransaction),
            Stage::Open { txn } => put(alloc, txn, key, content),
            Stage::Waiting => Ok(AnswerLine::Busy),
        }
    }

    /// Deletes a key, which has this state in the store; `front` is the number of the store's last entry.
    pub(crate) fn del(
        &mut self,
        key: &Key,
        now: Option<&BlobState>,
        front: u64,
    ) -> Result<AnswerLine, OutOfMemory>
        ensures turn { IfOk result (λ line. (store : Store) (theirs : ModelSession) (number : ℕ) → store.last ≡ front
            → number_at store key.now ≡ option_map (λ state. state.now.born) now.entry → SessionStands self.old number theirs
            → TurnsTo store theirs (turn.Delete key.now) number self.new (model_line line)) }
        ensures begun { self.new.begun ≡ self.old.begun }
        ensures waits { self.old.stage ≡ Stage.Waiting → self.new.stage ≡ Stage.Waiting }
    {
        match &mut self.stage {
            Stage::Free => Ok(AnswerLine::NoTransaction),
            Stage::Open { txn } => {
                txn.rules();
                match txn.del(key, now, front) {
                    Ok(()) => Ok(AnswerLine::Deleted),
                    Err(refusal) => refusal_line(refusal),
                }
            }
            Stage::Waiting => Ok(AnswerLine::Busy),
        }
    }

    /// Looks at a key, which has this state in the store; `front` is the number of the store's last entry.
    pub(crate) fn look(
        &mut self,
        key: &Key,
        now: Option<&BlobState>,
        front: u64,
    ) -> Result<Looked, OutOfMemory>
        ensures turn { IfOk result (λ looked. (look : Look) (store : Store) (theirs : ModelSession) (number : ℕ) → store.last ≡ front
            → number_at store key.now ≡ option_map (λ state. state.now.born) now.entry → SessionStands self.old number theirs
            → LooksTo look store theirs key.now number self.new looked) }
        ensures begun { self.new.begun ≡ self.old.begun }
        ensures waits { self.old.stage ≡ Stage.Waiting → self.new.stage ≡ Stage.Waiting }
    {
        match &mut self.stage {
            Stage::Free => Ok(Looked::Line {
                line: AnswerLine::NoTransaction,
            }),
            Stage::Open { txn } => {
                txn.rules();
                match txn.read(key, now, front) {
                    Ok(Read::Absent) => Ok(Looked::Line {
                        line: AnswerLine::Absent,
                    }),
                    Ok(Read::Own) => Ok(Looked::Own),
                    Ok(Read::Store) => Ok(Looked::Stored),
                    Ok(Read::Extended) => unreachable!(),
                    Err(refusal) => Ok(Looked::Line {
                        line: refusal_line(refusal)?,
                    }),
                }
            }
            Stage::Waiting => Ok(Looked::Line {
                line: AnswerLine::Busy,
            }),
        }
    }

    /// The content that its open transaction puts under a key; no bytes where it puts none.
    pub(crate) fn own(&self, key: &Key) -> &[u8]
        ensures { (theirs : ModelSession) (number : ℕ) (transaction : Transaction) → SessionStands self.now number theirs
            → theirs.stage ≡ turn.Open transaction → result.now ≡ own_bytes (map.get transaction.changes key.now) }
    {
        match &self.stage {
            Stage::Free => &[],
            Stage::Open { txn } => txn.own(key),
            Stage::Waiting => &[],
        }
    }

    /// The size and the digest of that content, where it puts one.
    pub(crate) fn print(&self, key: &Key) -> Option<Print>
        ensures { (theirs : ModelSession) (number : ℕ) (transaction : Transaction) → SessionStands self.now number theirs
            → theirs.stage ≡ turn.Open transaction
            → option_map (λ print. (print.size, print.digest.bytes)) result ≡ print_by (map.get transaction.changes key.now) }
    {
        match &self.stage {
            Stage::Free => None,
            Stage::Open { txn } => txn.print(key),
            Stage::Waiting => None,
        }
    }
}

// Puts a content under a key in an open transaction.
fn put(
    alloc: Global,
    txn: &mut Txn,
    key: &Key,
    content: &Content,
) -> Result<AnswerLine, OutOfMemory>
    ensures turn { IfOk result (λ line. put_turn (transaction_by txn.old) key.now (content_bytes content.now)
        ≡ record { line = model_line line; stage = turn.Open (transaction_by txn.new) }) }
    ensures session { txn.new.session ≡ txn.old.session }
    ensures nth { txn.new.nth ≡ txn.old.nth }
{
    let size = content.size();
    let done = if size > MAX_SIZE {
        Err(txn.refuse_put(key, size))
    } else {
        txn.put(alloc, key, content.bytes(alloc)?)
    };
    match done {
        Ok(()) => Ok(AnswerLine::Put),
        Err(refusal) => refusal_line(refusal),
    }
}
