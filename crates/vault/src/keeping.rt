// What a vault keeps of its opening and of what it has done, as data: what a crash may leave is told by these.

ghost use Rattle.std.specs.Prelude.{◌≡◌, ◌++◌, [], ◌∷◌, IfOk, OnErr, OnOk, length, map, take, zip};
ghost use Rattle.store_model.specs.Half.{tuples_spelling};
ghost use Rattle.vault.specs.Keeps.{IsBegun, done_of};
ghost use Rattle.vault.specs.Pours.{AreAt, requests_at};

use crate::done::{History, make_done};
use blob_base::{Bytes, Listed, Numbers, OutOfMemory};
use blob_state::encode;
use frame_codec::Entries;
use group_plan::Queue;
use relation::Relation;
use std::alloc::Global;
use std::mem;

/// The states that a store was opened with, as a half spells them, and the number of its last entry.
#[derive(Drop)]
pub struct Opened {
    pub states: Bytes,
    pub last: u64,
}

/// What a vault keeps: what it was opened with, the last number of each group that committed, the body of the group whose lead
/// failed, which is empty where none did, and the committed transactions.
#[derive(Drop)]
pub struct Keeping {
    pub opened: Opened,
    pub groups: Numbers,
    pub failed: Bytes,
    pub history: History,
}

// States, as a half spells them.
fn states_form(alloc: Global, relation: &Relation) -> Result<Bytes, OutOfMemory>
    ensures { IfOk result (λ bytes. bytes ≡ tuples_spelling relation.now.states) }
{
    let mut bytes = Bytes::new(alloc);
    'spelled: for i in 0..relation.len() {
        let (key, state) = relation.nth(i);
        encode(alloc, key, state, &mut bytes)?;
    }
    Ok(bytes)
}

// Adds what is kept of entries. Where there is no memory, some of it may have been added.
fn add_all(
    alloc: Global,
    history: &mut History,
    queue: &Queue,
    entries: &Entries,
    members: &Listed<usize>,
) -> Result<(), OutOfMemory>
    requires { AreAt queue.now entries.now members.now }
    ensures added { OnOk result (history.new ≡ history.old ++ map done_of (zip (requests_at queue.now members.now) entries.now)) }
    ensures front { take (length history.old) history.new ≡ history.old }
{
    'added: for i in 0..entries.len() {
        let request = queue.get(*members.get(i));
        let one = make_done(alloc, request, entries.get(i))?;
        history.push(alloc, one)?;
    }
    Ok(())
}

// Keeps the first so many of a list.
fn cut<T: Drop>(alloc: Global, list: &mut Listed<T>, count: usize)
    ensures { list.new ≡ take count list.old }
{
    let mut items = mem::replace(list, Listed::new(alloc)).into_vec();
    items.truncate(count);
    *list = Listed::from_vec(items);
}

impl Keeping {
    /// What is kept of a store that is opened.
    pub(crate) fn open(
        alloc: Global,
        relation: &Relation,
        last: u64,
    ) -> Result<Keeping, OutOfMemory>
        ensures { IfOk result (λ keeping. IsBegun relation.now.states last keeping) }
    {
        let states = states_form(alloc, relation)?;
        Ok(Keeping {
            opened: Opened { states, last },
            groups: Numbers::new(alloc),
            failed: Bytes::new(alloc),
            history: History::new(alloc),
        })
    }

    /// Adds a group, whose last number is this one. Where there is no memory, all is as before.
    pub(crate) fn gain(
        &mut self,
        alloc: Global,
        queue: &Queue,
        entries: &Entries,
        members: &Listed<usize>,
        last: u64,
    ) -> Result<(), OutOfMemory>
        requires { AreAt queue.now entries.now members.now }
        ensures history { OnOk result (self.new.history ≡ self.old.history ++ map done_of (zip (requests_at queue.now members.now) entries.now)) }
        ensures groups { OnOk result (self.new.groups ≡ self.old.groups ++ last ∷ []) }
        ensures opened { self.new.opened ≡ self.old.opened }
        ensures failed { self.new.failed ≡ self.old.failed }
        ensures err { OnErr result (self.new ≡ self.old) }
    {
        let count = self.history.len();
        let added = add_all(alloc, &mut self.history, queue, entries, members);
        let done = match added {
            Ok(()) => self.groups.push(alloc, last),
            Err(e) => Err(e),
        };
        if done.is_err() {
            cut(alloc, &mut self.history, count);
        }
        done
    }

    /// Takes the last group out again, whose lead has failed, and keeps its body.
    pub(crate) fn lose(&mut self, alloc: Global, done: usize, groups: usize, body: Bytes)
        ensures history { self.new.history ≡ take done self.old.history }
        ensures groups { self.new.groups ≡ take groups self.old.groups }
        ensures failed { self.new.failed ≡ body }
        ensures opened { self.new.opened ≡ self.old.opened }
    {
        cut(alloc, &mut self.history, done);
        cut(alloc, &mut self.groups, groups);
        self.failed = body;
    }
}
