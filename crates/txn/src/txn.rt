// Transactions on the way.

ghost use Rattle.std.specs.Prelude.{◌≡◌, ◌≢◌, ◌<◌, ◌≤◌, length, not, count_by, is_some, option_map, false, IfOk, IfErr, OnOk, OnErr, MatchResult};
ghost use Rattle.std.specs.FinMap as map;
ghost use Rattle.store_model.specs.Shape.{greatest_size};
ghost use Rattle.store_model.specs.Transaction as model;
ghost use Rattle.store_model.specs.Transaction.{is_touched, new_transaction};
ghost use Rattle.store_model.specs.Turn.{has_moved, is_one_too_many, is_stale, with_changed, with_read};
ghost use Rattle.txn.specs.Refusals.{IsCause, IsDeleteRefusal, IsPutRefusal, IsReadRefusal};
ghost use Rattle.txn.specs.Requests.{model_change, transaction_of};
ghost use Rattle.txn.specs.declared.refusal.TxnRefusal.TheVariants as refusal;
ghost use Rattle.txn.specs.Txns.{Absent, IsTxn, MayRead, NoAppends, is_append, own_bytes, print_by, transaction_by, value_by};
ghost use Rattle.txn.specs.Readings.{model_read};

use crate::{Change, Changes, Drafted, Reads, Request, TxnRefusal};
use blob_base::{Bytes, Key, KeyList, OutOfMemory};
use blob_state::{BlobState, Print};
use std::alloc::Global;
use std::marker::Model;
use tier_table::MAX_SIZE;

// How many keys a transaction may touch.
const MAX_KEYS: usize = 16;

/// What a transaction has read and changed. It touches at most 16 keys.
#[derive(Drop)]
pub struct Txn {
    session: u8,
    nth: u64,
    seen: u64,
    reads: Reads,
    changes: Changes,
}

impl Model for Txn {
    ghost use Rattle.txn.specs.Txns.{IsTxn, Parts, parts_code};

    ghost Value = { Parts };

    ghost coded = { parts_code };

    ghost view = { λ txn. record { session = txn.session; nth = txn.nth; seen = txn.seen; reads = txn.reads; changes = txn.changes } };

    ghost invariant = { λ txn. IsTxn (record { session = txn.session; nth = txn.nth; seen = txn.seen; reads = txn.reads; changes = txn.changes }) };
}

/// What a key has in a transaction that reads it.
#[derive(Clone, Copy, Debug, PartialEq, Eq)]
pub enum Read {
    /// Nothing.
    Absent,
    /// Own bytes alone, under a kept put.
    Own,
    /// What the store has.
    Store,
    /// What the store has and own bytes behind it, under a kept append.
    Extended,
}

// The number of a state, where there is one.
fn number_of(state: Option<&BlobState>) -> Option<u64>
    ensures { result ≡ option_map (λ state. state.now.born) state.entry }
{
    match state {
        Some(state) => Some(state.born()),
        None => None,
    }
}

impl Txn {
    /// A transaction that has read and changed nothing: of a session below 16, whose transaction of number `nth`, from 1
    /// on, it is. `seen` is the number of the last entry that the session was told of.
    pub fn begin(alloc: Global, session: u8, nth: u64, seen: u64) -> Txn
        requires session { session < 16 }
        requires numbered { 1 ≤ nth }
        ensures transaction { transaction_by result ≡ new_transaction seen }
        ensures session { result.session ≡ session }
        ensures nth { result.nth ≡ nth }
    {
        Txn {
            session,
            nth,
            seen,
            reads: Reads::new(alloc),
            changes: Changes::new(alloc),
        }
    }

    // How many of the keys that it changes it hasn't read.
    fn count_unread(&self) -> usize
        ensures { result ≡ count_by (λ key. not (map.contains_key self.now.reads key)) (map.keys self.now.changes) }
    {
        let mut count = 0;
        'counted: for i in 0..self.changes.len() {
            let (key, _) = self.changes.nth(i);
            if !self.reads.contains_key(key) {
                count += 1;
            }
        }
        count
    }

    fn is_touched(&self, key: &Key) -> bool
        ensures { result ≡ is_touched (transaction_by self.now) key.now }
    {
        self.reads.contains_key(key) || self.changes.contains_key(key)
    }

    fn is_one_too_many(&self, key: &Key) -> bool
        ensures { result ≡ is_one_too_many (transaction_by self.now) key.now }
    {
        !self.is_touched(key) && self.reads.len() + self.count_unread() >= MAX_KEYS
    }

    // Whether the key was read with another number than this one.
    fn has_moved(&self, key: &Key, now: Option<u64>) -> bool
        ensures { result ≡ has_moved (map.get self.now.reads key.now) now }
    {
        match self.reads.get(key) {
            Some(seen) => *seen != now,
            None => false,
        }
    }

    // Whether it was, and is neither put nor deleted.
    fn is_stale(&self, key: &Key, now: Option<u64>) -> bool
        ensures { result ≡ is_stale now (transaction_by self.now) key.now }
    {
        match self.changes.get(key) {
            Some(Change::Put { .. }) => false,
            Some(Change::Append { .. }) => self.has_moved(key, now),
            Some(Change::Del) => false,
            None => self.has_moved(key, now),
        }
    }

    // Refuses a read of a key whose number now is this one.
    fn check(&self, key: &Key, now: Option<u64>) -> Result<(), TxnRefusal>
        ensures { MatchResult result (λ _. MayRead (transaction_by self.now) key.now now) (IsReadRefusal (transaction_by self.now) key.now now) }
    {
        if self.is_one_too_many(key) {
            return Err(too_many());
        }
        if self.is_stale(key, now) {
            return Err(TxnRefusal::Stale { now });
        }
        Ok(())
    }

    // What a key has, where the store has something there or not.
    fn value(&self, key: &Key, is_there: bool) -> Read
        ensures { model_read result ≡ value_by (map.get (transaction_by self.now).changes key.now) is_there }
    {
        match self.changes.get(key) {
            Some(Change::Put { .. }) => Read::Own,
            Some(Change::Append { .. }) => Read::Extended,
            Some(Change::Del) => Read::Absent,
            None if is_there => Read::Store,
            None => Read::Absent,
        }
    }

    // Records the read of a key.
    fn record(&mut self, key: &Key, now: Option<u64>, front: u64) -> Result<(), OutOfMemory>
        requires { is_one_too_many (transaction_by self.old) key.now ≡ false }
        ensures ok { OnOk result (transaction_by self.new ≡ with_read front now (transaction_by self.old) key.now) }
        ensures changes { self.new.changes ≡ self.old.changes }
        ensures session { self.new.session ≡ self.old.session }
        ensures nth { self.new.nth ≡ self.old.nth }
        ensures err { OnErr result (self.new ≡ self.old) }
    {
        if !self.is_touched(key) {
            self.reads.insert(key.copy(), now)?;
        }
        self.seen = self.seen.max(front);
        Ok(())
    }

    /// Reads a key, which has this state in the store now; `front` is the number of the store's last entry. It fails where
    /// the key would be one too many or is stale, or where there is no memory, and then leaves the transaction as it was.
    pub fn read(
        &mut self,
        key: &Key,
        now: Option<&BlobState>,
        front: u64,
    ) -> Result<Read, TxnRefusal>
        ensures may { OnOk result (MayRead (transaction_by self.old) key.now (option_map (λ state. state.now.born) now.entry)) }
        ensures value { IfOk result (λ read. model_read read ≡ value_by (map.get (transaction_by self.old).changes key.now) (is_some now.entry)) }
        ensures recorded { OnOk result (transaction_by self.new
            ≡ with_read front (option_map (λ state. state.now.born) now.entry) (transaction_by self.old) key.now) }
        ensures refused { IfErr result (IsReadRefusal (transaction_by self.old) key.now (option_map (λ state. state.now.born) now.entry)) }
        ensures session { self.new.session ≡ self.old.session }
        ensures nth { self.new.nth ≡ self.old.nth }
        ensures err { OnErr result (self.new ≡ self.old) }
    {
        let number = number_of(now);
        self.check(key, number)?;
        self.record(key, number, front)?;
        Ok(self.value(key, now.is_some()))
    }

    /// Own bytes of a key: those that it puts, or that it appends; none where it does neither.
    pub fn own(&self, key: &Key) -> &[u8]
        ensures { result.now ≡ own_bytes (map.get (transaction_by self.now).changes key.now) }
    {
        match self.changes.get(key) {
            Some(Change::Put { drafted }) => drafted.content(),
            Some(Change::Append { extension }) => {
                extension
                    .rest
                    .as_slice()
                    .split_at(extension.moved as usize)
                    .1
            }
            Some(Change::Del) => &[],
            None => &[],
        }
    }

    /// The rules that each transaction keeps.
    pub fn rules(&self)
        ensures { IsTxn self.now }
    {
        // They are known where a field is read.
        let _ = &self.seen;
    }

    /// The size and the digest of the content that it puts under a key, where it does.
    pub fn print(&self, key: &Key) -> Option<Print>
        ensures { option_map (λ print. (print.size, print.digest.bytes)) result
            ≡ print_by (map.get (transaction_by self.now).changes key.now) }
    {
        match self.changes.get(key) {
            Some(Change::Put { drafted }) => {
                let draft = drafted.draft();
                Some(Print {
                    size: draft.size(),
                    digest: *draft.digest(),
                })
            }
            Some(Change::Append { .. }) => unreachable!(),
            Some(Change::Del) => None,
            None => None,
        }
    }

    // Changes a key.
    fn change(&mut self, key: &Key, change: Change) -> Result<(), OutOfMemory>
        requires room { is_one_too_many (transaction_by self.old) key.now ≡ false }
        requires append { is_append change ≡ false }
        ensures ok { OnOk result (transaction_by self.new ≡ with_changed (transaction_by self.old) key.now (model_change change)) }
        ensures session { self.new.session ≡ self.old.session }
        ensures nth { self.new.nth ≡ self.old.nth }
        ensures err { OnErr result (self.new ≡ self.old) }
    {
        self.changes.insert(key.copy(), change)
    }

    /// Puts a content under a key. It fails where the key would be one too many, where the content is longer than
    /// `MAX_SIZE`, or where there is no memory, and then leaves the transaction as it was.
    pub fn put(&mut self, alloc: Global, key: &Key, content: Bytes) -> Result<(), TxnRefusal>
        ensures room { OnOk result (is_one_too_many (transaction_by self.old) key.now ≡ false) }
        ensures short { OnOk result (length content ≤ greatest_size) }
        ensures changed { OnOk result (transaction_by self.new
            ≡ with_changed (transaction_by self.old) key.now (model.Put content)) }
        ensures refused { IfErr result (IsPutRefusal (transaction_by self.old) key.now (length content)) }
        ensures session { self.new.session ≡ self.old.session }
        ensures nth { self.new.nth ≡ self.old.nth }
        ensures err { OnErr result (self.new ≡ self.old) }
    {
        if self.is_one_too_many(key) {
            return Err(too_many());
        }
        let size = content.len() as u64;
        if size > MAX_SIZE {
            return Err(TxnRefusal::TooLong { size });
        }
        let drafted = Drafted::new(alloc, content)?;
        self.change(key, Change::Put { drafted })?;
        Ok(())
    }

    /// Deletes a key, which has this state in the store now; `front` is the number of the store's last entry. It fails where
    /// the key would be one too many or is stale, or where there is no memory, and then leaves the transaction as it was; and
    /// where nothing is there, which is recorded as read.
    pub fn del(&mut self, key: &Key, now: Option<&BlobState>, front: u64) -> Result<(), TxnRefusal>
        ensures may { OnOk result (MayRead (transaction_by self.old) key.now (option_map (λ state. state.now.born) now.entry)) }
        ensures there { OnOk result (value_by (map.get (transaction_by self.old).changes key.now) (is_some now.entry) ≢ Absent) }
        ensures changed { OnOk result (transaction_by self.new ≡ with_changed
            (with_read front (option_map (λ state. state.now.born) now.entry) (transaction_by self.old) key.now) key.now model.Gone) }
        ensures refused { IfErr result (IsDeleteRefusal (transaction_by self.old) key.now
            (option_map (λ state. state.now.born) now.entry)
            (value_by (map.get (transaction_by self.old).changes key.now) (is_some now.entry)) front (transaction_by self.new)) }
        ensures session { self.new.session ≡ self.old.session }
        ensures nth { self.new.nth ≡ self.old.nth }
    {
        let number = number_of(now);
        self.check(key, number)?;
        if let Read::Absent = self.value(key, now.is_some()) {
            self.record(key, number, front)?;
            return Err(TxnRefusal::Absent);
        }
        self.delete_found(key, number, front)?;
        Ok(())
    }

    // Records the read of a key and deletes it.
    fn delete_found(&mut self, key: &Key, now: Option<u64>, front: u64) -> Result<(), OutOfMemory>
        requires { is_one_too_many (transaction_by self.old) key.now ≡ false }
        ensures ok { OnOk result (transaction_by self.new
            ≡ with_changed (with_read front now (transaction_by self.old) key.now) key.now model.Gone) }
        ensures session { self.new.session ≡ self.old.session }
        ensures nth { self.new.nth ≡ self.old.nth }
        ensures err { OnErr result (self.new ≡ self.old) }
    {
        let is_new = !self.is_touched(key);
        let seen = self.seen;
        self.record(key, now, front)?;
        if self.change(key, Change::Del).is_err() {
            if is_new {
                self.reads.remove(key);
            }
            self.seen = seen;
            return Err(OutOfMemory);
        }
        Ok(())
    }

    /// The refusal that a put of so many bytes gets, more than `MAX_SIZE`.
    pub fn refuse_put(&self, key: &Key, size: u64) -> TxnRefusal
        requires { greatest_size < size }
        ensures refused { IsPutRefusal (transaction_by self.now) key.now size result }
        ensures cause { IsCause result }
    {
        if self.is_one_too_many(key) {
            too_many()
        } else {
            TxnRefusal::TooLong { size }
        }
    }

    /// The request that the transaction asks for; it takes no memory.
    pub fn seal(self) -> Request
        ensures session { result.session ≡ self.session }
        ensures nth { result.nth ≡ self.nth }
        ensures transaction { transaction_of result ≡ transaction_by self }
        ensures appends { NoAppends result.writes }
    {
        Request {
            session: self.session,
            nth: self.nth,
            seen: self.seen,
            reads: self.reads,
            writes: self.changes,
        }
    }
}

// The refusal of a key that would be one too many.
fn too_many() -> TxnRefusal
    ensures { result ≡ refusal.TooMany 17 }
{
    TxnRefusal::TooMany {
        keys: MAX_KEYS as u32 + 1,
    }
}
