// A group that is planned over the states of a store and the space of its data area, and what it is compared with.

ghost use Rattle.std.specs.List.{All};
ghost use Rattle.std.specs.List.Sorted.{IsPermutation};
ghost use Rattle.relation.specs.Parts.{owned_by};
ghost use Rattle.store_model.specs.Space.{IsBlock};
ghost use Rattle.group_plan.specs.Plans.{DoesLengthen};

use crate::relations::set;
use crate::transactions::{begin, del, get, key_of, put};
use blob_base::Bytes;
use blob_state::MAX_NUMBER;
use extent_alloc::Space;
use frame_codec::{Entry, Write};
use group_plan::{Plan, Queue, Reply, plan_group};
use relation::Relation;
use std::process::Abort;
use std::test::Fail;
use txn::Txn;

/// A call of a transaction; `now` is the number that the key has at this time.
#[derive(Clone, Copy)]
pub(crate) enum Call<'a> {
    Get { key: &'a str, now: Option<u64> },
    Del { key: &'a str, now: u64 },
    Put { key: &'a str, size: usize },
}

/// A transaction that is queued: its session, the last number that it was told of, and its calls.
#[derive(Clone, Copy)]
pub(crate) struct Asks<'a> {
    pub(crate) session: u8,
    pub(crate) seen: u64,
    pub(crate) calls: &'a [Call<'a>],
}

/// A reply.
#[derive(Clone, Copy)]
pub(crate) enum Told<'a> {
    Committed(u64),
    Conflict(&'a str, Option<u64>, Option<u64>),
    NoNumber(u64),
    NoSpace(&'a str, u32),
    NoRoom(u64, u64),
    Ahead(u64, u64),
}

impl<'a> Told<'a> {
    fn tells(&self, reply: &Reply) -> bool {
        match (self, reply) {
            (Told::Committed(told), Reply::Committed { number }) => *told == *number,
            (Told::Conflict(text, first, second), Reply::Conflict { key, read, now }) => {
                key.text() == text.as_bytes() && *first == *read && *second == *now
            }
            (Told::NoNumber(told), Reply::NoNumber { last }) => *told == *last,
            (Told::NoSpace(text, told), Reply::NoSpace { key, tier }) => {
                key.text() == text.as_bytes() && *told == *tier
            }
            (Told::NoRoom(first, second), Reply::NoRoom { need, have }) => {
                *first == *need && *second == *have
            }
            (Told::Ahead(first, second), Reply::Ahead { seen, front }) => {
                *first == *seen && *second == *front
            }
            _ => false,
        }
    }
}

/// The store of a group: the keys whose objects it has, each with number 1 and its tail on the page of its place here; its
/// pages, the bytes that there are for states, and its last number.
#[derive(Clone, Copy)]
pub(crate) struct Store<'a> {
    pub(crate) keys: &'a [&'a str],
    pub(crate) pages: u32,
    pub(crate) room: u64,
    pub(crate) last: u64,
}

pub(crate) const EMPTY: Store = Store {
    keys: &[],
    pages: 1024,
    room: 4096,
    last: 0,
};

fn relation_of<R: Abort + AllocGlobal>(rt: &R, keys: &[&str]) -> Relation {
    let mut relation = Relation::new(rt.alloc());
    let mut page = 0;
    for text in keys {
        relation.reserve(rt.alloc(), 1).expect(rt, "memory");
        set(rt, &mut relation, text, b"abc", page);
        assert!(rt; page < 100);
        page += 1;
    }
    relation
}

// The block is a tail's page.
fn expect_tail<R: Abort>(rt: &R, block: (u32, u32), pages: u32)
    ensures { IsBlock pages block }
{
    let (head, tier) = block;
    assert!(rt; tier == 0);
    assert!(rt; head < pages);
}

// Each of these blocks is one.
fn expect_tails<R: Abort>(rt: &R, blocks: &[(u32, u32)], pages: u32)
    ensures { All (IsBlock pages) blocks.now }
{
    'checked: for i in 0..blocks.len() {
        expect_tail(rt, blocks[i], pages);
    }
}

// The space that the states of a relation leave.
fn space_of<R: Abort + AllocGlobal>(rt: &R, relation: &Relation, pages: u32) -> Space
    ensures { IsPermutation result.owned (owned_by relation.now.states) }
{
    let owned = relation.owned(rt.alloc()).expect(rt, "memory");
    assert!(rt; pages % 1024 == 0 && pages <= 1 << 24);
    expect_tails(rt, owned.as_slice(), pages);
    Space::build(rt.alloc(), &owned, pages).expect(rt, "a space")
}

fn make<R: Abort + AllocGlobal>(rt: &R, txn: &mut Txn, call: Call) {
    match call {
        Call::Get { key, now } => assert!(rt; get(rt, txn, key, now, 0).is_ok(), "{key}"),
        Call::Del { key, now } => assert!(rt; del(rt, txn, key, Some(now), 0).is_ok(), "{key}"),
        Call::Put { key, size } => {
            let content = vec![in rt.alloc(); 7; size].expect(rt, "memory");
            assert!(rt; put(rt, txn, key, content.as_slice()).is_ok(), "{key}");
        }
    }
}

// Queues a transaction.
fn add<R: Abort + AllocGlobal>(rt: &R, queue: &mut Queue, relation: &Relation, txn: Txn)
    requires { All (DoesLengthen relation.now.states) queue.old }
    ensures { All (DoesLengthen relation.now.states) queue.new }
{
    queue.push(rt.alloc(), txn.seal()).expect(rt, "memory");
}

// The transaction that makes these calls.
fn txn_of<R: Abort + AllocGlobal>(rt: &R, asks: &Asks) -> Txn {
    let mut txn = begin(rt, asks.session, asks.seen);
    for one in asks.calls {
        make(rt, &mut txn, *one);
    }
    txn
}

// The requests of these transactions.
fn queue_of<R: Abort + AllocGlobal>(rt: &R, relation: &Relation, asks: &[Asks]) -> Queue
    ensures { All (DoesLengthen relation.now.states) result }
{
    let mut requests = Queue::new(rt.alloc());
    'queued: for i in 0..asks.len() {
        let txn = txn_of(rt, &asks[i]);
        add(rt, &mut requests, relation, txn);
    }
    requests
}

/// Plans the group at the front of these transactions in a store, and compares the replies. What it frees can be given
/// back.
pub(crate) fn planned<R: Abort + AllocGlobal>(
    rt: &R,
    store: &Store,
    asks: &[Asks],
    replies: &[Told],
) -> Plan {
    let relation = relation_of(rt, store.keys);
    let mut space = space_of(rt, &relation, store.pages);
    let queue = queue_of(rt, &relation, asks);
    assert!(rt; store.room < 1 << 62 && store.last <= MAX_NUMBER);
    let plan = plan_group(
        rt.alloc(),
        &queue,
        &relation,
        &mut space,
        store.room,
        store.last,
    )
    .expect(rt, "memory");
    assert_eq!(rt; plan.replies.len(), replies.len());
    for i in 0..replies.len() {
        assert!(rt; replies[i].tells(plan.replies.get(i)), "reply {i}");
    }
    assert_eq!(rt; space.spare(), plan.frees.len());
    plan
}

/// Compares the entries with these: the place in the queue, the number and the session of each.
pub(crate) fn expect_entries<R: Abort>(rt: &R, plan: &Plan, entries: &[(usize, u64, u8)]) {
    assert_eq!(rt; plan.entries.len(), entries.len());
    assert_eq!(rt; plan.members.len(), entries.len());
    for i in 0..entries.len() {
        let entry = plan.entries.get(i);
        assert_eq!(rt; *plan.members.get(i), entries[i].0, "entry {i}");
        assert_eq!(rt; entry.number, entries[i].1, "entry {i}");
        assert_eq!(rt; entry.session, entries[i].2, "entry {i}");
        assert_eq!(rt; entry.nth, 1, "entry {i}");
    }
}

pub(crate) fn nth_entry<'a, R: Abort>(rt: &R, plan: &'a Plan, i: usize) -> &'a Entry {
    assert!(rt; i < plan.entries.len());
    plan.entries.get(i)
}

/// The entry's write of this place is of this key, with its extents at these heads and its tail on this page.
pub(crate) fn expect_set<R: Abort>(
    rt: &R,
    entry: &Entry,
    i: usize,
    text: &str,
    heads: &[u32],
    tail: Option<u32>,
) {
    assert!(rt; i < entry.writes.len());
    match entry.writes.get(i) {
        Write::Set { key, state } => {
            assert!(rt; key.text() == text.as_bytes(), "{text}");
            assert_eq!(rt; state.born(), entry.number, "{text}");
            assert!(rt; state.tail() == tail, "the tail of {text}");
            let extents = state.extents();
            assert_eq!(rt; extents.len(), heads.len(), "{text}");
            for i in 0..heads.len() {
                assert_eq!(rt; extents[i].head, heads[i], "extent {i} of {text}");
            }
        }
        Write::Del { .. } => assert!(rt; false, "{text}"),
    }
}

/// The entry's write of this place deletes this key.
pub(crate) fn expect_del<R: Abort>(rt: &R, entry: &Entry, i: usize, text: &str) {
    assert!(rt; i < entry.writes.len());
    let write = entry.writes.get(i);
    assert!(rt; matches!(write, Write::Del { .. }), "{text}");
    assert!(rt; *write.key() == key_of(rt, text), "{text}");
}

/// A transaction that puts so many bytes under a key.
pub(crate) const fn putting<'a>(session: u8, calls: &'a [Call<'a>]) -> Asks<'a> {
    Asks {
        session,
        seen: 0,
        calls,
    }
}
