// The relation of a store: states by their keys.

ghost use Rattle.std.specs.Prelude.{◌+◌, ◌≤◌};

use arrayvec::ArrayVec;
use blob_base::Key;
use blob_state::{BlobState, Draft};
use relation::Relation;
use std::process::Abort;
use std::test::Fail;

/// The state of a content of a few bytes, on this page, whose number is 1.
pub(crate) fn state_of<R: Abort>(rt: &R, content: &[u8], page: u32) -> BlobState {
    let draft = Draft::put(content).expect(rt, "a draft");
    let size = draft.size();
    assert!(rt; draft.marks().len() == 0);
    assert!(rt; 0 < size % 4096);
    draft.place(&ArrayVec::new(), Some(page), 1)
}

/// Sets a key to the state of a content, whose number is 1. Its relation takes few bytes.
pub(crate) fn set<R: Abort>(rt: &R, relation: &mut Relation, key: &str, content: &[u8], page: u32)
    requires { 1 ≤ relation.old.spare }
    ensures { relation.old.spare ≤ relation.new.spare + 1 }
{
    let key = Key::read(key.as_bytes()).expect(rt, "a key");
    let state = state_of(rt, content, page);
    let longer = state.encoded(&key);
    assert!(rt; relation.bytes() < 1_000 && longer < 1_000);
    relation.set(key, state);
}

fn expect_size<R: Abort>(rt: &R, relation: &Relation, key: &str, size: Option<u64>) {
    let read = Key::read(key.as_bytes()).expect(rt, "a key");
    let found = relation.get(&read).map(|state| state.size());
    assert!(rt; found == size, "{key} {found:?}");
}

fn expect_keys<R: Abort>(rt: &R, relation: &Relation, keys: &[&str]) {
    assert!(rt; relation.len() == keys.len());
    for i in 0..relation.len() {
        let (key, _) = relation.nth(i);
        assert!(rt; key.text() == keys[i].as_bytes(), "{i}");
    }
}

// Keys are set in no order, replaced and removed, and stand in their own order.
#[test]
fn states_by_their_keys(rt: HostRuntime) -> Result<(), Fail> {
    let mut relation = Relation::new(rt.alloc());
    assert!(rt; relation.is_empty());
    relation.reserve(rt.alloc(), 4)?;
    set(&rt, &mut relation, "b/b", b"12", 0);
    set(&rt, &mut relation, "a/z", b"123", 1);
    set(&rt, &mut relation, "b/a", b"1234", 2);
    set(&rt, &mut relation, "b/b", b"12345", 3);
    expect_keys(&rt, &relation, &["a/z", "b/a", "b/b"]);
    let owned = relation.owned(rt.alloc())?;
    assert!(rt; owned.as_slice() == [(1, 0), (2, 0), (3, 0)].as_slice());
    // A key of 3 bytes and a state without extents take 80 bytes, and its tail 4.
    assert_eq!(rt; relation.bytes(), 252);
    let copy = relation.copy(rt.alloc())?;
    expect_size(&rt, &relation, "b/b", Some(5));
    expect_size(&rt, &relation, "a/z", Some(3));
    expect_size(&rt, &relation, "a/y", None);
    expect_size(&rt, &relation, "c/a", None);
    let key = Key::read(b"b/a").expect(&rt, "a key");
    let removed = relation.remove(&key).expect(&rt, "a state");
    assert_eq!(rt; removed.size(), 4);
    assert!(rt; relation.remove(&key).is_none());
    expect_keys(&rt, &relation, &["a/z", "b/b"]);
    assert_eq!(rt; relation.bytes(), 168);
    expect_keys(&rt, &copy, &["a/z", "b/a", "b/b"]);
    expect_size(&rt, &copy, "b/a", Some(4));
    assert_eq!(rt; copy.bytes(), 252);
    Ok(())
}
