// Values by their keys.

use blob_base::{Key, KeyList};
use std::process::Abort;
use std::test::Fail;

fn key_of<R: Abort>(rt: &R, text: &str) -> Key {
    Key::read(text.as_bytes()).expect(rt, "a key")
}

fn expect_entries<R: Abort>(rt: &R, list: &KeyList<u32>, entries: &[(&str, u32)]) {
    assert_eq!(rt; list.len(), entries.len());
    for i in 0..list.len() {
        let (key, value) = list.nth(i);
        assert!(rt; key.text() == entries[i].0.as_bytes(), "key {i}");
        assert_eq!(rt; *value, entries[i].1, "value {i}");
    }
}

// Keys are set in no order, replaced and removed, and stand in their own order.
#[test]
fn values_by_their_keys(rt: HostRuntime) -> Result<(), Fail> {
    let mut list = KeyList::new(rt.alloc());
    assert!(rt; list.is_empty());
    list.insert(key_of(&rt, "b/b"), 1)?;
    list.insert(key_of(&rt, "a/z"), 2)?;
    list.insert(key_of(&rt, "c/a"), 3)?;
    list.insert(key_of(&rt, "b/a"), 4)?;
    expect_entries(
        &rt,
        &list,
        &[("a/z", 2), ("b/a", 4), ("b/b", 1), ("c/a", 3)],
    );
    list.insert(key_of(&rt, "b/b"), 5)?;
    expect_entries(
        &rt,
        &list,
        &[("a/z", 2), ("b/a", 4), ("b/b", 5), ("c/a", 3)],
    );
    assert!(rt; !list.is_empty());
    assert!(rt; list.remove(&key_of(&rt, "b/a")) == Some(4));
    assert!(rt; list.remove(&key_of(&rt, "b/a")).is_none());
    expect_entries(&rt, &list, &[("a/z", 2), ("b/b", 5), ("c/a", 3)]);
    Ok(())
}

#[test]
fn keys_that_a_list_has(rt: HostRuntime) -> Result<(), Fail> {
    let mut list = KeyList::new(rt.alloc());
    list.insert(key_of(&rt, "b/b"), 7)?;
    list.insert(key_of(&rt, "a/a"), 8)?;
    for (text, value) in [
        ("a/a", Some(8)),
        ("a/b", None),
        ("b/a", None),
        ("b/b", Some(7)),
        ("b/ba", None),
    ] {
        let key = key_of(&rt, text);
        assert!(rt; list.get(&key).copied() == value, "{text}");
        assert!(rt; list.contains_key(&key) == value.is_some(), "{text}");
    }
    Ok(())
}
