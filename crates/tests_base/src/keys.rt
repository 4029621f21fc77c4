// Keys.

use blob_base::{BadKey, Key};
use std::process::Abort;

// A name of 47 characters, the most that one may have.
const LONG_NAME: &str = "abcdefghijklmnopqrstuvwxyz0123456789._-abcdefgh";

fn expect_key<R: Abort>(rt: &R, text: &str, relation: &str, name: &str) {
    let key = Key::read(text.as_bytes()).expect(rt, "a key");
    assert!(rt; key.text() == text.as_bytes(), "the text of {text}");
    assert!(rt;
        key.relation() == relation.as_bytes(),
        "the relation of {text}"
    );
    assert!(rt; key.name() == name.as_bytes(), "the name of {text}");
    assert!(rt; key.copy() == key, "a copy of {text}");
}

fn expect_bad<R: Abort>(rt: &R, text: &str, at: usize) {
    let bad = Key::read(text.as_bytes()).err();
    assert!(rt; bad == Some(BadKey { at }), "{text}");
}

fn expect_order<R: Abort>(rt: &R, lower: &str, higher: &str) {
    let low = Key::read(lower.as_bytes()).expect(rt, "a key");
    let high = Key::read(higher.as_bytes()).expect(rt, "a key");
    assert!(rt; low < high, "{lower} stands before {higher}");
    assert!(rt; low != high, "{lower} isn't {higher}");
}

#[test]
fn texts_that_are_keys(rt: HostRuntime) {
    for (text, relation, name) in [
        ("demo/a", "demo", "a"),
        ("a/b", "a", "b"),
        ("0.9_-z/0.9_-z", "0.9_-z", "0.9_-z"),
        ("abcdefghijklmnop/a", "abcdefghijklmnop", "a"),
        (
            "demo/abcdefghijklmnopqrstuvwxyz0123456789._-abcdefgh",
            "demo",
            LONG_NAME,
        ),
        (
            "abcdefghijklmnop/abcdefghijklmnopqrstuvwxyz0123456789._-abcdefgh",
            "abcdefghijklmnop",
            LONG_NAME,
        ),
    ] {
        expect_key(&rt, text, relation, name);
    }
}

#[test]
fn the_first_place_that_shows_a_bad_key(rt: HostRuntime) {
    for (text, at) in [
        ("", 0),
        ("demo", 4),
        ("demo/", 5),
        ("Demo/a", 0),
        ("deMo/a", 2),
        ("/a", 0),
        ("demo/A", 5),
        ("demo/a b", 6),
        ("demo/\u{e9}", 5),
        ("a//b", 2),
        ("a/b/c", 3),
        ("abcdefghijklmnopq/a", 16),
        ("demo/abcdefghijklmnopqrstuvwxyz0123456789._-abcdefghi", 52),
        (
            "abcdefghijklmnop/abcdefghijklmnopqrstuvwxyz0123456789._-abcdefghi",
            64,
        ),
    ] {
        expect_bad(&rt, text, at);
    }
}

#[test]
fn keys_stand_in_the_order_of_their_bytes(rt: HostRuntime) {
    for (lower, higher) in [
        ("a-/z", "a./z"),
        ("a./z", "a/0"),
        ("a/0", "a/0a"),
        ("a/0a", "a/1"),
        ("a/1", "a/_"),
        ("a/_", "a/a"),
        ("a/a", "a0/a"),
        ("a0/a", "b/a"),
    ] {
        expect_order(&rt, lower, higher);
    }
}
