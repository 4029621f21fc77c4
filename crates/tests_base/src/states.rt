// States of objects, and their stored form. Digests, marks and stored forms are those that a Python program gives.

ghost use Rattle.std.specs.Prelude.{◌≤◌};

use arrayvec::ArrayVec;
use blob_base::{Bytes, Key, Owned};
use blob_state::{BlobState, Draft, MAX_TUPLE_BYTES, encode, encode_into, stored_bytes};
use std::alloc::{AllocError, Global};
use std::process::Abort;
use std::test::Fail;

// Bytes of which neighbours differ, within a page and from page to page.
fn pattern(alloc: Global, count: usize) -> Result<Vec<u8>, AllocError>
    requires { count ≤ 3000000 }
{
    let mut bytes = Vec::new(alloc);
    for i in 0..count {
        bytes.push(((7 * i + i / 256) % 256) as u8)?;
    }
    Ok(bytes)
}

fn expect_bytes<R: Abort>(rt: &R, found: &[u8], expected: &str) {
    let mut bytes = [0; 32];
    assert!(rt; hex::decode_to_slice(expected, &mut bytes).is_ok());
    assert!(rt; found == bytes.as_slice(), "{expected}");
}

fn expect_draft<R: Abort>(rt: &R, content: &[u8], marks: usize, digest: &str) {
    let draft = Draft::put(content).expect(rt, "a draft");
    assert_eq!(rt; draft.size(), content.len() as u64);
    assert_eq!(rt; draft.marks().len(), marks);
    expect_bytes(rt, &draft.digest().bytes, digest);
}

#[test]
fn drafts_of_some_sizes(rt: HostRuntime) -> Result<(), Fail> {
    for (size, marks, digest) in [
        (
            0,
            0,
            "e3b0c44298fc1c149afbf4c8996fb92427ae41e4649b934ca495991b7852b855",
        ),
        (
            1,
            0,
            "6e340b9cffb37a989ca544e6bb780a2c78901d3fb33738768511a30617afa01d",
        ),
        (
            4095,
            0,
            "3eb01747f53f84755fd5eaec93ddd4aad23e9cfe5aba5dae9c0f2d7bdbee3271",
        ),
        (
            4096,
            1,
            "d24ac44c83cce842b67a82d2f77bcbe5e41dbd555605c92832d609e29c5a997c",
        ),
        (
            4097,
            1,
            "5b1f71a5f659c11e04f10eeba5faad22d4e326245df505c18741f32df150c712",
        ),
        (
            20_480,
            5,
            "692acabd9391c12dced66ac9dd1940a9ebcbf865c9fd5a14bbf4a3dc0a209604",
        ),
        (
            3_000_000,
            30,
            "6ba4692bb1d46d4e96288fae575945dfcb6f2e019ef92499b248f6a69e4c1913",
        ),
    ] {
        let fits = size <= 3_000_000;
        assert!(rt; fits);
        expect_draft(&rt, &pattern(rt.alloc(), size)?, marks, digest);
    }
    Ok(())
}

// The last mark of 3,000,000 bytes stands after 732 pages.
#[test]
fn the_last_mark_of_many(rt: HostRuntime) -> Result<(), Fail> {
    let content = pattern(rt.alloc(), 3_000_000)?;
    let draft = Draft::put(&content).expect(&rt, "a draft");
    let mark = draft.marks().last().expect(&rt, "a mark");
    assert!(rt;
        mark.words
            == [
                0x3a7b_5c65,
                0x6281_b395,
                0x86de_2290,
                0x1cd0_23c3,
                0xc9d1_50d3,
                0x3c11_cd4c,
                0x5ea1_6cd6,
                0xaf14_0138,
            ]
    );
    Ok(())
}

// The state of a content of less than a page.
fn small_state<R: Abort>(rt: &R, content: &[u8], tail: u32) -> BlobState {
    let draft = Draft::put(content).expect(rt, "a draft");
    let heads = ArrayVec::new();
    let size = draft.size();
    assert!(rt; draft.marks().len() == 0);
    assert!(rt; 0 < size % 4096);
    draft.place(&heads, Some(tail), 1)
}

#[test]
fn the_stored_form_of_a_small_state(rt: HostRuntime) -> Result<(), Fail> {
    let key = Key::read(b"demo/a").expect(&rt, "a key");
    let state = small_state(&rt, b"abc", 0);
    let mut expected = [0; 89];
    let read = hex::decode_to_slice(
        "6162\
         0664656d6f2f61\
         00000003\
         0000000000000001\
         ba7816bf8f01cfea414140de5dae2223b00361a396177a9cb410ff61f20015ad\
         6162630000000000000000000000000000000000000000000000000000000000\
         00000000",
        &mut expected,
    );
    assert!(rt; read.is_ok());
    let mut out = Bytes::of(rt.alloc(), b"ab")?;
    encode(rt.alloc(), &key, &state, &mut out)?;
    assert!(rt; out.as_slice() == expected.as_slice());
    assert_eq!(rt; state.encoded(&key), 87);
    let copy = state.copy();
    let mut bytes = [1; 87];
    assert!(rt; copy.encoded(&key) == bytes.len());
    encode_into(&key, &copy, &mut bytes);
    assert!(rt; bytes.as_slice() == &expected[2..]);
    Ok(())
}

#[test]
fn what_a_state_answers(rt: HostRuntime) {
    let state = small_state(&rt, b"abc", 6);
    assert_eq!(rt; state.size(), 3);
    assert_eq!(rt; state.born(), 1);
    assert_eq!(rt; state.tail(), Some(6));
    assert_eq!(rt; state.extents().len(), 0);
    assert!(rt; &state.prefix()[..4] == b"abc\0".as_slice());
}

// A state is made again of its parts, and a draft of its own.
#[test]
fn states_and_drafts_of_their_parts(rt: HostRuntime) {
    let parts = small_state(&rt, b"abc", 6).into_parts();
    assert!(rt; parts.tail == Some(6) && parts.extents.len() == 0);
    let state = BlobState::from_parts(parts);
    assert!(rt; state.born() == 1 && state.tail() == Some(6));
    let parts = Draft::put(&[7; 4096]).expect(&rt, "a draft").into_parts();
    assert!(rt; parts.size == 4096 && parts.marks.len() == 1);
    let draft = Draft::from_parts(parts);
    assert!(rt; draft.size() == 4096 && draft.marks().len() == 1);
}

// What is stored of states, without the states.
#[test]
fn stored_bytes_of_some_shapes(rt: HostRuntime) {
    let key = Key::read(b"demo/a").expect(&rt, "a key");
    assert_eq!(rt; stored_bytes(&key, 0, None), 83);
    assert_eq!(rt; stored_bytes(&key, 5, None), 263);
    assert_eq!(rt; stored_bytes(&key, 0, Some(6)), 87);
    assert_eq!(rt; 65 + 76 + 36 * 127 + 4, MAX_TUPLE_BYTES);
}

// An extent of one page and a tail stand behind what is owned already.
#[test]
fn what_a_state_owns(rt: HostRuntime) -> Result<(), Fail> {
    let draft = Draft::put(&[7; 4097]).expect(&rt, "a draft");
    let size = draft.size();
    assert!(rt; draft.marks().len() == 1);
    assert!(rt; 0 < size % 4096);
    let mut heads = ArrayVec::new();
    heads.push(9);
    let state = draft.place(&heads, Some(6), 1);
    let mut owned = Owned::new(rt.alloc());
    owned.push(rt.alloc(), (64, 6))?;
    state.add_owned(rt.alloc(), &mut owned)?;
    assert!(rt; owned.as_slice() == [(64, 6), (9, 0), (6, 0)].as_slice());
    Ok(())
}
