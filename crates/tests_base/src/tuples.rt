// Stored tuples read back. The bytes and the offsets are those of the format, written by hand.

ghost use Rattle.std.specs.Prelude.{◌≡◌, length};
ghost use Rattle.store_model.specs.State.{AreAligned};

use arrayvec::ArrayVec;
use blob_base::Key;
use blob_state::{BlobState, Draft, decode, encode_into};
use std::process::Abort;
use tier_table::MAX_EXTENTS;

// The key `demo/a` and a content of the three bytes `abc`, with its tail on page 0.
fn small_tuple<R: Abort>(rt: &R) -> [u8; 87] {
    let mut bytes = [0; 87];
    let read = hex::decode_to_slice(
        "0664656d6f2f61\
         00000003\
         0000000000000001\
         ba7816bf8f01cfea414140de5dae2223b00361a396177a9cb410ff61f20015ad\
         6162630000000000000000000000000000000000000000000000000000000000\
         00000000",
        &mut bytes,
    );
    assert!(rt; read.is_ok());
    bytes
}

// The key `demo/a` and a content of 20,480 bytes, with its five extents at the pages 0 to 4. The digest, the prefix and
// the marks are some bytes.
fn long_tuple<R: Abort>(rt: &R) -> [u8; 263] {
    let mut bytes = [0xab; 263];
    let front = &mut bytes[..19];
    let read = hex::decode_to_slice("0664656d6f2f61000050000000000000000001", front);
    assert!(rt; read.is_ok());
    for i in 0..5 {
        let head = 83 + 36 * i;
        bytes[head..head + 4].copy_from_slice(&[0, 0, 0, i as u8]);
    }
    bytes
}

// The offset that is told of the first `length` bytes, with one byte changed, where no tuple stands there.
fn fault<R: Abort>(
    rt: &R,
    bytes: &mut [u8],
    length: usize,
    place: usize,
    byte: u8,
    pages: u32,
) -> Option<usize> {
    assert!(rt; place < bytes.len());
    assert!(rt; length <= bytes.len());
    bytes[place] = byte;
    decode(&bytes[..length], pages).err().map(|bad| bad.at)
}

#[test]
fn a_small_tuple_before_other_bytes(rt: HostRuntime) {
    let mut bytes = [0xff; 90];
    bytes[..87].copy_from_slice(&small_tuple(&rt));
    let tuple = decode(&bytes, 1).expect(&rt, "a tuple");
    assert!(rt; tuple.key.text() == b"demo/a".as_slice());
    assert_eq!(rt; tuple.state.size(), 3);
    assert_eq!(rt; tuple.state.born(), 1);
    assert!(rt; tuple.state.digest().bytes.as_slice() == &bytes[19..51]);
    assert!(rt; tuple.state.prefix().as_slice() == &bytes[51..83]);
    assert_eq!(rt; tuple.state.extents().len(), 0);
    assert_eq!(rt; tuple.state.tail(), Some(0));
    assert_eq!(rt; tuple.length, 87);
}

// Of each row the first `length` bytes, with one byte changed, are read among one data page.
#[test]
fn faults_of_a_small_tuple(rt: HostRuntime) {
    let good = small_tuple(&rt);
    for (length, place, byte, at) in [
        // The key's length, of one byte, is 3 to 64.
        (0, 0, 6, 0),
        (87, 0, 2, 0),
        (87, 0, 65, 0),
        // The key, at its first bad place: `Demo/a`, `demo//` and `demoaa`.
        (6, 0, 6, 1),
        (87, 1, b'D', 1),
        (87, 6, b'/', 6),
        (87, 5, b'a', 7),
        // The size.
        (10, 0, 6, 7),
        (87, 7, 0x17, 7),
        // The number: 0, and one above 2^62.
        (18, 0, 6, 11),
        (87, 18, 0, 11),
        (87, 11, 0x40, 11),
        // The digest.
        (50, 0, 6, 19),
        // The prefix, of which the first 3 bytes alone are some.
        (82, 0, 6, 51),
        (87, 54, 1, 51),
        (87, 82, 2, 51),
        // The tail.
        (86, 0, 6, 83),
        (87, 86, 1, 83),
        // Two faults: a cut, and the key's length, the key that is cut itself, or the number.
        (6, 0, 2, 0),
        (6, 2, b'D', 1),
        (86, 18, 0, 11),
    ] {
        let mut bytes = good;
        let found = fault(&rt, &mut bytes, length, place, byte, 1);
        assert_eq!(rt; found, Some(at), "{length} {place} {byte}");
    }
}

// The same of a tuple whose fifth extent has two pages, among so many data pages.
#[test]
fn faults_of_extents(rt: HostRuntime) {
    let good = long_tuple(&rt);
    for (length, place, byte, pages, at) in [
        (263, 0, 6, 6, None),
        // No page at all, and one too few.
        (263, 0, 6, 0, Some(83)),
        (263, 0, 6, 5, Some(227)),
        // An odd head.
        (263, 230, 5, 100, Some(227)),
        (230, 0, 6, 6, Some(227)),
        (231, 0, 6, 6, Some(231)),
        (262, 0, 6, 7, Some(231)),
        // Two faults: a head, and a cut in its mark.
        (262, 230, 5, 100, Some(227)),
        (262, 0, 6, 5, Some(227)),
    ] {
        let mut bytes = good;
        let found = fault(&rt, &mut bytes, length, place, byte, pages);
        assert_eq!(rt; found, at, "{length} {place} {byte} {pages}");
    }
}

// Five heads, of which the fifth is that of two pages.
pub(crate) fn five_heads() -> ArrayVec<u32, MAX_EXTENTS>
    ensures count { length result.items ≡ 5 }
    ensures aligned { AreAligned result.items }
{
    let mut heads = ArrayVec::new();
    heads.push(0);
    heads.push(1);
    heads.push(2);
    heads.push(3);
    heads.push(4);
    heads
}

// The state of a content of 20,480 bytes at those heads.
fn long_state<R: Abort>(rt: &R) -> BlobState {
    let draft = Draft::put(&[7; 20_480]).expect(rt, "a draft");
    let heads = five_heads();
    assert!(rt; draft.marks().len() == 5);
    assert!(rt; draft.size() % 4096 == 0);
    draft.place(&heads, None, 9)
}

// Its stored form with this key, of 263 bytes.
fn stored<R: Abort>(rt: &R, key: &Key, state: &BlobState) -> [u8; 263] {
    let mut bytes = [0; 263];
    assert!(rt; state.encoded(key) == bytes.len());
    encode_into(key, state, &mut bytes);
    bytes
}

fn expect_same<R: Abort>(rt: &R, found: &BlobState, expected: &BlobState) {
    assert_eq!(rt; found.size(), expected.size());
    assert_eq!(rt; found.born(), expected.born());
    assert!(rt; found.digest() == expected.digest());
    assert!(rt; found.prefix() == expected.prefix());
    assert!(rt; found.extents() == expected.extents());
    assert_eq!(rt; found.tail(), expected.tail());
}

#[test]
fn a_state_with_extents_read_back(rt: HostRuntime) {
    let key = Key::read(b"demo/a").expect(&rt, "a key");
    let state = long_state(&rt);
    let tuple = decode(&stored(&rt, &key, &state), 6).expect(&rt, "a tuple");
    assert!(rt; tuple.key == key);
    assert_eq!(rt; tuple.length, 263);
    expect_same(&rt, &tuple.state, &state);
    for (i, extent) in tuple.state.extents().iter().enumerate() {
        assert_eq!(rt; extent.head as usize, i);
    }
}
