// Transactions, call by call, and the requests that they become.

use arrayvec::ArrayVec;
use blob_base::{Bytes, Key};
use blob_state::{BlobState, Draft, MAX_NUMBER};
use std::process::Abort;
use std::test::Fail;
use txn::{Change, Drafted, Read, Request, Txn, TxnRefusal};

const TOO_LONG: u64 = 381_669_376;

pub(crate) fn key_of<R: Abort>(rt: &R, text: &str) -> Key {
    Key::read(text.as_bytes()).expect(rt, "a key")
}

// The state of a content that the entry of this number wrote.
fn state_of<R: Abort>(rt: &R, born: u64) -> BlobState {
    assert!(rt; 1 <= born && born <= MAX_NUMBER);
    let draft = Draft::put(b"abc").expect(rt, "a draft");
    let size = draft.size();
    assert!(rt; draft.marks().len() == 0);
    assert!(rt; 0 < size % 4096);
    draft.place(&ArrayVec::new(), Some(0), born)
}

/// Begins a transaction of a session, the first that it begins.
pub(crate) fn begin<R: Abort + AllocGlobal>(rt: &R, session: u8, seen: u64) -> Txn {
    assert!(rt; session < 16);
    Txn::begin(rt.alloc(), session, 1, seen)
}

/// Reads a key that has this number now, or none.
pub(crate) fn get<R: Abort>(
    rt: &R,
    txn: &mut Txn,
    text: &str,
    now: Option<u64>,
    front: u64,
) -> Result<Read, TxnRefusal> {
    let key = key_of(rt, text);
    match now {
        Some(born) => txn.read(&key, Some(&state_of(rt, born)), front),
        None => txn.read(&key, None, front),
    }
}

/// Deletes a key that has this number now, or none.
pub(crate) fn del<R: Abort>(
    rt: &R,
    txn: &mut Txn,
    text: &str,
    now: Option<u64>,
    front: u64,
) -> Result<(), TxnRefusal> {
    let key = key_of(rt, text);
    match now {
        Some(born) => txn.del(&key, Some(&state_of(rt, born)), front),
        None => txn.del(&key, None, front),
    }
}

/// Puts a content under a key.
pub(crate) fn put<R: Abort + AllocGlobal>(
    rt: &R,
    txn: &mut Txn,
    text: &str,
    content: &[u8],
) -> Result<(), TxnRefusal> {
    let content = Bytes::of(rt.alloc(), content)?;
    txn.put(rt.alloc(), &key_of(rt, text), content)
}

// The keys that were read, each with its number.
fn expect_reads<R: Abort>(rt: &R, request: &Request, reads: &[(&str, Option<u64>)]) {
    assert_eq!(rt; request.reads.len(), reads.len());
    for i in 0..request.reads.len() {
        let (key, number) = request.reads.nth(i);
        assert!(rt; key.text() == reads[i].0.as_bytes(), "read {i}");
        assert!(rt; *number == reads[i].1, "the number of read {i}");
    }
}

// The keys that are changed, each with the content that is put, or none for a delete.
fn expect_changes<R: Abort>(rt: &R, request: &Request, changes: &[(&str, Option<&[u8]>)]) {
    assert_eq!(rt; request.writes.len(), changes.len());
    for i in 0..request.writes.len() {
        let (key, change) = request.writes.nth(i);
        assert!(rt; key.text() == changes[i].0.as_bytes(), "change {i}");
        let content = match change {
            Change::Put { drafted } => Some(drafted.content()),
            Change::Del => None,
            Change::Append { .. } => Some(b"an append".as_slice()),
        };
        assert!(rt; content == changes[i].1, "the content of change {i}");
    }
}

// Each call once. What was told last is the greatest number that was.
#[test]
fn a_request_of_three_calls(rt: HostRuntime) -> Result<(), Fail> {
    let mut txn = Txn::begin(rt.alloc(), 15, 3, 5);
    assert!(rt; put(&rt, &mut txn, "demo/b", b"12") == Ok(()));
    assert!(rt; get(&rt, &mut txn, "demo/c", Some(2), 7) == Ok(Read::Store));
    assert!(rt; del(&rt, &mut txn, "demo/a", Some(4), 6) == Ok(()));
    assert!(rt; get(&rt, &mut txn, "demo/d", None, 4) == Ok(Read::Absent));
    let request = txn.seal();
    assert_eq!(rt; request.session, 15);
    assert_eq!(rt; request.nth, 3);
    assert_eq!(rt; request.seen, 7);
    expect_reads(
        &rt,
        &request,
        &[("demo/a", Some(4)), ("demo/c", Some(2)), ("demo/d", None)],
    );
    expect_changes(&rt, &request, &[("demo/a", None), ("demo/b", Some(b"12"))]);
    Ok(())
}

// A read is recorded but where the transaction has changed the key itself, and a put is none.
#[test]
fn what_is_recorded_as_read(rt: HostRuntime) {
    let mut txn = begin(&rt, 0, 0);
    assert!(rt; get(&rt, &mut txn, "demo/a", Some(1), 1) == Ok(Read::Store));
    assert!(rt; put(&rt, &mut txn, "demo/a", b"1") == Ok(()));
    assert!(rt; put(&rt, &mut txn, "demo/b", b"2") == Ok(()));
    assert!(rt; get(&rt, &mut txn, "demo/b", Some(1), 1) == Ok(Read::Own));
    assert!(rt; put(&rt, &mut txn, "demo/c", b"3") == Ok(()));
    assert!(rt; del(&rt, &mut txn, "demo/c", Some(1), 1) == Ok(()));
    let request = txn.seal();
    expect_reads(&rt, &request, &[("demo/a", Some(1))]);
    expect_changes(
        &rt,
        &request,
        &[
            ("demo/a", Some(b"1")),
            ("demo/b", Some(b"2")),
            ("demo/c", None),
        ],
    );
}

#[test]
fn a_delete_of_an_absent_key(rt: HostRuntime) {
    let mut txn = begin(&rt, 0, 0);
    assert!(rt; del(&rt, &mut txn, "demo/z", None, 9) == Err(TxnRefusal::Absent));
    let request = txn.seal();
    assert_eq!(rt; request.seen, 9);
    expect_reads(&rt, &request, &[("demo/z", None)]);
    expect_changes(&rt, &request, &[]);
}

#[test]
fn one_key_put_deleted_and_read(rt: HostRuntime) {
    let mut txn = begin(&rt, 0, 0);
    assert!(rt; put(&rt, &mut txn, "demo/a", b"abc") == Ok(()));
    assert!(rt; del(&rt, &mut txn, "demo/a", None, 0) == Ok(()));
    assert!(rt; get(&rt, &mut txn, "demo/a", None, 0) == Ok(Read::Absent));
    assert!(rt; del(&rt, &mut txn, "demo/a", Some(1), 0) == Err(TxnRefusal::Absent));
    let request = txn.seal();
    expect_reads(&rt, &request, &[]);
    expect_changes(&rt, &request, &[("demo/a", None)]);
}

// The last content that is put is kept.
#[test]
fn own_bytes_of_a_key(rt: HostRuntime) {
    let mut txn = begin(&rt, 0, 0);
    let key = key_of(&rt, "demo/a");
    assert!(rt; txn.own(&key).is_empty() && txn.print(&key).is_none());
    assert!(rt; put(&rt, &mut txn, "demo/a", b"12345") == Ok(()));
    assert!(rt; put(&rt, &mut txn, "demo/a", b"abc") == Ok(()));
    assert!(rt; txn.own(&key) == b"abc".as_slice());
    let print = txn.print(&key).expect(&rt, "a print");
    let mut digest = [0; 32];
    let text = "ba7816bf8f01cfea414140de5dae2223b00361a396177a9cb410ff61f20015ad";
    assert!(rt; hex::decode_to_slice(text, &mut digest).is_ok());
    assert_eq!(rt; print.size, 3);
    assert!(rt; print.digest.bytes == digest);
    assert!(rt; get(&rt, &mut txn, "demo/a", Some(1), 1) == Ok(Read::Own));
    assert!(rt; del(&rt, &mut txn, "demo/a", Some(1), 1) == Ok(()));
    assert!(rt; txn.own(&key).is_empty() && txn.print(&key).is_none());
}

// The refusal tells the number now, also where a delete would find nothing, and the number that is recorded stays.
#[test]
fn numbers_that_have_changed(rt: HostRuntime) {
    for (first, now) in [
        (Some(1), Some(2)),
        (Some(2), Some(1)),
        (Some(1), None),
        (None, Some(1)),
    ] {
        let mut txn = begin(&rt, 0, 0);
        assert!(rt; get(&rt, &mut txn, "demo/a", first, 3).is_ok());
        let stale = TxnRefusal::Stale { now };
        let read = get(&rt, &mut txn, "demo/a", now, 4);
        assert!(rt; read == Err(stale), "{first:?} {now:?}");
        let gone = del(&rt, &mut txn, "demo/a", now, 4);
        assert!(rt; gone == Err(stale), "{first:?} {now:?}");
        let read = get(&rt, &mut txn, "demo/a", first, 3);
        assert!(rt; read.is_ok(), "{first:?} {now:?}");
        let request = txn.seal();
        assert_eq!(rt; request.seen, 3);
        expect_reads(&rt, &request, &[("demo/a", first)]);
        expect_changes(&rt, &request, &[]);
    }
}

// What the transaction has put or deleted itself is never stale.
#[test]
fn own_changes_of_keys_that_have_changed(rt: HostRuntime) {
    let mut txn = begin(&rt, 0, 0);
    assert!(rt; get(&rt, &mut txn, "demo/a", Some(1), 1).is_ok());
    assert!(rt; get(&rt, &mut txn, "demo/b", Some(1), 1).is_ok());
    assert!(rt; put(&rt, &mut txn, "demo/a", b"1") == Ok(()));
    assert!(rt; del(&rt, &mut txn, "demo/b", Some(1), 1) == Ok(()));
    assert!(rt; get(&rt, &mut txn, "demo/a", Some(2), 2) == Ok(Read::Own));
    assert!(rt; get(&rt, &mut txn, "demo/b", Some(2), 2) == Ok(Read::Absent));
    assert!(rt; del(&rt, &mut txn, "demo/a", Some(2), 2) == Ok(()));
    let request = txn.seal();
    expect_reads(&rt, &request, &[("demo/a", Some(1)), ("demo/b", Some(1))]);
    expect_changes(&rt, &request, &[("demo/a", None), ("demo/b", None)]);
}

// A transaction that touches sixteen keys, of which it has read `demo/k0` to `demo/k7` and put the others.
fn full_transaction<R: Abort + AllocGlobal>(rt: &R) -> Txn {
    let mut txn = begin(rt, 0, 0);
    for text in [
        "demo/k0", "demo/k1", "demo/k2", "demo/k3", "demo/k4", "demo/k5", "demo/k6", "demo/k7",
    ] {
        assert!(rt; get(rt, &mut txn, text, Some(1), 1).is_ok(), "{text}");
    }
    for text in [
        "demo/k8", "demo/k9", "demo/ka", "demo/kb", "demo/kc", "demo/kd", "demo/ke", "demo/kf",
    ] {
        assert!(rt; put(rt, &mut txn, text, b"1").is_ok(), "{text}");
    }
    txn
}

// A seventeenth is refused whether it is there or not, and those that are touched aren't.
#[test]
fn a_seventeenth_key(rt: HostRuntime) {
    let mut txn = full_transaction(&rt);
    let many = TxnRefusal::TooMany { keys: 17 };
    assert!(rt; get(&rt, &mut txn, "demo/kg", Some(1), 2) == Err(many));
    assert!(rt; get(&rt, &mut txn, "demo/kg", None, 2) == Err(many));
    assert!(rt; put(&rt, &mut txn, "demo/kg", b"1") == Err(many));
    assert!(rt; del(&rt, &mut txn, "demo/kg", Some(1), 2) == Err(many));
    assert!(rt; del(&rt, &mut txn, "demo/kg", None, 2) == Err(many));
    let stale = TxnRefusal::Stale { now: Some(2) };
    assert!(rt; get(&rt, &mut txn, "demo/k0", Some(2), 2) == Err(stale));
    assert!(rt; get(&rt, &mut txn, "demo/kf", Some(1), 1) == Ok(Read::Own));
    assert!(rt; put(&rt, &mut txn, "demo/k0", b"2") == Ok(()));
    assert!(rt; del(&rt, &mut txn, "demo/k8", None, 1) == Ok(()));
    let request = txn.seal();
    assert_eq!(rt; request.seen, 1);
    assert_eq!(rt; request.reads.len(), 8);
    assert_eq!(rt; request.writes.len(), 9);
}

// A key that is one too many is refused before the content's length is looked at.
#[test]
fn contents_that_are_too_long(rt: HostRuntime) {
    let full = full_transaction(&rt);
    let empty = begin(&rt, 0, 0);
    let many = TxnRefusal::TooMany { keys: 17 };
    for (txn, text, size, refusal) in [
        (
            &empty,
            "demo/kg",
            TOO_LONG,
            TxnRefusal::TooLong { size: TOO_LONG },
        ),
        (
            &empty,
            "demo/kg",
            4_294_967_295,
            TxnRefusal::TooLong {
                size: 4_294_967_295,
            },
        ),
        (
            &full,
            "demo/k0",
            TOO_LONG,
            TxnRefusal::TooLong { size: TOO_LONG },
        ),
        (
            &full,
            "demo/kf",
            TOO_LONG,
            TxnRefusal::TooLong { size: TOO_LONG },
        ),
        (&full, "demo/kg", TOO_LONG, many),
    ] {
        assert!(rt; 381_669_375 < size);
        let found = txn.refuse_put(&key_of(&rt, text), size);
        assert!(rt; found == refusal, "{text} {size}");
    }
}

#[test]
fn a_content_with_its_draft(rt: HostRuntime) -> Result<(), Fail> {
    let content = Bytes::of(rt.alloc(), b"abc")?;
    assert!(rt; content.len() == 3);
    let drafted = Drafted::new(rt.alloc(), content)?;
    assert!(rt; drafted.content() == b"abc".as_slice());
    assert_eq!(rt; drafted.draft().size(), 3);
    Ok(())
}
