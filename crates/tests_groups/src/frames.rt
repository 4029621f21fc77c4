// The stored form of the entries that are written together. Its bytes are written out by hand.

use crate::relations::state_of;
use crate::transactions::key_of;
use blob_base::Bytes;
use frame_codec::{Entries, Entry, Write, Writes, encode_frame};
use std::process::Abort;
use std::test::Fail;

// Two digits for each byte that is expected.
fn expect_body<R: Abort + AllocGlobal>(
    rt: &R,
    entries: &Entries,
    expected: &[&str],
) -> Result<(), Fail> {
    assert!(rt; entries.len() <= 16);
    let body = encode_frame(rt.alloc(), entries)?;
    let mut found = Bytes::new(rt.alloc());
    found.append_hex(rt.alloc(), body.as_slice())?;
    let mut all = Bytes::new(rt.alloc());
    for part in expected {
        all.append(rt.alloc(), part.as_bytes())?;
    }
    assert!(rt; found.as_slice() == all.as_slice());
    Ok(())
}

// The first commit of a session, which puts a content of three bytes.
#[test]
fn a_body_of_one_set(rt: HostRuntime) -> Result<(), Fail> {
    let mut writes = Writes::new(rt.alloc());
    writes.push(
        rt.alloc(),
        Write::Set {
            key: key_of(&rt, "demo/a"),
            state: Box::new(rt.alloc(), state_of(&rt, b"abc", 0))?,
        },
    )?;
    let mut entries = Entries::new(rt.alloc());
    entries.push(
        rt.alloc(),
        Entry {
            number: 1,
            session: 0,
            nth: 1,
            writes,
        },
    )?;
    expect_body(
        &rt,
        &entries,
        &[
            "424c4f4246524d31",
            "00000077",
            "01",
            "0000000000000001",
            "00",
            "0000000000000001",
            "01",
            "01",
            "0664656d6f2f61",
            "00000003",
            "0000000000000001",
            "ba7816bf8f01cfea414140de5dae2223b00361a396177a9cb410ff61f20015ad",
            "6162630000000000000000000000000000000000000000000000000000000000",
            "00000000",
        ],
    )
}

// An entry that deletes two keys, and one that writes nothing.
#[test]
fn a_body_of_two_entries(rt: HostRuntime) -> Result<(), Fail> {
    let mut writes = Writes::new(rt.alloc());
    writes.push(
        rt.alloc(),
        Write::Del {
            key: key_of(&rt, "demo/a"),
        },
    )?;
    let second = Write::Del {
        key: key_of(&rt, "demo/bc"),
    };
    assert!(rt; writes.get(0).key() < second.key());
    writes.push(rt.alloc(), second)?;
    let mut entries = Entries::new(rt.alloc());
    entries.push(
        rt.alloc(),
        Entry {
            number: 258,
            session: 15,
            nth: 3,
            writes,
        },
    )?;
    entries.push(
        rt.alloc(),
        Entry {
            number: 259,
            session: 2,
            nth: 65_536,
            writes: Writes::new(rt.alloc()),
        },
    )?;
    expect_body(
        &rt,
        &entries,
        &[
            "424c4f4246524d31",
            "00000042",
            "02",
            "0000000000000102",
            "0f",
            "0000000000000003",
            "02",
            "02",
            "0664656d6f2f61",
            "02",
            "0764656d6f2f6263",
            "0000000000000103",
            "02",
            "0000000000010000",
            "00",
        ],
    )
}
