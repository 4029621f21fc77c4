// What a vault keeps of what it has done.

use crate::trial::{add_put, blank, key_of, lead, opened, put};
use blob_base::Bytes;
use group_plan::Queue;
use std::process::Abort;
use std::test::Fail;

fn expect_hex<R: Abort + AllocGlobal>(rt: &R, bytes: &Bytes, expected: &str) -> Result<(), Fail> {
    let mut digits = Bytes::new(rt.alloc());
    digits.append_hex(rt.alloc(), bytes.as_slice())?;
    assert!(rt; digits.as_slice() == expected.as_bytes());
    Ok(())
}

// The entry, number 1, that sets `demo/a` to the content `abc` on data page 0, and the state as a half has it.
const ENTRY: &str = "0000000000000001\
                     00\
                     0000000000000001\
                     01\
                     01\
                     0664656d6f2f61\
                     00000003\
                     0000000000000001\
                     ba7816bf8f01cfea414140de5dae2223b00361a396177a9cb410ff61f20015ad\
                     6162630000000000000000000000000000000000000000000000000000000000\
                     00000000";

const TUPLE: &str = "0664656d6f2f61\
                     00000003\
                     0000000000000001\
                     ba7816bf8f01cfea414140de5dae2223b00361a396177a9cb410ff61f20015ad\
                     6162630000000000000000000000000000000000000000000000000000000000\
                     00000000";

const DIGEST: &str = "ba7816bf8f01cfea414140de5dae2223b00361a396177a9cb410ff61f20015ad";

#[test]
fn a_commit_is_in_the_history(rt: HostRuntime) -> Result<(), Fail> {
    let mut vault = opened(&rt, blank(&rt)?)?;
    assert_eq!(rt; vault.history().len(), 0);
    assert_eq!(rt; vault.keeping().opened.states.len(), 0);
    put(&rt, &mut vault, "demo/a", b"abc", 1)?;
    let history = vault.history();
    assert!(rt; history.len() == 1);
    let done = history.get(0);
    assert!(rt; done.number == 1 && done.session == 0 && done.nth == 1);
    assert!(rt; done.reads.is_empty());
    assert!(rt; done.prints.len() == 1);
    let (key, print) = done.prints.get(0);
    assert!(rt; *key == key_of(&rt, "demo/a"));
    let mut digest = [0; 32];
    assert!(rt; hex::decode_to_slice(DIGEST, &mut digest).is_ok());
    match print {
        Some(print) => assert!(rt; print.size == 3 && print.digest.bytes == digest),
        None => assert!(rt; false, "no print"),
    }
    expect_hex(&rt, &done.form, ENTRY)?;
    assert!(rt; vault.keeping().groups.as_slice() == [1].as_slice());
    assert_eq!(rt; vault.keeping().failed.len(), 0);
    let again = opened(&rt, vault.close())?;
    assert_eq!(rt; again.history().len(), 0);
    assert_eq!(rt; again.keeping().opened.last, 1);
    expect_hex(&rt, &again.keeping().opened.states, TUPLE)
}

#[test]
fn a_group_has_its_last_number(rt: HostRuntime) -> Result<(), Fail> {
    let mut vault = opened(&rt, blank(&rt)?)?;
    let mut queue = Queue::new(rt.alloc());
    add_put(&rt, &mut queue, 0, "demo/a", b"abc")?;
    add_put(&rt, &mut queue, 1, "demo/b", b"abcd")?;
    lead(&rt, &mut vault, &mut queue, &[1, 2]);
    put(&rt, &mut vault, "demo/a", b"", 3)?;
    assert_eq!(rt; vault.history().len(), 3);
    assert!(rt; vault.keeping().groups.as_slice() == [2, 3].as_slice());
    Ok(())
}
