// What an entry writes.

use arrayvec::ArrayVec;
use blob_base::Key;
use blob_state::Draft;
use frame_codec::{MAX_WRITES, Write, Writes};
use std::process::Abort;
use std::test::Fail;

fn key_of<R: Abort>(rt: &R, text: &str) -> Key {
    Key::read(text.as_bytes()).expect(rt, "a key")
}

// Sets a key to the state of a content without bytes.
fn set_of<R: Abort + AllocGlobal>(rt: &R, text: &str) -> Result<Write, Fail> {
    let draft = Draft::put(b"").expect(rt, "a draft");
    assert!(rt; draft.marks().len() == 0);
    assert!(rt; draft.size() == 0);
    let state = Box::new(rt.alloc(), draft.place(&ArrayVec::new(), None, 7))?;
    Ok(Write::Set {
        key: key_of(rt, text),
        state,
    })
}

#[test]
fn a_write_of_each_kind(rt: HostRuntime) -> Result<(), Fail> {
    let mut writes = Writes::new(rt.alloc());
    assert!(rt; writes.is_empty());
    writes.push(rt.alloc(), set_of(&rt, "demo/a")?)?;
    assert!(rt; writes.len() == 1 && !writes.is_empty());
    let Write::Set { key, state } = writes.get(0) else {
        assert!(rt; false);
        return Ok(());
    };
    assert!(rt; key.text() == b"demo/a".as_slice());
    assert_eq!(rt; state.born(), 7);
    let del = Write::Del {
        key: Key::read(b"demo/b").expect(&rt, "a key"),
    };
    assert!(rt; del.key().text() == b"demo/b".as_slice());
    assert!(rt; writes.get(0).key() < del.key());
    assert_eq!(rt; MAX_WRITES, 16);
    Ok(())
}
