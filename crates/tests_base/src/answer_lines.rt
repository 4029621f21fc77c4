// The answers to a script's lines, as they are printed.

use blob_base::{Bytes, Key, Keys, Names, OutOfMemory};
use blob_script::{Answer, AnswerLine};
use sha_resume::Digest;
use std::alloc::Global;
use std::process::Abort;
use std::test::Fail;

fn key_of<R: Abort>(rt: &R, text: &str) -> Key {
    Key::read(text.as_bytes()).expect(rt, "a key")
}

// Prints an answer behind other bytes.
fn expect_print<R: Abort + AllocGlobal>(rt: &R, answer: &Answer, text: &str) {
    let mut out = Bytes::of(rt.alloc(), b"ab").expect(rt, "memory");
    answer.print(rt.alloc(), &mut out).expect(rt, "memory");
    let (front, line) = out.as_slice().split_at(2);
    assert!(rt; front == b"ab".as_slice(), "{text}");
    assert!(rt; line == text.as_bytes(), "{text}");
}

fn expect_line<R: Abort + AllocGlobal>(rt: &R, line: AnswerLine, at: Option<u64>, text: &str) {
    let answer = Answer::Session {
        session: 3,
        line,
        at,
    };
    expect_print(rt, &answer, text);
}

#[test]
fn answers_to_calls(rt: HostRuntime) {
    for (line, text) in [
        (AnswerLine::Begun, "3 begun\n"),
        (AnswerLine::Put, "3 put\n"),
        (AnswerLine::Appended, "3 appended\n"),
        (AnswerLine::Deleted, "3 deleted\n"),
        (AnswerLine::Queued, "3 queued\n"),
        (AnswerLine::Aborted, "3 aborted\n"),
        (AnswerLine::Opened { view: 0 }, "3 opened 0\n"),
        (AnswerLine::Opened { view: 255 }, "3 opened 255\n"),
        (AnswerLine::Closed, "3 closed\n"),
        (AnswerLine::Busy, "3 busy\n"),
        (AnswerLine::Already, "3 already\n"),
        (AnswerLine::NoTransaction, "3 no-transaction\n"),
        (AnswerLine::TooMany { keys: 17 }, "3 too-many 17\n"),
        (AnswerLine::Stale { now: Some(2) }, "3 stale 2\n"),
        (AnswerLine::Stale { now: None }, "3 stale none\n"),
        (AnswerLine::Absent, "3 absent\n"),
        (
            AnswerLine::TooLong { size: 381_669_376 },
            "3 too-long 381669376\n",
        ),
        (AnswerLine::BadPath { at: 6 }, "3 bad-path 6\n"),
        (AnswerLine::NotAFile, "3 not-a-file\n"),
        (AnswerLine::NotAFolder, "3 not-a-folder\n"),
        (AnswerLine::NoView, "3 no-view\n"),
        (AnswerLine::TooManyViews, "3 too-many-views\n"),
    ] {
        expect_line(&rt, line, None, text);
    }
}

#[test]
fn replies_to_requests(rt: HostRuntime) {
    let last = 4_611_686_018_427_387_904;
    for (line, text) in [
        (AnswerLine::Committed { number: 1 }, "3 committed 1\n"),
        (
            AnswerLine::Committed { number: last },
            "3 committed 4611686018427387904\n",
        ),
        (
            AnswerLine::Conflict {
                key: key_of(&rt, "demo/a"),
                read: Some(1),
                now: Some(2),
            },
            "3 conflict demo/a 1 2\n",
        ),
        (
            AnswerLine::Conflict {
                key: key_of(&rt, "demo/b"),
                read: None,
                now: Some(1),
            },
            "3 conflict demo/b none 1\n",
        ),
        (
            AnswerLine::Conflict {
                key: key_of(&rt, "demo/c"),
                read: Some(12),
                now: None,
            },
            "3 conflict demo/c 12 none\n",
        ),
        (
            AnswerLine::NoNumber { last },
            "3 no-number 4611686018427387904\n",
        ),
        (
            AnswerLine::NoSpace {
                key: key_of(&rt, "demo/c"),
                tier: 0,
            },
            "3 no-space demo/c 0\n",
        ),
        (
            AnswerLine::NoRoom {
                need: 4940,
                have: 4096,
            },
            "3 no-room 4940 4096\n",
        ),
        (AnswerLine::Ahead { seen: 3, front: 2 }, "3 ahead 3 2\n"),
    ] {
        expect_line(&rt, line, None, text);
    }
}

fn keys_of<R: Abort + AllocGlobal>(rt: &R, texts: &[&str]) -> Result<Keys, OutOfMemory> {
    let mut keys = Keys::new(rt.alloc());
    for text in texts {
        keys.push(rt.alloc(), key_of(rt, text))?;
    }
    Ok(keys)
}

fn names_of(alloc: Global, texts: &[&str]) -> Result<Names, OutOfMemory> {
    let mut names = Names::new(alloc);
    for text in texts {
        names.push(alloc, Bytes::of(alloc, text.as_bytes())?)?;
    }
    Ok(names)
}

#[test]
fn answers_that_list_words(rt: HostRuntime) -> Result<(), Fail> {
    for (texts, text) in [
        ([].as_slice(), "3 found 0\n"),
        (["demo/c", "demo/d"].as_slice(), "3 found 2 demo/c demo/d\n"),
    ] {
        let keys = keys_of(&rt, texts)?;
        expect_line(&rt, AnswerLine::Found { keys }, None, text);
    }
    for (texts, text) in [
        ([].as_slice(), "3 order 0\n"),
        (
            ["demo/c", "demo/d", "demo/b", "demo/a"].as_slice(),
            "3 order 4 demo/c demo/d demo/b demo/a\n",
        ),
    ] {
        let keys = keys_of(&rt, texts)?;
        expect_line(&rt, AnswerLine::Order { keys }, None, text);
    }
    for (texts, text) in [
        ([].as_slice(), "3 list 0\n"),
        (["demo"].as_slice(), "3 list 1 demo\n"),
        (["a", "b.c"].as_slice(), "3 list 2 a b.c\n"),
    ] {
        let names = names_of(rt.alloc(), texts)?;
        expect_line(&rt, AnswerLine::List { names }, None, text);
    }
    Ok(())
}

// Those of no bytes too.
#[test]
fn answers_that_show_bytes(rt: HostRuntime) -> Result<(), Fail> {
    for (bytes, value, data) in [
        (b"".as_slice(), "3 value 0 -\n", "3 data 0 -\n"),
        (b"abc", "3 value 3 616263\n", "3 data 3 616263\n"),
        (&[0, 0xaf], "3 value 2 00af\n", "3 data 2 00af\n"),
    ] {
        let content = Bytes::of(rt.alloc(), bytes)?;
        expect_line(&rt, AnswerLine::Value { content }, None, value);
        let bytes = Bytes::of(rt.alloc(), bytes)?;
        expect_line(&rt, AnswerLine::Data { bytes }, None, data);
    }
    Ok(())
}

fn digest_of<R: Abort>(rt: &R, text: &str) -> Digest {
    let mut bytes = [0; 32];
    assert!(rt; hex::decode_to_slice(text, &mut bytes).is_ok());
    Digest { bytes }
}

#[test]
fn a_size_and_a_digest(rt: HostRuntime) {
    let text = "ba7816bf8f01cfea414140de5dae2223b00361a396177a9cb410ff61f20015ad";
    let digest = digest_of(&rt, text);
    expect_line(
        &rt,
        AnswerLine::Stat { size: 3, digest },
        None,
        "3 stat 3 ba7816bf8f01cfea414140de5dae2223b00361a396177a9cb410ff61f20015ad\n",
    );
}

// The number of the last entry whose effect an answer shows stands at its end.
#[test]
fn answers_at_a_front(rt: HostRuntime) -> Result<(), Fail> {
    let content = Bytes::of(rt.alloc(), b"abc")?;
    expect_line(
        &rt,
        AnswerLine::Value { content },
        Some(12),
        "3 value 3 616263 at 12\n",
    );
    expect_line(&rt, AnswerLine::Absent, Some(0), "3 absent at 0\n");
    let keys = keys_of(&rt, &["demo/a"])?;
    expect_line(
        &rt,
        AnswerLine::Found { keys },
        Some(1),
        "3 found 1 demo/a at 1\n",
    );
    Ok(())
}

#[test]
fn sessions_and_answers_of_none(rt: HostRuntime) {
    for (session, text) in [(0, "0 begun\n"), (9, "9 begun\n"), (15, "15 begun\n")] {
        let answer = Answer::Session {
            session,
            line: AnswerLine::Begun,
            at: None,
        };
        expect_print(&rt, &answer, text);
    }
    expect_print(&rt, &Answer::Idle, "idle\n");
    expect_print(&rt, &Answer::Checkpointed, "checkpointed\n");
}

// A content that stands elsewhere is printed as one that is moved into the answer.
#[test]
fn a_value_that_stands_elsewhere(rt: HostRuntime) -> Result<(), Fail> {
    for (session, bytes, text) in [
        (0, b"".as_slice(), "0 value 0 -\n"),
        (7, b"abc", "7 value 3 616263\n"),
        (15, &[0xff; 300], ""),
    ] {
        let mut printed = Bytes::of(rt.alloc(), b"ab")?;
        let answer = Answer::Session {
            session,
            line: AnswerLine::Value {
                content: Bytes::of(rt.alloc(), bytes)?,
            },
            at: None,
        };
        answer.print(rt.alloc(), &mut printed)?;
        let mut out = Bytes::of(rt.alloc(), b"ab")?;
        Answer::print_value(rt.alloc(), &mut out, session, bytes)?;
        assert!(rt; out.as_slice() == printed.as_slice(), "{session}");
        let (_, line) = out.as_slice().split_at(2);
        assert!(rt; text.is_empty() || line == text.as_bytes(), "{text}");
    }
    Ok(())
}
