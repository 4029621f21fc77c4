// The lines of scripts.

use blob_base::{Bytes, OutOfMemory};
use blob_script::{Action, Content, Step, StepFault};
use std::alloc::Global;
use std::process::Abort;
use std::test::Fail;

// The most bytes that a line has without its end.
const MAX_LINE: usize = 65_536;

// How a line spells a content: not at all, by the digits of its bytes, or by its length and its first byte.
#[derive(Clone, Copy)]
enum Spelled<'a> {
    Nothing,
    Hex(&'a [u8]),
    Made(u64, u8),
}

impl<'a> Spelled<'a> {
    fn of(content: &'a Content) -> Spelled<'a> {
        match content {
            Content::Hex { bytes } => Spelled::Hex(bytes.as_slice()),
            Content::Made { len, first } => Spelled::Made(*len, *first),
        }
    }

    fn is_same(&self, other: &Spelled) -> bool {
        match (self, other) {
            (Spelled::Nothing, Spelled::Nothing) => true,
            (Spelled::Hex(bytes), Spelled::Hex(others)) => *bytes == *others,
            (Spelled::Made(len, first), Spelled::Made(other, byte)) => {
                *len == *other && *first == *byte
            }
            _ => false,
        }
    }
}

// What an action is: its name, its key or path, its content, and its numbers, with zeros behind fewer than three.
#[derive(Clone, Copy)]
struct Told<'a> {
    name: &'a str,
    word: &'a [u8],
    content: Spelled<'a>,
    numbers: [u64; 3],
}

impl<'a> Told<'a> {
    fn lone(name: &'a str) -> Told<'a> {
        Told {
            name,
            word: &[],
            content: Spelled::Nothing,
            numbers: [0; 3],
        }
    }

    fn with_word(name: &'a str, word: &'a [u8]) -> Told<'a> {
        Told {
            word,
            ..Told::lone(name)
        }
    }

    fn with_content(name: &'a str, word: &'a [u8], content: &'a Content) -> Told<'a> {
        Told {
            word,
            content: Spelled::of(content),
            ..Told::lone(name)
        }
    }

    fn with_numbers(name: &'a str, numbers: [u64; 3]) -> Told<'a> {
        Told {
            numbers,
            ..Told::lone(name)
        }
    }

    fn of(action: &'a Action) -> Told<'a> {
        match action {
            Action::Begin => Told::lone("begin"),
            Action::Commit => Told::lone("commit"),
            Action::Abort => Told::lone("abort"),
            Action::Get { key } => Told::with_word("get", key.text()),
            Action::Stat { key } => Told::with_word("stat", key.text()),
            Action::Del { key } => Told::with_word("del", key.text()),
            Action::Put { key, content } => Told::with_content("put", key.text(), content),
            Action::Append { key, content } => Told::with_content("append", key.text(), content),
            Action::Find { content } => Told::with_content("find", &[], content),
            Action::Order { content, count } => Told {
                content: Spelled::of(content),
                ..Told::with_numbers("order", [u64::from(*count), 0, 0])
            },
            Action::Open { path } => Told::with_word("open", path.as_slice()),
            Action::Ls { path } => Told::with_word("ls", path.as_slice()),
            Action::Pread { view, off, len } => {
                Told::with_numbers("pread", [u64::from(*view), *off, u64::from(*len)])
            }
            Action::Close { view } => Told::with_numbers("close", [u64::from(*view), 0, 0]),
        }
    }
}

// The step that a line asks for, where it isn't skipped.
fn read<R: Abort + AllocGlobal>(rt: &R, line: &[u8]) -> Option<Step> {
    Step::read(rt.alloc(), line).expect(rt, "a line that is read")
}

fn expect_action<R: Abort + AllocGlobal>(rt: &R, line: &str, number: u8, told: &Told) {
    match read(rt, line.as_bytes()) {
        Some(Step::Session { session, action }) => {
            let found = Told::of(&action);
            assert_eq!(rt; session, number, "the session of {line}");
            assert!(rt; found.name == told.name, "the verb of {line}");
            assert!(rt; found.word == told.word, "the word of {line}");
            assert!(rt;
                found.content.is_same(&told.content),
                "the content of {line}"
            );
            assert!(rt; found.numbers == told.numbers, "the numbers of {line}");
        }
        _ => assert!(rt; false, "{line}"),
    }
}

fn expect_malformed<R: Abort + AllocGlobal>(rt: &R, line: &[u8]) {
    let fault = Step::read(rt.alloc(), line).err();
    assert!(rt;
        fault == Some(StepFault::Malformed),
        "{:?}",
        line.get(..40).unwrap_or(line)
    );
}

#[test]
fn lines_of_a_session(rt: HostRuntime) {
    for (line, session, name, word, content, numbers) in [
        ("0 begin", 0, "begin", "", Spelled::Nothing, [0, 0, 0]),
        ("1 commit", 1, "commit", "", Spelled::Nothing, [0, 0, 0]),
        ("2 abort", 2, "abort", "", Spelled::Nothing, [0, 0, 0]),
        (
            "3 get demo/a",
            3,
            "get",
            "demo/a",
            Spelled::Nothing,
            [0, 0, 0],
        ),
        (
            "4 stat demo/b",
            4,
            "stat",
            "demo/b",
            Spelled::Nothing,
            [0, 0, 0],
        ),
        (
            "5 del demo/c",
            5,
            "del",
            "demo/c",
            Spelled::Nothing,
            [0, 0, 0],
        ),
        (
            "6 put demo/d x:61fF",
            6,
            "put",
            "demo/d",
            Spelled::Hex(&[0x61, 0xff]),
            [0, 0, 0],
        ),
        (
            "7 append demo/e g:4096:9",
            7,
            "append",
            "demo/e",
            Spelled::Made(4096, 9),
            [0, 0, 0],
        ),
        ("8 find x:", 8, "find", "", Spelled::Hex(&[]), [0, 0, 0]),
        (
            "9 order x:07 10",
            9,
            "order",
            "",
            Spelled::Hex(&[7]),
            [10, 0, 0],
        ),
        (
            "10 open /demo/a",
            10,
            "open",
            "/demo/a",
            Spelled::Nothing,
            [0, 0, 0],
        ),
        ("11 ls /", 11, "ls", "/", Spelled::Nothing, [0, 0, 0]),
        (
            "12 pread 3 1 20",
            12,
            "pread",
            "",
            Spelled::Nothing,
            [3, 1, 20],
        ),
        ("15 close 7", 15, "close", "", Spelled::Nothing, [7, 0, 0]),
    ] {
        let told = Told {
            name,
            word: word.as_bytes(),
            content,
            numbers,
        };
        expect_action(&rt, line, session, &told);
    }
}

#[test]
fn the_greatest_and_the_least_numbers(rt: HostRuntime) {
    for (line, name, word, content, numbers) in [
        (
            "0 put a/b g:4294967295:255",
            "put",
            "a/b",
            Spelled::Made(4_294_967_295, 255),
            [0, 0, 0],
        ),
        (
            "0 put a/b g:0:0",
            "put",
            "a/b",
            Spelled::Made(0, 0),
            [0, 0, 0],
        ),
        (
            "0 order g:1:0 65536",
            "order",
            "",
            Spelled::Made(1, 0),
            [65_536, 0, 0],
        ),
        ("0 order x: 0", "order", "", Spelled::Hex(&[]), [0, 0, 0]),
        (
            "0 pread 255 4294967295 65536",
            "pread",
            "",
            Spelled::Nothing,
            [255, 4_294_967_295, 65_536],
        ),
        ("0 pread 0 0 0", "pread", "", Spelled::Nothing, [0, 0, 0]),
        ("0 close 255", "close", "", Spelled::Nothing, [255, 0, 0]),
        ("0 open #", "open", "#", Spelled::Nothing, [0, 0, 0]),
        ("0 ls demo", "ls", "demo", Spelled::Nothing, [0, 0, 0]),
    ] {
        let told = Told {
            name,
            word: word.as_bytes(),
            content,
            numbers,
        };
        expect_action(&rt, line, 0, &told);
    }
}

#[test]
fn lines_of_no_session(rt: HostRuntime) {
    assert!(rt; matches!(read(&rt, b"lead"), Some(Step::Lead)));
    assert!(rt; matches!(read(&rt, b"checkpoint"), Some(Step::Checkpoint)));
    for line in ["", "#", "# a comment", "#0 begin", "##"] {
        assert!(rt; read(&rt, line.as_bytes()).is_none(), "{line}");
    }
}

#[test]
fn lines_that_no_script_has(rt: HostRuntime) {
    for line in [
        // The session.
        "16 begin",
        "00 begin",
        "01 begin",
        "+1 begin",
        "-1 begin",
        "256 begin",
        "a begin",
        "begin",
        "0",
        "16 get demo/a",
        // The verb, and how many words it has.
        "0 jump",
        "0 Begin",
        "0 begin 1",
        "0 commit 1",
        "0 abort demo/a",
        "0 get",
        "0 get demo/a demo/b",
        "0 put demo/a",
        "0 put demo/a x:61 x:62",
        "0 append demo/a",
        "0 find",
        "0 order x:",
        "0 open",
        "0 open a b",
        "0 ls",
        "0 pread 0 0",
        "0 pread 0 0 1 1",
        "0 close",
        "0 lead",
        "0 checkpoint",
        "lead 0",
        "Lead",
        "checkpoint 1",
        // The blanks.
        " ",
        " 0 begin",
        "0  begin",
        "0 begin ",
        "0 get  demo/a",
        "0 get demo/a ",
        "0 open ",
        "0 ls ",
        "lead ",
        " lead",
        " #",
        "\t",
        "0\tbegin",
        "0 begin\r",
        // The key.
        "0 get demo",
        "0 stat demo/",
        "0 del /a",
        "0 put Demo/a x:61",
        "0 append demo/a/b x:61",
        // The content.
        "0 put demo/a x:6",
        "0 put demo/a x:616",
        "0 put demo/a x:6g",
        "0 put demo/a 61",
        "0 put demo/a g:4294967296:0",
        "0 put demo/a g:0:256",
        "0 append demo/a g:01:0",
        "0 append demo/a g:1:00",
        "0 find g:1",
        "0 find x",
        "0 order y: 1",
        // Other numbers.
        "0 order x: 65537",
        "0 order x: 01",
        "0 pread 256 0 1",
        "0 pread 00 0 1",
        "0 pread 0 4294967296 1",
        "0 pread 0 0 65537",
        "0 pread 0 0 -1",
        "0 close 256",
        "0 close 07",
        "0 close x",
    ] {
        expect_malformed(&rt, line.as_bytes());
    }
    expect_malformed(&rt, &[0xff]);
    expect_malformed(&rt, b"0 begin\0");
}

// A line with these bytes at its front and `a` behind them, so many bytes in all.
fn long_line(alloc: Global, front: &[u8], len: usize) -> Result<Bytes, OutOfMemory> {
    let mut line = Bytes::of(alloc, front)?;
    for _ in front.len()..len {
        line.push(alloc, b'a')?;
    }
    Ok(line)
}

#[test]
fn the_longest_lines(rt: HostRuntime) -> Result<(), Fail> {
    let line = long_line(rt.alloc(), b"0 open ", MAX_LINE)?;
    assert_eq!(rt; line.len(), 65_536);
    match read(&rt, line.as_slice()) {
        Some(
            Step::Session {
                session: 0,
                action: Action::Open { path },
            },
        ) => assert_eq!(rt; path.len(), 65_529),
        _ => assert!(rt; false),
    }
    let comment = long_line(rt.alloc(), b"#", MAX_LINE)?;
    assert!(rt; read(&rt, comment.as_slice()).is_none());
    for front in [b"0 open ".as_slice(), b"#", b"0 jump"] {
        let line = long_line(rt.alloc(), front, MAX_LINE + 1)?;
        assert_eq!(rt; line.len(), 65_537);
        expect_malformed(&rt, line.as_slice());
    }
    Ok(())
}
