// Scripts and their answers.

use crate::trial::{FIRST, FIRST_OUTPUT, Trial, expect};
use blob_base::{Bytes, OutOfMemory};
use blob_script::Status;
use std::alloc::Global;
use std::process::Abort;
use std::test::Fail;

#[test]
fn the_first_script_in_pieces(rt: HostRuntime) {
    for piece in [1, 2, 7, 4096] {
        let trial = Trial {
            piece,
            ..Trial::of(FIRST)
        };
        trial.expect(&rt, FIRST_OUTPUT, &Status::Done);
    }
}

#[test]
fn answers_of_well_formed_scripts(rt: HostRuntime) {
    for (script, output) in [
        ("", ""),
        ("0 begin", "0 begun\n"),
        ("lead\n", "idle\n"),
        ("checkpoint\n", "checkpointed\n"),
        ("0 get demo/a\n", "0 no-transaction\n"),
        ("0 stat demo/a\n", "0 no-transaction\n"),
        ("0 put demo/a x:00\n", "0 no-transaction\n"),
        ("0 commit\n", "0 no-transaction\n"),
        ("0 begin\n0 begin\n", "0 begun\n0 already\n"),
        ("0 begin\n0 get demo/a\n", "0 begun\n0 absent\n"),
        ("0 begin\n0 stat demo/a\n", "0 begun\n0 absent\n"),
        (
            "0 begin\n0 commit\n0 stat demo/a\n",
            "0 begun\n0 queued\n0 busy\n",
        ),
        (
            "0 begin\n0 put demo/a x:00\n0 stat demo/a\n0 stat demo/b\n",
            "0 begun\n0 put\n0 stat 1 6e340b9cffb37a989ca544e6bb780a2c78901d3fb33738768511a30617afa01d\n0 absent\n",
        ),
        ("0 begin\nlead\n", "0 begun\nidle\n"),
        (
            "0 begin\n0 commit\n0 begin\n0 get demo/a\n0 put demo/a x:00\n0 commit\n",
            "0 begun\n0 queued\n0 busy\n0 busy\n0 busy\n0 busy\n",
        ),
        (
            "0 begin\n0 commit\nlead\nlead\n0 commit\n",
            "0 begun\n0 queued\n0 committed 1\nidle\n0 no-transaction\n",
        ),
        (
            "0 begin\n0 put demo/a x:4A4b\n0 get demo/a\n0 put demo/a x:fF\n0 get demo/a\n",
            "0 begun\n0 put\n0 value 2 4a4b\n0 put\n0 value 1 ff\n",
        ),
        (
            "0 begin\n0 put a/b x:01\n0 commit\nlead\n0 begin\n0 put a/b x:0203\n0 commit\nlead\n0 begin\n0 get a/b\n0 get b/a",
            "0 begun\n0 put\n0 queued\n0 committed 1\n0 begun\n0 put\n0 queued\n0 committed 2\n0 begun\n0 value 2 0203\n0 absent\n",
        ),
    ] {
        expect(&rt, script, output, &Status::Done);
    }
}

// An empty content has a size, a digest and no byte.
#[test]
fn an_empty_content(rt: HostRuntime) {
    expect(
        &rt,
        "0 begin\n0 put demo/a x:\n0 stat demo/a\n0 get demo/a\n0 commit\nlead\n0 begin\n0 get demo/a\n0 stat demo/a\n",
        "0 begun\n0 put\n0 stat 0 e3b0c44298fc1c149afbf4c8996fb92427ae41e4649b934ca495991b7852b855\n0 value 0 -\n0 queued\n0 committed 1\n0 begun\n0 value 0 -\n0 stat 0 e3b0c44298fc1c149afbf4c8996fb92427ae41e4649b934ca495991b7852b855\n",
        &Status::Done,
    );
}

#[test]
fn lines_that_are_skipped(rt: HostRuntime) {
    for (script, output) in [
        ("\n", ""),
        ("\n\n0 begin\n", "0 begun\n"),
        ("# note", ""),
        ("#\n#0 begin\n# \nlead\n#", "idle\n"),
    ] {
        expect(&rt, script, output, &Status::Done);
    }
}

// The script is a line, and then a lead that isn't come to.
fn expect_last<R: Abort + AllocGlobal>(rt: &R, line: &str, closing: &[u8], status: &Status) {
    let mut script = Bytes::of(rt.alloc(), line.as_bytes()).expect(rt, "memory");
    script.append(rt.alloc(), b"\nlead\n").expect(rt, "memory");
    Trial::of(script.as_slice()).expect(rt, closing, status);
}

#[test]
fn lines_that_are_malformed(rt: HostRuntime) {
    for line in [
        " ",
        " # note",
        "0 jump",
        "0  begin",
        " 0 begin",
        "0 begin ",
        "0 begin\r",
        "0\tbegin",
        "0 begin now",
        "16 begin",
        "00 begin",
        "-1 begin",
        "begin",
        "0",
        "0 lead",
        "lead now",
        "Lead",
        "0 checkpoint",
        "checkpoint now",
        "0 stat",
        "0 stat demo",
        "0 stat demo/a x:",
        "0 Stat demo/a",
        "0 get",
        "0 get demo",
        "0 get Demo/a",
        "0 get demo/\u{e9}",
        "0 del",
        "0 del demo/",
        "0 put demo/a",
        "0 put demo/a x:616",
        "0 put demo/a x:6g",
        "0 put demo/a X:61",
        "0 put demo/a 61",
        "0 put demo/a x:61 x:61",
        "0 put demo/ x:61",
        "0 put demo/a g:4294967296:0",
        "0 put demo/a g:1:256",
        "0 append demo/a",
        "0 find",
        "0 order x:",
        "0 order x: 65537",
        "0 open",
        "0 pread 256 0 1",
        "0 pread 0 0 65537",
        "0 close 256",
        "\u{e9}",
    ] {
        let status = Status::Malformed { line: 1 };
        expect_last(&rt, line, b"malformed line 1\n", &status);
    }
}

#[test]
fn lines_that_are_not_built(rt: HostRuntime) {
    for line in [
        "0 append demo/a x:61",
        "15 find x:",
        "0 order g:4:250 65536",
        "0 open /demo/a",
        "0 ls /",
        "0 pread 255 4294967295 65536",
        "0 close 0",
    ] {
        let status = Status::NotBuilt { line: 1 };
        expect_last(&rt, line, b"not built line 1\n", &status);
    }
}

// Lines that are skipped are counted, and so is a last line without its end.
#[test]
fn the_first_line_of_another_end_ends_the_script(rt: HostRuntime) {
    for (script, output, status) in [
        (
            "0 begin\n0 abort\n0 jump",
            "0 begun\n0 aborted\nmalformed line 3\n",
            Status::Malformed { line: 3 },
        ),
        (
            "0 begin\n0 jump\n0 append demo/a x:61\n",
            "0 begun\nmalformed line 2\n",
            Status::Malformed { line: 2 },
        ),
        (
            "0 begin\n0 append demo/a x:61\n0 jump\n",
            "0 begun\nnot built line 2\n",
            Status::NotBuilt { line: 2 },
        ),
        (
            "# one\n\n#lead\n15 begin\n16 begin\n",
            "15 begun\nmalformed line 5\n",
            Status::Malformed { line: 5 },
        ),
        (
            "\n0 begin\n\n0 ls /\n",
            "0 begun\nnot built line 4\n",
            Status::NotBuilt { line: 4 },
        ),
    ] {
        expect(&rt, script, output, &status);
    }
    let status = Status::Malformed { line: 2 };
    Trial::of(b"lead\n\xff\n").expect(&rt, b"idle\nmalformed line 2\n", &status);
}

// A line that begins with these bytes, and goes on with others up to this length.
fn long_line(alloc: Global, front: &[u8], byte: u8, len: usize) -> Result<Bytes, OutOfMemory> {
    let mut line = Bytes::of(alloc, front)?;
    for _ in front.len()..len {
        line.append(alloc, &[byte])?;
    }
    Ok(line)
}

// The longest line holds a put of 32,762 bytes.
#[test]
fn lines_of_65_536_bytes(rt: HostRuntime) -> Result<(), Fail> {
    let mut script = long_line(rt.alloc(), b"#", b'#', 65_536)?;
    script.append(rt.alloc(), b"\n0 begin\n")?;
    let put = long_line(rt.alloc(), b"0 put a/b x:", b'a', 65_536)?;
    script.append(rt.alloc(), put.as_slice())?;
    script.append(rt.alloc(), b"\n0 stat a/b\n")?;
    let output =
        b"0 begun\n0 put\n0 stat 32762 a53516ee3db26ae60cbf48b5ae355909a8e0cd28f1b9b6546d277b2b89f0bdd8\n";
    Trial::of(script.as_slice()).expect(&rt, output, &Status::Done);
    Ok(())
}

// A comment and a put, both of which were well formed if they were shorter.
#[test]
fn lines_of_65_537_bytes(rt: HostRuntime) -> Result<(), Fail> {
    let comment = long_line(rt.alloc(), b"#", b'#', 65_537)?;
    let put = long_line(rt.alloc(), b"0 put a/bc x:", b'a', 65_537)?;
    for line in [comment, put] {
        let status = Status::Malformed { line: 2 };
        let mut script = Bytes::of(rt.alloc(), b"0 begin\n")?;
        script.append(rt.alloc(), line.as_slice())?;
        Trial::of(script.as_slice()).expect(&rt, b"0 begun\nmalformed line 2\n", &status);
        script.append(rt.alloc(), b"\nlead\n")?;
        Trial::of(script.as_slice()).expect(&rt, b"0 begun\nmalformed line 2\n", &status);
    }
    Ok(())
}

#[test]
fn a_content_of_4096_bytes_in_hexadecimal(rt: HostRuntime) -> Result<(), Fail> {
    let mut script = Bytes::of(rt.alloc(), b"0 begin\n0 put demo/a x:")?;
    for _ in 0..4096 {
        script.append(rt.alloc(), b"ff")?;
    }
    script.append(rt.alloc(), b"\n0 stat demo/a")?;
    let output =
        b"0 begun\n0 put\n0 stat 4096 f47a8ec3e9aff2318d896942282ad4fe37d6391c82914f54a5da8a37de1300c6\n";
    Trial::of(script.as_slice()).expect(&rt, output, &Status::Done);
    Ok(())
}

// The greatest size is 381,669,375: that of 93,180 pages and 4,095 bytes.
#[test]
fn a_content_that_is_too_long(rt: HostRuntime) {
    expect(
        &rt,
        "0 begin\n0 put demo/a g:381669376:0\n0 put demo/b g:4294967295:0\n0 get demo/a\n0 commit\nlead\n",
        "0 begun\n0 too-long 381669376\n0 too-long 4294967295\n0 absent\n0 queued\n0 committed 1\n",
        &Status::Done,
    );
}

// A state of 32 extents and a key of 6 characters takes 77 + 6 + 36 * 32 = 1235 bytes, and four of them 4940.
#[test]
fn no_room_for_a_fourth_state(rt: HostRuntime) {
    let trial = Trial {
        words: "fresh s 8 1",
        pages: 9221,
        ..Trial::of(
            b"0 begin\n0 put demo/a g:4177920:0\n0 commit\nlead\n0 begin\n0 put demo/b g:4177920:0\n0 commit\nlead\n0 begin\n0 put demo/c g:4177920:0\n0 commit\nlead\n0 begin\n0 put demo/d g:4177920:0\n0 commit\nlead\n",
        )
    };
    trial.expect(
        &rt,
        b"0 begun\n0 put\n0 queued\n0 committed 1\n0 begun\n0 put\n0 queued\n0 committed 2\n0 begun\n0 put\n0 queued\n0 committed 3\n0 begun\n0 put\n0 queued\n0 no-room 4940 4096\n",
        &Status::Done,
    );
}
