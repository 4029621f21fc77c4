// Faults of the source, the sink and the disk, and want of memory.

use crate::trial::{FIRST, FIRST_OUTPUT, FRESH_CALLS, Trial, append_made};
use blob_base::Bytes;
use blob_script::Status;
use std::test::Fail;

// Two puts, one of them of two extents and a tail, and a get of it. The disk takes the frame, the next
// gate, a sync, four pages of contents, the gate and a sync, and then three reads.
const TWO_PUTS: &[u8] =
    b"0 begin\n0 put a/b x:01\n0 put a/a g:8193:9\n0 commit\nlead\n0 begin\n0 get a/a\n";

#[test]
fn reads_that_fail(rt: HostRuntime) {
    for (failing, output) in [
        (1, b"read fault\n".as_slice()),
        (2, b"0 begun\nread fault\n".as_slice()),
        (4, b"0 begun\n0 put\nread fault\n".as_slice()),
        (5, b"0 begun\n0 put\n0 queued\nread fault\n".as_slice()),
    ] {
        let trial = Trial {
            piece: 8,
            failing_reads: &[failing],
            ..Trial::of(b"0 begin\n0 put a/b x:01\n0 commit\n")
        };
        trial.expect(&rt, output, &Status::ReadFault);
    }
}

#[test]
fn writes_that_fail(rt: HostRuntime) {
    for (failing, output) in [
        (1, b"write fault\n".as_slice()),
        (2, b"0 begun\nwrite fault\n".as_slice()),
        (3, b"0 begun\n0 put\nwrite fault\n".as_slice()),
    ] {
        let trial = Trial {
            failing_writes: &[failing],
            ..Trial::of(FIRST)
        };
        trial.expect(&rt, output, &Status::WriteFault);
    }
}

#[test]
fn a_sink_that_takes_nothing(rt: HostRuntime) {
    let mut failing = [0; 100];
    for i in 0..100 {
        failing[i] = i as u64 + 1;
    }
    let trial = Trial {
        failing_writes: &failing,
        ..Trial::of(FIRST)
    };
    trial.expect(&rt, b"", &Status::WriteFault);
}

#[test]
fn disk_calls_that_fail(rt: HostRuntime) -> Result<(), Fail> {
    let front = b"0 begun\n0 put\n0 put\n0 queued\ndisk fault\n".as_slice();
    let all = b"0 begun\n0 put\n0 put\n0 queued\n0 committed 1\n0 begun\ndisk fault\n".as_slice();
    for call in 1..13 {
        let trial = Trial {
            failing_disk_calls: &[FRESH_CALLS + call],
            ..Trial::of(TWO_PUTS)
        };
        let output = if call <= 9 { front } else { all };
        trial.expect(&rt, output, &Status::DiskFault);
    }
    let trial = Trial {
        failing_disk_calls: &[FRESH_CALLS + 13],
        ..Trial::of(TWO_PUTS)
    };
    let mut output = Bytes::of(
        rt.alloc(),
        b"0 begun\n0 put\n0 put\n0 queued\n0 committed 1\n0 begun\n0 value 8193 ",
    )?;
    append_made(rt.alloc(), &mut output, 9, 2, 1)?;
    output.append(rt.alloc(), b"\n")?;
    trial.expect(&rt, output.as_slice(), &Status::Done);
    Ok(())
}

// No line is read where the format or the opening fails.
#[test]
fn calls_of_the_format_and_the_opening_that_fail(rt: HostRuntime) {
    for call in 1..FRESH_CALLS + 1 {
        let trial = Trial {
            failing_disk_calls: &[call],
            ..Trial::of(TWO_PUTS)
        };
        trial.expect(&rt, b"disk fault\n", &Status::DiskFault);
    }
}

// Where an allocation of the run fails, the answers so far stay, and no other stands in their place.
#[test]
fn want_of_memory_changes_no_answer(rt: HostRuntime) {
    let Ok(ended) = Trial::of(FIRST).run(rt.alloc()) else {
        return;
    };
    let taken = ended.sink.taken();
    if ended.status == Status::Done {
        assert!(rt; taken == FIRST_OUTPUT);
        return;
    }
    assert!(rt; ended.status == Status::OutOfMemory);
    let closing = b"out of memory\n".as_slice();
    let answers = taken.strip_suffix(closing).unwrap_or(taken);
    assert!(rt; FIRST_OUTPUT.starts_with(answers));
}
