// Runs that are stopped: what the disk has then, opened again. `fresh s 1 1` takes 14 calls. A lead of one content of one page
// takes six: the frame, the next gate, a sync, the content, the gate and a sync. Its gate is page 515, and data page 0 is page 1029.

ghost use Rattle.std.specs.Prelude.{◌≡◌};
ghost use Rattle.disk_model.specs.Memory.{disk_story};

use crate::reports::SHOWN;
use crate::trial::{FRESH_CALLS, ONE_PUT, Trial, run_words, talk, talk_on};
use blob_base::PAGE_BYTES;
use blob_script::Status;
use disk_model::{MemDisk, Page, Pick, filled};
use std::process::Abort;
use std::test::Fail;

// The script of a session that puts the content `abc`.
const ONE_PUT_SCRIPT: &[u8] = b"0 begin\n0 put demo/a x:616263\n0 commit\nlead\n";

// What it is answered where the disk fails under its lead.
const UNANSWERED: &[u8] = b"0 begun\n0 put\n0 queued\ndisk fault\n";

// How many calls a disk took.
fn count(disk: &MemDisk) -> u64
    ensures { result ≡ (disk_story disk.now).time }
{
    let (reads, writes, syncs) = disk.calls();
    reads + writes + syncs
}

// A disk as a crash behind its last call leaves it, where no page arrived that was written since the last sync.
fn stopped<R: Abort + AllocGlobal>(rt: &R, disk: &MemDisk) -> MemDisk {
    disk.crash(rt.alloc(), count(disk), &[])
        .expect(rt, "memory")
}

// A disk as a crash behind so many calls leaves it, with these bytes on a page that was written since the last sync.
fn torn<R: Abort + AllocGlobal>(
    rt: &R,
    disk: &MemDisk,
    moment: u64,
    page: u32,
    bytes: &Page,
) -> MemDisk {
    assert!(rt; moment <= count(disk));
    assert!(rt; disk.is_pending(moment, page), "page {page}");
    let pick = Pick {
        page,
        bytes: *bytes,
    };
    disk.crash(rt.alloc(), moment, &[pick]).expect(rt, "memory")
}

// A store of two members of one group, stopped between the syncs of their lead, where the gate and the first content arrived.
fn half_arrived<R: Abort + AllocGlobal>(rt: &R) -> MemDisk {
    let ended = talk(
        rt,
        &[
            (
                "0 begin;0 put demo/a x:61;0 commit",
                "0 begun;0 put;0 queued",
            ),
            (
                "1 begin;1 put demo/b x:62;1 commit",
                "1 begun;1 put;1 queued",
            ),
            ("lead", "0 committed 1;1 committed 2"),
        ],
    );
    let moment = FRESH_CALLS + 6;
    let gate = Pick {
        page: 515,
        bytes: filled(b"GATEOPEN"),
    };
    let content = Pick {
        page: 1029,
        bytes: filled(b"a"),
    };
    assert_eq!(rt; count(&ended.disk), moment + 1);
    assert!(rt; ended.disk.is_pending(moment, 515));
    assert!(rt; ended.disk.is_pending(moment, 1029));
    assert!(rt; ended.disk.is_pending(moment, 1030));
    ended
        .disk
        .crash(rt.alloc(), moment, &[gate, content])
        .expect(rt, "memory")
}

// The entry whose content is missing is dropped, and its number isn't given again.
#[test]
fn a_lead_stopped_between_its_syncs(rt: HostRuntime) {
    let shown = run_words(&rt, "show s", half_arrived(&rt));
    shown.expect(
        &rt,
        b"demo/a 1 ca978112ca1bbdcafac231b39a23dc4da786eff8147c4e72b9807785afee48bb 1\nlast 2\n",
        &Status::Done,
    );
    let _ = talk_on(
        &rt,
        "steps s",
        shown.disk,
        &[
            (
                "0 begin;0 get demo/a;0 get demo/b",
                "0 begun;0 value 1 61;0 absent",
            ),
            (
                "0 put demo/c x:63;0 commit;lead",
                "0 put;0 queued;0 committed 3",
            ),
        ],
    );
}

// So it is in the first run behind the crash.
#[test]
fn a_number_that_was_dropped_isnt_given_again(rt: HostRuntime) {
    let _ = talk_on(
        &rt,
        "steps s",
        half_arrived(&rt),
        &[
            (
                "0 begin;0 get demo/a;0 get demo/b",
                "0 begun;0 value 1 61;0 absent",
            ),
            (
                "0 put demo/b x:62;0 commit;lead",
                "0 put;0 queued;0 committed 3",
            ),
        ],
    );
}

// The checkpoint writes the states, the header, the first gate, syncs, and writes the selector, which picked half 1.
#[test]
fn a_checkpoint_stopped_at_the_selector(rt: HostRuntime) {
    let ended = talk(&rt, &[ONE_PUT, ("checkpoint", "checkpointed")]);
    assert_eq!(rt; count(&ended.disk), FRESH_CALLS + 12);
    for selector in [filled(b"HALFONE1"), [0; PAGE_BYTES], [0xff; PAGE_BYTES]] {
        let disk = torn(&rt, &ended.disk, FRESH_CALLS + 11, 0, &selector);
        let shown = run_words(&rt, "show s", disk);
        shown.expect(&rt, SHOWN, &Status::Done);
    }
}

// The run ends as a disk fault at each call of the turn, and the store is as it was, whether what was written arrives or not.
#[test]
fn a_checkpoint_that_fails(rt: HostRuntime) -> Result<(), Fail> {
    for call in 1..7 {
        let trial = Trial {
            failing_disk_calls: &[FRESH_CALLS + 6 + call],
            ..Trial::of(b"0 begin\n0 put demo/a x:616263\n0 commit\nlead\ncheckpoint\nlead\n")
        };
        let ended = trial.run(rt.alloc())?;
        ended.expect(
            &rt,
            b"0 begun\n0 put\n0 queued\n0 committed 1\ndisk fault\n",
            &Status::DiskFault,
        );
        let shown = run_words(&rt, "show s", stopped(&rt, &ended.disk));
        shown.expect(&rt, SHOWN, &Status::Done);
        let shown = run_words(&rt, "show s", ended.disk);
        shown.expect(&rt, SHOWN, &Status::Done);
    }
    Ok(())
}

// The fourth write is that of the gate. The disk in memory has its bytes nevertheless, and a crash may leave none of them.
#[test]
fn the_fourth_write_of_a_lead_fails(rt: HostRuntime) -> Result<(), Fail> {
    let trial = Trial {
        failing_disk_calls: &[FRESH_CALLS + 5],
        ..Trial::of(ONE_PUT_SCRIPT)
    };
    let ended = trial.run(rt.alloc())?;
    ended.expect(&rt, UNANSWERED, &Status::DiskFault);
    assert_eq!(rt; ended.status.code(), 5);
    let shown = run_words(&rt, "show s", stopped(&rt, &ended.disk));
    shown.expect(&rt, b"last 0\n", &Status::Done);
    let shown = run_words(&rt, "show s", ended.disk);
    shown.expect(&rt, SHOWN, &Status::Done);
    Ok(())
}

// Before the gate is written nothing is committed, and then it may be; a crash at which nothing arrives leaves nothing of it.
#[test]
fn each_call_of_a_lead_fails(rt: HostRuntime) -> Result<(), Fail> {
    for call in 1..7 {
        let trial = Trial {
            failing_disk_calls: &[FRESH_CALLS + call],
            ..Trial::of(ONE_PUT_SCRIPT)
        };
        let ended = trial.run(rt.alloc())?;
        ended.expect(&rt, UNANSWERED, &Status::DiskFault);
        let shown = run_words(&rt, "show s", stopped(&rt, &ended.disk));
        shown.expect(&rt, b"last 0\n", &Status::Done);
        let left = if call < 5 {
            b"last 0\n".as_slice()
        } else {
            SHOWN
        };
        let shown = run_words(&rt, "show s", ended.disk);
        shown.expect(&rt, left, &Status::Done);
    }
    Ok(())
}

// An answer is given behind the last sync, so that no crash takes it back.
#[test]
fn a_committed_entry_stays(rt: HostRuntime) {
    let ended = talk(&rt, &[ONE_PUT]);
    let shown = run_words(&rt, "show s", stopped(&rt, &ended.disk));
    shown.expect(&rt, SHOWN, &Status::Done);
}
