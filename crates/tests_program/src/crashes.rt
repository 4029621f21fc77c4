// What crashes leave of a run at each of its moments, and of the opening behind a crash. `fresh s 1 1` takes 14 calls. The first
// lead takes seven: the frame, the next gate, a sync, two contents, the gate and a sync. The checkpoint takes six, and the second
// lead, of one content, as many. What is found in each image is worked out from the pages that arrived.

ghost use Rattle.std.specs.Prelude.{◌≡◌};
ghost use Rattle.disk_model.specs.Memory.{disk_story};

use crate::trial::{FRESH_CALLS, Trial, run_words, talk_on};
use blob_base::PAGE_BYTES;
use blob_script::Status;
use disk_model::{Disk, MemDisk, Pick, filled};
use std::process::Abort;

// Two members of one group, a checkpoint, and a group of one that deletes a key and puts another.
const SCRIPT: &[u8] =
    b"0 begin\n0 put demo/a x:61\n0 commit\n1 begin\n1 put demo/b x:62\n1 commit\nlead\ncheckpoint\n0 begin\n0 del demo/a\n0 put demo/c x:63\n0 commit\nlead\n";

// A format takes five calls.
const FORMAT_CALLS: u64 = 5;

// The call at which the first lead, the checkpoint and the second lead end.
const FIRST_LED: u64 = FRESH_CALLS + 7;

const TURNED: u64 = FIRST_LED + 6;

const SECOND_LED: u64 = TURNED + 6;

// What the lines are answered up to a fault in the first lead, in the checkpoint and in the second lead.
const IN_FIRST: &[u8] = b"0 begun\n0 put\n0 queued\n1 begun\n1 put\n1 queued\ndisk fault\n";

const IN_TURN: &[u8] =
    b"0 begun\n0 put\n0 queued\n1 begun\n1 put\n1 queued\n0 committed 1\n1 committed 2\ndisk fault\n";

const IN_SECOND: &[u8] =
    b"0 begun\n0 put\n0 queued\n1 begun\n1 put\n1 queued\n0 committed 1\n1 committed 2\ncheckpointed\n0 begun\n0 deleted\n0 put\n0 queued\ndisk fault\n";

// The stores that a show may find.
const NEW: &[u8] = b"last 0\n";

const NONE_OF_FIRST: &[u8] = b"last 2\n";

const ONE_A: &[u8] =
    b"demo/a 1 ca978112ca1bbdcafac231b39a23dc4da786eff8147c4e72b9807785afee48bb 1\nlast 2\n";

const ONE_B: &[u8] =
    b"demo/b 1 3e23e8160039594a33894f6564e1b1348bbd7a0088d42c4acb73eeaed59c009d 2\nlast 2\n";

const BOTH: &[u8] =
    b"demo/a 1 ca978112ca1bbdcafac231b39a23dc4da786eff8147c4e72b9807785afee48bb 1\ndemo/b 1 3e23e8160039594a33894f6564e1b1348bbd7a0088d42c4acb73eeaed59c009d 2\nlast 2\n";

const NONE_OF_SECOND: &[u8] =
    b"demo/a 1 ca978112ca1bbdcafac231b39a23dc4da786eff8147c4e72b9807785afee48bb 1\ndemo/b 1 3e23e8160039594a33894f6564e1b1348bbd7a0088d42c4acb73eeaed59c009d 2\nlast 3\n";

const SECOND: &[u8] =
    b"demo/b 1 3e23e8160039594a33894f6564e1b1348bbd7a0088d42c4acb73eeaed59c009d 2\ndemo/c 1 2e7d2c03a9507ae265ecf5b5356885a53393a2029d241394997265a1a25aefc6 3\nlast 3\n";

// The gates behind which the frames of the two leads stand, and the pages of their contents.
const FIRST_GATE: u32 = 515;

const SECOND_GATE: u32 = 3;

const PAGE_OF_A: u32 = 1029;

const PAGE_OF_B: u32 = 1030;

const PAGE_OF_C: u32 = 1031;

// How many calls a disk took.
fn count(disk: &MemDisk) -> u64
    ensures { result ≡ (disk_story disk.now).time }
{
    let (reads, writes, syncs) = disk.calls();
    reads + writes + syncs
}

// Whether these picks have a page with just these bytes in front, and zeros behind them.
fn arrived(picks: &[Pick], page: u32, front: &[u8; 8]) -> bool {
    let whole = filled(front);
    picks
        .iter()
        .any(|pick| pick.page == page && pick.bytes == whole)
}

// Whether a content of one byte arrived.
fn has_content(picks: &[Pick], page: u32, byte: u8) -> bool {
    let whole = filled(&[byte]);
    picks
        .iter()
        .any(|pick| pick.page == page && pick.bytes == whole)
}

// What is found where the run stopped at a call, and these pages arrived of those that were pending.
fn found(call: u64, picks: &[Pick]) -> &'static [u8] {
    if call <= FIRST_LED {
        if !arrived(picks, FIRST_GATE, b"GATEOPEN") {
            return NEW;
        }
        match (
            has_content(picks, PAGE_OF_A, b'a'),
            has_content(picks, PAGE_OF_B, b'b'),
        ) {
            (true, true) => BOTH,
            (true, false) => ONE_A,
            (false, true) => ONE_B,
            (false, false) => NONE_OF_FIRST,
        }
    } else if call <= TURNED || !arrived(picks, SECOND_GATE, b"GATEOPEN") {
        BOTH
    } else if has_content(picks, PAGE_OF_C, b'c') {
        SECOND
    } else {
        NONE_OF_SECOND
    }
}

// What the next put is answered, over what was found.
fn next_answers(shown: &[u8]) -> &'static str {
    if shown.ends_with(b"last 0\n") {
        "0 begun;0 put;0 queued;0 committed 1"
    } else if shown.ends_with(b"last 2\n") {
        "0 begun;0 put;0 queued;0 committed 3"
    } else {
        "0 begun;0 put;0 queued;0 committed 4"
    }
}

// What the script was answered where the disk failed at a call.
fn answered(call: u64) -> &'static [u8] {
    if call <= FRESH_CALLS {
        b"disk fault\n"
    } else if call <= FIRST_LED {
        IN_FIRST
    } else if call <= TURNED {
        IN_TURN
    } else {
        IN_SECOND
    }
}

// The disk of a run that failed at a call.
fn failed_at<R: Abort + AllocGlobal>(rt: &R, call: u64) -> MemDisk {
    let trial = Trial {
        failing_disk_calls: &[call],
        ..Trial::of(SCRIPT)
    };
    let ended = trial.run(rt.alloc()).expect(rt, "memory");
    ended.expect(rt, answered(call), &Status::DiskFault);
    ended.disk
}

// What may arrive of each page that is pending behind so many calls: what it reads as, or bytes of 0xff. No page was written twice.
fn choices<R: Abort + AllocGlobal>(rt: &R, disk: &mut MemDisk, moment: u64) -> Vec<Pick> {
    let mut picks = Vec::new(rt.alloc());
    for page in 0..disk.pages() {
        assert!(rt; moment <= count(disk));
        if disk.is_pending(moment, page) {
            let mut bytes = [0; PAGE_BYTES];
            assert!(rt; disk.read(page, &mut bytes) == Ok(()));
            let torn = Pick {
                page,
                bytes: [0xff; PAGE_BYTES],
            };
            picks.push(Pick { page, bytes }).expect(rt, "memory");
            picks.push(torn).expect(rt, "memory");
        }
    }
    picks
}

// A disk as a crash behind so many calls leaves it, where nothing arrived.
fn left_none<R: Abort + AllocGlobal>(rt: &R, disk: &MemDisk, moment: u64) -> MemDisk {
    assert!(rt; moment <= count(disk));
    disk.crash(rt.alloc(), moment, &[]).expect(rt, "memory")
}

// A disk as a crash behind so many calls leaves it, with these pages.
fn left<R: Abort + AllocGlobal>(
    rt: &R,
    disk: &MemDisk,
    moment: u64,
    one: Pick,
    two: Pick,
    three: Pick,
) -> MemDisk {
    assert!(rt; moment <= count(disk));
    assert!(rt; disk.is_pending(moment, one.page));
    assert!(rt; disk.is_pending(moment, two.page));
    assert!(rt; disk.is_pending(moment, three.page));
    disk.crash(rt.alloc(), moment, &[one, two, three])
        .expect(rt, "memory")
}

// Whether two of these are of one page, and not the same.
fn differ(one: &Pick, two: &Pick) -> bool {
    one.page == two.page && one.bytes != two.bytes
}

// Compares what a show finds.
fn expect_shown<R: Abort + AllocGlobal>(rt: &R, disk: MemDisk, shown: &[u8]) {
    let ended = run_words(rt, "show s", disk);
    ended.expect(rt, shown, &Status::Done);
}

// The run is stopped at each call from the opening on, and of up to three pending pages all bytes arrive, or others.
#[test]
fn each_image_of_each_moment_of_a_run(rt: HostRuntime) {
    for call in FORMAT_CALLS + 1..SECOND_LED + 1 {
        let mut disk = failed_at(&rt, call);
        let moment = count(&disk);
        assert_eq!(rt; moment, call);
        expect_shown(&rt, left_none(&rt, &disk, moment), found(call, &[]));
        let all = choices(&rt, &mut disk, moment);
        for i in 0..all.len() {
            for j in i..all.len() {
                for k in j..all.len() {
                    let picks = [all[i], all[j], all[k]];
                    if differ(&all[i], &all[j])
                        || differ(&all[j], &all[k])
                        || differ(&all[i], &all[k])
                    {
                        continue;
                    }
                    let image = left(&rt, &disk, moment, all[i], all[j], all[k]);
                    expect_shown(&rt, image, found(call, &picks));
                }
            }
        }
    }
}

// Opens an image, stops the opening at each of its moments, and opens what is left, of which the store goes on.
fn open_again<R: Abort + AllocGlobal>(rt: &R, image: MemDisk, shown: &[u8]) {
    let mut opened = run_words(rt, "show s", image);
    opened.expect(rt, shown, &Status::Done);
    let calls = count(&opened.disk);
    for moment in 0..calls + 1 {
        expect_shown(rt, left_none(rt, &opened.disk, moment), shown);
        let all = choices(rt, &mut opened.disk, moment);
        for i in 0..all.len() {
            let image = left(rt, &opened.disk, moment, all[i], all[i], all[i]);
            let _ = talk_on(
                rt,
                "steps s",
                image,
                &[(
                    "0 begin;0 put demo/d x:64;0 commit;lead",
                    next_answers(shown),
                )],
            );
        }
    }
}

// A run is stopped at each call, with nothing arrived, or three pages; the opening behind that is stopped in its turn, and a number
// that was dropped isn't given again.
#[test]
fn an_opening_behind_a_crash_is_stopped(rt: HostRuntime) {
    for call in FRESH_CALLS + 1..SECOND_LED + 1 {
        let mut disk = failed_at(&rt, call);
        let moment = count(&disk);
        open_again(&rt, left_none(&rt, &disk, moment), found(call, &[]));
        let all = choices(&rt, &mut disk, moment);
        if all.len() >= 6 {
            let picks = [all[0], all[2], all[4]];
            let image = left(&rt, &disk, moment, all[0], all[2], all[4]);
            open_again(&rt, image, found(call, &picks));
        }
    }
}
