// The calls of the disk in their order. In the smallest store page 0 is the selector, the headers of the halves are pages 1 and 2,
// their logs begin at pages 3 and 515, their states stand on pages 1027 and 1028, and data page 0 is page 1029. A format makes half
// 0, and each opening turns to the other half.

ghost use Rattle.std.specs.Prelude.{◌<◌};

use crate::recorded::{Given, Recorder, talk_recorded};
use crate::trial::{ONE_PUT, Trial, new_disk, run_words, talk_on};
use blob_base::{Bytes, OutOfMemory};
use blob_script::Status;
use std::alloc::Global;
use std::process::Abort;
use std::test::Fail;

// How many calls the format and the opening of a `fresh` are.
const FRESH: usize = 14;

#[test]
fn a_fresh_store_is_formatted_and_opened(rt: HostRuntime) {
    let ended = talk_recorded(&rt, &[]);
    ended.disk.expect_rest(
        &rt,
        0,
        &[
            Given::Write(1),
            Given::Write(3),
            Given::Sync,
            Given::Write(0),
            Given::Sync,
            Given::Sync,
            Given::Read(0),
            Given::Read(1),
            Given::Read(3),
            Given::Write(2),
            Given::Write(515),
            Given::Sync,
            Given::Write(0),
            Given::Sync,
        ],
    );
}

// The body and the next gate, then the content and the gate, each with a sync behind.
#[test]
fn a_lead_writes_four_pages(rt: HostRuntime) {
    let ended = talk_recorded(
        &rt,
        &[
            ONE_PUT,
            ("0 begin;0 get demo/a", "0 begun;0 value 3 616263"),
        ],
    );
    ended.disk.expect_rest(
        &rt,
        FRESH,
        &[
            Given::Write(516),
            Given::Write(517),
            Given::Sync,
            Given::Write(1029),
            Given::Write(515),
            Given::Sync,
            Given::Read(1029),
        ],
    );
}

#[test]
fn a_lead_of_an_empty_content_writes_three_pages(rt: HostRuntime) {
    let ended = talk_recorded(
        &rt,
        &[
            (
                "0 begin;0 put demo/a x:;0 commit;lead",
                "0 begun;0 put;0 queued;0 committed 1",
            ),
            ("0 begin;0 get demo/a", "0 begun;0 value 0 -"),
        ],
    );
    ended.disk.expect_rest(
        &rt,
        FRESH,
        &[
            Given::Write(516),
            Given::Write(517),
            Given::Sync,
            Given::Write(515),
            Given::Sync,
        ],
    );
}

#[test]
fn three_sessions_in_one_group_make_two_syncs(rt: HostRuntime) {
    let ended = talk_recorded(
        &rt,
        &[
            (
                "0 begin;0 put demo/a x:61;0 commit",
                "0 begun;0 put;0 queued",
            ),
            (
                "1 begin;1 put demo/b x:62;1 commit",
                "1 begun;1 put;1 queued",
            ),
            (
                "2 begin;2 put demo/c x:63;2 commit",
                "2 begun;2 put;2 queued",
            ),
            ("lead", "0 committed 1;1 committed 2;2 committed 3"),
        ],
    );
    ended.disk.expect_rest(
        &rt,
        FRESH,
        &[
            Given::Write(516),
            Given::Write(517),
            Given::Sync,
            Given::Write(1029),
            Given::Write(1030),
            Given::Write(1031),
            Given::Write(515),
            Given::Sync,
        ],
    );
}

// A turn writes the page of the states, the header and the first gate of the other half, and then the selector.
#[test]
fn a_checkpoint_turns_to_the_other_half_and_back(rt: HostRuntime) {
    let ended = talk_recorded(
        &rt,
        &[
            ONE_PUT,
            ("checkpoint;checkpoint", "checkpointed;checkpointed"),
        ],
    );
    ended.disk.expect_rest(
        &rt,
        FRESH + 6,
        &[
            Given::Write(1027),
            Given::Write(1),
            Given::Write(3),
            Given::Sync,
            Given::Write(0),
            Given::Sync,
            Given::Write(1028),
            Given::Write(2),
            Given::Write(515),
            Given::Sync,
            Given::Write(0),
            Given::Sync,
        ],
    );
}

// No states have no page.
#[test]
fn a_checkpoint_of_an_empty_store_writes_three_pages(rt: HostRuntime) {
    let ended = talk_recorded(&rt, &[("checkpoint", "checkpointed")]);
    ended.disk.expect_rest(
        &rt,
        FRESH,
        &[
            Given::Write(1),
            Given::Write(3),
            Given::Sync,
            Given::Write(0),
            Given::Sync,
        ],
    );
}

// The frame behind a turn stands at the front of the other half's log.
#[test]
fn a_lead_goes_on_in_the_half_that_a_checkpoint_turned_to(rt: HostRuntime) {
    let ended = talk_recorded(
        &rt,
        &[
            ONE_PUT,
            ("checkpoint", "checkpointed"),
            (
                "0 begin;0 put demo/b x:62;0 commit;lead",
                "0 begun;0 put;0 queued;0 committed 2",
            ),
        ],
    );
    ended.disk.expect_rest(
        &rt,
        FRESH + 12,
        &[
            Given::Write(4),
            Given::Write(5),
            Given::Sync,
            Given::Write(1030),
            Given::Write(3),
            Given::Sync,
        ],
    );
}

// It reads the selector, the header, the log up to its closed gate, and the content that the last frame sets; and then turns.
#[test]
fn an_opening_reads_each_page_once(rt: HostRuntime) {
    let first = talk_recorded(&rt, &[ONE_PUT]).disk;
    let disk = Recorder::over(rt.alloc(), first.disk);
    let ended = talk_on(&rt, "steps s", disk, &[("lead", "idle")]);
    ended.disk.expect_rest(
        &rt,
        0,
        &[
            Given::Sync,
            Given::Read(0),
            Given::Read(2),
            Given::Read(515),
            Given::Read(516),
            Given::Read(517),
            Given::Read(1029),
            Given::Write(1027),
            Given::Write(1),
            Given::Write(3),
            Given::Sync,
            Given::Write(0),
            Given::Sync,
        ],
    );
}

// The script of so many transactions, one after the other, each of which puts one content, and what it is answered.
fn one_by_one(alloc: Global, count: u64) -> Result<(Bytes, Bytes), OutOfMemory> {
    let mut script = Bytes::new(alloc);
    let mut output = Bytes::new(alloc);
    for number in 0..count {
        script.append(alloc, b"0 begin\n0 put demo/a x:61\n0 commit\nlead\n")?;
        let committed = number.saturating_add(1);
        let answers = format!(in alloc; "0 begun\n0 put\n0 queued\n0 committed {committed}\n")?;
        output.append(alloc, answers.as_bytes())?;
    }
    Ok((script, output))
}

// The six calls of this lead of such a script stand behind those of the leads before. The contents take data pages 0 and 1 in turn.
fn expect_lead<R: Abort>(rt: &R, disk: &Recorder, lead: u32)
    requires { lead < 255 }
{
    let gate = 515 + 2 * lead;
    let given = [
        Given::Write(gate + 1),
        Given::Write(gate + 2),
        Given::Sync,
        Given::Write(1029 + lead % 2),
        Given::Write(gate),
        Given::Sync,
    ];
    disk.expect_at(rt, FRESH + 6 * lead as usize, &given);
}

// A frame takes two pages with the gate behind it, and a log has 512: each of the first 255 leads makes two syncs, and the last,
// which turns to half 0 first, four.
#[test]
fn the_256th_lead_turns_to_the_other_half(rt: HostRuntime) -> Result<(), Fail> {
    let (script, output) = one_by_one(rt.alloc(), 256)?;
    let disk = Recorder::over(rt.alloc(), new_disk(&rt));
    let ended = Trial::of(script.as_slice()).run_on(rt.alloc(), disk)?;
    ended.expect(&rt, output.as_slice(), &Status::Done);
    let recorder = ended.disk;
    for lead in 0..255 {
        expect_lead(&rt, &recorder, lead);
    }
    recorder.expect_rest(
        &rt,
        FRESH + 6 * 255,
        &[
            Given::Write(1027),
            Given::Write(1),
            Given::Write(3),
            Given::Sync,
            Given::Write(0),
            Given::Sync,
            Given::Write(4),
            Given::Write(5),
            Given::Sync,
            Given::Write(1030),
            Given::Write(3),
            Given::Sync,
        ],
    );
    let shown = run_words(&rt, "show s", recorder.disk);
    shown.expect(
        &rt,
        b"demo/a 1 ca978112ca1bbdcafac231b39a23dc4da786eff8147c4e72b9807785afee48bb 256\nlast 256\n",
        &Status::Done,
    );
    Ok(())
}
