// What a run leaves to the next ones over the same disk. In the smallest store data page 0 is page 1029.

use crate::pages::expect_page;
use crate::reports::{KEPT, OF_ZEROS, SHOWN, formatted, one_set};
use crate::trial::{ONE_PUT, Trial, run_words, talk, talk_on, value_of, write_page};
use blob_base::{Key, StoreRefusal};
use blob_script::Status;
use std::test::Fail;

// Two reads of it.
const TWO_READS: (&str, &str) = (
    "0 begin;0 get demo/a;0 stat demo/a",
    "0 begun;0 value 3 616263;0 stat 3 ba7816bf8f01cfea414140de5dae2223b00361a396177a9cb410ff61f20015ad",
);

#[test]
fn a_second_run_reads_what_the_first_wrote(rt: HostRuntime) {
    let first = talk(&rt, &[ONE_PUT]);
    let second = talk_on(&rt, "steps s", first.disk, &[TWO_READS]);
    let third = talk_on(&rt, "steps s", second.disk, &[TWO_READS]);
    let shown = run_words(&rt, "show s", third.disk);
    shown.expect(&rt, SHOWN, &Status::Done);
}

#[test]
fn numbers_go_on_in_the_next_run(rt: HostRuntime) {
    let first = talk(&rt, &[ONE_PUT]);
    let second = talk_on(
        &rt,
        "steps s",
        first.disk,
        &[(
            "0 begin;0 put demo/b x:62;0 commit;lead",
            "0 begun;0 put;0 queued;0 committed 2",
        )],
    );
    let third = talk_on(
        &rt,
        "steps s",
        second.disk,
        &[
            (
                "0 begin;0 get demo/a;0 get demo/b",
                "0 begun;0 value 3 616263;0 value 1 62",
            ),
            (
                "0 put demo/a x:64;0 commit;lead",
                "0 put;0 queued;0 committed 3",
            ),
        ],
    );
    let shown = run_words(&rt, "show s", third.disk);
    shown.expect(
        &rt,
        b"demo/a 1 18ac3e7343f016890c510e93f935261169d9e3f565436429830faf0934f4f8e4 3\ndemo/b 1 3e23e8160039594a33894f6564e1b1348bbd7a0088d42c4acb73eeaed59c009d 2\nlast 3\n",
        &Status::Done,
    );
}

// The frame, closed by the next gate, and the gate before it, open; the header of the half that the opening turned to tells no
// states.
#[test]
fn the_pages_that_a_lead_leaves(rt: HostRuntime) {
    let mut ended = talk(&rt, &[ONE_PUT]);
    expect_page(&rt, &mut ended, 0, b"HALFONE1");
    expect_page(
        &rt,
        &mut ended,
        2,
        b"BLOBHALF\x00\x00\x00\x01\x00\x00\x00\x01\x00\x00\x00\x01",
    );
    expect_page(&rt, &mut ended, 515, b"GATEOPEN");
    expect_page(&rt, &mut ended, 516, &one_set(&rt));
    expect_page(&rt, &mut ended, 517, b"");
    expect_page(&rt, &mut ended, 1029, b"abc");
}

#[test]
fn a_script_over_a_store_that_was_formatted(rt: HostRuntime) {
    let ended = talk_on(&rt, "steps s", formatted(&rt), &[ONE_PUT, TWO_READS]);
    let shown = run_words(&rt, "show s", ended.disk);
    shown.expect(&rt, SHOWN, &Status::Done);
}

#[test]
fn a_fresh_store_has_nothing_of_the_one_before(rt: HostRuntime) {
    let first = talk(&rt, &[ONE_PUT]);
    let second = talk_on(
        &rt,
        "fresh s 1 1",
        first.disk,
        &[("0 begin;0 get demo/a", "0 begun;0 absent")],
    );
    let shown = run_words(&rt, "show s", second.disk);
    shown.expect(&rt, b"last 0\n", &Status::Done);
}

#[test]
fn an_open_transaction_is_gone_in_the_next_run(rt: HostRuntime) {
    let first = talk(&rt, &[("0 begin;0 put demo/a x:61", "0 begun;0 put")]);
    let _ = talk_on(
        &rt,
        "steps s",
        first.disk,
        &[
            ("0 get demo/a;0 commit", "0 no-transaction;0 no-transaction"),
            ("0 begin;0 get demo/a", "0 begun;0 absent"),
        ],
    );
}

#[test]
fn a_script_that_ends_without_its_lead_commits_nothing(rt: HostRuntime) {
    let first = talk(
        &rt,
        &[(
            "0 begin;0 put demo/a x:61;0 commit",
            "0 begun;0 put;0 queued",
        )],
    );
    let second = talk_on(
        &rt,
        "steps s",
        first.disk,
        &[("lead;0 begin", "idle;0 begun")],
    );
    let shown = run_words(&rt, "show s", second.disk);
    shown.expect(&rt, b"last 0\n", &Status::Done);
}

#[test]
fn the_place_of_a_deleted_object_is_taken_by_the_next(rt: HostRuntime) {
    let first = talk(&rt, &[ONE_PUT]);
    let second = talk_on(
        &rt,
        "steps s",
        first.disk,
        &[(
            "0 begin;0 del demo/a;0 commit;lead",
            "0 begun;0 deleted;0 queued;0 committed 2",
        )],
    );
    let mut third = talk_on(
        &rt,
        "steps s",
        second.disk,
        &[(
            "0 begin;0 put demo/b x:62;0 commit;lead",
            "0 begun;0 put;0 queued;0 committed 3",
        )],
    );
    expect_page(&rt, &mut third, 1029, b"b");
    expect_page(&rt, &mut third, 1030, b"");
}

// A place that an object of an earlier run has isn't taken.
#[test]
fn the_place_of_an_object_is_kept_in_the_next_run(rt: HostRuntime) {
    let first = talk(&rt, &[ONE_PUT]);
    let mut second = talk_on(
        &rt,
        "steps s",
        first.disk,
        &[(
            "0 begin;0 put demo/b x:62;0 commit;lead",
            "0 begun;0 put;0 queued;0 committed 2",
        )],
    );
    expect_page(&rt, &mut second, 1029, b"abc");
    expect_page(&rt, &mut second, 1030, b"b");
}

#[test]
fn a_checkpoint_changes_no_answer(rt: HostRuntime) {
    let ended = talk(
        &rt,
        &[
            ONE_PUT,
            (
                "0 begin;0 get demo/a;0 put demo/b x:62",
                "0 begun;0 value 3 616263;0 put",
            ),
            ("checkpoint", "checkpointed"),
            ("0 get demo/a;0 get demo/b", "0 value 3 616263;0 value 1 62"),
            (
                "0 commit;checkpoint;0 begin",
                "0 queued;checkpointed;0 busy",
            ),
            ("lead;checkpoint", "0 committed 2;checkpointed"),
        ],
    );
    let shown = run_words(&rt, "show s", ended.disk);
    shown.expect(
        &rt,
        b"demo/a 3 ba7816bf8f01cfea414140de5dae2223b00361a396177a9cb410ff61f20015ad 1\ndemo/b 1 3e23e8160039594a33894f6564e1b1348bbd7a0088d42c4acb73eeaed59c009d 2\nlast 2\n",
        &Status::Done,
    );
}

// The opening of a show makes the entry part of a half, and then its content is lost.
#[test]
fn a_content_that_is_lost_is_named(rt: HostRuntime) {
    let first = talk(&rt, &[ONE_PUT]);
    let mut disk = run_words(&rt, "show s", first.disk).disk;
    write_page(&rt, &mut disk, 1029, b"");
    let checked = run_words(&rt, "check s", disk);
    let status = Status::Damaged {
        key: Key::read(b"demo/a").expect(&rt, "a key"),
        link: 0,
        want: value_of(&rt, KEPT),
        got: value_of(&rt, OF_ZEROS),
    };
    checked.expect(
        &rt,
        b"damaged demo/a 0 ba7816bf8f01cfea414140de5dae2223b00361a396177a9cb410ff61f20015ad 709e80c88487a2411e1ee4dfb9f22a861492d20c4765150c0c794abd70f8147c\nchecked 1 damaged 1\n",
        &status,
    );
    let trial = Trial {
        words: "steps s",
        ..Trial::of(b"0 begin\n0 stat demo/a\n0 get demo/a\nlead\n")
    };
    let ended = trial.run_on(rt.alloc(), checked.disk).expect(&rt, "memory");
    ended.expect(
        &rt,
        b"0 begun\n0 stat 3 ba7816bf8f01cfea414140de5dae2223b00361a396177a9cb410ff61f20015ad\ndamaged demo/a 0 ba7816bf8f01cfea414140de5dae2223b00361a396177a9cb410ff61f20015ad 709e80c88487a2411e1ee4dfb9f22a861492d20c4765150c0c794abd70f8147c\n",
        &status,
    );
    assert_eq!(rt; ended.status.code(), 9);
}

#[test]
fn a_script_over_a_disk_of_zeros(rt: HostRuntime) -> Result<(), Fail> {
    let trial = Trial {
        words: "steps s",
        ..Trial::of(b"lead\n")
    };
    let ended = trial.run(rt.alloc())?;
    let why = StoreRefusal::BadHalf { half: 0, at: 0 };
    ended.expect(
        &rt,
        b"store refused: bad-half 0 0\n",
        &Status::Refused { why },
    );
    assert_eq!(rt; ended.status.code(), 6);
    Ok(())
}

#[test]
fn a_script_over_a_disk_that_is_too_small(rt: HostRuntime) -> Result<(), Fail> {
    let trial = Trial {
        words: "steps s",
        pages: 2052,
        ..Trial::of(b"lead\n")
    };
    let ended = trial.run(rt.alloc())?;
    let why = StoreRefusal::TooSmall {
        need: 2053,
        have: 2052,
    };
    ended.expect(
        &rt,
        b"store refused: too-small 2053 2052\n",
        &Status::Refused { why },
    );
    assert_eq!(rt; ended.status.code(), 6);
    Ok(())
}
