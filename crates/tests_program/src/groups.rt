// Groups: which requests a lead takes, in which order, and what it writes. Data page 0 is page 1029.

use crate::pages::expect_page;
use crate::trial::{FRESH_CALLS, Trial, expect_calls, talk};
use blob_script::Status;
use std::test::Fail;

// A session that puts a content of one byte, which is number 1 and stands on data page 0.
const FIRST_PUT: (&str, &str) = (
    "15 begin;15 put demo/a x:61;15 commit;lead",
    "15 begun;15 put;15 queued;15 committed 1",
);

#[test]
fn three_requests_in_one_group(rt: HostRuntime) {
    let mut ended = talk(
        &rt,
        &[
            ("0 begin;1 begin;2 begin", "0 begun;1 begun;2 begun"),
            (
                "0 put demo/a x:61;1 put demo/b x:62;2 put demo/c x:63",
                "0 put;1 put;2 put",
            ),
            ("0 commit;1 commit;2 commit", "0 queued;1 queued;2 queued"),
            ("lead", "0 committed 1;1 committed 2;2 committed 3"),
            ("lead", "idle"),
        ],
    );
    expect_calls(&rt, &ended, (0, 6, 2));
    expect_page(&rt, &mut ended, 1029, b"a");
    expect_page(&rt, &mut ended, 1030, b"b");
    expect_page(&rt, &mut ended, 1031, b"c");
}

// That is the order of the commits, whichever session began or put first.
#[test]
fn members_stand_in_the_order_of_the_queue(rt: HostRuntime) {
    let mut ended = talk(
        &rt,
        &[
            ("0 begin;3 begin;15 begin", "0 begun;3 begun;15 begun"),
            (
                "0 put demo/a x:61;3 put demo/b x:62;15 put demo/c x:63",
                "0 put;3 put;15 put",
            ),
            ("15 commit;3 commit;0 commit", "15 queued;3 queued;0 queued"),
            ("lead", "15 committed 1;3 committed 2;0 committed 3"),
        ],
    );
    expect_page(&rt, &mut ended, 1029, b"c");
    expect_page(&rt, &mut ended, 1030, b"b");
    expect_page(&rt, &mut ended, 1031, b"a");
}

#[test]
fn sixteen_sessions_in_one_group(rt: HostRuntime) {
    let mut ended = talk(
        &rt,
        &[
            (
                "0 begin;0 put demo/a x:61;0 commit",
                "0 begun;0 put;0 queued",
            ),
            (
                "1 begin;1 put demo/b x:62;1 commit",
                "1 begun;1 put;1 queued",
            ),
            (
                "2 begin;2 put demo/c x:63;2 commit",
                "2 begun;2 put;2 queued",
            ),
            (
                "3 begin;3 put demo/d x:64;3 commit",
                "3 begun;3 put;3 queued",
            ),
            (
                "4 begin;4 put demo/e x:65;4 commit",
                "4 begun;4 put;4 queued",
            ),
            (
                "5 begin;5 put demo/f x:66;5 commit",
                "5 begun;5 put;5 queued",
            ),
            (
                "6 begin;6 put demo/g x:67;6 commit",
                "6 begun;6 put;6 queued",
            ),
            (
                "7 begin;7 put demo/h x:68;7 commit",
                "7 begun;7 put;7 queued",
            ),
            (
                "8 begin;8 put demo/i x:69;8 commit",
                "8 begun;8 put;8 queued",
            ),
            (
                "9 begin;9 put demo/j x:6a;9 commit",
                "9 begun;9 put;9 queued",
            ),
            (
                "10 begin;10 put demo/k x:6b;10 commit",
                "10 begun;10 put;10 queued",
            ),
            (
                "11 begin;11 put demo/l x:6c;11 commit",
                "11 begun;11 put;11 queued",
            ),
            (
                "12 begin;12 put demo/m x:6d;12 commit",
                "12 begun;12 put;12 queued",
            ),
            (
                "13 begin;13 put demo/n x:6e;13 commit",
                "13 begun;13 put;13 queued",
            ),
            (
                "14 begin;14 put demo/o x:6f;14 commit",
                "14 begun;14 put;14 queued",
            ),
            (
                "15 begin;15 put demo/p x:70;15 commit",
                "15 begun;15 put;15 queued",
            ),
            (
                "lead",
                "0 committed 1;1 committed 2;2 committed 3;3 committed 4;4 committed 5;5 committed 6;6 committed 7;7 committed 8;8 committed 9;9 committed 10;10 committed 11;11 committed 12;12 committed 13;13 committed 14;14 committed 15;15 committed 16",
            ),
            ("lead", "idle"),
        ],
    );
    expect_calls(&rt, &ended, (0, 19, 2));
    expect_page(&rt, &mut ended, 1029, b"a");
    expect_page(&rt, &mut ended, 1044, b"p");
}

// The next lead takes the request that would change the key again, and the one behind it.
#[test]
fn a_group_ends_before_a_put_of_a_changed_key(rt: HostRuntime) {
    let mut ended = talk(
        &rt,
        &[
            ("0 begin;1 begin;2 begin", "0 begun;1 begun;2 begun"),
            (
                "0 put demo/a x:61;1 put demo/a x:62;2 put demo/b x:63",
                "0 put;1 put;2 put",
            ),
            ("0 commit;1 commit;2 commit", "0 queued;1 queued;2 queued"),
            ("lead", "0 committed 1"),
            ("lead", "1 committed 2;2 committed 3"),
            ("lead", "idle"),
        ],
    );
    expect_calls(&rt, &ended, (0, 9, 4));
    expect_page(&rt, &mut ended, 1029, b"a");
    expect_page(&rt, &mut ended, 1030, b"b");
    expect_page(&rt, &mut ended, 1031, b"c");
}

// Members that are refused change no key, so that one group takes all three, and nothing is written for it.
#[test]
fn a_group_ends_before_a_read_of_a_changed_key(rt: HostRuntime) {
    let ended = talk(
        &rt,
        &[
            FIRST_PUT,
            (
                "0 begin;0 put demo/a x:62;0 commit",
                "0 begun;0 put;0 queued",
            ),
            (
                "1 begin;1 get demo/a;1 commit",
                "1 begun;1 value 1 61;1 queued",
            ),
            (
                "2 begin;2 stat demo/a;2 put demo/b x:63;2 commit",
                "2 begun;2 stat 1 ca978112ca1bbdcafac231b39a23dc4da786eff8147c4e72b9807785afee48bb;2 put;2 queued",
            ),
            (
                "3 begin;3 del demo/a;3 commit",
                "3 begun;3 deleted;3 queued",
            ),
            ("lead", "0 committed 2"),
            (
                "lead",
                "1 conflict demo/a 1 2;2 conflict demo/a 1 2;3 conflict demo/a 1 2",
            ),
            ("lead;0 begin;0 get demo/b", "idle;0 begun;0 absent"),
        ],
    );
    expect_calls(&rt, &ended, (1, 8, 4));
}

#[test]
fn a_group_ends_before_a_change_of_a_deleted_key(rt: HostRuntime) {
    let ended = talk(
        &rt,
        &[
            FIRST_PUT,
            (
                "0 begin;0 del demo/a;0 commit",
                "0 begun;0 deleted;0 queued",
            ),
            (
                "1 begin;1 put demo/a x:62;1 commit",
                "1 begun;1 put;1 queued",
            ),
            ("lead", "0 committed 2"),
            ("lead", "1 committed 3"),
        ],
    );
    expect_calls(&rt, &ended, (0, 11, 6));
}

// To delete what the transaction itself had put is a change, also where the store has no such key.
#[test]
fn a_group_ends_before_a_read_of_a_key_that_was_put_and_deleted(rt: HostRuntime) {
    let _ = talk(
        &rt,
        &[
            (
                "0 begin;0 put demo/a x:61;0 del demo/a;0 commit",
                "0 begun;0 put;0 deleted;0 queued",
            ),
            ("1 begin;1 get demo/a;1 commit", "1 begun;1 absent;1 queued"),
            ("lead", "0 committed 1"),
            ("lead", "1 committed 2"),
        ],
    );
}

#[test]
fn members_may_read_one_key(rt: HostRuntime) {
    let _ = talk(
        &rt,
        &[
            FIRST_PUT,
            (
                "0 begin;0 get demo/a;0 put demo/b x:62;0 commit",
                "0 begun;0 value 1 61;0 put;0 queued",
            ),
            (
                "1 begin;1 get demo/a;1 put demo/c x:63;1 commit",
                "1 begun;1 value 1 61;1 put;1 queued",
            ),
            // Only an earlier member's change ends the group.
            (
                "2 begin;2 put demo/a x:64;2 commit",
                "2 begun;2 put;2 queued",
            ),
            ("lead", "0 committed 2;1 committed 3;2 committed 4"),
        ],
    );
}

// The second member may change demo/b, since the first, which would change it, isn't committed.
#[test]
fn a_group_goes_on_behind_a_refused_member(rt: HostRuntime) {
    let mut ended = talk(
        &rt,
        &[
            FIRST_PUT,
            (
                "0 begin;0 get demo/a;0 put demo/b x:62",
                "0 begun;0 value 1 61;0 put",
            ),
            (
                "1 begin;1 put demo/a x:63;1 commit;lead",
                "1 begun;1 put;1 queued;1 committed 2",
            ),
            ("0 commit", "0 queued"),
            (
                "1 begin;1 put demo/b x:64;1 commit",
                "1 begun;1 put;1 queued",
            ),
            ("lead", "0 conflict demo/a 1 2;1 committed 3"),
        ],
    );
    expect_calls(&rt, &ended, (1, 12, 6));
    expect_page(&rt, &mut ended, 1029, b"d");
    expect_page(&rt, &mut ended, 1030, b"c");
    expect_page(&rt, &mut ended, 1031, b"");
}

// demo/a finds a place and demo/b none, and demo/c of the next member takes that place and that number.
#[test]
fn a_refused_member_takes_no_place_and_no_number(rt: HostRuntime) {
    let mut ended = talk(
        &rt,
        &[
            (
                "0 begin;0 put demo/a x:61;0 put demo/b g:4194304:0;0 commit",
                "0 begun;0 put;0 put;0 queued",
            ),
            (
                "1 begin;1 put demo/c x:63;1 commit",
                "1 begun;1 put;1 queued",
            ),
            ("lead", "0 no-space demo/b 8;1 committed 1"),
            (
                "0 begin;0 get demo/a;0 get demo/c",
                "0 begun;0 absent;0 value 1 63",
            ),
        ],
    );
    expect_calls(&rt, &ended, (1, 4, 2));
    expect_page(&rt, &mut ended, 1029, b"c");
    expect_page(&rt, &mut ended, 1030, b"");
}

// Data page 0 is free behind the group.
#[test]
fn a_place_that_is_replaced_isnt_taken_in_the_same_group(rt: HostRuntime) {
    let mut ended = talk(
        &rt,
        &[
            FIRST_PUT,
            (
                "0 begin;0 put demo/a x:62;0 commit",
                "0 begun;0 put;0 queued",
            ),
            (
                "1 begin;1 put demo/b x:63;1 commit",
                "1 begun;1 put;1 queued",
            ),
            ("lead", "0 committed 2;1 committed 3"),
            (
                "2 begin;2 put demo/c x:64;2 commit;lead",
                "2 begun;2 put;2 queued;2 committed 4",
            ),
        ],
    );
    expect_calls(&rt, &ended, (0, 13, 6));
    expect_page(&rt, &mut ended, 1029, b"d");
    expect_page(&rt, &mut ended, 1030, b"b");
    expect_page(&rt, &mut ended, 1031, b"c");
    expect_page(&rt, &mut ended, 1032, b"");
}

#[test]
fn a_place_that_is_deleted_isnt_taken_in_the_same_group(rt: HostRuntime) {
    let mut ended = talk(
        &rt,
        &[
            FIRST_PUT,
            (
                "0 begin;0 del demo/a;0 commit",
                "0 begun;0 deleted;0 queued",
            ),
            (
                "1 begin;1 put demo/b x:62;1 commit",
                "1 begun;1 put;1 queued",
            ),
            ("lead", "0 committed 2;1 committed 3"),
            (
                "2 begin;2 put demo/c x:63;2 commit;lead",
                "2 begun;2 put;2 queued;2 committed 4",
            ),
        ],
    );
    expect_page(&rt, &mut ended, 1029, b"c");
    expect_page(&rt, &mut ended, 1030, b"b");
    expect_page(&rt, &mut ended, 1031, b"");
}

// A delete writes no page of the data area.
#[test]
fn a_place_that_is_deleted_is_free_for_others(rt: HostRuntime) {
    let mut ended = talk(
        &rt,
        &[
            FIRST_PUT,
            (
                "0 begin;0 del demo/a;0 commit;lead",
                "0 begun;0 deleted;0 queued;0 committed 2",
            ),
            (
                "1 begin;1 put demo/b x:62;1 commit;lead",
                "1 begun;1 put;1 queued;1 committed 3",
            ),
            (
                "0 begin;0 get demo/a;0 get demo/b",
                "0 begun;0 absent;0 value 1 62",
            ),
        ],
    );
    expect_calls(&rt, &ended, (1, 11, 6));
    expect_page(&rt, &mut ended, 1029, b"b");
    expect_page(&rt, &mut ended, 1030, b"");
}

// Where no member is committed nothing is written, and no sync is made.
#[test]
fn a_group_without_a_committed_member_makes_no_sync(rt: HostRuntime) {
    let ended = talk(
        &rt,
        &[
            (
                "0 begin;0 get demo/a;0 put demo/b x:62",
                "0 begun;0 absent;0 put",
            ),
            (
                "1 begin;1 del demo/a;1 put demo/c x:63",
                "1 begun;1 absent;1 put",
            ),
            FIRST_PUT,
            ("0 commit;1 commit", "0 queued;1 queued"),
            ("lead", "0 conflict demo/a none 1;1 conflict demo/a none 1"),
            ("lead", "idle"),
        ],
    );
    expect_calls(&rt, &ended, (0, 4, 2));
}

// A group of two writes its frame, the next gate, two contents and its gate, with a sync before the contents and one behind the
// gate. Whichever of these calls fails, neither member is answered.
#[test]
fn a_disk_that_fails_under_a_group(rt: HostRuntime) -> Result<(), Fail> {
    let script =
        b"0 begin\n0 put demo/a x:61\n0 commit\n1 begin\n1 put demo/b x:62\n1 commit\nlead\n";
    let front = b"0 begun\n0 put\n0 queued\n1 begun\n1 put\n1 queued\ndisk fault\n".as_slice();
    for call in 1..8 {
        let trial = Trial {
            failing_disk_calls: &[FRESH_CALLS + call],
            ..Trial::of(script)
        };
        trial.expect(&rt, front, &Status::DiskFault);
    }
    let trial = Trial {
        failing_disk_calls: &[FRESH_CALLS + 8],
        ..Trial::of(script)
    };
    let output =
        b"0 begun\n0 put\n0 queued\n1 begun\n1 put\n1 queued\n0 committed 1\n1 committed 2\n".as_slice();
    trial.expect(&rt, output, &Status::Done);
    Ok(())
}
