// Sessions and their transactions: what a session is answered in each of its states, and what transactions see.

use crate::trial::{expect_calls, talk};

#[test]
fn a_session_without_a_transaction(rt: HostRuntime) {
    let _ = talk(
        &rt,
        &[
            (
                "0 get demo/a;0 stat demo/a;0 put demo/a x:61",
                "0 no-transaction;0 no-transaction;0 no-transaction",
            ),
            (
                "15 del demo/a;15 commit;15 abort",
                "15 no-transaction;15 no-transaction;15 no-transaction",
            ),
            ("lead", "idle"),
        ],
    );
}

// After its request was committed or refused, and after an abort, a session has no transaction.
#[test]
fn a_session_whose_transaction_has_ended(rt: HostRuntime) {
    let _ = talk(
        &rt,
        &[
            (
                "0 begin;0 put demo/a x:61;0 commit;lead",
                "0 begun;0 put;0 queued;0 committed 1",
            ),
            (
                "0 put demo/a x:62;0 abort",
                "0 no-transaction;0 no-transaction",
            ),
            ("0 begin;0 get demo/b", "0 begun;0 absent"),
            (
                "1 begin;1 put demo/b x:62;1 commit;lead",
                "1 begun;1 put;1 queued;1 committed 2",
            ),
            ("0 commit;lead", "0 queued;0 conflict demo/b none 2"),
            ("0 commit;0 abort", "0 no-transaction;0 no-transaction"),
            (
                "0 begin;0 abort;0 get demo/a;0 abort",
                "0 begun;0 aborted;0 no-transaction;0 no-transaction",
            ),
            ("0 begin", "0 begun"),
        ],
    );
}

#[test]
fn a_transaction_is_open_already(rt: HostRuntime) {
    let _ = talk(
        &rt,
        &[
            ("0 begin;0 begin", "0 begun;0 already"),
            ("1 begin;1 begin", "1 begun;1 already"),
            ("0 put demo/a x:61;0 begin", "0 put;0 already"),
            ("0 get demo/a", "0 value 1 61"),
        ],
    );
}

#[test]
fn a_session_that_waits_is_busy(rt: HostRuntime) {
    let _ = talk(
        &rt,
        &[
            (
                "0 begin;0 put demo/a x:61;0 commit",
                "0 begun;0 put;0 queued",
            ),
            ("0 begin;0 abort;0 commit", "0 busy;0 busy;0 busy"),
            (
                "0 get demo/a;0 stat demo/a;0 put demo/a x:62;0 del demo/a",
                "0 busy;0 busy;0 busy;0 busy",
            ),
            ("1 begin;1 get demo/a", "1 begun;1 absent"),
            ("lead", "0 committed 1"),
            ("0 begin;0 get demo/a", "0 begun;0 value 1 61"),
        ],
    );
}

// A session whose request the lead doesn't come to waits for the next.
#[test]
fn a_session_behind_the_group_is_busy(rt: HostRuntime) {
    let _ = talk(
        &rt,
        &[
            (
                "0 begin;0 put demo/a x:61;0 commit",
                "0 begun;0 put;0 queued",
            ),
            (
                "1 begin;1 put demo/a x:62;1 commit",
                "1 begun;1 put;1 queued",
            ),
            ("lead", "0 committed 1"),
            ("0 begin;1 begin;1 abort", "0 begun;1 busy;1 busy"),
            ("lead", "1 committed 2"),
            ("1 begin;1 get demo/a", "1 begun;1 value 1 62"),
        ],
    );
}

// It takes no number either. The two leads that commit write three pages each beside the content.
#[test]
fn an_aborted_transaction_changes_nothing(rt: HostRuntime) {
    let ended = talk(
        &rt,
        &[
            (
                "0 begin;0 put demo/a x:61;0 commit;lead",
                "0 begun;0 put;0 queued;0 committed 1",
            ),
            (
                "0 begin;0 put demo/a x:62;0 put demo/b x:63;0 del demo/a;0 abort;lead",
                "0 begun;0 put;0 put;0 deleted;0 aborted;idle",
            ),
            (
                "0 begin;0 get demo/a;0 get demo/b;0 commit;lead",
                "0 begun;0 value 1 61;0 absent;0 queued;0 committed 2",
            ),
        ],
    );
    expect_calls(&rt, &ended, (1, 7, 4));
}

// What a transaction reads and touches is forgotten with it.
#[test]
fn a_transaction_after_an_abort_has_read_nothing(rt: HostRuntime) {
    let _ = talk(
        &rt,
        &[
            ("0 begin;0 get demo/a", "0 begun;0 absent"),
            (
                "1 begin;1 put demo/a x:61;1 commit;lead",
                "1 begun;1 put;1 queued;1 committed 1",
            ),
            ("0 get demo/a;0 abort", "0 stale 1;0 aborted"),
            (
                "0 begin;0 get demo/a;0 put demo/a x:62;0 commit;lead",
                "0 begun;0 value 1 61;0 put;0 queued;0 committed 2",
            ),
        ],
    );
}

#[test]
fn a_transaction_sees_its_own_changes_and_those_that_are_committed(rt: HostRuntime) {
    let _ = talk(
        &rt,
        &[
            ("0 begin;1 begin;2 begin", "0 begun;1 begun;2 begun"),
            ("0 put demo/a x:61;0 get demo/a", "0 put;0 value 1 61"),
            ("1 get demo/a;0 commit", "1 absent;0 queued"),
            ("lead", "0 committed 1"),
            (
                "2 get demo/a;2 stat demo/a",
                "2 value 1 61;2 stat 1 ca978112ca1bbdcafac231b39a23dc4da786eff8147c4e72b9807785afee48bb",
            ),
        ],
    );
}

#[test]
fn a_put_a_delete_and_a_read_of_one_key(rt: HostRuntime) {
    let ended = talk(
        &rt,
        &[
            (
                "0 begin;0 put demo/a x:61;0 del demo/a;0 get demo/a",
                "0 begun;0 put;0 deleted;0 absent",
            ),
            ("0 stat demo/a;0 del demo/a", "0 absent;0 absent"),
            ("0 commit;lead", "0 queued;0 committed 1"),
            (
                "0 begin;0 get demo/a;0 put demo/a x:62;0 get demo/a",
                "0 begun;0 absent;0 put;0 value 1 62",
            ),
        ],
    );
    expect_calls(&rt, &ended, (0, 3, 2));
}

#[test]
fn a_put_after_a_delete(rt: HostRuntime) {
    let _ = talk(
        &rt,
        &[
            (
                "0 begin;0 put demo/a x:61;0 commit;lead",
                "0 begun;0 put;0 queued;0 committed 1",
            ),
            (
                "0 begin;0 del demo/a;0 get demo/a;0 put demo/a x:62;0 get demo/a",
                "0 begun;0 deleted;0 absent;0 put;0 value 1 62",
            ),
            ("0 commit;lead", "0 queued;0 committed 2"),
            ("1 begin;1 get demo/a", "1 begun;1 value 1 62"),
        ],
    );
}

#[test]
fn a_deleted_key_is_absent(rt: HostRuntime) {
    let _ = talk(
        &rt,
        &[
            (
                "0 begin;0 put demo/a x:61;0 commit;lead",
                "0 begun;0 put;0 queued;0 committed 1",
            ),
            (
                "1 begin;1 del demo/a;1 commit;lead",
                "1 begun;1 deleted;1 queued;1 committed 2",
            ),
            (
                "0 begin;0 get demo/a;0 stat demo/a;0 del demo/a",
                "0 begun;0 absent;0 absent;0 absent",
            ),
        ],
    );
}
