// Refusals, of calls and of requests, and which comes first where several apply.

use crate::trial::{expect_calls, talk};

const SIXTEEN_PUTS: &str =
    "0 put demo/k00 x:;0 put demo/k01 x:;0 put demo/k02 x:;0 put demo/k03 x:;0 put demo/k04 x:;0 put demo/k05 x:;0 put demo/k06 x:;0 put demo/k07 x:;0 put demo/k08 x:;0 put demo/k09 x:;0 put demo/k10 x:;0 put demo/k11 x:;0 put demo/k12 x:;0 put demo/k13 x:;0 put demo/k14 x:;0 put demo/k15 x:";

const SIXTEEN_PUT: &str =
    "0 put;0 put;0 put;0 put;0 put;0 put;0 put;0 put;0 put;0 put;0 put;0 put;0 put;0 put;0 put;0 put";

// A session that puts a content of one byte, which is number 1.
const FIRST_PUT: (&str, &str) = (
    "15 begin;15 put demo/a x:61;15 commit;lead",
    "15 begun;15 put;15 queued;15 committed 1",
);

#[test]
fn a_seventeenth_key(rt: HostRuntime) {
    let _ = talk(
        &rt,
        &[
            ("0 begin", "0 begun"),
            (SIXTEEN_PUTS, SIXTEEN_PUT),
            (
                "0 put demo/k16 x:;0 get demo/k16;0 stat demo/k16;0 del demo/k16",
                "0 too-many 17;0 too-many 17;0 too-many 17;0 too-many 17",
            ),
            (
                "0 put demo/k15 x:61;0 get demo/k15;0 del demo/k00",
                "0 put;0 value 1 61;0 deleted",
            ),
            ("0 get demo/k16;0 commit", "0 too-many 17;0 queued"),
            ("lead", "0 committed 1"),
        ],
    );
}

// Reads and deletes that found nothing touch their keys.
#[test]
fn a_seventeenth_key_after_reads_of_nothing(rt: HostRuntime) {
    let _ = talk(
        &rt,
        &[
            (
                "0 begin;0 get demo/k00;0 stat demo/k01;0 del demo/k02",
                "0 begun;0 absent;0 absent;0 absent",
            ),
            (
                "0 put demo/k03 x:;0 put demo/k04 x:;0 put demo/k05 x:;0 put demo/k06 x:;0 put demo/k07 x:;0 put demo/k08 x:;0 put demo/k09 x:;0 put demo/k10 x:;0 put demo/k11 x:;0 put demo/k12 x:;0 put demo/k13 x:;0 put demo/k14 x:;0 put demo/k15 x:",
                "0 put;0 put;0 put;0 put;0 put;0 put;0 put;0 put;0 put;0 put;0 put;0 put;0 put",
            ),
            ("0 put demo/k16 x:;0 put demo/k02 x:", "0 too-many 17;0 put"),
        ],
    );
}

#[test]
fn a_seventeenth_key_comes_before_the_length_and_the_absence(rt: HostRuntime) {
    let _ = talk(
        &rt,
        &[
            ("0 begin", "0 begun"),
            (SIXTEEN_PUTS, SIXTEEN_PUT),
            (
                "0 put demo/k16 g:381669376:0;0 put demo/k15 g:381669376:0;0 del demo/k16",
                "0 too-many 17;0 too-long 381669376;0 too-many 17",
            ),
        ],
    );
}

// A put that is too long touches no key, and what was put before stands.
#[test]
fn a_content_too_long_touches_no_key(rt: HostRuntime) {
    let _ = talk(
        &rt,
        &[
            (
                "0 begin;0 put demo/z g:381669376:0;0 put demo/y g:4294967295:255",
                "0 begun;0 too-long 381669376;0 too-long 4294967295",
            ),
            (SIXTEEN_PUTS, SIXTEEN_PUT),
            (
                "0 put demo/k00 g:381669376:0;0 get demo/k00",
                "0 too-long 381669376;0 value 0 -",
            ),
        ],
    );
}

#[test]
fn a_delete_of_nothing(rt: HostRuntime) {
    let _ = talk(
        &rt,
        &[
            ("0 begin;0 del demo/z;0 commit", "0 begun;0 absent;0 queued"),
            ("lead", "0 committed 1"),
        ],
    );
}

// It was read as absent, as by a get.
#[test]
fn a_delete_of_nothing_is_a_read(rt: HostRuntime) {
    let _ = talk(
        &rt,
        &[
            ("0 begin;0 del demo/a", "0 begun;0 absent"),
            FIRST_PUT,
            ("0 del demo/a;0 commit", "0 stale 1;0 queued"),
            ("lead", "0 conflict demo/a none 1"),
        ],
    );
}

#[test]
fn a_stale_read(rt: HostRuntime) {
    let _ = talk(
        &rt,
        &[
            FIRST_PUT,
            ("0 begin;0 get demo/a", "0 begun;0 value 1 61"),
            (
                "1 begin;1 put demo/a x:62;1 commit;lead",
                "1 begun;1 put;1 queued;1 committed 2",
            ),
            (
                "0 get demo/a;0 stat demo/a;0 del demo/a",
                "0 stale 2;0 stale 2;0 stale 2",
            ),
            ("0 commit;lead", "0 queued;0 conflict demo/a 1 2"),
        ],
    );
}

// Absent when it was read, or now.
#[test]
fn a_stale_read_of_an_absent_key(rt: HostRuntime) {
    let _ = talk(
        &rt,
        &[
            ("3 begin;3 get demo/a", "3 begun;3 absent"),
            FIRST_PUT,
            (
                "3 stat demo/a;4 begin;4 stat demo/a",
                "3 stale 1;4 begun;4 stat 1 ca978112ca1bbdcafac231b39a23dc4da786eff8147c4e72b9807785afee48bb",
            ),
            (
                "15 begin;15 del demo/a;15 commit;lead",
                "15 begun;15 deleted;15 queued;15 committed 2",
            ),
            (
                "4 get demo/a;4 stat demo/a;4 del demo/a",
                "4 stale none;4 stale none;4 stale none",
            ),
            // The key is as absent as when it was read.
            ("3 get demo/a;3 commit", "3 absent;3 queued"),
            (
                "4 commit;lead",
                "4 queued;3 committed 3;4 conflict demo/a 1 none",
            ),
        ],
    );
}

// Of a key that the transaction itself has put or deleted its own value is shown. What it read stays recorded.
#[test]
fn no_read_is_stale_of_a_key_that_the_transaction_changes(rt: HostRuntime) {
    let _ = talk(
        &rt,
        &[
            FIRST_PUT,
            ("0 begin;0 get demo/a", "0 begun;0 value 1 61"),
            ("1 begin;1 del demo/a", "1 begun;1 deleted"),
            (
                "2 begin;2 put demo/a x:62;2 commit;lead",
                "2 begun;2 put;2 queued;2 committed 2",
            ),
            ("0 get demo/a;0 put demo/a x:63", "0 stale 2;0 put"),
            ("0 get demo/a;0 del demo/a", "0 value 1 63;0 deleted"),
            ("0 stat demo/a;0 del demo/a", "0 absent;0 absent"),
            (
                "1 get demo/a;1 put demo/a x:64;1 get demo/a",
                "1 absent;1 put;1 value 1 64",
            ),
            ("0 commit;1 commit", "0 queued;1 queued"),
            ("lead", "0 conflict demo/a 1 2;1 conflict demo/a 1 2"),
        ],
    );
}

// A put alone reads nothing.
#[test]
fn a_put_doesnt_conflict(rt: HostRuntime) {
    let _ = talk(
        &rt,
        &[
            (
                "0 begin;0 put demo/a x:62;0 get demo/a",
                "0 begun;0 put;0 value 1 62",
            ),
            FIRST_PUT,
            (
                "0 get demo/a;0 del demo/a;0 put demo/a x:63",
                "0 value 1 62;0 deleted;0 put",
            ),
            ("0 commit;lead", "0 queued;0 committed 2"),
            ("0 begin;0 get demo/a", "0 begun;0 value 1 63"),
        ],
    );
}

#[test]
fn a_conflict_of_two_that_read_and_change_one_key(rt: HostRuntime) {
    let ended = talk(
        &rt,
        &[
            FIRST_PUT,
            (
                "0 begin;1 begin;0 get demo/a;1 get demo/a",
                "0 begun;1 begun;0 value 1 61;1 value 1 61",
            ),
            ("0 put demo/a x:62;1 put demo/a x:63", "0 put;1 put"),
            ("0 commit;1 commit", "0 queued;1 queued"),
            ("lead", "0 committed 2"),
            ("lead", "1 conflict demo/a 1 2"),
            ("lead", "idle"),
        ],
    );
    expect_calls(&rt, &ended, (2, 8, 4));
}

// Of the keys that were read and changed since it is the least, whichever was read first.
#[test]
fn a_conflict_names_the_least_key(rt: HostRuntime) {
    let _ = talk(
        &rt,
        &[
            FIRST_PUT,
            (
                "0 begin;0 get demo/c;0 get demo/b;0 get demo/a",
                "0 begun;0 absent;0 absent;0 value 1 61",
            ),
            (
                "1 begin;1 put demo/c x:63;1 commit;lead",
                "1 begun;1 put;1 queued;1 committed 2",
            ),
            (
                "1 begin;1 put demo/b x:62;1 commit;lead",
                "1 begun;1 put;1 queued;1 committed 3",
            ),
            ("0 commit;lead", "0 queued;0 conflict demo/b none 3"),
        ],
    );
}

// Put anew after a delete, the key has another number.
#[test]
fn a_conflict_with_a_key_that_was_put_anew(rt: HostRuntime) {
    let _ = talk(
        &rt,
        &[
            FIRST_PUT,
            ("0 begin;0 get demo/a", "0 begun;0 value 1 61"),
            (
                "1 begin;1 del demo/a;1 commit;lead",
                "1 begun;1 deleted;1 queued;1 committed 2",
            ),
            (
                "1 begin;1 put demo/a x:61;1 commit;lead",
                "1 begun;1 put;1 queued;1 committed 3",
            ),
            (
                "0 get demo/a;0 commit;lead",
                "0 stale 3;0 queued;0 conflict demo/a 1 3",
            ),
        ],
    );
}

// demo/a takes every data page but 28 to 31, and demo/b these four.
const FULL_STORE: (&str, &str) = (
    "14 begin;14 put demo/a g:4177920:0;14 put demo/b g:12289:0;14 commit;lead",
    "14 begun;14 put;14 put;14 queued;14 committed 1",
);

#[test]
fn no_space_for_one_of_two_members(rt: HostRuntime) {
    let ended = talk(
        &rt,
        &[
            FULL_STORE,
            (
                "0 begin;0 put demo/c x:61;0 commit",
                "0 begun;0 put;0 queued",
            ),
            ("1 begin;1 put demo/d x:;1 commit", "1 begun;1 put;1 queued"),
            ("lead", "0 no-space demo/c 0;1 committed 2"),
            (
                "0 begin;0 get demo/c;0 get demo/d",
                "0 begun;0 absent;0 value 0 -",
            ),
        ],
    );
    expect_calls(&rt, &ended, (0, 1030, 4));
}

// The first key in order, though demo/d was put first, and the first block of it: an extent of one page before that of
// two.
#[test]
fn no_space_names_the_first_key(rt: HostRuntime) {
    let _ = talk(
        &rt,
        &[
            FULL_STORE,
            (
                "0 begin;0 put demo/d x:64;0 put demo/c g:20480:0;0 put demo/b x:;0 commit;lead",
                "0 begun;0 put;0 put;0 put;0 queued;0 no-space demo/c 0",
            ),
            // The pages 28 to 31 are free, and a fifth is wanted for the extent of two.
            (
                "0 begin;0 put demo/b x:;0 commit;lead",
                "0 begun;0 put;0 queued;0 committed 2",
            ),
            (
                "0 begin;0 put demo/c g:20480:0;0 put demo/d x:;0 commit;lead",
                "0 begun;0 put;0 put;0 queued;0 no-space demo/c 1",
            ),
        ],
    );
}

// A state of 12 extents and a key of 6 characters takes 77 + 6 + 36 * 12 = 515 bytes. Seven of them take 3605.
const SEVEN_STATES: (&str, &str) = (
    "14 begin;14 put demo/a g:114688:0;14 put demo/b g:114688:0;14 put demo/c g:114688:0;14 put demo/d g:114688:0;14 put demo/e g:114688:0;14 put demo/f g:114688:0;14 put demo/g g:114688:0;14 commit",
    "14 begun;14 put;14 put;14 put;14 put;14 put;14 put;14 put;14 queued",
);

// What committed members grow by is counted, and what refused ones would grow by isn't.
#[test]
fn no_room_for_one_of_three_members(rt: HostRuntime) {
    let ended = talk(
        &rt,
        &[
            SEVEN_STATES,
            (
                "0 begin;0 put demo/h g:114688:0;0 commit",
                "0 begun;0 put;0 queued",
            ),
            (
                "1 begin;1 put demo/i x:69;1 commit",
                "1 begun;1 put;1 queued",
            ),
            ("lead", "14 committed 1;0 no-room 4120 4096;1 committed 2"),
            (
                "0 begin;0 get demo/h;0 get demo/i",
                "0 begun;0 absent;0 value 1 69",
            ),
        ],
    );
    expect_calls(&rt, &ended, (1, 200, 2));
}

// A member that makes the states shrink leaves the others of its group no room, and the next group has it.
#[test]
fn a_member_that_shrinks_the_states_counts_nothing(rt: HostRuntime) {
    let _ = talk(
        &rt,
        &[
            SEVEN_STATES,
            ("lead", "14 committed 1"),
            (
                "0 begin;0 del demo/a;0 put demo/b x:;0 commit",
                "0 begun;0 deleted;0 put;0 queued",
            ),
            (
                "1 begin;1 put demo/h g:114688:0;1 commit",
                "1 begun;1 put;1 queued",
            ),
            ("lead", "0 committed 2;1 no-room 4120 4096"),
            (
                "1 begin;1 put demo/h g:114688:0;1 commit;lead",
                "1 begun;1 put;1 queued;1 committed 3",
            ),
        ],
    );
}

// What one member's changes make the states grow by is taken together.
#[test]
fn a_member_that_puts_as_much_as_it_deletes(rt: HostRuntime) {
    let _ = talk(
        &rt,
        &[
            SEVEN_STATES,
            ("lead", "14 committed 1"),
            (
                "0 begin;0 del demo/a;0 put demo/h g:114688:0;0 commit;lead",
                "0 begun;0 deleted;0 put;0 queued;0 committed 2",
            ),
        ],
    );
}

// Beside 3605 bytes there is room for 77 + 18 + 36 * 11 = 491, those of 24 full pages in 11 extents under a key of 18
// characters, and a key of 19 is a byte too long.
#[test]
fn room_is_filled_to_its_last_byte(rt: HostRuntime) {
    let _ = talk(
        &rt,
        &[
            SEVEN_STATES,
            (
                "0 begin;0 put demo/0123456789abcd g:98304:0;0 commit",
                "0 begun;0 put;0 queued",
            ),
            (
                "1 begin;1 put demo/0123456789abc g:98304:0;1 commit",
                "1 begun;1 put;1 queued",
            ),
            ("2 begin;2 put demo/i x:;2 commit", "2 begun;2 put;2 queued"),
            (
                "lead",
                "14 committed 1;0 no-room 4097 4096;1 committed 2;2 no-room 4179 4096",
            ),
        ],
    );
}

#[test]
fn a_conflict_comes_before_a_want_of_space(rt: HostRuntime) {
    let _ = talk(
        &rt,
        &[
            ("2 begin;2 get demo/c", "2 begun;2 absent"),
            FULL_STORE,
            (
                "0 begin;0 put demo/c x:;0 commit;lead",
                "0 begun;0 put;0 queued;0 committed 2",
            ),
            ("2 put demo/d x:64;2 commit", "2 put;2 queued"),
            ("lead", "2 conflict demo/c none 2"),
        ],
    );
}

// Behind the 196 pages of the seven contents demo/h finds places for two extents of 128 pages, and wants three. Its 31 extents would make its state 77 + 6 + 36 * 31 = 1199 bytes long, and all of them 4804.
#[test]
fn a_want_of_space_comes_before_a_want_of_room(rt: HostRuntime) {
    let _ = talk(
        &rt,
        &[
            SEVEN_STATES,
            (
                "0 begin;0 put demo/h g:3133440:0;0 commit",
                "0 begun;0 put;0 queued",
            ),
            ("lead", "14 committed 1;0 no-space demo/h 7"),
        ],
    );
}
