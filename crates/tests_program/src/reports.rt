// The forms that format a store, show it and check it. Pages and their bytes are those of the format, written by hand; each disk
// has the smallest layout, where the log area of half 0 begins at page 3 and the data area at page 1029.

use crate::trial::{Trial, new_disk, run_words, value_of, write_page};
use blob_base::{Key, StoreRefusal};
use blob_script::Status;
use disk_model::MemDisk;
use std::process::Abort;

/// What is shown of a store with the content `abc` of `demo/a`, which the first entry wrote.
pub(crate) const SHOWN: &[u8] =
    b"demo/a 3 ba7816bf8f01cfea414140de5dae2223b00361a396177a9cb410ff61f20015ad 1\nlast 1\n";

/// The value that is kept of `abc`.
pub(crate) const KEPT: &str = "ba7816bf8f01cfea414140de5dae2223b00361a396177a9cb410ff61f20015ad";

/// The value that is computed of `abc` where its page has zeros.
pub(crate) const OF_ZEROS: &str =
    "709e80c88487a2411e1ee4dfb9f22a861492d20c4765150c0c794abd70f8147c";

/// The body of one entry, number 1, of session 0 and its first transaction, that sets `demo/a` to the content `abc` on data page 0.
pub(crate) fn one_set<R: Abort>(rt: &R) -> [u8; 119] {
    let mut body = [0; 119];
    let read = hex::decode_to_slice(
        "424c4f4246524d31\
         00000077\
         01\
         0000000000000001\
         00\
         0000000000000001\
         01\
         01\
         0664656d6f2f61\
         00000003\
         0000000000000001\
         ba7816bf8f01cfea414140de5dae2223b00361a396177a9cb410ff61f20015ad\
         6162630000000000000000000000000000000000000000000000000000000000\
         00000000",
        &mut body,
    );
    assert!(rt; read.is_ok());
    body
}

/// A disk that has been formatted.
pub(crate) fn formatted<R: Abort + AllocGlobal>(rt: &R) -> MemDisk {
    let ended = run_words(rt, "format s 1 1", new_disk(rt));
    ended.expect(rt, b"formatted 2053\n", &Status::Done);
    ended.disk
}

// A formatted disk with a body behind its open first gate, and this text on data page 0.
fn with_body<R: Abort + AllocGlobal>(rt: &R, text: &[u8]) -> MemDisk {
    let mut disk = formatted(rt);
    write_page(rt, &mut disk, 4, &one_set(rt));
    write_page(rt, &mut disk, 3, b"GATEOPEN");
    write_page(rt, &mut disk, 1029, text);
    disk
}

#[test]
fn a_formatted_store_is_empty(rt: HostRuntime) {
    let shown = run_words(&rt, "show s", formatted(&rt));
    shown.expect(&rt, b"last 0\n", &Status::Done);
    let checked = run_words(&rt, "check s", shown.disk);
    checked.expect(&rt, b"checked 0 damaged 0\n", &Status::Done);
}

#[test]
fn an_entry_of_the_log_is_shown_where_its_content_stands(rt: HostRuntime) {
    let shown = run_words(&rt, "show s", with_body(&rt, b"abc"));
    shown.expect(&rt, SHOWN, &Status::Done);
    let again = run_words(&rt, "show s", shown.disk);
    again.expect(&rt, SHOWN, &Status::Done);
    let checked = run_words(&rt, "check s", again.disk);
    checked.expect(&rt, b"checked 1 damaged 0\n", &Status::Done);
}

#[test]
fn an_entry_of_the_log_is_dropped_where_its_content_is_missing(rt: HostRuntime) {
    let shown = run_words(&rt, "show s", with_body(&rt, b""));
    shown.expect(&rt, b"last 1\n", &Status::Done);
}

// The report of the damage stands in place of a closing line.
#[test]
fn a_content_that_was_lost_later_is_damaged(rt: HostRuntime) {
    let shown = run_words(&rt, "show s", with_body(&rt, b"abc"));
    let mut disk = shown.disk;
    write_page(&rt, &mut disk, 1029, b"");
    let checked = run_words(&rt, "check s", disk);
    let key = Key::read(b"demo/a").expect(&rt, "a key");
    checked.expect(
        &rt,
        b"damaged demo/a 0 ba7816bf8f01cfea414140de5dae2223b00361a396177a9cb410ff61f20015ad 709e80c88487a2411e1ee4dfb9f22a861492d20c4765150c0c794abd70f8147c\nchecked 1 damaged 1\n",
        &Status::Damaged {
            key,
            link: 0,
            want: value_of(&rt, KEPT),
            got: value_of(&rt, OF_ZEROS),
        },
    );
    let shown = run_words(&rt, "show s", checked.disk);
    shown.expect(&rt, SHOWN, &Status::Done);
}

#[test]
fn a_disk_that_is_no_store(rt: HostRuntime) {
    for words in ["show s", "check s"] {
        let ended = run_words(&rt, words, new_disk(&rt));
        ended.expect(
            &rt,
            b"store refused: bad-half 0 0\n",
            &Status::Refused {
                why: StoreRefusal::BadHalf { half: 0, at: 0 },
            },
        );
    }
}

#[test]
fn a_format_of_a_disk_that_is_too_small(rt: HostRuntime) {
    let trial = Trial {
        words: "format s 1 1",
        pages: 2052,
        ..Trial::of(b"")
    };
    trial.expect(
        &rt,
        b"store refused: too-small 2053 2052\n",
        &Status::Refused {
            why: StoreRefusal::TooSmall {
                need: 2053,
                have: 2052,
            },
        },
    );
}

// A format makes three writes and two syncs.
#[test]
fn calls_of_a_format_that_fail(rt: HostRuntime) {
    for failing in 1..6 {
        let trial = Trial {
            words: "format s 1 1",
            failing_disk_calls: &[failing],
            ..Trial::of(b"")
        };
        trial.expect(&rt, b"disk fault\n", &Status::DiskFault);
    }
    let trial = Trial {
        words: "format s 1 1",
        failing_disk_calls: &[6],
        ..Trial::of(b"")
    };
    trial.expect(&rt, b"formatted 2053\n", &Status::Done);
}

#[test]
fn a_report_that_is_not_taken(rt: HostRuntime) {
    for words in ["show s", "check s"] {
        let trial = Trial {
            words,
            failing_writes: &[1],
            ..Trial::of(b"")
        };
        let ended = trial
            .run_on(rt.alloc(), formatted(&rt))
            .expect(&rt, "memory");
        ended.expect(&rt, b"write fault\n", &Status::WriteFault);
    }
}
