// How runs end: the program's exit status, and the line that closes the output.

use blob_base::{Key, StoreRefusal};
use blob_script::Status;
use std::process::Abort;

fn expect_ending<R: Abort>(rt: &R, status: &Status, code: u8, closing: &[u8]) {
    assert_eq!(rt; status.code(), code, "{status:?}");
    assert!(rt; status.closing().as_slice() == closing, "{status:?}");
}

#[test]
fn codes_and_closing_lines(rt: HostRuntime) {
    for (status, code, closing) in [
        (Status::Done, 0, ""),
        (Status::Malformed { line: 3 }, 2, "malformed line 3\n"),
        (
            Status::Malformed { line: 1_000_001 },
            2,
            "malformed line 1000001\n",
        ),
        (Status::ReadFault, 3, "read fault\n"),
        (Status::WriteFault, 4, "write fault\n"),
        (Status::DiskFault, 5, "disk fault\n"),
        (Status::OutOfMemory, 7, "out of memory\n"),
        (Status::Usage, 8, "usage\n"),
        (Status::NotBuilt { line: 12 }, 10, "not built line 12\n"),
    ] {
        expect_ending(&rt, &status, code, closing.as_bytes());
    }
}

#[test]
fn endings_of_disks_that_are_no_stores(rt: HostRuntime) {
    for (why, closing) in [
        (
            StoreRefusal::TooSmall {
                need: 2053,
                have: 2052,
            },
            "store refused: too-small 2053 2052\n",
        ),
        (
            StoreRefusal::BadHalf { half: 0, at: 0 },
            "store refused: bad-half 0 0\n",
        ),
        (
            StoreRefusal::BadTuple { half: 1, at: 83 },
            "store refused: bad-tuple 1 83\n",
        ),
        (
            StoreRefusal::BadFrame { half: 0, page: 511 },
            "store refused: bad-frame 0 511\n",
        ),
        (
            StoreRefusal::OwnedTwice { page: 7 },
            "store refused: owned-twice 7\n",
        ),
    ] {
        expect_ending(&rt, &Status::Refused { why }, 6, closing.as_bytes());
    }
}

// No other line is longer than that of the longest key and the last link.
#[test]
fn endings_of_damage(rt: HostRuntime) {
    for (text, link, closing) in [
        (
            "a/b",
            0,
            "damaged a/b 0 0f0f0f0f0f0f0f0f0f0f0f0f0f0f0f0f0f0f0f0f0f0f0f0f0f0f0f0f0f0f0f0f a5a5a5a5a5a5a5a5a5a5a5a5a5a5a5a5a5a5a5a5a5a5a5a5a5a5a5a5a5a5a5a5\n",
        ),
        (
            "abcdefghijklmnop/0123456789abcdef0123456789abcdef0123456789abcde",
            127,
            "damaged abcdefghijklmnop/0123456789abcdef0123456789abcdef0123456789abcde 127 0f0f0f0f0f0f0f0f0f0f0f0f0f0f0f0f0f0f0f0f0f0f0f0f0f0f0f0f0f0f0f0f a5a5a5a5a5a5a5a5a5a5a5a5a5a5a5a5a5a5a5a5a5a5a5a5a5a5a5a5a5a5a5a5\n",
        ),
    ] {
        let status = Status::Damaged {
            key: Key::read(text.as_bytes()).expect(&rt, "a key"),
            link,
            want: [0x0f; 32],
            got: [0xa5; 32],
        };
        expect_ending(&rt, &status, 9, closing.as_bytes());
    }
}
