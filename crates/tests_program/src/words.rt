// Command lines.

use crate::trial::Trial;
use blob_base::StoreRefusal;
use blob_script::Status;
use std::test::Fail;

#[test]
fn words_that_are_no_form(rt: HostRuntime) {
    for words in [
        "",
        "fresh",
        "fresh s 1",
        "fresh s 1 1 1",
        "fresh  1 1",
        "fresh s 0 1",
        "fresh s 1 0",
        "fresh s 16385 1",
        "fresh s 1 1025",
        "fresh s 01 1",
        "fresh s +1 1",
        "fresh s 1 4294967297",
        "Fresh s 1 1",
        "format",
        "format s 0 1",
        "format s 1",
        "show",
        "show s s",
        "show ",
        "check",
        "check s 1",
        "Check s",
        "steps",
        "steps ",
        "steps s 1",
        "steps s 1 1",
        "Steps s",
    ] {
        let trial = Trial {
            words,
            ..Trial::of(b"lead\n")
        };
        trial.expect(&rt, b"usage\n", &Status::Usage);
    }
    assert_eq!(rt; Status::Usage.code(), 8);
}

#[test]
fn a_disk_that_is_too_small(rt: HostRuntime) {
    let trial = Trial {
        pages: 2052,
        ..Trial::of(b"lead\n")
    };
    let why = StoreRefusal::TooSmall {
        need: 2053,
        have: 2052,
    };
    trial.expect(
        &rt,
        b"store refused: too-small 2053 2052\n",
        &Status::Refused { why },
    );
}

#[test]
fn the_largest_store(rt: HostRuntime) -> Result<(), Fail> {
    let trial = Trial {
        words: "fresh s 16384 1024",
        pages: 16_780_291,
        ..Trial::of(b"lead\n")
    };
    trial.expect(&rt, b"idle\n", &Status::Done);
    Ok(())
}
