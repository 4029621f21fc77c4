// The words of command lines.

use blob_base::{OutOfMemory, Word};
use blob_script::Form;
use std::alloc::Global;
use std::test::Fail;

// The words of a line, parted by one blank each; an empty one has none.
fn words_of(alloc: Global, line: &str) -> Result<Vec<Word>, OutOfMemory> {
    let mut words = Vec::new(alloc);
    if line.is_empty() {
        return Ok(words);
    }
    for word in line.split(' ') {
        words.push(Word::of(alloc, word.as_bytes())?)?;
    }
    Ok(words)
}

#[test]
fn words_that_are_forms(rt: HostRuntime) -> Result<(), Fail> {
    for (line, units, room) in [
        ("fresh s 1 1", 1, 1),
        ("fresh s 8 1", 8, 1),
        ("fresh fresh 16384 1024", 16_384, 1024),
    ] {
        let words = words_of(rt.alloc(), line)?;
        let form = Form::read(words.as_slice());
        assert!(rt; form == Some(Form::Fresh { units, room }), "{line}");
    }
    Ok(())
}

#[test]
fn words_of_the_other_forms(rt: HostRuntime) -> Result<(), Fail> {
    for (line, form) in [
        ("format s 1 1", Form::Format { units: 1, room: 1 }),
        ("steps s", Form::Steps),
        ("steps steps", Form::Steps),
        ("show s", Form::Show),
        ("check s", Form::Check),
    ] {
        let words = words_of(rt.alloc(), line)?;
        assert!(rt; Form::read(words.as_slice()) == Some(form), "{line}");
    }
    Ok(())
}

#[test]
fn words_that_are_none(rt: HostRuntime) -> Result<(), Fail> {
    for line in [
        "",
        "fresh",
        "fresh s 1",
        "fresh s 1 1 1",
        "fresh  1 1",
        "fresh s 0 1",
        "fresh s 1 0",
        "fresh s 16385 1",
        "fresh s 1 1025",
        "fresh s 01 1",
        "fresh s 1 01",
        "fresh s +1 1",
        "fresh s 1 4294967297",
        "Fresh s 1 1",
        "steps",
        "steps ",
        "steps s 1",
        "steps s 1 1",
        "Steps s",
    ] {
        let words = words_of(rt.alloc(), line)?;
        assert!(rt; Form::read(words.as_slice()).is_none(), "{line}");
    }
    Ok(())
}
