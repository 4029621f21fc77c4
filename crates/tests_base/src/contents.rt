// The numbers and the contents that the words of a script spell.

use blob_script::{Content, number_of};
use std::process::Abort;
use std::test::Fail;

// The bytes that a word spells.
fn expect_bytes<R: Abort + AllocGlobal>(rt: &R, word: &str, expected: &[u8]) -> Result<(), Fail> {
    let content = Content::read(rt.alloc(), word.as_bytes())?.expect(rt, "a content");
    assert!(rt; content.size() <= 381_669_375, "the size of {word}");
    assert!(rt;
        content.size() == expected.len() as u64,
        "the size of {word}"
    );
    let bytes = content.bytes(rt.alloc())?;
    assert!(rt; bytes.as_slice() == expected, "the bytes of {word}");
    Ok(())
}

#[test]
fn words_that_spell_contents(rt: HostRuntime) -> Result<(), Fail> {
    expect_bytes(&rt, "x:", &[])?;
    expect_bytes(&rt, "x:00ff", &[0, 255])?;
    expect_bytes(&rt, "x:DeAdbe", &[0xde, 0xad, 0xbe])?;
    expect_bytes(&rt, "g:0:255", &[])?;
    expect_bytes(&rt, "g:1:255", &[255])?;
    expect_bytes(&rt, "g:4:250", &[250, 1, 8, 15])
}

#[test]
fn words_that_spell_no_content(rt: HostRuntime) -> Result<(), Fail> {
    for word in [
        "",
        "x",
        "x0",
        "x:0",
        "x:000",
        "x:0g",
        "x:00 ",
        "X:00",
        "y:00",
        "g",
        "g:",
        "g:1",
        "g::0",
        "g:1:",
        "g:1:2:",
        "g:1:2:3",
        "g:1::2",
        "g:01:2",
        "g:1:02",
        "g:1:256",
        "g:4294967296:0",
        "g:+1:2",
        "g:1:-2",
        "g:1: 2",
        "G:1:2",
    ] {
        let content = Content::read(rt.alloc(), word.as_bytes())?;
        assert!(rt; content.is_none(), "{word}");
    }
    Ok(())
}

// Byte i of `g:LEN:FIRST` is (FIRST + 7 i + i / 256) mod 256, computed by hand.
fn expect_made<R: Abort + AllocGlobal>(
    rt: &R,
    word: &str,
    places: &[(usize, u8)],
) -> Result<(), Fail> {
    let content = Content::read(rt.alloc(), word.as_bytes())?.expect(rt, "a content");
    assert!(rt; content.size() <= 381_669_375, "the size of {word}");
    let bytes = content.bytes(rt.alloc())?;
    for (place, byte) in places {
        assert!(rt;
            bytes.as_slice().get(*place) == Some(byte),
            "byte {place} of {word}"
        );
    }
    Ok(())
}

#[test]
fn bytes_of_made_contents(rt: HostRuntime) -> Result<(), Fail> {
    let places = [
        (0, 3),
        (1, 10),
        (36, 255),
        (37, 6),
        (255, 252),
        (256, 4),
        (257, 11),
        (511, 253),
        (512, 5),
        (599, 102),
    ];
    expect_made(&rt, "g:600:3", &places)?;
    expect_made(&rt, "g:65537:0", &[(65_535, 248), (65_536, 0)])
}

#[test]
fn sizes_of_contents(rt: HostRuntime) -> Result<(), Fail> {
    for (word, size) in [
        ("x:", 0),
        ("x:0011", 2),
        ("g:0:7", 0),
        ("g:381669375:0", 381_669_375),
        ("g:4294967295:0", 4_294_967_295),
    ] {
        let content = Content::read(rt.alloc(), word.as_bytes())?.expect(&rt, "a content");
        assert!(rt; content.size() == size, "{word}");
    }
    Ok(())
}

#[test]
fn numbers_in_decimal(rt: HostRuntime) {
    for (word, number) in [
        ("0", Some(0)),
        ("7", Some(7)),
        ("10", Some(10)),
        ("16384", Some(16_384)),
        ("4294967295", Some(4_294_967_295)),
        ("4294967296", None),
        ("99999999999999999999", None),
        ("", None),
        ("00", None),
        ("01", None),
        ("+1", None),
        ("-1", None),
        ("1 ", None),
        ("0x1", None),
        ("\u{661}", None),
    ] {
        assert!(rt; number_of(word.as_bytes()) == number, "{word}");
    }
    assert!(rt; number_of(&[0xff]).is_none());
}
