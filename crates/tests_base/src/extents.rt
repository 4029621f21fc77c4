// Contents on the pages of a disk in memory.

ghost use Rattle.std.specs.Prelude.{◌≡◌, ◌<◌, length};
ghost use Rattle.store_model.specs.Holds.{place_of};
ghost use Rattle.store_model.specs.Space.{Apart, AreBlocks, blocks_of};

use crate::tuples::five_heads;
use arrayvec::ArrayVec;
use blob_base::{Bytes64, PAGE_BYTES};
use blob_state::{BlobState, Draft};
use disk_model::{Disk, Layout, MemDisk};
use extent_io::{Verdict, check, gather, pour, verify};
use std::process::Abort;
use std::test::Fail;

const LAYOUT: Layout = Layout { units: 1, room: 1 };

// The state of a content of a few bytes, on this data page.
fn tail_state<R: Abort>(rt: &R, content: &[u8], page: u32) -> BlobState
    requires { page < 1024 }
    ensures blocks { AreBlocks 1024 (blocks_of (place_of result)) }
    ensures apart { Apart (blocks_of (place_of result)) }
    ensures size { result.size ≡ length content.now }
{
    let draft = Draft::put(content).expect(rt, "a draft");
    let size = draft.size();
    assert!(rt; draft.marks().len() == 0);
    assert!(rt; 0 < size % 4096);
    draft.place(&ArrayVec::new(), Some(page), 1)
}

// A content is written to its page and read back, verifies, and is damaged once its page is overwritten.
#[test]
fn a_content_on_its_page(rt: HostRuntime) -> Result<(), Fail> {
    let mut disk = MemDisk::new(rt.alloc(), 2053, Bytes64::new(rt.alloc()))?;
    let state = tail_state(&rt, b"abc", 6);
    assert!(rt; pour(&mut disk, LAYOUT, &state, 0, b"abc").is_ok());
    assert_eq!(rt; disk.calls(), (0, 1, 0));
    let mut page = [1; PAGE_BYTES];
    assert!(rt; disk.read(1035, &mut page).is_ok());
    assert!(rt; &page[..5] == b"abc\0\0".as_slice());
    let mut bytes = [7; 4];
    let read = gather(&mut disk, LAYOUT, &state, 1, &mut bytes);
    assert!(rt; read == Ok(2));
    assert!(rt; bytes == [b'b', b'c', 7, 7]);
    assert!(rt; gather(&mut disk, LAYOUT, &state, 3, &mut bytes) == Ok(0));
    assert!(rt; verify(&mut disk, LAYOUT, &state) == Ok(Verdict::Whole));
    assert_eq!(rt; disk.calls(), (3, 1, 0));
    assert!(rt; disk.write(1035, &[0; PAGE_BYTES]).is_ok());
    match verify(&mut disk, LAYOUT, &state) {
        Ok(Verdict::Damaged { link, want, .. }) => {
            assert_eq!(rt; link, 0);
            assert!(rt; want == state.digest().bytes);
        }
        _ => assert!(rt; false),
    }
    Ok(())
}

// The state of a content of 20,481 bytes, in five extents and a tail.
fn long_state<R: Abort>(rt: &R, content: &[u8]) -> BlobState {
    let draft = Draft::put(content).expect(rt, "a draft");
    let heads = five_heads();
    let size = draft.size();
    assert!(rt; draft.marks().len() == 5);
    assert!(rt; 0 < size % 4096);
    draft.place(&heads, Some(6), 1)
}

fn value<R: Abort>(rt: &R, text: &str) -> [u8; 32] {
    let mut bytes = [0; 32];
    assert!(rt; hex::decode_to_slice(text, &mut bytes).is_ok());
    bytes
}

fn expect_verdict<R: Abort>(rt: &R, state: &BlobState, content: &[u8], expected: Verdict) {
    let size = state.size();
    assert!(rt; size == content.len() as u64);
    let found = check(state, content);
    assert!(rt; found == expected, "{found:?}");
}

// A content of 20,481 bytes, whole, and then with one byte changed: one of the second extent, and the last. The values
// are those that a Python program gives.
#[test]
fn contents_in_memory(rt: HostRuntime) {
    let mut content = [7; 20_481];
    let state = long_state(&rt, &content);
    expect_verdict(&rt, &state, &content, Verdict::Whole);
    content[5000] = 8;
    let second = Verdict::Damaged {
        link: 1,
        want: value(
            &rt,
            "219aad1ed128bebc47d8ab81833f39ea62bf95ad4096ade82e422d153c7319ab",
        ),
        got: value(
            &rt,
            "8aaa20fed54fcc148a822c4c5b2faf5e3c9dbbbc22d44cc64063106574d6c2fb",
        ),
    };
    expect_verdict(&rt, &state, &content, second);
    content[5000] = 7;
    content[20_480] = 8;
    let last = Verdict::Damaged {
        link: 5,
        want: value(
            &rt,
            "38c021ff60bde98ec7c83d3caf003f9433dee463f3dd1f65ec4658e80630218b",
        ),
        got: value(
            &rt,
            "145887f0f499a3d527ab344649123eeb86c88b24bb2d06bdf6b976067cf59d44",
        ),
    };
    expect_verdict(&rt, &state, &content, last);
}
