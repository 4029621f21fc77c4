// What a run leaves on the data pages of the disk, and how many calls its script takes: each lead that commits writes a page of
// its frame, the next gate, the contents and its gate, and syncs twice. Places are worked out by hand: for each extent, and then the tail, the least free
// multiple of its pages.

use crate::trial::{Ended, FIRST, Trial, append_made, expect_calls, made_page};
use blob_base::{Bytes, PAGE_BYTES};
use blob_script::Status;
use disk_model::{Disk, MemDisk};
use std::process::Abort;
use std::test::Fail;

/// The page has these bytes at its front, and zeros behind them. In a store of one unit and one page of room page 1029 is
/// data page 0.
pub(crate) fn expect_page<R: Abort>(rt: &R, ended: &mut Ended<MemDisk>, page: u32, front: &[u8]) {
    let mut found = [1; PAGE_BYTES];
    assert!(rt; page < ended.disk.pages());
    assert!(rt; ended.disk.read(page, &mut found) == Ok(()));
    assert!(rt; found.starts_with(front), "page {page}");
    assert!(rt; front.len() <= PAGE_BYTES);
    assert!(rt;
        found[front.len()..].iter().all(|byte| *byte == 0),
        "page {page}"
    );
}

// The data page has the first bytes of a page of a made content at its front, and zeros behind them.
fn expect_made<R: Abort>(
    rt: &R,
    ended: &mut Ended<MemDisk>,
    data_page: u32,
    first: u8,
    number: usize,
    count: usize,
) {
    assert!(rt; data_page < 1024);
    assert!(rt; number < 1024);
    assert!(rt; count <= PAGE_BYTES);
    let page = made_page(first, number);
    expect_page(rt, ended, 1029 + data_page, &page[..count]);
}

#[test]
fn a_content_stands_on_the_first_data_page(rt: HostRuntime) -> Result<(), Fail> {
    let mut ended = Trial::of(FIRST).run(rt.alloc())?;
    // The get reads the page once, and the stat doesn't.
    expect_calls(&rt, &ended, (1, 4, 2));
    expect_page(&rt, &mut ended, 1028, b"");
    expect_page(&rt, &mut ended, 1029, b"abc");
    expect_page(&rt, &mut ended, 1030, b"");
    Ok(())
}

// The content that is replaced still stands on its page while the other is written, and the next takes this page.
#[test]
fn contents_stand_in_key_order_and_later_ones_where_it_is_free(
    rt: HostRuntime,
) -> Result<(), Fail> {
    let script =
        b"0 begin\n0 put a/b x:6262\n0 put a/a x:61\n0 commit\nlead\n0 begin\n0 put a/a x:63\n0 commit\nlead\n0 begin\n0 put a/c x:64\n0 commit\nlead\n";
    let mut ended = Trial::of(script).run(rt.alloc())?;
    expect_calls(&rt, &ended, (0, 13, 6));
    expect_page(&rt, &mut ended, 1029, b"d");
    expect_page(&rt, &mut ended, 1030, b"bb");
    expect_page(&rt, &mut ended, 1031, b"c");
    expect_page(&rt, &mut ended, 1032, b"");
    Ok(())
}

#[test]
fn an_empty_content_takes_no_page(rt: HostRuntime) -> Result<(), Fail> {
    let script =
        b"0 begin\n0 put a/a x:61\n0 put a/b x:\n0 put a/c x:63\n0 commit\nlead\n0 begin\n0 get a/b\n0 get a/c\n";
    let mut ended = Trial::of(script).run(rt.alloc())?;
    expect_calls(&rt, &ended, (1, 5, 2));
    expect_page(&rt, &mut ended, 1029, b"a");
    expect_page(&rt, &mut ended, 1030, b"c");
    expect_page(&rt, &mut ended, 1031, b"");
    Ok(())
}

// Up to five pages of a content stand on the data pages of the same numbers; the fifth begins an extent of two.
#[test]
fn full_pages_and_a_tail(rt: HostRuntime) -> Result<(), Fail> {
    for (script, size, pages) in [
        (
            b"0 begin\n0 put demo/a g:4095:0\n0 commit\nlead\n".as_slice(),
            4095,
            1,
        ),
        (
            b"0 begin\n0 put demo/a g:4096:0\n0 commit\nlead\n".as_slice(),
            4096,
            1,
        ),
        (
            b"0 begin\n0 put demo/a g:4097:0\n0 commit\nlead\n".as_slice(),
            4097,
            2,
        ),
        (
            b"0 begin\n0 put demo/a g:20480:0\n0 commit\nlead\n".as_slice(),
            20_480,
            5,
        ),
    ] {
        let mut ended = Trial::of(script).run(rt.alloc())?;
        expect_calls(&rt, &ended, (0, pages + 3, 2));
        for number in 0..6 {
            let count = PAGE_BYTES.min(usize::saturating_sub(size, PAGE_BYTES * number));
            expect_made(&rt, &mut ended, number as u32, 0, number, count);
        }
    }
    Ok(())
}

// 4,177,920 bytes are 1020 pages, and take every data page but 28 to 31.
#[test]
fn every_data_page_is_taken(rt: HostRuntime) -> Result<(), Fail> {
    let script =
        b"0 begin\n0 put demo/a g:4177920:0\n0 commit\nlead\n0 begin\n0 put demo/b g:12289:0\n0 commit\nlead\n0 begin\n0 put demo/c x:61\n0 commit\nlead\n0 begin\n0 put demo/d x:\n0 commit\nlead\n";
    let mut ended = Trial::of(script).run(rt.alloc())?;
    ended.expect(
        &rt,
        b"0 begun\n0 put\n0 queued\n0 committed 1\n0 begun\n0 put\n0 queued\n0 committed 2\n0 begun\n0 put\n0 queued\n0 no-space demo/c 0\n0 begun\n0 put\n0 queued\n0 committed 3\n",
        &Status::Done,
    );
    expect_calls(&rt, &ended, (0, 1033, 6));
    expect_made(&rt, &mut ended, 27, 0, 27, 4096);
    expect_made(&rt, &mut ended, 28, 0, 0, 4096);
    expect_made(&rt, &mut ended, 31, 0, 3, 1);
    expect_made(&rt, &mut ended, 32, 0, 28, 4096);
    expect_made(&rt, &mut ended, 1023, 0, 1019, 4096);
    Ok(())
}

// 732 full pages in 30 extents, the last of which begins at data page 640, and a tail of 1728 bytes in the gap at 28.
#[test]
fn a_photograph(rt: HostRuntime) -> Result<(), Fail> {
    let script =
        b"0 begin\n0 put demo/a g:3000000:7\n0 commit\nlead\n0 begin\n0 stat demo/a\n0 get demo/a\n";
    let mut output = Bytes::of(
        rt.alloc(),
        b"0 begun\n0 put\n0 queued\n0 committed 1\n0 begun\n0 stat 3000000 90b95e485bfc50bbf15272209caa499935dddfd42e6008fcf59b14ab156290c5\n0 value 3000000 ",
    )?;
    append_made(rt.alloc(), &mut output, 7, 732, 1728)?;
    output.append(rt.alloc(), b"\n")?;
    let mut ended = Trial::of(script).run(rt.alloc())?;
    ended.expect(&rt, output.as_slice(), &Status::Done);
    expect_calls(&rt, &ended, (733, 736, 2));
    for (data_page, number, count) in [
        (0, 0, 4096),
        (27, 27, 4096),
        (28, 732, 1728),
        (29, 0, 0),
        (31, 0, 0),
        (32, 28, 4096),
        (639, 635, 4096),
        (640, 636, 4096),
        (735, 731, 4096),
        (736, 0, 0),
    ] {
        expect_made(&rt, &mut ended, data_page, 7, number, count);
    }
    Ok(())
}

// Beside 1020 pages of an object there is no place for 1020 others, also where they replace it; once it is replaced by a
// tail at 28 there is.
#[test]
fn replaced_places_come_free_after_the_lead(rt: HostRuntime) -> Result<(), Fail> {
    let script =
        b"0 begin\n0 put demo/a g:4177920:0\n0 commit\nlead\n0 begin\n0 put demo/a g:4177920:1\n0 commit\nlead\n0 begin\n0 put demo/a x:61\n0 commit\nlead\n0 begin\n0 put demo/b g:4177920:2\n0 commit\nlead\n";
    let mut ended = Trial::of(script).run(rt.alloc())?;
    ended.expect(
        &rt,
        b"0 begun\n0 put\n0 queued\n0 committed 1\n0 begun\n0 put\n0 queued\n0 no-space demo/a 1\n0 begun\n0 put\n0 queued\n0 committed 2\n0 begun\n0 put\n0 queued\n0 committed 3\n",
        &Status::Done,
    );
    expect_calls(&rt, &ended, (0, 2050, 6));
    expect_made(&rt, &mut ended, 0, 2, 0, 4096);
    expect_made(&rt, &mut ended, 27, 2, 27, 4096);
    expect_page(&rt, &mut ended, 1057, b"a");
    expect_page(&rt, &mut ended, 1058, b"");
    expect_made(&rt, &mut ended, 1023, 2, 1019, 4096);
    Ok(())
}

// The request would give demo/a the page behind its own, and finds no 256 pages for the last extent of demo/b.
#[test]
fn a_request_without_a_place_changes_nothing(rt: HostRuntime) -> Result<(), Fail> {
    let script =
        b"0 begin\n0 put demo/a x:61\n0 commit\nlead\n0 begin\n0 put demo/a x:62\n0 put demo/b g:4194304:0\n0 commit\nlead\n0 begin\n0 get demo/a\n0 get demo/b\n0 put demo/c x:63\n0 commit\nlead\n";
    let mut ended = Trial::of(script).run(rt.alloc())?;
    ended.expect(
        &rt,
        b"0 begun\n0 put\n0 queued\n0 committed 1\n0 begun\n0 put\n0 put\n0 queued\n0 no-space demo/b 8\n0 begun\n0 value 1 61\n0 absent\n0 put\n0 queued\n0 committed 2\n",
        &Status::Done,
    );
    expect_calls(&rt, &ended, (1, 8, 4));
    expect_page(&rt, &mut ended, 1029, b"a");
    expect_page(&rt, &mut ended, 1030, b"c");
    expect_page(&rt, &mut ended, 1031, b"");
    Ok(())
}

// A state of 12 extents and a key of 6 characters takes 77 + 6 + 36 * 12 = 515 bytes, and eight of them 4120.
#[test]
fn a_request_without_room_changes_nothing(rt: HostRuntime) -> Result<(), Fail> {
    let script =
        b"0 begin\n0 put demo/a g:114688:0\n0 put demo/b g:114688:0\n0 put demo/c g:114688:0\n0 put demo/d g:114688:0\n0 put demo/e g:114688:0\n0 put demo/f g:114688:0\n0 put demo/g g:114688:0\n0 put demo/h g:114688:0\n0 commit\nlead\n0 begin\n0 get demo/a\n0 put demo/i x:61\n0 commit\nlead\n";
    let mut ended = Trial::of(script).run(rt.alloc())?;
    ended.expect(
        &rt,
        b"0 begun\n0 put\n0 put\n0 put\n0 put\n0 put\n0 put\n0 put\n0 put\n0 queued\n0 no-room 4120 4096\n0 begun\n0 absent\n0 put\n0 queued\n0 committed 1\n",
        &Status::Done,
    );
    expect_calls(&rt, &ended, (0, 4, 2));
    expect_page(&rt, &mut ended, 1029, b"a");
    expect_page(&rt, &mut ended, 1030, b"");
    Ok(())
}
