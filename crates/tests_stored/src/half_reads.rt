// A half, read back. Its bytes and the offsets are those of the format, written by hand.

use blob_base::{Bytes64, PAGE_BYTES};
use check_point::{HalfFault, read_half};
use disk_model::{Disk, MemDisk, Page};
use std::process::Abort;
use std::test::Fail;

// The header of a half with one unit of data pages, one page of states and the last number 1, which has one tuple of 87
// bytes.
fn header<R: Abort>(rt: &R) -> Page {
    let mut page = [0; PAGE_BYTES];
    let read = hex::decode_to_slice(
        "424c4f4248414c46000000010000000100000001000000000000000100000001\
         00000057",
        &mut page[..36],
    );
    assert!(rt; read.is_ok());
    page
}

// The key `demo/a` and a content of the three bytes `abc`, with its tail on page 0.
fn states<R: Abort>(rt: &R) -> Page {
    let mut page = [0; PAGE_BYTES];
    let read = hex::decode_to_slice(
        "0664656d6f2f61\
         00000003\
         0000000000000001\
         ba7816bf8f01cfea414140de5dae2223b00361a396177a9cb410ff61f20015ad\
         6162630000000000000000000000000000000000000000000000000000000000\
         00000000",
        &mut page[..87],
    );
    assert!(rt; read.is_ok());
    page
}

// Half 1 of a disk that has its pages: the header at page 2, and the states at page 1028.
#[test]
fn a_half_of_one_tuple_is_read(rt: HostRuntime) -> Result<(), Fail> {
    let mut disk = MemDisk::new(rt.alloc(), 2053, Bytes64::new(rt.alloc()))?;
    assert!(rt; disk.write(2, &header(&rt)) == Ok(()));
    assert!(rt; disk.write(1028, &states(&rt)) == Ok(()));
    match read_half(rt.alloc(), &mut disk, 1) {
        Ok(found) => {
            assert_eq!(rt; found.layout.units, 1);
            assert_eq!(rt; found.layout.room, 1);
            assert_eq!(rt; found.last, 1);
            assert_eq!(rt; found.states.len(), 1);
            assert!(rt; found.states.get(0).key.text() == b"demo/a".as_slice());
            assert_eq!(rt; found.states.get(0).state.size(), 3);
        }
        Err(_) => assert!(rt; false),
    }
    assert_eq!(rt; disk.calls(), (2, 2, 0));
    Ok(())
}

// What is refused of it: the first byte of its text, its layout, its last number, its length, its tuple's number, and
// how many tuples there are.
#[test]
fn a_half_is_refused_by_the_first_broken_field(rt: HostRuntime) -> Result<(), Fail> {
    for (at, byte, fault) in [
        (0, 0, HalfFault::BadHalf { at: 0 }),
        (11, 2, HalfFault::BadHalf { at: 8 }),
        (15, 0, HalfFault::BadHalf { at: 12 }),
        (18, 16, HalfFault::BadHalf { at: 16 }),
        (
            15,
            2,
            HalfFault::TooSmall {
                need: 3077,
                have: 2053,
            },
        ),
        (20, 255, HalfFault::BadHalf { at: 20 }),
        (34, 17, HalfFault::BadHalf { at: 32 }),
        (35, 88, HalfFault::BadHalf { at: 28 }),
        (35, 86, HalfFault::BadTuple { at: 83 }),
        (31, 2, HalfFault::BadTuple { at: 87 }),
        (27, 0, HalfFault::BadTuple { at: 11 }),
    ] {
        let mut disk = MemDisk::new(rt.alloc(), 2053, Bytes64::new(rt.alloc()))?;
        let mut page = header(&rt);
        assert!(rt; at < PAGE_BYTES);
        page[at] = byte;
        assert!(rt; disk.write(1, &page) == Ok(()));
        assert!(rt; disk.write(1027, &states(&rt)) == Ok(()));
        match read_half(rt.alloc(), &mut disk, 0) {
            Err(found) => assert_eq!(rt; found, fault),
            Ok(_) => assert!(rt; false),
        }
    }
    Ok(())
}
