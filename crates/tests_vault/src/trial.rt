// A vault over a disk of the smallest layout, and what it is compared with. Half 0's log begins at page 3, half 1's at page 515,
// and the data area at page 1029.

ghost use Rattle.vault.specs.Pours.{AreWhole};

use blob_base::{Bytes, Bytes64, Key, PAGE_BYTES};
use disk_model::{Disk, Layout, MemDisk, Page};
use extent_io::Verdict;
use group_plan::{Queue, Reply};
use recover::format;
use std::process::Abort;
use std::test::Fail;
use txn::Txn;
use vault::{GatherFault, Vault};

// It takes 2053 pages.
const SMALLEST: Layout = Layout { units: 1, room: 1 };

pub(crate) fn key_of<R: Abort>(rt: &R, text: &str) -> Key {
    Key::read(text.as_bytes()).expect(rt, "a key")
}

// A disk that has been formatted, and fails at these calls.
pub(crate) fn formatted<R: Abort + AllocGlobal>(rt: &R, fails: Bytes64) -> Result<MemDisk, Fail> {
    let mut disk = MemDisk::new(rt.alloc(), 2053, fails)?;
    assert!(rt; format(&mut disk, SMALLEST) == Ok(()));
    Ok(disk)
}

pub(crate) fn opened<R: Abort + AllocGlobal, D: Disk + Drop>(
    rt: &R,
    disk: D,
) -> Result<Vault<D>, Fail> {
    match Vault::open(rt.alloc(), disk) {
        Ok(vault) => Ok(vault),
        Err(_) => Err(Fail::new("no store")),
    }
}

// A disk that has been formatted, and doesn't fail.
pub(crate) fn blank<R: Abort + AllocGlobal>(rt: &R) -> Result<MemDisk, Fail> {
    formatted(rt, Bytes64::new(rt.alloc()))
}

// Queues a transaction, the first of its session.
fn add<R: Abort + AllocGlobal>(rt: &R, queue: &mut Queue, txn: Txn)
    requires { AreWhole queue.old }
    ensures { AreWhole queue.new }
{
    queue.push(rt.alloc(), txn.seal()).expect(rt, "memory");
}

/// Queues a transaction of a session that puts a content.
pub(crate) fn add_put<R: Abort + AllocGlobal>(
    rt: &R,
    queue: &mut Queue,
    session: u8,
    key: &str,
    content: &[u8],
) -> Result<(), Fail>
    requires { AreWhole queue.old }
    ensures { AreWhole queue.new }
{
    assert!(rt; session < 16);
    let mut txn = Txn::begin(rt.alloc(), session, 1, 0);
    let bytes = Bytes::of(rt.alloc(), content)?;
    assert!(rt; txn.put(rt.alloc(), &key_of(rt, key), bytes).is_ok());
    add(rt, queue, txn);
    Ok(())
}

/// Leads a queue, and compares the numbers by which its members are committed.
pub(crate) fn lead<R: Abort + AllocGlobal, D: Disk>(
    rt: &R,
    vault: &mut Vault<D>,
    queue: &mut Queue,
    numbers: &[u64],
)
    requires whole { AreWhole queue.old }
{
    assert!(rt; queue.len() <= 16);
    match vault.lead(rt.alloc(), queue) {
        Ok(replies) => {
            assert_eq!(rt; replies.len(), numbers.len());
            for i in 0..numbers.len() {
                match replies.get(i) {
                    Reply::Committed { number } => assert_eq!(rt; *number, numbers[i]),
                    _ => assert!(rt; false, "no commit"),
                }
            }
        }
        Err(_) => assert!(rt; false, "no lead"),
    }
}

/// Puts a content under a key by a lead of its own, whose entry has this number.
pub(crate) fn put<R: Abort + AllocGlobal, D: Disk>(
    rt: &R,
    vault: &mut Vault<D>,
    key: &str,
    content: &[u8],
    number: u64,
) -> Result<(), Fail> {
    let mut queue = Queue::new(rt.alloc());
    add_put(rt, &mut queue, 0, key, content)?;
    lead(rt, vault, &mut queue, &[number]);
    assert_eq!(rt; queue.len(), 0);
    Ok(())
}

/// Puts a content under a key by so many leads, whose entries have the numbers from 1 on.
pub(crate) fn put_often<R: Abort + AllocGlobal, D: Disk>(
    rt: &R,
    vault: &mut Vault<D>,
    key: &str,
    content: &[u8],
    count: u64,
) -> Result<(), Fail> {
    'put: for i in 0..count {
        put(rt, vault, key, content, i + 1)?;
    }
    Ok(())
}

/// Verifies the content of a key, which is there.
pub(crate) fn verified<R: Abort, D: Disk>(
    rt: &R,
    vault: &mut Vault<D>,
    key: &Key,
) -> Result<Verdict, GatherFault> {
    let _ = vault.look(key).expect(rt, "a state");
    vault.verify(key)
}

/// A key has a state of this size and number.
pub(crate) fn expect_state<R: Abort, D: Disk>(
    rt: &R,
    vault: &Vault<D>,
    key: &str,
    size: u64,
    number: u64,
) {
    match vault.look(&key_of(rt, key)) {
        Some(state) => {
            assert_eq!(rt; state.size(), size);
            assert_eq!(rt; state.born(), number);
        }
        None => assert!(rt; false, "no state"),
    }
}

// A page that begins with these bytes, and has zeros behind them.
pub(crate) fn page_of<R: Abort>(rt: &R, bytes: &[u8]) -> Page {
    let mut page = [0; PAGE_BYTES];
    assert!(rt; bytes.len() <= PAGE_BYTES);
    page[..bytes.len()].copy_from_slice(bytes);
    page
}

// A page that begins with these bytes, given by two digits each.
pub(crate) fn page_of_hex<R: Abort>(rt: &R, digits: &str) -> Page {
    let mut page = [0; PAGE_BYTES];
    let count = digits.len() / 2;
    assert!(rt; count <= PAGE_BYTES);
    let read = hex::decode_to_slice(digits, &mut page[..count]);
    assert!(rt; read.is_ok());
    page
}

pub(crate) fn expect_page<R: Abort, D: Disk>(rt: &R, disk: &mut D, page: u32, expected: &Page) {
    let mut found = [1; PAGE_BYTES];
    assert!(rt; page < disk.pages());
    assert!(rt; disk.read(page, &mut found) == Ok(()), "page {page}");
    assert!(rt; found == *expected, "page {page}");
}
