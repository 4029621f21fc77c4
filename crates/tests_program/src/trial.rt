// A run to be tried, and how it ended.

ghost use Rattle.std.specs.Prelude.{◌<◌, ◌≤◌};

use blob_base::{Bytes, Bytes64, OutOfMemory, PAGE_BYTES, Word};
use blob_script::Status;
use blob_steps::run_alone;
use disk_model::{Disk, MemDisk, Page, filled};
use io_ends::{MemSink, MemSource};
use std::alloc::Global;
use std::process::Abort;

/// A script whose lines all succeed.
pub(crate) const FIRST: &[u8] =
    b"0 begin\n0 put demo/a x:616263\n0 commit\nlead\n0 begin\n0 get demo/a\n0 stat demo/a\n";

/// What it is answered.
pub(crate) const FIRST_OUTPUT: &[u8] =
    b"0 begun\n0 put\n0 queued\n0 committed 1\n0 begun\n0 value 3 616263\n0 stat 3 ba7816bf8f01cfea414140de5dae2223b00361a396177a9cb410ff61f20015ad\n";

/// Lines of a session that puts the content `abc`, which is number 1, and what they are answered.
pub(crate) const ONE_PUT: (&str, &str) = (
    "0 begin;0 put demo/a x:616263;0 commit;lead",
    "0 begun;0 put;0 queued;0 committed 1",
);

/// A run: its words, parted by one blank each, its script, how many bytes a read gives, the calls that fail, and how many pages the disk has.
#[derive(Clone, Copy)]
pub(crate) struct Trial<'a> {
    pub(crate) words: &'a str,
    pub(crate) script: &'a [u8],
    pub(crate) piece: usize,
    pub(crate) failing_reads: &'a [u64],
    pub(crate) failing_writes: &'a [u64],
    pub(crate) failing_disk_calls: &'a [u64],
    pub(crate) pages: u32,
}

impl<'a> Trial<'a> {
    /// A script in the smallest store, where nothing fails.
    pub(crate) fn of(script: &'a [u8]) -> Trial<'a> {
        Trial {
            words: "fresh s 1 1",
            script,
            piece: 4096,
            failing_reads: &[],
            failing_writes: &[],
            failing_disk_calls: &[],
            pages: 2053,
        }
    }

    /// Does the run over a disk in memory.
    pub(crate) fn run(&self, alloc: Global) -> Result<Ended<MemDisk>, OutOfMemory> {
        let calls = numbers(alloc, self.failing_disk_calls)?;
        let disk = MemDisk::new(alloc, self.pages, calls)?;
        self.run_on(alloc, disk)
    }

    /// Does the run over this disk.
    pub(crate) fn run_on<D: Disk + Drop>(
        &self,
        alloc: Global,
        disk: D,
    ) -> Result<Ended<D>, OutOfMemory> {
        let words = words_of(alloc, self.words)?;
        let script = Bytes::of(alloc, self.script)?;
        let reads = numbers(alloc, self.failing_reads)?;
        let mut source = MemSource::new(script, self.piece.max(1), reads);
        let mut sink = MemSink::new(alloc, numbers(alloc, self.failing_writes)?);
        let (status, disk) = run_alone(alloc, words.as_slice(), &mut source, &mut sink, disk);
        Ok(Ended { status, sink, disk })
    }

    /// Does the run, and compares how it ended.
    pub(crate) fn expect<R: Abort + AllocGlobal>(&self, rt: &R, output: &[u8], status: &Status) {
        let ended = self.run(rt.alloc()).expect(rt, "memory");
        ended.expect(rt, output, status);
    }
}

/// How a run ended: its status, the sink of its output, and its disk.
#[derive(Drop)]
pub(crate) struct Ended<D> {
    pub(crate) status: Status,
    pub(crate) sink: MemSink,
    pub(crate) disk: D,
}

impl<D> Ended<D> {
    /// Compares the status and the output.
    pub(crate) fn expect<R: Abort>(&self, rt: &R, output: &[u8], status: &Status) {
        assert!(rt;
            self.sink.taken() == output,
            "{:?}",
            self.sink.taken().get(..200).unwrap_or(self.sink.taken())
        );
        assert!(rt; self.status == *status, "{:?}", self.status);
    }
}

// The words of a command line; an empty one has none.
fn words_of(alloc: Global, line: &str) -> Result<Vec<Word>, OutOfMemory> {
    let mut words = Vec::new(alloc);
    if line.is_empty() {
        return Ok(words);
    }
    for word in line.split(' ') {
        words.push(Word::of(alloc, word.as_bytes())?)?;
    }
    Ok(words)
}

fn numbers(alloc: Global, calls: &[u64]) -> Result<Bytes64, OutOfMemory> {
    Ok(Bytes64::from_vec(calls.to_vec(alloc)?))
}

/// Runs a script in the smallest store, where nothing fails, and compares how it ended.
pub(crate) fn expect<R: Abort + AllocGlobal>(rt: &R, script: &str, output: &str, status: &Status) {
    Trial::of(script.as_bytes()).expect(rt, output.as_bytes(), status);
}

/// How many calls `fresh s 1 1` takes before the first line of its script. The format writes the header of half 0, its first gate
/// and, behind a sync, the selector, and syncs. The opening syncs, reads the selector, the header and the first gate, and turns to
/// half 1: the header, the first gate, a sync, the selector and a sync.
pub(crate) const FRESH_CALLS: u64 = 14;

/// Compares the reads, writes and syncs that the script of a `fresh s 1 1` took, behind those of the format and the opening.
pub(crate) fn expect_calls<R: Abort>(rt: &R, ended: &Ended<MemDisk>, script: (u64, u64, u64)) {
    let (reads, writes, syncs) = ended.disk.calls();
    assert!(rt; reads >= 3 && writes >= 6 && syncs >= 5);
    assert_eq!(rt; (reads - 3, writes - 6, syncs - 5), script);
}

// Adds lines that are parted by `;`, each with its end. No lines are the empty text.
fn append_lines(alloc: Global, out: &mut Bytes, lines: &str) -> Result<(), OutOfMemory> {
    if lines.is_empty() {
        return Ok(());
    }
    for line in lines.split(';') {
        out.append(alloc, line.as_bytes())?;
        out.append(alloc, b"\n")?;
    }
    Ok(())
}

/// A disk of zeros that takes the smallest store, at which nothing fails.
pub(crate) fn new_disk<R: Abort + AllocGlobal>(rt: &R) -> MemDisk {
    MemDisk::new(rt.alloc(), 2053, Bytes64::new(rt.alloc())).expect(rt, "memory")
}

/// Runs words over a disk, with nothing to read.
pub(crate) fn run_words<R: Abort + AllocGlobal>(
    rt: &R,
    words: &str,
    disk: MemDisk,
) -> Ended<MemDisk> {
    let trial = Trial {
        words,
        ..Trial::of(b"")
    };
    trial.run_on(rt.alloc(), disk).expect(rt, "memory")
}

/// Writes a page that begins with these bytes, and has zeros behind them.
pub(crate) fn write_page<R: Abort>(rt: &R, disk: &mut MemDisk, page: u32, front: &[u8]) {
    assert!(rt; page < disk.pages());
    assert!(rt; front.len() <= PAGE_BYTES);
    assert!(rt; disk.write(page, &filled(front)) == Ok(()));
}

/// The value that 64 digits spell.
pub(crate) fn value_of<R: Abort>(rt: &R, digits: &str) -> [u8; 32] {
    let mut value = [0; 32];
    assert!(rt; hex::decode_to_slice(digits, &mut value).is_ok());
    value
}

/// Runs a script in the smallest store, where nothing fails, to its end, and compares its answers. Each pair has lines of
/// the script, parted by `;`, and what they are answered.
pub(crate) fn talk<R: Abort + AllocGlobal>(rt: &R, parts: &[(&str, &str)]) -> Ended<MemDisk> {
    talk_on(rt, "fresh s 1 1", new_disk(rt), parts)
}

/// Runs words over this disk, with a script whose lines all succeed, and compares its answers.
pub(crate) fn talk_on<R: Abort + AllocGlobal, D: Disk + Drop>(
    rt: &R,
    words: &str,
    disk: D,
    parts: &[(&str, &str)],
) -> Ended<D> {
    let mut script = Bytes::new(rt.alloc());
    let mut output = Bytes::new(rt.alloc());
    for (asked, answered) in parts {
        append_lines(rt.alloc(), &mut script, asked).expect(rt, "memory");
        append_lines(rt.alloc(), &mut output, answered).expect(rt, "memory");
    }
    let trial = Trial {
        words,
        ..Trial::of(script.as_slice())
    };
    let ended = trial.run_on(rt.alloc(), disk).expect(rt, "memory");
    ended.expect(rt, output.as_slice(), &Status::Done);
    ended
}

/// The bytes from the first of the page of this number on, in the made content of a first byte.
pub(crate) fn made_page(first: u8, number: usize) -> Page
    requires { number < 1024 }
{
    let mut page = [0; PAGE_BYTES];
    for j in 0..PAGE_BYTES {
        let i = PAGE_BYTES * number + j;
        page[j] = ((usize::from(first) + 7 * i + i / 256) % 256) as u8;
    }
    page
}

/// Adds so many full pages of the made content of a first byte and then the rest of it, in hexadecimal.
pub(crate) fn append_made(
    alloc: Global,
    out: &mut Bytes,
    first: u8,
    pages: usize,
    rest: usize,
) -> Result<(), OutOfMemory>
    requires pages { pages < 1024 }
    requires rest { rest ≤ 4096 }
{
    for number in 0..pages {
        out.append(
            alloc,
            hex::encode(alloc, &made_page(first, number))?.as_bytes(),
        )?;
    }
    let page = made_page(first, pages);
    out.append(alloc, hex::encode(alloc, &page[..rest])?.as_bytes())
}
