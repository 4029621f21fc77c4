// Sources and sinks.

ghost use Rattle.std.specs.Prelude.{false, None};
ghost use Rattle.io_ends.specs.Memory.{sink_faults};

use blob_base::{Bytes, Bytes64, IoFault, OutOfMemory};
use io_ends::{MemSink, MemSource, PutFault, Sink, Source, StdSink, StdSource, put_all};
use std::alloc::Global;
use std::io::{Error, ErrorKind, Read, Write};
use std::process::Abort;
use std::test::Fail;

const TEXT: &[u8] = b"hello, world";

// A sink that takes at most three bytes a call.
#[derive(Drop)]
struct NarrowSink {
    inner: MemSink,
}

impl Sink for NarrowSink {
    ghost taken = { λ _. None };

    ghost faults = { λ sink. sink_faults sink.inner };

    ghost frugal = { λ _. false };

    fn write(&mut self, piece: &[u8]) -> Result<usize, IoFault> {
        let count = piece.len().min(3);
        self.inner.write(&piece[..count])
    }
}

// A reader and a writer that fail at each call.
#[derive(Drop)]
struct Broken;

impl Read for Broken {
    fn read(&mut self, _into: &mut [u8]) -> std::io::Result<usize> {
        Err(Error::from(ErrorKind::Other))
    }
}

impl Write for Broken {
    fn write(&mut self, _from: &[u8]) -> std::io::Result<usize> {
        Err(Error::from(ErrorKind::Other))
    }

    fn flush(&mut self) -> std::io::Result<()> {
        Ok(())
    }
}

// The numbers of the calls that are to fail.
fn failing_calls(alloc: Global, calls: &[u64]) -> Result<Bytes64, OutOfMemory> {
    Ok(Bytes64::from_vec(calls.to_vec(alloc)?))
}

fn failing_sink(alloc: Global, calls: &[u64]) -> Result<MemSink, OutOfMemory> {
    Ok(MemSink::new(alloc, failing_calls(alloc, calls)?))
}

// What a source gives in pieces of at most `most` bytes, up to its end.
fn read_whole<R: Abort + AllocGlobal, S: Source>(
    rt: &R,
    source: &mut S,
    most: usize,
) -> Result<Bytes, OutOfMemory> {
    let mut whole = Bytes::new(rt.alloc());
    let mut piece = [0; 5];
    for _ in 0..100 {
        let count = source.read(&mut piece).expect(rt, "a read");
        assert!(rt; count <= most && count <= 5);
        if count == 0 {
            return Ok(whole);
        }
        whole.append(rt.alloc(), &piece[..count])?;
    }
    assert!(rt; false, "the source has no end");
    Ok(whole)
}

#[test]
fn a_source_in_memory_gives_its_bytes_in_pieces(rt: HostRuntime) -> Result<(), Fail> {
    for most in [1, 2, 7] {
        let bytes = Bytes::of(rt.alloc(), TEXT)?;
        let mut source = MemSource::new(bytes, most, Bytes64::new(rt.alloc()));
        let whole = read_whole(&rt, &mut source, most)?;
        assert!(rt; whole.as_slice() == TEXT, "pieces of {most}");
    }
    Ok(())
}

#[test]
fn a_source_in_memory_fails_at_the_chosen_reads(rt: HostRuntime) -> Result<(), Fail> {
    let bytes = Bytes::of(rt.alloc(), b"abcd")?;
    let mut source = MemSource::new(bytes, 2, failing_calls(rt.alloc(), &[2, 4])?);
    let mut piece = [0; 2];
    for (read, bytes) in [
        (Ok(2), b"ab"),
        (Err(IoFault::Failed), b"ab"),
        (Ok(2), b"cd"),
        (Err(IoFault::Failed), b"cd"),
        (Ok(0), b"cd"),
    ] {
        assert!(rt; source.read(&mut piece) == read);
        assert!(rt; &piece == bytes);
    }
    Ok(())
}

#[test]
fn a_sink_in_memory_fails_at_the_chosen_writes(rt: HostRuntime) -> Result<(), Fail> {
    let mut sink = failing_sink(rt.alloc(), &[1, 3])?;
    for (write, taken) in [
        (Err(IoFault::Failed), b"".as_slice()),
        (Ok(2), b"ab".as_slice()),
        (Err(IoFault::Failed), b"ab".as_slice()),
        (Ok(2), b"abab".as_slice()),
    ] {
        assert!(rt; sink.write(b"ab") == write);
        assert!(rt; sink.taken() == taken);
    }
    Ok(())
}

#[test]
fn a_piece_is_put_whole_by_short_writes(rt: HostRuntime) -> Result<(), Fail> {
    for (fails, put, taken) in [
        (100, Ok(()), b"abcdefgh".as_slice()),
        (1, Err(0), b"".as_slice()),
        (3, Err(6), b"abcdef".as_slice()),
    ] {
        let mut sink = NarrowSink {
            inner: failing_sink(rt.alloc(), &[fails])?,
        };
        let fault = put.map_err(|gone| PutFault {
            gone,
            cause: IoFault::Failed,
        });
        assert!(rt;
            put_all(&mut sink, b"abcdefgh") == fault,
            "failing at {fails}"
        );
        assert!(rt; sink.inner.taken() == taken, "failing at {fails}");
    }
    Ok(())
}

#[test]
fn a_source_over_a_reader(rt: HostRuntime) -> Result<(), Fail> {
    let mut source = StdSource::new(TEXT);
    let whole = read_whole(&rt, &mut source, 5)?;
    assert!(rt; whole.as_slice() == TEXT);
    let mut broken = StdSource::new(Broken);
    assert!(rt; broken.read(&mut [0; 4]) == Err(IoFault::Failed));
    Ok(())
}

// A writer that is full takes no byte, which is a fault too.
#[test]
fn a_sink_over_a_writer(rt: HostRuntime) -> Result<(), Fail> {
    let mut room = [0; 4];
    let mut sink = StdSink::new(room.as_mut_slice());
    assert!(rt; sink.write(b"abc") == Ok(3));
    assert!(rt; sink.write(b"de") == Ok(1));
    assert!(rt; sink.write(b"e") == Err(IoFault::Failed));
    assert!(rt; &room == b"abcd");
    let mut broken = StdSink::new(Broken);
    assert!(rt; broken.write(b"a") == Err(IoFault::Failed));
    Ok(())
}
