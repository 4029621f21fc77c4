// Ends over memory, which fail at chosen calls. Calls are counted from 1.

ghost use Rattle.std.specs.Prelude.{◌≡◌, ◌+◌, ◌-◌, ◌^◌, ◌<◌, ◌≤◌, [], min, true, false, Some, length, drop, Contains, ◌↔◌, IfOk, IsTrue};

use crate::{Sink, Source};
use blob_base::{Bytes, Bytes64, IoFault};
use std::alloc::Global;

// One more, and no more at the type's end.
fn next_count(count: u64) -> u64
    ensures { result ≡ min (count + 1) (2 ^ 64 - 1) }
{
    count.saturating_add(1)
}

// Whether the call of this number is to fail.
fn is_to_fail(fails: &Bytes64, call: u64) -> bool
    ensures { IsTrue result ↔ Contains fails.now call }
{
    fails.as_slice().contains(&call)
}

/// A source over bytes in memory. It tells what is left, and is frugal.
#[derive(Drop)]
pub struct MemSource {
    bytes: Bytes,
    given: usize,
    piece: usize,
    fails: Bytes64,
    calls: u64,
    faults: u64,
    ghost some: { 0 < piece },
    ghost within: { given ≤ length bytes },
}

impl MemSource {
    ghost use Rattle.io_ends.specs.Memory.{source_left, source_faults};

    /// A source of these bytes that gives at most `piece` bytes a read, and fails at the reads of these numbers.
    pub fn new(bytes: Bytes, piece: usize, fails: Bytes64) -> MemSource
        requires { 0 < piece }
        ensures left { source_left result ≡ bytes }
        ensures piece { result.piece ≡ piece }
        ensures chosen { result.fails ≡ fails }
        ensures calls { result.calls ≡ 0 }
        ensures faults { source_faults result ≡ 0 }
    {
        MemSource {
            bytes,
            given: 0,
            piece,
            fails,
            calls: 0,
            faults: 0,
        }
    }
}

impl Source for MemSource {
    ghost use Rattle.std.specs.Io.KnownBytes.{ReadConsumes};
    ghost use Rattle.blob_base.specs.Faults.{HasCause, KeepsEnd};
    ghost use Rattle.io_ends.specs.Memory.{ReadAsChosen, source_faults, source_frugal, source_left, source_tells};

    ghost left = { λ source. Some (drop source.given source.bytes) };

    ghost faults = { λ source. source.faults };

    ghost frugal = { λ _. true };

    fn read(&mut self, into: &mut [u8]) -> Result<usize, IoFault>
        ensures count { IfOk result (λ n. n ≡ min (min (length (source_left self.old)) self.old.piece) (length into.new)) }
        ensures bytes { ReadConsumes (source_tells self.old) (source_tells self.new) result into.new }
        ensures keeps { KeepsEnd source_faults source_frugal self.old self.new }
        ensures cause { HasCause source_faults source_frugal self.old self.new result }
        ensures chosen { ReadAsChosen self.old self.new result }
    {
        self.calls = next_count(self.calls);
        if is_to_fail(&self.fails, self.calls) {
            self.faults = next_count(self.faults);
            return Err(IoFault::Failed);
        }
        let left = self.bytes.as_slice().split_at(self.given).1;
        let count = left.len().min(self.piece).min(into.len());
        into[..count].copy_from_slice(&left[..count]);
        self.given += count;
        Ok(count)
    }
}

/// A sink that keeps what it takes in memory. It tells what it took, and isn't frugal.
#[derive(Drop)]
pub struct MemSink {
    alloc: Global,
    taken: Bytes,
    fails: Bytes64,
    calls: u64,
    faults: u64,
}

impl MemSink {
    ghost use Rattle.io_ends.specs.Memory.{sink_taken, sink_faults};

    /// An empty sink that fails at the writes of these numbers.
    pub fn new(alloc: Global, fails: Bytes64) -> MemSink
        ensures taken { sink_taken result ≡ [] }
        ensures chosen { result.fails ≡ fails }
        ensures calls { result.calls ≡ 0 }
        ensures faults { sink_faults result ≡ 0 }
    {
        MemSink {
            alloc,
            taken: Bytes::new(alloc),
            fails,
            calls: 0,
            faults: 0,
        }
    }

    /// What it took so far.
    pub fn taken(&self) -> &[u8]
        ensures { result.now ≡ sink_taken self.now }
    {
        self.taken.as_slice()
    }
}

impl Sink for MemSink {
    ghost use Rattle.std.specs.Io.KnownBytes.{WriteAppends};
    ghost use Rattle.blob_base.specs.Faults.{HasCause, KeepsEnd};
    ghost use Rattle.io_ends.specs.Memory.{WrittenAsChosen, sink_faults, sink_frugal, sink_tells};

    ghost taken = { λ sink. Some sink.taken };

    ghost faults = { λ sink. sink.faults };

    ghost frugal = { λ _. false };

    fn write(&mut self, piece: &[u8]) -> Result<usize, IoFault>
        ensures all { IfOk result (λ n. n ≡ length piece.now) }
        ensures bytes { WriteAppends (sink_tells self.old) (sink_tells self.new) result piece.now }
        ensures keeps { KeepsEnd sink_faults sink_frugal self.old self.new }
        ensures cause { HasCause sink_faults sink_frugal self.old self.new result }
        ensures chosen { WrittenAsChosen self.old self.new result }
    {
        self.calls = next_count(self.calls);
        if is_to_fail(&self.fails, self.calls) {
            self.faults = next_count(self.faults);
            return Err(IoFault::Failed);
        }
        self.taken.append(self.alloc, piece)?;
        Ok(piece.len())
    }
}
