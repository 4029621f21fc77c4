// The lines of a script, one by one.

ghost use Rattle.std.specs.Prelude.{◌≡◌, ◌<◌, ◌≤◌, ◌++◌, ◌↔◌, [], ℕ, false, length, IfOk, OnOk, IsTrue};
ghost use Rattle.std.specs.List.{before_first, after_first, position, position_or_len};
ghost use Rattle.std.specs.Io.KnownBytes.{prepend_known, IsAtEnd, Keeps};
ghost use Rattle.blob_base.specs.Faults.{CameFrom, HasCause, KeepsEnd};
ghost use Rattle.blob_steps.specs.Lines.{LineTaken, NoLine, LongLine, is_line_end};
ghost use Rattle.blob_steps.specs.declared.line.LineFault.TheVariants as fault;

use blob_base::{Bytes, IoFault, OutOfMemory};
use io_ends::Source;
use std::alloc::Global;
use std::marker::Model;

const PIECE_BYTES: usize = 4096;

/// How many bytes a line may have without its end.
pub(crate) const MAX_LINE_BYTES: usize = 65_536;

/// What was found at the front of what is left of a script.
#[derive(Clone, Copy, Debug, PartialEq, Eq)]
pub(crate) enum Found {
    Line,
    LongLine,
    End,
}

/// No line was read.
#[derive(Clone, Copy, Debug, PartialEq, Eq)]
pub(crate) enum LineFault {
    /// The source answered this.
    Source { cause: IoFault },
    /// There was no memory for the line.
    OutOfMemory,
}

impl From<IoFault> for LineFault {
    ghost from_gives = { λ cause e. e ≡ fault.Source cause };

    fn from(cause: IoFault) -> Self {
        LineFault::Source { cause }
    }
}

impl From<OutOfMemory> for LineFault {
    ghost from_gives = { λ _ e. e ≡ fault.OutOfMemory };

    fn from(_: OutOfMemory) -> Self {
        LineFault::OutOfMemory
    }
}

/// Takes lines off a source, which it reads in pieces. Contracts see the bytes that it has read and not yet taken.
#[derive(Drop)]
pub(crate) struct LineReader {
    piece: [u8; PIECE_BYTES],
    from: usize,
    to: usize,
}

impl Model for LineReader {
    ghost use Rattle.std.specs.Prelude.{◌-◌, ◌≤◌, List, ℕ, take, drop};

    ghost Value = { List ℕ };

    ghost view = { λ reader. take (reader.to - reader.from) (drop reader.from reader.piece) };

    ghost invariant = { λ reader. (reader.from ≤ reader.to) × (reader.to ≤ 4096) };
}

// Where the first line end stands.
fn first_line_end(bytes: &[u8]) -> Option<usize>
    ensures { result ≡ position is_line_end bytes.now }
{
    bytes.iter().position(|byte| *byte == b'\n')
}

impl LineReader {
    pub(crate) fn new() -> LineReader
        ensures { result ≡ [] }
    {
        LineReader {
            piece: [0; PIECE_BYTES],
            from: 0,
            to: 0,
        }
    }

    // Reads the next piece where no byte is ahead. It answers whether one is then; none is at the script's end only.
    fn fill<S: Source>(&mut self, source: &mut S) -> Result<bool, IoFault>
        ensures kept { OnOk result (Keeps (prepend_known self.old (S.left source.old)) (prepend_known self.new (S.left source.new))) }
        ensures some { IfOk result (λ more. IsTrue more ↔ (0 < length self.new)) }
        ensures at_end { IfOk result (λ more. more ≡ false → IsAtEnd (prepend_known self.new (S.left source.new))) }
        ensures cause { HasCause S.faults S.frugal source.old source.new result }
        ensures keeps { KeepsEnd S.faults S.frugal source.old source.new }
    {
        if self.from < self.to {
            return Ok(true);
        }
        self.from = 0;
        self.to = 0;
        self.to = source.read(&mut self.piece)?;
        Ok(self.to > 0)
    }

    // Moves what is ahead up to the next line end behind the line, and takes that end off. It answers whether there
    // was one.
    fn take_part(&mut self, alloc: Global, line: &mut Bytes) -> Result<bool, OutOfMemory>
        ensures part { OnOk result (line.new ≡ line.old ++ before_first is_line_end self.old) }
        ensures rest { OnOk result (self.new ≡ after_first is_line_end self.old) }
        ensures found { IfOk result (λ found. IsTrue found ↔ (position_or_len is_line_end self.old < length self.old)) }
    {
        let ahead = &self.piece[self.from..self.to];
        match first_line_end(ahead) {
            Some(at) => {
                line.append(alloc, ahead.split_at(at).0)?;
                self.from += at + 1;
                Ok(true)
            }
            None => {
                line.append(alloc, ahead)?;
                self.from = self.to;
                Ok(false)
            }
        }
    }

    /// Takes the next line off the script, without its end, in place of what `line` held. After `LongLine` or an `Err`
    /// nothing is said of what is left.
    pub(crate) fn next_line<S: Source>(
        &mut self,
        alloc: Global,
        source: &mut S,
        line: &mut Bytes,
    ) -> Result<Found, LineFault>
        ensures line { result ≡ Ok Found.Line
            → LineTaken (prepend_known self.old (S.left source.old)) line.new (prepend_known self.new (S.left source.new)) }
        ensures short { result ≡ Ok Found.Line → length line.new ≤ 65536 }
        ensures end { result ≡ Ok Found.End → NoLine (prepend_known self.old (S.left source.old)) }
        ensures at_end { result ≡ Ok Found.End → IsAtEnd (prepend_known self.new (S.left source.new)) }
        ensures long { result ≡ Ok Found.LongLine → LongLine (prepend_known self.old (S.left source.old)) }
        ensures cause { (cause : IoFault) → result ≡ Err (LineFault.Source cause)
            → CameFrom cause (S.faults source.old) (S.faults source.new) (S.frugal source.old) }
        ensures keeps { KeepsEnd S.faults S.frugal source.old source.new }
    {
        line.clear();
        while line.len() <= MAX_LINE_BYTES {
            if self.fill(source)? {
                if self.take_part(alloc, line)? {
                    return Ok(if line.len() <= MAX_LINE_BYTES {
                        Found::Line
                    } else {
                        Found::LongLine
                    });
                }
            } else {
                return Ok(if line.is_empty() {
                    Found::End
                } else {
                    Found::Line
                });
            }
        }
        Ok(Found::LongLine)
    }
}
