// The two ends. Each counts its faults, and the count never falls; a call answers `Failed` only where the count rose
// in it. A frugal end never answers `OutOfMemory`. No call changes whether an end is frugal, and what an end tells
// stays told.

ghost use Rattle.std.specs.Prelude.{ℕ, Bool, List, Option, ◌<◌, ◌≤◌, length, IfOk};
ghost use Rattle.std.specs.Io.KnownBytes.{ReadConsumes, WriteAppends};
ghost use Rattle.blob_base.specs.Faults.{HasCause, KeepsEnd};

use blob_base::IoFault;

/// Where bytes come from.
pub trait Source {
    /// The bytes that are left, where the source tells them.
    ghost left: { Self → Option (List ℕ) };

    /// How often it has failed.
    ghost faults: { Self → ℕ };

    /// It never answers `OutOfMemory`.
    ghost frugal: { Self → Bool };

    /// Reads some bytes to the front of `into`, and answers how many. 0 is the end of the input.
    fn read(&mut self, into: &mut [u8]) -> Result<usize, IoFault>
        requires { 0 < length into.old }
        ensures count { IfOk result (λ n. n ≤ length into.new) }
        ensures bytes { ReadConsumes (left self.old) (left self.new) result into.new }
        ensures keeps { KeepsEnd faults frugal self.old self.new }
        ensures cause { HasCause faults frugal self.old self.new result };
}

/// Where bytes go.
pub trait Sink {
    /// The bytes that it took, where the sink tells them.
    ghost taken: { Self → Option (List ℕ) };

    /// How often it has failed.
    ghost faults: { Self → ℕ };

    /// It never answers `OutOfMemory`.
    ghost frugal: { Self → Bool };

    /// Takes some bytes of the front of `piece`, at least one, and answers how many.
    fn write(&mut self, piece: &[u8]) -> Result<usize, IoFault>
        requires { 0 < length piece.now }
        ensures some { IfOk result (λ n. 0 < n) }
        ensures count { IfOk result (λ n. n ≤ length piece.now) }
        ensures bytes { WriteAppends (taken self.old) (taken self.new) result piece.now }
        ensures keeps { KeepsEnd faults frugal self.old self.new }
        ensures cause { HasCause faults frugal self.old self.new result };
}
