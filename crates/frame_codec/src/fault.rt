// Why bytes are no body.

ghost use Rattle.std.specs.Prelude.{◌≡◌, ◌+◌, ◌<◌, ◌^◌};
ghost use Rattle.frame_codec.specs.Faults.{IfBad, fault_behind};
ghost use Rattle.frame_codec.specs.declared.fault.FrameFault.TheVariants as fault;

use blob_base::OutOfMemory;

/// Why bytes are no body.
#[derive(Clone, Copy, Debug, PartialEq, Eq)]
pub enum FrameFault {
    /// `at` is the offset of the first field that is cut short or breaks its rule.
    BadBody { at: usize },
    /// There was no memory for the entries.
    OutOfMemory,
}

/// A field is cut short or breaks its rule, and is named by this offset.
#[derive(Clone, Copy, Debug, PartialEq, Eq)]
pub(crate) struct BadField {
    pub(crate) at: usize,
}

impl From<BadField> for FrameFault {
    ghost from_gives = { λ bad e. e ≡ fault.BadBody bad.at };

    fn from(bad: BadField) -> Self {
        FrameFault::BadBody { at: bad.at }
    }
}

impl From<OutOfMemory> for FrameFault {
    ghost from_gives = { λ _ e. e ≡ fault.OutOfMemory };

    fn from(_: OutOfMemory) -> Self {
        FrameFault::OutOfMemory
    }
}

impl FrameFault {
    /// The same, of bytes that stand at this offset of others.
    pub(crate) fn behind(self, at: usize) -> FrameFault
        requires { IfBad self (λ place. at + place < 2 ^ 64) }
        ensures { result ≡ fault_behind self at }
    {
        match self {
            FrameFault::BadBody { at: place } => FrameFault::BadBody { at: at + place },
            FrameFault::OutOfMemory => FrameFault::OutOfMemory,
        }
    }
}
