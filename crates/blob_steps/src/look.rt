// Looks.

/// What a look at a key shows of its content.
#[derive(Clone, Copy, Debug, PartialEq, Eq)]
pub(crate) enum Look {
    /// Its bytes.
    Get,
    /// Its size and its digest.
    Stat,
}
