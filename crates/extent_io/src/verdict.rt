// What a verification of a content finds.

/// What the bytes read for a state say of its content. Its links are numbered: one for each extent, which ends with its
/// mark, and the last, which ends with the digest.
#[derive(Clone, Copy, Debug, PartialEq, Eq)]
pub enum Verdict {
    /// Each link holds.
    Whole,
    /// This link is the first that fails: the state keeps `want`, and the bytes give `got`.
    Damaged {
        link: u32,
        want: [u8; 32],
        got: [u8; 32],
    },
}
