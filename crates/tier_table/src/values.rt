// What the table answers.

/// What a content takes: `full` full pages, in `extents` extents, and `tail` bytes on a tail page, 0 to 4095.
#[derive(Clone, Copy, Debug, PartialEq, Eq)]
pub struct Shape {
    pub full: u32,
    pub extents: u32,
    pub tail: u32,
}

/// A full page stands in this extent, behind `offset` other pages of the extent.
#[derive(Clone, Copy, Debug, PartialEq, Eq)]
pub struct Place {
    pub extent: u32,
    pub offset: u32,
}

/// A content of `size` bytes is longer than any may be.
#[derive(Clone, Copy, Debug, PartialEq, Eq)]
pub struct TooLong {
    pub size: u64,
}
