// Pages.

/// How many bytes a page has.
pub const PAGE_BYTES: usize = 4096;
