//! The table of tiers: how many pages an extent has, how many extents a content of some size takes, and where each of
//! its full pages stands.
//!
//! | tier | pages of an extent | extents | full pages up to its end |
//! |---|---|---|---|
//! | 0 | 1 | 0 to 3 | 4 |
//! | 1 | 2 | 4 to 7 | 12 |
//! | 2 | 4 | 8 to 11 | 28 |
//! | 3 | 8 | 12 to 15 | 60 |
//! | 4 | 16 | 16 to 19 | 124 |
//! | 5 | 32 | 20 to 23 | 252 |
//! | 6 | 64 | 24 to 27 | 508 |
//! | 7 | 128 | 28 to 31 | 1020 |
//! | 8 | 256 | 32 to 35 | 2044 |
//! | 9 | 512 | 36 to 39 | 4092 |
//! | 10 | 1024 | 40 to 126 | 93,180 |
#![tactic(auto)]

ghost use Rattle.std.specs.Prelude.{◌≡◌, ℕ, ◌<◌, ◌≤◌, IfOk, IfErr, OnOk};
ghost use Rattle.store_model.specs.Shape.{tier_of, pages_of_tier, held_by, greatest_size, HasShape, LiesAt, UsesExtent, pages_used};
ghost use Rattle.tier_table.specs.Values.{shape_of};

mod values;

use blob_base::PAGE_BYTES;
pub use values::{Place, Shape, TooLong};

/// The greatest size of a content, in bytes.
pub const MAX_SIZE: u64 = 381_669_375;

/// How many extents the greatest content has.
pub const MAX_EXTENTS: usize = 127;

/// How many full pages the greatest content has.
pub const MAX_PAGES: u32 = 93_180;

// How many extents each tier has, but for the last.
const TIER_EXTENTS: u32 = 4;

// The greatest tier.
const LAST_TIER: u32 = 10;

/// The tier of extent `i`.
pub fn tier(i: u32) -> u32
    requires { i < MAX_EXTENTS }
    ensures { result ≡ tier_of i }
{
    (i / TIER_EXTENTS).min(LAST_TIER)
}

// How many pages an extent of a tier has.
fn tier_pages(tier: u32) -> u32
    requires { tier ≤ LAST_TIER }
    ensures { result ≡ pages_of_tier tier }
{
    1 << tier
}

// How many pages the extents before extent `i` hold: those of its tier, and four for each page of its own in the tiers
// below, but for four.
fn held_before(i: u32) -> u32
    requires { i < MAX_EXTENTS }
    ensures { result ≡ held_by i }
{
    let tier = tier(i);
    (i + TIER_EXTENTS - TIER_EXTENTS * tier) * tier_pages(tier) - TIER_EXTENTS
}

/// Where a content's full page number `page` stands, counted from 0.
pub fn place(page: u32) -> Place
    requires { page < MAX_PAGES }
    ensures place { LiesAt page result.extent result.offset }
    ensures within { result.extent < MAX_EXTENTS }
{
    let tier = (page / TIER_EXTENTS + 1).ilog2().min(LAST_TIER);
    let pages = tier_pages(tier);
    let rest = page + TIER_EXTENTS - TIER_EXTENTS * pages;
    Place {
        extent: TIER_EXTENTS * tier + rest / pages,
        offset: rest % pages,
    }
}

// The least number of extents that hold so many full pages.
fn extents_for(full: u32) -> u32
    requires { full ≤ MAX_PAGES }
    ensures held { full ≤ held_by result }
    ensures least { (n : ℕ) → n < result → held_by n < full }
    ensures bound { result ≤ MAX_EXTENTS }
{
    if full == 0 {
        return 0;
    }
    place(full - 1).extent + 1
}

/// How many extents and full pages a content of `size` bytes takes, and how many bytes are left for its tail. It fails
/// where `size` is more than `MAX_SIZE`.
pub fn shape(size: u64) -> Result<Shape, TooLong>
    ensures fits { OnOk result (size ≤ greatest_size) }
    ensures shape { IfOk result (λ shape. HasShape size (shape_of shape)) }
    ensures bound { IfOk result (λ shape. shape.extents ≤ MAX_EXTENTS) }
    ensures too_long { IfErr result (λ _. greatest_size < size) }
    ensures size { IfErr result (λ long. long.size ≡ size) }
{
    if size > MAX_SIZE {
        return Err(TooLong { size });
    }
    let full = (size / PAGE_BYTES as u64) as u32;
    Ok(Shape {
        full,
        extents: extents_for(full),
        tail: (size % PAGE_BYTES as u64) as u32,
    })
}

/// How many pages of extent `i` a content of `size` bytes uses: all of them, or in its last extent what is left of the
/// full pages.
pub fn used(size: u64, i: u32) -> u32
    requires fits { size ≤ greatest_size }
    requires within { UsesExtent size i }
    ensures { result ≡ pages_used size i }
{
    let full = (size / PAGE_BYTES as u64) as u32;
    tier_pages(tier(i)).min(full - held_before(i))
}
