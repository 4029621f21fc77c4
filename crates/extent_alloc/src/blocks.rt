// Blocks of pages in the order of their heads.

ghost use Rattle.std.specs.Prelude.{◌≡◌, ℕ, ◌+◌, ◌%◌, ◌^◌, ◌<◌, ◌≤◌, take, drop, length, get_or, Contains, IfSome, IfNone};
ghost use Rattle.store_model.specs.Shape.{pages_of_tier};
ghost use Rattle.store_model.specs.Space.{AreBlocks, IsFull, IsLeastFree, IsLeastOwnedTwice, end_of};
ghost use Rattle.extent_alloc.specs.Order.{AllBelow, AllFrom, AreSorted, InOrder};

/// Where a block stands among those that have it.
pub(crate) fn index_of(blocks: &[(u32, u32)], head: u32, tier: u32) -> usize
    requires { Contains blocks.now (head, tier) }
    ensures within { result < length blocks.now }
    ensures there { get_or blocks.now result (head, tier) ≡ (head, tier) }
{
    let mut at = 0;
    'searched: while blocks[at] != (head, tier) {
        at += 1;
    }
    at
}

// How many pages a block of a tier has.
fn pages_of(tier: u32) -> u32
    requires { tier ≤ 10 }
    ensures value { result ≡ pages_of_tier tier }
    ensures some { 0 < result }
    ensures most { result ≤ 1024 }
{
    1 << tier
}

// The least multiple of `step` that isn't below `x`.
fn round_up(x: u32, step: u32) -> u32
    requires step { (0 < step) × (step ≤ 1024) }
    requires x { x ≤ 2 ^ 24 }
    ensures multiple { result % step ≡ 0 }
    ensures from { x ≤ result }
    ensures least { (m : ℕ) → m % step ≡ 0 → x ≤ m → result ≤ m }
    ensures most { result ≤ 2 ^ 24 + 1024 }
{
    (x + step - 1) / step * step
}

/// A free place among blocks in order: its head, and how many of the blocks stand before it.
#[derive(Clone, Copy, Debug, PartialEq, Eq)]
pub(crate) struct Gap {
    pub(crate) head: u32,
    pub(crate) before: usize,
}

/// The least free place of a tier between and behind these blocks, among the first so many pages.
pub(crate) fn least_gap(owned: &[(u32, u32)], tier: u32, pages: u32) -> Option<Gap>
    requires tier { tier ≤ 10 }
    requires pages { pages ≤ 2 ^ 24 }
    requires blocks { AreBlocks pages owned.now }
    requires order { InOrder owned.now }
    ensures least { IfSome result (λ gap. IsLeastFree owned.now tier pages gap.head) }
    ensures before { IfSome result (λ gap. AllBelow gap.head (take gap.before owned.now)) }
    ensures behind { IfSome result (λ gap. AllFrom (end_of (gap.head, tier)) (drop gap.before owned.now)) }
    ensures within { IfSome result (λ gap. gap.before ≤ length owned.now) }
    ensures none { IfNone result (IsFull owned.now tier pages) }
{
    let size = pages_of(tier);
    let mut head = 0;
    'scanned: for i in 0..owned.len() {
        let (start, other) = owned[i];
        if head + size <= start {
            return Some(Gap { head, before: i });
        }
        head = round_up(start + pages_of(other), size);
    }
    if head + size > pages {
        return None;
    }
    Some(Gap {
        head,
        before: owned.len(),
    })
}

/// The least page that lies in two of these blocks, which stand in the order of their heads.
pub(crate) fn least_shared(blocks: &[(u32, u32)], pages: u32) -> Option<u32>
    requires pages { pages ≤ 2 ^ 24 }
    requires blocks { AreBlocks pages blocks.now }
    requires heads { AreSorted blocks.now }
    ensures shared { IfSome result (IsLeastOwnedTwice blocks.now) }
    ensures order { IfNone result (InOrder blocks.now) }
{
    let mut end = 0;
    'ordered: for i in 0..blocks.len() {
        let (head, tier) = blocks[i];
        if head < end {
            return Some(head);
        }
        end = head + pages_of(tier);
    }
    None
}
