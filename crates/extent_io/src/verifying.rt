// Verifying a content, link by link.

ghost use Rattle.std.specs.Prelude.{◌≡◌, ◌≢◌, ℕ, ◌*◌, ◌/◌, ◌%◌, ◌<◌, ◌≤◌, List, length, min, Ok, IsTrue, IfOk, OnOk};
ghost use Rattle.disk_model.specs.Disks.{Caused, OnlyReads};
ghost use Rattle.store_model.specs.Cost.{Reads};
ghost use Rattle.store_model.specs.Disk.{Took, page_bytes};
ghost use Rattle.store_model.specs.Hash.{close, state_after};
ghost use Rattle.store_model.specs.Holds.{pages_from, place_of};
ghost use Rattle.store_model.specs.Layout.{data_page, data_pages, total_pages};
ghost use Rattle.store_model.specs.Shape.{pages_used};
ghost use Rattle.store_model.specs.Space.{AreBlocks, blocks_of};
ghost use Rattle.store_model.specs.Verify.{FailsFirst, IsDamage, LeadsTo, Verifies, computed, extent_bytes, kept, tail_on};
ghost use Rattle.extent_io.specs.Pages.{pages_of_link};
ghost use Rattle.extent_io.specs.ReadBytes.{ClosesOver, GivesOver, LeadOver};
ghost use Rattle.extent_io.specs.declared.verdict.Verdict.TheVariants.{Damaged, Whole};

use crate::links::{kept_value, last_link, mark_before, mark_value};
use crate::places::{full_pages, tail_length};
use crate::verdict::Verdict;
use blob_base::{IoFault, PAGE_BYTES};
use blob_state::BlobState;
use disk_model::{Disk, Layout};
use sha_resume::{Chain, Mark};
use tier_table::used;

/// Verifies a state's content, up to the first link that fails: hashes the used pages of each extent, from the mark before
/// them, and compares its mark, and then hashes the tail's bytes and compares the digest.
pub fn verify<D: Disk>(disk: &mut D, layout: Layout, state: &BlobState) -> Result<Verdict, IoFault>
    requires disk { total_pages layout ≤ D.size disk.old }
    requires within { AreBlocks (data_pages layout) (blocks_of (place_of state.now)) }
    ensures whole { IsTrue D.tells → result ≡ Ok Whole → Verifies (D.story disk.old).reads (data_page layout) state.now }
    ensures damaged { IsTrue D.tells → (link : ℕ) (want got : List ℕ) → result ≡ Ok (Damaged link want got)
        → FailsFirst (computed (D.story disk.old).reads (data_page layout) state.now) state.now link want got }

    // Whatever the disk tells, there are bytes that give the verdict: a content of the state's size leads to the state, or the
    // link is the first that fails over such a content.
    ensures led { result ≡ Ok Whole → (content : List ℕ) × LeadsTo content state.now }
    ensures damage { (link : ℕ) (want got : List ℕ) → result ≡ Ok (Damaged link want got) → IsDamage state.now link want got }

    // Whatever the disk tells, the link is one of the state's, `want` is what the state keeps of it, and the two values
    // are different ones.
    ensures link { (link : ℕ) (want got : List ℕ) → result ≡ Ok (Damaged link want got) → link ≤ length state.now.extents }
    ensures kept { (link : ℕ) (want got : List ℕ) → result ≡ Ok (Damaged link want got) → want ≡ kept state.now link }
    ensures differ { (link : ℕ) (want got : List ℕ) → result ≡ Ok (Damaged link want got) → want ≢ got }

    // Each page of a whole content is read once.
    ensures reads { IsTrue D.tells → result ≡ Ok Whole → Took (pages_from state.now.size 0) 0 0 (D.calls disk.old) (D.calls disk.new) }
    ensures still { IsTrue D.tells → Reads (D.calls disk.old) (D.calls disk.new) }
    ensures only_reads { OnlyReads D.Disk disk.old disk.new }
    ensures cause { Caused D.Disk disk.old disk.new result }
{
    state.rules();
    let last = last_link(state);
    for link in 0..last + 1 {
        let want = kept_value(state, link);
        let got = computed_value(disk, layout, state, link)?;
        if want != got {
            return Ok(Verdict::Damaged { link, want, got });
        }
    }
    Ok(Verdict::Whole)
}

// What the pages give for a link.
fn computed_value<D: Disk>(
    disk: &mut D,
    layout: Layout,
    state: &BlobState,
    link: u32,
) -> Result<[u8; 32], IoFault>
    requires disk { total_pages layout ≤ D.size disk.old }
    requires within { AreBlocks (data_pages layout) (blocks_of (place_of state.now)) }
    requires link { link ≤ length state.now.extents }
    ensures value { IsTrue D.tells → IfOk result (λ bytes. bytes ≡ computed (D.story disk.old).reads (data_page layout) state.now link) }
    ensures over { IfOk result (λ bytes. GivesOver state.now link bytes) }
    ensures reads { IsTrue D.tells → OnOk result (Took (pages_of_link state.now link) 0 0 (D.calls disk.old) (D.calls disk.new)) }
    ensures still { IsTrue D.tells → Reads (D.calls disk.old) (D.calls disk.new) }
    ensures only_reads { OnlyReads D.Disk disk.old disk.new }
    ensures cause { Caused D.Disk disk.old disk.new result }
{
    state.rules();
    let mark = mark_before(state, link);
    if link < last_link(state) {
        let mark = hash_extent(disk, layout, state, link, mark)?;
        return Ok(mark_value(&mark));
    }
    hash_tail(disk, layout, state, mark)
}

// The mark that the used pages of an extent lead to.
fn hash_extent<D: Disk>(
    disk: &mut D,
    layout: Layout,
    state: &BlobState,
    i: u32,
    before: Mark,
) -> Result<Mark, IoFault>
    requires disk { total_pages layout ≤ D.size disk.old }
    requires within { AreBlocks (data_pages layout) (blocks_of (place_of state.now)) }
    requires extent { i < length state.now.extents }
    ensures mark { IsTrue D.tells
        → IfOk result (λ mark. mark.words ≡ state_after before.words (extent_bytes (D.story disk.old).reads (data_page layout) state.now i)) }
    ensures over { IfOk result (λ mark. LeadOver (pages_used state.now.size i) before.words mark.words) }
    ensures reads { IsTrue D.tells → OnOk result (Took (pages_used state.now.size i) 0 0 (D.calls disk.old) (D.calls disk.new)) }
    ensures still { IsTrue D.tells → Reads (D.calls disk.old) (D.calls disk.new) }
    ensures only_reads { OnlyReads D.Disk disk.old disk.new }
    ensures cause { Caused D.Disk disk.old disk.new result }
{
    state.rules();
    layout.rules();
    let first = layout.data() + state.extents()[i as usize].head;
    let mut chain = Chain::at(before, 0);
    let mut page = [0; PAGE_BYTES];
    for number in 0..used(state.size(), i) {
        disk.read(first + number, &mut page)?;
        chain.blocks(&page);
    }
    Ok(chain.mark())
}

// The digest that the tail's bytes lead to.
fn hash_tail<D: Disk>(
    disk: &mut D,
    layout: Layout,
    state: &BlobState,
    before: Mark,
) -> Result<[u8; 32], IoFault>
    requires disk { total_pages layout ≤ D.size disk.old }
    requires within { AreBlocks (data_pages layout) (blocks_of (place_of state.now)) }
    ensures digest { IsTrue D.tells → IfOk result (λ bytes. bytes ≡ close before.words (64 * (state.now.size / page_bytes))
        (tail_on (D.story disk.old).reads (data_page layout) state.now.size state.now.tail)) }
    ensures over { IfOk result (λ bytes. ClosesOver state.now.size before.words bytes) }
    ensures reads { IsTrue D.tells → OnOk result (Took (min 1 (state.now.size % page_bytes)) 0 0 (D.calls disk.old) (D.calls disk.new)) }
    ensures still { IsTrue D.tells → Reads (D.calls disk.old) (D.calls disk.new) }
    ensures only_reads { OnlyReads D.Disk disk.old disk.new }
    ensures cause { Caused D.Disk disk.old disk.new result }
{
    state.rules();
    layout.rules();
    let length = tail_length(state);
    let chain = Chain::at(before, 64 * full_pages(state) as u64);
    let mut page = [0; PAGE_BYTES];
    match state.tail() {
        Some(at) => {
            disk.read(layout.data() + at, &mut page)?;
            Ok(chain.finish(&page[..length]).bytes)
        }
        None => Ok(chain.finish(&[]).bytes),
    }
}
