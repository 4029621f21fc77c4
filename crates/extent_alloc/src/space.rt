// The space of a data area.

ghost use Rattle.std.specs.Prelude.{◌≡◌, ◌+◌, ◌%◌, ◌^◌, ◌≤◌, ◌∷◌, min, Contains, IfOk, OnOk, IfErr, OnErr};
ghost use Rattle.std.specs.List.Sorted.{IsPermutation};
ghost use Rattle.store_model.specs.Space.{Apart, AreBlocks, IsFull, IsLeastFree};
ghost use Rattle.extent_alloc.specs.Faults.{IsBuildFault};

use crate::blocks::{index_of, least_gap, least_shared};
use crate::{BuildFault, NoSpace};
use blob_base::{OutOfMemory, Owned};
use std::alloc::Global;
use std::marker::Model;

/// The blocks of a data area that are owned, in the order of their heads. `spare` more can be taken or given back
/// without taking memory.
#[derive(Drop)]
pub struct Space {
    owned: Vec<(u32, u32)>,
    pages: u32,
    spare: usize,
}

impl Model for Space {
    ghost use Rattle.extent_alloc.specs.Parts.{Parts, parts_of, IsSound};

    ghost Value = { Parts };

    ghost view = { parts_of };

    ghost invariant = { IsSound };
}

impl Space {
    /// The space of an area of so many pages where these blocks are owned. It fails where two of them share a page.
    pub fn build(alloc: Global, owned: &Owned, pages: u32) -> Result<Space, BuildFault>
        requires units { pages % 1024 ≡ 0 }
        requires most { pages ≤ 2 ^ 24 }
        requires blocks { AreBlocks pages owned.now }
        ensures owned { IfOk result (λ space. IsPermutation space.owned owned.now) }
        ensures apart { OnOk result (Apart owned.now) }
        ensures pages { IfOk result (λ space. space.pages ≡ pages) }
        ensures spare { IfOk result (λ space. space.spare ≡ 0) }
        ensures twice { IfErr result (IsBuildFault owned.now) }
    {
        let mut blocks = owned.as_slice().to_vec(alloc)?;
        blocks.sort()?;
        match least_shared(&blocks, pages) {
            Some(page) => Err(BuildFault::OwnedTwice { page }),
            None => Ok(Space {
                owned: blocks,
                pages,
                spare: 0,
            }),
        }
    }

    /// The rules that each space keeps.
    pub fn rules(&self)
        ensures most { self.now.pages ≤ 2 ^ 24 }
        ensures blocks { AreBlocks self.now.pages self.now.owned }
        ensures apart { Apart self.now.owned }
    {
        // They are known where a field is read.
        let _ = &self.pages;
    }

    /// How many pages the area has.
    pub fn pages(&self) -> u32
        ensures { result ≡ self.now.pages }
    {
        self.pages
    }

    /// How many more blocks can be taken or given back without taking memory.
    pub fn spare(&self) -> usize
        ensures { result ≡ self.now.spare }
    {
        self.spare
    }

    /// Makes `spare` at most `n`, and keeps the memory.
    pub fn release(&mut self, n: usize)
        ensures spare { self.new.spare ≡ min self.old.spare n }
        ensures owned { self.new.owned ≡ self.old.owned }
        ensures pages { self.new.pages ≡ self.old.pages }
    {
        if n < self.spare {
            self.spare = n;
        }
    }

    /// Makes `spare` at least `n`.
    pub fn reserve(&mut self, n: usize) -> Result<(), OutOfMemory>
        ensures spare { OnOk result (n ≤ self.new.spare) }
        ensures more { self.old.spare ≤ self.new.spare }
        ensures owned { self.new.owned ≡ self.old.owned }
        ensures pages { self.new.pages ≡ self.old.pages }
        ensures err { OnErr result (self.new ≡ self.old) }
    {
        if self.spare < n {
            self.owned.reserve(n)?;
            self.spare = n;
        }
        Ok(())
    }

    /// Takes the least free place of a tier.
    pub fn take(&mut self, tier: u32) -> Result<u32, NoSpace>
        requires tier { tier ≤ 10 }
        requires spare { 1 ≤ self.old.spare }
        ensures fit { IfOk result (λ head. IsLeastFree self.old.owned tier self.old.pages head) }
        ensures owned { IfOk result (λ head. IsPermutation self.new.owned ((head, tier) ∷ self.old.owned)) }
        ensures spare { OnOk result (self.new.spare + 1 ≡ self.old.spare) }
        ensures full { OnErr result (IsFull self.old.owned tier self.old.pages) }
        ensures tier { IfErr result (λ none. none.tier ≡ tier) }
        ensures pages { self.new.pages ≡ self.old.pages }
        ensures err { OnErr result (self.new ≡ self.old) }
    {
        let Some(gap) = least_gap(&self.owned, tier, self.pages) else {
            return Err(NoSpace { tier });
        };
        // There is room for it, since a place is spare.
        let _ = self.owned.insert(gap.before, (gap.head, tier));
        self.spare -= 1;
        Ok(gap.head)
    }

    /// Gives a block back.
    pub fn give_back(&mut self, head: u32, tier: u32)
        requires owned { Contains self.old.owned (head, tier) }
        requires spare { 1 ≤ self.old.spare }
        ensures owned { IsPermutation self.old.owned ((head, tier) ∷ self.new.owned) }
        ensures spare { self.new.spare + 1 ≡ self.old.spare }
        ensures pages { self.new.pages ≡ self.old.pages }
    {
        let at = index_of(&self.owned, head, tier);
        self.owned.remove(at);
        self.spare -= 1;
    }
}
