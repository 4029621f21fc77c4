// The blocks that a group takes from a space.

ghost use Rattle.std.specs.Prelude.{◌≡◌, ◌+◌, ◌%◌, ◌<◌, ◌≤◌, List, [], ◌∷◌, ◌++◌, length, take, drop, is_some, vec_capacity, IfOk, OnOk, IfErr, if◌then◌else◌};
ghost use Rattle.std.specs.List.Sorted.{IsPermutation};
ghost use Rattle.store_model.specs.Places.{extent_tiers};
ghost use Rattle.store_model.specs.Shape.{pages_of_tier};
ghost use Rattle.store_model.specs.Space.{Block};
ghost use Rattle.store_model.specs.State.{AreAligned};
ghost use Rattle.group_plan.specs.Takings.{IsListed, IsTakeFault, Takes, TakesExtents, tail_list};
ghost use Rattle.group_plan.specs.declared.takings.TakeFault.TheVariants as fault;

use arrayvec::ArrayVec;
use blob_base::OutOfMemory;
use extent_alloc::{NoSpace, Space};
use std::alloc::{AllocError, Global};
use tier_table::{MAX_EXTENTS, tier};

/// Why a block isn't taken.
#[derive(Drop)]
pub(crate) enum TakeFault {
    /// No place of this tier is free.
    NoSpace { tier: u32 },
    /// There was no memory.
    OutOfMemory,
}

impl From<NoSpace> for TakeFault {
    ghost from_gives = { λ none e. e ≡ fault.NoSpace none.tier };

    fn from(none: NoSpace) -> Self {
        TakeFault::NoSpace { tier: none.tier }
    }
}

impl From<OutOfMemory> for TakeFault {
    ghost from_gives = { λ _ e. e ≡ fault.OutOfMemory };

    fn from(_: OutOfMemory) -> Self {
        TakeFault::OutOfMemory
    }
}

impl From<AllocError> for TakeFault {
    ghost from_gives = { λ _ e. e ≡ fault.OutOfMemory };

    fn from(_: AllocError) -> Self {
        TakeFault::OutOfMemory
    }
}

/// Blocks that were taken from a space, in the order in which they were, and how many more the space could take before
/// the first of them. Each can be given back without taking memory, and then the space can again take as many.
#[derive(Drop)]
pub(crate) struct Takings {
    pub(crate) blocks: Vec<(u32, u32)>,
    pub(crate) spare: usize,
}

impl Takings {
    /// No blocks of a space.
    pub(crate) fn new(alloc: Global, space: &Space) -> Takings
        ensures blocks { result.blocks.items ≡ [] }
        ensures spare { result.spare ≡ space.now.spare }
    {
        Takings {
            blocks: Vec::new(alloc),
            spare: space.spare(),
        }
    }

    // Makes room for one block more, here and in the space.
    fn make_room(&mut self, space: &mut Space) -> Result<(), OutOfMemory>
        ensures blocks { self.new.blocks.items ≡ self.old.blocks.items }
        ensures base { self.new.spare ≡ self.old.spare }
        ensures room { OnOk result (length self.new.blocks.items < vec_capacity self.new.blocks) }
        ensures owned { space.new.owned ≡ space.old.owned }
        ensures pages { space.new.pages ≡ space.old.pages }
        ensures more { space.old.spare ≤ space.new.spare }
        ensures spare { OnOk result (self.new.spare + length self.new.blocks.items + 2 ≤ space.new.spare) }
    {
        self.blocks.reserve(1)?;
        let Some(spare) = self.spare.checked_add(self.blocks.len() + 2) else {
            return Err(OutOfMemory);
        };
        space.reserve(spare)
    }

    // Takes the least free place of a tier.
    fn take(&mut self, space: &mut Space, tier: u32) -> Result<u32, TakeFault>
        requires tier { tier ≤ 10 }
        requires listed { IsListed space.old self.old }
        ensures takes { IfOk result (λ head. Takes (tier ∷ []) (head ∷ []) space.old space.new self.old self.new) }
        ensures aligned { IfOk result (λ head. head % pages_of_tier tier ≡ 0) }
        ensures fault { IfErr result (IsTakeFault (tier ∷ []) space.old space.new self.old self.new) }
    {
        self.make_room(space)?;
        let head = space.take(tier)?;
        // There is room for it.
        let _ = self.blocks.push((head, tier));
        Ok(head)
    }

    /// Takes a place for each extent behind those that have a head, up to so many extents.
    pub(crate) fn take_extents(
        &mut self,
        space: &mut Space,
        heads: &mut ArrayVec<u32, MAX_EXTENTS>,
        extents: u32,
    ) -> Result<(), TakeFault>
        requires most { extents ≤ MAX_EXTENTS }
        requires kept { length heads.old.items ≤ extents }
        requires aligned { AreAligned heads.old.items }
        requires listed { IsListed space.old self.old }
        ensures takes { OnOk result (TakesExtents extents heads.old.items heads.new.items space.old space.new self.old self.new) }
        ensures fault { IfErr result (IsTakeFault (drop (length heads.old.items) (extent_tiers extents)) space.old space.new self.old self.new) }
    {
        'taken: for i in heads.len() as u32..extents {
            heads.push(self.take(space, tier(i))?);
        }
        Ok(())
    }

    /// Takes a page for a tail, where there is one.
    pub(crate) fn take_tail(
        &mut self,
        space: &mut Space,
        has_tail: bool,
    ) -> Result<Option<u32>, TakeFault>
        requires listed { IsListed space.old self.old }
        ensures takes { IfOk result (λ tail. Takes (if has_tail then 0 ∷ [] else []) (tail_list tail) space.old space.new self.old self.new) }
        ensures there { IfOk result (λ tail. is_some tail ≡ has_tail) }
        ensures fault { IfErr result (IsTakeFault (if has_tail then 0 ∷ [] else []) space.old space.new self.old self.new) }
    {
        if has_tail {
            Ok(Some(self.take(space, 0)?))
        } else {
            Ok(None)
        }
    }

    /// Gives the blocks back behind the first so many.
    pub(crate) fn give_back_from(&mut self, space: &mut Space, kept: usize)
        requires kept { kept ≤ length self.old.blocks.items }
        requires owned { (rest : List Block) × IsPermutation space.old.owned (self.old.blocks.items ++ rest) }
        requires listed { IsListed space.old self.old }
        ensures left { self.new.blocks.items ≡ take kept self.old.blocks.items }
        ensures spare { self.new.spare ≡ self.old.spare }
        ensures owned { (rest : List Block) → IsPermutation space.old.owned (self.old.blocks.items ++ rest) → IsPermutation space.new.owned (take kept self.old.blocks.items ++ rest) }
        ensures pages { space.new.pages ≡ space.old.pages }
        ensures listed { IsListed space.new self.new }
    {
        'given: while self.blocks.len() > kept {
            let Some((head, tier)) = self.blocks.pop() else {
                unreachable!()
            };
            space.give_back(head, tier);
        }
    }
}
