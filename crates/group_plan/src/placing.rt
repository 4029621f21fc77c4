// The places that a request's changes take in a space.

ghost use Rattle.std.specs.Prelude.{◌≡◌, ◌≤◌, length, option_copied, option_map, IfSome, IfOk, IfErr};
ghost use Rattle.std.specs.FinMap as map;
ghost use Rattle.store_model.specs.Holds.{place_of};
ghost use Rattle.store_model.specs.Placing.{bytes_at, object_bytes, place_held, tiers_behind, tiers_of};
ghost use Rattle.store_model.specs.State.{AreAligned, IsNumber, IsState, heads_of};
ghost use Rattle.store_model.specs.Tuple.{greatest_tuple};
ghost use Rattle.blob_state.specs.Values.{extents_of};
ghost use Rattle.frame_codec.specs.Writes.{key_of_write};
ghost use Rattle.txn.specs.Requests.{need_of};
ghost use Rattle.group_plan.specs.Plans.{holding_of, holdings_by};
ghost use Rattle.group_plan.specs.Takings.{IsListed, IsTakeFault};
ghost use Rattle.group_plan.specs.Places.{AllLengthen, HasPlaced, IsPlaceRefusal, Lengthens, PlacesChange, PlacesDraft, TakesPlace, old_heads, place_of_write};

use crate::judging::Refusal;
use crate::plan::Reply;
use crate::takings::{TakeFault, Takings};
use arrayvec::ArrayVec;
use blob_base::{Key, PAGE_BYTES};
use blob_state::{BlobState, Draft, Extent, stored_bytes};
use extent_alloc::Space;
use frame_codec::{Write, Writes};
use relation::Relation;
use std::alloc::Global;
use std::marker::Model;
use tier_table::MAX_EXTENTS;
use txn::{Change, Changes};

/// Where a content lies: the heads of its extents, and the page of its tail, where it has one.
#[derive(Drop)]
pub(crate) struct Placement {
    heads: ArrayVec<u32, MAX_EXTENTS>,
    tail: Option<u32>,
}

impl Model for Placement {
    ghost use Rattle.store_model.specs.Store.{Placement as Parts};

    ghost Value = { Parts };

    ghost view = { λ place. record { heads = place.heads.items; tail = place.tail } };
}

/// What an entry writes for changes that have their places, and how many bytes the states take that it sets, and those
/// that were there.
#[derive(Drop)]
pub(crate) struct Placed {
    pub(crate) writes: Writes,
    pub(crate) added: u64,
    pub(crate) replaced: u64,
}

// The heads of these extents.
fn heads_of(extents: &[Extent]) -> ArrayVec<u32, MAX_EXTENTS>
    requires { length extents.now ≤ MAX_EXTENTS }
    ensures { result.items ≡ heads_of (extents_of extents.now) }
{
    let mut heads = ArrayVec::new();
    'copied: for i in 0..extents.len() {
        heads.push(extents[i].head);
    }
    heads
}

// Takes the place of a content with this draft, of which these extents stand already.
fn take_place(
    space: &mut Space,
    takings: &mut Takings,
    draft: &Draft,
    kept: &[Extent],
) -> Result<Placement, TakeFault>
    requires kept { length kept.now ≤ length draft.now.marks }
    requires aligned { AreAligned (heads_of (extents_of kept.now)) }
    requires listed { IsListed space.old takings.old }
    ensures takes { IfOk result (λ place. TakesPlace draft.now.size (heads_of (extents_of kept.now)) place space.old space.new takings.old takings.new) }
    ensures fault { IfErr result (IsTakeFault (tiers_behind (length kept.now) draft.now.size) space.old space.new takings.old takings.new) }
{
    draft.rules();
    let mut heads = heads_of(kept);
    takings.take_extents(space, &mut heads, draft.marks().len() as u32)?;
    let tail = takings.take_tail(space, draft.size() % PAGE_BYTES as u64 != 0)?;
    Ok(Placement { heads, tail })
}

// Takes the place of a content with this draft, and writes its state there.
fn place_draft(
    alloc: Global,
    space: &mut Space,
    takings: &mut Takings,
    key: &Key,
    draft: &Draft,
    kept: &[Extent],
    number: u64,
) -> Result<Write, TakeFault>
    requires kept { length kept.now ≤ length draft.now.marks }
    requires aligned { AreAligned (heads_of (extents_of kept.now)) }
    requires number { IsNumber number }
    requires listed { IsListed space.old takings.old }
    ensures placed { IfOk result (PlacesDraft key.now draft.now (heads_of (extents_of kept.now)) number space.old space.new takings.old takings.new) }
    ensures fault { IfErr result (IsTakeFault (tiers_behind (length kept.now) draft.now.size) space.old space.new takings.old takings.new) }
{
    draft.rules();
    let place = take_place(space, takings, draft, kept)?;
    let Ok(state) = Box::new(alloc, draft.place(&place.heads, place.tail, number)) else {
        return Err(TakeFault::OutOfMemory);
    };
    Ok(Write::Set {
        key: key.copy(),
        state,
    })
}

// The extents of a state, where there is one.
fn extents_of(old: Option<&BlobState>) -> &[Extent]
    ensures heads { heads_of (extents_of result.now) ≡ old_heads (option_copied old.entry) }
    ensures aligned { AreAligned (heads_of (extents_of result.now)) }
    ensures sound { IfSome (option_copied old.entry) IsState }
    ensures most { length result.now ≤ MAX_EXTENTS }
{
    match old {
        Some(state) => {
            state.rules();
            state.extents()
        }
        None => &[],
    }
}

// Takes the place of a change, over the state that its key has.
fn place_change(
    alloc: Global,
    space: &mut Space,
    takings: &mut Takings,
    key: &Key,
    change: &Change,
    old: Option<&BlobState>,
    number: u64,
) -> Result<Write, TakeFault>
    requires number { IsNumber number }
    requires lengthens { Lengthens (option_copied old) change.now }
    requires listed { IsListed space.old takings.old }
    ensures placed { IfOk result (PlacesChange number key.now change.now (option_map holding_of (option_copied old.entry)) space.old space.new takings.old takings.new) }
    ensures fault { IfErr result (IsTakeFault (tiers_of (need_of change.now) (option_map holding_of (option_copied old.entry))) space.old space.new takings.old takings.new) }
{
    match change {
        Change::Put { drafted } => place_draft(
            alloc,
            space,
            takings,
            key,
            drafted.draft(),
            &[],
            number,
        ),
        Change::Append { extension } => {
            extension.draft.rules();
            let kept = extents_of(old);
            place_draft(alloc, space, takings, key, &extension.draft, kept, number)
        }
        Change::Del => Ok(Write::Del { key: key.copy() }),
    }
}

// How many bytes a state takes where it is stored with this key.
fn bytes_of(key: &Key, state: &BlobState) -> u64
    ensures value { result ≡ object_bytes key.now (place_of state.now) }
    ensures most { result ≤ greatest_tuple }
{
    stored_bytes(key, state.extents().len(), state.tail()) as u64
}

// How many bytes the state takes that a write sets, and 0 where it sets none.
fn written_bytes(write: &Write) -> u64
    ensures value { result ≡ bytes_at (key_of_write write.now) (place_of_write write.now) }
    ensures most { result ≤ greatest_tuple }
{
    match write {
        Write::Set { key, state } => bytes_of(key, state),
        Write::Del { .. } => 0,
    }
}

// How many bytes the state takes that a key has, and 0 for none.
fn replaced_bytes(key: &Key, old: Option<&BlobState>) -> u64
    ensures value { result ≡ bytes_at key.now (place_held (option_map holding_of (option_copied old.entry))) }
    ensures most { result ≤ greatest_tuple }
{
    match old {
        Some(state) => bytes_of(key, state),
        None => 0,
    }
}

/// Takes the places of changes in the order of their keys, and writes them in an entry of this number. Where a key finds
/// no place, those before it stay taken.
pub(crate) fn place_all(
    alloc: Global,
    space: &mut Space,
    takings: &mut Takings,
    changes: &Changes,
    relation: &Relation,
    number: u64,
) -> Result<Placed, Refusal>
    requires few { map.len changes.now ≤ 16 }
    requires number { IsNumber number }
    requires lengthen { AllLengthen relation.now.states changes.now }
    requires listed { IsListed space.old takings.old }
    ensures placed { IfOk result (HasPlaced (holdings_by relation.now.states) number (map.entries changes.now) space.old space.new takings.old takings.new) }
    ensures refusal { IfErr result (IsPlaceRefusal (holdings_by relation.now.states) (map.entries changes.now) space.old space.new takings.old takings.new) }
{
    let mut placed = Placed {
        writes: Writes::new(alloc),
        added: 0,
        replaced: 0,
    };
    'placed: for i in 0..changes.len() {
        let (key, change) = changes.nth(i);
        let old = relation.get(key);
        let write = match place_change(alloc, space, takings, key, change, old, number) {
            Ok(write) => write,
            Err(TakeFault::NoSpace { tier }) => {
                let key = key.copy();
                return Err(Refusal::Refused {
                    reply: Reply::NoSpace { key, tier },
                });
            }
            Err(TakeFault::OutOfMemory) => return Err(Refusal::OutOfMemory),
        };
        placed.added += written_bytes(&write);
        placed.replaced += replaced_bytes(key, old);
        placed.writes.push(alloc, write)?;
    }
    Ok(placed)
}
