// The blocks that no state owns once changes are made.

ghost use Rattle.std.specs.Prelude.{◌≡◌, ◌++◌, option_copied, option_map, OnOk};
ghost use Rattle.std.specs.FinMap as map;
ghost use Rattle.store_model.specs.Placing.{left_blocks};
ghost use Rattle.store_model.specs.Space.{tail_blocks};
ghost use Rattle.txn.specs.Requests.{need_of};
ghost use Rattle.group_plan.specs.Plans.{holding_of, holdings_by};
ghost use Rattle.group_plan.specs.Frees.{left_by};

use blob_base::{OutOfMemory, Owned};
use blob_state::BlobState;
use relation::Relation;
use std::alloc::Global;
use txn::{Change, Changes};

// Adds the page of a tail, where there is one.
fn add_tail(alloc: Global, tail: Option<u32>, frees: &mut Owned) -> Result<(), OutOfMemory>
    ensures { OnOk result (frees.new ≡ frees.old ++ tail_blocks tail) }
{
    match tail {
        Some(page) => frees.push(alloc, (page, 0)),
        None => Ok(()),
    }
}

// Adds the blocks of a key's state, where it has one, that no state owns after a change.
fn add_left(
    alloc: Global,
    change: &Change,
    old: Option<&BlobState>,
    frees: &mut Owned,
) -> Result<(), OutOfMemory>
    ensures { OnOk result (frees.new ≡ frees.old ++ left_blocks (need_of change.now) (option_map holding_of (option_copied old.entry))) }
{
    let Some(state) = old else {
        return Ok(());
    };
    match change {
        Change::Append { .. } => add_tail(alloc, state.tail(), frees),
        Change::Put { .. } | Change::Del => state.add_owned(alloc, frees),
    }
}

/// Adds the blocks that no state owns after these changes.
pub(crate) fn add_frees(
    alloc: Global,
    changes: &Changes,
    relation: &Relation,
    frees: &mut Owned,
) -> Result<(), OutOfMemory>
    ensures { OnOk result (frees.new ≡ frees.old ++ left_by (holdings_by relation.now.states) (map.entries changes.now)) }
{
    'added: for i in 0..changes.len() {
        let (key, change) = changes.nth(i);
        add_left(alloc, change, relation.get(key), frees)?;
    }
    Ok(())
}
