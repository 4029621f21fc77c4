// The entries of a group, made in the states, and what no state owns then, given back.

ghost use Rattle.std.specs.Prelude.{◌≡◌, ◌*◌, ◌≤◌, List, ◌++◌, length};
ghost use Rattle.std.specs.List.Sorted.{IsPermutation};
ghost use Rattle.relation.specs.Changes.{with_entries};
ghost use Rattle.store_model.specs.Space.{Block};
ghost use Rattle.vault.specs.Pours.{HasRoom};

use blob_base::Owned;
use extent_alloc::Space;
use frame_codec::{Entries, MAX_WRITES};
use relation::{Relation, apply};

/// Makes the writes of entries, in their order.
pub(crate) fn make_all(relation: &mut Relation, mut entries: Entries)
    requires spare { length entries * MAX_WRITES ≤ relation.old.spare }
    requires room { HasRoom relation.old.states entries }
    ensures states { relation.new.states ≡ with_entries relation.old.states entries }
{
    'made: while !entries.is_empty() {
        let entry = entries.remove_first();
        apply(relation, entry.writes);
    }
}

/// Gives back each of these blocks.
pub(crate) fn give_back_all(space: &mut Space, blocks: &Owned)
    requires owned { (rest : List Block) × IsPermutation space.old.owned (blocks.now ++ rest) }
    requires spare { length blocks.now ≤ space.old.spare }
    ensures owned { (rest : List Block) → IsPermutation space.old.owned (blocks.now ++ rest) → IsPermutation space.new.owned rest }
    ensures pages { space.new.pages ≡ space.old.pages }
{
    'given: for i in 0..blocks.len() {
        let (head, tier) = *blocks.get(i);
        space.give_back(head, tier);
    }
}
