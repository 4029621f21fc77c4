// The writes of an entry, made.

ghost use Rattle.std.specs.Prelude.{◌≡◌, ◌+◌, ◌*◌, ◌<◌, ◌≤◌};
ghost use Rattle.store_model.specs.Tuple.{greatest_tuple};
ghost use Rattle.relation.specs.Changes.{bytes_limit, with_write, with_writes};
ghost use Rattle.relation.specs.Parts.{bytes_bound, encoded_by};

use crate::Relation;
use blob_base::Listed;
use frame_codec::{MAX_WRITES, Write, Writes};

// Makes a write. A state goes from its box straight to its place.
fn apply_one(relation: &mut Relation, write: Write)
    requires spare { 1 ≤ relation.old.spare }
    requires bytes { encoded_by relation.old.states + greatest_tuple < bytes_bound }
    ensures states { relation.new.states ≡ with_write relation.old.states write }
    ensures spare { relation.old.spare ≤ relation.new.spare + 1 }
    ensures bytes { encoded_by relation.new.states ≤ encoded_by relation.old.states + greatest_tuple }
{
    match write {
        Write::Set { key, state } => {
            // It is known to take few bytes where they are counted.
            let _bytes = state.encoded(&key);
            relation.set(key, Box::into_inner(state));
        }
        Write::Del { key } => {
            relation.remove(&key);
        }
    }
}

/// Makes the writes of an entry, in their order.
pub fn apply(relation: &mut Relation, writes: Writes)
    requires spare { MAX_WRITES ≤ relation.old.spare }
    requires bytes { encoded_by relation.old.states ≤ bytes_limit }
    ensures states { relation.new.states ≡ with_writes relation.old.states writes }
    ensures spare { relation.old.spare ≤ relation.new.spare + MAX_WRITES }
    ensures bytes { encoded_by relation.new.states ≤ encoded_by relation.old.states + MAX_WRITES * greatest_tuple }
{
    let mut left = Listed::from_vec(writes.into_vec());
    'made: while !left.is_empty() {
        apply_one(relation, left.remove_first());
    }
}
