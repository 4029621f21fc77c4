// The states of a half, as those of a relation.

ghost use Rattle.std.specs.Prelude.{◌≡◌, ◌≤◌, IfOk};
ghost use Rattle.std.specs.FinMap.{FinMap, entries};
ghost use Rattle.check_point.specs.Tuples.{model_tuples};
ghost use Rattle.relation.specs.Changes.{bytes_limit};
ghost use Rattle.relation.specs.Parts.{encoded_by};
ghost use Rattle.store_model.specs.Key.{key_order};
ghost use Rattle.store_model.specs.State.{State};

use blob_base::OutOfMemory;
use check_point::Tuples;
use relation::Relation;
use std::alloc::Global;

/// The relation of these tuples. It takes their states over in their places, and copies none.
pub(crate) fn relation_of(alloc: Global, tuples: Tuples) -> Result<Relation, OutOfMemory>
    requires { (states : FinMap key_order State) × (entries states ≡ model_tuples tuples) × (encoded_by states ≤ bytes_limit) }
    ensures { (states : FinMap key_order State) → entries states ≡ model_tuples tuples
        → IfOk result (λ relation. relation.states ≡ states) }
{
    let mut relation = Relation::new(alloc);
    'adopted: for tuple in tuples.into_vec() {
        relation.adopt(tuple.key, tuple.state)?;
    }
    Ok(relation)
}
