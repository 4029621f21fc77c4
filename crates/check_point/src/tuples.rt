// The tuples of a half, read back.

ghost use Rattle.std.specs.Prelude.{◌≡◌, ◌^◌, ◌≤◌, ◌++◌, ◌∷◌, [], length, IsTrue, IfOk, IfErr, OnOk};
ghost use Rattle.store_model.specs.HalfRefusals.{AreTuples, may_follow, rules_behind, tuples_bytes};
ghost use Rattle.store_model.specs.State.{greatest_number};
ghost use Rattle.store_model.specs.Tuple.{IsAtFront, spelling};
ghost use Rattle.store_model.specs.TupleFields.{IsBadTuple};
ghost use Rattle.check_point.specs.Tuples.{IsRefusal, model_tuples};
ghost use Rattle.check_point.specs.declared.tuples.TuplesFault.TheVariants as fault;

use blob_base::{Key, Listed, OutOfMemory};
use blob_state::{BadTuple, BlobState, Tuple, decode_key, decode_state};
use std::alloc::Global;

/// A key with its state, which has a place of its own.
#[derive(Drop)]
pub struct Keyed {
    pub key: Key,
    pub state: Box<BlobState>,
}

/// Keys with their states, in the order of the keys.
pub type Tuples = Listed<Keyed>;

/// Why tuples aren't read.
#[derive(Clone, Copy, Debug, PartialEq, Eq)]
pub(crate) enum TuplesFault {
    /// They end before their bytes do.
    EndEarly,
    /// A tuple is refused at this offset.
    BadTuple { at: u32 },
    /// There was no memory.
    OutOfMemory,
}

impl From<OutOfMemory> for TuplesFault {
    ghost from_gives = { λ _ e. e ≡ fault.OutOfMemory };

    fn from(_: OutOfMemory) -> Self {
        TuplesFault::OutOfMemory
    }
}

// Whether a key may stand behind these tuples.
fn follows(tuples: &Tuples, key: &Key) -> bool
    ensures { result ≡ may_follow (model_tuples tuples.now) key.now }
{
    if tuples.is_empty() {
        return true;
    }
    tuples.get(tuples.len() - 1).key.cmp(key).is_lt()
}

// The tuple at the front of some bytes, behind these tuples.
fn read_tuple(bytes: &[u8], tuples: &Tuples, pages: u32, last: u64) -> Result<Tuple, BadTuple>
    requires { last ≤ greatest_number }
    ensures front { IfOk result (λ tuple. IsAtFront pages bytes.now tuple.key tuple.state) }
    ensures born { IfOk result (λ tuple. tuple.state.born ≤ last) }
    ensures follows { IfOk result (λ tuple. IsTrue (may_follow (model_tuples tuples.now) tuple.key)) }
    ensures long { IfOk result (λ tuple. tuple.length ≡ length (spelling tuple.key tuple.state)) }
    ensures bad { IfErr result (λ bad. IsBadTuple (rules_behind (model_tuples tuples.now) last) pages bytes.now bad.at) }
    ensures within { IfErr result (λ bad. bad.at ≤ length bytes.now) }
{
    let key = decode_key(bytes)?;
    if follows(tuples, &key) {
        let stored = decode_state(bytes, &key, pages, 1, last)?;
        Ok(Tuple {
            key,
            state: stored.state,
            length: stored.length,
        })
    } else {
        Err(BadTuple { at: 0 })
    }
}

// Adds a tuple behind these, and gives its state a place of its own.
fn add(alloc: Global, tuples: &mut Tuples, tuple: Tuple) -> Result<(), OutOfMemory>
    ensures { OnOk result (model_tuples tuples.new ≡ model_tuples tuples.old ++ (tuple.key, tuple.state) ∷ []) }
{
    let Ok(state) = Box::new(alloc, tuple.state) else {
        return Err(OutOfMemory);
    };
    tuples.push(
        alloc,
        Keyed {
            key: tuple.key,
            state,
        },
    )
}

/// So many tuples, which take all of these bytes.
pub(crate) fn read_tuples(
    alloc: Global,
    bytes: &[u8],
    pages: u32,
    last: u64,
    count: u32,
) -> Result<Tuples, TuplesFault>
    requires long { length bytes.now ≤ 2 ^ 22 }
    requires last { last ≤ greatest_number }
    ensures are { IfOk result (λ tuples. AreTuples pages last bytes.now (model_tuples tuples)) }
    ensures count { IfOk result (λ tuples. length tuples ≡ count) }
    ensures all { IfOk result (λ tuples. tuples_bytes (model_tuples tuples) ≡ bytes.now) }
    ensures refused { IfErr result (IsRefusal pages last count bytes.now) }
{
    let mut tuples = Tuples::new(alloc);
    let mut at = 0;
    for _ in 0..count {
        let rest = bytes.split_at(at).1;
        match read_tuple(rest, &tuples, pages, last) {
            Ok(tuple) => {
                at += tuple.length;
                add(alloc, &mut tuples, tuple)?;
            }
            Err(bad) => {
                return Err(TuplesFault::BadTuple {
                    at: (at + bad.at) as u32,
                });
            }
        }
    }
    if at < bytes.len() {
        return Err(TuplesFault::EndEarly);
    }
    Ok(tuples)
}
