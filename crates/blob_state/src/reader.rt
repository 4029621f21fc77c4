// The stored form of a key with its object's state, read back.

ghost use Rattle.std.specs.Prelude.{◌≡◌, ℕ, ◌≤◌, List, length, IfOk, IfErr, OnOk};
ghost use Rattle.store_model.specs.Field.{AreGood, IsBroken, IsFirstBroken, IsGood};
ghost use Rattle.store_model.specs.State.{State, greatest_number};
ghost use Rattle.store_model.specs.Tuple.{IsAtFront, IsKeyAtFront, spelling};
ghost use Rattle.store_model.specs.TupleFields.{IsBadState, IsBadTuple, any_tuple, key_fields, told_key};
ghost use Rattle.blob_state.specs.Reading.{length_field};

use crate::BlobState;
use crate::content::{field, read_fields};
use crate::places::{read_extents, read_tail};
use crate::state::MAX_NUMBER;
use crate::stored::{EXTENT_BYTES, FIELDS_BYTES, stored_bytes};
use arrayvec::ArrayVec;
use blob_base::Key;

/// A key with its object's state, as they stand at the front of some bytes, and how many bytes they take there.
#[derive(Drop)]
pub struct Tuple {
    pub key: Key,
    pub state: BlobState,
    pub length: usize,
}

/// The state that stands behind a key, and how many bytes the key and the state take there.
#[derive(Drop)]
pub struct StoredState {
    pub state: BlobState,
    pub length: usize,
}

/// No tuple stands there. `at` is the offset of the first field that breaks its rule or is cut short; a key that is
/// there whole and is bad is named at its first bad place.
#[derive(Clone, Copy, Debug, PartialEq, Eq)]
pub struct BadTuple {
    pub at: usize,
}

/// The key and the state that stand at the front of some bytes, where there are so many data pages. Anything may follow
/// them.
pub fn decode(bytes: &[u8], pages: u32) -> Result<Tuple, BadTuple>
    ensures front { IfOk result (λ tuple. IsAtFront pages bytes.now tuple.key tuple.state) }
    ensures length { IfOk result (λ tuple. tuple.length ≡ length (spelling tuple.key tuple.state)) }

    // No other tuple stands there.
    ensures one { IfOk result (λ tuple. (key : List ℕ) (state : State)
        → IsAtFront pages bytes.now key state → (key ≡ tuple.key) × (state ≡ tuple.state)) }
    ensures bad { IfErr result (λ bad. IsBadTuple any_tuple pages bytes.now bad.at) }
    ensures place { IfErr result (λ bad. bad.at ≤ length bytes.now) }
    ensures none { IfErr result (λ _. (key : List ℕ) (state : State) → IsAtFront pages bytes.now key state → ⊥) }
{
    let key = decode_key(bytes)?;
    let stored = decode_state(bytes, &key, pages, 1, MAX_NUMBER)?;
    Ok(Tuple {
        key,
        state: stored.state,
        length: stored.length,
    })
}

/// The key that stands at the front of some bytes, behind its length. Anything may follow it.
pub fn decode_key(bytes: &[u8]) -> Result<Key, BadTuple>
    ensures front { IfOk result (λ key. IsKeyAtFront bytes.now key) }
    ensures good { OnOk result (AreGood bytes.now (key_fields (told_key bytes.now))) }
    ensures bad { IfErr result (λ bad. IsFirstBroken bytes.now (key_fields (told_key bytes.now)) bad.at) }
    ensures place { IfErr result (λ bad. bad.at ≤ length bytes.now) }
{
    let length = read_length(bytes)?;
    let rest = bytes.split_at(1).1;
    if rest.len() < length {
        return Err(BadTuple { at: 1 });
    }
    match Key::read(rest.split_at(length).0) {
        Ok(key) => Ok(key),
        Err(bad) => Err(BadTuple { at: 1 + bad.at }),
    }
}

/// The state that stands behind its key, whose number is from `least` to `most`, where there are so many data pages.
pub fn decode_state(
    bytes: &[u8],
    key: &Key,
    pages: u32,
    least: u64,
    most: u64,
) -> Result<StoredState, BadTuple>
    requires key { IsKeyAtFront bytes.now key.now }
    requires least { 1 ≤ least }
    requires most { most ≤ greatest_number }
    ensures front { IfOk result (λ stored. IsAtFront pages bytes.now key.now stored.state) }
    ensures born { IfOk result (λ stored. (least ≤ stored.state.born) × (stored.state.born ≤ most)) }

    // The length is that of the key with the state.
    ensures length { IfOk result (λ stored. stored.length ≡ length (spelling key.now stored.state)) }
    ensures bad { IfErr result (λ bad. IsBadState least most pages bytes.now bad.at) }
    ensures place { IfErr result (λ bad. bad.at ≤ length bytes.now) }
{
    let at = 1 + key.text().len();
    let fields = read_fields(bytes, at, least, most)?;
    let prefix = fields.prefix;
    let extents_at = at + FIELDS_BYTES;
    let mut extents = ArrayVec::new();
    read_extents(bytes, extents_at, fields.extents, pages, &mut extents)?;
    let tail_at = extents_at + EXTENT_BYTES * extents.len();
    let tail = read_tail(bytes, tail_at, fields.size, pages)?;
    let length = stored_bytes(key, extents.len(), tail);
    Ok(StoredState {
        state: BlobState {
            size: fields.size,
            born: fields.born,
            digest: fields.digest,
            prefix,
            extents,
            tail,
        },
        length,
    })
}

// How many bytes the key has.
fn read_length(bytes: &[u8]) -> Result<usize, BadTuple>
    ensures told { IfOk result (λ length. length ≡ told_key bytes.now) }
    ensures good { OnOk result (IsGood bytes.now length_field) }
    ensures bad { IfErr result (λ bad. IsBroken bytes.now length_field bad.at) }
    ensures place { IfErr result (λ bad. bad.at ≤ length bytes.now) }
{
    let [length] = *field::<1>(bytes, 0)?;
    if (3..=64).contains(&length) {
        Ok(length as usize)
    } else {
        Err(BadTuple { at: 0 })
    }
}
