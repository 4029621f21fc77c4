// A write of an entry, read back.

ghost use Rattle.std.specs.Prelude.{◌≤◌, length, map, IsTrue, IfOk, IfErr};
ghost use Rattle.store_model.specs.BodyRefusals.{IsBadWrite, may_stand, write_rules};
ghost use Rattle.store_model.specs.Field.{IsFirstBroken};
ghost use Rattle.store_model.specs.State.{IsNumber};
ghost use Rattle.store_model.specs.Tuple.{IsKeyAtFront};
ghost use Rattle.store_model.specs.TupleFields.{IsBadState, ruled_key_fields, told_key};
ghost use Rattle.frame_codec.specs.Faults.{IfBad};
ghost use Rattle.frame_codec.specs.Reading.{IsSetRead, IsWriteRead};
ghost use Rattle.frame_codec.specs.Values.{model_entries, model_write};

use crate::fault::BadField;
use crate::fields::read_kind;
use crate::standing::may_stand;
use crate::{Entries, FrameFault, Write, Writes};
use blob_base::Key;
use blob_state::{decode_key, decode_state};
use std::alloc::Global;

/// A write, and how many bytes it takes.
#[derive(Drop)]
pub(crate) struct StoredWrite {
    pub(crate) one: Write,
    pub(crate) length: usize,
}

// The key at the front of some bytes, which may stand behind these entries and these writes of the next one.
fn read_key(bytes: &[u8], before: &Entries, writes: &Writes) -> Result<Key, BadField>
    ensures front { IfOk result (λ key. IsKeyAtFront bytes.now key) }
    ensures may { IfOk result (λ key. IsTrue (may_stand (model_entries before.now) (map model_write writes.now) key)) }
    ensures bad { IfErr result (λ bad. IsFirstBroken bytes.now
        (ruled_key_fields (may_stand (model_entries before.now) (map model_write writes.now)) (told_key bytes.now)) bad.at) }
    ensures place { IfErr result (λ bad. bad.at ≤ length bytes.now) }
{
    match decode_key(bytes) {
        Ok(key) => {
            if may_stand(before, writes, &key) {
                Ok(key)
            } else {
                Err(BadField { at: 0 })
            }
        }
        Err(bad) => Err(BadField { at: bad.at }),
    }
}

// The write of a state by the entry of this number, which stands behind its key.
fn read_set(
    alloc: Global,
    bytes: &[u8],
    key: Key,
    pages: u32,
    number: u64,
) -> Result<StoredWrite, FrameFault>
    requires key { IsKeyAtFront bytes.now key }
    requires number { IsNumber number }
    ensures set { IfOk result (λ read. IsSetRead pages number bytes.now key read.one read.length) }
    ensures bad { IfErr result (λ fault. IfBad fault (IsBadState number number pages bytes.now)) }
    ensures place { IfErr result (λ fault. IfBad fault (λ place. place ≤ length bytes.now)) }
{
    match decode_state(bytes, &key, pages, number, number) {
        Ok(stored) => {
            let length = stored.length;
            let Ok(state) = Box::new(alloc, stored.state) else {
                return Err(FrameFault::OutOfMemory);
            };
            Ok(StoredWrite {
                one: Write::Set { key, state },
                length,
            })
        }
        Err(bad) => Err(FrameFault::BadBody { at: bad.at }),
    }
}

/// The write at the front of some bytes, which may stand behind these entries and these writes of the next one, of this
/// number. Anything may follow it.
pub(crate) fn read_write(
    alloc: Global,
    bytes: &[u8],
    pages: u32,
    number: u64,
    before: &Entries,
    writes: &Writes,
) -> Result<StoredWrite, FrameFault>
    requires number { IsNumber number }
    ensures read { IfOk result (λ read. IsWriteRead pages number
        (model_entries before.now) (map model_write writes.now) bytes.now (model_write read.one) read.length) }
    ensures bad { IfErr result (λ fault. IfBad fault
        (IsBadWrite (write_rules (model_entries before.now) (map model_write writes.now) number) pages bytes.now)) }
    ensures place { IfErr result (λ fault. IfBad fault (λ place. place ≤ length bytes.now)) }
{
    let kind = read_kind(bytes)?;
    let rest = bytes.split_at(1).1;
    match read_key(rest, before, writes) {
        Ok(key) => {
            if kind == 1 {
                match read_set(alloc, rest, key, pages, number) {
                    Ok(read) => Ok(StoredWrite {
                        one: read.one,
                        length: 1 + read.length,
                    }),
                    Err(fault) => Err(fault.behind(1)),
                }
            } else {
                let length = 2 + key.text().len();
                Ok(StoredWrite {
                    one: Write::Del { key },
                    length,
                })
            }
        }
        Err(bad) => Err(FrameFault::BadBody { at: 1 + bad.at }),
    }
}
