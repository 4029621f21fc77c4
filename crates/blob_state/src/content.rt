// The fields of a stored state that stand before its extents, read back.

ghost use Rattle.std.specs.Prelude.{◌≡◌, ◌==◌, ◌+◌, ◌<◌, ◌≤◌, length, take, drop, IfOk, IfErr, OnOk, OnErr};
ghost use Rattle.std.specs.Int.{w64, from_be_bytes};
ghost use Rattle.std.specs.List.{list_all};
ghost use Rattle.store_model.specs.Field.{AreGood, IsBroken, IsFirstBroken, IsGood, told_four};
ghost use Rattle.store_model.specs.State.{HasExtents};
ghost use Rattle.store_model.specs.TupleFields.{content_fields, is_filled};
ghost use Rattle.blob_state.specs.Reading.{born_field, prefix_field, size_field};

use crate::BadTuple;
use sha_resume::Digest;
use tier_table::{MAX_EXTENTS, shape};

// The fields before the extents, and how many extents the size has.
#[derive(Drop)]
pub(crate) struct Fields {
    pub(crate) size: u64,
    pub(crate) extents: u32,
    pub(crate) born: u64,
    pub(crate) digest: Digest,
    pub(crate) prefix: [u8; 32],
}

// The bytes of the field that begins there. One that is cut short is named by its first byte.
pub(crate) fn field<const N: usize>(bytes: &[u8], at: usize) -> Result<&[u8; N], BadTuple>
    requires { at ≤ length bytes.now }
    ensures whole { OnOk result (at + N ≤ length bytes.now) }
    ensures field { IfOk result (λ field. field.now ≡ take N (drop at bytes.now)) }
    ensures short { OnErr result (length bytes.now < at + N) }
    ensures at { IfErr result (λ bad. bad.at ≡ at) }
{
    match bytes.split_at(at).1.split_first_chunk() {
        Some((field, _)) => Ok(field),
        None => Err(BadTuple { at }),
    }
}

// The size, and how many extents it has.
fn read_size(bytes: &[u8], at: usize) -> Result<(u64, u32), BadTuple>
    requires { at ≤ length bytes.now }
    ensures told { IfOk result (λ read. read.0 ≡ told_four bytes.now at) }
    ensures extents { IfOk result (λ read. HasExtents read.0 read.1) }
    ensures most { IfOk result (λ read. read.1 ≤ MAX_EXTENTS) }
    ensures good { OnOk result (IsGood bytes.now (size_field at)) }
    ensures bad { IfErr result (λ bad. IsBroken bytes.now (size_field at) bad.at) }
    ensures place { IfErr result (λ bad. bad.at ≤ length bytes.now) }
{
    let size = u64::from(u32::from_be_bytes(*field(bytes, at)?));
    match shape(size) {
        Ok(shape) => Ok((size, shape.extents)),
        Err(_) => Err(BadTuple { at }),
    }
}

// The number of the entry, from `least` to `most`.
fn read_born(bytes: &[u8], at: usize, least: u64, most: u64) -> Result<u64, BadTuple>
    requires { at ≤ length bytes.now }
    ensures told { IfOk result (λ born. born ≡ from_be_bytes w64 (take 8 (drop at bytes.now))) }
    ensures good { OnOk result (IsGood bytes.now (born_field least most at)) }
    ensures bad { IfErr result (λ bad. IsBroken bytes.now (born_field least most at) bad.at) }
    ensures place { IfErr result (λ bad. bad.at ≤ length bytes.now) }
{
    let born = u64::from_be_bytes(*field(bytes, at)?);
    if (least..=most).contains(&born) {
        Ok(born)
    } else {
        Err(BadTuple { at })
    }
}

// Whether all the bytes are zeros.
fn are_zeros(bytes: &[u8]) -> bool
    ensures { result ≡ list_all (λ byte. byte == 0) bytes.now }
{
    bytes.iter().all(|byte| *byte == 0)
}

// Whether a prefix has zeros past the size.
fn is_filled(size: u64, prefix: &[u8; 32]) -> bool
    ensures { result ≡ is_filled size prefix.now }
{
    let length = size.min(prefix.len() as u64) as usize;
    are_zeros(prefix.split_at(length).1)
}

// The prefix of a content of this size.
fn read_prefix(bytes: &[u8], at: usize, size: u64) -> Result<&[u8; 32], BadTuple>
    requires { at ≤ length bytes.now }
    ensures told { IfOk result (λ prefix. prefix.now ≡ take 32 (drop at bytes.now)) }
    ensures good { OnOk result (IsGood bytes.now (prefix_field at size)) }
    ensures bad { IfErr result (λ bad. IsBroken bytes.now (prefix_field at size) bad.at) }
    ensures place { IfErr result (λ bad. bad.at ≤ length bytes.now) }
{
    let prefix = field(bytes, at)?;
    if is_filled(size, prefix) {
        Ok(prefix)
    } else {
        Err(BadTuple { at })
    }
}

// The fields before the extents, of a state whose number is from `least` to `most`.
pub(crate) fn read_fields(
    bytes: &[u8],
    at: usize,
    least: u64,
    most: u64,
) -> Result<Fields, BadTuple>
    requires { at ≤ length bytes.now }
    ensures size { IfOk result (λ fields. fields.size ≡ told_four bytes.now at) }
    ensures extents { IfOk result (λ fields. HasExtents fields.size fields.extents) }
    ensures few { IfOk result (λ fields. fields.extents ≤ MAX_EXTENTS) }
    ensures born { IfOk result (λ fields. fields.born ≡ from_be_bytes w64 (take 8 (drop (at + 4) bytes.now))) }
    ensures digest { IfOk result (λ fields. fields.digest.bytes ≡ take 32 (drop (at + 12) bytes.now)) }
    ensures prefix { IfOk result (λ fields. fields.prefix ≡ take 32 (drop (at + 44) bytes.now)) }
    ensures good { IfOk result (λ fields. AreGood bytes.now (content_fields least most at fields.size)) }
    ensures bad { IfErr result (λ bad. IsFirstBroken bytes.now (content_fields least most at (told_four bytes.now at)) bad.at) }
    ensures place { IfErr result (λ bad. bad.at ≤ length bytes.now) }
{
    let (size, extents) = read_size(bytes, at)?;
    let born = read_born(bytes, at + 4, least, most)?;
    let digest = field(bytes, at + 12)?;
    let prefix = read_prefix(bytes, at + 44, size)?;
    Ok(Fields {
        size,
        extents,
        born,
        digest: Digest { bytes: *digest },
        prefix: *prefix,
    })
}
