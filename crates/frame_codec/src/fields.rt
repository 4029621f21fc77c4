// The fields that stand before the entries of a body, and before the writes of an entry.

ghost use Rattle.std.specs.Prelude.{◌≡◌, ◌+◌, ◌<◌, ◌≤◌, length, take, drop, slice_index, IfOk, IfErr, OnOk, OnErr};
ghost use Rattle.std.specs.Int.{w64, from_be_bytes};
ghost use Rattle.store_model.specs.Field.{AreGood, IsBroken, IsFirstBroken, IsGood};
ghost use Rattle.store_model.specs.BodyRefusals.{entry_fields, front_fields, may_number, told_entries, told_kind, told_number, told_writes};
ghost use Rattle.frame_codec.specs.Fields.{count_field, entries_field, kind_field, length_field, nth_field, number_field, session_field, text_field};
ghost use Rattle.frame_codec.specs.Values.{model_entries};

use crate::Entries;
use crate::fault::BadField;
use blob_state::MAX_NUMBER;

/// What stands before the writes of an entry.
#[derive(Clone, Copy, Drop)]
pub(crate) struct EntryFront {
    pub(crate) number: u64,
    pub(crate) session: u8,
    pub(crate) nth: u64,
    pub(crate) count: u8,
}

// The bytes of the field that begins there. One that is cut short is named by its first byte.
fn field<const N: usize>(bytes: &[u8], at: usize) -> Result<&[u8; N], BadField>
    requires { at ≤ length bytes.now }
    ensures whole { OnOk result (at + N ≤ length bytes.now) }
    ensures field { IfOk result (λ field. field.now ≡ take N (drop at bytes.now)) }
    ensures short { OnErr result (length bytes.now < at + N) }
    ensures at { IfErr result (λ bad. bad.at ≡ at) }
{
    match bytes.split_at(at).1.split_first_chunk() {
        Some((field, _)) => Ok(field),
        None => Err(BadField { at }),
    }
}

// The text of a body.
fn read_text(bytes: &[u8]) -> Result<(), BadField>
    ensures good { OnOk result (IsGood bytes.now text_field) }
    ensures bad { IfErr result (λ bad. IsBroken bytes.now text_field bad.at) }
    ensures place { IfErr result (λ bad. bad.at ≤ length bytes.now) }
{
    let text: &[u8; 8] = field(bytes, 0)?;
    if text == b"BLOBFRM1" {
        Ok(())
    } else {
        Err(BadField { at: 0 })
    }
}

// The length of a body, which is that of all its bytes.
fn read_length(bytes: &[u8]) -> Result<(), BadField>
    requires { 8 ≤ length bytes.now }
    ensures good { OnOk result (IsGood bytes.now (length_field (length bytes.now))) }
    ensures bad { IfErr result (λ bad. IsBroken bytes.now (length_field (length bytes.now)) bad.at) }
    ensures place { IfErr result (λ bad. bad.at ≤ length bytes.now) }
{
    let count = u32::from_be_bytes(*field(bytes, 8)?);
    if count >= 13 && count as usize == bytes.len() {
        Ok(())
    } else {
        Err(BadField { at: 8 })
    }
}

// How many entries there are.
fn read_entry_count(bytes: &[u8]) -> Result<u8, BadField>
    requires { 12 ≤ length bytes.now }
    ensures told { IfOk result (λ count. count ≡ told_entries bytes.now) }
    ensures good { OnOk result (IsGood bytes.now entries_field) }
    ensures bad { IfErr result (λ bad. IsBroken bytes.now entries_field bad.at) }
    ensures place { IfErr result (λ bad. bad.at ≤ length bytes.now) }
{
    let [count] = *field::<1>(bytes, 12)?;
    if (1..=16).contains(&count) {
        Ok(count)
    } else {
        Err(BadField { at: 12 })
    }
}

/// How many entries a body has, which is told before them.
pub(crate) fn read_front(bytes: &[u8]) -> Result<u8, BadField>
    ensures told { IfOk result (λ count. count ≡ told_entries bytes.now) }
    ensures good { OnOk result (AreGood bytes.now (front_fields bytes.now)) }
    ensures bad { IfErr result (λ bad. IsFirstBroken bytes.now (front_fields bytes.now) bad.at) }
    ensures place { IfErr result (λ bad. bad.at ≤ length bytes.now) }
{
    read_text(bytes)?;
    read_length(bytes)?;
    read_entry_count(bytes)
}

// Whether an entry of this number may follow these.
fn may_number(entries: &Entries, number: u64) -> bool
    requires { 1 ≤ number }
    ensures { result ≡ may_number (model_entries entries.now) number }
{
    let count = entries.len();
    count == 0 || entries.get(count - 1).number == number - 1
}

// The number of the entry behind these.
fn read_number(bytes: &[u8], before: &Entries) -> Result<u64, BadField>
    ensures told { IfOk result (λ number. number ≡ told_number bytes.now) }
    ensures good { OnOk result (IsGood bytes.now (number_field (model_entries before.now))) }
    ensures bad { IfErr result (λ bad. IsBroken bytes.now (number_field (model_entries before.now)) bad.at) }
    ensures place { IfErr result (λ bad. bad.at ≤ length bytes.now) }
{
    let number = u64::from_be_bytes(*field(bytes, 0)?);
    if (1..=MAX_NUMBER).contains(&number) && may_number(before, number) {
        Ok(number)
    } else {
        Err(BadField { at: 0 })
    }
}

// The session of an entry.
fn read_session(bytes: &[u8]) -> Result<u8, BadField>
    requires { 8 ≤ length bytes.now }
    ensures told { IfOk result (λ session. session ≡ slice_index bytes.now 8) }
    ensures good { OnOk result (IsGood bytes.now session_field) }
    ensures bad { IfErr result (λ bad. IsBroken bytes.now session_field bad.at) }
    ensures place { IfErr result (λ bad. bad.at ≤ length bytes.now) }
{
    let [session] = *field::<1>(bytes, 8)?;
    if session < 16 {
        Ok(session)
    } else {
        Err(BadField { at: 8 })
    }
}

// The number of the transaction among those of its session.
fn read_nth(bytes: &[u8]) -> Result<u64, BadField>
    requires { 9 ≤ length bytes.now }
    ensures told { IfOk result (λ nth. nth ≡ from_be_bytes w64 (take 8 (drop 9 bytes.now))) }
    ensures good { OnOk result (IsGood bytes.now nth_field) }
    ensures bad { IfErr result (λ bad. IsBroken bytes.now nth_field bad.at) }
    ensures place { IfErr result (λ bad. bad.at ≤ length bytes.now) }
{
    let nth = u64::from_be_bytes(*field(bytes, 9)?);
    if nth >= 1 {
        Ok(nth)
    } else {
        Err(BadField { at: 9 })
    }
}

// How many writes an entry has.
fn read_write_count(bytes: &[u8]) -> Result<u8, BadField>
    requires { 17 ≤ length bytes.now }
    ensures told { IfOk result (λ count. count ≡ told_writes bytes.now) }
    ensures good { OnOk result (IsGood bytes.now count_field) }
    ensures bad { IfErr result (λ bad. IsBroken bytes.now count_field bad.at) }
    ensures place { IfErr result (λ bad. bad.at ≤ length bytes.now) }
{
    let [count] = *field::<1>(bytes, 17)?;
    if count <= 16 {
        Ok(count)
    } else {
        Err(BadField { at: 17 })
    }
}

/// What stands before the writes of the entry behind these.
pub(crate) fn read_entry_front(bytes: &[u8], before: &Entries) -> Result<EntryFront, BadField>
    ensures number { IfOk result (λ front. front.number ≡ told_number bytes.now) }
    ensures session { IfOk result (λ front. front.session ≡ slice_index bytes.now 8) }
    ensures nth { IfOk result (λ front. front.nth ≡ from_be_bytes w64 (take 8 (drop 9 bytes.now))) }
    ensures count { IfOk result (λ front. front.count ≡ told_writes bytes.now) }
    ensures good { OnOk result (AreGood bytes.now (entry_fields (model_entries before.now))) }
    ensures bad { IfErr result (λ bad. IsFirstBroken bytes.now (entry_fields (model_entries before.now)) bad.at) }
    ensures place { IfErr result (λ bad. bad.at ≤ length bytes.now) }
{
    let number = read_number(bytes, before)?;
    let session = read_session(bytes)?;
    let nth = read_nth(bytes)?;
    let count = read_write_count(bytes)?;
    Ok(EntryFront {
        number,
        session,
        nth,
        count,
    })
}

/// The byte that tells a write with a state, 1, or one without, 2.
pub(crate) fn read_kind(bytes: &[u8]) -> Result<u8, BadField>
    ensures told { IfOk result (λ kind. kind ≡ told_kind bytes.now) }
    ensures within { OnOk result (1 ≤ length bytes.now) }
    ensures good { IfOk result (λ kind. (1 ≤ kind) × (kind ≤ 2)) }
    ensures bad { IfErr result (λ bad. IsBroken bytes.now kind_field bad.at) }
    ensures place { IfErr result (λ bad. bad.at ≤ length bytes.now) }
{
    let [kind] = *field::<1>(bytes, 0)?;
    if kind == 1 || kind == 2 {
        Ok(kind)
    } else {
        Err(BadField { at: 0 })
    }
}
