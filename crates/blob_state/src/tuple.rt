// The stored form of a key with its object's state.

ghost use Rattle.std.specs.Prelude.{◌≡◌, ◌*◌, ◌+◌, ◌++◌, ◌≤◌, length, OnOk, OnErr};
ghost use Rattle.std.specs.List.{flat_map};
ghost use Rattle.store_model.specs.Tuple.{spelling, key_spelling, fields_spelling, extent_spelling, places_spelling, state_spelling, stored_extent, stored_fields, tail_spelling};
ghost use Rattle.blob_state.specs.Values.{extent_of, extents_of};

use crate::stored::{EXTENT_BYTES, FIELDS_BYTES, MAX_TUPLE_BYTES};
use crate::{BlobState, Extent};
use blob_base::{Bytes, Key, OutOfMemory};
use byteorder::{BigEndian, ByteOrder};
use std::alloc::Global;
use tier_table::MAX_EXTENTS;

/// Appends the stored form of a key with its object's state.
pub fn encode(
    alloc: Global,
    key: &Key,
    state: &BlobState,
    out: &mut Bytes,
) -> Result<(), OutOfMemory>
    ensures ok { OnOk result (out.new ≡ out.old ++ spelling key.now state.now) }
    ensures err { OnErr result (out.new ≡ out.old) }
{
    let mut buffer = [0; MAX_TUPLE_BYTES];
    let length = state.encoded(key);
    let bytes = &mut buffer[..length];
    encode_into(key, state, bytes);
    out.append(alloc, bytes)
}

/// Writes the stored form of a key with its object's state.
pub fn encode_into(key: &Key, state: &BlobState, out: &mut [u8])
    requires { length out.old ≡ length (spelling key.now state.now) }
    ensures { out.new ≡ spelling key.now state.now }
{
    let text = key.text();
    let (front, back) = out.split_at_mut(1 + text.len());
    write_key(text, front);
    write_state(state, back);
}

fn write_key(text: &[u8], out: &mut [u8])
    requires short { length text.now ≤ 64 }
    requires room { length out.old ≡ 1 + length text.now }
    ensures { out.new ≡ key_spelling text.now }
{
    out[0] = text.len() as u8;
    out[1..].copy_from_slice(text);
}

fn write_state(state: &BlobState, out: &mut [u8])
    requires { length out.old ≡ length (state_spelling state.now) }
    ensures { out.new ≡ state_spelling state.now }
{
    let extents = state.extents.as_slice();
    let (fields, places) = out.split_at_mut(FIELDS_BYTES);
    write_fields(state, fields);
    write_places(extents, state.tail, places);
}

// Writes what stands before the extents.
fn write_fields(state: &BlobState, out: &mut [u8])
    requires { length out.old ≡ stored_fields }
    ensures { out.new ≡ fields_spelling state.now }
{
    BigEndian::write_u32(out, state.size as u32);
    BigEndian::write_u64(&mut out[4..], state.born);
    out[12..44].copy_from_slice(&state.digest.bytes);
    out[44..].copy_from_slice(&state.prefix);
}

fn write_places(extents: &[Extent], tail: Option<u32>, out: &mut [u8])
    requires most { length extents.now ≤ MAX_EXTENTS }
    requires room { length out.old ≡ stored_extent * length extents.now + length (tail_spelling tail) }
    ensures { out.new ≡ places_spelling (extents_of extents.now) tail }
{
    let (front, back) = out.split_at_mut(EXTENT_BYTES * extents.len());
    write_extents(extents, front);
    write_tail(tail, back);
}

fn write_extents(extents: &[Extent], out: &mut [u8])
    requires most { length extents.now ≤ MAX_EXTENTS }
    requires room { length out.old ≡ stored_extent * length extents.now }
    ensures { out.new ≡ flat_map extent_spelling (extents_of extents.now) }
{
    'written: for i in 0..extents.len() {
        let start = EXTENT_BYTES * i;
        write_extent(&extents[i], &mut out[start..start + EXTENT_BYTES]);
    }
}

fn write_extent(extent: &Extent, out: &mut [u8])
    requires { length out.old ≡ stored_extent }
    ensures { out.new ≡ extent_spelling (extent_of extent.now) }
{
    BigEndian::write_u32(out, extent.head);
    BigEndian::write_u32_into(&extent.mark.words, &mut out[4..]);
}

fn write_tail(tail: Option<u32>, out: &mut [u8])
    requires { length out.old ≡ length (tail_spelling tail) }
    ensures { out.new ≡ tail_spelling tail }
{
    if let Some(page) = tail {
        BigEndian::write_u32(out, page);
    }
}
