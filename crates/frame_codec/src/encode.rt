// The stored form of the entries that are written together.

ghost use Rattle.std.specs.Prelude.{◌≡◌, ◌*◌, ◌≤◌, ◌++◌, length, IfOk, OnOk};
ghost use Rattle.std.specs.Int.{w32, w64, to_be_bytes};
ghost use Rattle.store_model.specs.Frame.{body_spelling, entries_spelling, entry_spelling, write_spelling};
ghost use Rattle.frame_codec.specs.Values.{model_entries, model_entry, model_write};

use crate::{Entries, Entry, MAX_WRITES, Write};
use blob_base::{Bytes, OutOfMemory};
use blob_state::{MAX_TUPLE_BYTES, encode};
use byteorder::{BigEndian, ByteOrder};
use std::alloc::Global;

// The greatest number of entries that are written together.
const MAX_ENTRIES: usize = 16;

// How many bytes stand before the entries: the text, the length and the count.
pub(crate) const BODY_FRONT: usize = 13;

// How many bytes of an entry stand before its writes.
pub(crate) const ENTRY_FRONT: usize = 18;

// The greatest number of bytes of a write.
const MAX_WRITE_BYTES: usize = 1 + MAX_TUPLE_BYTES;

// The greatest number of bytes of an entry.
const MAX_ENTRY_BYTES: usize = ENTRY_FRONT + MAX_WRITES * MAX_WRITE_BYTES;

/// The stored form of the entries that are written together.
pub fn encode_frame(alloc: Global, entries: &Entries) -> Result<Bytes, OutOfMemory>
    requires few { length entries.now ≤ 16 }
    ensures { IfOk result (λ bytes. bytes ≡ body_spelling (model_entries entries.now)) }
{
    let length = BODY_FRONT + entries_bytes(entries);
    let mut body = Bytes::new(alloc);
    body.reserve(alloc, length)?;
    body.append(alloc, b"BLOBFRM1")?;
    append_u32(alloc, length as u32, &mut body)?;
    body.push(alloc, entries.len() as u8)?;
    append_entries(alloc, entries, &mut body)?;
    Ok(body)
}

// How many bytes a write takes.
fn write_bytes(one: &Write) -> usize
    ensures value { result ≡ length (write_spelling (model_write one.now)) }
    ensures most { result ≤ MAX_WRITE_BYTES }
{
    match one {
        Write::Set { key, state } => 1 + state.encoded(key),
        Write::Del { key } => 2 + key.text().len(),
    }
}

// How many bytes an entry takes.
fn entry_bytes(entry: &Entry) -> usize
    ensures value { result ≡ length (entry_spelling (model_entry entry.now)) }
    ensures most { result ≤ MAX_ENTRY_BYTES }
{
    let writes = &entry.writes;
    let mut count = ENTRY_FRONT;
    'counted: for i in 0..writes.len() {
        count += write_bytes(writes.get(i));
    }
    count
}

// How many bytes entries take.
fn entries_bytes(entries: &Entries) -> usize
    requires few { length entries.now ≤ MAX_ENTRIES }
    ensures value { result ≡ length (entries_spelling (model_entries entries.now)) }
    ensures most { result ≤ MAX_ENTRIES * MAX_ENTRY_BYTES }
{
    let mut count = 0;
    'counted: for i in 0..entries.len() {
        count += entry_bytes(entries.get(i));
    }
    count
}

// Appends a number of four bytes.
fn append_u32(alloc: Global, n: u32, out: &mut Bytes) -> Result<(), OutOfMemory>
    ensures { OnOk result (out.new ≡ out.old ++ to_be_bytes w32 n) }
{
    let mut bytes = [0; 4];
    BigEndian::write_u32(&mut bytes, n);
    out.append(alloc, &bytes)
}

// Appends a number of eight bytes.
fn append_u64(alloc: Global, n: u64, out: &mut Bytes) -> Result<(), OutOfMemory>
    ensures { OnOk result (out.new ≡ out.old ++ to_be_bytes w64 n) }
{
    let mut bytes = [0; 8];
    BigEndian::write_u64(&mut bytes, n);
    out.append(alloc, &bytes)
}

// Appends a write: the byte 1 and the key with its state, or the byte 2 and the key.
fn append_write(alloc: Global, one: &Write, out: &mut Bytes) -> Result<(), OutOfMemory>
    ensures { OnOk result (out.new ≡ out.old ++ write_spelling (model_write one.now)) }
{
    match one {
        Write::Set { key, state } => {
            out.push(alloc, 1)?;
            encode(alloc, key, state, out)
        }
        Write::Del { key } => {
            let text = key.text();
            out.push(alloc, 2)?;
            out.push(alloc, text.len() as u8)?;
            out.append(alloc, text)
        }
    }
}

/// Appends an entry: its numbers, how many writes there are, and these.
pub fn append_entry(alloc: Global, entry: &Entry, out: &mut Bytes) -> Result<(), OutOfMemory>
    ensures { OnOk result (out.new ≡ out.old ++ entry_spelling (model_entry entry.now)) }
{
    let writes = &entry.writes;
    append_u64(alloc, entry.number, out)?;
    out.push(alloc, entry.session)?;
    append_u64(alloc, entry.nth, out)?;
    out.push(alloc, writes.len() as u8)?;
    'written: for i in 0..writes.len() {
        append_write(alloc, writes.get(i), out)?;
    }
    Ok(())
}

// Appends entries.
fn append_entries(alloc: Global, entries: &Entries, out: &mut Bytes) -> Result<(), OutOfMemory>
    ensures { OnOk result (out.new ≡ out.old ++ entries_spelling (model_entries entries.now)) }
{
    'written: for i in 0..entries.len() {
        append_entry(alloc, entries.get(i), out)?;
    }
    Ok(())
}
