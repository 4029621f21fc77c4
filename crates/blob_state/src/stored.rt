// How many bytes a key and its object's state take where they are stored.

ghost use Rattle.std.specs.Prelude.{◌≡◌, ◌+◌, ◌*◌, ◌≤◌, length};
ghost use Rattle.store_model.specs.Tuple.{greatest_tuple, stored_extent, stored_fields, stored_tail};

use blob_base::Key;
use tier_table::MAX_EXTENTS;

/// The greatest number of bytes that a key and its object's state take where they are stored.
pub const MAX_TUPLE_BYTES: usize = 4717;

// How many bytes of a stored state its fields before the extents take.
pub(crate) const FIELDS_BYTES: usize = 76;

// How many bytes of a stored state an extent takes.
pub(crate) const EXTENT_BYTES: usize = 36;

// How many bytes of a stored state a tail takes.
const TAIL_BYTES: usize = 4;

/// How many bytes a key takes where it is stored with a state of so many extents and this tail.
pub fn stored_bytes(key: &Key, extents: usize, tail: Option<u32>) -> usize
    requires { extents ≤ MAX_EXTENTS }
    ensures value { result ≡ 1 + length key.now + stored_fields + stored_extent * extents + stored_tail tail }
    ensures most { result ≤ greatest_tuple }
{
    1 + key.text().len() + FIELDS_BYTES + EXTENT_BYTES * extents + tail_bytes(tail)
}

// How many bytes a tail takes.
fn tail_bytes(tail: Option<u32>) -> usize
    ensures value { result ≡ stored_tail tail }
    ensures most { result ≤ TAIL_BYTES }
{
    match tail {
        Some(_) => TAIL_BYTES,
        None => 0,
    }
}
