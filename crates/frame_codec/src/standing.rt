// Which keys may stand behind entries and writes.

ghost use Rattle.std.specs.Prelude.{◌≡◌, map};
ghost use Rattle.store_model.specs.BodyRefusals.{keys_in, may_rise, may_stand, stands_in};
ghost use Rattle.frame_codec.specs.Values.{has_key, model_entries, model_write};

use crate::{Entries, Writes};
use blob_base::Key;

// Whether one of these writes has this key.
fn has_key(writes: &Writes, key: &Key) -> bool
    ensures { result ≡ has_key key.now writes.now }
{
    'searched: for i in 0..writes.len() {
        if key == writes.get(i).key() {
            return true;
        }
    }
    false
}

// Whether a write of one of these entries has this key.
fn have_key(entries: &Entries, key: &Key) -> bool
    ensures { result ≡ stands_in (keys_in (model_entries entries.now)) key.now }
{
    'searched: for i in 0..entries.len() {
        if has_key(&entries.get(i).writes, key) {
            return true;
        }
    }
    false
}

// Whether a key is greater than that of the last of these writes.
fn may_rise(writes: &Writes, key: &Key) -> bool
    ensures { result ≡ may_rise (map model_write writes.now) key.now }
{
    let count = writes.len();
    count == 0 || writes.get(count - 1).key() < key
}

/// Whether a key may stand behind these entries and these writes of the next one.
pub(crate) fn may_stand(before: &Entries, writes: &Writes, key: &Key) -> bool
    ensures { result ≡ may_stand (model_entries before.now) (map model_write writes.now) key.now }
{
    may_rise(writes, key) && !have_key(before, key)
}
