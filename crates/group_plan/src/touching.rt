// Whether a request touches what entries change.

ghost use Rattle.std.specs.Prelude.{◌≡◌};
ghost use Rattle.std.specs.FinMap as fin;
ghost use Rattle.std.specs.List.{list_any};
ghost use Rattle.store_model.specs.Group.{does_touch, is_among};
ghost use Rattle.txn.specs.Requests.{asked_of};
ghost use Rattle.group_plan.specs.Touches.{entry_keys, write_keys};

use blob_base::{Key, KeyList};
use frame_codec::{Entries, Writes};
use txn::Request;

// Whether one of these writes is of this key.
fn is_written(writes: &Writes, key: &Key) -> bool
    ensures { result ≡ is_among key.now (write_keys writes.now) }
{
    'looked: for i in 0..writes.len() {
        if key == writes.get(i).key() {
            return true;
        }
    }
    false
}

// Whether one of these entries writes this key.
fn is_changed(entries: &Entries, key: &Key) -> bool
    ensures { result ≡ is_among key.now (entry_keys entries.now) }
{
    'looked: for i in 0..entries.len() {
        if is_written(&entries.get(i).writes, key) {
            return true;
        }
    }
    false
}

// Whether one of these entries writes one of the list's keys.
fn is_any_changed<V>(entries: &Entries, list: &KeyList<V>) -> bool
    ensures { result ≡ list_any (λ one. is_among one.0 (entry_keys entries.now)) (fin.entries list.now) }
{
    'looked: for i in 0..list.len() {
        let (key, _) = list.nth(i);
        if is_changed(entries, key) {
            return true;
        }
    }
    false
}

/// Whether a request reads or changes a key that one of these entries writes.
pub(crate) fn does_touch(entries: &Entries, request: &Request) -> bool
    ensures { result ≡ does_touch (asked_of request.now) (entry_keys entries.now) }
{
    is_any_changed(entries, &request.reads) || is_any_changed(entries, &request.writes)
}
