// A list by keys, which contracts see as a finite map.

ghost use Rattle.std.specs.Prelude.{◌≡◌, ◌==◌, ◌<◌, option_copied, slice_get, Some, MatchResult, OnOk, OnErr};
ghost use Rattle.std.specs.FinMap as map;
ghost use Rattle.store_model.specs.Key.{key_order};
ghost use Rattle.blob_base.specs.Sorted.{IsAt, WouldStand, are_sorted};

use crate::{Key, OutOfMemory};
use std::alloc::Global;
use std::cmp::Ordering;
use std::marker::Model;

/// Values by their keys, in the order of the keys. It is for few keys: an entry in the middle moves those behind it.
#[derive(Debug, Drop)]
pub struct KeyList<V> {
    entries: Vec<(Key, V)>,
}

impl<V> Model for KeyList<V> {
    ghost use Rattle.std.specs.FinMap as map;
    ghost use Rattle.std.specs.Coded.{coded_list, coded_ℕ};
    ghost use Rattle.std.proofs.Math.Dec.{T};
    ghost use Rattle.std.specs.FinMap.Entries.{is_sorted};
    ghost use Rattle.store_model.specs.Key.{key_order};

    ghost Value = { map.FinMap key_order V };

    ghost coded = { map.code (coded_list coded_ℕ) V.code };

    ghost view = { λ list. map.from_sorted list.entries.items };

    ghost invariant = { λ list. T (is_sorted key_order list.entries.items) };
}

// Where a key stands among entries in the order of their keys, or where it would.
fn search<V>(entries: &[(Key, V)], key: &Key) -> Result<usize, usize>
    requires { are_sorted entries.now }
    ensures { MatchResult result (IsAt entries.now key.now) (WouldStand entries.now key.now) }
{
    'searched: for at in 0..entries.len() {
        match entries[at].0.cmp(key) {
            Ordering::Less => {}
            Ordering::Equal => return Ok(at),
            Ordering::Greater => return Err(at),
        }
    }
    Err(entries.len())
}

impl<V> KeyList<V> {
    /// An empty list, which takes no memory.
    pub fn new(alloc: Global) -> Self
        ensures { result ≡ map.empty }
    {
        KeyList {
            entries: Vec::new(alloc),
        }
    }

    /// How many keys it has.
    pub fn len(&self) -> usize
        ensures { result ≡ map.len self.now }
    {
        self.entries.len()
    }

    /// Whether it has none.
    pub fn is_empty(&self) -> bool
        ensures { result ≡ (map.len self.now == 0) }
    {
        self.entries.len() == 0
    }

    /// The entry at this index, in the order of the keys.
    pub fn nth(&self, i: usize) -> (&Key, &V)
        requires { i < map.len self.now }
        ensures { slice_get (map.entries self.now) i ≡ Some (result.0.now, result.1.now) }
    {
        let (key, value) = &self.entries[i];
        (key, value)
    }

    /// The value of a key.
    pub fn get(&self, key: &Key) -> Option<&V>
        ensures { option_copied result ≡ map.get self.now key.now }
    {
        match search(&self.entries, key) {
            Ok(at) => Some(&self.entries[at].1),
            Err(_) => None,
        }
    }

    /// Whether it has this key.
    pub fn contains_key(&self, key: &Key) -> bool
        ensures { result ≡ map.contains_key self.now key.now }
    {
        self.get(key).is_some()
    }
}

impl<V: Drop> KeyList<V> {
    /// Sets the value of a key. Where there is no memory for it, all is as before.
    pub fn insert(&mut self, key: Key, value: V) -> Result<(), OutOfMemory>
        ensures ok { OnOk result (self.new ≡ map.insert self.old key value) }
        ensures err { OnErr result (self.new ≡ self.old) }
    {
        match search(&self.entries, &key) {
            Ok(at) => self.entries[at].1 = value,
            Err(at) => self.entries.insert(at, (key, value))?,
        }
        Ok(())
    }

    /// Takes a key's value out.
    pub fn remove(&mut self, key: &Key) -> Option<V>
        ensures value { result ≡ map.get self.old key.now }
        ensures map { self.new ≡ map.remove self.old key.now }
    {
        match search(&self.entries, key) {
            Ok(at) => Some(self.entries.remove(at).1),
            Err(_) => None,
        }
    }
}
