// The relation of a store.

ghost use Rattle.std.specs.Prelude.{◌≡◌, ◌+◌, ◌-◌, ◌<◌, ◌≤◌, ◌==◌, ◌⊎◌, None, Some, IsTrue, if◌then◌else◌, slice_get, option_copied, vec_len, vec_capacity, IfOk, OnOk, OnErr};
ghost use Rattle.std.specs.FinMap as map;
ghost use Rattle.store_model.specs.Tuple.{greatest_tuple};
ghost use Rattle.relation.specs.Parts.{blocks_by, bytes_bound, encoded_by, owned_by};
ghost use Rattle.relation.specs.Entries.{entries_of};

use crate::entries::{Entry, search};
use arrayvec::ArrayVec;
use blob_base::{Key, OutOfMemory, Owned};
use blob_state::{BlobState, StateParts};
use sha_resume::Digest;
use std::alloc::Global;
use std::marker::Model;
use std::mem;

/// States by their keys. `spare` more keys can be set without taking memory, and a state that is set stays where it is
/// until it is removed.
#[derive(Drop)]
pub struct Relation {
    // In the order of their keys.
    entries: Vec<Entry>,
    // Places for states, which have no meaning yet; there are at least as many as are spare.
    free: Vec<Box<BlobState>>,
    spare: usize,
    // How many bytes the states take where they are stored.
    bytes: u64,
}

impl Model for Relation {
    ghost use Rattle.relation.specs.Parts.{Parts, parts_of, parts_code, IsSound};

    ghost Value = { Parts };

    ghost coded = { parts_code };

    ghost view = { parts_of };

    ghost invariant = { IsSound };
}

// A state for a place that has none yet.
fn blank() -> BlobState {
    let zeros = [0; 32];
    BlobState::from_parts(StateParts {
        size: 0,
        born: 1,
        digest: Digest { bytes: zeros },
        prefix: zeros,
        extents: ArrayVec::new(),
        tail: None,
    })
}

// Adds free places until there are `n`.
fn fill(alloc: Global, free: &mut Vec<Box<BlobState>>, n: usize) -> Result<(), OutOfMemory>
    requires { n ≤ vec_capacity free.old }
    ensures filled { OnOk result (n ≤ vec_len free.new) }
    ensures most { (vec_len free.new ≤ n) ⊎ (vec_len free.new ≡ vec_len free.old) }
    ensures more { vec_len free.old ≤ vec_len free.new }
    ensures capacity { vec_capacity free.old ≤ vec_capacity free.new }
{
    'filled: while free.len() < n {
        let Ok(place) = Box::new(alloc, blank()) else {
            return Err(OutOfMemory);
        };
        let _ = free.push(place);
    }
    Ok(())
}

impl Relation {
    /// A relation without keys, which takes no memory.
    pub fn new(alloc: Global) -> Relation
        ensures states { result.states ≡ map.empty }
        ensures spare { result.spare ≡ 0 }
    {
        Relation {
            entries: Vec::new(alloc),
            free: Vec::new(alloc),
            spare: 0,
            bytes: 0,
        }
    }

    /// How many keys it has.
    pub fn len(&self) -> usize
        ensures { result ≡ map.len self.now.states }
    {
        self.entries.len()
    }

    /// Whether it has none.
    pub fn is_empty(&self) -> bool
        ensures { result ≡ (map.len self.now.states == 0) }
    {
        self.entries.len() == 0
    }

    /// How many bytes its states take where they are stored, each with its key.
    pub fn bytes(&self) -> u64
        ensures value { result ≡ encoded_by self.now.states }
        ensures few { result < bytes_bound }
    {
        self.bytes
    }

    /// The state of a key.
    pub fn get(&self, key: &Key) -> Option<&BlobState>
        ensures { option_copied result ≡ map.get self.now.states key.now }
    {
        match search(&self.entries, key) {
            Ok(at) => Some(&self.entries[at].state),
            Err(_) => None,
        }
    }

    /// The key and the state at this index, in the order of the keys.
    pub fn nth(&self, i: usize) -> (&Key, &BlobState)
        requires { i < map.len self.now.states }
        ensures { slice_get (map.entries self.now.states) i ≡ Some (result.0.now, result.1.now) }
    {
        let entry = &self.entries[i];
        (&entry.key, &entry.state)
    }

    /// Makes `spare` at least `n`.
    pub fn reserve(&mut self, alloc: Global, n: usize) -> Result<(), OutOfMemory>
        ensures spare { OnOk result (n ≤ self.new.spare) }
        ensures more { self.old.spare ≤ self.new.spare }
        ensures states { self.new.states ≡ self.old.states }
        ensures err { OnErr result (self.new ≡ self.old) }
    {
        if n <= self.spare {
            return Ok(());
        }
        self.entries.reserve(n)?;
        self.free.reserve(self.entries.len().saturating_add(n))?;
        fill(alloc, &mut self.free, n)?;
        self.spare = n;
        Ok(())
    }

    /// Sets the state of a key. Where the key isn't there, this takes a spare place.
    pub fn set(&mut self, key: Key, state: BlobState)
        requires spare { IsTrue (map.contains_key self.old.states key) ⊎ (1 ≤ self.old.spare) }
        requires bytes { encoded_by (map.insert self.old.states key state) < bytes_bound }
        ensures states { self.new.states ≡ map.insert self.old.states key state }
        ensures spare { self.new.spare
            ≡ (if map.contains_key self.old.states key then self.old.spare else self.old.spare - 1) }
        ensures bytes { encoded_by self.new.states ≤ encoded_by self.old.states + greatest_tuple }
    {
        let longer = state.encoded(&key) as u64;
        match search(&self.entries, &key) {
            Ok(at) => {
                let place = &mut self.entries[at].state;
                self.bytes = self.bytes - place.encoded(&key) as u64 + longer;
                **place = state;
            }
            Err(at) => {
                let Some(mut place) = self.free.pop() else {
                    unreachable!()
                };
                *place = state;
                // There is room for it, since a place was spare.
                let _ = self.entries.insert(at, Entry { key, state: place });
                self.spare -= 1;
                self.bytes += longer;
            }
        }
    }

    /// Takes over a state in its place, under a key that isn't there. The state isn't moved, and no spare place is taken.
    pub fn adopt(&mut self, key: Key, place: Box<BlobState>) -> Result<(), OutOfMemory>
        requires missing { map.get self.old.states key ≡ None }
        requires bytes { encoded_by (map.insert self.old.states key place.value) < bytes_bound }
        ensures states { OnOk result (self.new.states ≡ map.insert self.old.states key place.value) }
        ensures spare { self.new.spare ≡ self.old.spare }
        ensures err { OnErr result (self.new ≡ self.old) }
    {
        let Err(at) = search(&self.entries, &key) else {
            unreachable!()
        };
        // There is room for every place in both lists, so that going from one to the other takes no memory.
        self.entries.reserve(self.free.len().saturating_add(1))?;
        self.free.reserve(self.entries.len().saturating_add(1))?;
        self.bytes += place.encoded(&key) as u64;
        let _ = self.entries.insert(at, Entry { key, state: place });
        Ok(())
    }

    /// Takes a key's state out.
    pub fn remove(&mut self, key: &Key) -> Option<BlobState>
        ensures state { result ≡ map.get self.old.states key.now }
        ensures states { self.new.states ≡ map.remove self.old.states key.now }
        ensures spare { self.new.spare ≡ self.old.spare }
    {
        match search(&self.entries, key) {
            Ok(at) => {
                let mut place = self.entries.remove(at).state;
                let state = mem::replace(&mut *place, blank());
                self.bytes -= state.encoded(key) as u64;
                // There is room for it, since its entry had room.
                let _ = self.free.push(place);
                Some(state)
            }
            Err(_) => None,
        }
    }

    /// A relation with the same states, in places of their own, and none spare.
    pub fn copy(&self, alloc: Global) -> Result<Relation, OutOfMemory>
        ensures states { IfOk result (λ copy. copy.states ≡ self.now.states) }
        ensures spare { IfOk result (λ copy. copy.spare ≡ 0) }
    {
        let entries = copy_entries(alloc, &self.entries)?;
        let mut free = Vec::new(alloc);
        free.reserve(entries.len())?;
        Ok(Relation {
            entries,
            free,
            spare: 0,
            bytes: self.bytes,
        })
    }

    /// Head and tier of every extent, and of every tail's page as tier 0, in the order of the keys.
    pub fn owned(&self, alloc: Global) -> Result<Owned, OutOfMemory>
        ensures { IfOk result (λ owned. owned ≡ owned_by self.now.states) }
    {
        blocks_by(alloc, &self.entries)
    }
}

// The same entries, whose states stand in places of their own.
fn copy_entries(alloc: Global, entries: &[Entry]) -> Result<Vec<Entry>, OutOfMemory>
    ensures { IfOk result (λ copy. entries_of copy.items ≡ entries_of entries.now) }
{
    let mut copy = Vec::new(alloc);
    copy.reserve(entries.len())?;
    'copied: for i in 0..entries.len() {
        let Ok(state) = Box::new(alloc, entries[i].state.copy()) else {
            return Err(OutOfMemory);
        };
        let key = entries[i].key.copy();
        // There is room for it.
        let _ = copy.push(Entry { key, state });
    }
    Ok(copy)
}

// Head and tier of every extent and tail of these entries.
fn blocks_by(alloc: Global, entries: &[Entry]) -> Result<Owned, OutOfMemory>
    ensures { IfOk result (λ owned. owned ≡ blocks_by (entries_of entries.now)) }
{
    let mut owned = Owned::new(alloc);
    'listed: for i in 0..entries.len() {
        entries[i].state.add_owned(alloc, &mut owned)?;
    }
    Ok(owned)
}
