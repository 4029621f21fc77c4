// Keys, the names of objects.

ghost use Rattle.std.specs.Prelude.{◌≡◌, ℕ, ◌+◌, ◌<◌, ◌≤◌, ◌++◌, ◌↔◌, length, IfErr, IsTrue, OkIff, slice_index, true, false, nat_eq, refl, Some};
ghost use Rattle.std.specs.Ordering.{nat_cmp};
ghost use Rattle.std.specs.Cmp.{partial_equiv_from_equiv};
ghost use Rattle.std.specs.Cmp.Lexicographic.{pointwise, slice_cmp, nat_list_eq_equiv, nat_list_cmp_total, texts_po, texts_ties};
ghost use Rattle.std.specs.List.{position, position_or_len};
ghost use Rattle.store_model.specs.Key.{is_key, is_key_character, is_slash, relation_of, name_of, IsBadAt};

use arrayvec::ArrayVec;
use std::cmp::Ordering;
use std::fmt;
use std::marker::Model;

const MAX_RELATION: usize = 16;

const MAX_NAME: usize = 47;

const MAX_KEY: usize = 64;

/// The name of an object: a relation of 1 to 16 characters, `/`, and a name of 1 to 47 characters. Characters are
/// `a-z`, `0-9`, `.`, `_` and `-`. Keys are ordered by their bytes.
#[derive(Drop)]
pub struct Key {
    text: ArrayVec<u8, MAX_KEY>,
}

impl Model for Key {
    ghost use Rattle.std.specs.Prelude.{List, ℕ, IsTrue};
    ghost use Rattle.store_model.specs.Key.{is_key};

    ghost Value = { List ℕ };

    ghost view = { λ key. key.text.items };

    ghost invariant = { λ key. IsTrue (is_key key.text.items) };
}

/// A text is no key. `at` is the least n for which its first n + 1 bytes begin no key, or its length where all of it
/// begins one.
#[derive(Clone, Copy, Debug, PartialEq, Eq)]
pub struct BadKey {
    pub at: usize,
}

// Whether a key may have this byte beside its slash.
fn is_key_character(byte: u8) -> bool
    ensures { result ≡ is_key_character byte }
{
    matches!(byte, b'a'..=b'z' | b'0'..=b'9' | b'.' | b'_' | b'-')
}

// How many key characters stand from this place on, up to `most`.
fn part_length(text: &[u8], from: usize, most: usize) -> usize
    requires { from ≤ length text.now }
    ensures within { from + result ≤ length text.now }
    ensures most { result ≤ most }
    ensures each { (k : ℕ) → k < result → is_key_character (slice_index text.now (from + k)) ≡ true }
    ensures last { from + result < length text.now → result < most
        → is_key_character (slice_index text.now (from + result)) ≡ false }
{
    let mut count = 0;
    while count < most && from + count < text.len() && is_key_character(text[from + count]) {
        count += 1;
    }
    count
}

// Whether a slash stands there.
fn has_slash_at(text: &[u8], at: usize) -> bool
    ensures { IsTrue result ↔ ((at < length text.now) × (slice_index text.now at ≡ 47)) }
{
    at < text.len() && text[at] == b'/'
}

// Where the first slash stands.
fn first_slash(text: &[u8]) -> Option<usize>
    ensures { result ≡ position is_slash text.now }
{
    text.iter().position(|byte| *byte == b'/')
}

impl Key {
    /// The key that a text is.
    pub fn read(text: &[u8]) -> Result<Key, BadKey>
        ensures key { OkIff result (IsTrue (is_key text.now)) text.now }
        ensures bad { IfErr result (λ bad. IsBadAt text.now bad.at) }
    {
        let relation = part_length(text, 0, MAX_RELATION);
        if relation == 0 || !has_slash_at(text, relation) {
            return Err(BadKey { at: relation });
        }
        let name = part_length(text, relation + 1, MAX_NAME);
        let end = relation + 1 + name;
        if name == 0 || end < text.len() {
            return Err(BadKey { at: end });
        }
        let mut copy = ArrayVec::new();
        copy_into(&mut copy, text);
        Ok(Key { text: copy })
    }

    /// Its bytes: the relation, `/` and the name.
    pub fn text(&self) -> &[u8]
        ensures text { result.now ≡ self.now }
        ensures key { IsTrue (is_key self.now) }
        ensures short { length self.now ≤ 64 }
    {
        self.text.as_slice()
    }

    // Where its slash stands.
    fn slash(&self) -> usize
        ensures place { result ≡ position_or_len is_slash self.now }
        ensures within { result + 2 ≤ length self.now }
    {
        first_slash(self.text.as_slice()).unwrap()
    }

    /// What stands before its slash.
    pub fn relation(&self) -> &[u8]
        ensures { result.now ≡ relation_of self.now }
    {
        &self.text.as_slice()[..self.slash()]
    }

    /// What stands after its slash.
    pub fn name(&self) -> &[u8]
        ensures { result.now ≡ name_of self.now }
    {
        &self.text.as_slice()[self.slash() + 1..]
    }

    /// The same key; it takes no memory.
    pub fn copy(&self) -> Key
        ensures { result ≡ self.now }
    {
        let mut copy = ArrayVec::new();
        copy_into(&mut copy, self.text.as_slice());
        Key { text: copy }
    }
}

// Puts the bytes behind those that are there.
fn copy_into(to: &mut ArrayVec<u8, MAX_KEY>, from: &[u8])
    requires { length to.old.items + length from.now ≤ 64 }
    ensures { to.new.items ≡ to.old.items ++ from.now }
{
    for byte in from {
        to.push(*byte);
    }
}

impl PartialEq for Key {
    ghost eq = { pointwise nat_eq };

    ghost laws = { partial_equiv_from_equiv nat_list_eq_equiv };

    fn eq(&self, other: &Self) -> bool {
        self.text.as_slice() == other.text.as_slice()
    }
}

impl Eq for Key {
    ghost laws = { nat_list_eq_equiv };
}

impl PartialOrd for Key {
    ghost partial_cmp = { λ a b. Some (slice_cmp nat_cmp a b) };

    ghost laws = { texts_po };

    fn partial_cmp(&self, other: &Self) -> Option<Ordering> {
        Some(self.cmp(other))
    }
}

impl Ord for Key {
    ghost cmp = { slice_cmp nat_cmp };

    ghost total = { nat_list_cmp_total };

    ghost matches_partial_cmp = { λ a b. refl };

    ghost matches_eq = { texts_ties };

    fn cmp(&self, other: &Self) -> Ordering {
        self.text.as_slice().cmp(other.text.as_slice())
    }
}

impl fmt::Debug for Key {
    fn fmt<W: fmt::Write>(&self, f: &mut fmt::Formatter<W>) -> fmt::Result {
        fmt::Debug::fmt(&self.text.as_slice(), f)
    }
}
