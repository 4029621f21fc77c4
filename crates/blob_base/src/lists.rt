// The list types: a vector that contracts see as a list.

ghost use Rattle.std.specs.Prelude.{◌≡◌, ◌<◌, ◌==◌, List, [], ◌∷◌, ◌++◌, length, slice_get, IfOk, OnOk, OnErr};
ghost use Rattle.hex.specs.Hex.{encode_lower};

use crate::{Key, OutOfMemory};
use std::alloc::Global;
use std::marker::Model;

/// A list that grows at its end.
#[derive(Debug, Drop)]
pub struct Listed<T> {
    items: Vec<T>,
}

impl<T> Model for Listed<T> {
    ghost use Rattle.std.specs.Prelude.{List};
    ghost use Rattle.std.specs.Coded.{coded_list};

    ghost Value = { List T };

    ghost coded = { coded_list T.code };

    ghost view = { λ list. list.items.items };
}

/// Bytes, as a content or a line.
pub type Bytes = Listed<u8>;

/// A word of a command line.
pub type Word = Bytes;

/// Keys, as an answer lists them.
pub type Keys = Listed<Key>;

/// Names without their relation, or relations, as an answer lists them.
pub type Names = Listed<Bytes>;

/// Numbers of 64 bits.
pub type Bytes64 = Listed<u64>;

/// Numbers of entries.
pub type Numbers = Listed<u64>;

/// Extents as head and tier, counted in pages of the data area; a tail page has tier 0.
pub type Owned = Listed<(u32, u32)>;

impl<T> Listed<T> {
    /// An empty list, which takes no memory.
    pub fn new(alloc: Global) -> Self
        ensures { result ≡ [] }
    {
        Listed {
            items: Vec::new(alloc),
        }
    }

    /// A list of these elements, which takes no memory of its own.
    pub fn from_vec(items: Vec<T>) -> Self
        ensures { result ≡ items.items }
    {
        Listed { items }
    }

    /// Its elements; it takes no memory.
    pub fn into_vec(self) -> Vec<T>
        ensures { result.items ≡ self }
    {
        self.items
    }

    /// How many elements it has.
    pub fn len(&self) -> usize
        ensures { result ≡ length self.now }
    {
        self.items.len()
    }

    /// Whether it has none.
    pub fn is_empty(&self) -> bool
        ensures { result ≡ (length self.now == 0) }
    {
        self.items.len() == 0
    }

    /// The element at this index, counted from 0.
    pub fn get(&self, i: usize) -> &T
        requires { i < length self.now }
        ensures { slice_get self.now i ≡ Some result.now }
    {
        &self.items[i]
    }

    /// Adds an element at the end.
    pub fn push(&mut self, alloc: Global, one: T) -> Result<(), OutOfMemory>
    where
        T: Drop,
        ensures ok { OnOk result (self.new ≡ self.old ++ one ∷ []) }
        ensures err { OnErr result (self.new ≡ self.old) }
    {
        // The list keeps the allocator that it was made with.
        let _ = alloc;
        self.items.push(one)?;
        Ok(())
    }

    /// Makes room for so many more elements where there is less, and then for no others. No element changes.
    pub fn reserve(&mut self, alloc: Global, more: usize) -> Result<(), OutOfMemory>
        ensures { self.new ≡ self.old }
    {
        let _ = alloc;
        self.items.reserve_exact(more)?;
        Ok(())
    }

    /// Takes the first element out; those behind it move up.
    pub fn remove_first(&mut self) -> T
        requires { 0 < length self.old }
        ensures { self.old ≡ result ∷ self.new }
    {
        self.items.remove(0)
    }

    /// The elements.
    pub fn as_slice(&self) -> &[T]
        ensures { result.now ≡ self.now }
    {
        self.items.as_slice()
    }

    /// Takes all elements out, and keeps the memory.
    pub fn clear(&mut self)
    where
        T: Drop,
        ensures { self.new ≡ [] }
    {
        self.items.clear();
    }
}

impl Listed<u8> {
    /// A copy of these bytes.
    pub fn of(alloc: Global, from: &[u8]) -> Result<Self, OutOfMemory>
        ensures { IfOk result (λ bytes. bytes ≡ from.now) }
    {
        Ok(Listed {
            items: from.to_vec(alloc)?,
        })
    }

    /// Adds these bytes at the end.
    pub fn append(&mut self, alloc: Global, more: &[u8]) -> Result<(), OutOfMemory>
        ensures ok { OnOk result (self.new ≡ self.old ++ more.now) }
        ensures err { OnErr result (self.new ≡ self.old) }
    {
        let _ = alloc;
        self.items.extend_from_slice(more)?;
        Ok(())
    }

    /// Adds two lower case hexadecimal digits for each of these bytes at the end. The digits are written where they stand.
    pub fn append_hex(&mut self, alloc: Global, bytes: &[u8]) -> Result<(), OutOfMemory>
        ensures ok { OnOk result (self.new ≡ self.old ++ encode_lower bytes.now) }
        ensures err { OnErr result (self.new ≡ self.old) }
    {
        let _ = alloc;
        let begin = self.items.len();
        let count = bytes.len().checked_mul(2).ok_or(OutOfMemory)?;
        let end = begin.checked_add(count).ok_or(OutOfMemory)?;
        self.items.resize(end, b'0')?;
        let (_, digits) = self.items.as_mut_slice().split_at_mut(begin);
        let _ = hex::encode_to_slice(bytes, digits);
        Ok(())
    }
}
