// A half that is written anew.

ghost use Rattle.std.specs.Prelude.{◌≡◌, ℕ, ◌+◌, ◌-◌, ◌*◌, ◌/◌, ◌<◌, ◌≤◌, List, [], ◌∷◌, ◌++◌, length, IsTrue, OnErr, OnOk};
ghost use Rattle.std.specs.FinMap.{FinMap, entries};
ghost use Rattle.disk_model.specs.Disks.{Caused, OnlyWrites};
ghost use Rattle.store_model.specs.Disk.{Took, area_of, page_bytes, page_of, zero_page};
ghost use Rattle.store_model.specs.Half.{IsHalf, SpellsHalf, header_spelling, tuples_spelling};
ghost use Rattle.store_model.specs.Images.{Within};
ghost use Rattle.store_model.specs.Key.{key_order};
ghost use Rattle.store_model.specs.Layout.{header_page, log_page, states_page, total_pages};
ghost use Rattle.store_model.specs.Log.{body_pages};
ghost use Rattle.store_model.specs.State.{State};
ghost use Rattle.store_model.specs.Tuple.{spelling};
ghost use Rattle.check_point.specs.Halves.{Stand, filled_pages, spelled};
ghost use Rattle.check_point.specs.Writers.{HasTaken, IsOfHalf};

use crate::header::header;
use crate::pages::{append, close};
use blob_base::{IoFault, Key, PAGE_BYTES};
use blob_state::{BlobState, MAX_TUPLE_BYTES, encode_into};
use disk_model::{Disk, Layout, Page};
use std::marker::Model;

/// The writer of a half. It takes the tuples one behind the other, writes each page of them that is full, and at the end
/// the last one, the header and the first gate, closed.
#[derive(Drop)]
pub struct HalfWriter {
    layout: Layout,
    half: u32,
    last: u64,
    count: u32,
    taken: u32,
    page: Page,
}

impl Model for HalfWriter {
    ghost use Rattle.check_point.specs.Writers.{Parts, parts_of, IsSound};

    ghost Value = { Parts };

    ghost view = { parts_of };

    ghost invariant = { IsSound };
}

impl HalfWriter {
    /// The writer of a half that has taken no tuple. Its header will tell this last number.
    pub fn start(layout: Layout, half: u32, last: u64) -> HalfWriter
        requires { half < 2 }
        ensures parts { result ≡ record { layout = layout; half = half; last = last; count = 0; taken = 0; page = zero_page } }
        ensures none { HasTaken result [] }
    {
        HalfWriter {
            layout,
            half,
            last,
            count: 0,
            taken: 0,
            page: [0; PAGE_BYTES],
        }
    }

    /// Takes a tuple, and writes each page that is full then. After a fault some of these pages may have been written, the
    /// last of them may read as any bytes, and the writer is as before.
    pub fn put<D: Disk>(
        &mut self,
        disk: &mut D,
        key: &Key,
        state: &BlobState,
    ) -> Result<(), IoFault>
        requires disk { total_pages self.old.layout ≤ D.size disk.old }
        requires room { self.old.taken + length (spelling key.now state.now) ≤ page_bytes * self.old.layout.room }
        ensures tuples { (tuples : List (List ℕ × State)) → HasTaken self.old tuples
            → OnOk result (HasTaken self.new (tuples ++ (key.now, state.now) ∷ [])) }
        ensures taken { OnOk result (self.new.taken ≡ self.old.taken + length (spelling key.now state.now)) }

        // The full pages of the tuples stand in the area of the states.
        ensures reads { IsTrue D.tells → (tuples : List (List ℕ × State)) → HasTaken self.old tuples
            → Stand (states_page self.old.layout self.old.half) (self.old.taken / page_bytes) (spelled tuples) (D.story disk.old).reads
            → OnOk result (Stand (states_page self.old.layout self.old.half) (self.new.taken / page_bytes)
            (spelled (tuples ++ (key.now, state.now) ∷ [])) (D.story disk.new).reads) }

        // What else the writer has is kept, and after a fault all that it has.
        ensures untaken { OnErr result (self.new ≡ self.old) }
        ensures layout { self.new.layout ≡ self.old.layout }
        ensures half { self.new.half ≡ self.old.half }
        ensures last { self.new.last ≡ self.old.last }

        // No other page has changed, and a crash leaves each other page as before.
        ensures wrote { OnlyWrites D.Disk (Within (states_page self.old.layout self.old.half) self.old.layout.room) disk.old disk.new }
        ensures writes { IsTrue D.tells → OnOk result
            (Took 0 (filled_pages self.old.taken (length (spelling key.now state.now))) 0 (D.calls disk.old) (D.calls disk.new)) }
        ensures cause { Caused D.Disk disk.old disk.new result }
    {
        let mut buffer = [0; MAX_TUPLE_BYTES];
        let length = state.encoded(key);
        let bytes = &mut buffer[..length];
        encode_into(key, state, bytes);
        let mut page = self.page;
        append(
            disk,
            self.layout.states(self.half),
            self.taken,
            &mut page,
            bytes,
        )?;
        self.page = page;
        self.taken += length as u32;
        self.count += 1;
        Ok(())
    }

    /// Writes the last page of the tuples, the header, and the first gate, closed. After a fault some of these pages may have
    /// been written, and the last of them may read as any bytes.
    pub fn finish<D: Disk>(self, disk: &mut D) -> Result<(), IoFault>
        requires disk { total_pages self.layout ≤ D.size disk.old }

        // The tuples stand in the area of the states, filled with zeros.
        ensures states { IsTrue D.tells → (tuples : List (List ℕ × State)) → HasTaken self tuples
            → Stand (states_page self.layout self.half) (self.taken / page_bytes) (spelled tuples) (D.story disk.old).reads
            → OnOk result (Stand (states_page self.layout self.half) (body_pages (length (spelled tuples))) (spelled tuples)
            (D.story disk.new).reads) }
        ensures header { IsTrue D.tells → (tuples : List (List ℕ × State)) → HasTaken self tuples
            → OnOk result ((D.story disk.new).reads (header_page self.half)
            ≡ page_of (header_spelling self.layout self.last (length tuples) (length (spelled tuples)))) }
        ensures gate { IsTrue D.tells → OnOk result ((D.story disk.new).reads (log_page self.half) ≡ zero_page) }

        // Where these are the tuples of a map's entries, its header and its area are those of the map.
        ensures spells { IsTrue D.tells → (states : FinMap key_order State) → IsHalf self.layout self.last states → HasTaken self (entries states)
            → Stand (states_page self.layout self.half) (self.taken / page_bytes) (tuples_spelling states) (D.story disk.old).reads
            → OnOk result (SpellsHalf ((D.story disk.new).reads (header_page self.half))
            (area_of (D.story disk.new).reads (states_page self.layout self.half) self.layout.room) self.layout self.last states) }

        // No other page has changed, and a crash leaves each other page as before.
        ensures wrote { OnlyWrites D.Disk (IsOfHalf self.layout self.half) disk.old disk.new }
        ensures writes { IsTrue D.tells → OnOk result
            (Took 0 (body_pages self.taken - self.taken / page_bytes + 2) 0 (D.calls disk.old) (D.calls disk.new)) }
        ensures cause { Caused D.Disk disk.old disk.new result }
    {
        self.write_end(disk)
    }

    // Writes what ends a half.
    fn write_end<D: Disk>(&self, disk: &mut D) -> Result<(), IoFault>
        requires disk { total_pages self.now.layout ≤ D.size disk.old }

        // The tuples stand in the area of the states, filled with zeros.
        ensures states { IsTrue D.tells → (tuples : List (List ℕ × State)) → HasTaken self.now tuples
            → Stand (states_page self.now.layout self.now.half) (self.now.taken / page_bytes) (spelled tuples) (D.story disk.old).reads
            → OnOk result (Stand (states_page self.now.layout self.now.half) (body_pages (length (spelled tuples))) (spelled tuples)
            (D.story disk.new).reads) }
        ensures header { IsTrue D.tells → (tuples : List (List ℕ × State)) → HasTaken self.now tuples
            → OnOk result ((D.story disk.new).reads (header_page self.now.half)
            ≡ page_of (header_spelling self.now.layout self.now.last (length tuples) (length (spelled tuples)))) }
        ensures gate { IsTrue D.tells → OnOk result ((D.story disk.new).reads (log_page self.now.half) ≡ zero_page) }

        // No other page has changed, and a crash leaves each other page as before.
        ensures wrote { OnlyWrites D.Disk (IsOfHalf self.now.layout self.now.half) disk.old disk.new }
        ensures writes { IsTrue D.tells → OnOk result
            (Took 0 (body_pages self.now.taken - self.now.taken / page_bytes + 2) 0 (D.calls disk.old) (D.calls disk.new)) }
        ensures cause { Caused D.Disk disk.old disk.new result }
    {
        self.layout.rules();
        close(disk, self.layout.states(self.half), self.taken, &self.page)?;
        let header = header(&self.layout, self.last, self.count, self.taken);
        disk.write(self.layout.header(self.half), &header)?;
        disk.write(self.layout.log(self.half), &[0; PAGE_BYTES])
    }
}
