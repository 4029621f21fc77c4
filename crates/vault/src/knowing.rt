// What is known of entries by the types of their parts.

ghost use Rattle.std.specs.Prelude.{◌^◌, ◌<◌};
ghost use Rattle.std.specs.List.{All};
ghost use Rattle.vault.specs.Knows.{IsKnown, IsOfKey};

use frame_codec::{Entries, Entry, Write};

// The key of a write is one.
fn write_rules(one: &Write)
    ensures { IsOfKey one.now }
{
    let _ = one.key().text();
}

// A number of eight bytes is one.
fn number_rules(number: u64)
    ensures { number < 2 ^ 64 }
{
    let _ = number;
}

// The writes of an entry are of keys, and its transaction's number has eight bytes.
fn entry_rules(entry: &Entry)
    ensures nth { entry.now.nth < 2 ^ 64 }
    ensures keys { All IsOfKey entry.now.writes }
{
    number_rules(entry.nth);
    'known: for i in 0..entry.writes.len() {
        write_rules(entry.writes.get(i));
    }
}

/// So it is of all entries.
pub(crate) fn entries_rules(entries: &Entries)
    ensures { All IsKnown entries.now }
{
    'known: for i in 0..entries.len() {
        entry_rules(entries.get(i));
    }
}
