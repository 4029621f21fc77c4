// Which pages of a disk are what.

ghost use Rattle.std.specs.Prelude.{◌≡◌, ◌%◌, ◌^◌, ◌<◌, ◌≤◌};
ghost use Rattle.store_model.specs.World.{states_bytes};
ghost use Rattle.store_model.specs.Layout.{IsLayout, header_page, log_page, states_page, data_page, data_pages, total_pages};

use std::marker::Model;

/// The layout of a store: `units` of 1024 data pages, 1 to 16,384, and `room` pages for the states of a half, 1 to
/// 1024.
#[derive(Clone, Copy, Debug, PartialEq, Eq)]
pub struct Layout {
    pub units: u32,
    pub room: u32,
}

impl Model for Layout {
    ghost use Rattle.store_model.specs.Layout.{Layout as Parts, IsLayout};

    ghost Value = { Parts };

    ghost view = { λ layout. record { units = layout.units; room = layout.room } };

    ghost invariant = { λ layout. IsLayout (record { units = layout.units; room = layout.room }) };

    ghost inverse = { λ parts. record { units = parts.units; room = parts.room } };
}

impl Layout {
    /// The rules that each layout keeps.
    pub fn rules(&self)
        ensures { IsLayout self.now }
    {
        // They are known where a field is read.
        let _ = &self.units;
    }

    /// How many pages it takes.
    pub fn total(&self) -> u32
        ensures { result ≡ total_pages self.now }
    {
        1027 + 2 * self.room + 1024 * self.units
    }

    /// The header page of a half.
    pub fn header(&self, half: u32) -> u32
        requires { half < 2 }
        ensures { result ≡ header_page half }
    {
        1 + half
    }

    /// The first of the 512 pages of a half's log area.
    pub fn log(&self, half: u32) -> u32
        requires { half < 2 }
        ensures { result ≡ log_page half }
    {
        3 + 512 * half
    }

    /// The first page of a half's states.
    pub fn states(&self, half: u32) -> u32
        requires { half < 2 }
        ensures { result ≡ states_page self.now half }
    {
        1027 + self.room * half
    }

    /// How many bytes a half has for its states.
    pub fn states_bytes(&self) -> u64
        ensures value { result ≡ states_bytes self.now }
        ensures most { result ≤ 2 ^ 22 }
    {
        4096 * u64::from(self.room)
    }

    /// How many pages the data area has: a multiple of 1024, at most 2^24.
    pub fn data_pages(&self) -> u32
        ensures value { result ≡ data_pages self.now }
        ensures most { result ≤ 2 ^ 24 }
        ensures units { result % 1024 ≡ 0 }
    {
        1024 * self.units
    }

    /// The first page of the data area.
    pub fn data(&self) -> u32
        ensures { result ≡ data_page self.now }
    {
        1027 + 2 * self.room
    }
}
