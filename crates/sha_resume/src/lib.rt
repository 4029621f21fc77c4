//! SHA-256 (FIPS 180-4) that can be left at a block's end and taken up again from the state there.
//!
//! ```rust
//! use sha_resume::{Chain, digest};
//!
//! let message = [7u8; 100];
//! let mut chain = Chain::new();
//! chain.blocks(&message[..64]);
//! let later = Chain::at(chain.mark(), chain.count());
//! assert!(rt; later.finish(&message[64..]) == digest(&message));
//! ```
#![tactic(auto)]

ghost use Rattle.std.specs.Prelude.{◌≡◌, ℕ, ◌+◌, ◌*◌, ◌/◌, ◌%◌, ◌^◌, ◌<◌, List, ◌++◌, length};
ghost use Rattle.sha2.specs.Sha256.{hash_after, sha256 as library_sha256};
ghost use Rattle.store_model.specs.Hash.{Leads, bytes_of_state, close, initial_state, padding, sha256};

use block::{BLOCK_LEN, compress};
use std::marker::Model;

mod block;
mod values;

pub use values::{Digest, Mark, START};

// Where the last block of a message has its length, in 8 bytes.
const LENGTH_AT: usize = 56;

/// A message's first blocks: the state after them, and how many they are.
#[derive(Debug, Drop)]
pub struct Chain {
    state: [u32; 8],
    count: u64,
}

impl Model for Chain {
    ghost use Rattle.std.specs.Prelude.{◌^◌, ◌<◌};
    ghost use Rattle.sha_resume.specs.Progress.{Progress};

    ghost Value = { Progress };

    ghost view = { λ c. record { mark = c.state; count = c.count } };

    ghost invariant = { λ c. c.count < 2 ^ 54 };
}

impl Chain {
    /// No block yet.
    pub fn new() -> Chain
        ensures mark { result.mark ≡ initial_state }
        ensures count { result.count ≡ 0 }
    {
        Chain::at(START, 0)
    }

    /// As many blocks as `blocks` says, after which the state was `mark`.
    pub fn at(mark: Mark, blocks: u64) -> Chain
        requires { blocks < 2 ^ 54 }
        ensures mark { result.mark ≡ mark.words }
        ensures count { result.count ≡ blocks }
    {
        let state = mark.words;
        Chain {
            state,
            count: blocks,
        }
    }

    /// Takes in more of the message: a whole number of blocks of 64 bytes.
    pub fn blocks(&mut self, bytes: &[u8])
        requires whole { length bytes.now % 64 ≡ 0 }
        requires room { self.old.count + length bytes.now / 64 < 2 ^ 54 }
        ensures mark { Leads self.old.mark bytes.now self.new.mark }
        ensures count { self.new.count ≡ self.old.count + length bytes.now / 64 }

        // What was taken in before, from any state, and `bytes` after it.
        ensures longer { (h before : List ℕ) → length before % 64 ≡ 0 → Leads h before self.old.mark
            → Leads h (before ++ bytes.now) self.new.mark }

        // The same by the block function of the library's crate `sha2`.
        ensures agrees { self.new.mark ≡ hash_after self.old.mark bytes.now (length bytes.now / 64) }
    {
        fold_blocks(&mut self.state, bytes);
        self.count += (bytes.len() / BLOCK_LEN) as u64;
    }

    /// The state after the blocks taken in.
    pub fn mark(&self) -> Mark
        ensures { result.words ≡ self.now.mark }
    {
        Mark { words: self.state }
    }

    /// How many blocks were taken in.
    pub fn count(&self) -> u64
        ensures value { result ≡ self.now.count }
        ensures bound { self.now.count < 2 ^ 54 }
    {
        self.count
    }

    /// The digest of the message that ends with `rest`, of fewer than 2^60 bytes in all.
    pub fn finish(self, rest: &[u8]) -> Digest
        requires { 64 * self.count + length rest.now < 2 ^ 60 }
        ensures closed { result.bytes ≡ close self.mark self.count rest.now }

        // Where the chain stands for the first blocks of a message.
        ensures whole { (first : List ℕ) → length first ≡ 64 * self.count
            → Leads initial_state first self.mark → result.bytes ≡ sha256 (first ++ rest.now) }
    {
        let message_len = 64 * self.count + rest.len() as u64;
        let (whole, tail) = rest.split_at(rest.len() / BLOCK_LEN * BLOCK_LEN);
        let mut state = self.state;
        fold_blocks(&mut state, whole);
        fold_end(&mut state, tail, message_len);
        Digest {
            bytes: bytes_of(&state),
        }
    }
}

impl Default for Chain {
    ghost is_default = { λ c. (c.mark ≡ initial_state) × (c.count ≡ 0) };

    fn default() -> Chain {
        Chain::new()
    }
}

/// The SHA-256 digest of `message`, of fewer than 2^60 bytes.
pub fn digest(message: &[u8]) -> Digest
    requires { length message.now < 2 ^ 60 }
    ensures value { result.bytes ≡ sha256 message.now }

    // The same by the definition of the library's crate `sha2`.
    ensures agrees { result.bytes ≡ library_sha256 message.now }
{
    Chain::new().finish(message)
}

// Takes the whole blocks of `bytes` into `state`.
fn fold_blocks(state: &mut [u32; 8], bytes: &[u8])
    ensures { Leads state.old bytes.now state.new }
{
    'folded: for i in 0..bytes.len() / BLOCK_LEN {
        let start = BLOCK_LEN * i;
        compress(state, &bytes[start..start + BLOCK_LEN]);
    }
}

// Takes into `state` the last bytes of a message of `message_len` bytes, and its padding.
fn fold_end(state: &mut [u32; 8], tail: &[u8], message_len: u64)
    requires tail { length tail.now ≡ message_len % 64 }
    requires short { message_len < 2 ^ 60 }
    ensures { Leads state.old (tail.now ++ padding message_len) state.new }
{
    let mut last = [0u8; 2 * BLOCK_LEN];
    last[..tail.len()].copy_from_slice(tail);
    last[tail.len()] = 0x80;
    let end = if tail.len() < LENGTH_AT {
        BLOCK_LEN
    } else {
        2 * BLOCK_LEN
    };
    last[end - 8..end].copy_from_slice(&(8 * message_len).to_be_bytes());
    fold_blocks(state, &last[..end]);
}

// The words of `state`, each high byte first.
fn bytes_of(state: &[u32; 8]) -> [u8; 32]
    ensures { result ≡ bytes_of_state state.now }
{
    let mut bytes = [0u8; 32];
    'words: for i in 0..8 {
        bytes[4 * i..4 * i + 4].copy_from_slice(&state[i].to_be_bytes());
    }
    bytes
}
