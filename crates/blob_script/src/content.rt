// Contents, as scripts spell them.

ghost use Rattle.std.specs.Prelude.{◌≡◌, ◌==◌, ◌≤◌, [], ◌∷◌, length, option_map, IfNone, IfOk, IfSome};
ghost use Rattle.std.specs.List.{position, slice_split};
ghost use Rattle.hex.specs.Hex.{decode_of};
ghost use Rattle.store_model.specs.Script.{decoded, made_bytes, made_content, spelled_content};
ghost use Rattle.store_model.specs.Shape.{greatest_size};
ghost use Rattle.blob_script.specs.Contents.{content_bytes};

use crate::number::byte_of;
use crate::number_of;
use blob_base::{Bytes, OutOfMemory};
use hex::FromHexError;
use std::alloc::Global;

/// A content, as a script spells it.
#[derive(Drop)]
pub enum Content {
    /// `x:` and two hexadecimal digits of either case for each of these bytes.
    Hex { bytes: Bytes },
    /// `g:LEN:FIRST`: so many bytes, of which byte i is (first + 7 i + i / 256) mod 256.
    Made { len: u64, first: u8 },
}

impl Content {
    /// The content that a word spells, where it spells one. Of a `g:` word no byte is made yet.
    pub fn read(alloc: Global, word: &[u8]) -> Result<Option<Content>, OutOfMemory>
        ensures { IfOk result (λ content. option_map content_bytes content ≡ spelled_content word.now) }
    {
        if let Some(digits) = word.strip_prefix(b"x:") {
            read_hex(alloc, digits)
        } else if let Some(numbers) = word.strip_prefix(b"g:") {
            Ok(read_made(numbers))
        } else {
            Ok(None)
        }
    }

    /// How many bytes it has.
    pub fn size(&self) -> u64
        ensures { result ≡ length (content_bytes self.now) }
    {
        match self {
            Content::Hex { bytes } => bytes.len() as u64,
            Content::Made { len, .. } => *len,
        }
    }

    /// A copy of its bytes, of which there may be at most 381,669,375.
    pub fn bytes(&self, alloc: Global) -> Result<Bytes, OutOfMemory>
        requires { length (content_bytes self.now) ≤ greatest_size }
        ensures { IfOk result (λ bytes. bytes ≡ content_bytes self.now) }
    {
        match self {
            Content::Hex { bytes } => Bytes::of(alloc, bytes.as_slice()),
            Content::Made { len, first } => make(alloc, *len as u32, *first),
        }
    }
}

// The content that hexadecimal digits spell, where they do.
fn read_hex(alloc: Global, digits: &[u8]) -> Result<Option<Content>, OutOfMemory>
    ensures { IfOk result (λ content. option_map content_bytes content ≡ decoded (decode_of digits.now)) }
{
    match hex::decode(alloc, digits) {
        Ok(bytes) => Ok(Some(Content::Hex {
            bytes: Bytes::from_vec(bytes),
        })),
        Err(FromHexError::OutOfMemory) => Err(OutOfMemory),
        Err(_) => Ok(None),
    }
}

// Where the first colon stands.
fn first_colon(text: &[u8]) -> Option<usize>
    ensures { result ≡ position (λ byte. byte == 58) text.now }
{
    text.iter().position(|byte| *byte == b':')
}

// The parts around the first colon, where there is one.
fn split_at_colon(text: &[u8]) -> Option<(&[u8], &[u8])>
    ensures none { IfNone result (slice_split (λ byte. byte == 58) text.now ≡ text.now ∷ []) }
    ensures parts { IfSome result (λ parts. slice_split (λ byte. byte == 58) text.now
        ≡ parts.0.now ∷ slice_split (λ byte. byte == 58) parts.1.now) }
{
    let colon = first_colon(text)?;
    Some((&text[..colon], &text[colon + 1..]))
}

// The made content that a count, `:` and a first byte spell, where they do.
fn read_made(numbers: &[u8]) -> Option<Content>
    ensures { option_map content_bytes result ≡ made_content (slice_split (λ byte. byte == 58) numbers.now) }
{
    let (len, first) = split_at_colon(numbers)?;
    let len = number_of(len)?;
    let first = byte_of(first)?;
    Some(Content::Made {
        len: u64::from(len),
        first,
    })
}

// The bytes of a made content.
fn make(alloc: Global, len: u32, first: u8) -> Result<Bytes, OutOfMemory>
    requires { len ≤ greatest_size }
    ensures { IfOk result (λ bytes. bytes ≡ made_bytes len first) }
{
    let first = u32::from(first);
    let bytes = (0..len)
        .map(|i| ((first + 7 * i + i / 256) % 256) as u8)
        .collect(alloc)?;
    Ok(Bytes::from_vec(bytes))
}
