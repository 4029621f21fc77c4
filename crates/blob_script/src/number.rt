// Numbers in decimal.

ghost use Rattle.std.specs.Prelude.{◌≡◌, ◌^◌, ◌<◌, ℕ, decimal, IfSome, IfNone};
ghost use Rattle.store_model.specs.Script.{number_below};

use std::str;

/// The number that a word spells in decimal, without leading zeros, where it spells one below 2^32.
pub fn number_of(word: &[u8]) -> Option<u32>
    ensures value { result ≡ number_below 4294967296 word.now }
    ensures number { IfSome result (λ n. word.now ≡ decimal n) }
    ensures none { IfNone result ((n : ℕ) → n < 2 ^ 32 → word.now ≡ decimal n → ⊥) }
{
    let Ok(text) = str::from_utf8(word) else {
        return None;
    };
    let Ok(number) = text.parse::<u32>() else {
        return None;
    };
    if itoa::Buffer::new().format(number).as_bytes() == word {
        Some(number)
    } else {
        None
    }
}

// The number that a word spells in decimal, without leading zeros, where it spells one below the bound.
pub(crate) fn number_below(bound: u32, word: &[u8]) -> Option<u32>
    ensures value { result ≡ number_below bound word.now }
    ensures below { IfSome result (λ n. n < bound) }
{
    let number = number_of(word)?;
    if number < bound { Some(number) } else { None }
}

// Such a number below 256.
pub(crate) fn byte_of(word: &[u8]) -> Option<u8>
    ensures { result ≡ number_below 256 word.now }
{
    Some(number_below(256, word)? as u8)
}
