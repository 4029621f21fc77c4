// What a session's line asks for.

ghost use Rattle.std.specs.Prelude.{◌≡◌, None, bytes_eq, codes, if◌then◌else◌, map, option_map, IfOk};
ghost use Rattle.store_model.specs.Key.{key_of};
ghost use Rattle.store_model.specs.Script.{Order, Transact, action_of, both, lone_action, number_below, path_word, pread_action, spelled_content, two_word_action, word_action};
ghost use Rattle.store_model.specs.Turn as turn;
ghost use Rattle.blob_script.specs.Words.{model_action};

use crate::number::{byte_of, number_below};
use crate::word::is;
use crate::{Content, number_of};
use blob_base::{Key, OutOfMemory, Word};
use std::alloc::Global;

// One more than the most keys that an `order` asks for, and than the most bytes that a `pread` does.
const COUNT_BOUND: u32 = 65_537;

/// What a session's line asks for: something of its transaction, or of the store whatever it has under way.
#[derive(Drop)]
pub enum Action {
    /// A transaction begins.
    Begin,
    /// It is queued.
    Commit,
    /// It is given up.
    Abort,
    /// The content of a key.
    Get { key: Key },
    /// The size and the digest of a key's content.
    Stat { key: Key },
    /// A key is gone.
    Del { key: Key },
    /// A key has this content.
    Put { key: Key, content: Content },
    /// A key's content has these bytes behind it.
    Append { key: Key, content: Content },
    /// The keys that have this content.
    Find { content: Content },
    /// The first `count` keys whose contents aren't below this one; at most 65,536.
    Order { content: Content, count: u32 },
    /// A view of a path's object. A path is any word.
    Open { path: Word },
    /// The list of a path.
    Ls { path: Word },
    /// At most `len` bytes of a view from the offset `off` on; `off` is below 2^32, and `len` at most 65,536.
    Pread { view: u8, off: u64, len: u32 },
    /// The end of a view.
    Close { view: u8 },
}

impl Action {
    // The action of the words behind the session, where they are one.
    pub(crate) fn read(alloc: Global, words: &[&[u8]]) -> Result<Option<Action>, OutOfMemory>
        ensures { IfOk result (λ action. option_map model_action action ≡ action_of (map (λ word. word.now) words.now)) }
    {
        match words {
            [] => Ok(None),
            [verb] => Ok(read_lone(verb)),
            [verb, word] => read_one(alloc, verb, word),
            [verb, one, other] => read_two(alloc, verb, one, other),
            [verb, one, two, three] => Ok(read_three(verb, one, two, three)),
            [_, _, _, _, _, ..] => Ok(None),
        }
    }
}

// The action of a verb alone.
fn read_lone(verb: &[u8]) -> Option<Action>
    ensures { option_map model_action result ≡ lone_action verb.now }
{
    if is(verb, b"begin") {
        Some(Action::Begin)
    } else if is(verb, b"commit") {
        Some(Action::Commit)
    } else if is(verb, b"abort") {
        Some(Action::Abort)
    } else {
        None
    }
}

// The action of a verb and a word.
fn read_one(alloc: Global, verb: &[u8], word: &[u8]) -> Result<Option<Action>, OutOfMemory>
    ensures { IfOk result (λ action. option_map model_action action ≡ word_action verb.now word.now) }
{
    if is(verb, b"get") {
        Ok(key_of(word).map(|key| Action::Get { key }))
    } else if is(verb, b"stat") {
        Ok(key_of(word).map(|key| Action::Stat { key }))
    } else if is(verb, b"del") {
        Ok(key_of(word).map(|key| Action::Del { key }))
    } else if is(verb, b"find") {
        Ok(Content::read(alloc, word)?.map(|content| Action::Find { content }))
    } else if is(verb, b"open") {
        Ok(path_of(alloc, word)?.map(|path| Action::Open { path }))
    } else if is(verb, b"ls") {
        Ok(path_of(alloc, word)?.map(|path| Action::Ls { path }))
    } else if is(verb, b"close") {
        Ok(byte_of(word).map(|view| Action::Close { view }))
    } else {
        Ok(None)
    }
}

// The action of a verb and two words.
fn read_two(
    alloc: Global,
    verb: &[u8],
    one: &[u8],
    other: &[u8],
) -> Result<Option<Action>, OutOfMemory>
    ensures { IfOk result (λ action. option_map model_action action ≡ two_word_action verb.now one.now other.now) }
{
    if is(verb, b"put") {
        read_put(alloc, one, other)
    } else if is(verb, b"append") {
        read_append(alloc, one, other)
    } else if is(verb, b"order") {
        read_order(alloc, one, other)
    } else {
        Ok(None)
    }
}

// The action of a verb and three words.
fn read_three(verb: &[u8], one: &[u8], two: &[u8], three: &[u8]) -> Option<Action>
    ensures { option_map model_action result
        ≡ (if bytes_eq verb.now (codes "pread") then pread_action one.now two.now three.now else None) }
{
    if is(verb, b"pread") {
        read_pread(one, two, three)
    } else {
        None
    }
}

// The key that a word is, where it is one.
fn key_of(word: &[u8]) -> Option<Key>
    ensures { result ≡ key_of word.now }
{
    Key::read(word).ok()
}

// The path that a word is: any but the empty one.
fn path_of(alloc: Global, word: &[u8]) -> Result<Option<Word>, OutOfMemory>
    ensures { IfOk result (λ path. path ≡ path_word word.now) }
{
    if word.is_empty() {
        return Ok(None);
    }
    Ok(Some(Word::of(alloc, word)?))
}

// A put of the content that a word spells under the key that another is, where they are such.
fn read_put(alloc: Global, key: &[u8], content: &[u8]) -> Result<Option<Action>, OutOfMemory>
    ensures { IfOk result (λ action. option_map model_action action
        ≡ both (λ k c. Transact (turn.Put k c)) (key_of key.now) (spelled_content content.now)) }
{
    let Some(key) = key_of(key) else {
        return Ok(None);
    };
    match Content::read(alloc, content)? {
        Some(content) => Ok(Some(Action::Put { key, content })),
        None => Ok(None),
    }
}

// An append of the bytes that a word spells to the key that another is, where they are such.
fn read_append(alloc: Global, key: &[u8], content: &[u8]) -> Result<Option<Action>, OutOfMemory>
    ensures { IfOk result (λ action. option_map model_action action
        ≡ both (λ k c. Transact (turn.Append k c)) (key_of key.now) (spelled_content content.now)) }
{
    let Some(key) = key_of(key) else {
        return Ok(None);
    };
    match Content::read(alloc, content)? {
        Some(content) => Ok(Some(Action::Append { key, content })),
        None => Ok(None),
    }
}

// An order of the content that a word spells, up to the count that another does, where they are such.
fn read_order(alloc: Global, content: &[u8], count: &[u8]) -> Result<Option<Action>, OutOfMemory>
    ensures { IfOk result (λ action. option_map model_action action
        ≡ both Order (spelled_content content.now) (number_below 65537 count.now)) }
{
    let Some(content) = Content::read(alloc, content)? else {
        return Ok(None);
    };
    match number_below(COUNT_BOUND, count) {
        Some(count) => Ok(Some(Action::Order { content, count })),
        None => Ok(None),
    }
}

// The bytes of a view from an offset on, where the words spell such.
fn read_pread(view: &[u8], off: &[u8], len: &[u8]) -> Option<Action>
    ensures { option_map model_action result ≡ pread_action view.now off.now len.now }
{
    let view = byte_of(view)?;
    let off = number_of(off)?;
    let len = number_below(COUNT_BOUND, len)?;
    Some(Action::Pread {
        view,
        off: u64::from(off),
        len,
    })
}
