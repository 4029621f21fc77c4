// The answers to a script's lines, as they are printed.

ghost use Rattle.std.specs.Prelude.{◌≡◌, ◌++◌, None, OnOk, codes, decimal};
ghost use Rattle.store_model.specs.Answer as model;
ghost use Rattle.store_model.specs.Answer.{answer_text, bytes_text, front_text, line_text, number_text, two_numbers, words_text, Conflict, NoSpace, Stat};
ghost use Rattle.blob_script.specs.Answers.{model_answer, model_line};

use blob_base::{Bytes, Key, Keys, Names, OutOfMemory};
use sha_resume::Digest;
use std::alloc::Global;

// A line that shows a content has fewer bytes than this beside its digits: the session, a label, the size, the front, what
// parts them, and its end.
const MOST_BESIDE_DIGITS: usize = 64;

/// What stands behind the session in the answer to a session's line.
#[derive(Drop)]
pub enum AnswerLine {
    /// The transaction began.
    Begun,
    /// The content of a key.
    Value {
        content: Bytes,
    },
    /// The size of a key's content in bytes, and its digest.
    Stat {
        size: u64,
        digest: Digest,
    },
    /// The put is recorded.
    Put,
    /// The append is recorded.
    Appended,
    /// The delete is recorded.
    Deleted,
    /// The request is queued.
    Queued,
    /// The transaction is given up.
    Aborted,
    /// The keys that have the content.
    Found {
        keys: Keys,
    },
    /// The first keys whose contents aren't below the given one.
    Order {
        keys: Keys,
    },
    /// The number of the view that was opened.
    Opened {
        view: u8,
    },
    /// Bytes of a view.
    Data {
        bytes: Bytes,
    },
    /// The view is closed.
    Closed,
    /// What a folder holds.
    List {
        names: Names,
    },
    /// The session's request is queued.
    Busy,
    /// The session's transaction is open.
    Already,
    /// The session has no transaction.
    NoTransaction,
    /// The transaction would touch so many keys, one more than it may.
    TooMany {
        keys: u32,
    },
    /// The key's number isn't the one that was read; it is this one now, and none where the key is absent.
    Stale {
        now: Option<u64>,
    },
    /// Nothing is there.
    Absent,
    /// The content would have so many bytes, more than it may.
    TooLong {
        size: u64,
    },
    /// The word is no path; this is the first place that shows it.
    BadPath {
        at: usize,
    },
    /// The path is the root or a folder's.
    NotAFile,
    /// The path is a file's.
    NotAFolder,
    /// The view isn't open.
    NoView,
    /// The session has as many views as it may.
    TooManyViews,
    /// The request is committed under this number.
    Committed {
        number: u64,
    },
    /// The key's number was `read` when it was read, and is `now`; none where the key is absent.
    Conflict {
        key: Key,
        read: Option<u64>,
        now: Option<u64>,
    },
    /// No number is left behind this last one.
    NoNumber {
        last: u64,
    },
    /// No extent of this tier is free for the key's content.
    NoSpace {
        key: Key,
        tier: u32,
    },
    /// The states need so many bytes, and have so many.
    NoRoom {
        need: u64,
        have: u64,
    },
    /// The transaction has seen a later entry than the last one.
    Ahead {
        seen: u64,
        front: u64,
    },
}

/// The answer to a line.
#[derive(Drop)]
pub enum Answer {
    /// The answer to a line of a session. `at` is the number of the last entry whose effect it shows; none where the
    /// line has no such ending.
    Session {
        session: u8,
        line: AnswerLine,
        at: Option<u64>,
    },
    /// The answer to a lead where no request is queued.
    Idle,
    /// The answer to a checkpoint.
    Checkpointed,
}

impl Answer {
    /// Adds the answer as a line, with its end. A content's digits are written where they stand. After `OutOfMemory`
    /// a part of the line may have been added.
    pub fn print(&self, alloc: Global, out: &mut Bytes) -> Result<(), OutOfMemory>
        ensures { OnOk result (out.new ≡ out.old ++ answer_text (model_answer self.now)) }
    {
        match self {
            Answer::Session { session, line, at } => {
                out.reserve(alloc, line.room())?;
                append_number(alloc, out, u64::from(*session))?;
                out.append(alloc, b" ")?;
                line.print(alloc, out)?;
                append_front(alloc, out, *at)?;
            }
            Answer::Idle => out.append(alloc, b"idle")?,
            Answer::Checkpointed => out.append(alloc, b"checkpointed")?,
        }
        out.append(alloc, b"\n")
    }
}

impl Answer {
    /// Adds the line of a session that is shown this content, with its end, as `print` does of a `Value`.
    pub fn print_value(
        alloc: Global,
        out: &mut Bytes,
        session: u8,
        content: &[u8],
    ) -> Result<(), OutOfMemory>
        ensures { OnOk result (out.new ≡ out.old ++ answer_text (model.Session session (model.Value content.now) None)) }
    {
        out.reserve(alloc, room_for(content.len()))?;
        append_number(alloc, out, u64::from(session))?;
        out.append(alloc, b" ")?;
        append_bytes(alloc, out, b"value ", content)?;
        out.append(alloc, b"\n")
    }
}

impl AnswerLine {
    // How much room is made for its line at once: enough for all of a line that shows a content, and none for others.
    fn room(&self) -> usize {
        match self {
            AnswerLine::Value { content } => room_for(content.len()),
            AnswerLine::Data { bytes } => room_for(bytes.len()),
            _ => 0,
        }
    }

    // Adds what stands behind the session.
    fn print(&self, alloc: Global, out: &mut Bytes) -> Result<(), OutOfMemory>
        ensures { OnOk result (out.new ≡ out.old ++ line_text (model_line self.now)) }
    {
        match self {
            Self::Begun => out.append(alloc, b"begun"),
            Self::Value { content } => append_bytes(alloc, out, b"value ", content.as_slice()),
            Self::Stat { size, digest } => append_stat(alloc, out, *size, &digest.bytes),
            Self::Put => out.append(alloc, b"put"),
            Self::Appended => out.append(alloc, b"appended"),
            Self::Deleted => out.append(alloc, b"deleted"),
            Self::Queued => out.append(alloc, b"queued"),
            Self::Aborted => out.append(alloc, b"aborted"),
            Self::Found { keys } => append_keys(alloc, out, b"found ", keys),
            Self::Order { keys } => append_keys(alloc, out, b"order ", keys),
            Self::Opened { view } => append_labelled(alloc, out, b"opened ", u64::from(*view)),
            Self::Data { bytes } => append_bytes(alloc, out, b"data ", bytes.as_slice()),
            Self::Closed => out.append(alloc, b"closed"),
            Self::List { names } => append_names(alloc, out, b"list ", names),
            Self::Busy => out.append(alloc, b"busy"),
            Self::Already => out.append(alloc, b"already"),
            Self::NoTransaction => out.append(alloc, b"no-transaction"),
            Self::TooMany { keys } => append_labelled(alloc, out, b"too-many ", u64::from(*keys)),
            Self::Stale { now } => append_optional(alloc, out, b"stale ", *now),
            Self::Absent => out.append(alloc, b"absent"),
            Self::TooLong { size } => append_labelled(alloc, out, b"too-long ", *size),
            Self::BadPath { at } => append_labelled(alloc, out, b"bad-path ", *at as u64),
            Self::NotAFile => out.append(alloc, b"not-a-file"),
            Self::NotAFolder => out.append(alloc, b"not-a-folder"),
            Self::NoView => out.append(alloc, b"no-view"),
            Self::TooManyViews => out.append(alloc, b"too-many-views"),
            Self::Committed { number } => append_labelled(alloc, out, b"committed ", *number),
            Self::Conflict { key, read, now } => append_conflict(alloc, out, key, *read, *now),
            Self::NoNumber { last } => append_labelled(alloc, out, b"no-number ", *last),
            Self::NoSpace { key, tier } => append_no_space(alloc, out, key, *tier),
            Self::NoRoom { need, have } => append_two(alloc, out, b"no-room ", *need, *have),
            Self::Ahead { seen, front } => append_two(alloc, out, b"ahead ", *seen, *front),
        }
    }
}

// Enough room for a line that shows so many bytes.
fn room_for(len: usize) -> usize {
    len.saturating_mul(2).saturating_add(MOST_BESIDE_DIGITS)
}

// Adds a number in decimal.
fn append_number(alloc: Global, out: &mut Bytes, number: u64) -> Result<(), OutOfMemory>
    ensures { OnOk result (out.new ≡ out.old ++ decimal number) }
{
    out.append(alloc, itoa::Buffer::new().format(number).as_bytes())
}

// Adds a label and a number behind it.
fn append_labelled(
    alloc: Global,
    out: &mut Bytes,
    label: &[u8],
    number: u64,
) -> Result<(), OutOfMemory>
    ensures { OnOk result (out.new ≡ out.old ++ (label.now ++ decimal number)) }
{
    out.append(alloc, label)?;
    append_number(alloc, out, number)
}

// Adds a label and a number behind it, or `none` for a missing one.
fn append_optional(
    alloc: Global,
    out: &mut Bytes,
    label: &[u8],
    number: Option<u64>,
) -> Result<(), OutOfMemory>
    ensures { OnOk result (out.new ≡ out.old ++ (label.now ++ number_text number)) }
{
    out.append(alloc, label)?;
    match number {
        Some(number) => append_number(alloc, out, number),
        None => out.append(alloc, b"none"),
    }
}

// Adds a label and two numbers behind it.
fn append_two(
    alloc: Global,
    out: &mut Bytes,
    label: &[u8],
    first: u64,
    second: u64,
) -> Result<(), OutOfMemory>
    ensures { OnOk result (out.new ≡ out.old ++ (label.now ++ two_numbers first second)) }
{
    append_labelled(alloc, out, label, first)?;
    append_labelled(alloc, out, b" ", second)
}

// Adds the number that an answer ends with, where it has one.
fn append_front(alloc: Global, out: &mut Bytes, front: Option<u64>) -> Result<(), OutOfMemory>
    ensures { OnOk result (out.new ≡ out.old ++ front_text front) }
{
    match front {
        Some(front) => append_labelled(alloc, out, b" at ", front),
        None => Ok(()),
    }
}

// Adds a key whose number isn't the one that was read, and both.
fn append_conflict(
    alloc: Global,
    out: &mut Bytes,
    key: &Key,
    read: Option<u64>,
    now: Option<u64>,
) -> Result<(), OutOfMemory>
    ensures { OnOk result (out.new ≡ out.old ++ line_text (Conflict key.now read now)) }
{
    out.append(alloc, b"conflict ")?;
    out.append(alloc, key.text())?;
    append_optional(alloc, out, b" ", read)?;
    append_optional(alloc, out, b" ", now)
}

// Adds a key and a tier that has no place for it.
fn append_no_space(alloc: Global, out: &mut Bytes, key: &Key, tier: u32) -> Result<(), OutOfMemory>
    ensures { OnOk result (out.new ≡ out.old ++ line_text (NoSpace key.now tier)) }
{
    out.append(alloc, b"no-space ")?;
    out.append(alloc, key.text())?;
    append_labelled(alloc, out, b" ", u64::from(tier))
}

// Adds a content's size and digest.
fn append_stat(
    alloc: Global,
    out: &mut Bytes,
    size: u64,
    digest: &[u8; 32],
) -> Result<(), OutOfMemory>
    ensures { OnOk result (out.new ≡ out.old ++ line_text (Stat size digest.now)) }
{
    append_labelled(alloc, out, b"stat ", size)?;
    out.append(alloc, b" ")?;
    out.append_hex(alloc, digest)
}

// Adds a label, how many bytes there are, and they.
fn append_bytes(
    alloc: Global,
    out: &mut Bytes,
    label: &[u8],
    bytes: &[u8],
) -> Result<(), OutOfMemory>
    ensures { OnOk result (out.new ≡ out.old ++ (label.now ++ bytes_text bytes.now)) }
{
    append_labelled(alloc, out, label, bytes.len() as u64)?;
    if bytes.is_empty() {
        return out.append(alloc, b" -");
    }
    out.append(alloc, b" ")?;
    out.append_hex(alloc, bytes)
}

// Adds a blank and a word behind it.
fn append_word(alloc: Global, out: &mut Bytes, word: &[u8]) -> Result<(), OutOfMemory>
    ensures { OnOk result (out.new ≡ out.old ++ (codes " " ++ word.now)) }
{
    out.append(alloc, b" ")?;
    out.append(alloc, word)
}

// Adds a label, how many keys there are, and each behind a blank.
fn append_keys(alloc: Global, out: &mut Bytes, label: &[u8], keys: &Keys) -> Result<(), OutOfMemory>
    ensures { OnOk result (out.new ≡ out.old ++ (label.now ++ words_text keys.now)) }
{
    append_labelled(alloc, out, label, keys.len() as u64)?;
    for key in keys.as_slice() {
        append_word(alloc, out, key.text())?;
    }
    Ok(())
}

// Adds a label, how many names there are, and each behind a blank.
fn append_names(
    alloc: Global,
    out: &mut Bytes,
    label: &[u8],
    names: &Names,
) -> Result<(), OutOfMemory>
    ensures { OnOk result (out.new ≡ out.old ++ (label.now ++ words_text names.now)) }
{
    append_labelled(alloc, out, label, names.len() as u64)?;
    for name in names.as_slice() {
        append_word(alloc, out, name.as_slice())?;
    }
    Ok(())
}
