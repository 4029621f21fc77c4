// The words of a command line.

ghost use Rattle.std.specs.Prelude.{[], ◌∷◌, IfSome, IfNone};
ghost use Rattle.store_model.specs.Form.{IsForm, IsNoForm};
ghost use Rattle.store_model.specs.Layout.{Layout as Model};
ghost use Rattle.blob_script.specs.Words.{SpellLayout, layout_by, model_form};

use crate::number_of;
use crate::word::is;
use blob_base::Word;

/// What a command line asks for. A store has so many units of 1024 data pages, and so many pages for the states of a half.
#[derive(Clone, Copy, Debug, PartialEq, Eq)]
pub enum Form {
    /// `format FILE UNITS ROOM`: format a store.
    Format { units: u32, room: u32 },
    /// `fresh FILE UNITS ROOM`: format a store, and run a script on it.
    Fresh { units: u32, room: u32 },
    /// `steps FILE`: run a script on a store.
    Steps,
    /// `show FILE`: tell what a store has.
    Show,
    /// `check FILE`: tell which contents of a store are damaged.
    Check,
}

impl Form {
    /// The form that the words are, where they are one.
    pub fn read(words: &[Word]) -> Option<Form>
        ensures form { IfSome result (λ form. IsForm words.now (model_form form)) }
        ensures none { IfNone result (IsNoForm words.now) }
    {
        match words {
            [] => None,
            [_] => None,
            [verb, file] => read_alone(verb.as_slice(), file.as_slice()),
            [_, _, _] => None,
            [verb, file, units, room] => {
                let (units, room) = (units.as_slice(), room.as_slice());
                read_with_layout(verb.as_slice(), file.as_slice(), units, room)
            }
            [_, _, _, _, _, ..] => None,
        }
    }
}

// The form of a verb and a file.
fn read_alone(verb: &[u8], file: &[u8]) -> Option<Form>
    ensures form { IfSome result (λ form. IsForm (verb.now ∷ file.now ∷ []) (model_form form)) }
    ensures none { IfNone result (IsNoForm (verb.now ∷ file.now ∷ [])) }
{
    if file.is_empty() {
        None
    } else if is(verb, b"steps") {
        Some(Form::Steps)
    } else if is(verb, b"show") {
        Some(Form::Show)
    } else if is(verb, b"check") {
        Some(Form::Check)
    } else {
        None
    }
}

// The form of a verb, a file, and the numbers of a layout.
fn read_with_layout(verb: &[u8], file: &[u8], units: &[u8], room: &[u8]) -> Option<Form>
    ensures form { IfSome result (λ form. IsForm (verb.now ∷ file.now ∷ units.now ∷ room.now ∷ []) (model_form form)) }
    ensures none { IfNone result (IsNoForm (verb.now ∷ file.now ∷ units.now ∷ room.now ∷ [])) }
{
    if file.is_empty() {
        return None;
    }
    let (units, room) = layout_of(units, room)?;
    if is(verb, b"format") {
        Some(Form::Format { units, room })
    } else if is(verb, b"fresh") {
        Some(Form::Fresh { units, room })
    } else {
        None
    }
}

// The units and the room that two words spell, where they are a layout's.
fn layout_of(units: &[u8], room: &[u8]) -> Option<(u32, u32)>
    ensures some { IfSome result (λ pair. SpellLayout units.now room.now (layout_by pair.0 pair.1)) }
    ensures none { IfNone result ((layout : Model) → SpellLayout units.now room.now layout → ⊥) }
{
    let units = number_of(units)?;
    let room = number_of(room)?;
    if units < 1 || units > 16_384 || room < 1 || room > 1024 {
        return None;
    }
    Some((units, room))
}
