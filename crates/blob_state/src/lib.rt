//! States of objects: what is kept of a content, and the stored form of a key with its object's state.
#![tactic(auto)]

mod content;
mod draft;
mod places;
mod reader;
mod state;
mod stored;
mod tuple;
mod values;

pub use draft::Draft;
pub use reader::{BadTuple, StoredState, Tuple, decode, decode_key, decode_state};
pub use state::{BlobState, MAX_NUMBER};
pub use stored::{MAX_TUPLE_BYTES, stored_bytes};
pub use tuple::{encode, encode_into};
pub use values::{DraftParts, Extent, Print, StateParts};
