//! What the methods and operations of texts answer (Library Reference, "Text Sequence Type"). A
//! text is the list of its characters; each call takes time linear in what it is given and gives.
#![tactic(auto)]

mod blank;
mod class;
mod concatenation;
mod draft;
mod ends;
mod error;
mod length;
mod parts;
mod repetition;
mod replacement;
mod scan;
mod search;
mod subscript;

pub use blank::is_blank;
pub use concatenation::join;
pub use draft::Draft;
pub use ends::strip;
pub use error::StrErr;
pub use length::{LENGTH_LIMIT, char_count};
pub use parts::split;
pub use repetition::repeat;
pub use replacement::replace;
pub use scan::Scan;
pub use search::find;
pub use subscript::slice;
