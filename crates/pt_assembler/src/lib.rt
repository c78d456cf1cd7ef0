//! Code in pieces: bytes, acts, handler rows and starts of statements from a few kinds of piece.
#![tactic(auto)]

mod constants;
mod image;
mod laws;
mod lists;
mod names;
mod operation;
mod texts;
mod width;
mod writer;

pub use image::Heading;
pub use laws::a_piece_stands_where_it_is_laid;
pub use operation::{Act, Exit, FreeUse, Jump, Label, Loop, Operation, Place, Placed, Target};
pub use writer::{Tables, Writer};
