ghost use Rattle.std.specs.Prelude.{◌≡◌, [], ◌∷◌, Ok, IfOk};
ghost use Rattle.pt_reprs.specs.Pieces.{writer, Writes};

use pt_base::{Failure, Memory, Text};
use pt_strs::char_count;
use std::alloc::Global;

/// Why a text is not written.
#[derive(Clone, Copy, Debug, PartialEq, Eq)]
pub enum WriteErr {
    /// More than 1,000 containers stand inside one another.
    Deep,
    /// The text has no room for it.
    Length,
    /// Of a value there is no text yet.
    Feature,
}

/// A text that is written piece by piece.
#[derive(Drop)]
pub struct Writer {
    pub text: Text,
    /// How many characters more it may have.
    pub room: usize,
}

impl Writer {
    /// An empty text that may have so many characters.
    pub fn new(alloc: Global, room: usize) -> Writer
        ensures { result ≡ writer [] room }
    {
        Writer {
            text: Text::new(alloc),
            room,
        }
    }

    /// Writes a piece, if there is room for it.
    pub fn push(&mut self, piece: &str) -> Result<(), Failure<WriteErr>>
        ensures { Writes self.old self.new result (Ok piece.now ∷ []) }
    {
        let count = char_count(piece);
        if count > self.room {
            return Err(Failure::Refused(WriteErr::Length));
        }
        self.text.push_str(piece)?;
        self.room -= count;
        Ok(())
    }
}
