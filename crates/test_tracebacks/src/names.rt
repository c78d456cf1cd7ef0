ghost use Rattle.std.specs.Prelude.{◌≡◌};

use crate::no_row::NoRow;
use pt_base::{BlockId, Seq, Text};
use pt_tracebacks::BlockNames;
use std::alloc::Global;

/// The names of the blocks of a row, by their numbers.
#[derive(Drop)]
pub struct Names {
    names: Seq<Text>,
}

impl BlockNames for Names {
    ghost use Rattle.std.specs.Prelude.{[], slice_get};
    ghost use Rattle.std.specs.Option.{unwrap_or};

    ghost name = { λ s n. unwrap_or (slice_get s.names n) [] };

    fn name(&self, block: BlockId) -> &str {
        match self.names.get(block.0 as usize) {
            Some(name) => name.as_str(),
            None => "",
        }
    }
}

/// The names that a word has, between commas.
pub fn names_of(alloc: Global, word: &str) -> Result<Names, NoRow> {
    let mut names = Seq::new(alloc);
    for name in word.split(",") {
        names.push(Text::from_str(alloc, name)?)?;
    }
    Ok(Names { names })
}
