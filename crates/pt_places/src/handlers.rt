//! Which handler row takes what leaves a place.
ghost use Rattle.std.specs.Prelude.{◌≡◌, IfOk};
ghost use Rattle.pt_places.specs.Innermost.{always_rows};

use crate::innermost::InnermostRows;
use pt_base::{Memory, Pc};
use pt_code::CodeBlock;
use pt_ranges::Handler;
use std::alloc::Global;
use std::marker::Model;

/// The handler rows of a block by the places that they cover. Contracts see the rows.
#[derive(Debug, Drop)]
pub struct Handlers {
    all: InnermostRows,
    always: InnermostRows,
}

impl Model for Handlers {
    ghost use Rattle.std.specs.Prelude.{List, ◌≡◌};
    ghost use Rattle.pt_ranges.specs.declared.handlers.Handler.{Handler};
    ghost use Rattle.pt_places.specs.Innermost.{always_rows};

    ghost Value = { List Handler };

    ghost view = { λ h. h.all };

    ghost invariant = { λ h. h.always ≡ always_rows h.all };
}

fn always_among(alloc: Global, rows: &[Handler]) -> Result<Vec<Handler>, Memory>
    ensures { IfOk result (λ kept. kept.items ≡ always_rows rows.now) }
{
    let mut kept = Vec::new(alloc);
    for row in rows {
        if row.always {
            kept.push(*row)?;
        }
    }
    Ok(kept)
}

impl Handlers {
    ghost use Rattle.std.specs.Prelude.{◌≡◌, IfOk};
    ghost use Rattle.pt_ranges.specs.Rows.{first_over};
    ghost use Rattle.pt_places.specs.Innermost.{always_rows, first_left};

    /// The handlers of a block, in time about linear in its bytes and its rows.
    pub fn make(alloc: Global, block: &CodeBlock) -> Result<Handlers, Memory>
        ensures { IfOk result (λ h. h ≡ block.now.handlers) }
    {
        let rows = block.handlers.as_slice();
        let count = block.instructions.len();
        let always = always_among(alloc, rows)?;
        Ok(Handlers {
            all: InnermostRows::build(alloc, rows, count)?,
            always: InnermostRows::build(alloc, &always, count)?,
        })
    }

    /// The row that takes a raise from a place (Language Reference 8.4), in constant time.
    pub fn for_raise(&self, pc: Pc) -> Option<Handler>
        ensures { result ≡ first_over self.now pc }
    {
        self.all.first(pc)
    }

    /// The row that takes a return from a place (Language Reference 7.6), in constant time.
    pub fn for_return(&self, pc: Pc) -> Option<Handler>
        ensures { result ≡ first_over (always_rows self.now) pc }
    {
        self.always.first(pc)
    }

    /// The row that takes a jump from a place to another one (Language Reference 7.9, 7.10). It is
    /// found in constant time where the innermost row that takes a return takes it; else all such
    /// rows may be looked at.
    #[tactic(auto, using(crate::proofs::InnermostLemmas::left_first, crate::proofs::InnermostLemmas::left_none))]
    pub fn for_jump(&self, pc: Pc, target: Pc) -> Option<Handler>
        ensures { result ≡ first_left (always_rows self.now) pc target }
    {
        match self.always.first(pc) {
            Some(row) if !row.covers(target) => Some(row),
            Some(_) => self.always.first_left(pc, target),
            None => None,
        }
    }
}
