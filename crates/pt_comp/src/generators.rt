//! Blocks of generator expressions (Language Reference 6.2.8).

ghost use Rattle.std.specs.Prelude.{◌≡◌, map, OnOk};
ghost use Rattle.pt_tree.specs.Blocks as B;
ghost use Rattle.pt_tree.specs.Fold.{behind, clause_of, exp_of};
ghost use Rattle.pt_write_simple.specs.pt_stm_forms.Blocks.{behind_code, behind_yielded};

use crate::blocks::end_block;
use pt_assembler::{Jump, Label, Operation, Writer};
use pt_base::{Line, Memory};
use pt_block_names::BlockNames;
use pt_instr::Instr;
use pt_tree::{Clause, Expr};
use pt_write_ops::plain;
use pt_write_simple::{Surroundings, clauses, turn, value_code};

/// The code of the block of a generator expression, over the slot of its first iterator.
#[tactic(auto, using(crate::proofs::Rules::generators))]
pub fn generator(
    w: &mut Writer,
    names: &BlockNames,
    line: Line,
    item: &Expr,
    first: &Clause,
    rest: &[Clause],
) -> Result<(), Memory>
    requires { w.old.act ≡ 0 }
    ensures { OnOk result (w.new ≡ behind_code names.now (B.of_generator line.0
        (exp_of item.now) (clause_of first.now).line (clause_of first.now).target
        (behind (clause_of first.now) (map clause_of rest.now))) w.old) }
{
    let at = Surroundings { names, within: &[] };
    let end = w.label()?;
    let head = turn(w, &at, line, first, end)?;
    let innermost = clauses(w, &at, line, rest, head)?;
    yield_item(w, names, line, item, innermost.head)?;
    w.bind(end);
    end_block(w)
}

/// An item is given on, what is sent for it is dropped, and the next is taken.
fn yield_item(
    w: &mut Writer,
    names: &BlockNames,
    line: Line,
    item: &Expr,
    head: Label,
) -> Result<(), Memory>
    ensures { OnOk result
        (w.new ≡ behind_yielded names.now (exp_of item.now) head line.0 w.old) }
{
    value_code(w, names, item, false)?;
    plain(w, Instr::Yield, line, false)?;
    plain(w, Instr::Pop, line, false)?;
    w.step(Operation::To(Jump::Always, head))
}
