//! What statements ask: expressions, targets and functions as their pieces are laid out.

ghost use Rattle.std.specs.Prelude.{◌≡◌, ◌+◌, [], OnOk};
ghost use Rattle.pt_tree.specs.Syntax.{lambda};
ghost use Rattle.pt_tree.specs.Fold.{exp_of, parameters_of, place_node_of, target_of};
ghost use Rattle.pt_tree.specs.Sizes.{size, params_size, place_size, target_size};
ghost use Rattle.pt_assembler.specs.Layout.{layout};
ghost use Rattle.pt_write_ops.specs.sem_compile.emitter.ExpPiece.{exp_piece, place_piece, target_piece};
ghost use Rattle.pt_write_leaves.specs.pt_expr_forms.Behind.{known, numbers};

use crate::expressions::expression;
use crate::functions::function;
use crate::targets::{place, target};
use pt_assembler::Writer;
use pt_base::{BlockId, Line, Memory};
use pt_tree::{Expr, Parameters, PlaceNode, Target};
use pt_write_leaves::Surroundings;

/// The code of an expression (Language Reference 6). Its first act begins a re-test where it is said
/// so.
///
/// # Errors
///
/// Want of memory, or of a number: of acts, labels, texts or operands.
#[tactic(auto, using(crate::proofs::Rules::laid))]
pub fn expr_code(w: &mut Writer, at: &Surroundings, e: &Expr, again: bool) -> Result<(), Memory>
    ensures code { OnOk result (w.new ≡ layout (exp_piece (known at.now.names.now) (exp_of e.now)
        w.old.act again (numbers at.now.within.now)) [] w.old) }
    ensures act { OnOk result (w.new.act ≡ w.old.act + size (exp_of e.now)) }
{
    expression(w, at, e, again)
}

/// The code that binds the value on top to a target (Language Reference 7.2).
///
/// # Errors
///
/// As for an expression.
#[tactic(auto, using(crate::proofs::Rules::laid))]
pub fn target_code(w: &mut Writer, at: &Surroundings, bound: &Target) -> Result<(), Memory>
    ensures code { OnOk result (w.new ≡ layout (target_piece (known at.now.names.now)
        (target_of bound.now) w.old.act (numbers at.now.within.now)) [] w.old) }
    ensures act { OnOk result (w.new.act ≡ w.old.act + target_size (target_of bound.now)) }
{
    target(w, at, bound)
}

/// The code that binds the value on top to a name, an attribute or an item
/// (Language Reference 7.2).
///
/// # Errors
///
/// As for an expression.
#[tactic(auto, using(crate::proofs::Rules::laid))]
pub fn place_code(
    w: &mut Writer,
    at: &Surroundings,
    line: Line,
    node: &PlaceNode,
) -> Result<(), Memory>
    ensures code { OnOk result (w.new ≡ layout (place_piece (known at.now.names.now)
        (place_node_of node.now line.0) w.old.act (numbers at.now.within.now)) [] w.old) }
    ensures act { OnOk result (w.new.act ≡ w.old.act + place_size (place_node_of node.now line.0)) }
{
    place(w, at, line, node)
}

/// The code that makes a function of a block, with the defaults of its parameters
/// (Language Reference 6.14, 8.7).
///
/// # Errors
///
/// As for an expression.
#[tactic(auto, using(crate::proofs::Rules::laid))]
pub fn function_code(
    w: &mut Writer,
    at: &Surroundings,
    line: Line,
    block: BlockId,
    parameters: &Parameters,
    again: bool,
) -> Result<(), Memory>
    ensures code { OnOk result ((e : _) → w.new ≡ layout (exp_piece (known at.now.names.now)
        (lambda line.0 block.0 (parameters_of parameters.now) e) w.old.act again
        (numbers at.now.within.now)) [] w.old) }
    ensures act { OnOk result
        (w.new.act ≡ w.old.act + params_size (parameters_of parameters.now) + 1) }
{
    function(w, at, line, block, parameters, again)
}
