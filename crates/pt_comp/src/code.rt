//! What the compiler of a script asks: the code of each kind of block as its piece is laid out.

ghost use Rattle.std.specs.Prelude.{◌≡◌, [], map, OnOk};
ghost use Rattle.pt_tree.specs.Blocks as B;
ghost use Rattle.pt_tree.specs.Fold.{behind, clause_of, exp_of};
ghost use Rattle.pt_tree.specs.StatementFold.{stms_of};
ghost use Rattle.pt_assembler.specs.Layout.{layout};
ghost use Rattle.pt_expr_forms.specs.Behind.{known};
ghost use Rattle.pt_write_ops.specs.sem_compile.stm_pieces.StmPiece.{code_piece};

use crate::blocks::{function, lambda, statements};
use crate::generators::generator;
use pt_assembler::Writer;
use pt_base::{Line, Memory};
use pt_block_names::BlockNames;
use pt_tree::{Clause, Expr, Stmt};

/// The code of the block of a module or a class, in a writer that has just begun
/// (Language Reference 8.8, 9.2).
///
/// # Errors
///
/// Want of memory, or of a number: of acts, labels, texts, operands or bytes.
#[tactic(auto, unfolding(pt_stm_forms::specs::Blocks::behind_code))]
pub fn statement_block(w: &mut Writer, names: &BlockNames, body: &[Stmt]) -> Result<(), Memory>
    requires { w.old.act ≡ 0 }
    ensures { OnOk result (w.new ≡ layout
        (code_piece (known names.now) (B.of_module (stms_of body.now))) [] w.old) }
{
    statements(w, names, body)
}

/// The code of the block of a function, in a writer that has just begun. Its documentation string
/// doesn't run (Language Reference 8.7).
///
/// # Errors
///
/// As for a module.
#[tactic(auto, unfolding(pt_stm_forms::specs::Blocks::behind_code))]
pub fn function_block(w: &mut Writer, names: &BlockNames, body: &[Stmt]) -> Result<(), Memory>
    requires { w.old.act ≡ 0 }
    ensures { OnOk result (w.new ≡ layout
        (code_piece (known names.now) (B.of_function (stms_of body.now))) [] w.old) }
{
    function(w, names, body)
}

/// The code of the block of a lambda, in a writer that has just begun (Language Reference 6.14).
///
/// # Errors
///
/// As for a module.
#[tactic(auto, unfolding(pt_stm_forms::specs::Blocks::behind_code))]
pub fn lambda_block(
    w: &mut Writer,
    names: &BlockNames,
    line: Line,
    body: &Expr,
) -> Result<(), Memory>
    requires { w.old.act ≡ 0 }
    ensures { OnOk result (w.new ≡ layout
        (code_piece (known names.now) (B.of_lambda line.0 (exp_of body.now))) [] w.old) }
{
    lambda(w, names, line, body)
}

/// The code of the block of a generator expression, in a writer that has just begun over the slot of its
/// first iterator (Language Reference 6.2.8).
///
/// # Errors
///
/// As for a module.
#[tactic(auto, unfolding(pt_stm_forms::specs::Blocks::behind_code))]
pub fn generator_block(
    w: &mut Writer,
    names: &BlockNames,
    line: Line,
    item: &Expr,
    first: &Clause,
    rest: &[Clause],
) -> Result<(), Memory>
    requires { w.old.act ≡ 0 }
    ensures { OnOk result (w.new ≡ layout (code_piece (known names.now) (B.of_generator line.0
        (exp_of item.now) (clause_of first.now).line (clause_of first.now).target
        (behind (clause_of first.now) (map clause_of rest.now)))) [] w.old) }
{
    generator(w, names, line, item, first, rest)
}
