ghost use Rattle.std.specs.Prelude.{◌≡◌, OnOk};
ghost use Rattle.pt_tree.specs.Blocks.{Block, first_line_of};
ghost use Rattle.pt_tree.specs.Fold.{clause_of, exp_of, parameters_of};
ghost use Rattle.pt_tree.specs.StatementFold.{decorators_of, stms_of};
ghost use Rattle.pt_blocks.specs.Visits.{class_block, function_block, generator_block, lambda_block, module_block};

use pt_base::{Line, Memory, Text};
use pt_tree::{Clause, Decorator, Expr, Parameters, Stmt};

/// Takes the blocks of a script, one after the other. Each call may answer want of memory.
pub trait BlockVisitor {
    /// What it is behind a block.
    ghost behind: { Block → Self → Self };

    /// A module (Language Reference 9.2).
    fn module(&mut self, body: &[Stmt]) -> Result<(), Memory>
        ensures { OnOk result (self.new ≡ behind (module_block (stms_of body.now)) self.old) };

    /// A function, with the documentation string of its body, which doesn't run (8.7).
    fn function(
        &mut self,
        name: &Text,
        first_line: Line,
        parameters: &Parameters,
        body: &[Stmt],
    ) -> Result<(), Memory>
        ensures { OnOk result (self.new ≡ behind (function_block name.now first_line.0
            (parameters_of parameters.now) (stms_of body.now)) self.old) };

    /// A class (8.8).
    fn class(&mut self, name: &Text, first_line: Line, body: &[Stmt]) -> Result<(), Memory>
        ensures { OnOk result (self.new
            ≡ behind (class_block name.now first_line.0 (stms_of body.now)) self.old) };

    /// A lambda (6.14).
    fn lambda(&mut self, line: Line, parameters: &Parameters, body: &Expr) -> Result<(), Memory>
        ensures { OnOk result (self.new
            ≡ behind (lambda_block line.0 (parameters_of parameters.now) (exp_of body.now))
            self.old) };

    /// A generator expression: each item, for the targets of the clauses (6.2.8).
    fn generator(
        &mut self,
        line: Line,
        item: &Expr,
        first: &Clause,
        rest: &[Clause],
    ) -> Result<(), Memory>
        ensures { OnOk result (self.new
            ≡ behind (generator_block line.0 (exp_of item.now) (clause_of first.now) rest.now)
            self.old) };
}

/// The line of the first decorator, or of the keyword.
pub fn first_line_of(decorators: &[Decorator], line: Line) -> Line
    ensures { result.0 ≡ first_line_of (decorators_of decorators.now) line.0 }
{
    match decorators {
        [first, ..] => first.line,
        [] => line,
    }
}
