//! Expressions that are statements, and assignments (Language Reference 7.1, 7.2).

ghost use Rattle.std.specs.Prelude.{◌≡◌, []};
ghost use Rattle.pt_wide.specs.Fold.{exp_of};
ghost use Rattle.pt_wide.specs.StatementFold.{stm_of};
ghost use Rattle.pt_readers.specs.Reading.{next_of};
ghost use Rattle.pt_readers.specs.Settled.{Settled};
ghost use Rattle.pt_readers.proofs.Readers.{left};
ghost use Rattle.pt_grammar.specs.Nodes.{line_of};
ghost use Rattle.pt_grammar.specs.Lexemes.{sign_at};
ghost use Rattle.pt_parser.specs.Simple.{Annotation, AssignmentOrExpression};
ghost use Rattle.pt_parser.specs.Limits.{FitsExp};
ghost use Rattle.pt_parser.specs.Parts.{operator_in, a_simple};
ghost use Rattle.pt_parser.specs.Left.{After, Augmentation};

use crate::signs::{ASSIGN, COLON};
use crate::targets::{is_place, is_target};
use crate::{Statements, nodes};
use pt_base::{BinOp, Boxed, Line, Seq};
use pt_grammar::Sign;
use pt_readers::Halt;
use pt_wide::{WideExpr, WideStmt};

impl<'a> Statements<'a> {
    /// The operator of an augmented assignment, if its sign is next.
    fn operator(&self) -> Option<BinOp>
        ensures { result ≡ operator_in (sign_at (next_of self.now)) }
    {
        match self.sign() {
            Some(sign) => match sign {
                Sign::Augmented(operator) => Some(operator),
                _ => None,
            },
            None => None,
        }
    }

    /// Behind a target and `:` (Language Reference 7.2.2).
    fn annotating(&mut self, line: Line, target: Boxed<WideExpr>) -> Result<WideStmt, Halt>
        requires begins { line.0 ≡ line_of (exp_of target) }
        requires fits { FitsExp (exp_of target) }
        ensures { Settled (left a_simple (Annotation (exp_of target))) stm_of self.old self.new result }
    {
        let annotation = self.expression()?;
        let value = self.optional_value(ASSIGN)?;
        self.ended(nodes::annotated(line, target, annotation, value))
    }

    /// Behind a target and an operator with `=` (Language Reference 7.2.1).
    fn augmenting(
        &mut self,
        line: Line,
        target: Boxed<WideExpr>,
        operator: BinOp,
    ) -> Result<WideStmt, Halt>
        requires begins { line.0 ≡ line_of (exp_of target) }
        requires fits { FitsExp (exp_of target) }
        ensures { Settled (left a_simple (Augmentation (exp_of target) operator)) stm_of self.old self.new result }
    {
        let value = self.value()?;
        self.ended(nodes::augmented(line, target, operator, value))
    }

    /// Behind a value, which is a target where `=` is next (Language Reference 7.2).
    fn assigning(&mut self, line: Line, first: Boxed<WideExpr>) -> Result<WideStmt, Halt>
        requires fits { FitsExp (exp_of first) }
        ensures { Settled (left a_simple (After line.0 [] (exp_of first))) stm_of self.old self.new result }
    {
        let mut targets = Seq::new(self.alloc);
        let mut last = first;
        'targets: while self.is(ASSIGN) {
            if !is_target(last.get()) {
                return Err(Halt::Unexpected);
            }
            self.skip();
            targets.push(last.into_inner())?;
            last = self.value()?;
        }
        self.ended(nodes::assigned(line, targets, last))
    }

    /// A simple statement that begins with a value.
    pub(crate) fn assignment_or_expression(&mut self) -> Result<WideStmt, Halt>
        ensures { Settled (left a_simple AssignmentOrExpression) stm_of self.old self.new result }
    {
        let first = self.value()?;
        let line = first.get().line;
        if self.is(COLON) {
            if !is_place(first.get()) {
                return Err(Halt::Unexpected);
            }
            self.skip();
            return self.annotating(line, first);
        }
        if let Some(operator) = self.operator() {
            if !is_place(first.get()) {
                return Err(Halt::Unexpected);
            }
            self.skip();
            return self.augmenting(line, first, operator);
        }
        self.assigning(line, first)
    }
}
