//! Parts of expressions that the readers of items of a `with` ask for.

ghost use Rattle.std.specs.Prelude.{◌≡◌, ◌<◌, Some, false, map};
ghost use Rattle.pt_wide.specs.Fold.{exp_of};
ghost use Rattle.pt_wide.specs.Measure.{depth_exp};
ghost use Rattle.pt_readers.specs.Reading.{next_of};
ghost use Rattle.pt_readers.specs.Settled.{Settled};
ghost use Rattle.pt_readers.proofs.Readers.{left};
ghost use Rattle.pt_grammar.specs.declared.part.Part.TheVariants.{Whole as whole_part};
ghost use Rattle.pt_grammar.specs.declared.sign.Sign.TheVariants.{Word as word_sign};
ghost use Rattle.pt_grammar.specs.declared.sign.Word.TheVariants.{For as for_word};
ghost use Rattle.pt_grammar.specs.Lexemes.{sign_at};
ghost use Rattle.pt_grammar.specs.Grammar.{MoreItems};
ghost use Rattle.pt_grammar.specs.Behind.{InParentheses};
ghost use Rattle.pt_grammar.specs.BehindAtom.{OfExpr};
ghost use Rattle.pt_grammar.specs.Parts.{FitsItems, IsComma, StopsItems, an_atom, a_bor, some_exprs, ends_in_text, item_rank};
ghost use Rattle.pt_grammar.specs.ReadViews.{listed_read};
ghost use Rattle.pt_grammar.specs.Behind.{Inside};
ghost use Rattle.pt_parser.specs.Limits.{FitsExp};
ghost use Rattle.pt_parser.specs.Simple.{an_expression};

use crate::Statements;
use crate::reader::{LEVEL_OF_PLACES, MAX_DEPTH};
use pt_base::Line;
use pt_grammar::Part;
use pt_grammar::deep::{Deep, Listed, Several};
use pt_readers::Halt;

impl<'a> Statements<'a> {
    /// An expression, with its depth.
    pub(crate) fn deep_expression(&mut self) -> Result<Deep, Halt>
        ensures { Settled an_expression (λ e. exp_of e.tree) self.old self.new result }
    {
        self.expressions.expr(MAX_DEPTH)
    }

    /// What is left of an expression behind the atom with which it begins.
    pub(crate) fn behind_atom(&mut self, atom: Deep) -> Result<Deep, Halt>
        requires fits { FitsExp (exp_of atom.tree) }
        requires closed { ends_in_text (exp_of atom.tree) ≡ false }
        ensures { Settled (left an_expression (OfExpr (exp_of atom.tree))) (λ e. exp_of e.tree) self.old self.new result }
    {
        self.expressions.behind_atom(atom, MAX_DEPTH)
    }

    /// What stands behind a parenthesis on this line, with the closing one.
    pub(crate) fn inside(&mut self, line: Line) -> Result<Deep, Halt>
        ensures { Settled (left (an_atom 500) (Inside line.0)) (λ e. exp_of e.tree) self.old self.new result }
    {
        self.expressions.inside(line, MAX_DEPTH)
    }

    /// The clauses behind the first item in parentheses, and the closing one.
    pub(crate) fn generator(&mut self, line: Line, item: Deep) -> Result<Deep, Halt>
        requires first { sign_at (next_of self.old) ≡ Some (word_sign for_word) }
        requires unstarred { item_rank whole_part (exp_of item.tree) ≡ 11 }
        requires fits { FitsExp (exp_of item.tree) }
        ensures { Settled (left (an_atom 500) (InParentheses line.0 (exp_of item.tree))) (λ e. exp_of e.tree) self.old self.new result }
    {
        self.expressions.generator(line, item, MAX_DEPTH)
    }

    /// What stands behind a star in a tuple.
    pub(crate) fn operand(&mut self) -> Result<Deep, Halt>
        ensures { Settled (a_bor 499) (λ e. exp_of e.tree) self.old self.new result }
    {
        self.expressions.binary(LEVEL_OF_PLACES, MAX_DEPTH - 1)
    }

    /// More items of a tuple behind these, and perhaps one comma behind the last.
    pub(crate) fn rest_of_tuple(&mut self, items: Several) -> Result<Listed, Halt>
        requires fits { FitsItems 499 (map exp_of items.items) }
        requires stops { (IsComma (next_of self.old) → ⊥) → StopsItems whole_part false (map exp_of items.items) (next_of self.old) }
        ensures { Settled (left (some_exprs whole_part 499) (MoreItems whole_part (map exp_of items.items))) listed_read self.old self.new result }
    {
        self.expressions
            .more_items(Part::Whole, items, MAX_DEPTH - 1)
    }
}
