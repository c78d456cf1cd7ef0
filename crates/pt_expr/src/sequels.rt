//! What is left of expressions behind their first parts, from the tightest operators to the
//! loosest (Language Reference 6.3 to 6.13).

ghost use Rattle.std.specs.Prelude.{◌≡◌, ◌≤◌, ◌<◌, ◌-◌, [], false};
ghost use Rattle.pt_wide.specs.Fold.{exp_of};
ghost use Rattle.pt_readers.specs.Reading.{next_of};
ghost use Rattle.pt_readers.specs.Settled.{Settled};
ghost use Rattle.pt_readers.proofs.Readers.{left};
ghost use Rattle.pt_grammar.specs.Grammar.{Trailed, Raised, Operated, Compared, Conjoined, Disjoined, Choice};
ghost use Rattle.pt_grammar.specs.BehindAtom.{OfBinary, OfComparisons, OfConjunction, OfDisjunction, OfExpr};
ghost use Rattle.pt_grammar.specs.Signs.{of_numbers, of_comparisons, of_and, of_or};
ghost use Rattle.pt_grammar.specs.Parts.{Fits, Stops, Apart, ends_in_text, a_primary, a_power, a_binary, comparisons, a_conjunction, a_disjunction, an_expr};

use crate::Reader;
use pt_base::BinOp;
use pt_grammar::deep::{Deep, Links, Several};
use pt_grammar::{Sign, Word, call_nodes, nodes};
use pt_readers::Halt;
use pt_wide::WideBinOp;

impl<'a> Reader<'a> {
    /// What stands behind an atom and is part of its primary, as often as such a thing does.
    #[cycle(reading)]
    pub(crate) fn more_trailers(&mut self, object: Deep, room: u32) -> Result<Deep, Halt>
        requires some { 0 < room }
        requires few { room ≤ 500 }
        requires fits { Fits room (exp_of object.tree) }
        requires apart { Apart (ends_in_text (exp_of object.tree)) (next_of self.old.lexemes) }
        ensures { Settled (left (a_primary room) (Trailed (exp_of object.tree))) (λ e. exp_of e.tree) self.old.lexemes self.new.lexemes result }
    {
        let mut object = object;
        'more: while let Some(sign) = self.trailing_sign() {
            if object.depth >= room {
                return Err(Halt::Limit);
            }
            self.lexemes.skip();
            let trailer = self.trailer(sign, room - 1)?;
            object = call_nodes::trailed(self.alloc, object, trailer)?;
        }
        Ok(object)
    }

    /// What a primary is raised to, if `**` is next.
    #[cycle(reading)]
    pub(crate) fn raising(&mut self, base: Deep, room: u32) -> Result<Deep, Halt>
        requires some { 0 < room }
        requires few { room ≤ 500 }
        requires fits { Fits room (exp_of base.tree) }
        requires stops { Stops 0 (exp_of base.tree) (next_of self.old.lexemes) }
        ensures { Settled (left (a_power room) (Raised (exp_of base.tree))) (λ e. exp_of e.tree) self.old.lexemes self.new.lexemes result }
    {
        let operator = WideBinOp::Plain(BinOp::Pow);
        if !self.lexemes.is(Sign::Operator(operator)) {
            return Ok(base);
        }
        if base.depth >= room {
            return Err(Halt::Limit);
        }
        self.lexemes.skip();
        let exponent = self.factor(room - 1)?;
        Ok(nodes::binary(self.alloc, base, operator, exponent)?)
    }

    /// Operators of this rank, and their operands, behind the first one.
    #[cycle(reading)]
    pub(crate) fn more_operands(&mut self, level: u8, first: Deep, room: u32) -> Result<Deep, Halt>
        requires some_level { 0 < level }
        requires level { level ≤ 6 }
        requires some { 0 < room }
        requires few { room ≤ 500 }
        requires fits { Fits room (exp_of first.tree) }
        requires stops { Stops level (exp_of first.tree) (next_of self.old.lexemes) }
        ensures { Settled (left (a_binary level room) (Operated (level - 1) (exp_of first.tree))) (λ e. exp_of e.tree) self.old.lexemes self.new.lexemes result }
    {
        let mut left = first;
        'more: while let Some(operator) = self.operator(level + 1) {
            if left.depth >= room {
                return Err(Halt::Limit);
            }
            self.lexemes.skip();
            let right = self.binary(level - 1, room - 1)?;
            left = nodes::binary(self.alloc, left, operator, right)?;
        }
        Ok(left)
    }

    /// Comparisons behind what is compared first.
    #[cycle(reading)]
    pub(crate) fn more_comparisons(&mut self, operand: Deep, room: u32) -> Result<Deep, Halt>
        requires some { 0 < room }
        requires few { room ≤ 500 }
        requires fits { Fits room (exp_of operand.tree) }
        requires stops { Stops of_numbers (exp_of operand.tree) (next_of self.old.lexemes) }
        ensures { Settled (left (comparisons room) (Compared (exp_of operand.tree) [])) (λ e. exp_of e.tree) self.old.lexemes self.new.lexemes result }
    {
        let Some(sign) = self.comparing_sign() else {
            return Ok(operand);
        };
        if operand.depth >= room {
            return Err(Halt::Limit);
        }
        self.lexemes.skip();
        let first = self.comparing(sign, room - 1)?;
        let mut more = Links::new(self.alloc);
        'more: while let Some(sign) = self.comparing_sign() {
            self.lexemes.skip();
            let next = self.comparing(sign, room - 1)?;
            more = more.with(next)?;
        }
        Ok(nodes::comparison(self.alloc, operand, first, more)?)
    }

    /// What stands behind the first part of a chain of `and`.
    #[cycle(reading)]
    pub(crate) fn more_conjuncts(&mut self, first: Deep, room: u32) -> Result<Deep, Halt>
        requires some { 0 < room }
        requires few { room ≤ 500 }
        requires fits { Fits room (exp_of first.tree) }
        requires stops { Stops of_comparisons (exp_of first.tree) (next_of self.old.lexemes) }
        ensures { Settled (left (a_conjunction room) (Conjoined (exp_of first.tree) [])) (λ e. exp_of e.tree) self.old.lexemes self.new.lexemes result }
    {
        let mut more = Several::new(self.alloc);
        'more: while self.lexemes.is(Sign::Word(Word::And)) {
            if first.depth >= room {
                return Err(Halt::Limit);
            }
            self.lexemes.skip();
            let next = self.negation(room - 1)?;
            more = more.with(next)?;
        }
        Ok(nodes::conjunction(self.alloc, first, more)?)
    }

    /// What stands behind the first part of a chain of `or`.
    #[cycle(reading)]
    pub(crate) fn more_disjuncts(&mut self, first: Deep, room: u32) -> Result<Deep, Halt>
        requires some { 0 < room }
        requires few { room ≤ 500 }
        requires fits { Fits room (exp_of first.tree) }
        requires stops { Stops of_and (exp_of first.tree) (next_of self.old.lexemes) }
        ensures { Settled (left (a_disjunction room) (Disjoined (exp_of first.tree) [])) (λ e. exp_of e.tree) self.old.lexemes self.new.lexemes result }
    {
        let mut more = Several::new(self.alloc);
        'more: while self.lexemes.is(Sign::Word(Word::Or)) {
            if first.depth >= room {
                return Err(Halt::Limit);
            }
            self.lexemes.skip();
            let next = self.conjunction(room - 1)?;
            more = more.with(next)?;
        }
        Ok(nodes::disjunction(self.alloc, first, more)?)
    }

    /// The condition behind the body of a conditional expression, and its other value.
    #[cycle(reading)]
    pub(crate) fn choosing(&mut self, body: Deep, room: u32) -> Result<Deep, Halt>
        requires some { 0 < room }
        requires few { room ≤ 500 }
        requires fits { Fits room (exp_of body.tree) }
        requires stops { Stops of_or (exp_of body.tree) (next_of self.old.lexemes) }
        ensures { Settled (left (an_expr room) (Choice (exp_of body.tree))) (λ e. exp_of e.tree) self.old.lexemes self.new.lexemes result }
    {
        if !self.lexemes.is(Sign::Word(Word::If)) {
            return Ok(body);
        }
        if body.depth >= room {
            return Err(Halt::Limit);
        }
        self.lexemes.skip();
        let test = self.disjunction(room - 1)?;
        if !self.lexemes.take(Sign::Word(Word::Else)) {
            return Err(Halt::Unexpected);
        }
        let otherwise = self.expr(room - 1)?;
        Ok(nodes::conditional(self.alloc, body, test, otherwise)?)
    }

    /// What is left of operators of at most this rank behind the atom with which they begin.
    fn operators_behind(&mut self, level: u8, atom: Deep, room: u32) -> Result<Deep, Halt>
        requires level { level ≤ 6 }
        requires some { 0 < room }
        requires few { room ≤ 500 }
        requires fits { Fits room (exp_of atom.tree) }
        requires closed { ends_in_text (exp_of atom.tree) ≡ false }
        ensures { Settled (left (a_binary level room) (OfBinary level (exp_of atom.tree))) (λ e. exp_of e.tree) self.old.lexemes self.new.lexemes result }
    {
        if level == 0 {
            let base = self.more_trailers(atom, room)?;
            return self.raising(base, room);
        }
        let first = self.operators_behind(level - 1, atom, room)?;
        self.more_operands(level, first, room)
    }

    /// What is left of comparisons behind the atom with which they begin.
    fn comparisons_behind(&mut self, atom: Deep, room: u32) -> Result<Deep, Halt>
        requires some { 0 < room }
        requires few { room ≤ 500 }
        requires fits { Fits room (exp_of atom.tree) }
        requires closed { ends_in_text (exp_of atom.tree) ≡ false }
        ensures { Settled (left (comparisons room) (OfComparisons (exp_of atom.tree))) (λ e. exp_of e.tree) self.old.lexemes self.new.lexemes result }
    {
        let left = self.operators_behind(6, atom, room)?;
        self.more_comparisons(left, room)
    }

    /// What is left of a chain of `and` behind the atom with which it begins.
    fn conjunction_behind(&mut self, atom: Deep, room: u32) -> Result<Deep, Halt>
        requires some { 0 < room }
        requires few { room ≤ 500 }
        requires fits { Fits room (exp_of atom.tree) }
        requires closed { ends_in_text (exp_of atom.tree) ≡ false }
        ensures { Settled (left (a_conjunction room) (OfConjunction (exp_of atom.tree))) (λ e. exp_of e.tree) self.old.lexemes self.new.lexemes result }
    {
        let first = self.comparisons_behind(atom, room)?;
        self.more_conjuncts(first, room)
    }

    /// What is left of a chain of `or` behind the atom with which it begins.
    fn disjunction_behind(&mut self, atom: Deep, room: u32) -> Result<Deep, Halt>
        requires some { 0 < room }
        requires few { room ≤ 500 }
        requires fits { Fits room (exp_of atom.tree) }
        requires closed { ends_in_text (exp_of atom.tree) ≡ false }
        ensures { Settled (left (a_disjunction room) (OfDisjunction (exp_of atom.tree))) (λ e. exp_of e.tree) self.old.lexemes self.new.lexemes result }
    {
        let first = self.conjunction_behind(atom, room)?;
        self.more_disjuncts(first, room)
    }

    /// What is left of an expression behind the atom with which it begins, where a string behind
    /// it is no part of that atom.
    pub fn behind_atom(&mut self, atom: Deep, room: u32) -> Result<Deep, Halt>
        requires some { 0 < room }
        requires few { room ≤ 500 }
        requires fits { Fits room (exp_of atom.tree) }
        requires closed { ends_in_text (exp_of atom.tree) ≡ false }
        ensures { Settled (left (an_expr room) (OfExpr (exp_of atom.tree))) (λ e. exp_of e.tree) self.old.lexemes self.new.lexemes result }
    {
        let body = self.disjunction_behind(atom, room)?;
        self.choosing(body, room)
    }
}
