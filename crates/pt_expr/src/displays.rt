//! Expressions with commas between them, parentheses, and displays of lists (Language Reference 6.2.3 to 6.2.5, 6.2.9, 6.15).

ghost use Rattle.std.specs.Prelude.{◌≡◌, ◌≤◌, ◌<◌, ◌-◌, ◌↔◌, ℕ, Some, false, IsTrue};
ghost use Rattle.pt_wide.specs.Fold.{exp_of};
ghost use Rattle.pt_readers.specs.Reading.{next_of};
ghost use Rattle.pt_readers.specs.Settled.{Settled};
ghost use Rattle.pt_readers.proofs.Readers.{left};
ghost use Rattle.pt_grammar.specs.Lexemes.{sign_at};
ghost use Rattle.pt_base.specs.declared.operators.BinOp.TheVariants.{Mul as multiply};
ghost use Rattle.pt_wide.specs.declared.expression.WideBinOp.TheVariants.{Plain as plain_operator};
ghost use Rattle.pt_grammar.specs.declared.part.Part.TheVariants.{Whole as whole_part};
ghost use Rattle.pt_grammar.specs.declared.sign.Sign.TheVariants.{Operator as operator_sign, Mark as mark_sign, Word as word_sign};
ghost use Rattle.pt_grammar.specs.declared.sign.Mark.TheVariants.{Open as open_parenthesis, OpenBracket as open_bracket};
ghost use Rattle.pt_grammar.specs.declared.sign.Word.TheVariants.{From as from_word, For as for_word};
ghost use Rattle.pt_grammar.specs.Parts.{Fits, item_rank, an_atom, a_bare, a_value, a_yielded, some_exprs};
ghost use Rattle.pt_grammar.specs.ReadViews.{listed_read};
ghost use Rattle.pt_grammar.specs.Behind.{Followed, Closed, Inside, InParentheses, InBrackets};

use crate::Reader;
use pt_base::{BinOp, Line};
use pt_grammar::comprehension_nodes::comprehension;
use pt_grammar::deep::{Deep, Listed, Several};
use pt_grammar::{Mark, Part, Sign, Word, display_nodes, nodes};
use pt_readers::Halt;
use pt_wide::{Comprehension, WideBinOp};

impl<'a> Reader<'a> {
    /// Expressions or targets with commas between them, as one expression (Language Reference 6.15, 7.2).
    #[cycle(reading)]
    pub fn exprs(&mut self, part: Part, room: u32) -> Result<Deep, Halt>
        requires some { 0 < room }
        requires few { room ≤ 500 }
        ensures { Settled (a_bare part room) (λ e. exp_of e.tree) self.old.lexemes self.new.lexemes result }
    {
        let first = self.item(part, room)?;
        self.behind_item(part, first, room)
    }

    /// What is left of them behind the first: a tuple where a comma stands there.
    #[cycle(reading)]
    pub(crate) fn behind_item(&mut self, part: Part, first: Deep, room: u32) -> Result<Deep, Halt>
        requires some { 0 < room }
        requires few { room ≤ 500 }
        requires fits { Fits room (exp_of first.tree) }
        ensures { Settled (left (a_bare part room) (Followed part (exp_of first.tree))) (λ e. exp_of e.tree) self.old.lexemes self.new.lexemes result }
    {
        if !self.lexemes.is(Sign::Mark(Mark::Comma)) {
            if !self.lexemes.ends_items(part) {
                return Err(Halt::Unexpected);
            }
            return Ok(first);
        }
        if first.depth >= room {
            return Err(Halt::Limit);
        }
        let line = first.line();
        let items = Several::new(self.alloc).with(first)?;
        let listed = self.more_items(part, items, room - 1)?;
        if !self.lexemes.ends_items(part) {
            return Err(Halt::Unexpected);
        }
        Ok(display_nodes::tuple(self.alloc, line, listed.items)?)
    }

    /// Expressions with commas between them, or `yield` (Language Reference 6.2.9).
    #[cycle(reading)]
    pub fn value(&mut self, room: u32) -> Result<Deep, Halt>
        requires some { 0 < room }
        requires few { room ≤ 500 }
        ensures { Settled (a_value room) (λ e. exp_of e.tree) self.old.lexemes self.new.lexemes result }
    {
        if !self.lexemes.is(Sign::Word(Word::Yield)) {
            return self.exprs(Part::Whole, room);
        }
        let line = self.lexemes.line();
        self.lexemes.skip();
        self.yielded(line, room)
    }

    /// What stands behind `yield`, if anything does.
    #[cycle(reading)]
    fn yielded(&mut self, line: Line, room: u32) -> Result<Deep, Halt>
        requires some { 0 < room }
        requires few { room ≤ 500 }
        ensures { Settled (a_yielded line.0 room) (λ e. exp_of e.tree) self.old.lexemes self.new.lexemes result }
    {
        if self.lexemes.ends_items(Part::Whole) {
            return Ok(display_nodes::yield_nothing(self.alloc, line)?);
        }
        if self.lexemes.is(Sign::Word(Word::From)) {
            return self.yielded_from(line, room);
        }
        if !self.begins_item(Part::Whole) {
            return Err(Halt::Unexpected);
        }
        if room == 1 {
            return Err(Halt::Limit);
        }
        let value = self.exprs(Part::Whole, room - 1)?;
        Ok(display_nodes::yield_value(self.alloc, line, value)?)
    }

    /// `from` behind `yield`, and the iterable.
    #[cycle(reading)]
    fn yielded_from(&mut self, line: Line, room: u32) -> Result<Deep, Halt>
        requires from { sign_at (next_of self.old.lexemes) ≡ Some (word_sign from_word) }
        requires some { 0 < room }
        requires few { room ≤ 500 }
        ensures { Settled (a_yielded line.0 room) (λ e. exp_of e.tree) self.old.lexemes self.new.lexemes result }
    {
        if room == 1 {
            return Err(Halt::Limit);
        }
        self.lexemes.skip();
        let iterable = self.expr(room - 1)?;
        if !self.lexemes.ends_items(Part::Whole) {
            return Err(Halt::Unexpected);
        }
        Ok(display_nodes::yield_from(self.alloc, line, iterable)?)
    }

    /// Whether `*` is next.
    fn is_star(&self) -> bool
        ensures { IsTrue result ↔ (sign_at (next_of self.now.lexemes) ≡ Some (operator_sign (plain_operator multiply))) }
    {
        self.lexemes
            .is(Sign::Operator(WideBinOp::Plain(BinOp::Mul)))
    }

    /// Whether clauses stand behind an item, which have none with a star.
    fn begins_clauses(&self, starred: bool) -> bool
        ensures { IsTrue result ↔ ((starred ≡ false) × (sign_at (next_of self.now.lexemes) ≡ Some (word_sign for_word))) }
    {
        !starred && self.lexemes.is(Sign::Word(Word::For))
    }

    /// `( .. )` (Language Reference 6.2.3, 6.2.8).
    #[cycle(reading)]
    pub(crate) fn parenthesized(&mut self, room: u32) -> Result<Deep, Halt>
        requires open { sign_at (next_of self.old.lexemes) ≡ Some (mark_sign open_parenthesis) }
        requires some { 0 < room }
        requires few { room ≤ 500 }
        ensures { Settled (an_atom room) (λ e. exp_of e.tree) self.old.lexemes self.new.lexemes result }
    {
        let line = self.lexemes.line();
        self.lexemes.skip();
        self.inside(line, room)
    }

    /// What stands behind the opening parenthesis on this line, with the closing one.
    #[cycle(reading)]
    pub fn inside(&mut self, line: Line, room: u32) -> Result<Deep, Halt>
        requires some { 0 < room }
        requires few { room ≤ 500 }
        ensures { Settled (left (an_atom room) (Inside line.0)) (λ e. exp_of e.tree) self.old.lexemes self.new.lexemes result }
    {
        if self.lexemes.take(Sign::Mark(Mark::Close)) {
            let nothing = display_nodes::tuple(self.alloc, line, Several::new(self.alloc))?;
            return Ok(nodes::parenthesized(self.alloc, line, nothing)?);
        }
        if self.lexemes.is(Sign::Word(Word::Yield)) {
            let value = self.value(room)?;
            return self.closed(line, value);
        }
        let starred = self.is_star();
        let first = self.item(Part::Whole, room)?;
        if self.begins_clauses(starred) {
            return self.generator(line, first, room);
        }
        let items = self.behind_item(Part::Whole, first, room)?;
        self.closed(line, items)
    }

    /// The closing parenthesis.
    fn closed(&mut self, line: Line, inside: Deep) -> Result<Deep, Halt>
        ensures { (d : ℕ) → Fits d (exp_of inside.tree) → Settled (left (an_atom d) (Closed line.0 (exp_of inside.tree))) (λ e. exp_of e.tree) self.old.lexemes self.new.lexemes result }
    {
        if !self.lexemes.take(Sign::Mark(Mark::Close)) {
            return Err(Halt::Unexpected);
        }
        Ok(nodes::parenthesized(self.alloc, line, inside)?)
    }

    /// The clauses behind an item in parentheses (Language Reference 6.2.8).
    #[cycle(reading)]
    pub fn generator(&mut self, line: Line, item: Deep, room: u32) -> Result<Deep, Halt>
        requires first { sign_at (next_of self.old.lexemes) ≡ Some (word_sign for_word) }
        requires unstarred { item_rank whole_part (exp_of item.tree) ≡ 11 }
        requires few { room ≤ 500 }
        requires fits { Fits room (exp_of item.tree) }
        ensures { Settled (left (an_atom room) (InParentheses line.0 (exp_of item.tree))) (λ e. exp_of e.tree) self.old.lexemes self.new.lexemes result }
    {
        if item.depth >= room {
            return Err(Halt::Limit);
        }
        let start = item.line();
        let clauses = self.clauses(room - 1)?;
        if !self.lexemes.take(Sign::Mark(Mark::Close)) {
            return Err(Halt::Unexpected);
        }
        let form = Comprehension::Generator;
        let node = comprehension(self.alloc, start, form, item, clauses)?;
        Ok(nodes::parenthesized(self.alloc, line, node)?)
    }

    /// Items with commas between them, and perhaps one behind the last.
    pub fn several(&mut self, part: Part, room: u32) -> Result<Listed, Halt>
        requires some { 0 < room }
        requires few { room ≤ 500 }
        ensures { Settled (some_exprs part room) listed_read self.old.lexemes self.new.lexemes result }
    {
        let first = self.item(part, room)?;
        let items = Several::new(self.alloc).with(first)?;
        self.more_items(part, items, room)
    }

    /// `[ .. ]` (Language Reference 6.2.5).
    #[cycle(reading)]
    pub(crate) fn list(&mut self, room: u32) -> Result<Deep, Halt>
        requires open { sign_at (next_of self.old.lexemes) ≡ Some (mark_sign open_bracket) }
        requires some { 0 < room }
        requires few { room ≤ 500 }
        ensures { Settled (an_atom room) (λ e. exp_of e.tree) self.old.lexemes self.new.lexemes result }
    {
        let line = self.lexemes.line();
        self.lexemes.skip();
        if self.lexemes.take(Sign::Mark(Mark::CloseBracket)) {
            return Ok(nodes::list(self.alloc, line, Several::new(self.alloc))?);
        }
        if !self.begins_item(Part::Whole) {
            return Err(Halt::Unexpected);
        }
        if room == 1 {
            return Err(Halt::Limit);
        }
        let starred = self.is_star();
        let first = self.item(Part::Whole, room - 1)?;
        if self.begins_clauses(starred) {
            return self.list_comprehension(line, first, room);
        }
        let items = Several::new(self.alloc).with(first)?;
        let listed = self.more_items(Part::Whole, items, room - 1)?;
        if !self.lexemes.take(Sign::Mark(Mark::CloseBracket)) {
            return Err(Halt::Unexpected);
        }
        Ok(nodes::list(self.alloc, line, listed.items)?)
    }

    /// The clauses behind an item in the brackets of a list (Language Reference 6.2.5).
    #[cycle(reading)]
    fn list_comprehension(&mut self, line: Line, item: Deep, room: u32) -> Result<Deep, Halt>
        requires first { sign_at (next_of self.old.lexemes) ≡ Some (word_sign for_word) }
        requires unstarred { item_rank whole_part (exp_of item.tree) ≡ 11 }
        requires some { 1 < room }
        requires few { room ≤ 500 }
        requires fits { Fits (room - 1) (exp_of item.tree) }
        ensures { Settled (left (an_atom room) (InBrackets line.0 (exp_of item.tree))) (λ e. exp_of e.tree) self.old.lexemes self.new.lexemes result }
    {
        let clauses = self.clauses(room - 1)?;
        if !self.lexemes.take(Sign::Mark(Mark::CloseBracket)) {
            return Err(Halt::Unexpected);
        }
        let form = Comprehension::List;
        Ok(comprehension(self.alloc, line, form, item, clauses)?)
    }
}
