//! Readers of expressions, from the loosest operators to the tightest (Language Reference 6).

ghost use Rattle.std.specs.Prelude.{◌≡◌, ◌≢◌, ◌≤◌, ◌<◌, ◌↔◌, ℕ, Some, None, false, map, length, IsTrue, MatchOption, OnSome};
ghost use Rattle.pt_wide.specs.Fold.{exp_of};
ghost use Rattle.pt_readers.specs.Reading.{next_of};
ghost use Rattle.pt_readers.specs.Settled.{Settled};
ghost use Rattle.pt_grammar.specs.declared.sign.Sign.{Sign as SignKind};
ghost use Rattle.pt_grammar.specs.declared.sign.Sign.TheVariants.{Operator as operator_sign, Singleton as singleton_sign, Mark as mark_sign};
ghost use Rattle.pt_grammar.specs.declared.sign.Mark.TheVariants.{Dot as dot};
ghost use Rattle.pt_grammar.specs.Nodes.{by_name};
ghost use Rattle.pt_wide.specs.declared.expression.WideBinOp.{WideBinOp as OperatorKind};
ghost use Rattle.pt_wide.specs.declared.expression.WideBinOp.TheVariants.{Plain as plain_operator};
ghost use Rattle.pt_base.specs.declared.operators.BinOp.TheVariants.{Mul as multiply};
ghost use Rattle.pt_readers.proofs.Readers.{left};
ghost use Rattle.pt_grammar.specs.Grammar.{MoreItems};
ghost use Rattle.pt_grammar.specs.Signs.{BeginsString, rank_of as rank_of_operator, rank_of_sign, unary_at, begins_item as begins_item_at};
ghost use Rattle.pt_grammar.specs.Lexemes.{sign_at, lexemes as lexemes_of, int as int_lexeme};
ghost use Rattle.pt_grammar.specs.Parts.{FitsItems, IsComma, StopsItems, an_atom, an_item, some_exprs, a_trailer, a_primary, a_power, a_factor, a_binary, a_link, a_comparing, comparisons, a_negation, a_conjunction, a_disjunction, an_expr};
ghost use Rattle.pt_grammar.specs.ReadViews.{link_read, listed_read};

use pt_base::{BinOp, CompareOp, Line, Text, UnOp};
use pt_grammar::deep::{Deep, Linked, Listed, Several};
use pt_grammar::operators::{begins_sign, compares, rank_of, unary_of};
use pt_grammar::{Layout, Lexemes, Mark, Part, Sign, Singleton, Word, nodes};
use pt_lexer::{Token, TokenKind};
use pt_readers::Halt;
use pt_wide::WideBinOp;
use std::alloc::Global;

/// The most items of a display.
pub const MAX_ITEMS: usize = 4096;

/// A reader of expressions and of their parts. Where a part is refused it stands before the token
/// with which nothing goes on.
#[derive(Drop)]
pub struct Reader<'a> {
    pub alloc: Global,
    pub lexemes: Lexemes<'a>,
}

impl<'a> Reader<'a> {
    pub fn new(alloc: Global, tokens: &'a [Token]) -> Reader<'a>
        ensures { result.lexemes ≡ lexemes_of tokens.now }
    {
        Reader {
            alloc,
            lexemes: Lexemes::new(tokens),
        }
    }

    /// The operator of this rank that is next, if one is.
    pub(crate) fn operator(&self, rank: u8) -> Option<WideBinOp>
        ensures value { MatchOption result
            ((o : OperatorKind) → sign_at (next_of self.now.lexemes) ≡ Some (operator_sign o) → rank_of_operator o ≢ rank)
            (λ o. (sign_at (next_of self.now.lexemes) ≡ Some (operator_sign o)) × (rank_of_operator o ≡ rank)) }
        ensures some { OnSome result (0 < length self.now.lexemes) }
    {
        match self.lexemes.sign() {
            Some(Sign::Operator(operator)) if rank_of(operator) == rank => Some(operator),
            _ => None,
        }
    }

    /// The sign with which a comparison's operator begins, if it is next.
    pub(crate) fn comparing_sign(&self) -> Option<Sign>
        ensures value { MatchOption result
            ((s : SignKind) → sign_at (next_of self.now.lexemes) ≡ Some s → rank_of_sign s ≢ 8)
            (λ s. (sign_at (next_of self.now.lexemes) ≡ Some s) × (rank_of_sign s ≡ 8)) }
        ensures some { OnSome result (0 < length self.now.lexemes) }
    {
        match self.lexemes.sign() {
            Some(sign) if compares(sign) => Some(sign),
            _ => None,
        }
    }

    /// What the next token does before a value.
    fn unary_operator(&self) -> Option<UnOp>
        ensures value { result ≡ unary_at (next_of self.now.lexemes) }
        ensures some { OnSome result (0 < length self.now.lexemes) }
    {
        match self.lexemes.sign() {
            Some(sign) => unary_of(sign),
            None => None,
        }
    }

    /// A number, whose token is next.
    fn number(&mut self, line: Line, value: i128) -> Result<Deep, Halt>
        requires { next_of self.old.lexemes ≡ Some (int_lexeme line.0 value) }
        ensures { (d : ℕ) → 0 < d → Settled (an_atom d) (λ e. exp_of e.tree) self.old.lexemes self.new.lexemes result }
    {
        self.lexemes.skip();
        Ok(nodes::int(self.alloc, line, value)?)
    }

    /// A name or a number.
    fn literal(&mut self) -> Result<Deep, Halt>
        requires none { sign_at (next_of self.old.lexemes) ≡ None }
        requires no_string { BeginsString (next_of self.old.lexemes) → ⊥ }
        ensures { (d : ℕ) → 0 < d → Settled (an_atom d) (λ e. exp_of e.tree) self.old.lexemes self.new.lexemes result }
    {
        let Some(token) = self.lexemes.peek() else {
            return Err(Halt::Unexpected);
        };
        match &token.kind {
            TokenKind::Name(text) => {
                self.lexemes.skip();
                Ok(nodes::name(self.alloc, token.line, text)?)
            }
            TokenKind::Int(value) => self.number(token.line, *value),
            _ => Err(Halt::Unexpected),
        }
    }

    /// Whether a name, a number or a string is next, where no sign is.
    fn begins_literal(&self, part: Part) -> bool
        requires { sign_at (next_of self.now.lexemes) ≡ None }
        ensures { result ≡ begins_item_at part (next_of self.now.lexemes) }
    {
        let Some(token) = self.lexemes.peek() else {
            return false;
        };
        match &token.kind {
            TokenKind::Name(_) => true,
            TokenKind::Int(_) => true,
            TokenKind::Str(_) => true,
            _ => false,
        }
    }

    /// Whether an item of a display or of targets begins with the next token.
    pub(crate) fn begins_item(&self, part: Part) -> bool
        ensures { result ≡ begins_item_at part (next_of self.now.lexemes) }
    {
        match self.lexemes.sign() {
            Some(sign) => begins_sign(part, sign),
            None => self.begins_literal(part),
        }
    }

    /// Whether a string is next, where no sign is.
    pub(crate) fn is_string(&self) -> bool
        requires { sign_at (next_of self.now.lexemes) ≡ None }
        ensures { IsTrue result ↔ BeginsString (next_of self.now.lexemes) }
    {
        let Some(token) = self.lexemes.peek() else {
            return false;
        };
        match &token.kind {
            TokenKind::Str(_) => true,
            _ => false,
        }
    }

    /// The name behind a dot.
    pub(crate) fn attribute_name(&mut self) -> Result<Text, Halt>
        ensures value { (d : ℕ) → Settled (a_trailer d (mark_sign dot)) by_name self.old.lexemes self.new.lexemes result }
        ensures not_longer { length self.new.lexemes ≤ length self.old.lexemes }
    {
        let Some(token) = self.lexemes.peek() else {
            return Err(Halt::Unexpected);
        };
        match &token.kind {
            TokenKind::Name(text) => {
                self.lexemes.skip();
                Ok(Text::from_str(self.alloc, text.as_str())?)
            }
            _ => Err(Halt::Unexpected),
        }
    }

    /// A constant that is a sign.
    fn singleton(&mut self, which: Singleton) -> Result<Deep, Halt>
        requires { sign_at (next_of self.old.lexemes) ≡ Some (singleton_sign which) }
        ensures { (d : ℕ) → 0 < d → Settled (an_atom d) (λ e. exp_of e.tree) self.old.lexemes self.new.lexemes result }
    {
        let line = self.lexemes.line();
        self.lexemes.skip();
        Ok(nodes::singleton(self.alloc, line, which)?)
    }

    /// An atom (Language Reference 6.2), of at most so many nodes inside one another.
    #[cycle(reading)]
    fn atom(&mut self, room: u32) -> Result<Deep, Halt>
        requires some { 0 < room }
        requires few { room ≤ 500 }
        ensures { Settled (an_atom room) (λ e. exp_of e.tree) self.old.lexemes self.new.lexemes result }
    {
        let Some(sign) = self.lexemes.sign() else {
            if self.is_string() {
                return self.strings(room);
            }
            return self.literal();
        };
        if sign.same(Sign::Mark(Mark::Open)) {
            return self.parenthesized(room);
        }
        if sign.same(Sign::Mark(Mark::OpenBracket)) {
            return self.list(room);
        }
        if sign.same(Sign::Mark(Mark::OpenBrace)) {
            return self.braces(room);
        }
        if sign.same(Sign::Layout(Layout::FStart)) {
            return self.strings(room);
        }
        match sign {
            Sign::Singleton(which) => self.singleton(which),
            _ => Err(Halt::Unexpected),
        }
    }

    /// An item of a display without a star, or of targets.
    #[cycle(reading)]
    fn unstarred(&mut self, part: Part, room: u32) -> Result<Deep, Halt>
        requires none { sign_at (next_of self.old.lexemes) ≢ Some (operator_sign (plain_operator multiply)) }
        requires some { 0 < room }
        requires few { room ≤ 500 }
        ensures { Settled (an_item part room) (λ e. exp_of e.tree) self.old.lexemes self.new.lexemes result }
    {
        match part {
            Part::Whole => self.expr(room),
            Part::Target => self.binary(6, room),
        }
    }

    /// An item of a display or of targets (Language Reference 6.2.4, 6.15, 7.2).
    #[cycle(reading)]
    pub(crate) fn item(&mut self, part: Part, room: u32) -> Result<Deep, Halt>
        requires some { 0 < room }
        requires few { room ≤ 500 }
        ensures { Settled (an_item part room) (λ e. exp_of e.tree) self.old.lexemes self.new.lexemes result }
    {
        if !self
            .lexemes
            .is(Sign::Operator(WideBinOp::Plain(BinOp::Mul)))
        {
            return self.unstarred(part, room);
        }
        let line = self.lexemes.line();
        self.lexemes.skip();
        let value = self.binary(6, room)?;
        Ok(nodes::starred(self.alloc, line, value)?)
    }

    /// What is left of items with commas between them behind these (Language Reference 6.2.4), and perhaps one comma behind the last.
    #[cycle(reading)]
    pub fn more_items(&mut self, part: Part, items: Several, room: u32) -> Result<Listed, Halt>
        requires some { 0 < room }
        requires few { room ≤ 500 }
        requires fits { FitsItems room (map exp_of items.items) }
        requires stops { (IsComma (next_of self.old.lexemes) → ⊥) → StopsItems part false (map exp_of items.items) (next_of self.old.lexemes) }
        ensures { Settled (left (some_exprs part room) (MoreItems part (map exp_of items.items))) listed_read self.old.lexemes self.new.lexemes result }
    {
        let mut items = items;
        'more: while self.lexemes.take(Sign::Mark(Mark::Comma)) {
            if !self.begins_item(part) {
                return Ok(Listed { items, comma: true });
            }
            if items.items.len() >= MAX_ITEMS {
                return Err(Halt::Limit);
            }
            let next = self.item(part, room)?;
            items = items.with(next)?;
        }
        Ok(Listed {
            items,
            comma: false,
        })
    }

    /// A primary (Language Reference 6.3).
    #[cycle(reading)]
    fn primary(&mut self, room: u32) -> Result<Deep, Halt>
        requires some { 0 < room }
        requires few { room ≤ 500 }
        ensures { Settled (a_primary room) (λ e. exp_of e.tree) self.old.lexemes self.new.lexemes result }
    {
        let object = self.atom(room)?;
        self.more_trailers(object, room)
    }

    /// A primary, and what it is raised to (Language Reference 6.5).
    #[cycle(reading)]
    fn power(&mut self, room: u32) -> Result<Deep, Halt>
        requires some { 0 < room }
        requires few { room ≤ 500 }
        ensures { Settled (a_power room) (λ e. exp_of e.tree) self.old.lexemes self.new.lexemes result }
    {
        let base = self.primary(room)?;
        self.raising(base, room)
    }

    /// Signs before a value, and the value (Language Reference 6.6).
    #[cycle(reading)]
    pub(crate) fn factor(&mut self, room: u32) -> Result<Deep, Halt>
        requires some { 0 < room }
        requires few { room ≤ 500 }
        ensures { Settled (a_factor room) (λ e. exp_of e.tree) self.old.lexemes self.new.lexemes result }
    {
        let Some(operator) = self.unary_operator() else {
            return self.power(room);
        };
        if room == 1 {
            return Err(Halt::Limit);
        }
        let line = self.lexemes.line();
        self.lexemes.skip();
        let operand = self.factor(room - 1)?;
        Ok(nodes::unary(self.alloc, line, operator, operand)?)
    }

    /// Operators of at most this rank, from the left (Language Reference 6.7 to 6.9).
    #[cycle(reading)]
    pub fn binary(&mut self, level: u8, room: u32) -> Result<Deep, Halt>
        requires level { level ≤ 6 }
        requires some { 0 < room }
        requires few { room ≤ 500 }
        ensures { Settled (a_binary level room) (λ e. exp_of e.tree) self.old.lexemes self.new.lexemes result }
    {
        if level == 0 {
            return self.factor(room);
        }
        let first = self.binary(level - 1, room)?;
        self.more_operands(level, first, room)
    }

    /// The right side of a comparison with this operator.
    #[cycle(reading)]
    fn link(&mut self, operator: CompareOp, room: u32) -> Result<Linked, Halt>
        requires some { 0 < room }
        requires few { room ≤ 500 }
        ensures { Settled (a_link operator room) link_read self.old.lexemes self.new.lexemes result }
    {
        let right = self.binary(6, room)?;
        Ok(Linked { operator, right })
    }

    /// What follows the sign with which a comparison's operator begins (Language Reference 6.10).
    #[cycle(reading)]
    pub(crate) fn comparing(&mut self, sign: Sign, room: u32) -> Result<Linked, Halt>
        requires sign { rank_of_sign sign ≡ 8 }
        requires some { 0 < room }
        requires few { room ≤ 500 }
        ensures { Settled (a_comparing room sign) link_read self.old.lexemes self.new.lexemes result }
    {
        if sign.same(Sign::Word(Word::In)) {
            return self.link(CompareOp::In, room);
        }
        if sign.same(Sign::Word(Word::Not)) {
            if !self.lexemes.take(Sign::Word(Word::In)) {
                return Err(Halt::Unexpected);
            }
            return self.link(CompareOp::NotIn, room);
        }
        if sign.same(Sign::Word(Word::Is)) {
            if self.lexemes.take(Sign::Word(Word::Not)) {
                return self.link(CompareOp::IsNot, room);
            }
            return self.link(CompareOp::Is, room);
        }
        match sign {
            Sign::Comparison(operator) => self.link(operator, room),
            _ => unreachable!(),
        }
    }

    /// A chain of comparisons (Language Reference 6.10).
    #[cycle(reading)]
    fn comparisons(&mut self, room: u32) -> Result<Deep, Halt>
        requires some { 0 < room }
        requires few { room ≤ 500 }
        ensures { Settled (comparisons room) (λ e. exp_of e.tree) self.old.lexemes self.new.lexemes result }
    {
        let left = self.binary(6, room)?;
        self.more_comparisons(left, room)
    }

    /// `not` before comparisons (Language Reference 6.11).
    #[cycle(reading)]
    pub(crate) fn negation(&mut self, room: u32) -> Result<Deep, Halt>
        requires some { 0 < room }
        requires few { room ≤ 500 }
        ensures { Settled (a_negation room) (λ e. exp_of e.tree) self.old.lexemes self.new.lexemes result }
    {
        if !self.lexemes.is(Sign::Word(Word::Not)) {
            return self.comparisons(room);
        }
        if room == 1 {
            return Err(Halt::Limit);
        }
        let line = self.lexemes.line();
        self.lexemes.skip();
        let operand = self.negation(room - 1)?;
        Ok(nodes::negation(self.alloc, line, operand)?)
    }

    /// A chain of `and` (Language Reference 6.11).
    #[cycle(reading)]
    pub(crate) fn conjunction(&mut self, room: u32) -> Result<Deep, Halt>
        requires some { 0 < room }
        requires few { room ≤ 500 }
        ensures { Settled (a_conjunction room) (λ e. exp_of e.tree) self.old.lexemes self.new.lexemes result }
    {
        let first = self.negation(room)?;
        self.more_conjuncts(first, room)
    }

    /// A chain of `or` (Language Reference 6.11).
    #[cycle(reading)]
    pub fn disjunction(&mut self, room: u32) -> Result<Deep, Halt>
        requires some { 0 < room }
        requires few { room ≤ 500 }
        ensures { Settled (a_disjunction room) (λ e. exp_of e.tree) self.old.lexemes self.new.lexemes result }
    {
        let first = self.conjunction(room)?;
        self.more_disjuncts(first, room)
    }

    /// An expression (Language Reference 6.13 to 6.15), of at most so many nodes inside one another.
    #[cycle(reading)]
    pub fn expr(&mut self, room: u32) -> Result<Deep, Halt>
        requires some { 0 < room }
        requires few { room ≤ 500 }
        ensures { Settled (an_expr room) (λ e. exp_of e.tree) self.old.lexemes self.new.lexemes result }
    {
        if self.lexemes.is(Sign::Word(Word::Lambda)) {
            return self.lambda(room);
        }
        let body = self.disjunction(room)?;
        self.choosing(body, room)
    }
}
