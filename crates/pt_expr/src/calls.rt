//! What stands behind a primary: indices and calls (Language Reference 6.3).

ghost use Rattle.std.specs.Prelude.{◌≡◌, ◌≢◌, ◌⊎◌, ◌≤◌, ◌<◌, ◌-◌, ◌↔◌, [], ◌∷◌, Some, true, length, IsTrue, MatchOption, OnSome};
ghost use Rattle.pt_base.specs.declared.operators.BinOp.TheVariants.{Mul as multiply, Pow as power};
ghost use Rattle.pt_wide.specs.declared.expression.WideBinOp.TheVariants.{Plain as plain_operator};
ghost use Rattle.pt_wide.specs.Fold.{exp_of};
ghost use Rattle.pt_readers.specs.Reading.{next_of};
ghost use Rattle.pt_readers.specs.Settled.{Settled};
ghost use Rattle.pt_grammar.specs.declared.sign.Sign.{Sign as SignKind};
ghost use Rattle.pt_grammar.specs.declared.sign.Sign.TheVariants.{Mark as mark_sign, Operator as operator_sign, Word as word_sign};
ghost use Rattle.pt_grammar.specs.declared.sign.Word.TheVariants.{For as for_word};
ghost use Rattle.pt_readers.proofs.Readers.{left};
ghost use Rattle.pt_grammar.specs.Lexemes.{sign_at};
ghost use Rattle.pt_grammar.specs.Signs.{rank_of_sign};
ghost use Rattle.pt_grammar.specs.Grammar.{MoreArguments};
ghost use Rattle.pt_grammar.specs.Nodes.{any_next, may_spread};
ghost use Rattle.pt_grammar.specs.Parts.{Fits, FitsOpt, FitsArg, a_trailer, an_index, an_argument, some_arguments};
ghost use Rattle.pt_grammar.specs.ReadViews.{arguments_read};
ghost use Rattle.pt_grammar.specs.CallViews.{trailer_read, argument_read, order_read, opt_read};
ghost use Rattle.pt_grammar.specs.CallParts.{ends_bound, begins_expr, begins_argument, a_bound, a_step, Sliced, a_value_of_argument, a_name_alone, a_keyword, Placed, Opened, Indexed, IsName};

use crate::Reader;
use crate::reader::MAX_ITEMS;
use pt_base::{BinOp, Line, Text};
use pt_grammar::call_nodes::{Argument, Order, Ordered, Trailer};
use pt_grammar::comprehension_nodes::comprehension;
use pt_grammar::deep::{Arguments, Deep};
use pt_grammar::{Mark, Part, Sign, Word, call_nodes};
use pt_lexer::TokenKind;
use pt_readers::Halt;
use pt_wide::{Comprehension, WideBinOp};

const STAR: Sign = Sign::Operator(WideBinOp::Plain(BinOp::Mul));

const DOUBLE_STAR: Sign = Sign::Operator(WideBinOp::Plain(BinOp::Pow));

fn is_trailing_mark(mark: Mark) -> bool
    ensures { IsTrue result ↔ (rank_of_sign (mark_sign mark) ≡ 0) }
{
    match mark {
        Mark::Dot => true,
        Mark::Open => true,
        Mark::OpenBracket => true,
        Mark::Close => false,
        Mark::CloseBracket => false,
        Mark::OpenBrace => false,
        Mark::CloseBrace => false,
        Mark::Comma => false,
        Mark::Colon => false,
        Mark::Semicolon => false,
        Mark::Assign => false,
        Mark::Arrow => false,
        Mark::Exclamation => false,
        Mark::Tilde => false,
    }
}

/// Whether what stands behind a primary begins so.
#[tactic(auto, using(pt_grammar::proofs::OperatorRanks::rank_small, pt_grammar::proofs::Ranks::word_rank))]
fn trails(sign: Sign) -> bool
    ensures { IsTrue result ↔ (rank_of_sign sign ≡ 0) }
{
    match sign {
        Sign::Mark(mark) => is_trailing_mark(mark),
        Sign::Operator(_) => false,
        Sign::Comparison(_) => false,
        Sign::Word(_) => false,
        Sign::Augmented(_) => false,
        Sign::Singleton(_) => false,
        Sign::Keyword(_) => false,
        Sign::Layout(_) => false,
    }
}

impl<'a> Reader<'a> {
    /// The sign with which what stands behind a primary begins, if it is next.
    pub(crate) fn trailing_sign(&self) -> Option<Sign>
        ensures value { MatchOption result
            ((s : SignKind) → sign_at (next_of self.now.lexemes) ≡ Some s → rank_of_sign s ≢ 0)
            (λ s. (sign_at (next_of self.now.lexemes) ≡ Some s) × (rank_of_sign s ≡ 0)) }
        ensures some { OnSome result (0 < length self.now.lexemes) }
    {
        match self.lexemes.sign() {
            Some(sign) if trails(sign) => Some(sign),
            _ => None,
        }
    }

    /// What stands behind a primary, behind its first sign (Language Reference 6.3).
    #[cycle(reading)]
    pub(crate) fn trailer(&mut self, sign: Sign, room: u32) -> Result<Trailer, Halt>
        requires sign { rank_of_sign sign ≡ 0 }
        requires some { 0 < room }
        requires few { room ≤ 500 }
        ensures { Settled (a_trailer room sign) trailer_read self.old.lexemes self.new.lexemes result }
    {
        if sign.same(Sign::Mark(Mark::Dot)) {
            let name = self.attribute_name()?;
            return Ok(Trailer::Name(name));
        }
        if sign.same(Sign::Mark(Mark::OpenBracket)) {
            let index = self.index(room)?;
            self.lexemes.skip();
            return Ok(Trailer::Index(index));
        }
        let arguments = self.arguments(room)?;
        Ok(Trailer::Call(arguments))
    }

    /// What stands in the brackets of an item, up to the closing one, which stays (Language Reference 6.3.2, 6.3.3).
    #[cycle(reading)]
    pub(crate) fn index(&mut self, room: u32) -> Result<Deep, Halt>
        requires some { 0 < room }
        requires few { room ≤ 500 }
        ensures { Settled (an_index room) (λ e. exp_of e.tree) self.old.lexemes self.new.lexemes result }
    {
        let line = self.lexemes.line();
        if self.lexemes.take(Sign::Mark(Mark::Colon)) {
            return self.slice(None, line, room);
        }
        if self.lexemes.is(STAR) {
            let items = self.exprs(Part::Whole, room)?;
            if !self.lexemes.is(Sign::Mark(Mark::CloseBracket)) {
                return Err(Halt::Unexpected);
            }
            return Ok(items);
        }
        let first = self.expr(room)?;
        self.indexed(first, room)
    }

    /// What is left of an index behind its first expression.
    #[cycle(reading)]
    fn indexed(&mut self, first: Deep, room: u32) -> Result<Deep, Halt>
        requires some { 0 < room }
        requires few { room ≤ 500 }
        requires fits { Fits room (exp_of first.tree) }
        ensures { Settled (left (an_index room) (Indexed (exp_of first.tree))) (λ e. exp_of e.tree) self.old.lexemes self.new.lexemes result }
    {
        if !self.lexemes.is(Sign::Mark(Mark::Colon)) {
            let items = self.behind_item(Part::Whole, first, room)?;
            if !self.lexemes.is(Sign::Mark(Mark::CloseBracket)) {
                return Err(Halt::Unexpected);
            }
            return Ok(items);
        }
        if first.depth >= room {
            return Err(Halt::Limit);
        }
        let colon = self.lexemes.line();
        self.lexemes.skip();
        self.slice(Some(first), colon, room)
    }

    /// What stands behind the first colon of a slice, which is on this line (Language Reference 6.3.3).
    #[cycle(reading)]
    fn slice(&mut self, start: Option<Deep>, colon: Line, room: u32) -> Result<Deep, Halt>
        requires some { 0 < room }
        requires few { room ≤ 500 }
        requires fits { FitsOpt (room - 1) (opt_read start) }
        ensures { Settled (left (an_index room) (Sliced (opt_read start) colon.0)) (λ e. exp_of e.tree) self.old.lexemes self.new.lexemes result }
    {
        let stop = self.bound(room - 1)?;
        let step = self.step(room - 1)?;
        Ok(call_nodes::slice(self.alloc, colon, start, stop, step)?)
    }

    /// A bound of a slice, if one stands there.
    #[cycle(reading)]
    fn bound(&mut self, room: u32) -> Result<Option<Deep>, Halt>
        requires few { room ≤ 500 }
        ensures { Settled (a_bound room) opt_read self.old.lexemes self.new.lexemes result }
    {
        if self.ends_bound() {
            return Ok(None);
        }
        if !self.begins_expr() {
            return Err(Halt::Unexpected);
        }
        if room == 0 {
            return Err(Halt::Limit);
        }
        let value = self.expr(room)?;
        if !self.ends_bound() {
            return Err(Halt::Unexpected);
        }
        Ok(Some(value))
    }

    /// The step of a slice behind its colon, if they stand there.
    #[cycle(reading)]
    fn step(&mut self, room: u32) -> Result<Option<Deep>, Halt>
        requires next { ends_bound (next_of self.old.lexemes) ≡ true }
        requires few { room ≤ 500 }
        ensures { Settled (a_step room) opt_read self.old.lexemes self.new.lexemes result }
    {
        if !self.lexemes.is(Sign::Mark(Mark::Colon)) {
            return Ok(None);
        }
        self.lexemes.skip();
        let step = self.bound(room)?;
        if !self.lexemes.is(Sign::Mark(Mark::CloseBracket)) {
            return Err(Halt::Unexpected);
        }
        Ok(step)
    }

    /// Whether a bound of a slice may end here.
    fn ends_bound(&self) -> bool
        ensures { result ≡ ends_bound (next_of self.now.lexemes) }
    {
        self.lexemes.is(Sign::Mark(Mark::Colon)) || self.lexemes.is(Sign::Mark(Mark::CloseBracket))
    }

    /// Whether an expression begins with the next token.
    fn begins_expr(&self) -> bool
        ensures { result ≡ begins_expr (next_of self.now.lexemes) }
    {
        if self.lexemes.is(STAR) {
            return false;
        }
        self.begins_item(Part::Whole)
    }

    /// Arguments behind the opening parenthesis, and the closing one (Language Reference 6.3.4).
    #[cycle(reading)]
    pub fn arguments(&mut self, room: u32) -> Result<Arguments, Halt>
        requires some { 0 < room }
        requires few { room ≤ 500 }
        ensures { Settled (some_arguments room) arguments_read self.old.lexemes self.new.lexemes result }
    {
        if self.lexemes.take(Sign::Mark(Mark::Close)) {
            return Ok(Ordered::new(self.alloc).finish());
        }
        if self.is_stars() {
            let first = self.argument(Order::Any, room)?;
            return self.more_arguments(first, room);
        }
        let value = self.expr(room)?;
        if self.lexemes.is(Sign::Word(Word::For)) {
            return self.generator_alone(value, room);
        }
        let first = self.placed(value, room)?;
        self.more_arguments(first, room)
    }

    /// The clauses behind the only argument, which is a generator without parentheses of its own (Language Reference 6.3.4).
    #[cycle(reading)]
    fn generator_alone(&mut self, item: Deep, room: u32) -> Result<Arguments, Halt>
        requires first { sign_at (next_of self.old.lexemes) ≡ Some (word_sign for_word) }
        requires few { room ≤ 500 }
        requires fits { Fits room (exp_of item.tree) }
        ensures { Settled (left (some_arguments room) (Opened (exp_of item.tree))) arguments_read self.old.lexemes self.new.lexemes result }
    {
        if item.depth >= room {
            return Err(Halt::Limit);
        }
        let start = item.line();
        let clauses = self.clauses(room - 1)?;
        if !self.lexemes.take(Sign::Mark(Mark::Close)) {
            return Err(Halt::Unexpected);
        }
        let form = Comprehension::Generator;
        let node = comprehension(self.alloc, start, form, item, clauses)?;
        let arguments = Ordered::new(self.alloc).with(Argument::Positional(node))?;
        Ok(arguments.finish())
    }

    /// What is left of arguments behind the first, and the parenthesis that closes them.
    #[cycle(reading)]
    fn more_arguments(&mut self, first: Argument, room: u32) -> Result<Arguments, Halt>
        requires some { 0 < room }
        requires few { room ≤ 500 }
        requires fits { FitsArg room (argument_read first) }
        ensures { Settled (left (some_arguments room) (MoreArguments (argument_read first ∷ []))) arguments_read self.old.lexemes self.new.lexemes result }
    {
        let mut arguments = Ordered::new(self.alloc).with(first)?;
        'more: while self.lexemes.take(Sign::Mark(Mark::Comma)) {
            if self.lexemes.is(Sign::Mark(Mark::Close)) {
                self.lexemes.skip();
                return Ok(arguments.finish());
            }
            if !self.begins_argument(arguments.order) {
                return Err(Halt::Unexpected);
            }
            if arguments.items.len() >= MAX_ITEMS {
                return Err(Halt::Limit);
            }
            let next = self.argument(arguments.order, room)?;
            arguments = arguments.with(next)?;
        }
        if !self.lexemes.take(Sign::Mark(Mark::Close)) {
            return Err(Halt::Unexpected);
        }
        Ok(arguments.finish())
    }

    /// An argument, where it may come (Language Reference 6.3.4).
    #[cycle(reading)]
    fn argument(&mut self, order: Order, room: u32) -> Result<Argument, Halt>
        requires some { 0 < room }
        requires few { room ≤ 500 }
        ensures { Settled (an_argument (order_read order) room) argument_read self.old.lexemes self.new.lexemes result }
    {
        let line = self.lexemes.line();
        if self.spreads(order) {
            self.lexemes.skip();
            let items = self.argument_value(room)?;
            return Ok(Argument::Spread { line, value: items });
        }
        if self.lexemes.is(DOUBLE_STAR) {
            self.lexemes.skip();
            let mapping = self.argument_value(room)?;
            return Ok(Argument::SpreadNamed {
                line,
                value: mapping,
            });
        }
        match order {
            Order::Any => {
                let value = self.expr(room)?;
                self.placed(value, room)
            }
            Order::Named => self.keyword(room),
            Order::SpreadNamed => self.keyword(room),
        }
    }

    /// What is left of an argument without stars behind its first expression.
    #[cycle(reading)]
    fn placed(&mut self, value: Deep, room: u32) -> Result<Argument, Halt>
        requires some { 0 < room }
        requires few { room ≤ 500 }
        requires fits { Fits room (exp_of value.tree) }
        ensures { Settled (left (an_argument any_next room) (Placed (exp_of value.tree))) argument_read self.old.lexemes self.new.lexemes result }
    {
        if self.lexemes.ends_argument() {
            return Ok(Argument::Positional(value));
        }
        if !self.lexemes.is(Sign::Mark(Mark::Assign)) {
            return Err(Halt::Unexpected);
        }
        let Some(name) = value.into_name() else {
            return Err(Halt::Unexpected);
        };
        self.lexemes.skip();
        let expression = self.argument_value(room)?;
        Ok(Argument::Named {
            line: name.0,
            name: name.1,
            value: expression,
        })
    }

    /// `name=value`
    #[cycle(reading)]
    fn keyword(&mut self, room: u32) -> Result<Argument, Halt>
        requires some { 0 < room }
        requires few { room ≤ 500 }
        ensures { Settled (a_keyword room) argument_read self.old.lexemes self.new.lexemes result }
    {
        let name = self.name_alone()?;
        if !self.lexemes.take(Sign::Mark(Mark::Assign)) {
            return Err(Halt::Unexpected);
        }
        let value = self.argument_value(room)?;
        Ok(Argument::Named {
            line: name.0,
            name: name.1,
            value,
        })
    }

    /// The expression at the end of an argument.
    #[cycle(reading)]
    fn argument_value(&mut self, room: u32) -> Result<Deep, Halt>
        requires some { 0 < room }
        requires few { room ≤ 500 }
        ensures { Settled (a_value_of_argument room) (λ e. exp_of e.tree) self.old.lexemes self.new.lexemes result }
    {
        let value = self.expr(room)?;
        if !self.lexemes.ends_argument() {
            return Err(Halt::Unexpected);
        }
        Ok(value)
    }

    /// A name, and its line.
    fn name_alone(&mut self) -> Result<(Line, Text), Halt>
        ensures { Settled a_name_alone (λ n. (n.0.0, n.1)) self.old.lexemes self.new.lexemes result }
    {
        let Some(token) = self.lexemes.peek() else {
            return Err(Halt::Unexpected);
        };
        match &token.kind {
            TokenKind::Name(text) => {
                self.lexemes.skip();
                Ok((token.line, Text::from_str(self.alloc, text.as_str())?))
            }
            _ => Err(Halt::Unexpected),
        }
    }

    /// Whether a name is next.
    fn is_name(&self) -> bool
        ensures { IsTrue result ↔ IsName (next_of self.now.lexemes) }
    {
        let Some(token) = self.lexemes.peek() else {
            return false;
        };
        match &token.kind {
            TokenKind::Name(_) => true,
            _ => false,
        }
    }

    /// Whether `*` is next, and an argument with it may come.
    fn spreads(&self, order: Order) -> bool
        ensures { IsTrue result ↔ ((sign_at (next_of self.now.lexemes) ≡ Some (operator_sign (plain_operator multiply))) × (may_spread (order_read order) ≡ true)) }
    {
        self.lexemes.is(STAR) && order.may_spread()
    }

    /// Whether `*` or `**` is next.
    fn is_stars(&self) -> bool
        ensures { IsTrue result ↔ ((sign_at (next_of self.now.lexemes) ≡ Some (operator_sign (plain_operator multiply))) ⊎ (sign_at (next_of self.now.lexemes) ≡ Some (operator_sign (plain_operator power)))) }
    {
        self.lexemes.is(STAR) || self.lexemes.is(DOUBLE_STAR)
    }

    /// Whether an argument that may come begins with the next token.
    fn begins_argument(&self, order: Order) -> bool
        ensures { result ≡ begins_argument (order_read order) (next_of self.now.lexemes) }
    {
        if self.lexemes.is(STAR) {
            return order.may_spread();
        }
        if self.lexemes.is(DOUBLE_STAR) {
            return true;
        }
        match order {
            Order::Any => self.begins_item(Part::Whole),
            Order::Named => self.is_name(),
            Order::SpreadNamed => self.is_name(),
        }
    }
}
