//! The items of a `with` (Language Reference 8.5).

ghost use Rattle.std.specs.Prelude.{ℕ, ◌↔◌, IsTrue, ◌≡◌, ◌≢◌, [], ◌∷◌, map, true, false, Some};
ghost use Rattle.pt_wide.specs.Fold.{exp_of, opt_exp};
ghost use Rattle.pt_readers.specs.Reading.{next_of};
ghost use Rattle.pt_readers.specs.Settled.{Settled};
ghost use Rattle.pt_readers.proofs.Readers.{left};
ghost use Rattle.pt_grammar.specs.declared.sign.Sign.TheVariants.{Mark as mark_sign, Keyword as keyword_sign};
ghost use Rattle.pt_grammar.specs.declared.sign.Mark.TheVariants.{Colon as colon_mark, Close as close_mark, Open as open_mark};
ghost use Rattle.pt_grammar.specs.declared.sign.Keyword.TheVariants.{As as as_keyword};
ghost use Rattle.pt_grammar.specs.Lexemes.{sign_at};
ghost use Rattle.pt_grammar.specs.Nodes.{line_of};
ghost use Rattle.pt_grammar.specs.Parts.{ends_in_text};
ghost use Rattle.pt_parser.specs.Forms.{Is, UpTo, an_optional};
ghost use Rattle.pt_parser.specs.Headings.{star_sign};
ghost use Rattle.pt_parser.specs.Simple.{a_place, comma};
ghost use Rattle.pt_parser.specs.Limits.{FitsExp};
ghost use Rattle.pt_parser.specs.With.{WithItem, FitsItem, encloses, holds_items, is_enclosed};
ghost use Rattle.pt_parser.specs.WithLeft.{BehindExp, Onward, Targeted, OnlyNext, Rest, Entered, FromAtom, Opened, BehindHeld, BehindPlain, FitsHeld, Sound, goes_on_sign, goes_on_at, whole, what_is_held};
ghost use Rattle.pt_parser.specs.Parts.{Each, closing, a_with_item, with_items as items_part};
ghost use Rattle.pt_parser.specs.Views.{item_in, held_in};

use crate::item_nodes::MAX_ITEMS;
use crate::reader::MAX_DEPTH;
use crate::signs::{AS, CLOSE, COLON, COMMA, FOR, OPEN, STAR, YIELD};
use crate::{Statements, item_nodes};
use pt_base::{Boxed, Line, Seq};
use pt_grammar::deep::{Deep, Listed, Several};
use pt_grammar::{Keyword, Mark, Sign, Word, display_nodes, nodes};
use pt_readers::Halt;
use pt_wide::{WideExpr, WideItem};

/// Whether a sign goes on with an item behind its parentheses.
fn goes_on(sign: Sign) -> bool
    ensures { result ≡ goes_on_sign sign }
{
    match sign {
        Sign::Operator(_) => true,
        Sign::Comparison(_) => true,
        Sign::Mark(mark) => match mark {
            Mark::Dot => true,
            Mark::Open => true,
            Mark::OpenBracket => true,
            Mark::Comma => true,
            _ => false,
        },
        Sign::Word(word) => match word {
            Word::And => true,
            Word::Or => true,
            Word::Not => true,
            Word::In => true,
            Word::Is => true,
            Word::If => true,
            _ => false,
        },
        Sign::Keyword(keyword) => match keyword {
            Keyword::As => true,
            _ => false,
        },
        _ => false,
    }
}

/// What stands in parentheses with which the items of a `with` begin.
#[derive(Drop)]
pub enum Held {
    /// Items, one of which has a target.
    Targeted(Seq<WideItem>),
    /// Expressions, the first of which starts on this line.
    Plain(Line, Listed),
    /// What is no items, with the parentheses.
    Only(Deep),
}

impl<'a> Statements<'a> {
    /// `as` and a target, if they are there.
    fn target(&mut self) -> Result<Option<Boxed<WideExpr>>, Halt>
        ensures { Settled (an_optional (keyword_sign as_keyword) a_place) opt_exp self.old self.new result }
    {
        if !self.take(AS) {
            return Ok(None);
        }
        let read = self.bor()?;
        Ok(Some(read))
    }

    /// An item: an expression, and perhaps a target.
    fn with_item(&mut self) -> Result<WideItem, Halt>
        ensures { Settled a_with_item item_in self.old self.new result }
    {
        let context = self.expression()?;
        let target = self.target()?;
        Ok(item_nodes::item(context, target))
    }

    /// More items behind the first, up to the colon.
    fn more_items(&mut self, first: WideItem) -> Result<Seq<WideItem>, Halt>
        requires fits { FitsItem (item_in first) }
        requires apart { is_enclosed (item_in first ∷ []) ≡ true → sign_at (next_of self.old) ≢ Some (mark_sign colon_mark) }
        ensures { Settled (left items_part (Rest (item_in first ∷ []))) (λ is. map item_in is) self.old self.new result }
    {
        let mut all = Seq::new(self.alloc);
        all.push(first)?;
        'more: while self.take(COMMA) {
            let next = self.with_item()?;
            all.push(next)?;
        }
        if !self.is(COLON) {
            return Err(Halt::Unexpected);
        }
        Ok(all)
    }

    /// What is left behind the expression of the first item.
    fn entered(&mut self, context: Boxed<WideExpr>) -> Result<Seq<WideItem>, Halt>
        requires fits { FitsExp (exp_of context) }
        requires apart { encloses (exp_of context) ≡ true → sign_at (next_of self.old) ≢ Some (mark_sign colon_mark) }
        ensures { Settled (left items_part (Entered (exp_of context))) (λ is. map item_in is) self.old self.new result }
    {
        let target = self.target()?;
        self.more_items(item_nodes::item(context, target))
    }

    /// What is left behind the atom in parentheses with which the first item begins.
    fn behind_parentheses(&mut self, atom: Deep) -> Result<Seq<WideItem>, Halt>
        requires fits { FitsExp (exp_of atom.tree) }
        requires closed { ends_in_text (exp_of atom.tree) ≡ false }
        requires apart { encloses (exp_of atom.tree) ≡ true → sign_at (next_of self.old) ≢ Some (mark_sign colon_mark) }
        ensures { Settled (left items_part (FromAtom (exp_of atom.tree))) (λ is. map item_in is) self.old self.new result }
    {
        let read = self.behind_atom(atom)?;
        self.entered(read.tree)
    }

    /// Items that no parenthesis begins.
    fn bare_items(&mut self) -> Result<Seq<WideItem>, Halt>
        requires { sign_at (next_of self.old) ≢ Some (mark_sign open_mark) }
        ensures { Settled items_part (λ is. map item_in is) self.old self.new result }
    {
        let context = self.expression()?;
        self.entered(context)
    }

    /// Whether a token is next with which no item begins, though parentheses may hold what it
    /// begins.
    fn begins_only(&self) -> bool
        ensures { IsTrue result ↔ OnlyNext (next_of self.now) }
    {
        self.is(CLOSE) || self.is(YIELD) || self.is(STAR)
    }

    /// What stands behind the parenthesis on this line, with the closing one.
    fn held(&mut self, line: Line) -> Result<Held, Halt>
        ensures { Settled (what_is_held line.0) held_in self.old self.new result }
    {
        if self.begins_only() {
            let atom = self.inside(line)?;
            return Ok(Held::Only(atom));
        }
        let first = self.deep_expression()?;
        if !self.is(FOR) {
            return self.listed(line, first);
        }
        if first.depth >= MAX_DEPTH {
            return Err(Halt::Limit);
        }
        let atom = self.generator(line, first)?;
        Ok(Held::Only(atom))
    }

    /// Items behind these, and the closing parenthesis.
    fn enclosed_items(&mut self, items: Seq<WideItem>) -> Result<Seq<WideItem>, Halt>
        requires { Each FitsItem (map item_in items) }
        ensures { Settled (closing a_with_item (UpTo comma (mark_sign close_mark) WithItem (map item_in items))) (λ is. map item_in is) self.old self.new result }
    {
        let mut all = items;
        'more: loop {
            if self.take(CLOSE) {
                return Ok(all);
            }
            if !self.take(COMMA) {
                return Err(Halt::Unexpected);
            }
            if self.take(CLOSE) {
                return Ok(all);
            }
            let next = self.with_item()?;
            all.push(next)?;
        }
    }

    /// Behind the `as` of an item, and plain ones before it.
    fn targeted(&mut self, before: Several, last: Deep) -> Result<Held, Halt>
        requires before { Each FitsExp (map exp_of before.items) }
        requires last { FitsExp (exp_of last.tree) }
        ensures { (l : ℕ) → Settled (left (what_is_held l) (Targeted (map exp_of before.items) (exp_of last.tree))) held_in self.old self.new result }
    {
        let target = self.bor()?;
        let mut items = item_nodes::plain_items(self.alloc, before.items)?;
        items.push(item_nodes::item(last.tree, Some(target)))?;
        let all = self.enclosed_items(items)?;
        Ok(Held::Targeted(all))
    }

    /// Behind a comma and these expressions, where a star is next.
    fn starred(&mut self, line: Line, start: Line, before: Several) -> Result<Held, Halt>
        requires star { sign_at (next_of self.old) ≡ Some star_sign }
        requires some { map exp_of before.items ≢ [] }
        requires fits { Each FitsExp (map exp_of before.items) }
        ensures { Settled (left (what_is_held line.0) (Onward line.0 start.0 (map exp_of before.items))) held_in self.old self.new result }
    {
        if before.depth >= MAX_DEPTH {
            return Err(Halt::Limit);
        }
        let count = before.items.len();
        if count >= MAX_ITEMS {
            return Err(Halt::Limit);
        }
        let at = self.line();
        self.skip();
        let value = self.operand()?;
        let item = nodes::starred(self.alloc, at, value)?;
        let all = before.with(item)?;
        let listed = self.rest_of_tuple(all)?;
        self.expect(CLOSE)?;
        let inside = display_nodes::tuple(self.alloc, start, listed.items)?;
        let atom = nodes::parenthesized(self.alloc, line, inside)?;
        Ok(Held::Only(atom))
    }

    /// What parentheses hold behind the first expression.
    fn listed(&mut self, line: Line, first: Deep) -> Result<Held, Halt>
        requires { FitsExp (exp_of first.tree) }
        ensures { Settled (left (what_is_held line.0) (BehindExp line.0 (line_of (exp_of first.tree)) [] (exp_of first.tree))) held_in self.old self.new result }
    {
        let start = first.line();
        let mut before = Several::new(self.alloc);
        let mut last = first;
        'more: loop {
            if self.take(AS) {
                return self.targeted(before, last);
            }
            before = before.with(last)?;
            if self.take(CLOSE) {
                let items = before;
                return Ok(Held::Plain(
                    start,
                    Listed {
                        items,
                        comma: false,
                    },
                ));
            }
            if !self.take(COMMA) {
                return Err(Halt::Unexpected);
            }
            if self.take(CLOSE) {
                let items = before;
                return Ok(Held::Plain(start, Listed { items, comma: true }));
            }
            if self.is(STAR) {
                return self.starred(line, start, before);
            }
            last = self.deep_expression()?;
        }
    }

    /// What is left behind the parenthesis on this line.
    fn opened(&mut self, line: Line) -> Result<Seq<WideItem>, Halt>
        ensures { Settled (left items_part (Opened line.0)) (λ is. map item_in is) self.old self.new result }
    {
        let held = self.held(line)?;
        self.behind_held(line, held)
    }

    /// These items, where the colon is next.
    fn up_to_colon(&mut self, items: Seq<WideItem>) -> Result<Seq<WideItem>, Halt>
        requires { Each FitsItem (map item_in items) }
        ensures { Settled (left items_part (Is (map item_in items))) (λ is. map item_in is) self.old self.new result }
    {
        if !self.is(COLON) {
            return Err(Halt::Unexpected);
        }
        Ok(items)
    }

    /// Whether the next token goes on with an item behind its parentheses.
    fn goes_on(&self) -> bool
        ensures { result ≡ goes_on_at (sign_at (next_of self.now)) }
    {
        match self.sign() {
            Some(sign) => goes_on(sign),
            None => false,
        }
    }

    /// Behind expressions in parentheses, which are items where the colon is next, and else the
    /// tuple with which the first item begins.
    fn behind_plain(
        &mut self,
        line: Line,
        start: Line,
        listed: Listed,
    ) -> Result<Seq<WideItem>, Halt>
        requires fits { Each FitsExp (map exp_of listed.items.items) }
        requires holds { holds_items (whole start.0 (map exp_of listed.items.items) listed.comma) ≡ true }
        ensures { Settled (left items_part (BehindPlain line.0 start.0 (map exp_of listed.items.items) listed.comma)) (λ is. map item_in is) self.old self.new result }
    {
        if self.is(COLON) {
            let items = item_nodes::plain_items(self.alloc, listed.items.items)?;
            return Ok(items);
        }
        if !item_nodes::is_within(start, &listed) {
            if self.goes_on() {
                return Err(Halt::Limit);
            }
            return Err(Halt::Unexpected);
        }
        let inside = item_nodes::whole(self.alloc, start, listed)?;
        let atom = nodes::parenthesized(self.alloc, line, inside)?;
        self.behind_parentheses(atom)
    }

    /// Behind what parentheses hold.
    fn behind_held(&mut self, line: Line, held: Held) -> Result<Seq<WideItem>, Halt>
        requires fits { FitsHeld (held_in held) }
        requires sound { Sound (held_in held) }
        ensures { Settled (left items_part (BehindHeld line.0 (held_in held))) (λ is. map item_in is) self.old self.new result }
    {
        match held {
            Held::Targeted(items) => self.up_to_colon(items),
            Held::Plain(start, listed) => self.behind_plain(line, start, listed),
            Held::Only(atom) => self.behind_parentheses(atom),
        }
    }

    /// The items of a `with`, up to the colon, which stays.
    pub(crate) fn with_items(&mut self) -> Result<Seq<WideItem>, Halt>
        ensures { Settled items_part (λ is. map item_in is) self.old self.new result }
    {
        let line = self.line();
        if self.take(OPEN) {
            return self.opened(line);
        }
        self.bare_items()
    }
}
