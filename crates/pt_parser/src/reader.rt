ghost use Rattle.std.specs.Prelude.{◌≡◌, ◌≢◌, ◌↔◌, Some, None, false, IsTrue, length, option_copied, option_map};
ghost use Rattle.pt_wide.specs.Fold.{exp_of, opt_exp};
ghost use Rattle.pt_readers.specs.Reading.{next_of, behind};
ghost use Rattle.pt_readers.specs.Settled.{Settled};
ghost use Rattle.pt_grammar.specs.Lexemes.{lexeme_of, lexemes as lexemes_of, sign_at, line_at};
ghost use Rattle.pt_parser.specs.Simple.{an_expression, a_place, expressions as expression_list, values as some_values, places as target_list, several_places};
ghost use Rattle.pt_grammar.specs.ReadViews.{arguments_read, gathered_read, listed_read};
ghost use Rattle.pt_parser.specs.Headings.{argument_list, parameter_list};
ghost use Rattle.pt_parser.specs.Forms.{a_sign, an_identifier, an_optional};

use pt_base::{Boxed, Dup, Line, Text};
use pt_expr::Reader;
use pt_grammar::deep::{Arguments, Listed, Parameters};
use pt_grammar::{Part, Sign};
use pt_lexer::{Token, TokenKind};
use pt_readers::Halt;
use pt_wide::WideExpr;
use std::alloc::Global;
use std::marker::Model;

/// How many nodes of an expression may stand inside one another.
pub(crate) const MAX_DEPTH: u32 = 500;

/// The level of the operators that may stand in a target's place: those of numbers.
pub(crate) const LEVEL_OF_PLACES: u8 = 6;

/// A reader of statements. Contracts see the tokens that are left.
#[derive(Drop)]
pub struct Statements<'a> {
    pub(crate) alloc: Global,
    pub(crate) expressions: Reader<'a>,
}

impl<'a> Model for Statements<'a> {
    ghost use Rattle.std.specs.Prelude.{List};
    ghost use Rattle.pt_grammar.specs.Lexemes.{Lexeme};

    ghost Value = { List Lexeme };

    ghost view = { λ s. s.expressions.lexemes };
}

impl<'a> Statements<'a> {
    pub fn new(alloc: Global, tokens: &'a [Token]) -> Statements<'a>
        ensures { result ≡ lexemes_of tokens.now }
    {
        Statements {
            alloc,
            expressions: Reader::new(alloc, tokens),
        }
    }

    /// The next token, which stays.
    fn peek(&self) -> Option<&'a Token>
        ensures { option_map lexeme_of (option_copied result) ≡ next_of self.now }
    {
        self.expressions.lexemes.peek()
    }

    /// The tokens that are left.
    pub(crate) fn as_slice(&self) -> &'a [Token]
        ensures { lexemes_of result.now ≡ self.now }
    {
        self.expressions.lexemes.as_slice()
    }

    /// How many tokens are left.
    pub(crate) fn len(&self) -> usize
        ensures { result ≡ length self.now }
    {
        self.expressions.lexemes.len()
    }

    /// Whether no token is left.
    pub(crate) fn is_over(&self) -> bool
        ensures { IsTrue result ↔ (next_of self.now ≡ None) }
    {
        match self.peek() {
            Some(_) => false,
            None => true,
        }
    }

    /// The sign that the next token is, if it is one.
    pub(crate) fn sign(&self) -> Option<Sign>
        ensures { result ≡ sign_at (next_of self.now) }
    {
        self.expressions.lexemes.sign()
    }

    /// Whether the next token is this sign.
    pub(crate) fn is(&self, sign: Sign) -> bool
        ensures { IsTrue result ↔ (sign_at (next_of self.now) ≡ Some sign) }
    {
        self.expressions.lexemes.is(sign)
    }

    /// The line of the next token; 0 behind the last.
    pub(crate) fn line(&self) -> Line
        ensures { result.0 ≡ line_at (next_of self.now) }
    {
        self.expressions.lexemes.line()
    }

    /// Goes on behind the next token, where there is one.
    pub(crate) fn skip(&mut self)
        ensures { self.new ≡ behind self.old }
    {
        self.expressions.lexemes.skip();
    }

    /// Goes on behind this sign, where it is next.
    pub(crate) fn take(&mut self, sign: Sign) -> bool
        ensures found { IsTrue result → (sign_at (next_of self.old) ≡ Some sign) × (self.new ≡ behind self.old) }
        ensures none { result ≡ false → (sign_at (next_of self.old) ≢ Some sign) × (self.new ≡ self.old) }
    {
        self.expressions.lexemes.take(sign)
    }

    /// Goes on behind this sign, which has to be next.
    pub(crate) fn expect(&mut self, sign: Sign) -> Result<Line, Halt>
        ensures { Settled (a_sign sign) (λ l. l.0) self.old self.new result }
    {
        let line = self.line();
        if !self.take(sign) {
            return Err(Halt::Unexpected);
        }
        Ok(line)
    }

    /// A name (Language Reference 2.3).
    pub(crate) fn identifier(&mut self) -> Result<Text, Halt>
        ensures { Settled an_identifier (λ x. x) self.old self.new result }
    {
        let Some(token) = self.peek() else {
            return Err(Halt::Unexpected);
        };
        match &token.kind {
            TokenKind::Name(name) => {
                let name = name.dup(self.alloc)?;
                self.skip();
                Ok(name)
            }
            _ => Err(Halt::Unexpected),
        }
    }

    /// An expression (Language Reference 6).
    pub(crate) fn expression(&mut self) -> Result<Boxed<WideExpr>, Halt>
        ensures { Settled an_expression exp_of self.old self.new result }
    {
        let read = self.expressions.expr(MAX_DEPTH)?;
        Ok(read.tree)
    }

    /// What may stand in a target's place.
    pub(crate) fn bor(&mut self) -> Result<Boxed<WideExpr>, Halt>
        ensures { Settled a_place exp_of self.old self.new result }
    {
        let read = self.expressions.binary(LEVEL_OF_PLACES, MAX_DEPTH)?;
        Ok(read.tree)
    }

    /// One expression, or several as a tuple (Language Reference 6.15).
    pub(crate) fn exprs(&mut self) -> Result<Boxed<WideExpr>, Halt>
        ensures { Settled expression_list exp_of self.old self.new result }
    {
        let read = self.expressions.exprs(Part::Whole, MAX_DEPTH)?;
        Ok(read.tree)
    }

    /// What may stand behind `=` (Language Reference 7.2).
    pub(crate) fn value(&mut self) -> Result<Boxed<WideExpr>, Halt>
        ensures { Settled some_values exp_of self.old self.new result }
    {
        let read = self.expressions.value(MAX_DEPTH)?;
        Ok(read.tree)
    }

    /// One target, or several as a tuple (Language Reference 7.2).
    pub(crate) fn targets(&mut self) -> Result<Boxed<WideExpr>, Halt>
        ensures { Settled target_list exp_of self.old self.new result }
    {
        let read = self.expressions.exprs(Part::Target, MAX_DEPTH)?;
        Ok(read.tree)
    }

    /// Targets with commas between them (Language Reference 7.5).
    pub(crate) fn several_targets(&mut self) -> Result<Listed, Halt>
        ensures { Settled several_places listed_read self.old self.new result }
    {
        self.expressions.several(Part::Target, MAX_DEPTH)
    }

    /// Parameters of a function up to `)`, which stays (Language Reference 8.7).
    pub(crate) fn parameters(&mut self) -> Result<Parameters, Halt>
        ensures { Settled parameter_list gathered_read self.old self.new result }
    {
        self.expressions.parameters(true, MAX_DEPTH)
    }

    /// Arguments behind `(`, and the `)` behind them (Language Reference 6.3.4, 8.8).
    pub(crate) fn arguments(&mut self) -> Result<Arguments, Halt>
        ensures { Settled argument_list arguments_read self.old self.new result }
    {
        self.expressions.arguments(MAX_DEPTH)
    }

    /// An expression behind this sign, where the sign is next.
    pub(crate) fn optional(&mut self, sign: Sign) -> Result<Option<Boxed<WideExpr>>, Halt>
        ensures { Settled (an_optional sign an_expression) opt_exp self.old self.new result }
    {
        if !self.take(sign) {
            return Ok(None);
        }
        let read = self.expression()?;
        Ok(Some(read))
    }

    /// A value behind `=`, where it is next.
    pub(crate) fn optional_value(&mut self, sign: Sign) -> Result<Option<Boxed<WideExpr>>, Halt>
        ensures { Settled (an_optional sign some_values) opt_exp self.old self.new result }
    {
        if !self.take(sign) {
            return Ok(None);
        }
        let read = self.value()?;
        Ok(Some(read))
    }
}
