ghost use Rattle.std.specs.Prelude.{◌≡◌, ◌≢◌, ◌↔◌, ◌-◌, ◌<◌, ◌≤◌, Some, false, length, map, option_copied, option_map, IsTrue, OnSome};
ghost use Rattle.pt_readers.specs.Reading.{next_of, behind};
ghost use Rattle.pt_grammar.specs.Lexemes.{spelled as spelled_sign, sign_of as sign_of_token, lexeme_of, lexemes, sign_at, line_at};

use crate::{Layout, SIGNS, Sign};
use pt_base::Line;
use pt_lexer::{Token, TokenKind};
use pt_readers::Tokens;
use pt_tables::Table;
use std::marker::Model;

/// The sign that is spelled so.
fn spelled(text: &str) -> Option<Sign>
    ensures { result ≡ spelled_sign text.now }
{
    let signs: Table<'_, Sign, 79> = Table::new(&SIGNS);
    signs.get(text)
}

/// The sign that a token is, if it is one.
fn sign_of(token: &Token) -> Option<Sign>
    ensures { result ≡ sign_of_token (lexeme_of token.now) }
{
    match &token.kind {
        TokenKind::Sign(text) => spelled(text.as_str()),
        TokenKind::FStart => Some(Sign::Layout(Layout::FStart)),
        TokenKind::FEnd => Some(Sign::Layout(Layout::FEnd)),
        TokenKind::Newline => Some(Sign::Layout(Layout::Newline)),
        TokenKind::Indent => Some(Sign::Layout(Layout::Indent)),
        TokenKind::Dedent => Some(Sign::Layout(Layout::Dedent)),
        TokenKind::End => Some(Sign::Layout(Layout::End)),
        TokenKind::Name(_) => None,
        TokenKind::Int(_) => None,
        TokenKind::Str(_) => None,
        TokenKind::FText(_) => None,
    }
}

/// The sign of the first token.
fn first_sign(tokens: &Tokens<'_, Token>) -> Option<Sign>
    ensures { result ≡ sign_at (next_of (lexemes tokens.now)) }
{
    match tokens.peek() {
        Some(token) => sign_of(token),
        None => None,
    }
}

/// Tokens that are left to read, with the sign of the first of them. Contracts see them as the
/// grammar does.
#[derive(Drop)]
pub struct Lexemes<'a> {
    tokens: Tokens<'a, Token>,
    sign: Option<Sign>,
}

impl<'a> Model for Lexemes<'a> {
    ghost use Rattle.std.specs.Prelude.{◌≡◌, List};
    ghost use Rattle.pt_readers.specs.Reading.{next_of};
    ghost use Rattle.pt_grammar.specs.Lexemes.{Lexeme, lexemes, sign_at};

    ghost Value = { List Lexeme };

    ghost view = { λ s. lexemes s.tokens };

    ghost invariant = { λ s. s.sign ≡ sign_at (next_of (lexemes s.tokens)) };
}

impl<'a> Lexemes<'a> {
    pub fn new(tokens: &'a [Token]) -> Lexemes<'a>
        ensures { result ≡ lexemes tokens.now }
    {
        let tokens = Tokens::new(tokens);
        let sign = first_sign(&tokens);
        Lexemes { tokens, sign }
    }

    /// The tokens that are left.
    pub fn as_slice(&self) -> &'a [Token]
        ensures { lexemes result.now ≡ self.now }
    {
        self.tokens.as_slice()
    }

    /// The next token, which stays.
    pub fn peek(&self) -> Option<&'a Token>
        ensures { option_map lexeme_of (option_copied result) ≡ next_of self.now }
    {
        self.tokens.peek()
    }

    /// The sign that the next token is, if it is one.
    pub fn sign(&self) -> Option<Sign>
        ensures value { result ≡ sign_at (next_of self.now) }
        ensures some { OnSome result (0 < length self.now) }
    {
        self.sign
    }

    /// Whether the next token is this sign.
    pub fn is(&self, sign: Sign) -> bool
        ensures value { IsTrue result ↔ (sign_at (next_of self.now) ≡ Some sign) }
        ensures some { IsTrue result → 0 < length self.now }
    {
        self.sign == Some(sign)
    }

    /// The line of the next token; 0 behind the last.
    pub fn line(&self) -> Line
        ensures { result.0 ≡ line_at (next_of self.now) }
    {
        match self.tokens.peek() {
            Some(token) => token.line,
            None => Line(0),
        }
    }

    /// Goes on behind the next token, where there is one.
    pub fn skip(&mut self)
        ensures value { self.new ≡ behind self.old }
        ensures shorter { length self.new ≡ length self.old - 1 }
    {
        self.tokens.skip();
        self.sign = first_sign(&self.tokens);
    }

    /// Goes on behind this sign, where it is next.
    pub fn take(&mut self, sign: Sign) -> bool
        ensures found { IsTrue result → (sign_at (next_of self.old) ≡ Some sign) × (self.new ≡ behind self.old) }
        ensures none { result ≡ false → (sign_at (next_of self.old) ≢ Some sign) × (self.new ≡ self.old) }
        ensures shorter { IsTrue result → length self.new < length self.old }
        ensures not_longer { length self.new ≤ length self.old }
    {
        if !self.is(sign) {
            return false;
        }
        self.skip();
        true
    }

    /// How many tokens are left.
    pub fn len(&self) -> usize
        ensures { result ≡ length self.now }
    {
        self.tokens.len()
    }
}
