ghost use Rattle.std.specs.Prelude.{◌≡◌, ◌↔◌, [], length, IsTrue, option_copied};
ghost use Rattle.pt_readers.specs.Reading.{next_of, behind};

use std::marker::Model;

/// Tokens that are left to read. Contracts see them as a list.
#[derive(Debug, Drop)]
pub struct Tokens<'a, T> {
    rest: &'a [T],
}

impl<'a, T> Model for Tokens<'a, T> {
    ghost use Rattle.std.specs.Prelude.{List};

    ghost Value = { List T };

    ghost view = { λ s. s.rest.now };
}

impl<'a, T> Tokens<'a, T> {
    pub fn new(tokens: &'a [T]) -> Tokens<'a, T>
        ensures { result ≡ tokens.now }
    {
        Tokens { rest: tokens }
    }

    /// The tokens that are left.
    pub fn as_slice(&self) -> &'a [T]
        ensures { result.now ≡ self.now }
    {
        self.rest
    }

    /// The next token, which stays.
    pub fn peek(&self) -> Option<&'a T>
        ensures { option_copied result ≡ next_of self.now }
    {
        self.rest.first()
    }

    /// Goes on behind the next token, where there is one.
    pub fn skip(&mut self)
        ensures { self.new ≡ behind self.old }
    {
        if let Some((_, rest)) = self.rest.split_first() {
            self.rest = rest;
        }
    }

    /// How many tokens are left.
    pub fn len(&self) -> usize
        ensures { result ≡ length self.now }
    {
        self.rest.len()
    }

    pub fn is_empty(&self) -> bool
        ensures { IsTrue result ↔ (self.now ≡ []) }
    {
        self.rest.is_empty()
    }
}
