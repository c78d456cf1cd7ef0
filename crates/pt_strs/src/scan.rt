ghost use Rattle.std.specs.Prelude.{◌≡◌, ◌↔◌, ◌-◌, [], ◌∷◌, ◌++◌, None, Some, MatchOption, IsTrue};
ghost use Rattle.std.specs.Prelude.{length, take, drop};
ghost use Rattle.std.specs.Str.{chars};
ghost use Rattle.pt_strs.specs.Cut.{cut};
ghost use Rattle.pt_strs.specs.Class.{has};
ghost use Rattle.pt_strs.specs.Strip.{without_end, without_front};

use crate::class::Class;
use std::marker::Model;

/// A text that is gone through. Contracts see the characters that are left.
#[derive(Debug, Drop)]
pub struct Scan<'a> {
    rest: &'a str,
}

impl<'a> Model for Scan<'a> {
    ghost use Rattle.std.specs.Prelude.{List, ℕ};
    ghost use Rattle.std.specs.Str.{chars, IsUtf8};

    ghost Value = { List ℕ };

    ghost view = { λ s. chars s.rest.now };

    ghost invariant = { λ s. IsUtf8 s.rest.now };
}

impl<'a> Scan<'a> {
    pub fn new(text: &'a str) -> Scan<'a>
        ensures { result ≡ chars text.now }
    {
        Scan { rest: text }
    }

    /// The text that is left.
    pub fn as_str(&self) -> &'a str
        ensures { chars result.now ≡ self.now }
    {
        self.rest
    }

    /// Takes the first character.
    pub fn next(&mut self) -> Option<char>
        ensures { MatchOption result
            ((self.old ≡ []) × (self.new ≡ [])) (λ c. self.old ≡ c ∷ self.new) }
    {
        let mut chars = self.rest.chars();
        let next = chars.next();
        self.rest = chars.as_str();
        next
    }

    /// Takes the last character.
    pub fn next_back(&mut self) -> Option<char>
        ensures { MatchOption result
            ((self.old ≡ []) × (self.new ≡ [])) (λ c. self.old ≡ self.new ++ c ∷ []) }
    {
        let mut chars = self.rest.chars();
        let last = chars.next_back();
        self.rest = chars.as_str();
        last
    }

    /// Takes what stands before the first place of a part, and goes on behind that place.
    pub fn before(&mut self, part: &str) -> Option<&'a str>
        ensures { MatchOption result
            ((cut (chars part.now) self.old ≡ None) × (self.new ≡ self.old))
            (λ front. cut (chars part.now) self.old ≡ Some (chars front.now, self.new)) }
    {
        let text = self.rest;
        let at = text.find(part)?;
        self.rest = &text[at + part.len()..];
        Some(&text[..at])
    }

    /// The same text, to be gone through by itself.
    pub fn again(&self) -> Scan<'a>
        ensures { result ≡ self.now }
    {
        Scan { rest: self.rest }
    }

    pub fn is_empty(&self) -> bool
        ensures { IsTrue result ↔ (self.now ≡ []) }
    {
        self.rest.is_empty()
    }

    /// What stands before a later place of the text.
    pub fn until(&self, later: &Scan) -> &'a str
        requires { (front : _) × (self.now ≡ front ++ later.now) }
        ensures { self.now ≡ chars result.now ++ later.now }
    {
        let len = self.rest.len() - later.rest.len();
        &self.rest[..len]
    }

    /// What is left behind the characters of a class at the front.
    pub fn without_front(&self, class: &Class) -> Scan<'a>
        ensures { result ≡ without_front (has class.now) self.now }
    {
        let mut rest = self.again();
        loop {
            let mut ahead = rest.again();
            match ahead.next() {
                Some(c) if class.has(c) => rest = ahead,
                _ => return rest,
            }
        }
    }

    /// What is left before the characters of a class at the end.
    pub fn without_end(&self, class: &Class) -> Scan<'a>
        ensures { result ≡ without_end (has class.now) self.now }
    {
        let mut rest = self.again();
        loop {
            let mut ahead = rest.again();
            match ahead.next_back() {
                Some(c) if class.has(c) => rest = ahead,
                _ => return rest,
            }
        }
    }

    /// Passes so many characters over.
    pub fn skip(&mut self, count: usize)
        ensures { self.new ≡ drop count self.old }
    {
        for _turn in 0..count {
            let _ = self.next();
        }
    }

    /// Passes so many characters at the end over.
    pub fn skip_back(&mut self, count: usize)
        ensures { self.new ≡ take (length self.old - count) self.old }
    {
        for _turn in 0..count {
            let _ = self.next_back();
        }
    }
}
