ghost use Rattle.std.specs.Prelude.{◌≡◌, true, false, ℕ, ◌<◌, ◌≤◌, ◌^◌, [], ◌∷◌, ◌++◌, List, length, MatchResult, MatchOption, OnOk, IfOk, ◌⊎◌};
ghost use Rattle.pt_literals.specs.declared.token.LexErr.{LexErr as Refusal};
ghost use Rattle.pt_base.specs.declared.failure.Failure.TheVariants as failure;
ghost use Rattle.pt_literals.specs.declared.token.Token.{Token as Lexed};
ghost use Rattle.pt_lexer.specs.Lines.{at_of, line_of, token, nest, outside, has_words, kind_of as kind_of_word, Gap, NoPiece, NoLineStop, Stops, closing};
ghost use Rattle.pt_literals.specs.declared.modes.Mode.TheVariants as mode;
ghost use Rattle.pt_literals.specs.Literals.{literal as literal_in, no_literal};
ghost use Rattle.pt_lexer.specs.Words.{NoWord};
ghost use Rattle.pt_lexer.specs.Columns.{AreRising};
ghost use Rattle.pt_base.specs.Failures.{IfRefused};
ghost use Rattle.pt_lexer.specs.Faults.{or_line, left_open_by as open_by, line_of_part as part_line, broken_off as breaks_off, string_line, Fails, Refused, IsTokens, IsRefused};
ghost use Rattle.pt_lexer.specs.Shape.{IsWellFormed, PlacesRise, StringsEnd};
ghost use Rattle.pt_lexer.specs.Progress.{DepthOrWord, FailsWith, WordsRead, Begins, FirstFault, ReadsLine, Rises, TextRead};

use crate::brackets::{outermost, turn};
use crate::columns::{Columns, column_of};
use crate::gaps::{behind_gap, behind_stop};
use crate::words::{plain_word, word};
use crate::{Begun, LexErr, Lexeme, Mode, Opening, Part, Reading, Spot, TextEnd, Token, TokenKind};
use pt_base::{Failure, Line, Memory, Seq, Stack};
use pt_literals::{behind_byte_order_mark, first_spot, literal, read};
use std::alloc::Global;

/// The line on which a rest of the text stands.
fn line_at(end: TextEnd, text: &[Spot]) -> Line
    ensures { result ≡ line_of end text.now }
{
    match first_spot(text) {
        Some((spot, _)) => spot.line,
        None => end.line,
    }
}

/// A token where a rest of the text stands.
fn token_at(end: TextEnd, text: &[Spot], kind: TokenKind) -> Token
    ensures { result ≡ token end text.now kind }
{
    match first_spot(text) {
        Some((spot, _)) => Token {
            kind,
            at: spot.at,
            line: spot.line,
        },
        None => Token {
            kind,
            at: end.at,
            line: end.line,
        },
    }
}

/// The token of a word.
fn kind_of(word: Lexeme) -> TokenKind
    ensures { result ≡ kind_of_word word }
{
    match word {
        Lexeme::Word(kind) => kind,
        Lexeme::Start(_) => TokenKind::FStart,
    }
}

/// What stands behind the logical line that stops here: none stops in a bracket or a string.
fn behind_line<'a>(
    end: TextEnd,
    mode: Mode,
    opened: &Stack<Opening>,
    text: &'a [Spot],
) -> Option<&'a [Spot]>
    ensures { MatchOption result (NoLineStop end (nest mode opened.now) text.now) (λ rest. (nest mode opened.now ≡ outside) × Stops end text.now rest.now) }
{
    if !matches!(mode, Mode::Words) {
        return None;
    }
    if opened.is_empty() {
        return behind_stop(end, text);
    }
    None
}

/// What is wrong where the text ends in brackets, or in a field of an f-string.
fn fault_at_end(end: TextEnd, mode: Mode, opened: Stack<Opening>) -> LexErr
    requires words { has_words mode ≡ true }
    requires stop { NoLineStop end (nest mode opened) [] }
    ensures { Fails end (nest mode opened) [] result end.at }
{
    if !end.is_whole {
        return LexErr::NotUtf8 { at: end.at };
    }
    let (line, string) = outermost(mode, opened, end.line);
    left_open_by(line, string)
}

/// The refusal of what is never closed: a string, or else a bracket.
fn left_open_by(bracket: Line, string: Option<Line>) -> LexErr
    ensures { result ≡ open_by bracket string }
{
    match string {
        Some(line) => LexErr::OpenString { line },
        None => LexErr::OpenBracket { line: bracket },
    }
}

/// What is wrong where no word of a line stands, and the line doesn't end either.
fn fault_at(end: TextEnd, mode: Mode, opened: Stack<Opening>, text: &[Spot]) -> LexErr
    requires gap { NoPiece end (nest mode opened) text.now }
    requires word { NoWord mode text.now }
    requires stop { NoLineStop end (nest mode opened) text.now }
    ensures { Fails end (nest mode opened) text.now result (at_of end text.now) }
{
    match first_spot(text) {
        Some((spot, _)) => LexErr::BadChar { at: spot.at },
        None => fault_at_end(end, mode, opened),
    }
}

fn line_of_part(part: Part) -> Line
    ensures { result ≡ part_line part }
{
    match part {
        Part::Whole(string) => string.line,
        Part::Text(string) => string.line,
        Part::Spec(string) => string.line,
    }
}

/// What is wrong where the text ends in a part of a string: the outermost f-string is told.
fn broken_off(end: TextEnd, mode: Mode, opened: Stack<Opening>, part: Part) -> LexErr
    ensures { result ≡ breaks_off end (or_line (string_line (nest mode opened)) (part_line part)) }
{
    if !end.is_whole {
        return LexErr::NotUtf8 { at: end.at };
    }
    let line = line_of_part(part);
    match outermost(mode, opened, line) {
        (_, Some(line)) => LexErr::OpenString { line },
        (_, None) => LexErr::OpenString { line },
    }
}

/// The place of a line's first word, or of what is strange or ends there.
fn begin<'a>(alloc: Global, end: TextEnd, text: &'a [Spot]) -> &'a [Spot]
    ensures gap { Gap end outside text.now result.now }
    ensures full { NoPiece end outside result.now }
{
    let opened = Stack::new(alloc);
    behind_gap(end, Mode::Words, &opened, text)
}

/// What is wrong with a line whose first word opens one block too many: the word itself, or else
/// the depth of the line.
fn too_deep_at(alloc: Global, word: &Lexeme, spot: Spot) -> Failure<LexErr>
    ensures { DepthOrWord word.now spot result }
{
    let mut opened = Stack::new(alloc);
    match turn(Mode::Words, &mut opened, word, spot.line) {
        Err(error) => error,
        Ok(_) => Failure::Refused(LexErr::Limit { line: spot.line }),
    }
}

/// The same where the line begins with no number and no string.
fn too_deep_plain(alloc: Global, end: TextEnd, first: &[Spot], spot: Spot) -> Failure<LexErr>
    requires begins { Begins end first.now first.now spot }
    requires lacks { literal_in mode.Words first.now ≡ no_literal }
    ensures { IfRefused (FirstFault end first.now spot) result }
{
    match plain_word(alloc, first) {
        Err(_) => Failure::Memory,
        Ok(None) => Failure::Refused(LexErr::BadChar { at: spot.at }),
        Ok(Some((word, _))) => too_deep_at(alloc, &Lexeme::Word(word), spot),
    }
}

/// What is wrong with a line that opens one block too many: its first word may be at fault too, if
/// that is found at its first character.
fn too_deep(alloc: Global, end: TextEnd, first: &[Spot], spot: Spot) -> Failure<LexErr>
    requires begins { Begins end first.now first.now spot }
    ensures { IfRefused (FirstFault end first.now spot) result }
{
    match literal(alloc, Mode::Words, first) {
        Err(error) => error,
        Ok(Begun::Holds(..)) => Failure::Refused(LexErr::Limit { line: spot.line }),
        Ok(Begun::Known(word, _)) => too_deep_at(alloc, &word, spot),
        Ok(Begun::Nothing) => too_deep_plain(alloc, end, first, spot),
    }
}

/// How many blocks may be open.
const MAX_BLOCKS: usize = 100;

/// The tokens of a text as far as they are read, and the columns that are open.
#[derive(Drop)]
struct Lexer {
    alloc: Global,
    end: TextEnd,
    columns: Columns,
    tokens: Seq<Token>,
}

impl Lexer {
    /// Reads the words of a logical line. What is answered is where it stops, and what stands
    /// behind it.
    fn words<'a>(&mut self, text: &'a [Spot]) -> Result<(&'a [Spot], &'a [Spot]), Failure<LexErr>>
        ensures read { MatchResult result
            (λ r. WordsRead self.old.end text.now self.old.tokens self.new.tokens r.0.now r.1.now)
            (FailsWith self.old.end outside text.now) }
        ensures columns { self.new.columns ≡ self.old.columns }
        ensures end { self.new.end ≡ self.old.end }
    {
        let end = self.end;
        let mut mode = Mode::Words;
        let mut opened = Stack::new(self.alloc);
        let mut rest = text;
        loop {
            let here = behind_gap(end, mode, &opened, rest);
            if let Some(behind) = behind_line(end, mode, &opened, here) {
                return Ok((here, behind));
            }
            match word(self.alloc, mode, here)? {
                Reading::Found(found, behind) => {
                    mode = turn(mode, &mut opened, &found, line_at(end, here))?;
                    self.tokens.push(token_at(end, here, kind_of(found)))?;
                    rest = behind;
                }
                Reading::Broken(part) => {
                    return Err(Failure::Refused(broken_off(end, mode, opened, part)));
                }
                Reading::NoneFound => {
                    return Err(Failure::Refused(fault_at(end, mode, opened, here)));
                }
            }
        }
    }

    /// Reads a line whose first word stands at a spot.
    fn full_line<'a>(
        &mut self,
        text: &'a [Spot],
        first: &'a [Spot],
        spot: Spot,
    ) -> Result<&'a [Spot], Failure<LexErr>>
        requires begins { Begins self.old.end text.now first.now spot }
        requires rising { AreRising (self.old.columns.inner ∷ self.old.columns.outer) }
        requires short { length text.now < 2 ^ 32 }
        ensures read { MatchResult result
            (λ rest. ReadsLine self.old.end (self.old.columns.inner ∷ self.old.columns.outer) (self.new.columns.inner ∷ self.new.columns.outer)
            text.now rest.now self.old.tokens self.new.tokens)
            (IfRefused (Refused self.old.end (self.old.columns.inner ∷ self.old.columns.outer) text.now)) }
        ensures end { self.new.end ≡ self.old.end }
    {
        let end = self.end;
        self.columns.turn(column_of(text), spot, &mut self.tokens)?;
        if self.columns.outer.len() > MAX_BLOCKS {
            return Err(too_deep(self.alloc, end, first, spot));
        }
        let (stop, rest) = self.words(first)?;
        self.tokens.push(token_at(end, stop, TokenKind::Newline))?;
        Ok(rest)
    }

    /// Reads a logical line (Language Reference 2.1.1). What is answered stands behind it.
    fn line<'a>(&mut self, text: &'a [Spot]) -> Result<&'a [Spot], Failure<LexErr>>
        requires rises { Rises self.old.end text.now }
        requires rising { AreRising (self.old.columns.inner ∷ self.old.columns.outer) }
        requires short { length text.now < 2 ^ 32 }
        ensures read { MatchResult result
            (λ rest. ReadsLine self.old.end (self.old.columns.inner ∷ self.old.columns.outer) (self.new.columns.inner ∷ self.new.columns.outer)
            text.now rest.now self.old.tokens self.new.tokens)
            (IfRefused (Refused self.old.end (self.old.columns.inner ∷ self.old.columns.outer) text.now)) }
        ensures end { self.new.end ≡ self.old.end }
    {
        let end = self.end;
        let first = begin(self.alloc, end, text);
        if let Some(rest) = behind_stop(end, first) {
            return Ok(rest);
        }
        let Some((spot, _)) = first_spot(first) else {
            return Err(Failure::Refused(LexErr::NotUtf8 { at: end.at }));
        };
        self.full_line(text, first, spot)
    }

    fn into_tokens(self) -> Seq<Token>
        ensures { result ≡ self.tokens }
    {
        self.tokens
    }

    /// Closes the blocks that are open, and ends the tokens (Language Reference 2.1.8).
    fn close(&mut self) -> Result<(), Memory>
        ensures { OnOk result (self.new.tokens ≡ self.old.tokens ++ closing self.old.end (self.old.columns.inner ∷ self.old.columns.outer)) }
    {
        let end = self.end;
        while let Some(_) = self.columns.outer.pop() {
            self.tokens.push(token_at(end, &[], TokenKind::Dedent))?;
        }
        self.tokens.push(token_at(end, &[], TokenKind::End))
    }

    /// Reads the lines of a text.
    fn lines(&mut self, text: &[Spot]) -> Result<(), Failure<LexErr>>
        requires rises { Rises self.old.end text.now }
        requires rising { AreRising (self.old.columns.inner ∷ self.old.columns.outer) }
        requires short { length text.now < 2 ^ 32 }
        ensures { MatchResult result
            (λ _. TextRead self.old.end (self.old.columns.inner ∷ self.old.columns.outer) text.now self.old.tokens self.new.tokens)
            (IfRefused (Refused self.old.end (self.old.columns.inner ∷ self.old.columns.outer) text.now)) }
    {
        let end = self.end;
        let mut rest = text;
        while !rest.is_empty() {
            rest = self.line(rest)?;
        }
        if !end.is_whole {
            return Err(Failure::Refused(LexErr::NotUtf8 { at: end.at }));
        }
        self.close()?;
        Ok(())
    }
}

/// Reads a whole text.
fn lex(alloc: Global, bytes: &[u8]) -> Result<Seq<Token>, Failure<LexErr>>
    requires { length bytes.now < 2 ^ 31 }
    ensures { MatchResult result (IsTokens bytes.now) (IfRefused (IsRefused bytes.now)) }
{
    let source = read(alloc, bytes)?;
    let mut lexer = Lexer {
        alloc,
        end: source.end,
        columns: Columns::new(alloc),
        tokens: Seq::new(alloc),
    };
    lexer.lines(behind_byte_order_mark(source.spots.as_slice()))?;
    Ok(lexer.into_tokens())
}

/// The tokens of a script's text (Language Reference 2).
///
/// The refusal is the fault that is found first, and of two at one place the one with the smaller
/// number. An answer other than want of memory depends on the text alone.
pub fn tokens(alloc: Global, bytes: &[u8]) -> Result<Seq<Token>, Failure<LexErr>>
    requires { length bytes.now < 2 ^ 31 }
    ensures exact { MatchResult result (IsTokens bytes.now) (IfRefused (IsRefused bytes.now)) }

    // INDENTs and DEDENTs balance, each line ends with NEWLINE, END is last, each FSTART has one FEND,
    // and places rise.
    ensures shape { IfOk result (λ all. IsWellFormed all 0 false × StringsEnd all 0 × PlacesRise 0 all) }

    // A text has at most one list of tokens, none where it is refused, and one refusal.
    ensures one_list { (all : List Lexed) → IsTokens bytes.now all → MatchResult result (λ found. found ≡ all) (λ e. e ≡ failure.Memory) }
    ensures one_refusal { (f : Refusal) → IsRefused bytes.now f → MatchResult result (λ _. ⊥) (IfRefused (λ e. e ≡ f)) }
{
    lex(alloc, bytes)
}
