ghost use Rattle.std.specs.Prelude.{◌≡◌, [], ◌∷◌, ◌↔◌, IsTrue, length, map, Ok, Err, IfOk, MatchResult, OnOk, Some, None};
ghost use Rattle.pt_lexer.specs.Words.{is_listed};
ghost use Rattle.pt_lexer.specs.Lines.{nest, opens, closes, is_excluded, same_bracket, shut as shut_by, mode_behind as behind_mode, mode_in as mode_inside, opened_by, turned_by_sign, turned_in_words, is_sign as is_sign_by, ends_string as ends_string_by, turned_in_field, turned_in_text, is_spec as is_spec_mode, as_brackets, field_in_spec as spec_field, turned_in_spec, turned};
ghost use Rattle.pt_base.specs.Failures.{IfRefused};
ghost use Rattle.pt_lexer.specs.Faults.{outermost as outermost_line, line_of_mode as mode_line, string_line};

use crate::{Bracket, Delimiter, EXCLUDED, Field, LexErr, Lexeme, Mode, Opening, TokenKind};
use pt_base::{Failure, Line, Memory, Stack, Text};

/// How many brackets may be open.
const MAX_OPENED: usize = 100;

/// Whether the sign stands in the list.
fn lists(list: &[&str], sign: &Text) -> bool
    ensures { result ≡ is_listed (map (λ k. k.now) list.now) sign.now }
{
    for word in list {
        if sign.is(word) {
            return true;
        }
    }
    false
}

/// Whether the sign is left out of the language on purpose.
fn excludes(sign: &Text) -> bool
    ensures { result ≡ is_excluded sign.now }
{
    lists(&EXCLUDED, sign)
}

/// The bracket that the sign opens.
fn opening(sign: &Text) -> Option<Bracket>
    ensures { result ≡ opens sign.now }
{
    if sign.is("(") {
        return Some(Bracket::Round);
    }
    if sign.is("[") {
        return Some(Bracket::Square);
    }
    if sign.is("{") {
        return Some(Bracket::Curly);
    }
    None
}

/// The bracket that the sign closes.
fn closing(sign: &Text) -> Option<Bracket>
    ensures { result ≡ closes sign.now }
{
    if sign.is(")") {
        return Some(Bracket::Round);
    }
    if sign.is("]") {
        return Some(Bracket::Square);
    }
    if sign.is("}") {
        return Some(Bracket::Curly);
    }
    None
}

fn is_same(a: Bracket, b: Bracket) -> bool
    ensures { result ≡ same_bracket a b }
{
    match a {
        Bracket::Round => matches!(b, Bracket::Round),
        Bracket::Square => matches!(b, Bracket::Square),
        Bracket::Curly => matches!(b, Bracket::Curly),
    }
}

/// Closes the innermost bracket. What is answered is the mode that goes on behind it.
fn shut(opened: &mut Stack<Opening>, bracket: Bracket, line: Line) -> Result<Mode, Failure<LexErr>>
    ensures { MatchResult result
        (λ m. shut_by opened.old bracket line ≡ Ok (nest m opened.new))
        (IfRefused (λ e. shut_by opened.old bracket line ≡ Err e)) }
{
    let Some(last) = opened.pop() else {
        return Err(Failure::Refused(LexErr::OpenBracket { line }));
    };
    if is_same(last.bracket, bracket) {
        return Ok(last.mode);
    }
    Err(Failure::Refused(LexErr::OpenBracket { line }))
}

/// How the text behind an opening bracket is read.
fn mode_behind(mode: Mode) -> Mode
    ensures { result ≡ behind_mode mode }
{
    match mode {
        Mode::Words => Mode::Words,
        Mode::Text(string) => Mode::Field(Field {
            string,
            is_nested: false,
        }),
        Mode::Field(_) => Mode::Words,
        Mode::Spec(field) => Mode::Field(Field {
            string: field.string,
            is_nested: true,
        }),
    }
}

/// How words are read where these brackets are open.
fn mode_in(opened: &mut Stack<Opening>) -> Result<Mode, Memory>
    ensures { IfOk result (λ m. (m ≡ mode_inside opened.old) × (opened.new ≡ opened.old)) }
{
    let Some(last) = opened.pop() else {
        return Ok(Mode::Words);
    };
    opened.push(last)?;
    Ok(mode_behind(last.mode))
}

/// Opens a bracket.
fn open(
    mode: Mode,
    opened: &mut Stack<Opening>,
    bracket: Bracket,
    line: Line,
) -> Result<Mode, Failure<LexErr>>
    ensures { MatchResult result
        (λ m. opened_by mode opened.old bracket line ≡ Ok (nest m opened.new))
        (IfRefused (λ e. opened_by mode opened.old bracket line ≡ Err e)) }
{
    if opened.len() >= MAX_OPENED {
        return Err(Failure::Refused(LexErr::Limit { line }));
    }
    opened.push(Opening {
        bracket,
        line,
        mode,
    })?;
    Ok(mode_behind(mode))
}

/// A sign among words (Language Reference 2.1.6).
fn turn_by_sign(
    mode: Mode,
    opened: &mut Stack<Opening>,
    sign: &Text,
    line: Line,
) -> Result<Mode, Failure<LexErr>>
    ensures { MatchResult result
        (λ m. turned_by_sign mode opened.old sign.now line ≡ Ok (nest m opened.new))
        (IfRefused (λ e. turned_by_sign mode opened.old sign.now line ≡ Err e)) }
{
    if excludes(sign) {
        return Err(Failure::Refused(LexErr::Excluded { line }));
    }
    if let Some(bracket) = opening(sign) {
        return open(mode, opened, bracket, line);
    }
    if let Some(bracket) = closing(sign) {
        return shut(opened, bracket, line);
    }
    Ok(mode)
}

/// A word among words.
fn turn_in_words(
    mode: Mode,
    opened: &mut Stack<Opening>,
    word: &Lexeme,
    line: Line,
) -> Result<Mode, Failure<LexErr>>
    ensures { MatchResult result
        (λ m. turned_in_words mode opened.old word.now line ≡ Ok (nest m opened.new))
        (IfRefused (λ e. turned_in_words mode opened.old word.now line ≡ Err e)) }
{
    match word {
        Lexeme::Start(string) => Ok(Mode::Text(*string)),
        Lexeme::Word(TokenKind::Sign(sign)) => turn_by_sign(mode, opened, sign, line),
        Lexeme::Word(_) => Ok(mode),
    }
}

fn is_sign(word: &Lexeme, spelling: &str) -> bool
    ensures { result ≡ is_sign_by spelling.now word.now }
{
    match word {
        Lexeme::Word(TokenKind::Sign(sign)) => sign.is(spelling),
        Lexeme::Word(_) => false,
        Lexeme::Start(_) => false,
    }
}

fn ends_string(word: &Lexeme) -> bool
    ensures { result ≡ ends_string_by word.now }
{
    match word {
        Lexeme::Word(TokenKind::FEnd) => true,
        Lexeme::Word(_) => false,
        Lexeme::Start(_) => false,
    }
}

/// A word in a field, outside its brackets: a colon begins its format spec.
fn turn_in_field(
    field: Field,
    opened: &mut Stack<Opening>,
    word: &Lexeme,
    line: Line,
) -> Result<Mode, Failure<LexErr>>
    ensures { MatchResult result
        (λ m. turned_in_field field opened.old word.now line ≡ Ok (nest m opened.new))
        (IfRefused (λ e. turned_in_field field opened.old word.now line ≡ Err e)) }
{
    if is_sign(word, ":") {
        return Ok(Mode::Spec(field));
    }
    turn_in_words(Mode::Field(field), opened, word, line)
}

/// A word of the literal text of an f-string.
fn turn_in_text(
    string: Delimiter,
    opened: &mut Stack<Opening>,
    word: &Lexeme,
    line: Line,
) -> Result<Mode, Failure<LexErr>>
    ensures { MatchResult result
        (λ m. turned_in_text string opened.old word.now line ≡ Ok (nest m opened.new))
        (IfRefused (λ e. turned_in_text string opened.old word.now line ≡ Err e)) }
{
    if ends_string(word) {
        return Ok(mode_in(opened)?);
    }
    if is_sign(word, "{") {
        return open(Mode::Text(string), opened, Bracket::Curly, line);
    }
    Ok(Mode::Text(string))
}

/// Whether the mode is that of a format spec.
fn is_spec(mode: Mode) -> bool
    ensures { result ≡ is_spec_mode mode }
{
    matches!(mode, Mode::Spec(_))
}

/// Ends a string in a format spec: the brace of the field stays open as a bracket like others, and
/// so does the brace of the field in whose spec it stands.
fn leave_open(opened: &mut Stack<Opening>) -> Result<(), Memory>
    ensures { OnOk result (opened.new ≡ as_brackets opened.old) }
{
    let Some(last) = opened.pop() else {
        return Ok(());
    };
    if is_spec(last.mode) {
        leave_open(opened)?;
    }
    let mode = mode_in(opened)?;
    opened.push(Opening {
        bracket: last.bracket,
        line: last.line,
        mode,
    })
}

/// A field in a format spec.
fn field_in_spec(
    field: Field,
    opened: &mut Stack<Opening>,
    line: Line,
) -> Result<Mode, Failure<LexErr>>
    ensures { MatchResult result
        (λ m. spec_field field opened.old line ≡ Ok (nest m opened.new))
        (IfRefused (λ e. spec_field field opened.old line ≡ Err e)) }
{
    if field.is_nested {
        return Err(Failure::Refused(LexErr::Excluded { line }));
    }
    open(Mode::Spec(field), opened, Bracket::Curly, line)
}

/// A word of a format spec.
fn turn_in_spec(
    field: Field,
    opened: &mut Stack<Opening>,
    word: &Lexeme,
    line: Line,
) -> Result<Mode, Failure<LexErr>>
    ensures { MatchResult result
        (λ m. turned_in_spec field opened.old word.now line ≡ Ok (nest m opened.new))
        (IfRefused (λ e. turned_in_spec field opened.old word.now line ≡ Err e)) }
{
    if ends_string(word) {
        leave_open(opened)?;
        return Ok(Mode::Words);
    }
    if is_sign(word, "{") {
        return field_in_spec(field, opened, line);
    }
    if is_sign(word, "}") {
        return shut(opened, Bracket::Curly, line);
    }
    Ok(Mode::Spec(field))
}

/// The mode behind a word; opens or closes brackets by it (Language Reference 2.1.6, 2.4.3).
pub(crate) fn turn(
    mode: Mode,
    opened: &mut Stack<Opening>,
    word: &Lexeme,
    line: Line,
) -> Result<Mode, Failure<LexErr>>
    ensures { MatchResult result
        (λ m. turned (nest mode opened.old) word.now line ≡ Ok (nest m opened.new))
        (IfRefused (λ e. turned (nest mode opened.old) word.now line ≡ Err e)) }
{
    match mode {
        Mode::Words => turn_in_words(Mode::Words, opened, word, line),
        Mode::Text(string) => turn_in_text(string, opened, word, line),
        Mode::Field(field) => turn_in_field(field, opened, word, line),
        Mode::Spec(field) => turn_in_spec(field, opened, word, line),
    }
}

/// The line of the string of a mode, or else what was found before.
fn line_of_mode(found: Option<Line>, mode: Mode) -> Option<Line>
    ensures { result ≡ mode_line found mode }
{
    match mode {
        Mode::Words => found,
        Mode::Text(string) => Some(string.line),
        Mode::Field(field) => Some(field.string.line),
        Mode::Spec(field) => Some(field.string.line),
    }
}

/// The line of the outermost bracket, and that of the outermost f-string.
pub(crate) fn outermost(mode: Mode, mut opened: Stack<Opening>, line: Line) -> (Line, Option<Line>)
    ensures { (result.0 ≡ outermost_line line opened) × (result.1 ≡ string_line (nest mode opened)) }
{
    let mut found = line;
    let mut string = line_of_mode(None, mode);
    while let Some(last) = opened.pop() {
        found = last.line;
        string = line_of_mode(string, last.mode);
    }
    (found, string)
}
