ghost use Rattle.std.specs.Prelude.{◌≡◌, ◌<◌, ◌++◌, IfOk, OnOk, flat_map};
ghost use Rattle.std.specs.Char.{encode_utf8};
ghost use Rattle.std.specs.Str.{chars};
ghost use Rattle.pt_reprs.specs.Reprs.{behind_backslash, escaped, has_char, hex_digit, hex_escape};
ghost use Rattle.pt_reprs.specs.Reprs.{is_plain, quote_of, quoted};

use pt_base::{Memory, Text};
use pt_strs::Scan;
use std::alloc::Global;

fn has_char(text: &str, c: char) -> bool
    ensures { result ≡ has_char c (chars text.now) }
{
    let mut scan = Scan::new(text);
    while let Some(next) = scan.next() {
        if next == c {
            return true;
        }
    }
    false
}

/// An apostrophe, or a quotation mark where the text has an apostrophe and none of these.
fn quote_of(text: &str) -> char
    ensures { result ≡ quote_of (chars text.now) }
{
    if has_char(text, '\'') && !has_char(text, '"') {
        '"'
    } else {
        '\''
    }
}

fn hex_digit(number: u32) -> char
    requires { number < 16 }
    ensures { result ≡ hex_digit number }
{
    match number {
        0 => '0',
        1 => '1',
        2 => '2',
        3 => '3',
        4 => '4',
        5 => '5',
        6 => '6',
        7 => '7',
        8 => '8',
        9 => '9',
        10 => 'a',
        11 => 'b',
        12 => 'c',
        13 => 'd',
        14 => 'e',
        _ => 'f',
    }
}

/// Whether a character stands as itself. Control characters, the blanks of Latin-1 and the soft
/// hyphen don't.
fn is_plain(c: char) -> bool
    ensures { result ≡ is_plain c }
{
    let code = c as u32;
    code >= 32 && (code < 127 || (code > 160 && code != 173))
}

fn push_char(text: &mut Text, c: char) -> Result<(), Memory>
    ensures { OnOk result (text.new ≡ text.old ++ encode_utf8 c) }
{
    let mut bytes = [0; 4];
    text.push_str(c.encode_utf8(&mut bytes))
}

fn push_behind_backslash(text: &mut Text, c: char) -> Result<(), Memory>
    ensures { OnOk result (text.new ≡ text.old ++ behind_backslash c) }
{
    text.push_str("\\")?;
    push_char(text, c)
}

/// Writes a character of at most 8 bits by its number.
fn push_hex(text: &mut Text, c: char) -> Result<(), Memory>
    requires { c < 256 }
    ensures { OnOk result (text.new ≡ text.old ++ hex_escape c) }
{
    push_behind_backslash(text, 'x')?;
    push_char(text, hex_digit(c as u32 / 16))?;
    push_char(text, hex_digit(c as u32 % 16))
}

fn push_escaped(text: &mut Text, quote: char, c: char) -> Result<(), Memory>
    ensures { OnOk result (text.new ≡ text.old ++ escaped quote c) }
{
    if c == '\\' || c == quote {
        return push_behind_backslash(text, c);
    }
    match c {
        '\n' => push_behind_backslash(text, 'n'),
        '\r' => push_behind_backslash(text, 'r'),
        '\t' => push_behind_backslash(text, 't'),
        _ if is_plain(c) => push_char(text, c),
        _ => push_hex(text, c),
    }
}

/// A text in quotes, as it is written in a source text (Library Reference, `repr`).
pub fn quoted(alloc: Global, text: &str) -> Result<Text, Memory>
    ensures { IfOk result (λ t. t ≡ quoted text.now) }
{
    let quote = quote_of(text);
    let mut whole = Text::new(alloc);
    push_char(&mut whole, quote)?;
    let mut scan = Scan::new(text);
    while let Some(c) = scan.next() {
        push_escaped(&mut whole, quote, c)?;
    }
    push_char(&mut whole, quote)?;
    Ok(whole)
}
