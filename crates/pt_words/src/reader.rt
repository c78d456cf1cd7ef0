//! Words read by clap.

ghost use Rattle.std.specs.Prelude.{◌≡◌, None, Some, IfOk, MatchResult, true, map, string_bytes};
ghost use Rattle.std.specs.List.{list_all};
ghost use Rattle.clap.specs.Simple.{app_of};
ghost use Rattle.pt_words.specs.Asked.{asked};
ghost use Rattle.pt_words.specs.Form.{form, HasUses, HaveNoUses, is_regular};
ghost use Rattle.pt_words.specs.Words.{command_line};

use crate::uses::line;
use crate::{CommandLine, WordsErr};
use clap::error::ErrorKind;
use clap::{Arg, ArgAction, ArgMatches, Command};
use std::alloc::{AllocError, Global};

/// Whether a word isn't empty, and a first hyphen is one of two with something behind them.
///
/// clap reads `--` as the end of options, and takes `-` and the empty text for words like any
/// other. Here they are none.
fn is_regular(word: &str) -> bool
    ensures { result ≡ is_regular word.now }
{
    match word.as_bytes() {
        [] => false,
        [b'-', rest @ ..] => matches!(rest, [b'-', _, ..]),
        _ => true,
    }
}

fn are_regular(words: &[String]) -> bool
    ensures { result ≡ list_all (λ word. is_regular (string_bytes word)) words.now }
{
    words.iter().all(|word| is_regular(word.as_str()))
}

/// The form of a command line: words that aren't options, and the options. How often an option may
/// stand is for the reader to say, since clap counts and collects them here.
fn form<'a>(alloc: Global) -> Result<Command<'a>, AllocError>
    ensures { IfOk result (λ c. app_of c ≡ form) }
{
    let files = Arg::new(alloc, "files").action(ArgAction::Append);
    let steps = Arg::new(alloc, "steps")
        .long("steps")
        .action(ArgAction::Append);
    let events = Arg::new(alloc, "events")
        .long("events")
        .action(ArgAction::Count);
    let stats = Arg::new(alloc, "stats")
        .long("stats")
        .action(ArgAction::Count);
    Command::new(alloc, "pt")
        .no_binary_name(true)
        .disable_help_flag(true)
        .arg(files)?
        .arg(steps)?
        .arg(events)?
        .arg(stats)
}

/// The uses of the arguments in regular words.
fn uses<'a>(alloc: Global, words: &'a [String]) -> Result<ArgMatches<'a>, WordsErr>
    requires { list_all (λ word. is_regular (string_bytes word)) words.now ≡ true }
    ensures { MatchResult result (HasUses (map string_bytes words.now))
        (λ e. e ≡ WordsErr.Usage → HaveNoUses (map string_bytes words.now)) }
{
    let Ok(form) = form(alloc) else {
        return Err(WordsErr::Memory);
    };
    match form.try_get_matches_from(words) {
        Ok(matches) => Ok(matches),
        Err(error) => {
            if error.kind() == ErrorKind::OutOfMemory {
                Err(WordsErr::Memory)
            } else {
                Err(WordsErr::Usage)
            }
        }
    }
}

/// What the words of a command line ask for, those behind the program's name.
///
/// # Errors
///
/// Usage exactly where the words are no command line. Want of memory.
pub fn parse<'a>(alloc: Global, words: &'a [String]) -> Result<CommandLine<'a>, WordsErr>
    ensures { MatchResult result
        (λ found. command_line (map string_bytes words.now) ≡ Some (asked found))
        (λ e. e ≡ WordsErr.Usage → command_line (map string_bytes words.now) ≡ None) }
{
    if !are_regular(words) {
        return Err(WordsErr::Usage);
    }
    let matches = uses(alloc, words)?;
    let files = matches.get_strs("files").unwrap_or(&[]);
    let steps = matches.get_strs("steps").unwrap_or(&[]);
    let events = matches.get_count("events");
    let stats = matches.get_count("stats");
    line(files, steps, events, stats).ok_or(WordsErr::Usage)
}
