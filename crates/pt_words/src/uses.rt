//! What the uses of a command line's arguments ask for.

ghost use Rattle.std.specs.Prelude.{◌≡◌, false, map, option_map};
ghost use Rattle.std.specs.Option.{option_copied};
ghost use Rattle.pt_words.specs.Asked.{asked};
ghost use Rattle.pt_words.specs.Words.{asked_of, command_named, command_of, count_of};
ghost use Rattle.pt_words.specs.Words.{number_of, steps_of};

use crate::{Command, CommandLine};

/// How many acts a run may take where the words don't say it.
const DEFAULT_STEPS: u64 = 10_000_000;

/// The functions that a script which is made may have.
const MOST_FUNCTIONS: u64 = 2_000;

/// The command with a file that a word names.
fn command_named(word: &str) -> Option<Command>
    ensures { result ≡ command_named word.now }
{
    match word {
        "run" => Some(Command::Run),
        "trace" => Some(Command::Trace),
        "dis" => Some(Command::Dis),
        "build" => Some(Command::Build),
        "exec" => Some(Command::Exec),
        "cover" => Some(Command::Cover),
        "profile" => Some(Command::Profile),
        _ => None,
    }
}

/// The number that decimal digits write, of at most 64 bits.
fn number(text: &str) -> Option<u64>
    ensures { result ≡ number_of text.now }
{
    if text.starts_with('+') {
        return None;
    }
    text.parse::<u64>().ok()
}

/// How many functions a script is to have.
fn count(text: &str) -> Option<u32>
    ensures { result ≡ count_of text.now }
{
    let count = number(text)?;
    if count <= MOST_FUNCTIONS {
        Some(count as u32)
    } else {
        None
    }
}

/// The command of a word and the one behind it.
#[tactic(auto, unfolding(crate::specs::Words::command_of))]
fn command_of(word: &str, first: &str) -> Option<Command>
    ensures { result ≡ command_of word.now first.now }
{
    if word == "gen" {
        let count = count(first)?;
        return Some(Command::Gen { count });
    }
    command_named(word)
}

/// How many acts a run may take, by the values of `--steps`.
fn steps(values: &[&str]) -> Option<u64>
    ensures { result ≡ steps_of (map (λ v. v.now) values.now) }
{
    match values {
        [] => Some(DEFAULT_STEPS),
        [value] => number(value),
        _ => None,
    }
}

/// What is asked for by words that aren't options, by the values of `--steps`, and by how often
/// `--events` and `--stats` stand.
pub(crate) fn line<'a>(
    files: &[&'a str],
    values: &[&str],
    events: u8,
    stats: u8,
) -> Option<CommandLine<'a>>
    ensures { option_map asked result ≡ asked_of (map (λ v. v.now) files.now) (record {
      files = map (λ v. v.now) files.now;
      steps = map (λ v. v.now) values.now;
      events = events;
      stats = stats;
      awaits = false;
    }) }
{
    let [command, script] = files else {
        return None;
    };
    let command = command_of(command, script)?;
    let steps = steps(values)?;
    if events > 1 || stats > 1 {
        return None;
    }
    Some(CommandLine {
        command,
        script,
        steps,
        events: events == 1,
        stats: stats == 1,
    })
}
