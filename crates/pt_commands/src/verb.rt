//! The words of commands.
ghost use Rattle.std.specs.Prelude.{◌≡◌};
ghost use Rattle.pt_commands.specs.Verbs.{verb_named, verb_rows};

use pt_tables::Table;

/// What a command does. Each has its words, long and short.
#[derive(Clone, Copy, Debug, PartialEq, Eq)]
pub enum Verb {
    Break,
    TemporaryBreak,
    Clear,
    Condition,
    Ignore,
    Enable,
    Disable,
    Step,
    Next,
    Until,
    Return,
    Continue,
    Jump,
    Up,
    Down,
    Where,
    Args,
    Print,
    Quit,
}

/// The words of commands (Library Reference, "pdb", "Debugger Commands").
static VERBS: [(&str, Verb); 34] = [
    ("break", Verb::Break),
    ("tbreak", Verb::TemporaryBreak),
    ("b", Verb::Break),
    ("clear", Verb::Clear),
    ("cl", Verb::Clear),
    ("condition", Verb::Condition),
    ("ignore", Verb::Ignore),
    ("enable", Verb::Enable),
    ("disable", Verb::Disable),
    ("step", Verb::Step),
    ("next", Verb::Next),
    ("until", Verb::Until),
    ("return", Verb::Return),
    ("continue", Verb::Continue),
    ("s", Verb::Step),
    ("n", Verb::Next),
    ("unt", Verb::Until),
    ("r", Verb::Return),
    ("c", Verb::Continue),
    ("cont", Verb::Continue),
    ("jump", Verb::Jump),
    ("j", Verb::Jump),
    ("up", Verb::Up),
    ("down", Verb::Down),
    ("u", Verb::Up),
    ("d", Verb::Down),
    ("where", Verb::Where),
    ("w", Verb::Where),
    ("bt", Verb::Where),
    ("args", Verb::Args),
    ("a", Verb::Args),
    ("p", Verb::Print),
    ("quit", Verb::Quit),
    ("q", Verb::Quit),
];

fn verb_table() -> Table<'static, Verb, 34>
    ensures { result ≡ verb_rows }
{
    Table::new(&VERBS)
}

/// The verb of a word.
pub fn verb_named(word: &str) -> Option<Verb>
    ensures { result ≡ verb_named word.now }
{
    verb_table().get(word)
}
