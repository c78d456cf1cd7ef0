ghost use Rattle.std.specs.Prelude.{◌≡◌};
ghost use Rattle.pt_prog.specs.CodeRefusals.{format_number, format_place};
ghost use Rattle.pt_prog.specs.Status.{status_of};

use pt_base::{Line, What};
use pt_code::CodeErr;
use pt_front::Refusal;
use pt_sinks::Out;
use pt_verify::VerifyErr;

/// How a call of the program ends.
#[derive(Debug, Drop)]
pub enum End {
    /// The script came to its end.
    Done,
    /// A SystemExit left the script, with this status (Library Reference, `sys.exit`).
    Exited { code: u8 },
    /// Another exception left the script.
    Raised,
    /// So many acts, the bound of the run, are taken, and another would begin.
    Spent { acts: u64 },
    /// The script left the profile of the language, at an act on this line.
    Outside { what: What, line: Line },
    /// The words are no command line.
    Usage,
    /// The text is no script.
    Refused { error: Refusal },
    /// The bytes are no code file, or the code doesn't fit.
    BadCode { error: CodeRefusal },
    /// A file is too long.
    TooLong { which: File },
    /// A file could not be read.
    ReadFault,
    /// A write failed.
    WriteFault { which: Out },
    /// Memory ran out.
    Memory,
    /// The line of the first node of the script, in source order, that isn't built, or of the first
    /// such block of the code.
    Unbuilt { line: Line },
}

/// Why bytes are no code that is run. Want of memory is no refusal.
#[derive(Clone, Copy, Debug, PartialEq, Eq)]
pub enum CodeRefusal {
    /// They are no code file.
    Format(CodeErr),
    /// The code doesn't fit.
    Misfit(VerifyErr),
}

fn format_number(error: CodeErr) -> u8
    ensures { result ≡ format_number error }
{
    match error {
        CodeErr::Magic => 18,
        CodeErr::Version { .. } => 19,
        CodeErr::Truncated { .. } => 20,
        CodeErr::Field { .. } => 21,
        CodeErr::Trailing { .. } => 22,
        CodeErr::Memory => 0,
    }
}

fn format_place(error: CodeErr) -> usize
    ensures { result ≡ format_place error }
{
    match error {
        CodeErr::Magic | CodeErr::Memory => 0,
        CodeErr::Version { got } => got as usize,
        CodeErr::Truncated { at } | CodeErr::Field { at } | CodeErr::Trailing { at } => at,
    }
}

impl CodeRefusal {
    ghost use Rattle.std.specs.Prelude.{◌≡◌};
    ghost use Rattle.pt_prog.specs.CodeRefusals.{number_of, place_of};

    /// Its number, from 18 on.
    pub fn number(&self) -> u8
        ensures { result ≡ number_of self.now }
    {
        match self {
            CodeRefusal::Format(error) => format_number(*error),
            CodeRefusal::Misfit(error) => match error.refusal() {
                Some((number, _)) => number,
                None => 0,
            },
        }
    }

    /// The place that is told of it: a byte of the file or its version, a place or a row of a block,
    /// or a block.
    pub fn place(&self) -> usize
        ensures { result ≡ place_of self.now }
    {
        match self {
            CodeRefusal::Format(error) => format_place(*error),
            CodeRefusal::Misfit(error) => match error.refusal() {
                Some((_, place)) => place as usize,
                None => 0,
            },
        }
    }
}

/// A file that the words name.
#[derive(Clone, Copy, Debug, PartialEq, Eq)]
pub enum File {
    First,
    Second,
}

/// The exit status of an end.
pub fn status(end: &End) -> u8
    ensures { result ≡ status_of end.now }
{
    match end {
        End::Done => 0,
        End::Exited { code } => *code,
        End::Raised => 1,
        End::Usage => 2,
        End::Spent { .. } => 3,
        End::Outside { .. } => 4,
        End::Refused { .. } => 6,
        End::BadCode { .. } => 7,
        End::TooLong { .. } => 8,
        End::ReadFault => 9,
        End::WriteFault { .. } => 10,
        End::Memory => 11,
        End::Unbuilt { .. } => 12,
    }
}
