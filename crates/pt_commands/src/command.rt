//! Commands.
ghost use Rattle.std.specs.Prelude.{◌≡◌};
ghost use Rattle.pt_commands.specs.Commands.{is_passive};

use pt_base::{Line, Text};

/// What a line of commands asks for (Library Reference, "pdb", "Debugger Commands").
#[derive(Debug, Drop)]
pub enum Command {
    /// A breakpoint is set on a line.
    Break {
        line: Line,
        temporary: bool,
        condition: Option<Text>,
    },
    /// The breakpoints are listed.
    List,
    /// A breakpoint is deleted.
    Clear {
        number: u32,
    },
    /// All breakpoints are deleted.
    ClearAll,
    /// A breakpoint gets a condition, or loses it.
    Condition {
        number: u32,
        condition: Option<Text>,
    },
    /// So many crossings of a breakpoint are ignored.
    Ignore {
        number: u32,
        count: u64,
    },
    /// A breakpoint is switched on or off.
    Enable {
        number: u32,
        on: bool,
    },
    /// The run goes on, to the next event.
    Step,
    /// To the next event of this frame.
    Next,
    /// To a later line of this frame, the next one where none is said.
    Until {
        line: Option<Line>,
    },
    /// To the return of this frame.
    Return,
    /// To a breakpoint.
    Continue,
    /// The run goes on at another line.
    Jump {
        line: Line,
    },
    /// The frame's caller is chosen.
    Up,
    /// The frame that this one called is chosen.
    Down,
    /// The frames are written.
    Where,
    /// The parameters of the frame are written.
    Args,
    /// The value of an expression is written.
    Print {
        expression: Text,
    },
    /// The run ends.
    Quit,
    /// The last command again: an empty line.
    Repeat,
    /// The line is no command.
    Bad,
}

impl Command {
    /// Whether a run that reads it does the same as one without a debugger: it neither jumps nor ends
    /// by it.
    pub fn is_passive(&self) -> bool
        ensures { result ≡ is_passive self.now }
    {
        !matches!(self, Command::Jump { .. } | Command::Quit)
    }
}
