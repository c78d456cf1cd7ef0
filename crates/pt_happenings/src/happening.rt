use pt_base::ActNo;
use pt_heap::Value;

/// What is told of a run (Library Reference, `sys.monitoring`, "Events"; PEP 669).
#[derive(Clone, Copy, Debug, PartialEq, Eq)]
pub enum Happening {
    /// A block starts.
    Starts,
    /// A generator goes on by `next` or `send`.
    Resumes,
    /// A block returns.
    Returns(Value),
    /// A generator gives a value on.
    Yields(Value),
    /// A generator goes on by `throw` or `close`.
    Throws(Value),
    /// An exception leaves a block.
    Unwinds(Value),
    /// A call begins, with this first positional argument.
    Calls { callee: Value, first: Value },
    /// A builtin that was called returned.
    ReturnsFrom { callee: Value, first: Value },
    /// A builtin that was called raised.
    RaisesFrom { callee: Value, first: Value },
    /// A line begins.
    Line { behind_jump: bool },
    /// A `break` or `continue`.
    Jumps { destination: ActNo },
    /// A decision was taken.
    Branches { destination: ActNo },
    /// An exception arises or arrives.
    Raises(Value),
    /// An exception goes on.
    RaisesAgain(Value),
    /// A handler takes an exception.
    Handled(Value),
    /// An exception ends an iterator.
    Stops(Value),
}

impl Happening {
    ghost use Rattle.std.specs.Prelude.{◌≡◌};
    ghost use Rattle.sem_run.specs.run.Events.{bit, is_for_debugger, is_line};
    ghost use Rattle.pt_happenings.specs.Views.{happening_view};

    /// The number of its bit in sets of events.
    pub fn bit(&self) -> u32
        ensures { result ≡ bit (happening_view self.now) }
    {
        match self {
            Happening::Starts => 0,
            Happening::Resumes => 1,
            Happening::Returns(_) => 2,
            Happening::Yields(_) => 3,
            Happening::Throws(_) => 4,
            Happening::Unwinds(_) => 5,
            Happening::Calls { .. } => 6,
            Happening::ReturnsFrom { .. } => 7,
            Happening::RaisesFrom { .. } => 8,
            Happening::Line { .. } => 9,
            Happening::Jumps { .. } => 10,
            Happening::Branches { .. } => 11,
            Happening::Raises(_) => 12,
            Happening::RaisesAgain(_) => 13,
            Happening::Handled(_) => 14,
            Happening::Stops(_) => 15,
        }
    }

    /// Whether a line begins.
    pub fn is_line(&self) -> bool
        ensures { result ≡ is_line (happening_view self.now) }
    {
        match self {
            Happening::Line { .. } => true,
            _ => false,
        }
    }

    /// Whether a debugger is asked: at the four kinds of events of `sys.settrace`, but not at a line
    /// that begins behind a jump.
    pub fn is_for_debugger(&self) -> bool
        ensures { result ≡ is_for_debugger (happening_view self.now) }
    {
        match self {
            Happening::Line { behind_jump } => !*behind_jump,
            Happening::Starts
            | Happening::Resumes
            | Happening::Throws(_)
            | Happening::Returns(_)
            | Happening::Yields(_)
            | Happening::Unwinds(_)
            | Happening::Raises(_) => true,
            _ => false,
        }
    }
}
