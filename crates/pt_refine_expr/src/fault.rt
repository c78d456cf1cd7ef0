use pt_base::Line;

/// A node of a wide tree that the language leaves out, by the line on which it starts.
#[derive(Clone, Copy, Debug, PartialEq, Eq)]
pub enum Fault {
    /// What stands in a target's place can't stand there (Language Reference 7.2).
    BadTarget { line: Line },
    /// A form that is left out of the language.
    Excluded { line: Line },
}
