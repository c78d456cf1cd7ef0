/// What is done with a file.
#[derive(Clone, Copy, Debug, PartialEq, Eq)]
pub enum Command {
    /// A script is run.
    Run,
    /// A script is run, and its events are told on the log.
    Trace,
    /// A script's code is listed.
    Dis,
    /// The file of a script's code is made.
    Build,
    /// A code file is run.
    Exec,
    /// A script is run, and how often each of its lines was begun is told on the log.
    Cover,
    /// A script is run, and the calls and lines of each name are told on the log.
    Profile,
    /// A script with so many functions is made and run, and the run is summed up.
    Gen { count: u32 },
}

/// What the words of a command line ask for.
#[derive(Clone, Copy, Debug, PartialEq, Eq)]
pub struct CommandLine<'a> {
    pub command: Command,
    /// The name of the file, a script's or of code, or the number of which a script is made. It
    /// isn't empty and doesn't begin with `-`.
    pub script: &'a str,
    /// How many acts the run may take.
    pub steps: u64,
    /// Whether the log has a line for each event.
    pub events: bool,
    /// Whether the log has the run's totals.
    pub stats: bool,
}

/// Why words are no command line.
#[derive(Clone, Copy, Debug, PartialEq, Eq)]
pub enum WordsErr {
    /// The words break the rule, or don't suit the command.
    Usage,
    Memory,
}
