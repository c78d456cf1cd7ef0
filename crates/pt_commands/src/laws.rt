//! What is so of commands.
ghost use Rattle.pt_commands.specs.Laws.{BlanksAreBad, NamesAreListed};

/// The words of commands are those of the tables, and blanks alone are no command.
pub fn commands_are_words()
    ensures names { NamesAreListed }
    ensures blanks { BlanksAreBad }
{}
