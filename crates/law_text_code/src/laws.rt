//! Laws of the runs of texts and of their code, each the contract of a function that does nothing.

ghost use Rattle.law_text_code.specs.Laws.{ProgramRunsAsItsCode, TextRunsAsItsCode};

/// The code of a text that is a script, which is told of the slots of its blocks as the tables of
/// the code tell (`tables_of_code_tell_what_jumps_ask`), has the runs of the script: for each host,
/// debugger and bound it prints the same, tells the same events and acts, answers jumps alike, and
/// ends in the same way. It begins alike, whether or not it comes to an outcome, and never halts
/// unfinished. No place of it may get more than 16,777,216 slots (Library Reference, "inspect":
/// `f_lineno`).
pub fn a_text_runs_as_its_code<D, N, V, W>()
    ensures { TextRunsAsItsCode D N V W }
{}

/// So has the code of a program, whose hidden blocks are those of a text of their own, the prelude.
pub fn a_program_runs_as_its_code<D, N, V, W>()
    ensures { ProgramRunsAsItsCode D N V W }
{}
