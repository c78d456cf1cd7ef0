//! The law of the runs of a text with jumps, the contract of a function that does nothing.

ghost use Rattle.law_jumps.specs.text_runs.Laws.{TextsRunAsTheirCode};

/// The code of a text that is a script has the runs of the script: the same acts, asks and notes,
/// and each jump of a debugger is permitted, or refused for the same reason (Library Reference,
/// "inspect": `f_lineno`). It is asked that the machine of code jumps as is said of slots, and that
/// no place of the code gets more than 16,777,216 slots.
pub fn a_text_has_the_runs_of_its_code<D, N, V, W>()
    ensures { TextsRunAsTheirCode D N V W }
{}
