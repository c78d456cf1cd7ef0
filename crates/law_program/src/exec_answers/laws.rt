//! Laws of what the program answers, each the contract of a function that does nothing.

ghost use Rattle.law_program.specs.exec_answers.Laws.{CodeFileHasOneAnswer, ExecAnswersAsRun};
ghost use Rattle.law_program.specs.exec_answers.Laws.{ExecHasOneAnswer, RunAnswersAsExec, TextSaysOneEnd};

/// A text says one end at most, for each command line: the text of a script, and the bytes that
/// `exec` reads.
pub fn a_text_says_one_end()
    ensures { TextSaysOneEnd }
{}

/// Of bytes that `exec` reads it has one answer at most: one end, and the same writes in their
/// order, the totals among them. They are the file of one code, a code is refused for one reason,
/// and no run tells the code objects of its blocks apart.
pub fn a_code_file_has_one_answer()
    ensures { CodeFileHasOneAnswer }
{}

/// What `run` answers for a supported script, `exec` answers for the file that `build` writes of
/// it, where as many acts are asked for and the same lines of the log: the same end, and the same
/// writes in their order, the totals among them. A traceback tells of the same exceptions; that of
/// `exec` has no lines of the source, and each has the name of its own file. Where `run` has an
/// answer `exec` has no other. And what `exec` answers for the file `run` answers for the script,
/// unless a place of its code gets more than 16,777,216 slots. So it is with `trace`.
pub fn exec_answers_as_run()
    ensures exec { ExecAnswersAsRun }
    ensures one { ExecHasOneAnswer }
    ensures run { RunAnswersAsExec }
{}
