//! A law of the definitions, the contract of a function that does nothing.

ghost use Rattle.std.specs.Prelude.{◌≡◌, ℕ, List, true};
ghost use Rattle.pt_prog.specs.declared.end.End.{End as HowItEnds};
ghost use Rattle.pt_prog.specs.Answer.{IsAnswerFor, is_run};
ghost use Rattle.sem_run.specs.run.Run.{Write};
ghost use Rattle.pt_sinks.specs.Writing.{outs};
ghost use Rattle.pt_words.specs.Words.{Asked};

/// A run of the text of a script prints one output at most, whatever else the log has.
pub fn a_text_prints_one_output()
    ensures { (a : Asked) (text : List ℕ) (e f : HowItEnds) (ws vs : List Write)
        → is_run a.command ≡ true → IsAnswerFor a text e ws → IsAnswerFor a text f vs
        → outs ws ≡ outs vs }
{}
