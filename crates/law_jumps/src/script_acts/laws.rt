//! Laws of the acts of a script's code, each the contract of a function that does nothing.

ghost use Rattle.law_jumps.specs.script_acts.Laws.{ScriptKnowsItsActs, ScriptsRunAsTheirCode};

/// A machine of a script's code that is told how many acts the marks of each block tell, and how
/// many bytes the block has, knows its acts: as many as the block of the script has, and from each
/// state that stands for one of control it comes to an act or to the end in time.
pub fn the_machine_of_a_scripts_code_knows_its_acts<V>()
    ensures { ScriptKnowsItsActs V }
{}

/// So the code of a script without a fault in its declarations has the runs of the script, for each
/// host, debugger and bound, if its blocks have as many free names as the script's, code objects as
/// `HasObject` says, and their closed parts.
pub fn a_scripts_code_has_its_runs_where_it_has_closed_parts<D, N, V, W>()
    ensures { ScriptsRunAsTheirCode D N V W }
{}
