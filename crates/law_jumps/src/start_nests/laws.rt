//! The law of the starts of a script's code, the contract of a function that does nothing.

ghost use Rattle.law_jumps.specs.start_nests.Laws.{ScriptStartsInParts};

/// In the code of a script the first statement on a line starts at the least place of the line, in
/// its closed parts; from there, with the slots of the statement's nest, code goes on as control
/// does, and the instruction there is under the handler rows of the statement (Library Reference,
/// "inspect": `f_lineno`). What a `finally` part holds goes on in the loop around that part.
pub fn statements_start_in_nests<V>()
    ensures { ScriptStartsInParts V }
{}
