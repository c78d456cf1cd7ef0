//! The law of the log, the contract of a function that does nothing.

ghost use Rattle.law_logs.specs.LogLines.{OutcomesLogTheirEvents};

/// All that a bare run writes to the log, where it comes to an outcome, are lines of events in
/// visible blocks (Library Reference, "sys", settrace).
pub fn a_bare_run_logs_its_events<S, N, V, W>()
    ensures { OutcomesLogTheirEvents S N V W }
{}
