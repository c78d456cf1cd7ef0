//! The law of the operands of a script's code, the contract of a function that does nothing.

ghost use Rattle.law_files.specs.operands_fit.Laws.{OperandsFit};

/// Each operand of the code of a script fits in four bytes, if the counts of its tables and of the
/// bytes of its blocks do: it names what is in a table, or is a place in the
/// bytes, or counts values or targets, each of which has an instruction.
pub fn operands_of_a_script_fit()
    ensures { OperandsFit }
{}
