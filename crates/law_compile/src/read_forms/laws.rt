//! Laws of texts that are scripts, each the contract of a function that does nothing.

ghost use Rattle.law_compile.specs.read_forms.Laws.{OperandsOfTextsFit, ScriptsOfTextsAreFormed};
ghost use Rattle.law_compile.specs.read_forms.Laws.{ScriptsOfTextsAreRead};

/// A text that is a script has a wide tree with the form that the grammar gives it, and no name in
/// it is `.class`, since each begins as an identifier does.
pub fn scripts_of_texts_are_formed()
    ensures { ScriptsOfTextsAreFormed }
{}

/// So what is asked of a script that is read holds of each text that is a script, where its blocks
/// have their code objects.
pub fn scripts_of_texts_are_read<V>()
    ensures { ScriptsOfTextsAreRead V }
{}

/// Each operand of the code of such a script fits in its four bytes, where the counts of the code's
/// tables and bytes do, as the compiler says of what it gives.
pub fn operands_of_texts_fit()
    ensures { OperandsOfTextsFit }
{}
