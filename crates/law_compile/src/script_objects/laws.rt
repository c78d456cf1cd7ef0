//! Laws of the code objects of a script that is read, each the contract of a function that does
//! nothing.

ghost use Rattle.law_compile.specs.script_objects.Laws.{ObjectsHaveTheirCode, ReadScriptIsFollowed};

/// In a script that has the form which the grammar gives it, without a fault in its declarations, a
/// code object of a block of its code has what the laws of the script's code ask: arguments are plain,
/// and some way comes to where a loop is left to. Each block has as many free names as it is said to
/// have, and each operand has room in the bytes.
pub fn objects_of_a_script_have_its_code<V>()
    ensures { ObjectsHaveTheirCode V }
{}

/// So a machine of code whose objects are those of the code of a script that is read stands for the
/// script.
pub fn a_script_that_is_read_is_followed_by_its_code<V>()
    ensures { ReadScriptIsFollowed V }
{}
