//! Laws of operations.

ghost use Rattle.std.specs.Prelude.{◌≡◌, List, codes};
ghost use Rattle.pt_heap.specs.Sound.{IsSound};
ghost use Rattle.pt_heap.specs.declared.object.Object.{Object};
ghost use Rattle.pt_heap.specs.declared.value.Value.{Value};
ghost use Rattle.pt_builtin_objects.specs.Start.{start_objects};
ghost use Rattle.pt_content.specs.declared.class.TheConstants.{INDEX_ERROR, RECURSION_ERROR};
ghost use Rattle.pt_content.specs.declared.class.TheConstants.{TYPE_ERROR, VALUE_ERROR};
ghost use Rattle.pt_content.specs.declared.class.TheConstants.{ZERO_DIVISION_ERROR};
ghost use Rattle.pt_content.specs.declared.op.Op.{Op};
ghost use Rattle.pt_prims.specs.declared.attribute_calls.TheConstants.{ATTRIBUTE_ERROR};
ghost use Rattle.pt_prims.specs.declared.calls.TheConstants.{STOP_ITERATION, SYSTEM_EXIT};
ghost use Rattle.pt_prims.specs.Laws.{start_name, AllWithin, AnswerIsWithin, Stay};
ghost use Rattle.pt_prims.specs.Operations.{prim_answer, prim_heap};

/// The classes of the errors that operations raise stand at their places as a run starts.
pub fn errors_are_of_their_classes()
    ensures attribute { start_name ATTRIBUTE_ERROR ≡ codes "AttributeError" }
    ensures division { start_name ZERO_DIVISION_ERROR ≡ codes "ZeroDivisionError" }
    ensures index { start_name INDEX_ERROR ≡ codes "IndexError" }
    ensures recursion { start_name RECURSION_ERROR ≡ codes "RecursionError" }
    ensures iteration { start_name STOP_ITERATION ≡ codes "StopIteration" }
    ensures exit { start_name SYSTEM_EXIT ≡ codes "SystemExit" }
    ensures types { start_name TYPE_ERROR ≡ codes "TypeError" }
    ensures values { start_name VALUE_ERROR ≡ codes "ValueError" }
{}

/// Behind an operation each object that was there stands at its place. Lists, dictionaries, sets
/// and cursors stay what they are, all else stays as it is.
pub fn objects_stay()
    ensures { (op : Op) (args : List Value) (h : List Object) → Stay h (prim_heap op args h) }
{}

/// An operation on values of a sound heap keeps it sound.
pub fn keeps_sound()
    ensures { (op : Op) (args : List Value) (h : List Object) → IsSound start_objects h →
        AllWithin h args → IsSound start_objects (prim_heap op args h) }
{}

/// What an operation on values of a sound heap answers lies in the heap behind it.
pub fn answers_lie_within()
    ensures { (op : Op) (args : List Value) (h : List Object) → IsSound start_objects h →
        AllWithin h args → AnswerIsWithin (prim_heap op args h) (prim_answer op args h) }
{}
