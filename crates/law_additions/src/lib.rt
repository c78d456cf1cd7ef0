//! A law of operations on values: those of expressions change no object that is there.
#![tactic(auto)]

ghost use Rattle.std.specs.Prelude.{◌≡◌, List, true};
ghost use Rattle.pt_heap.specs.declared.object.Object.{Object};
ghost use Rattle.pt_heap.specs.declared.value.Value.{Value};
ghost use Rattle.pt_content.specs.declared.op.Op.{Op};
ghost use Rattle.pt_prims.specs.Operations.{prim_heap};
ghost use Rattle.law_additions.specs.Additions.{only_adds, Grows};

/// Operators, comparisons, displays, subscripts and f-strings leave all objects as they are, and at
/// most put new ones behind them.
pub fn operations_of_expressions_only_add()
    ensures { (op : Op) (args : List Value) (h : List Object) → only_adds op ≡ true →
        Grows h (prim_heap op args h) }
{}
