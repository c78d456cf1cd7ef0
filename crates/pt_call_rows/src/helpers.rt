//! The functions of the prelude that calls of builtin classes ask (Library Reference, "Built-in
//! Functions").
ghost use Rattle.std.specs.Prelude.{◌≡◌};
ghost use Rattle.pt_heap.specs.declared.value.Value.TheVariants.{Obj};
ghost use Rattle.pt_block_calls.specs.pt_operators.pt_moves.sem_rows.pt_host.Calls.{helper_of_class};

use pt_base::ObjId;
use pt_prelude::Helper;

/// The function of the prelude that a call of the builtin class at a place asks.
pub fn helper_of_class(class: ObjId) -> Option<Helper>
    ensures { result ≡ helper_of_class (Obj class) }
{
    match class.0 {
        5 => Some(Helper::ListOf),
        6 => Some(Helper::TupleOf),
        7 => Some(Helper::SetOf),
        8 => Some(Helper::DictOf),
        _ => None,
    }
}
