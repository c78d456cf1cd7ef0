//! What answers the asks of a run over the objects of a heap: names, cells, operations, functions
//! and calls (Language Reference 4, 6, 8.7). It runs nothing.
#![tactic(auto)]

mod classes;
mod contexts;
mod errors;
mod laws;
mod managers;
mod places;
mod raising;
mod starred;
mod texts;

pub use classes::{Base, base_of, class_object, initializer, instance, is_fixed, is_left_out};
pub use contexts::arise_while;
pub use errors::{allot, error, error_saying};
pub use laws::{
    objects_stand_at_their_places, the_host_keeps_the_heap_sound,
    written_builtins_are_of_the_prelude,
};
pub use managers::{Manager, bound_of, exit_arguments, manager_of};
pub use places::{
    ASSERTION_ERROR, ATTRIBUTE_ERROR, BASE_EXCEPTION, DISABLE, GENERATOR_EXIT, IMPORT_ERROR,
    MISSING, MODULE_NOT_FOUND_ERROR, NAME_ERROR, OBJECT, RECURSION_ERROR, RUNTIME_ERROR,
    STOP_ITERATION, SYS, SYSTEM_EXIT, TYPE_ERROR, UNBOUND_LOCAL_ERROR, VALUE_ERROR,
};
pub use pt_content::{Found, NoAttr, Op, PrimAns, delete, store};
pub use pt_prims::{are_named, class_of, derives, is_of, prim};
pub use raising::{Raisable, is_stop, raisable_of};
pub use starred::values_given;
pub use texts::{
    binding_text, free_text, local_text, missing_text, name_text, no_module_text, no_name_text,
    not_callable_text,
};
