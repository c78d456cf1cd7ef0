//! What instructions do by the host over the heap, on the slots and names of an activation.
#![tactic(auto)]

pub mod heap_rows;
pub mod unsupported_rows;
pub mod variables;

pub use pt_host::{
    ASSERTION_ERROR, ATTRIBUTE_ERROR, BASE_EXCEPTION, Base, Found, IMPORT_ERROR,
    MODULE_NOT_FOUND_ERROR, Manager, NoAttr, OBJECT, Op, PrimAns, RECURSION_ERROR, RUNTIME_ERROR,
    Raisable, SYS, SYSTEM_EXIT, TYPE_ERROR, allot, are_named, arise_while, base_of, binding_text,
    bound_of, class_object, class_of, delete, derives, error, error_saying, exit_arguments,
    initializer, instance, is_fixed, is_left_out, is_of, is_stop, manager_of, missing_text,
    no_module_text, no_name_text, not_callable_text, prim, raisable_of, store, values_given,
};
