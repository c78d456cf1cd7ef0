//! Operations on values: what there is to ask, and what can be answered. The names of classes, what
//! operators see in operands, the exceptions of operands that they don't take, and what an
//! operation may change in the heap (Language Reference 3.1 to 3.3, 6; Library Reference, "Built-in
//! Functions").
#![tactic(auto)]

mod answer;
mod changes;
mod class;
mod content;
mod function;
mod method_name;
mod op;
mod operand;
mod type_error;

pub use answer::{Helper, Operator, PrimAns};
pub use changes::{add, add_values, apply};
pub use class::{
    INDEX_ERROR, RECURSION_ERROR, TYPE_ERROR, VALUE_ERROR, ZERO_DIVISION_ERROR, class_name,
    name_at, object_class,
};
pub use content::{Change, Content, Mutable, NewObject, Replacement};
pub use function::{Function, of_class, of_function};
pub use method_name::MethodName;
pub use op::Op;
pub use operand::{Operand, operand_of, text_at, text_of};
pub use pt_attrs::{
    Found, NoAttr, class_at, class_attribute, combine, delete, is_special, object_at, object_of,
    store,
};
pub use type_error::{
    bad_argument, binary_type_error, error_of_two, order_type_error, raise, sentence,
    unary_type_error, use_type_error,
};
