use pt_base::{Shared, Text};

/// What a block is for the names in it and around it.
#[derive(Debug, Drop)]
pub struct BlockShape {
    /// The name of the innermost class around, and empty outside of classes; a class is around its own
    /// body (Language Reference 6.2.1).
    pub class: Shared<Text>,
    /// It is a function with a body of its own or a lambda, and no class and no generator expression.
    pub is_function: bool,
}
