use pt_heap::Value;

/// What is told of a call: the first positional argument, or MISSING, and whether a builtin is
/// called.
#[derive(Clone, Copy)]
pub struct Callee {
    pub first: Value,
    pub builtin: bool,
}

/// What comes back to a generator that gave a value on (Language Reference 6.2.9).
#[derive(Clone, Copy)]
pub enum Reply {
    Got(Value),
    Raised(Value),
}

/// How a block ends: with the value that it gives, or by an exception that leaves it.
#[derive(Clone, Copy)]
pub enum End {
    Gave(Value),
    LeftBy(Value),
}
