use crate::Standing;
use pt_asking::Hook;
use pt_heap::Value;
use pt_pendings::{Callee, Telling};

/// A call that waits: what is called, and what is told of it.
#[derive(Clone, Copy)]
pub struct Called {
    pub function: Value,
    pub told: Callee,
}

/// What an activation that waits is open for.
#[derive(Drop)]
pub enum Purpose {
    /// An ask, whose slots are gone. Its reply comes to the place of the activation, above those that
    /// are left.
    Ask {
        called: Option<Called>,
        is_act: bool,
    },
    /// A delegation to a generator, which keeps its slots and gives on what that gives on.
    Delegation {
        standing: Standing,
    },
    /// A hook, which was asked at an event that is told. Where the activation stands meanwhile, and
    /// which exception was active in it as the event came.
    Hook {
        hook: Hook,
        standing: Standing,
        active: Option<Value>,
        telling: Telling,
    },
}
