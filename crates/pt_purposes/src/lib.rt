//! What the activations of a run of code are open for while they wait: the rest of an ask, or a
//! hook (Language Reference 4.1, 6.2.9; Library Reference, `sys.settrace`, `sys.monitoring`). Types
//! and the relations by which they stand for those of a run, over any machine of code.
#![tactic(auto)]

mod laws;
mod opener;
mod purpose;
mod standing;

pub use laws::{openers_are_seen, results_go_on_where_answers_do};
pub use opener::{Course, Opener, Running};
pub use purpose::{Called, Purpose};
pub use sem_rows::heap_rows::Progress;
pub use sem_rows::{
    Base, RECURSION_ERROR, RUNTIME_ERROR, TYPE_ERROR, allot, arise_while, base_of, class_object,
    error, error_saying,
};
pub use standing::Standing;
