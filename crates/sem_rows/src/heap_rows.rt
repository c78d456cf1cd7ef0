//! What instructions do by the host over the heap, and what code answers of them.

mod laws;
mod progress;

pub use laws::instructions_lead_where_answers_do;
pub use progress::Progress;
