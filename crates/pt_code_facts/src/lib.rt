//! What a code tells of its blocks beside what they run: their names and parameters, as texts
//! (Library Reference, "inspect": code objects).
#![tactic(auto)]

mod facts;
mod laws;

pub use facts::{BlockFacts, Blocks, SideFacts, blocks_of, facts_of};
pub use laws::facts_know_the_names_of_code;
pub use sem_rows::heap_rows::Progress;
pub use sem_rows::unsupported_rows::not_supported;
