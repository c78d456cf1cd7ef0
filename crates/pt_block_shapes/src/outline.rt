//! What the blocks of a script are for names, and where the first Nexts of its comprehensions stand.

mod statements;

pub use statements::outline;
