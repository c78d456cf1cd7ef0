//! The acts of a script begin in the closed parts of control's nest, in its code too. A law, without
//! code.

mod laws;

pub use laws::acts_begin_in_their_parts;
