//! How far a block agrees whose code is that of its piece.

mod laws;

pub use laws::blocks_agree;
