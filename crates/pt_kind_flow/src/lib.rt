//! How lists of kinds go along the edges of a graph, and with what all of them begin that come to
//! a vertex.
#![tactic(auto)]

mod edge_lists;
mod edges;
mod flow;
mod packed;

pub use edge_lists::EdgeLists;
pub use edges::Edge;
pub use flow::Flow;
pub use packed::PackedEdge;
