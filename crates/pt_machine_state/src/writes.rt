use pt_base::Text;
use std::alloc::Global;

/// A piece that is to be written.
#[derive(Drop)]
pub enum Write {
    /// To the output.
    Print(Text),
    /// To the log.
    Log(Text),
}

/// What a run has to write, in order.
#[derive(Drop)]
pub struct Writes {
    pub alloc: Global,
    pub items: Vec<Write>,
    /// Whether events have lines in the log.
    pub events: bool,
}
