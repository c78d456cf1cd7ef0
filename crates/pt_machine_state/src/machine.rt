use pt_base::{Line, What};
use pt_frames::{Activation, Frames};
use pt_heap::{Heap, Value};
use std::alloc::Global;

/// Where the newest activation stands.
#[derive(Clone, Copy, Debug, PartialEq, Eq)]
pub enum Standing {
    /// The instruction at its place is next.
    AtPlace,
    /// Its block returns this value.
    Returns(Value),
    /// This exception leaves its block.
    Raises(Value),
}

/// A run of code between two strides.
#[derive(Drop)]
pub struct Machine {
    pub alloc: Global,
    /// The newest activation. Its place is that of the instruction which is next, and of one that
    /// waits that of its call.
    pub here: Activation,
    pub standing: Standing,
    /// The activations that wait, the cells and the names of the module.
    pub frames: Frames,
    pub heap: Heap,
    /// How many units were taken, one for each act.
    pub units: u64,
}

/// How a run ends that is not broken off.
#[derive(Clone, Copy, Debug, PartialEq, Eq)]
pub enum MachineEnd {
    /// The module came to its end.
    Done,
    /// An exception left the module, in whose frame this line stands.
    Left { exception: Value, line: Line },
    /// All units are taken, and another act would begin.
    Spent,
    /// The run left the profile of the language, where this line stands in the newest frame.
    Outside { what: What, line: Line },
}

/// What a stride comes to.
#[derive(Clone, Copy, Debug, PartialEq, Eq)]
pub enum Stride {
    Goes,
    Ends(MachineEnd),
    /// The code or its slots lack what the stride needs.
    Lacks,
}
