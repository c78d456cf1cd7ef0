use crate::Value;
use pt_base::{FrameNo, Line, Seq, Text};

/// A name with its value.
#[derive(Debug, Drop)]
pub struct Binding {
    pub name: Text,
    pub value: Value,
}

/// What a debugger is shown of an activation.
#[derive(Debug, Drop)]
pub struct ViewFrame {
    pub frame: FrameNo,
    pub caller: Option<FrameNo>,
    pub generator: bool,
    pub name: Text,
    pub line: Line,
    pub params: Seq<Text>,
    pub locals: Seq<Binding>,
}

/// The open activations, and the names of the module.
#[derive(Debug, Drop)]
pub struct View {
    pub frames: Seq<ViewFrame>,
    pub globals: Seq<Binding>,
}
