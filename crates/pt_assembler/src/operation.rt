use pt_base::{ActNo, Line, Pc};
use pt_instr::{Instr, SlotNo};

/// A label of a block: its place is known once it is bound.
#[derive(Clone, Copy, Debug, PartialEq, Eq)]
pub struct Label(pub u32);

/// How an instruction goes to a label.
#[derive(Clone, Copy, Debug, PartialEq, Eq)]
pub enum Jump {
    /// `Next`: where the iterator has ended.
    AtEnd,
    /// `Jump`
    Always,
    /// `JumpIf`
    IfTrue,
    /// `JumpUnless`
    IfFalse,
    /// `JumpIfKeep`: with the value on top.
    IfTrueKeep,
    /// `JumpUnlessKeep`: with the value on top.
    IfFalseKeep,
    /// `Leave`: through the handlers between.
    Leave,
}

/// What an instruction does with a free name of its block. The slots of free names stand behind those
/// of cell names, so that their numbers are known once these are.
#[derive(Clone, Copy, Debug, PartialEq, Eq)]
pub enum FreeUse {
    /// `Cell`
    Load,
    /// `SetCell`
    Store,
    /// `DelCell`
    Delete,
    /// `FreshCell`
    Renew,
    /// `PushCell`
    Push,
}

/// An instruction in the making.
#[derive(Clone, Copy, Debug, PartialEq, Eq)]
pub enum Operation {
    Plain(Instr),
    To(Jump, Label),
    Free(FreeUse, SlotNo),
}

/// The act that begins with an instruction: its number in the block, its line, and whether a re-test
/// of a loop begins with it.
#[derive(Clone, Copy, Debug, PartialEq, Eq)]
pub struct Act {
    pub number: ActNo,
    pub line: Line,
    pub again: bool,
}

/// An instruction in the making, with its act if one begins there.
#[derive(Clone, Copy, Debug, PartialEq, Eq)]
pub struct Placed {
    pub operation: Operation,
    pub act: Option<Act>,
}

/// A place that is gone to, and how many slots lie there.
#[derive(Clone, Copy, Debug, PartialEq, Eq)]
pub struct Target {
    pub pc: Pc,
    pub depth: u32,
}

/// How a statement goes out of the loop around it (Language Reference 7.9, 7.10).
#[derive(Clone, Copy, Debug, PartialEq, Eq)]
pub enum Exit {
    Break,
    Continue,
}

/// Where the exits of a loop go.
#[derive(Clone, Copy, Debug, PartialEq, Eq)]
pub struct Loop {
    pub break_to: Label,
    pub continue_to: Label,
}

/// Where a statement stands: the loop around it, and how many slots lie below it.
#[derive(Clone, Copy, Debug, PartialEq, Eq)]
pub struct Place {
    pub around: Option<Loop>,
    pub depth: u32,
}
