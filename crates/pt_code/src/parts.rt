use crate::{BlockKind, Rest, Start};
use pt_base::{Line, Seq, Text};
use pt_instr::TextNo;
use pt_ranges::{ActMark, Handler};

/// Why nothing is read at the front of bytes.
#[derive(Clone, Copy, Debug, PartialEq, Eq)]
pub enum Bad {
    /// They end before what is read does.
    Short,
    /// A field is none, at whose start so many bytes were left.
    Field(usize),
    /// They don't begin as a code file does.
    Magic,
    /// They are of another version.
    Version(u8),
    /// So many follow the last field.
    Trailing(usize),
    Memory,
}

/// What fields name: how many texts, constants, lists and blocks a code has, and a block locals
/// and cells.
#[derive(Clone, Copy)]
pub struct Within {
    pub texts: usize,
    pub constants: usize,
    pub lists: usize,
    pub blocks: usize,
    pub locals: usize,
    /// With the free names.
    pub cells: usize,
    /// The block stands first.
    pub first: bool,
}

/// The fields of a block up to its lists of names.
#[derive(Clone, Copy)]
pub struct Signature {
    pub name: TextNo,
    pub kind: BlockKind,
    pub first_line: Line,
    pub parameters: u32,
    pub rest: Rest,
    pub keyword_only: u32,
}

/// The lists of names of a block.
#[derive(Drop)]
pub struct Names {
    pub locals: Seq<TextNo>,
    pub cells: Seq<TextNo>,
    pub free: Seq<TextNo>,
}

/// The tables of a block, which follow its instructions.
#[derive(Drop)]
pub struct Tables {
    pub marks: Seq<ActMark>,
    pub handlers: Seq<Handler>,
    pub starts: Seq<Start>,
}

/// What an operand of an instruction is.
#[derive(Clone, Copy)]
pub enum Operand {
    Number,
    Constant,
    Text,
    Local,
    Cell,
    List,
    Block,
    Unary,
    Binary,
    Comparison,
    Conversion,
    Flag,
}
