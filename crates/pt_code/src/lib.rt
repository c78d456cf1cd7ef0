//! Code files: the code of a script as bytes, both ways.
#![tactic(auto)]

mod blocks;
mod fields;
mod instructions;
mod lists;
mod parts;
mod reading;
mod refusing;
mod view;
mod writing;

use pt_base::{Line, Pc, Seq, Text};
use pt_instr::TextNo;
use pt_ranges::{ActMark, Handler};
pub use refusing::{CodeErr, one_code, read};
pub use view::one_view;
pub use writing::write;

/// A constant of the code.
#[derive(Clone, Copy, Debug, PartialEq, Eq)]
pub enum Const {
    None,
    False,
    True,
    Int(i128),
    Text(TextNo),
    Ellipsis,
}

/// What a block was made of.
#[derive(Clone, Copy, Debug, PartialEq, Eq)]
pub enum BlockKind {
    Module,
    Function,
    /// A function with a `yield`.
    Generator,
    Class,
    GeneratorExpression,
}

/// The parameters that take what is left.
#[derive(Clone, Copy, Debug, PartialEq, Eq)]
pub struct Rest {
    /// `*NAME`
    pub positional: bool,
    /// `**NAME`
    pub named: bool,
}

/// Where a statement begins in the code, and on which line.
#[derive(Clone, Copy, Debug, PartialEq, Eq)]
pub struct Start {
    pub pc: Pc,
    pub line: Line,
}

/// The code of a block.
#[derive(Debug, Drop)]
pub struct CodeBlock {
    pub name: TextNo,
    pub kind: BlockKind,
    pub first_line: Line,
    pub parameters: u32,
    pub rest: Rest,
    pub keyword_only: u32,
    /// The names of the locals, the parameters first.
    pub locals: Seq<TextNo>,
    pub cells: Seq<TextNo>,
    pub free: Seq<TextNo>,
    pub instructions: Seq<u8>,
    pub marks: Seq<ActMark>,
    pub handlers: Seq<Handler>,
    pub starts: Seq<Start>,
}

/// The code of a script. Blocks name texts, constants and lists by number, and block 0 is the module.
#[derive(Debug, Drop)]
pub struct Code {
    pub texts: Seq<Text>,
    pub constants: Seq<Const>,
    pub lists: Seq<Seq<u32>>,
    pub blocks: Seq<CodeBlock>,
}
