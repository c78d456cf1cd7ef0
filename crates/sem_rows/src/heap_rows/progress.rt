use pt_base::{BlockId, ObjId, Pc, Text, What};
use pt_bind::Locals;
use pt_frames::Purpose;
use pt_heap::{Completion, Value};

/// What an instruction comes to.
#[derive(Debug, Drop)]
pub enum Progress {
    /// The place behind it is next.
    Next,
    /// This place is next.
    Goto {
        pc: Pc,
    },
    /// A completion leaves the place.
    Leaves {
        how: Completion,
    },
    /// A raise that was held goes on under the rows that cover the place (Language Reference 8.4).
    Reraises {
        exception: Value,
    },
    /// The text is printed, and the place behind is next.
    Print {
        text: Text,
    },
    /// A block runs in an activation of its own, with these names; what its value is for is done,
    /// or what leaves it arises.
    Calls {
        block: BlockId,
        hidden: bool,
        locals: Locals,
        why: Purpose,
    },
    /// An exception that is there already arises.
    Raises {
        exception: ObjId,
    },
    /// The exception that is active arises once more, or another one where none is.
    RaisesAgain,
    /// An exception of this class arises, with this argument.
    Fails {
        class: ObjId,
        arg: Option<Value>,
    },
    /// An exception of this class arises, with this text.
    FailsSaying {
        class: ObjId,
        text: Text,
    },
    /// The run leaves the profile of the language.
    Outside {
        what: What,
    },
    /// The slots lack what the instruction takes.
    Lacks,
}
