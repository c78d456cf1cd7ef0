use pt_base::{ActNo, BlockId, Dup, Memory, Pc, Seq};
use pt_heap::{Completion, Value};
use std::alloc::Global;

/// What becomes of the value with which an activation closes.
#[derive(Debug, Drop)]
pub enum Purpose {
    /// It is the value of the call.
    Result,
    /// It is dropped.
    Discard,
    /// A class is made of the names of the block, which stands in a cell of the block then.
    Class {
        base: Value,
        cell: Option<u32>,
    },
    /// The value of the call is this one: the instance that `__init__` was called for, or the list
    /// that `+=` put items into.
    Init {
        made: Value,
    },
    /// The value of the call is the opposite truth value.
    Opposite,
    /// Its truth decides where the run goes on: where it is as wanted, at this place, with a value
    /// that is kept, if one is; else behind the instruction.
    Truth {
        wanted: bool,
        target: Pc,
        kept: Option<Value>,
    },
    /// It is an iterator.
    Iterate,
    /// It is the next item of an iterator, and where a StopIteration arises in its place the run goes
    /// on at the end.
    Item {
        iterator: Value,
        end: Pc,
    },
    /// So many items are taken of it; where a target has a star, so many before that and behind it,
    /// and a list of the others for it.
    Unpack {
        before: u32,
        after: Option<u32>,
    },
    /// It is what a context manager gave as it was entered, and this is called as it is left.
    Enter {
        exit: Value,
    },
    /// Its truth says whether the context manager swallows the raise by which it is left.
    Exit {
        completion: Completion,
    },
    /// It is formatted.
    Format {
        spec: Value,
    },
    /// The generator of this number was resumed.
    Resume {
        generator: u32,
    },
    /// A callback was asked at an event: a tool's by its number, or the trace function, which is 6.
    /// Those of greater numbers are still to be asked.
    Answer {
        hook: u32,
        /// The bit of the event.
        event: u32,
        block: BlockId,
        act: ActNo,
        args: Seq<Value>,
        /// The completion that waits, or None where an act waits.
        pending: Option<Completion>,
    },
}

impl Dup for Purpose {
    fn dup(&self, alloc: Global) -> Result<Purpose, Memory> {
        match self {
            Purpose::Result => Ok(Purpose::Result),
            Purpose::Discard => Ok(Purpose::Discard),
            Purpose::Class { base, cell } => Ok(Purpose::Class {
                base: *base,
                cell: *cell,
            }),
            Purpose::Init { made } => Ok(Purpose::Init { made: *made }),
            Purpose::Opposite => Ok(Purpose::Opposite),
            Purpose::Truth {
                wanted,
                target,
                kept,
            } => Ok(Purpose::Truth {
                wanted: *wanted,
                target: *target,
                kept: *kept,
            }),
            Purpose::Iterate => Ok(Purpose::Iterate),
            Purpose::Item { iterator, end } => Ok(Purpose::Item {
                iterator: *iterator,
                end: *end,
            }),
            Purpose::Unpack { before, after } => Ok(Purpose::Unpack {
                before: *before,
                after: *after,
            }),
            Purpose::Enter { exit } => Ok(Purpose::Enter { exit: *exit }),
            Purpose::Exit { completion } => Ok(Purpose::Exit {
                completion: *completion,
            }),
            Purpose::Format { spec } => Ok(Purpose::Format { spec: *spec }),
            Purpose::Resume { generator } => Ok(Purpose::Resume {
                generator: *generator,
            }),
            Purpose::Answer {
                hook,
                event,
                block,
                act,
                args,
                pending,
            } => Ok(Purpose::Answer {
                hook: *hook,
                event: *event,
                block: *block,
                act: *act,
                args: args.dup(alloc)?,
                pending: *pending,
            }),
        }
    }
}
