//! What is told before the act of an instruction.
ghost use Rattle.std.specs.Prelude.{◌≡◌};
ghost use Rattle.pt_foretelling.specs.Foretelling.{calling, foretold};

use crate::calls::{first_by_roles, first_plain, is_builtin, or_missing, value_in};
use pt_base::{ActNo, Text};
use pt_frames::Slots;
use pt_happenings::Happening;
use pt_heap::{Heap, Value};
use pt_instr::Instr;
use pt_pendings::Callee;

/// What is told before an act, if anything is, and what is told of its call, if it is one.
#[derive(Clone, Copy)]
pub struct Foretold {
    pub before: Option<Happening>,
    pub callee: Option<Callee>,
}

/// What is told before a call with so many arguments in the uppermost slots, and this first one.
fn calling(heap: &Heap, count: usize, first: Option<Value>, slots: &Slots) -> Foretold
    ensures { result ≡ calling heap.now count first slots.now }
{
    let callee = value_in(slots.get(count));
    let first = or_missing(first);
    Foretold {
        before: Some(Happening::Calls { callee, first }),
        callee: Some(Callee {
            first,
            builtin: is_builtin(heap, callee),
        }),
    }
}

/// What is told before the act of an instruction whose row isn't done yet, the texts of which are
/// these if it is a call, and which leads to this act if it is a `break` or `continue`.
pub fn foretell(
    heap: &Heap,
    instr: Instr,
    texts: &[Text],
    slots: &Slots,
    destination: ActNo,
) -> Foretold
    ensures { result ≡ foretold heap.now instr texts.now slots.now destination }
{
    match instr {
        Instr::Call(count) => {
            let count = count as usize;
            calling(heap, count, first_plain(count, 0, slots), slots)
        }
        Instr::CallKw(count, _) => {
            let count = count as usize;
            calling(heap, count, first_plain(count, texts.len(), slots), slots)
        }
        Instr::CallSpread(count, _) => {
            let count = count as usize;
            calling(
                heap,
                count,
                first_by_roles(heap, texts, count, slots),
                slots,
            )
        }
        Instr::Leave(_) => Foretold {
            before: Some(Happening::Jumps { destination }),
            callee: None,
        },
        _ => Foretold {
            before: None,
            callee: None,
        },
    }
}
