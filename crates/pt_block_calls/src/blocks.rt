//! Calls of blocks, up to their run (Language Reference 6.3.4).
ghost use Rattle.std.specs.Prelude.{◌≡◌, ◌++◌, false, List, Ok};
ghost use Rattle.std.specs.Prelude.{IfOk, IfErr, OnOk};
ghost use Rattle.std.specs.Option.{option_copied};
ghost use Rattle.pt_bind.specs.Binding.{binding_with, IsTold};
ghost use Rattle.pt_block_calls.specs.BlockCalls.{CallsBound, CallsFunctionAt, function_of};
ghost use Rattle.pt_block_calls.specs.BlockCalls.{misfit, purpose_of, without_defaults};
ghost use Rattle.pt_class_rows.specs.Calls.{is_memory};
ghost use Rattle.pt_frames.specs.declared.slot.Slot.{Slot};
ghost use Rattle.pt_operators.specs.pt_moves.sem_rows.pt_host.Calls.{with_receiver};

use pt_base::{Dup, Memory, Pc, Seq, What};
use pt_bind::{Args, BindErr, Locals, bind_with};
use pt_class_rows::refuses;
use pt_content::object_at;
use pt_frames::Purpose;
use pt_function_rows::{BlockFacts, Blocks, open};
use pt_heap::{Function, Heap, Object, Value};
use pt_operators::{Progress, values_given};
use std::alloc::Global;

/// What a call gives, by the value that its block gives.
#[derive(Clone, Copy, Debug)]
pub enum Given {
    /// That value.
    Itself,
    /// Another one: the instance that was made, or the list that was changed.
    Made {
        made: Value,
    },
    /// The opposite truth value.
    Opposite,
    /// The text by a spec.
    Laid {
        spec: Value,
    },
    /// None: its truth decides where the run goes on. Where it is as wanted, that is this place, with
    /// the value that is kept, if one is.
    Truth {
        wanted: bool,
        target: Pc,
        kept: Option<Value>,
    },
    /// An iterator.
    Iterate,
    /// The next item of an iterator, or the end, where a StopIteration leaves the block.
    Item {
        iterator: Value,
        end: Pc,
    },
    /// So many items of it; where a target has a star, so many before that and behind it, and a list
    /// of the others for it.
    Unpack {
        before: u32,
        after: Option<u32>,
    },
    /// None: it is dropped.
    Discard,
    /// That value, above what is called as the context manager is left.
    Enter {
        exit: Value,
    },
}

/// The function that a value is, if it is one.
pub fn function_of(heap: &Heap, value: Value) -> Option<&Function>
    ensures { option_copied result ≡ function_of heap.now value }
{
    match value {
        Value::Obj(id) => match object_at(heap, id) {
            Some(Object::Function(function)) => Some(function),
            _ => None,
        },
        _ => None,
    }
}

/// The arguments don't fit the parameters. Those that a function written in Python doesn't take leave
/// the profile.
fn refused(
    alloc: Global,
    facts: &BlockFacts,
    hidden: bool,
    error: BindErr,
) -> Result<Progress, Memory>
    ensures { IfOk result (λ p. (is_memory error ≡ false) × (p ≡ misfit facts.now hidden error)) }
{
    let progress = refuses(alloc, facts.name.as_str(), error)?;
    if hidden {
        return Ok(Progress::Outside {
            what: What::Feature,
        });
    }
    Ok(progress)
}

/// What a block is run for.
fn purpose_of(given: Given) -> Purpose
    ensures { result ≡ purpose_of given }
{
    match given {
        Given::Itself => Purpose::Result,
        Given::Made { made } => Purpose::Init { made },
        Given::Opposite => Purpose::Opposite,
        Given::Laid { spec } => Purpose::Format { spec },
        Given::Truth {
            wanted,
            target,
            kept,
        } => Purpose::Truth {
            wanted,
            target,
            kept,
        },
        Given::Iterate => Purpose::Iterate,
        Given::Item { iterator, end } => Purpose::Item { iterator, end },
        Given::Unpack { before, after } => Purpose::Unpack { before, after },
        Given::Discard => Purpose::Discard,
        Given::Enter { exit } => Purpose::Enter { exit },
    }
}

/// Calls a block with these facts, whose parameters are bound so.
#[tactic(auto, using(crate::proofs::BlockLemmas::unsupported_block, crate::proofs::BlockLemmas::opened, crate::proofs::BlockLemmas::no_room, crate::proofs::BlockLemmas::misfits))]
fn call_block(
    alloc: Global,
    facts: &BlockFacts,
    function: &Function,
    bound: Result<Locals, BindErr>,
    given: Given,
    cells: &mut Seq<Option<Value>>,
    heap: &mut Heap,
) -> Result<Progress, Memory>
    ensures { IfOk result (λ p. (slots : List Slot)
        → CallsBound facts.now function.now bound given slots cells.old heap.old p cells.new heap.new) }
{
    if facts.yields {
        return Ok(Progress::Outside {
            what: What::Feature,
        });
    }
    match bound {
        Ok(bound) => match values_given(alloc, &facts.params, bound, heap)? {
            Ok(values) => {
                let values = values.as_slice();
                let locals = open(alloc, facts, values, function.cells.as_slice(), cells)?;
                Ok(Progress::Calls {
                    block: function.block,
                    hidden: function.hidden,
                    locals,
                    why: purpose_of(given),
                })
            }
            Err(what) => Ok(Progress::Outside { what }),
        },
        Err(error) => refused(alloc, facts, function.hidden, error),
    }
}

/// A function without its defaults, which have done their part once its arguments are bound.
fn without_defaults(alloc: Global, function: &Function) -> Result<Function, Memory>
    ensures { IfOk result (λ f. f ≡ without_defaults function.now) }
{
    Ok(Function {
        block: function.block,
        hidden: function.hidden,
        defaults: Seq::new(alloc),
        cells: function.cells.dup(alloc)?,
    })
}

/// Gives each parameter of a function its argument (Language Reference 6.3.4).
fn bind(
    alloc: Global,
    facts: &BlockFacts,
    function: &Function,
    args: &Args,
) -> Result<Locals, BindErr>
    ensures ok { IfOk result
        (λ locals. binding_with facts.now.params function.now.defaults args.now ≡ Ok locals) }
    ensures err { IfErr result
        (IsTold (binding_with facts.now.params function.now.defaults args.now)) }
{
    bind_with(alloc, &facts.params, function.defaults.as_slice(), args)
}

/// Calls the function that a value is. What is none isn't called yet.
#[tactic(auto, using(crate::proofs::BlockLemmas::none_called))]
pub fn call_function(
    alloc: Global,
    callee: Value,
    args: &Args,
    given: Given,
    blocks: &Blocks,
    cells: &mut Seq<Option<Value>>,
    heap: &mut Heap,
) -> Result<Progress, Memory>
    ensures { IfOk result (λ p. (slots : List Slot)
        → CallsFunctionAt blocks.now callee args.now given slots cells.old heap.old p cells.new
        heap.new) }
{
    match function_of(heap, callee) {
        Some(function) => {
            let bare = without_defaults(alloc, function)?;
            let facts = blocks.get(bare.block, bare.hidden);
            let bound = bind(alloc, facts, function, args);
            call_block(alloc, facts, &bare, bound, given, cells, heap)
        }
        None => Ok(Progress::Outside {
            what: What::Feature,
        }),
    }
}

/// Puts values behind values.
pub fn append(values: &mut Seq<Value>, others: &[Value]) -> Result<(), Memory>
    ensures { OnOk result (values.new ≡ values.old ++ others.now) }
{
    for value in others {
        values.push(*value)?;
    }
    Ok(())
}

/// The arguments of a call behind the value that a method is bound to.
pub fn with_receiver(alloc: Global, receiver: Value, args: &Args) -> Result<Args, Memory>
    ensures { IfOk result (λ all. all ≡ with_receiver receiver args.now) }
{
    let mut plain = Seq::from_slice(alloc, &[receiver])?;
    append(&mut plain, args.plain.as_slice())?;
    Ok(Args {
        plain,
        named: args.named.dup(alloc)?,
    })
}
