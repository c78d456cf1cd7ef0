//! The operands of builtin functions and of methods that are called (Library Reference, "Built-in
//! Functions", "Built-in Types").
ghost use Rattle.std.specs.Prelude.{◌≡◌, ◌∷◌, IfOk, option_map};
ghost use Rattle.pt_call_rows.specs.CallRows.{is_print, is_sort};
ghost use Rattle.pt_bind.specs.Binding.{value_of};
ghost use Rattle.pt_block_calls.specs.pt_operators.pt_moves.sem_rows.pt_host.Calls.{are_either, are_print_names, are_sort_names, is_either};
ghost use Rattle.pt_block_calls.specs.pt_operators.pt_moves.sem_rows.pt_host.Calls.{method_operands, operands_of, or_none, print_operands, sort_operands};
ghost use Rattle.pt_content.specs.declared.function.Function.TheVariants as builtin;

use pt_base::{Memory, Seq};
use pt_bind::Args;
use pt_block_calls::append;
use pt_content::{Function, MethodName};
use pt_heap::{Binding, Value};
use std::alloc::Global;

/// Whether a name is one of two.
fn is_either(first: &str, second: &str, name: &str) -> bool
    ensures { result ≡ is_either first.now second.now name.now }
{
    name == first || name == second
}

/// Whether names of arguments are among two, each once.
#[tactic(auto, using(crate::proofs::OperandLemmas::no_names, crate::proofs::OperandLemmas::one_name, crate::proofs::OperandLemmas::two_names, crate::proofs::OperandLemmas::more_names))]
fn are_either(x: &str, y: &str, named: &[Binding]) -> bool
    ensures { result ≡ are_either x.now y.now named.now }
{
    let count = named.len();
    if count == 0 {
        return true;
    }
    let first = &named[0].name;
    if count == 1 {
        return is_either(x, y, first.as_str());
    }
    let second = &named[1].name;
    if count > 2 {
        return false;
    }
    let taken = is_either(x, y, first.as_str()) && is_either(x, y, second.as_str());
    taken && !first.is(second.as_str())
}

/// Whether `print` takes arguments of these names, each once.
fn are_print_names(named: &[Binding]) -> bool
    ensures { result ≡ are_print_names named.now }
{
    are_either("sep", "end", named)
}

/// Whether `sort` takes arguments of these names, each once.
fn are_sort_names(named: &[Binding]) -> bool
    ensures { result ≡ are_sort_names named.now }
{
    are_either("key", "reverse", named)
}

/// The value that a name is given.
fn value_of(name: &str, named: &[Binding]) -> Option<Value>
    ensures { result ≡ value_of name.now named.now }
{
    for binding in named {
        if binding.name.is(name) {
            return Some(binding.value);
        }
    }
    None
}

fn or_none(value: Option<Value>) -> Value
    ensures { result ≡ or_none value }
{
    match value {
        Some(value) => value,
        None => Value::None,
    }
}

/// The values of `sep` and `end`, None where they aren't given, and then of what is printed.
fn print_operands(alloc: Global, args: &Args) -> Result<Seq<Value>, Memory>
    ensures { IfOk result (λ operands. operands ≡ print_operands args.now) }
{
    let named = args.named.as_slice();
    let mut operands = Seq::new(alloc);
    operands.push(or_none(value_of("sep", named)))?;
    operands.push(or_none(value_of("end", named)))?;
    append(&mut operands, args.plain.as_slice())?;
    Ok(operands)
}

/// A value, and then the values of `key` and `reverse`, None where they aren't given; None for other
/// arguments.
#[tactic(auto, using(crate::proofs::OperandLemmas::sort_given, crate::proofs::OperandLemmas::sort_misnamed, crate::proofs::OperandLemmas::sort_plain))]
fn sort_operands(alloc: Global, receiver: Value, args: &Args) -> Result<Option<Seq<Value>>, Memory>
    ensures { IfOk result (λ operands. operands
        ≡ option_map (λ vs. receiver ∷ vs) (sort_operands args.now.named args.now.plain)) }
{
    let named = args.named.as_slice();
    if !args.plain.is_empty() {
        return Ok(None);
    }
    if !are_sort_names(named) {
        return Ok(None);
    }
    let mut operands = Seq::new(alloc);
    operands.push(receiver)?;
    operands.push(or_none(value_of("key", named)))?;
    operands.push(or_none(value_of("reverse", named)))?;
    Ok(Some(operands))
}

fn is_sort(method: MethodName) -> bool
    ensures { result ≡ is_sort method }
{
    match method {
        MethodName::Sort => true,
        _ => false,
    }
}

/// A value and the operands of its method, if it takes these arguments.
#[tactic(auto, using(crate::proofs::OperandLemmas::sort_called, crate::proofs::OperandLemmas::method_named, crate::proofs::OperandLemmas::method_plain))]
pub fn method_operands(
    alloc: Global,
    method: MethodName,
    receiver: Value,
    args: &Args,
) -> Result<Option<Seq<Value>>, Memory>
    ensures { IfOk result (λ operands. operands
        ≡ option_map (λ vs. receiver ∷ vs) (method_operands method args.now)) }
{
    if is_sort(method) {
        return sort_operands(alloc, receiver, args);
    }
    if !args.named.is_empty() {
        return Ok(None);
    }
    let mut operands = Seq::new(alloc);
    operands.push(receiver)?;
    append(&mut operands, args.plain.as_slice())?;
    Ok(Some(operands))
}

/// Whether it is `print`, which takes arguments by names.
fn is_print(function: Function) -> bool
    ensures { result ≡ is_print function }
{
    match function {
        Function::Print => true,
        _ => false,
    }
}

/// The operands of `print`, if it takes arguments of these names.
#[tactic(auto, using(crate::proofs::OperandLemmas::printed, crate::proofs::OperandLemmas::misnamed))]
fn printed_operands(alloc: Global, args: &Args) -> Result<Option<Seq<Value>>, Memory>
    ensures { IfOk result (λ operands. operands ≡ operands_of builtin.Print args.now) }
{
    if !are_print_names(args.named.as_slice()) {
        return Ok(None);
    }
    Ok(Some(print_operands(alloc, args)?))
}

/// The operands of a builtin function, if it takes these arguments.
#[tactic(auto, using(crate::proofs::OperandLemmas::print_operands_of, crate::proofs::OperandLemmas::plain_operands_of, crate::proofs::OperandLemmas::named_operands_of))]
pub fn operands_of(
    alloc: Global,
    function: Function,
    args: &Args,
) -> Result<Option<Seq<Value>>, Memory>
    ensures { IfOk result (λ operands. operands ≡ operands_of function args.now) }
{
    if is_print(function) {
        return printed_operands(alloc, args);
    }
    if args.named.is_empty() {
        return Ok(Some(Seq::from_slice(alloc, args.plain.as_slice())?));
    }
    Ok(None)
}
