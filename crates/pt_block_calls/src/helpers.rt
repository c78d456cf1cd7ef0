//! The arguments of the functions of the prelude that operations ask, and the objects that are made
//! for them.
ghost use Rattle.std.specs.Prelude.{◌≡◌, ◌∷◌, [], option_map, IfOk};
ghost use Rattle.pt_block_calls.specs.BlockCalls.{AreMade, MakesArguments, three_of, without_names};
ghost use Rattle.pt_content.specs.declared.answer.Helper.TheVariants as asked;
ghost use Rattle.pt_operators.specs.pt_moves.sem_rows.pt_host.Calls.{helper_arguments};
ghost use Rattle.pt_operators.specs.pt_moves.sem_rows.pt_host.Calls.{named_argument, or_usual};

use crate::blocks::append;
use crate::names::{method_name, reflected_name, sign_of};
use pt_base::{Memory, Seq, Text};
use pt_bind::Args;
use pt_content::{Helper as Asked, Operator};
use pt_heap::{Binding, Heap, Object, Str, Value};
use pt_operators::allot;
use std::alloc::Global;

/// An argument by a name.
fn named_argument(alloc: Global, name: &str, value: Value) -> Result<Binding, Memory>
    ensures { IfOk result (λ argument. argument ≡ named_argument name.now value) }
{
    let name = Text::from_str(alloc, name)?;
    Ok(Binding { name, value })
}

/// Values as arguments without names.
pub fn without_names(alloc: Global, values: &[Value]) -> Result<Args, Memory>
    ensures { IfOk result (λ args. args ≡ without_names values.now) }
{
    Ok(Args {
        plain: Seq::from_slice(alloc, values)?,
        named: Seq::new(alloc),
    })
}

/// A value and others behind it as arguments without names.
pub fn with_first(alloc: Global, first: Value, rest: &[Value]) -> Result<Args, Memory>
    ensures { IfOk result (λ args. args ≡ without_names (first ∷ rest.now)) }
{
    let mut plain = Seq::from_slice(alloc, &[first])?;
    append(&mut plain, rest)?;
    Ok(Args {
        plain,
        named: Seq::new(alloc),
    })
}

/// The arguments of `sort`, which takes `key` and `reverse` by name.
#[tactic(auto, using(crate::proofs::HelperLemmas::no_sort))]
fn sort_arguments(alloc: Global, operands: &[Value]) -> Result<Args, Memory>
    ensures { IfOk result (λ args. args ≡ helper_arguments asked.SortOf operands.now []) }
{
    match operands {
        [list, key, turned] => {
            let mut plain = Seq::new(alloc);
            plain.push(*list)?;
            let mut named = Seq::new(alloc);
            named.push(named_argument(alloc, "key", *key)?)?;
            named.push(named_argument(alloc, "reverse", *turned)?)?;
            Ok(Args { plain, named })
        }
        _ => without_names(alloc, operands),
    }
}

/// The arguments of the function that looks for a value: the container comes first.
#[tactic(auto, using(crate::proofs::HelperLemmas::not_in))]
fn in_arguments(alloc: Global, operands: &[Value]) -> Result<Args, Memory>
    ensures { IfOk result (λ args. args ≡ helper_arguments asked.InOf operands.now []) }
{
    match operands {
        [value, container] => without_names(alloc, &[*container, *value]),
        _ => without_names(alloc, operands),
    }
}

/// The first of some values alone, if there is one.
fn first_alone(alloc: Global, operands: &[Value]) -> Result<Args, Memory>
    ensures text { IfOk result (λ args. args ≡ helper_arguments asked.StrOf operands.now []) }
    ensures repr { IfOk result (λ args. args ≡ helper_arguments asked.ReprOf operands.now []) }
{
    match operands {
        [value, ..] => without_names(alloc, &[*value]),
        [] => without_names(alloc, &[]),
    }
}

/// The arguments of a function for which no objects are made.
#[tactic(auto, using(crate::proofs::HelperLemmas::plain_arguments))]
fn plain_arguments(alloc: Global, asked: Asked, operands: &[Value]) -> Result<Args, Memory>
    ensures { IfOk result (λ args. args ≡ helper_arguments asked operands.now []) }
{
    match asked {
        Asked::SortOf => sort_arguments(alloc, operands),
        Asked::InOf => in_arguments(alloc, operands),
        Asked::StrOf => first_alone(alloc, operands),
        Asked::ReprOf => first_alone(alloc, operands),
        Asked::TakeOf(count) => {
            let mut args = without_names(alloc, operands)?;
            args.plain.push(Value::Int(count as i128))?;
            Ok(args)
        }
        _ => without_names(alloc, operands),
    }
}

/// Puts three new objects behind the others of a heap; None where there is no room for them.
#[tactic(auto, using(crate::proofs::HelperLemmas::three_made, crate::proofs::HelperLemmas::no_first, crate::proofs::HelperLemmas::no_second, crate::proofs::HelperLemmas::no_third))]
fn make_three(
    heap: &mut Heap,
    first: Object,
    second: Object,
    third: Object,
) -> Result<Option<(Value, (Value, Value))>, Memory>
    ensures { IfOk result (λ made. AreMade (first ∷ second ∷ third ∷ []) heap.old
        (option_map three_of made) heap.new) }
{
    let Some(first) = allot(heap, first)? else {
        return Ok(None);
    };
    let Some(second) = allot(heap, second)? else {
        return Ok(None);
    };
    match allot(heap, third)? {
        Some(third) => Ok(Some((first, (second, third)))),
        None => Ok(None),
    }
}

/// The operands of an operator, and texts of the names of its methods and of its sign.
#[tactic(auto, using(crate::proofs::HelperLemmas::operator_given, crate::proofs::HelperLemmas::operator_lacks))]
fn operator_arguments(
    alloc: Global,
    operator: Operator,
    operands: &[Value],
    heap: &mut Heap,
) -> Result<Option<Args>, Memory>
    ensures { IfOk result (λ args.
        MakesArguments (asked.BinaryOf operator) operands.now heap.old args heap.new) }
{
    let name = Object::Str(Str::new(method_name(alloc, operator)?));
    let reflected = Object::Str(Str::new(reflected_name(alloc, operator)?));
    let sign = Object::Str(Str::new(sign_of(alloc, operator)?));
    match make_three(heap, name, reflected, sign)? {
        Some(made) => {
            let mut plain = Seq::from_slice(alloc, operands)?;
            append(&mut plain, &[made.0, made.1.0, made.1.1])?;
            let named = Seq::new(alloc);
            Ok(Some(Args { plain, named }))
        }
        None => Ok(None),
    }
}

/// A value, or the usual one where it is None.
fn or_usual(usual: Value, given: Value) -> Value
    ensures { result ≡ or_usual usual given }
{
    match given {
        Value::None => usual,
        _ => given,
    }
}

/// The tuple of what is printed, and the texts between and behind.
#[tactic(auto, using(crate::proofs::HelperLemmas::print_given, crate::proofs::HelperLemmas::print_lacks))]
fn printed_with(
    alloc: Global,
    separator: Value,
    end: Value,
    values: &[Value],
    heap: &mut Heap,
) -> Result<Option<Args>, Memory>
    ensures { IfOk result (λ args.
        MakesArguments asked.PrintOf (separator ∷ end ∷ values.now) heap.old args heap.new) }
{
    let printed = Object::Tuple(Seq::from_slice(alloc, values)?);
    let blank = Object::Str(Str::new(Text::from_str(alloc, " ")?));
    let line = Object::Str(Str::new(Text::from_str(alloc, "\n")?));
    match make_three(heap, printed, blank, line)? {
        Some(made) => {
            let between = or_usual(made.1.0, separator);
            let behind = or_usual(made.1.1, end);
            let mut plain = Seq::new(alloc);
            plain.push(made.0)?;
            plain.push(between)?;
            plain.push(behind)?;
            let named = Seq::new(alloc);
            Ok(Some(Args { plain, named }))
        }
        None => Ok(None),
    }
}

/// The arguments of the function that prints.
#[tactic(auto, using(crate::proofs::HelperLemmas::none_printed))]
fn print_arguments(
    alloc: Global,
    operands: &[Value],
    heap: &mut Heap,
) -> Result<Option<Args>, Memory>
    ensures { IfOk result (λ args.
        MakesArguments asked.PrintOf operands.now heap.old args heap.new) }
{
    match operands {
        [separator, end, values @ ..] => printed_with(alloc, *separator, *end, values, heap),
        _ => Ok(Some(without_names(alloc, operands)?)),
    }
}

/// The arguments of the function of the prelude that an operation on these operands asks, for which
/// objects may be made; None where there is no room for them.
#[tactic(auto, using(crate::proofs::HelperLemmas::plain_given))]
pub fn helper_arguments(
    alloc: Global,
    asked: Asked,
    operands: &[Value],
    heap: &mut Heap,
) -> Result<Option<Args>, Memory>
    ensures { IfOk result (λ args. MakesArguments asked operands.now heap.old args heap.new) }
{
    match asked {
        Asked::BinaryOf(operator) => operator_arguments(alloc, operator, operands, heap),
        Asked::PrintOf => print_arguments(alloc, operands, heap),
        _ => Ok(Some(plain_arguments(alloc, asked, operands)?)),
    }
}
