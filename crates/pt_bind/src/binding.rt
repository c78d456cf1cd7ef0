ghost use Rattle.std.specs.Prelude.{◌≡◌, ◌++◌, Ok, Some, IfOk, IfErr, OnOk, drop, take, length};
ghost use Rattle.std.specs.Prelude.{map};
ghost use Rattle.std.specs.Prelude.{filter, not, slice_get};
ghost use Rattle.pt_bind.specs.NameSets.{has_name, IsSetOf};
ghost use Rattle.pt_bind.specs.Binding.{binding, binding_with, by_name, double_name, extra_named};
ghost use Rattle.pt_bind.specs.Binding.{first_again};
ghost use Rattle.pt_bind.specs.Binding.{first_unfilled, is_too_many, names_of, unexpected_name};
ghost use Rattle.pt_bind.specs.Binding.{value_of, values_of, IsTold};

use crate::name_set::NameSet;
use crate::{Args, BindErr, Locals, Params};
use pt_base::{Dup, Memory, Seq, Text};
use pt_heap::{Binding, Value};
use std::alloc::Global;

/// The value that a name is given.
fn value_of(name: &str, bindings: &[Binding]) -> Option<Value>
    ensures { result ≡ value_of name.now bindings.now }
{
    for binding in bindings {
        if binding.name.is(name) {
            return Some(binding.value);
        }
    }
    None
}

/// The argument of this name, or the default.
fn by_name(defaults: &[Binding], args: &Args, name: &str) -> Option<Value>
    ensures { result ≡ by_name defaults.now args.now name.now }
{
    match value_of(name, args.named.as_slice()) {
        Some(value) => Some(value),
        None => value_of(name, defaults),
    }
}

/// Whether more arguments without a name are given than there are parameters for them.
fn is_too_many(params: &Params, args: &Args) -> bool
    ensures { result ≡ is_too_many params.now args.now }
{
    !params.star && params.plain.len() < args.plain.len()
}

/// The first of the named arguments whose name was given before.
fn first_again(
    alloc: Global,
    given: &mut NameSet,
    named: &[Binding],
) -> Result<Option<Text>, Memory>
    ensures { IfOk result
        (λ name. (names : _)
        → IsSetOf names given.old → name ≡ first_again names named.now) }
{
    for binding in named {
        if !given.add(alloc, binding.name.as_str())? {
            let name = binding.name.dup(alloc)?;
            return Ok(Some(name));
        }
    }
    Ok(None)
}

/// The first name that is given twice.
fn double_name(alloc: Global, params: &Params, args: &Args) -> Result<Option<Text>, Memory>
    ensures { IfOk result (λ name. name ≡ double_name params.now args.now) }
{
    if args.named.is_empty() {
        return Ok(None);
    }
    let placed = params.plain.len().min(args.plain.len());
    let mut given = NameSet::new(alloc);
    given.add_all(alloc, &params.plain.as_slice()[..placed])?;
    first_again(alloc, &mut given, args.named.as_slice())
}

/// The named arguments whose names aren't in a set.
fn not_in(alloc: Global, names: &NameSet, named: &[Binding]) -> Result<Seq<Binding>, Memory>
    ensures { IfOk result
        (λ bs. bs ≡ filter (λ b. not (has_name names.now b.name)) named.now) }
{
    let mut others = Seq::new(alloc);
    for binding in named {
        if !names.has(binding.name.as_str()) {
            others.push(binding.dup(alloc)?)?;
        }
    }
    Ok(others)
}

/// The named arguments that no parameter takes.
fn extra_named(alloc: Global, params: &Params, args: &Args) -> Result<Seq<Binding>, Memory>
    ensures { IfOk result (λ bs. bs ≡ extra_named params.now args.now) }
{
    if args.named.is_empty() {
        return Ok(Seq::new(alloc));
    }
    let mut names = NameSet::new(alloc);
    names.add_all(alloc, params.plain.as_slice())?;
    names.add_all(alloc, params.only.as_slice())?;
    let others = not_in(alloc, &names, args.named.as_slice())?;
    Ok(others)
}

/// The first of the names that no parameter has, where none takes them.
fn unexpected_name(
    alloc: Global,
    params: &Params,
    extra: &[Binding],
) -> Result<Option<Text>, Memory>
    ensures { IfOk result (λ name. name ≡ unexpected_name params.now extra.now) }
{
    if params.stars {
        return Ok(None);
    }
    match extra.first() {
        Some(binding) => {
            let name = binding.name.dup(alloc)?;
            Ok(Some(name))
        }
        None => Ok(None),
    }
}

/// The values of the parameters that arguments without a name fill.
fn placed_values(alloc: Global, params: &Params, args: &Args) -> Result<Seq<Option<Value>>, Memory>
    ensures { IfOk result (λ vs. vs ≡ map Some (take (length params.now.plain) args.now.plain)) }
{
    let mut values = Seq::new(alloc);
    let placed = params.plain.len().min(args.plain.len());
    for value in &args.plain.as_slice()[..placed] {
        values.push(Some(*value))?;
    }
    Ok(values)
}

/// Puts the values of parameters that names or defaults fill behind others.
fn fill_by_name(
    defaults: &[Binding],
    args: &Args,
    names: &[Text],
    values: &mut Seq<Option<Value>>,
) -> Result<(), Memory>
    ensures { OnOk result
        (values.new ≡ values.old ++ map (by_name defaults.now args.now) names.now) }
{
    for name in names {
        values.push(by_name(defaults, args, name.as_str()))?;
    }
    Ok(())
}

/// The value of each parameter, or None where it has none.
fn values_of(
    alloc: Global,
    params: &Params,
    defaults: &[Binding],
    args: &Args,
) -> Result<Seq<Option<Value>>, Memory>
    ensures { IfOk result (λ vs. vs ≡ values_of params.now defaults.now args.now) }
{
    let mut values = placed_values(alloc, params, args)?;
    let placed = params.plain.len().min(args.plain.len());
    fill_by_name(
        defaults,
        args,
        &params.plain.as_slice()[placed..],
        &mut values,
    )?;
    fill_by_name(defaults, args, params.only.as_slice(), &mut values)?;
    Ok(values)
}

/// The name of a parameter, of which the plain ones stand first.
fn parameter_name(alloc: Global, params: &Params, at: usize) -> Result<Option<Text>, Memory>
    ensures { IfOk result (λ name. name ≡ slice_get (names_of params.now) at) }
{
    let plain = params.plain.len();
    let name = if at < plain {
        params.plain.get(at)
    } else {
        params.only.get(at - plain)
    };
    match name {
        Some(name) => {
            let name = name.dup(alloc)?;
            Ok(Some(name))
        }
        None => Ok(None),
    }
}

/// The first parameter without a value.
fn missing_name(
    alloc: Global,
    params: &Params,
    values: &[Option<Value>],
) -> Result<Option<Text>, Memory>
    ensures { IfOk result (λ name. name ≡ first_unfilled (names_of params.now) values.now) }
{
    for at in 0..values.len() {
        match values[at] {
            Some(_) => {}
            None => return parameter_name(alloc, params, at),
        }
    }
    Ok(None)
}

/// The arguments that are left for `*NAME`.
fn extra_values(alloc: Global, params: &Params, args: &Args) -> Result<Seq<Value>, Memory>
    ensures { IfOk result (λ vs. vs ≡ drop (length params.now.plain) args.now.plain) }
{
    let values = args.plain.as_slice();
    let placed = params.plain.len().min(values.len());
    Seq::from_slice(alloc, &values[placed..])
}

/// What the parameters and the starred parameters start with in a call, or why its arguments don't
/// fit them (Language Reference 6.3.4). Of several reasons TooMany is told first, then Double,
/// Unexpected and Missing, each at the first argument or parameter that it is true of.
///
/// Of named arguments that no parameter takes, as a spread dictionary may hold many, each is looked
/// for in a logarithm of their count; the argument of a parameter is searched for in their list.
pub fn bind(alloc: Global, params: &Params, args: &Args) -> Result<Locals, BindErr>
    ensures ok { IfOk result (λ locals. binding params.now args.now ≡ Ok locals) }
    ensures err { IfErr result (IsTold (binding params.now args.now)) }
{
    bind_with(alloc, params, params.defaults.as_slice(), args)
}

/// The same with these defaults in place of those of the parameters, as a function object has them
/// beside the parameters of its block.
pub fn bind_with(
    alloc: Global,
    params: &Params,
    defaults: &[Binding],
    args: &Args,
) -> Result<Locals, BindErr>
    ensures ok { IfOk result (λ locals. binding_with params.now defaults.now args.now ≡ Ok locals) }
    ensures err { IfErr result (IsTold (binding_with params.now defaults.now args.now)) }
{
    if is_too_many(params, args) {
        return Err(BindErr::TooMany {
            given: args.plain.len(),
        });
    }
    if let Some(name) = double_name(alloc, params, args)? {
        return Err(BindErr::Double { name });
    }
    let stars = extra_named(alloc, params, args)?;
    if let Some(name) = unexpected_name(alloc, params, stars.as_slice())? {
        return Err(BindErr::Unexpected { name });
    }
    let values = values_of(alloc, params, defaults, args)?;
    if let Some(name) = missing_name(alloc, params, values.as_slice())? {
        return Err(BindErr::Missing { name });
    }
    let star = extra_values(alloc, params, args)?;
    Ok(Locals {
        values,
        star,
        stars,
        cells: Seq::new(alloc),
    })
}
