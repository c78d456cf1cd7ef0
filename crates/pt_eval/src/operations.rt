//! Operations that an expression asks for: each gives a value, or says why there is none.
ghost use Rattle.std.specs.Prelude.{◌≡◌, true, IfOk};
ghost use Rattle.law_additions.specs.Additions.{only_adds};
ghost use Rattle.pt_eval.specs.Evaluation.{asked, attribute, by_attribute, named};
ghost use Rattle.pt_eval.specs.Evaluation.{constant_of, is_of_run, name_object, new_if};
ghost use Rattle.pt_eval.specs.Evaluation.{new_object, of_prim, spec_of, truth_of};
ghost use Rattle.pt_builtins.specs.pt_host.Attributes.{arguments_in};
ghost use Rattle.pt_prims.specs.pt_methods.declared.attribute.Attribute.TheVariants.{Missing};
ghost use Rattle.pt_eval.specs.Steps.{Comes};
ghost use Rattle.std.specs.Option.{option_copied};

use crate::names::Names;
use crate::no_value::{NoValue, raised, raised_with};
use crate::scratch::Scratch;
use pt_base::{Dup, Failure, Memory, Seq, Text, What};
use pt_builtins::{BuiltinLookup, NAME_ERROR, name_text};
use pt_content::{Op, PrimAns, class_name, object_of};
use pt_heap::{Builtin, Heap, Method, Object, Str, Value};
use pt_host::{ATTRIBUTE_ERROR, missing_text};
use pt_prims::{Attribute, attribute_of, method_number, receiver_of};
use pt_tree::Constant;
use std::alloc::Global;

/// What a value's answer comes to.
fn of_prim(alloc: Global, heap: &Heap, answer: PrimAns) -> Result<Value, Failure<NoValue>>
    ensures { Comes (of_prim answer heap.now) result heap.now }
{
    match answer {
        PrimAns::Value(value) => Ok(value),
        PrimAns::Raise { class, arg } => {
            let error = raised_with(alloc, heap, class, arg)?;
            Err(Failure::Refused(error))
        }
        PrimAns::Help { .. } => Err(Failure::Refused(NoValue::Refused)),
        PrimAns::Outside { what } => Err(Failure::Refused(NoValue::Outside(what))),
        PrimAns::Values(_) => Err(Failure::Refused(NoValue::Outside(What::Feature))),
        PrimAns::End => Err(Failure::Refused(NoValue::Outside(What::Feature))),
        PrimAns::Print { .. } => Err(Failure::Refused(NoValue::Outside(What::Feature))),
    }
}

/// An operation on values. Where a method of a script would be asked, it is refused.
#[tactic(auto, unfolding(crate::specs::Evaluation::asked))]
pub fn ask(
    alloc: Global,
    scratch: &mut Scratch,
    op: Op,
    args: &[Value],
) -> Result<Value, Failure<NoValue>>
    requires { only_adds op ≡ true }
    ensures came { Comes (asked op args.now scratch.old.objects) result scratch.new.objects }
    ensures below { scratch.new.below ≡ scratch.old.below }
{
    let answer = scratch.prim(alloc, op, args)?;
    of_prim(alloc, scratch.heap(), answer)
}

/// Whether a value is true.
#[tactic(auto, unfolding(crate::specs::Evaluation::truth_of))]
pub fn truth(alloc: Global, scratch: &mut Scratch, value: Value) -> Result<bool, Failure<NoValue>>
    ensures came { Comes (truth_of value scratch.old.objects) result scratch.new.objects }
    ensures below { scratch.new.below ≡ scratch.old.below }
{
    match ask(alloc, scratch, Op::Truth, &[value])? {
        Value::Bool(is) => Ok(is),
        _ => Err(Failure::Refused(NoValue::Outside(What::Feature))),
    }
}

/// A constant; a text is a new object.
pub fn constant(
    alloc: Global,
    scratch: &mut Scratch,
    constant: &Constant,
) -> Result<Value, Failure<NoValue>>
    ensures came { Comes (constant_of constant.now scratch.old.objects) result
        scratch.new.objects }
    ensures below { scratch.new.below ≡ scratch.old.below }
{
    match constant {
        Constant::None => Ok(Value::None),
        Constant::Bool(is) => Ok(Value::Bool(*is)),
        Constant::Ellipsis => Ok(Value::Ellipsis),
        Constant::Int(number) => Ok(Value::Int(*number)),
        Constant::Str(text) => literal(alloc, scratch, text),
    }
}

/// A new text.
pub fn literal(alloc: Global, scratch: &mut Scratch, text: &Text) -> Result<Value, Failure<NoValue>>
    ensures came { Comes (new_object (Object.Str text.now) scratch.old.objects) result
        scratch.new.objects }
    ensures below { scratch.new.below ≡ scratch.old.below }
{
    let text = text.dup(alloc)?;
    scratch.add(Object::Str(Str::new(text)))
}

/// What a name means.
#[tactic(auto, unfolding(crate::specs::Evaluation::named))]
pub fn named(
    alloc: Global,
    heap: &Heap,
    names: &Names,
    name: &str,
) -> Result<Value, Failure<NoValue>>
    ensures { Comes (named names.now.locals.now names.now.globals.now name.now heap.now) result
        heap.now }
{
    match names.meaning(name) {
        BuiltinLookup::Found(value) => Ok(value),
        BuiltinLookup::Unavailable => Err(Failure::Refused(NoValue::Outside(What::Feature))),
        BuiltinLookup::Unbound => {
            let text = name_text(alloc, name)?;
            let error = raised(alloc, heap, NAME_ERROR, text)?;
            Err(Failure::Refused(error))
        }
    }
}

/// Whether only a running script is asked for an attribute: those of frames and of code, and the
/// code of a function.
fn is_of_run(name: &str, object: Option<&Object>) -> bool
    ensures { result ≡ is_of_run name.now (option_copied object.entry) }
{
    match object {
        Some(Object::Frame(_)) => true,
        Some(Object::CodeRef { .. }) => true,
        Some(Object::Function(_)) => name == "__code__",
        _ => false,
    }
}

/// A value has no attribute of this name.
fn missing(alloc: Global, heap: &Heap, value: Value, name: &str) -> Result<Value, Failure<NoValue>>
    ensures { Comes (by_attribute name.now value Missing heap.now) result heap.now }
{
    let text = missing_text(alloc, class_name(heap, value), name)?;
    let error = raised(alloc, heap, ATTRIBUTE_ERROR, text)?;
    Err(Failure::Refused(error))
}

/// The name of a class as an object. That of a function isn't known here.
fn name_object(alloc: Global, object: Option<&Object>) -> Result<Option<Object>, Memory>
    ensures { IfOk result (λ name. name ≡ name_object (option_copied object.entry)) }
{
    match object {
        Some(Object::Class(class)) => Ok(Some(Object::Str(Str::new(class.name.dup(alloc)?)))),
        _ => Ok(None),
    }
}

fn arguments_in(alloc: Global, object: Option<&Object>) -> Result<Seq<Value>, Memory>
    ensures { IfOk result (λ args. args ≡ arguments_in (option_copied object.entry)) }
{
    match object {
        Some(Object::Error(error)) => Seq::from_slice(alloc, error.args.as_slice()),
        _ => Ok(Seq::new(alloc)),
    }
}

/// A new object, where there is one to make.
fn new_if(scratch: &mut Scratch, object: Option<Object>) -> Result<Value, Failure<NoValue>>
    ensures came { Comes (new_if object scratch.old.objects) result scratch.new.objects }
    ensures below { scratch.new.below ≡ scratch.old.below }
{
    match object {
        Some(object) => scratch.add(object),
        None => Err(Failure::Refused(NoValue::Outside(What::Feature))),
    }
}

/// What an attribute comes to; a method is a new object, and so is a name.
fn by_attribute(
    alloc: Global,
    scratch: &mut Scratch,
    value: Value,
    name: &str,
    attribute: Attribute,
) -> Result<Value, Failure<NoValue>>
    ensures came { Comes (by_attribute name.now value attribute scratch.old.objects) result
        scratch.new.objects }
    ensures below { scratch.new.below ≡ scratch.old.below }
{
    match attribute {
        Attribute::Method(method) => scratch.add(Object::Builtin(Builtin {
            number: method_number(method),
            receiver: Some(value),
        })),
        Attribute::Held(held) => Ok(held),
        Attribute::Bound(function) => {
            let receiver = receiver_of(scratch.heap(), value);
            scratch.add(Object::Method(Method { function, receiver }))
        }
        Attribute::NameOf => {
            let name = name_object(alloc, object_of(scratch.heap(), value))?;
            new_if(scratch, name)
        }
        Attribute::Arguments => {
            let args = arguments_in(alloc, object_of(scratch.heap(), value))?;
            scratch.add(Object::Tuple(args))
        }
        Attribute::Missing => missing(alloc, scratch.heap(), value, name),
        Attribute::Unbuilt => Err(Failure::Refused(NoValue::Outside(What::Feature))),
    }
}

/// An attribute of a value (Language Reference 6.3.1).
#[tactic(auto, unfolding(crate::specs::Evaluation::attribute))]
pub fn attribute(
    alloc: Global,
    scratch: &mut Scratch,
    value: Value,
    name: &str,
) -> Result<Value, Failure<NoValue>>
    ensures came { Comes (attribute name.now value scratch.old.objects) result
        scratch.new.objects }
    ensures below { scratch.new.below ≡ scratch.old.below }
{
    if is_of_run(name, object_of(scratch.heap(), value)) {
        return Err(Failure::Refused(NoValue::Refused));
    }
    let attribute = attribute_of(alloc, scratch.heap(), value, name)?;
    by_attribute(alloc, scratch, value, name, attribute)
}

/// The spec of a replacement field, of the texts of its parts.
pub fn spec(
    alloc: Global,
    scratch: &mut Scratch,
    parts: &[Value],
) -> Result<Value, Failure<NoValue>>
    ensures came { Comes (spec_of parts.now scratch.old.objects) result scratch.new.objects }
    ensures below { scratch.new.below ≡ scratch.old.below }
{
    match parts {
        [] => Ok(Value::None),
        [part] => Ok(*part),
        _ => ask(alloc, scratch, Op::Join, parts),
    }
}
