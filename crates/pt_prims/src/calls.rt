//! Calls of builtin functions and classes.

ghost use Rattle.std.specs.Prelude.{◌≡◌, codes, is_some, slice_get, IfOk};
ghost use Rattle.std.specs.Char.{encode_utf8};
ghost use Rattle.std.specs.Option.{option_copied};
ghost use Rattle.std.specs.Str.{chars};
ghost use Rattle.pt_content.specs.pt_attrs.Look.{object_of};
ghost use Rattle.pt_content.specs.Operands.{operand_of};
ghost use Rattle.pt_methods.specs.pt_reprs.Reached.{parts_of};
ghost use Rattle.pt_methods.specs.pt_sequences.Displays.{list_content};
ghost use Rattle.pt_prims.specs.Calls.{builtin_class, builtin_content, call_bool, call_content};
ghost use Rattle.pt_prims.specs.Calls.{call_int, call_next, is_hidden};
ghost use Rattle.pt_prims.specs.Calls.{call_exit, call_str, callable_by, char_by, char_of};
ghost use Rattle.pt_prims.specs.Calls.{class_of, class_of_object, code_by, code_of, division_by};
ghost use Rattle.pt_prims.specs.Calls.{function_class, integer_by, magnitude, magnitude_by};
ghost use Rattle.pt_prims.specs.Calls.{hidden_content, or_default, or_raise};
ghost use Rattle.pt_prims.specs.Calls.{exits_with, quotient_and_remainder, status_in, view_class};
ghost use Rattle.pt_special_methods.specs.Instances.{method_of};

use crate::arithmetic::integer_content;
use crate::attribute_calls::{call_getattr, has_attribute};
use crate::classes::{is_of_classes, subclass_by};
use crate::hidden::{is_of, join_items, make_set, make_tuple, refill, sort_items};
use crate::integer_texts::text_integer;
use pt_base::{BinOp, Memory, ObjId, Seq, Text, UnOp, What};
use pt_content::{
    Change, Content, Function, Helper, Operand, PrimAns, TYPE_ERROR, VALUE_ERROR, bad_argument,
    object_at, object_of, operand_of, text_of,
};
use pt_heap::{Heap, Object, Part, Str, Value};
use pt_ints::IntAns;
use pt_methods::{
    iterator_content, length_content, list_content, new_text, next_content, print_content,
    range_content, repr_content, str_content, truth_content, truth_value, tuple_content,
};
use pt_special_methods::{
    dots, get_name, has_name, holds_instance, is_error, length_given, method_of, parts_of, refuse,
    repr_text, text_given, truth_given, wrap, write_by,
};
use std::alloc::Global;

/// The place of the class that `next` raises.
pub const STOP_ITERATION: ObjId = ObjId(44);

/// The place of the class that `sys.exit` raises.
pub const SYSTEM_EXIT: ObjId = ObjId(27);

/// A number without its sign.
fn magnitude(number: i128) -> IntAns
    ensures { result ≡ magnitude number }
{
    if number < 0 {
        return pt_ints::unary(UnOp::Minus, number);
    }
    pt_ints::unary(UnOp::Plus, number)
}

/// `abs`
fn magnitude_by(alloc: Global, operand: Operand) -> Result<Content, Memory>
    ensures { IfOk result (λ content. content ≡ magnitude_by operand) }
{
    match operand {
        Operand::Number(number) => integer_content(alloc, magnitude(number)),
        Operand::Text | Operand::Instance | Operand::Compound | Operand::Plain => {
            bad_argument(alloc, TYPE_ERROR)
        }
    }
}

/// A tuple of two integers.
fn pair(alloc: Global, first: i128, second: i128) -> Result<Content, Memory>
    ensures { IfOk result (λ content.
        content ≡ quotient_and_remainder (IntAns.Value first) (IntAns.Value second)) }
{
    let mut items = Seq::new(alloc);
    items.push(Value::Int(first))?;
    items.push(Value::Int(second))?;
    Ok(tuple_content(items))
}

fn quotient_and_remainder(
    alloc: Global,
    quotient: IntAns,
    remainder: IntAns,
) -> Result<Content, Memory>
    ensures { IfOk result (λ content. content ≡ quotient_and_remainder quotient remainder) }
{
    match (quotient, remainder) {
        (IntAns::Value(quotient), IntAns::Value(remainder)) => pair(alloc, quotient, remainder),
        (IntAns::Value(_), remainder) => integer_content(alloc, remainder),
        (quotient, _) => integer_content(alloc, quotient),
    }
}

/// `divmod`
fn division_by(alloc: Global, a: Operand, b: Operand) -> Result<Content, Memory>
    ensures { IfOk result (λ content. content ≡ division_by a b) }
{
    match (a, b) {
        (Operand::Number(a), Operand::Number(b)) => {
            let quotient = pt_ints::binary(BinOp::FloorDiv, a, b);
            let remainder = pt_ints::binary(BinOp::Mod, a, b);
            quotient_and_remainder(alloc, quotient, remainder)
        }
        _ => bad_argument(alloc, TYPE_ERROR),
    }
}

/// The number of the one character of a text.
fn code_of(alloc: Global, text: &Str) -> Result<Content, Memory>
    ensures { IfOk result (λ content. content ≡ code_of (chars text.now)) }
{
    if text.len() != 1 {
        return bad_argument(alloc, VALUE_ERROR);
    }
    match text.char_at(0) {
        Some(c) => Ok(Content::Value(Value::Int(c as i128))),
        None => bad_argument(alloc, VALUE_ERROR),
    }
}

/// `ord`
fn code_by(alloc: Global, text: Option<&Str>) -> Result<Content, Memory>
    ensures { IfOk result (λ content. content ≡ code_by (option_copied text.entry)) }
{
    match text {
        Some(text) => code_of(alloc, text),
        None => bad_argument(alloc, TYPE_ERROR),
    }
}

/// A character as a text.
fn text_of_char(alloc: Global, c: char) -> Result<Text, Memory>
    ensures { IfOk result (λ text. text ≡ encode_utf8 c) }
{
    let mut bytes = [0; 4];
    Text::from_str(alloc, c.encode_utf8(&mut bytes))
}

/// The character of a number that is not negative.
fn char_of(alloc: Global, number: u128) -> Result<Content, Memory>
    ensures { IfOk result (λ content. content ≡ char_of number) }
{
    if number >= 0x11_0000 {
        return bad_argument(alloc, VALUE_ERROR);
    }
    match char::from_u32(number as u32) {
        Some(c) => Ok(new_text(text_of_char(alloc, c)?)),
        None => Ok(Content::Outside(What::Surrogate)),
    }
}

/// `chr`
fn char_by(alloc: Global, operand: Operand) -> Result<Content, Memory>
    ensures { IfOk result (λ content. content ≡ char_by operand) }
{
    match operand {
        Operand::Number(number) if number < 0 => bad_argument(alloc, VALUE_ERROR),
        Operand::Number(number) => char_of(alloc, number.unsigned_abs()),
        Operand::Text | Operand::Instance | Operand::Compound | Operand::Plain => {
            bad_argument(alloc, TYPE_ERROR)
        }
    }
}

/// `int`
fn integer_by(alloc: Global, operand: Operand, text: Option<&Str>) -> Result<Content, Memory>
    ensures { IfOk result (λ content. content ≡ integer_by operand (option_copied text.entry)) }
{
    match (operand, text) {
        (Operand::Number(number), _) => Ok(Content::Value(Value::Int(number))),
        (_, Some(text)) => text_integer(alloc, text),
        _ => bad_argument(alloc, TYPE_ERROR),
    }
}

/// `callable`, by whether an instance has the method.
fn callable_by(heap: &Heap, value: Value, called: bool) -> Content
    ensures { result
        ≡ callable_by (operand_of heap.now value) called (object_of heap.now value) }
{
    if operand_of(heap, value) == Operand::Instance {
        return truth_value(called);
    }
    match object_of(heap, value) {
        Some(Object::Function(_)) => truth_value(true),
        Some(Object::Method(_)) => truth_value(true),
        Some(Object::Builtin(_)) => truth_value(true),
        Some(Object::Class(_)) => truth_value(true),
        _ => truth_value(false),
    }
}

/// The same of a value.
fn callable(alloc: Global, heap: &Heap, value: Value) -> Result<Content, Memory>
    ensures { IfOk result (λ content. content ≡ callable_by (operand_of heap.now value)
        (is_some (method_of heap.now value (codes "__call__"))) (object_of heap.now value)) }
{
    let found = method_of(alloc, heap, value, "__call__")?;
    Ok(callable_by(heap, value, found.is_some()))
}

/// A class of builtin values, by its place.
fn builtin_class(place: u32) -> Value
    ensures { result ≡ builtin_class place }
{
    Value::Obj(ObjId(place))
}

fn view_class(part: Part) -> Value
    ensures { result ≡ view_class part }
{
    match part {
        Part::Keys => builtin_class(22),
        Part::Values => builtin_class(23),
        Part::Items => builtin_class(24),
    }
}

/// The class of a function. One that is written in Python is a builtin one.
fn function_class(hidden: bool) -> Value
    ensures { result ≡ function_class hidden }
{
    if hidden {
        builtin_class(16)
    } else {
        builtin_class(14)
    }
}

fn class_of_object(heap: &Heap, id: ObjId) -> Value
    ensures { result ≡ class_of_object (slice_get heap.now id.0) }
{
    match object_at(heap, id) {
        Some(Object::Str(_)) => builtin_class(4),
        Some(Object::List(_)) => builtin_class(5),
        Some(Object::Tuple(_)) => builtin_class(6),
        Some(Object::Set(_)) => builtin_class(7),
        Some(Object::Dict(_)) => builtin_class(8),
        Some(Object::Range(_)) => builtin_class(9),
        Some(Object::Slice(_)) => builtin_class(10),
        Some(Object::Function(function)) => function_class(function.hidden),
        Some(Object::Method(_)) => builtin_class(15),
        Some(Object::Builtin(_)) => builtin_class(16),
        Some(Object::Generator(_)) => builtin_class(17),
        Some(Object::Frame(_)) => builtin_class(18),
        Some(Object::CodeRef { .. }) => builtin_class(19),
        Some(Object::Module(_)) => builtin_class(20),
        Some(Object::Super(_)) => builtin_class(21),
        Some(Object::View(view)) => view_class(view.part),
        Some(Object::Cursor(_)) => builtin_class(25),
        Some(Object::Class(_)) => builtin_class(1),
        Some(Object::Instance(x)) => Value::Obj(x.class),
        Some(Object::Error(x)) => Value::Obj(x.class),
        None => builtin_class(0),
    }
}

/// `type` of one value.
pub fn class_of(heap: &Heap, value: Value) -> Value
    ensures { result ≡ class_of heap.now value }
{
    match value {
        Value::Bool(_) => builtin_class(3),
        Value::Int(_) => builtin_class(2),
        Value::None => builtin_class(11),
        Value::Ellipsis => builtin_class(12),
        Value::NotImplemented => builtin_class(13),
        Value::Obj(id) => class_of_object(heap, id),
    }
}

/// `next` raises where there is no item.
fn or_raise(content: Content) -> Content
    ensures { result ≡ or_raise content }
{
    match content {
        Content::Changed {
            change,
            answer: PrimAns::End,
        } => Content::Changed {
            change,
            answer: PrimAns::Raise {
                class: STOP_ITERATION,
                arg: None,
            },
        },
        other => other,
    }
}

/// `next` gives another value where there is no item.
fn or_default(default: Value, content: Content) -> Content
    ensures { result ≡ or_default default content }
{
    match content {
        Content::Changed {
            change,
            answer: PrimAns::End,
        } => Content::Changed {
            change,
            answer: PrimAns::Value(default),
        },
        Content::Help {
            helper: Helper::NextOf,
            inverted,
        } => Content::Help {
            helper: Helper::NextOrOf,
            inverted,
        },
        other => other,
    }
}

/// `next` of an iterator, and of a default.
fn call_next(alloc: Global, args: &[Value], heap: &Heap) -> Result<Content, Memory>
    ensures { IfOk result (λ content. content ≡ call_next args.now heap.now) }
{
    match args {
        [a] => Ok(or_raise(next_content(alloc, heap, *a)?)),
        [a, default] => Ok(or_default(*default, next_content(alloc, heap, *a)?)),
        _ => Ok(Content::Outside(What::Feature)),
    }
}

/// `int` of a value, or of none.
fn call_int(alloc: Global, args: &[Value], heap: &Heap) -> Result<Content, Memory>
    ensures { IfOk result (λ content. content ≡ call_int args.now heap.now) }
{
    match args {
        [] => Ok(Content::Value(Value::Int(0))),
        [a] => integer_by(alloc, operand_of(heap, *a), text_of(heap, *a)),
        _ => Ok(Content::Outside(What::Feature)),
    }
}

/// `bool` of a value, or of none.
fn call_bool(args: &[Value], heap: &Heap) -> Content
    ensures { result ≡ call_bool args.now heap.now }
{
    match args {
        [] => truth_value(false),
        [a] => truth_content(heap, *a),
        _ => Content::Outside(What::Feature),
    }
}

/// `str` of a value, or of none.
fn call_str(alloc: Global, args: &[Value], heap: &Heap) -> Result<Content, Memory>
    ensures { IfOk result (λ content. content ≡ call_str args.now heap.now) }
{
    match args {
        [] => Ok(new_text(Text::new(alloc))),
        [a] => str_content(alloc, heap, *a),
        _ => Ok(Content::Outside(What::Feature)),
    }
}

/// Raises the exception of `sys.exit`, perhaps of an argument.
fn exits_with(alloc: Global, status: Option<Value>) -> Content
    ensures { result ≡ exits_with status }
{
    Content::Changed {
        change: Change {
            replacement: None,
            objects: Seq::new(alloc),
        },
        answer: PrimAns::Raise {
            class: SYSTEM_EXIT,
            arg: status,
        },
    }
}

/// None is as no argument.
fn status_in(value: Value) -> Option<Value>
    ensures { result ≡ status_in value }
{
    match value {
        Value::None => None,
        other => Some(other),
    }
}

/// `sys.exit` of a value, or of none.
fn call_exit(alloc: Global, args: &[Value]) -> Content
    ensures { result ≡ call_exit args.now }
{
    match args {
        [] => exits_with(alloc, None),
        [a] => exits_with(alloc, status_in(*a)),
        _ => Content::Outside(What::Feature),
    }
}

/// The parts of a container as a new list.
fn parts(alloc: Global, heap: &Heap, value: Value) -> Result<Content, Memory>
    ensures { IfOk result (λ content. content ≡ list_content (parts_of heap.now value)) }
{
    Ok(list_content(parts_of(alloc, heap, value)?))
}

/// What functions that are written in Python ask of values.
fn hidden_content(
    alloc: Global,
    function: Function,
    args: &[Value],
    heap: &Heap,
) -> Result<Content, Memory>
    ensures { IfOk result (λ content. content ≡ hidden_content function args.now heap.now) }
{
    match (function, args) {
        (Function::MakeTuple, args) => make_tuple(alloc, args, heap),
        (Function::MakeSet, args) => make_set(alloc, args, heap),
        (Function::IsOf, args) => Ok(is_of(args, heap)),
        (Function::JoinItems, args) => join_items(alloc, args, heap),
        (Function::SortItems, args) => sort_items(alloc, args, heap),
        (Function::Refill, args) => refill(alloc, args, heap),
        (Function::HasName, args) => has_name(alloc, args, heap),
        (Function::GetName, args) => get_name(alloc, args, heap),
        (Function::Refuse, args) => refuse(alloc, args, heap),
        (Function::IsError, [a]) => Ok(truth_value(is_error(heap, *a))),
        (Function::HoldsInstance, [a]) => Ok(truth_value(holds_instance(alloc, heap, *a)?)),
        (Function::PlainRepr, [a]) => repr_text(alloc, heap, *a),
        (Function::Dots, [a]) => dots(alloc, heap, *a),
        (Function::Parts, [a]) => parts(alloc, heap, *a),
        (Function::Wrap, args) => wrap(alloc, args, heap),
        (Function::TextGiven, [a]) => text_given(alloc, heap, *a),
        (Function::TruthGiven, [a]) => truth_given(alloc, *a),
        (Function::LengthGiven, [a]) => length_given(alloc, heap, *a),
        (Function::Write, [a]) => write_by(alloc, heap, *a),
        _ => Ok(Content::Outside(What::Feature)),
    }
}

/// What builtin functions and classes give.
fn builtin_content(
    alloc: Global,
    function: Function,
    args: &[Value],
    heap: &Heap,
) -> Result<Content, Memory>
    ensures { IfOk result (λ content. content ≡ builtin_content function args.now heap.now) }
{
    match (function, args) {
        (Function::Print, [separator, end, values @ ..]) => {
            print_content(alloc, heap, *separator, *end, values)
        }
        (Function::Len, [a]) => length_content(alloc, heap, *a),
        (Function::Repr, [a]) => repr_content(alloc, heap, *a),
        (Function::Isinstance, [a, classes]) => {
            is_of_classes(alloc, heap, class_of(heap, *a), *classes)
        }
        (Function::Issubclass, [a, classes]) => subclass_by(alloc, heap, *a, *classes),
        (Function::Iter, [a]) => iterator_content(alloc, heap, *a),
        (Function::Next, args) => call_next(alloc, args, heap),
        (Function::Abs, [a]) => magnitude_by(alloc, operand_of(heap, *a)),
        (Function::Divmod, [a, b]) => division_by(
            alloc,
            operand_of(heap, *a),
            operand_of(heap, *b),
        ),
        (Function::Ord, [a]) => code_by(alloc, text_of(heap, *a)),
        (Function::Chr, [a]) => char_by(alloc, operand_of(heap, *a)),
        (Function::Hasattr, [a, name]) => { has_attribute(alloc, heap, *a, text_of(heap, *name)) }
        (Function::Getattr, args) => call_getattr(alloc, args, heap),
        (Function::Callable, [a]) => callable(alloc, heap, *a),
        (Function::Exit, args) => Ok(call_exit(alloc, args)),
        (Function::Type, [a]) => Ok(Content::Value(class_of(heap, *a))),
        (Function::Int, args) => call_int(alloc, args, heap),
        (Function::Bool, args) => Ok(call_bool(args, heap)),
        (Function::Str, args) => call_str(alloc, args, heap),
        (Function::Range, values) => range_content(alloc, heap, values),
        _ => Ok(Content::Outside(What::Feature)),
    }
}

/// Whether functions that are written in Python alone ask it.
fn is_hidden(function: Function) -> bool
    ensures { result ≡ is_hidden function }
{
    match function {
        Function::MakeTuple
        | Function::MakeSet
        | Function::IsOf
        | Function::JoinItems
        | Function::SortItems
        | Function::Refill
        | Function::HasName
        | Function::GetName
        | Function::Refuse
        | Function::IsError
        | Function::HoldsInstance
        | Function::PlainRepr
        | Function::Dots
        | Function::Parts
        | Function::Wrap
        | Function::TextGiven
        | Function::TruthGiven
        | Function::LengthGiven
        | Function::Write => true,
        _ => false,
    }
}

/// What a call of a builtin function or class gives (Library Reference, "Built-in Functions").
pub fn call_content(
    alloc: Global,
    function: Function,
    args: &[Value],
    heap: &Heap,
) -> Result<Content, Memory>
    ensures { IfOk result (λ content. content ≡ call_content function args.now heap.now) }
{
    if is_hidden(function) {
        return hidden_content(alloc, function, args, heap);
    }
    builtin_content(alloc, function, args, heap)
}
