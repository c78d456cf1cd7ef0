ghost use Rattle.std.specs.Prelude.{◌≡◌, [], IfOk, OnOk, OnErr};
ghost use Rattle.pt_heap.specs.Sound.{IsSound};
ghost use Rattle.pt_builtin_objects.specs.Start.{start_objects};
ghost use Rattle.pt_prims.specs.Laws.{AllWithin};
ghost use Rattle.pt_prims.specs.Operations.{content_of, content_of_few, content_of_one, content_of_three, content_of_two};
ghost use Rattle.pt_prims.specs.Operations.{grown, placed, prim_answer, prim_heap};
ghost use Rattle.pt_prims.specs.Updates.{IsMade};

use crate::arithmetic::{binary_content, unary_content};
use crate::calls::call_content;
use crate::in_place::in_place_content;
use crate::spreads::{spread, spread_named};
use crate::subscripts::{add_to_dict, add_to_set, delete_subscript, set_subscript, subscript};
use crate::updates::update_of;
use pt_base::{Memory, ObjId, Seq, Text, What};
use pt_content::{Change, Content, NewObject, Op, PrimAns, add, add_values, apply};
use pt_heap::{Heap, Value};
use pt_methods::{
    comparison_content, dict_content, format_content, inverse_content, iterator_content,
    join_content, list_add_content, list_content, method_content, next_content, set_content,
    slice_content, starred_content, truth_content, tuple_content, unpack_content,
};
use pt_updates::update_at;
use std::alloc::Global;

/// What an operation on one value answers.
fn content_of_one(alloc: Global, op: Op, a: Value, heap: &Heap) -> Result<Content, Memory>
    ensures { IfOk result (λ content. content ≡ content_of_one op a heap.now) }
{
    match op {
        Op::Truth => Ok(truth_content(heap, a)),
        Op::Not => Ok(inverse_content(heap, a)),
        Op::Unary(op) => unary_content(alloc, op, heap, a),
        Op::Iter => iterator_content(alloc, heap, a),
        Op::Next => next_content(alloc, heap, a),
        Op::Unpack { count } => unpack_content(alloc, heap, count, a),
        Op::UnpackStar { before, after } => starred_content(alloc, heap, before, after, a),
        Op::SpreadOut => spread(alloc, heap, a),
        Op::SpreadNamed => spread_named(alloc, heap, a),
        _ => Ok(Content::Outside(What::Feature)),
    }
}

/// What an operation on two values answers.
fn content_of_two(alloc: Global, op: Op, a: Value, b: Value, heap: &Heap) -> Result<Content, Memory>
    ensures { IfOk result (λ content. content ≡ content_of_two op a b heap.now) }
{
    match op {
        Op::Binary(op) => binary_content(alloc, op, heap, a, b),
        Op::InPlace(op) => in_place_content(alloc, op, heap, a, b),
        Op::Compare(op) => comparison_content(alloc, op, heap, a, b),
        Op::Item => subscript(alloc, heap, a, b),
        Op::DelItem => delete_subscript(alloc, heap, a, b),
        Op::Format(conversion) => format_content(alloc, conversion, heap, a, b),
        Op::ListAdd => list_add_content(alloc, heap, a, b),
        Op::SetAdd => add_to_set(alloc, heap, a, b),
        _ => Ok(Content::Outside(What::Feature)),
    }
}

/// What an operation on three values answers.
fn content_of_three(
    alloc: Global,
    op: Op,
    a: Value,
    b: Value,
    c: Value,
    heap: &Heap,
) -> Result<Content, Memory>
    ensures { IfOk result (λ content. content ≡ content_of_three op a b c heap.now) }
{
    match op {
        Op::SetItem => set_subscript(alloc, heap, a, b, c),
        Op::Slice => Ok(slice_content(a, b, c)),
        Op::DictAdd => add_to_dict(alloc, heap, a, b, c),
        _ => Ok(Content::Outside(What::Feature)),
    }
}

/// What an operation that takes a set number of operands answers.
fn content_of_few(alloc: Global, op: Op, args: &[Value], heap: &Heap) -> Result<Content, Memory>
    ensures { IfOk result (λ content. content ≡ content_of_few op args.now heap.now) }
{
    match args {
        [a] => content_of_one(alloc, op, *a, heap),
        [a, b] => content_of_two(alloc, op, *a, *b, heap),
        [a, b, c] => content_of_three(alloc, op, *a, *b, *c, heap),
        _ => Ok(Content::Outside(What::Feature)),
    }
}

/// What an operation answers, with new objects that aren't in the heap yet.
fn content_of(alloc: Global, op: Op, args: &[Value], heap: &Heap) -> Result<Content, Memory>
    ensures { IfOk result (λ content. content ≡ content_of op args.now heap.now) }
{
    match op {
        Op::Tuple => Ok(tuple_content(Seq::from_slice(alloc, args)?)),
        Op::List => Ok(list_content(Seq::from_slice(alloc, args)?)),
        Op::Set => set_content(alloc, heap, args),
        Op::Dict => dict_content(alloc, heap, args),
        Op::Join => join_content(alloc, heap, args),
        Op::Call(function) => call_content(alloc, function, args, heap),
        Op::CallMethod(method) => method_content(alloc, method, args, heap),
        _ => content_of_few(alloc, op, args, heap),
    }
}

/// A new object that is the value, if the heap has room for it.
fn place_new(new: NewObject, heap: &mut Heap) -> Result<PrimAns, Memory>
    ensures answer { IfOk result (λ answer. answer ≡ placed (Content.New new) [] heap.old) }
    ensures ok { OnOk result (heap.new ≡ grown (Content.New new) heap.old) }
    ensures err { OnErr result (heap.new ≡ heap.old) }
{
    match add(heap, new)? {
        Some(value) => Ok(PrimAns::Value(value)),
        None => Ok(PrimAns::Outside { what: What::Heap }),
    }
}

/// New objects that are values, if the heap has room for them.
fn place_values(alloc: Global, objects: Seq<NewObject>, heap: &mut Heap) -> Result<PrimAns, Memory>
    ensures answer { IfOk result
        (λ answer. answer ≡ placed (Content.NewValues objects) [] heap.old) }
    ensures ok { OnOk result (heap.new ≡ grown (Content.NewValues objects) heap.old) }
    ensures err { OnErr result (heap.new ≡ heap.old) }
{
    match add_values(alloc, heap, objects)? {
        Some(values) => Ok(PrimAns::Values(values)),
        None => Ok(PrimAns::Outside { what: What::Heap }),
    }
}

/// An exception with its text, if the heap has room for that.
fn place_raise(class: ObjId, text: Text, heap: &mut Heap) -> Result<PrimAns, Memory>
    ensures answer { IfOk result
        (λ answer. answer ≡ placed (Content.Raise class text) [] heap.old) }
    ensures ok { OnOk result (heap.new ≡ grown (Content.Raise class text) heap.old) }
    ensures err { OnErr result (heap.new ≡ heap.old) }
{
    match add(heap, NewObject::Text(text))? {
        Some(value) => Ok(PrimAns::Raise {
            class,
            arg: Some(value),
        }),
        None => Ok(PrimAns::Outside { what: What::Heap }),
    }
}

/// A change with its answer, if the heap has room for its objects.
fn place_change(
    alloc: Global,
    change: Change,
    answer: PrimAns,
    heap: &mut Heap,
) -> Result<PrimAns, Memory>
    ensures answer { IfOk result
        (λ r. r ≡ placed (Content.Changed change answer) [] heap.old) }
    ensures ok { OnOk result (heap.new ≡ grown (Content.Changed change answer) heap.old) }
    ensures err { OnErr result (heap.new ≡ heap.old) }
{
    if apply(alloc, change, heap)? {
        return Ok(answer);
    }
    Ok(PrimAns::Outside { what: What::Heap })
}

/// Changes the heap as a content says, and answers as it does, of an operation on these operands.
fn place(
    alloc: Global,
    content: Content,
    args: &[Value],
    heap: &mut Heap,
) -> Result<PrimAns, Memory>
    ensures answer { IfOk result (λ answer. answer ≡ placed content args.now heap.old) }
    ensures ok { OnOk result (heap.new ≡ grown content heap.old) }
    ensures err { OnErr result (heap.new ≡ heap.old) }
{
    match content {
        Content::Value(value) => Ok(PrimAns::Value(value)),
        Content::New(new) => place_new(new, heap),
        Content::NewValues(objects) => place_values(alloc, objects, heap),
        Content::Raise { class, text } => place_raise(class, text, heap),
        Content::Help { helper, inverted } => {
            let operands = Seq::from_slice(alloc, args)?;
            Ok(PrimAns::Help {
                helper,
                operands,
                inverted,
            })
        }
        Content::Print(text) => Ok(PrimAns::Print { text }),
        Content::Outside(what) => Ok(PrimAns::Outside { what }),
        Content::Changed { change, answer } => place_change(alloc, change, answer, heap),
    }
}

/// What an operation does by what it answers.
fn answered(alloc: Global, op: Op, args: &[Value], heap: &mut Heap) -> Result<PrimAns, Memory>
    ensures answer { IfOk result (λ answer. answer ≡ prim_answer op args.now heap.old) }
    ensures heap { OnOk result (heap.new ≡ prim_heap op args.now heap.old) }
    ensures memory { OnErr result (heap.new ≡ heap.old) }
{
    let content = content_of(alloc, op, args, heap)?;
    place(alloc, content, args, heap)
}

/// Updates the object of an operation that is an update, and answers whether it did.
#[tactic(auto, using(crate::proofs::UpdateLemmas::left_alone, crate::proofs::UpdateLemmas::made_or_left))]
fn update(alloc: Global, op: Op, args: &[Value], heap: &mut Heap) -> Result<bool, Memory>
    ensures ok { IfOk result (IsMade op args.now heap.old heap.new) }
    ensures err { OnErr result (heap.new ≡ heap.old) }
{
    let Some((id, update)) = update_of(alloc, op, args, heap)? else {
        return Ok(false);
    };
    let done = update_at(heap, id, update)?;
    Ok(done)
}

/// What an operation on values answers. A new object, and the text of an exception, stand in the
/// heap behind the others; a list, dictionary, set or cursor may hold something else. Outside with
/// the cause Heap, with nothing changed, where it is full. Outside with the cause Feature for
/// operands, and for a number of them, that the operation isn't supported for. After Memory the
/// heap is as before. An item that is put into a list, dictionary or set is put into the object
/// itself, so that it costs nothing of what else is there.
pub fn prim(alloc: Global, op: Op, args: &[Value], heap: &mut Heap) -> Result<PrimAns, Memory>
    ensures answer { IfOk result (λ answer. answer ≡ prim_answer op args.now heap.old) }
    ensures heap { OnOk result (heap.new ≡ prim_heap op args.now heap.old) }
    ensures memory { OnErr result (heap.new ≡ heap.old) }
    ensures sound { IsSound start_objects heap.old → AllWithin heap.old args.now →
        IsSound start_objects heap.new }
{
    if update(alloc, op, args, heap)? {
        return Ok(PrimAns::Value(Value::None));
    }
    answered(alloc, op, args, heap)
}
