ghost use Rattle.std.specs.Prelude.{◌≡◌, IfOk};
ghost use Rattle.pt_tree.specs.Fold.{exp_of};
ghost use Rattle.pt_eval.specs.Answers.{answer, locals_at, no_value, outside_text, repr_of};
ghost use Rattle.pt_eval.specs.Answers.{shown, shown_text, whole};
ghost use Rattle.pt_eval.specs.Evaluation.{evaluated};
ghost use Rattle.pt_eval.specs.Steps.{Comes};

use crate::answer::EvalAns;
use crate::evaluation::value;
use crate::names::Names;
use crate::no_value::{NoValue, raised};
use crate::operations::truth;
use crate::purity::is_pure;
use crate::scratch::Scratch;
use pt_base::{Failure, Memory, Text, What};
use pt_content::{Content, NewObject};
use pt_heap::{Heap, Value, View};
use pt_reprs::repr_content;
use pt_tree::Expr;
use std::alloc::Global;
use std::mem;

/// The value of an expression in which nothing else runs as it is written.
fn evaluated(
    alloc: Global,
    names: &Names,
    scratch: &mut Scratch,
    e: &Expr,
) -> Result<Value, Failure<NoValue>>
    ensures came { Comes (evaluated names.now.locals.now names.now.globals.now (exp_of e.now)
        scratch.old.objects) result scratch.new.objects }
    ensures below { scratch.new.below ≡ scratch.old.below }
{
    if !is_pure(e) {
        return Err(Failure::Refused(NoValue::Refused));
    }
    value(alloc, names, scratch, e)
}

/// The text of a value, which doesn't go into the heap.
fn shown_text(alloc: Global, heap: &Heap, content: Content) -> Result<Text, Failure<NoValue>>
    ensures { Comes (shown_text content heap.now) result heap.now }
{
    match content {
        Content::New(NewObject::Text(text)) => Ok(text),
        Content::Raise { class, text } => {
            let error = raised(alloc, heap, class, text)?;
            Err(Failure::Refused(error))
        }
        Content::Help { .. } => Err(Failure::Refused(NoValue::Refused)),
        Content::Outside(what) => Err(Failure::Refused(NoValue::Outside(what))),
        _ => Err(Failure::Refused(NoValue::Outside(What::Feature))),
    }
}

/// The text of a value, by its `repr`.
#[tactic(auto, unfolding(crate::specs::Answers::repr_of))]
fn repr_of(alloc: Global, heap: &Heap, value: Value) -> Result<Text, Failure<NoValue>>
    ensures { Comes (repr_of value heap.now) result heap.now }
{
    let content = repr_content(alloc, heap, value)?;
    shown_text(alloc, heap, content)
}

/// A value by its `repr`, and whether it is true.
fn shown(alloc: Global, scratch: &mut Scratch, value: Value) -> Result<EvalAns, Failure<NoValue>>
    ensures came { Comes (shown value scratch.old.objects) result scratch.new.objects }
    ensures below { scratch.new.below ≡ scratch.old.below }
{
    let text = repr_of(alloc, scratch.heap(), value)?;
    let truth = truth(alloc, scratch, value)?;
    Ok(EvalAns::Shown { text, truth })
}

/// An expression by its value.
fn whole(
    alloc: Global,
    names: &Names,
    scratch: &mut Scratch,
    e: &Expr,
) -> Result<EvalAns, Failure<NoValue>>
    ensures came { Comes (whole names.now.locals.now names.now.globals.now (exp_of e.now)
        scratch.old.objects) result scratch.new.objects }
    ensures below { scratch.new.below ≡ scratch.old.below }
{
    let value = evaluated(alloc, names, scratch, e)?;
    shown(alloc, scratch, value)
}

/// What is told of a limit.
fn outside_text(alloc: Global, what: What) -> Result<Text, Memory>
    ensures { IfOk result (λ t. t ≡ outside_text what) }
{
    let text = format!(in alloc; "Outside: {what}")?;
    Text::from_str(alloc, text.as_str())
}

/// What is shown where there is no value.
fn no_value(alloc: Global, why: NoValue) -> Result<EvalAns, Memory>
    ensures { IfOk result (λ a. a ≡ no_value why) }
{
    match why {
        NoValue::Raised(text) => Ok(EvalAns::Raise { text }),
        NoValue::Outside(what) => {
            let told = outside_text(alloc, what)?;
            Ok(EvalAns::Raise { text: told })
        }
        NoValue::Refused => Ok(EvalAns::Refused),
    }
}

/// What is shown of an expression, whether or not it has a value.
fn answer(alloc: Global, names: &Names, scratch: &mut Scratch, e: &Expr) -> Result<EvalAns, Memory>
    ensures answer { IfOk result (λ a. a ≡ answer names.now.locals.now names.now.globals.now
        (exp_of e.now) scratch.old.objects) }
    ensures below { scratch.new.below ≡ scratch.old.below }
{
    match whole(alloc, names, scratch, e) {
        Ok(shown) => Ok(shown),
        Err(Failure::Refused(why)) => no_value(alloc, why),
        Err(Failure::Memory) => Err(Memory),
    }
}

/// The names of a frame of a view, none where it isn't there, and those of the module.
fn names_at<'a>(view: &'a View, frame: usize) -> Names<'a>
    ensures locals { result.locals.now ≡ locals_at view.now.frames frame }
    ensures globals { result.globals.now ≡ view.now.globals }
{
    let globals = view.globals.as_slice();
    match view.frames.get(frame) {
        Some(frame) => Names {
            locals: frame.locals.as_slice(),
            globals,
        },
        None => Names {
            locals: &[],
            globals,
        },
    }
}

/// What is shown of an expression in a frame of a view: its value by its `repr` and whether that is
/// true, an exception or a limit by its text, or that other code would run for it. The heap is as
/// before at every exit. It takes time in proportion to the tree, beside what its operations and
/// the search for its names take, and a stack that is as deep as the tree.
///
/// # Errors
///
/// `Memory` for want of it.
pub fn eval(
    alloc: Global,
    expr: &Expr,
    view: &View,
    frame: usize,
    heap: &mut Heap,
) -> Result<EvalAns, Memory>
    ensures answer { IfOk result (λ a. a ≡ answer (locals_at view.now.frames frame)
        view.now.globals (exp_of expr.now) heap.old) }
    ensures heap { heap.new ≡ heap.old }
{
    let names = names_at(view, frame);
    let empty = Heap::new(alloc, heap.seed());
    let mut scratch = Scratch::above(mem::replace(heap, empty));
    let answer = answer(alloc, &names, &mut scratch, expr);
    *heap = scratch.back();
    answer
}
