ghost use Rattle.std.specs.Prelude.{◌≡◌, [], ◌∷◌, IfOk};
ghost use Rattle.pt_builtins.specs.pt_host.Primitives.{arguments_of};
ghost use Rattle.pt_eval.specs.NoValues.{error_of, exception_text, given_text, raised, raised_with};

use pt_base::{Memory, ObjId, Seq, Text, What};
use pt_content::{Content, NewObject, name_at, sentence};
use pt_heap::{Dict, Error, Heap, Value};
use pt_reprs::error_content;
use std::alloc::Global;

/// Why an evaluation gives no value.
#[derive(Debug, Drop)]
pub enum NoValue {
    /// An exception, by its class and its text.
    Raised(Text),
    /// A limit, or what the language doesn't have here.
    Outside(What),
    /// Other code would run.
    Refused,
}

/// An exception by its class and its text, or by its class alone where that is empty.
fn exception_text(alloc: Global, class: &str, text: Text) -> Result<Text, Memory>
    ensures { IfOk result (λ t. t ≡ exception_text class.now text) }
{
    if text.is_empty() {
        return Text::from_str(alloc, class);
    }
    sentence(alloc, &[class, ": ", text.as_str()])
}

/// An exception of a class with a text.
pub fn raised(alloc: Global, heap: &Heap, class: ObjId, text: Text) -> Result<NoValue, Memory>
    ensures { IfOk result (λ e. e ≡ raised heap.now class text) }
{
    let text = exception_text(alloc, name_at(heap, class), text)?;
    Ok(NoValue::Raised(text))
}

/// The argument of an exception, if it has one.
fn arguments_of(alloc: Global, argument: Option<Value>) -> Result<Seq<Value>, Memory>
    ensures { IfOk result (λ args. args ≡ arguments_of argument) }
{
    let mut args = Seq::new(alloc);
    if let Some(value) = argument {
        args.push(value)?;
    }
    Ok(args)
}

/// An exception that doesn't go into the heap.
fn error_of(
    alloc: Global,
    heap: &Heap,
    class: ObjId,
    argument: Option<Value>,
) -> Result<Error, Memory>
    ensures { IfOk result (λ e. e ≡ error_of class argument) }
{
    Ok(Error {
        class,
        args: arguments_of(alloc, argument)?,
        cause: None,
        context: None,
        hides_context: false,
        trace: Seq::new(alloc),
        names: Dict::new(alloc, heap.seed()),
    })
}

/// The text that is given, none where a method of a script would be asked or no text is there.
fn given_text(alloc: Global, content: Content) -> Text
    ensures { result ≡ given_text content }
{
    match content {
        Content::New(NewObject::Text(text)) => text,
        _ => Text::new(alloc),
    }
}

/// An exception of a class with its argument, if it has one.
pub fn raised_with(
    alloc: Global,
    heap: &Heap,
    class: ObjId,
    argument: Option<Value>,
) -> Result<NoValue, Memory>
    ensures { IfOk result (λ e. e ≡ raised_with heap.now class argument) }
{
    let error = error_of(alloc, heap, class, argument)?;
    let content = error_content(alloc, heap, &error)?;
    raised(alloc, heap, class, given_text(alloc, content))
}
