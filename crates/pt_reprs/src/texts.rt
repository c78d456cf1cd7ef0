ghost use Rattle.std.specs.Prelude.{◌≡◌, ◌<◌, ◌-◌, [], ◌∷◌, ◌++◌, Ok, Err, List, ℕ, false, IfOk};
ghost use Rattle.std.specs.Option.{option_map};
ghost use Rattle.pt_content.specs.pt_attrs.Look.{object_of};
ghost use Rattle.pt_content.specs.declared.content.Content.{Content};
ghost use Rattle.pt_content.specs.declared.content.Content.TheVariants as content;
ghost use Rattle.pt_reprs.specs.Pieces.{Writes};
ghost use Rattle.pt_reprs.specs.Reprs.{repr_pieces};
ghost use Rattle.pt_reprs.specs.Texts.{args_pieces, behind_separators, between_separators};
ghost use Rattle.pt_reprs.specs.Texts.{by_text, error_content, error_pieces, error_within, new_text};
ghost use Rattle.pt_reprs.specs.Texts.{object_text, print_content, printed, repr_content};
ghost use Rattle.pt_reprs.specs.Texts.{str_content, str_pieces, text_content, text_or};

use crate::reached::{need_help, needs_help};
use crate::repr::{DEPTH_LIMIT, push_repr, push_tuple};
use crate::{WriteErr, Writer};
use pt_base::{Failure, Memory, ObjId, Text, What};
use pt_content::{
    Content, Helper, NewObject, RECURSION_ERROR, TYPE_ERROR, bad_argument, object_of, raise,
    text_of,
};
use pt_heap::{Error, Heap, Object, Value};
use pt_strs::LENGTH_LIMIT;
use std::alloc::Global;

/// The place of the class of exceptions whose text is the `repr` of their argument.
pub const KEY_ERROR: ObjId = ObjId(38);

/// A new text.
pub fn new_text(text: Text) -> Content
    ensures { result ≡ new_text text }
{
    Content::New(NewObject::Text(text))
}

fn asked(helper: Helper) -> Content
    ensures { result ≡ content.Help helper false }
{
    Content::Help {
        helper,
        inverted: false,
    }
}

/// What is answered where a text can't be written.
pub fn unwritten(alloc: Global, error: WriteErr) -> Result<Content, Memory>
    ensures { IfOk result
        (λ content. (make : List ℕ → Content) → content ≡ by_text make (Err error)) }
{
    match error {
        WriteErr::Deep => raise(alloc, RECURSION_ERROR, "too many activations"),
        WriteErr::Length => Ok(Content::Outside(What::Length)),
        WriteErr::Feature => Ok(Content::Outside(What::Feature)),
    }
}

/// `repr` of a value that needs no methods of a script. Errors as those of `repr`.
pub fn repr_text(alloc: Global, heap: &Heap, value: Value) -> Result<Content, Memory>
    ensures { IfOk result (λ content. content ≡ text_content (repr_pieces heap.now value)) }
{
    let mut writer = Writer::new(alloc, LENGTH_LIMIT);
    match push_repr(alloc, heap, &mut writer, value) {
        Ok(()) => Ok(new_text(writer.text)),
        Err(Failure::Refused(error)) => unwritten(alloc, error),
        Err(Failure::Memory) => Err(Memory),
    }
}

/// `repr` (Library Reference, "Built-in Functions"). A RecursionError where more than 1,000
/// containers stand inside one another, Outside with the cause Length beyond the greatest length of
/// a text, whichever comes first from left to right.
pub fn repr_content(alloc: Global, heap: &Heap, value: Value) -> Result<Content, Memory>
    ensures { IfOk result (λ content. content ≡ repr_content heap.now value) }
{
    if needs_help(alloc, heap, value)? {
        return Ok(asked(Helper::ReprOf));
    }
    repr_text(alloc, heap, value)
}

/// Writes what `str` gives of the arguments of an exception, of a KeyError or another one. So many
/// exceptions may stand inside one another, it among them.
#[cycle(strs)]
fn push_args(
    alloc: Global,
    heap: &Heap,
    writer: &mut Writer,
    of_key: bool,
    args: &[Value],
    depth: u32,
) -> Result<(), Failure<WriteErr>>
    requires { 0 < depth }
    ensures { Writes writer.old writer.new result (args_pieces heap.now
        (λ v. object_text heap.now (error_within heap.now (depth - 1)) v (object_of heap.now v))
        of_key args.now) }
{
    match args {
        [] => Ok(()),
        [arg] if of_key => push_repr(alloc, heap, writer, *arg),
        [arg] => push_text_within(alloc, heap, writer, *arg, depth - 1),
        _ => push_tuple(alloc, heap, writer, args),
    }
}

/// Writes what `str` gives of an exception. So many may stand inside one another, it among them.
#[cycle(strs)]
fn push_error_within(
    alloc: Global,
    heap: &Heap,
    writer: &mut Writer,
    error: &Error,
    depth: u32,
) -> Result<(), Failure<WriteErr>>
    ensures { Writes writer.old writer.new result (error_within heap.now depth error.now) }
{
    if depth == 0 {
        return Err(Failure::Refused(WriteErr::Deep));
    }
    let of_key = error.class.0 == KEY_ERROR.0;
    push_args(alloc, heap, writer, of_key, error.args.as_slice(), depth)
}

/// Writes what `str` gives of a value. So many exceptions may stand inside one another.
#[cycle(strs)]
fn push_text_within(
    alloc: Global,
    heap: &Heap,
    writer: &mut Writer,
    value: Value,
    depth: u32,
) -> Result<(), Failure<WriteErr>>
    ensures { Writes writer.old writer.new result
        (object_text heap.now (error_within heap.now depth) value (object_of heap.now value)) }
{
    match object_of(heap, value) {
        Some(Object::Str(text)) => writer.push(text.text().as_str()),
        Some(Object::Error(error)) => push_error_within(alloc, heap, writer, error, depth),
        _ => push_repr(alloc, heap, writer, value),
    }
}

/// Writes what `str` gives of a value.
fn push_text(
    alloc: Global,
    heap: &Heap,
    writer: &mut Writer,
    value: Value,
) -> Result<(), Failure<WriteErr>>
    ensures { Writes writer.old writer.new result (str_pieces heap.now value) }
{
    push_text_within(alloc, heap, writer, value, DEPTH_LIMIT)
}

fn str_text(alloc: Global, heap: &Heap, value: Value) -> Result<Content, Memory>
    ensures { IfOk result (λ content. content ≡ text_content (str_pieces heap.now value)) }
{
    let mut writer = Writer::new(alloc, LENGTH_LIMIT);
    match push_text(alloc, heap, &mut writer, value) {
        Ok(()) => Ok(new_text(writer.text)),
        Err(Failure::Refused(error)) => unwritten(alloc, error),
        Err(Failure::Memory) => Err(Memory),
    }
}

fn error_text(alloc: Global, heap: &Heap, error: &Error) -> Result<Content, Memory>
    ensures { IfOk result (λ content. content ≡ text_content (error_pieces heap.now error.now)) }
{
    let mut writer = Writer::new(alloc, LENGTH_LIMIT);
    match push_error_within(alloc, heap, &mut writer, error, DEPTH_LIMIT) {
        Ok(()) => Ok(new_text(writer.text)),
        Err(Failure::Refused(error)) => unwritten(alloc, error),
        Err(Failure::Memory) => Err(Memory),
    }
}

/// `str` of a value (Library Reference, "Text Sequence Type"). A text is its own. Errors as those
/// of `repr`; also a RecursionError where more than 1,000 exceptions stand inside one another.
pub fn str_content(alloc: Global, heap: &Heap, value: Value) -> Result<Content, Memory>
    ensures { IfOk result (λ content. content ≡ str_content heap.now value) }
{
    if text_of(heap, value).is_some() {
        return Ok(Content::Value(value));
    }
    if needs_help(alloc, heap, value)? {
        return Ok(asked(Helper::StrOf));
    }
    str_text(alloc, heap, value)
}

/// `str` of an exception (Library Reference, "Built-in Exceptions"). Errors as those of `str`.
pub fn error_content(alloc: Global, heap: &Heap, error: &Error) -> Result<Content, Memory>
    ensures { IfOk result (λ content. content ≡ error_content heap.now error.now) }
{
    if need_help(alloc, heap, error.args.as_slice())? {
        return Ok(asked(Helper::StrOf));
    }
    error_text(alloc, heap, error)
}

/// Writes values, a separator before each.
fn push_behind_separators(
    alloc: Global,
    heap: &Heap,
    writer: &mut Writer,
    separator: &str,
    values: &[Value],
) -> Result<(), Failure<WriteErr>>
    ensures { Writes writer.old writer.new result
        (behind_separators heap.now separator.now values.now) }
{
    for value in values {
        writer.push(separator)?;
        push_text(alloc, heap, writer, *value)?;
    }
    Ok(())
}

/// Writes values, a separator between them.
fn push_between_separators(
    alloc: Global,
    heap: &Heap,
    writer: &mut Writer,
    separator: &str,
    values: &[Value],
) -> Result<(), Failure<WriteErr>>
    ensures { Writes writer.old writer.new result
        (between_separators heap.now separator.now values.now) }
{
    match values {
        [] => Ok(()),
        [first, rest @ ..] => {
            push_text(alloc, heap, writer, *first)?;
            push_behind_separators(alloc, heap, writer, separator, rest)
        }
    }
}

/// Writes values, a separator between them, and an end.
fn push_all(
    alloc: Global,
    heap: &Heap,
    writer: &mut Writer,
    separator: &str,
    end: &str,
    values: &[Value],
) -> Result<(), Failure<WriteErr>>
    ensures { Writes writer.old writer.new result
        (between_separators heap.now separator.now values.now ++ Ok end.now ∷ []) }
{
    push_between_separators(alloc, heap, writer, separator, values)?;
    writer.push(end)
}

fn printed(
    alloc: Global,
    heap: &Heap,
    separator: &str,
    end: &str,
    values: &[Value],
) -> Result<Content, Memory>
    ensures { IfOk result
        (λ content. content ≡ printed heap.now separator.now end.now values.now) }
{
    if need_help(alloc, heap, values)? {
        return Ok(asked(Helper::PrintOf));
    }
    let mut writer = Writer::new(alloc, LENGTH_LIMIT);
    match push_all(alloc, heap, &mut writer, separator, end, values) {
        Ok(()) => Ok(Content::Print(writer.text)),
        Err(Failure::Refused(error)) => unwritten(alloc, error),
        Err(Failure::Memory) => Err(Memory),
    }
}

/// A text, or the usual one for None. Another value is none.
fn text_or<'a>(usual: &'a str, heap: &'a Heap, value: Value) -> Option<&'a str>
    ensures { option_map (λ t. t.now) result ≡ text_or usual.now heap.now value }
{
    match value {
        Value::None => Some(usual),
        _ => match text_of(heap, value) {
            Some(text) => Some(text.text().as_str()),
            None => None,
        },
    }
}

/// `print` of values, with what stands between them and behind them, None for the usual (Library
/// Reference, "Built-in Functions"). Errors as those of `repr`, of the whole text that is printed.
pub fn print_content(
    alloc: Global,
    heap: &Heap,
    separator: Value,
    end: Value,
    values: &[Value],
) -> Result<Content, Memory>
    ensures { IfOk result
        (λ content. content ≡ print_content heap.now separator end values.now) }
{
    match (text_or(" ", heap, separator), text_or("\n", heap, end)) {
        (Some(separator), Some(end)) => printed(alloc, heap, separator, end, values),
        _ => bad_argument(alloc, TYPE_ERROR),
    }
}
