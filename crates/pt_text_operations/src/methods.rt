ghost use Rattle.std.specs.Prelude.{◌≡◌, IfOk};
ghost use Rattle.std.specs.Option.{option_copied, option_map};
ghost use Rattle.pt_content.specs.pt_attrs.Look.{object_of};
ghost use Rattle.pt_content.specs.Operands.{text_of};
ghost use Rattle.pt_text_operations.specs.Methods.{count_by, find_by, join_by};
ghost use Rattle.pt_text_operations.specs.Methods.{place_or_none, replaced_by, split_at, split_content};
ghost use Rattle.pt_text_operations.specs.Methods.{strip_content, stripped_of, text_method_content};
ghost use Rattle.pt_text_operations.specs.Methods.{text_or_blanks};

use crate::answer::answered;
use crate::ends::{End, ends_content};
use crate::joining::joined_content;
use crate::lists::listed_if;
use crate::occurrences::occurrences;
use pt_base::{Memory, Text, What};
use pt_content::{Content, Helper, MethodName, TYPE_ERROR, bad_argument, object_of, text_of};
use pt_heap::{Heap, Object, Str, Value};
use pt_strs::{find, replace, split, strip};
use std::alloc::Global;

/// `join`, of a list or tuple of texts. Of another value the helper makes a list first.
fn join_by(alloc: Global, heap: &Heap, sep: &Text, parts: Value) -> Result<Content, Memory>
    ensures { IfOk result
        (λ content. content ≡ join_by heap.now sep.now (object_of heap.now parts)) }
{
    match object_of(heap, parts) {
        Some(Object::List(parts)) => joined_content(alloc, heap, sep, parts.as_slice()),
        Some(Object::Tuple(parts)) => joined_content(alloc, heap, sep, parts.as_slice()),
        _ => Ok(Content::Help {
            helper: Helper::JoinOf,
            inverted: false,
        }),
    }
}

/// A text, or None, which stands for blanks.
fn text_or_blanks(heap: &Heap, value: Value) -> Option<Option<&Text>>
    ensures { option_map (option_map (λ t. t.now)) result ≡ text_or_blanks heap.now value }
{
    match value {
        Value::None => Some(None),
        _ => match text_of(heap, value) {
            Some(text) => Some(Some(text.text())),
            None => None,
        },
    }
}

fn split_at(
    alloc: Global,
    heap: &Heap,
    text: &Text,
    sep: Option<Option<&Text>>,
) -> Result<Content, Memory>
    ensures { IfOk result (λ content. content
        ≡ split_at heap.now text.now (option_map (option_map (λ t. t.now)) sep.entry)) }
{
    match sep {
        Some(sep) => listed_if(alloc, heap, split(alloc, text, sep)),
        None => bad_argument(alloc, TYPE_ERROR),
    }
}

fn split_content(alloc: Global, heap: &Heap, text: &Text, args: &[Value]) -> Result<Content, Memory>
    ensures { IfOk result (λ content. content ≡ split_content heap.now text.now args.now) }
{
    match args {
        [] => split_at(alloc, heap, text, Some(None)),
        [sep] => split_at(alloc, heap, text, text_or_blanks(heap, *sep)),
        _ => Ok(Content::Outside(What::Feature)),
    }
}

fn stripped_of(
    alloc: Global,
    left: bool,
    right: bool,
    text: &Text,
    set: Option<Option<&Text>>,
) -> Result<Content, Memory>
    ensures { IfOk result (λ content. content
        ≡ stripped_of left right text.now (option_map (option_map (λ t. t.now)) set.entry)) }
{
    match set {
        Some(set) => answered(alloc, strip(alloc, text, set, left, right)),
        None => bad_argument(alloc, TYPE_ERROR),
    }
}

fn strip_content(
    alloc: Global,
    left: bool,
    right: bool,
    heap: &Heap,
    text: &Text,
    args: &[Value],
) -> Result<Content, Memory>
    ensures { IfOk result
        (λ content. content ≡ strip_content left right heap.now text.now args.now) }
{
    match args {
        [] => stripped_of(alloc, left, right, text, Some(None)),
        [set] => stripped_of(alloc, left, right, text, text_or_blanks(heap, *set)),
        _ => Ok(Content::Outside(What::Feature)),
    }
}

fn replaced_by(
    alloc: Global,
    text: &Text,
    old: Option<&Str>,
    new: Option<&Str>,
) -> Result<Content, Memory>
    ensures { IfOk result (λ content. content
        ≡ replaced_by text.now (option_copied old.entry) (option_copied new.entry)) }
{
    match (old, new) {
        (Some(old), Some(new)) => answered(alloc, replace(alloc, text, old.text(), new.text())),
        _ => bad_argument(alloc, TYPE_ERROR),
    }
}

/// The place of a part, or -1.
fn place_or_none(place: Option<u64>) -> Content
    ensures { result ≡ place_or_none place }
{
    let place = match place {
        Some(place) => place as i128,
        None => -1,
    };
    Content::Value(Value::Int(place))
}

fn find_by(alloc: Global, text: &Text, part: Option<&Str>) -> Result<Content, Memory>
    ensures { IfOk result (λ content. content ≡ find_by text.now (option_copied part.entry)) }
{
    match part {
        Some(part) => Ok(place_or_none(find(text, part.text()))),
        None => bad_argument(alloc, TYPE_ERROR),
    }
}

fn count_by(alloc: Global, text: &Text, part: Option<&Str>) -> Result<Content, Memory>
    ensures { IfOk result (λ content. content ≡ count_by text.now (option_copied part.entry)) }
{
    match part {
        Some(part) => {
            let count = occurrences(text.as_str(), part.text().as_str());
            Ok(Content::Value(Value::Int(count as i128)))
        }
        None => bad_argument(alloc, TYPE_ERROR),
    }
}

/// A call of a method of a text (Library Reference, "String Methods"). A TypeError for an argument of a
/// wrong class, a ValueError for an empty separator. `join` of what is neither list nor tuple asks the
/// helper. Outside with the cause Length for a text or a list that would be too long, with the cause
/// Feature for another number of arguments and for a name that texts don't have.
pub fn text_method_content(
    alloc: Global,
    name: MethodName,
    heap: &Heap,
    text: &Text,
    args: &[Value],
) -> Result<Content, Memory>
    ensures { IfOk result
        (λ content. content ≡ text_method_content name heap.now text.now args.now) }
{
    match (name, args) {
        (MethodName::Join, [parts]) => join_by(alloc, heap, text, *parts),
        (MethodName::Split, args) => split_content(alloc, heap, text, args),
        (MethodName::Strip, args) => strip_content(alloc, true, true, heap, text, args),
        (MethodName::Lstrip, args) => strip_content(alloc, true, false, heap, text, args),
        (MethodName::Rstrip, args) => strip_content(alloc, false, true, heap, text, args),
        (MethodName::Replace, [old, new]) => {
            replaced_by(alloc, text, text_of(heap, *old), text_of(heap, *new))
        }
        (MethodName::Find, [part]) => find_by(alloc, text, text_of(heap, *part)),
        (MethodName::Startswith, [part]) => {
            ends_content(alloc, End::Front, heap, text.as_str(), *part)
        }
        (MethodName::Endswith, [part]) => {
            ends_content(alloc, End::Back, heap, text.as_str(), *part)
        }
        (MethodName::Count, [part]) => count_by(alloc, text, text_of(heap, *part)),
        _ => Ok(Content::Outside(What::Feature)),
    }
}
