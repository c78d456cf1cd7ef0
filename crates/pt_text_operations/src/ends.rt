ghost use Rattle.std.specs.Prelude.{◌≡◌, reverse, IfOk};
ghost use Rattle.std.specs.Str.{chars};
ghost use Rattle.pt_content.specs.pt_attrs.Look.{object_of};
ghost use Rattle.pt_strs.specs.Cut.{begins_with};
ghost use Rattle.pt_text_operations.specs.Ends.{ends_content, one_stands, stands_at, truth};

use pt_base::Memory;
use pt_content::{Content, TYPE_ERROR, bad_argument, object_of, text_of};
use pt_heap::{Heap, Object, Value};
use pt_strs::Scan;
use std::alloc::Global;

/// An end of a text.
#[derive(Clone, Copy, Debug, PartialEq, Eq)]
pub enum End {
    Front,
    Back,
}

/// Whether a text begins with a part.
fn begins_with(text: &str, part: &str) -> bool
    ensures { result ≡ begins_with (chars text.now) (chars part.now) }
{
    let mut rest = Scan::new(text);
    let mut wanted = Scan::new(part);
    while let Some(c) = wanted.next() {
        match rest.next() {
            Some(d) if d == c => {}
            _ => return false,
        }
    }
    true
}

/// Whether a text ends with a part.
fn ends_with(text: &str, part: &str) -> bool
    ensures { result ≡ begins_with (reverse (chars text.now)) (reverse (chars part.now)) }
{
    let mut rest = Scan::new(text);
    let mut wanted = Scan::new(part);
    while let Some(c) = wanted.next_back() {
        match rest.next_back() {
            Some(d) if d == c => {}
            _ => return false,
        }
    }
    true
}

/// Whether a part stands at an end of a text.
fn stands_at(end: End, part: &str, text: &str) -> bool
    ensures { result ≡ stands_at end (chars part.now) (chars text.now) }
{
    match end {
        End::Front => begins_with(text, part),
        End::Back => ends_with(text, part),
    }
}

fn truth(holds: bool) -> Content
    ensures { result ≡ truth holds }
{
    Content::Value(Value::Bool(holds))
}

/// Whether one of some texts stands at an end of a text. Those behind the first that does aren't looked
/// at.
fn one_stands(
    alloc: Global,
    end: End,
    heap: &Heap,
    text: &str,
    parts: &[Value],
) -> Result<Content, Memory>
    ensures { IfOk result
        (λ content. content ≡ one_stands end heap.now (chars text.now) parts.now) }
{
    for part in parts {
        let Some(part) = text_of(heap, *part) else {
            return bad_argument(alloc, TYPE_ERROR);
        };
        if stands_at(end, part.text().as_str(), text) {
            return Ok(truth(true));
        }
    }
    Ok(truth(false))
}

/// `startswith` and `endswith`, of a text, or of a tuple of texts (Library Reference, "String
/// Methods"). A TypeError for what is none.
pub fn ends_content(
    alloc: Global,
    end: End,
    heap: &Heap,
    text: &str,
    part: Value,
) -> Result<Content, Memory>
    ensures { IfOk result (λ content. content ≡ ends_content end heap.now text.now part) }
{
    match object_of(heap, part) {
        Some(Object::Tuple(parts)) => one_stands(alloc, end, heap, text, parts.as_slice()),
        _ => one_stands(alloc, end, heap, text, &[part]),
    }
}
