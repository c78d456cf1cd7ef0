ghost use Rattle.std.specs.Prelude.{◌≡◌, IfOk};
ghost use Rattle.pt_text_operations.specs.Answers.{joined_content, texts_of};

use crate::answer::answered;
use pt_base::{Dup, Memory, Seq, Text};
use pt_content::{Content, TYPE_ERROR, bad_argument, text_of};
use pt_heap::{Heap, Value};
use pt_strs::join;
use std::alloc::Global;

/// The texts that values are, if each is one.
fn texts_of(alloc: Global, heap: &Heap, values: &[Value]) -> Result<Option<Seq<Text>>, Memory>
    ensures { IfOk result (λ texts. texts ≡ texts_of heap.now values.now) }
{
    let mut texts = Seq::new(alloc);
    for value in values {
        let Some(text) = text_of(heap, *value) else {
            return Ok(None);
        };
        texts.push(text.text().dup(alloc)?)?;
    }
    Ok(Some(texts))
}

/// Texts with another between them (Library Reference, `str.join`). A TypeError for a value that is no
/// text, Outside with the cause Length beyond the greatest length of a text.
pub fn joined_content(
    alloc: Global,
    heap: &Heap,
    sep: &Text,
    values: &[Value],
) -> Result<Content, Memory>
    ensures { IfOk result (λ content. content ≡ joined_content heap.now sep.now values.now) }
{
    match texts_of(alloc, heap, values)? {
        Some(texts) => answered(alloc, join(alloc, sep, texts.as_slice())),
        None => bad_argument(alloc, TYPE_ERROR),
    }
}
