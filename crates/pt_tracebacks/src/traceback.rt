//! What is told of the exceptions of a chain.

ghost use Rattle.std.specs.Prelude.{◌≡◌, IfOk, map, reverse};
ghost use Rattle.pt_tracebacks.specs.Summaries.{error_text, frame_summary, given_text};
ghost use Rattle.pt_tracebacks.specs.Summaries.{summaries, summary};

use crate::chain::{Link, chain};
use crate::{BlockNames, ExceptionSummary, FrameSummary};
use pt_base::{Memory, Seq, Text};
use pt_content::{Content, NewObject, name_at};
use pt_heap::{Error, Heap, TraceEntry, Value};
use pt_reprs::error_content;
use std::alloc::{AllocError, Global};

/// The text that is given, the empty one where there is none.
fn given_text(alloc: Global, content: Content) -> Text
    ensures { result ≡ given_text content }
{
    match content {
        Content::New(NewObject::Text(text)) => text,
        _ => Text::new(alloc),
    }
}

/// What `str` gives of an exception.
fn error_text(alloc: Global, heap: &Heap, error: &Error) -> Result<Text, Memory>
    ensures { IfOk result (λ text. text ≡ error_text heap.now error.now) }
{
    Ok(given_text(alloc, error_content(alloc, heap, error)?))
}

fn frame_summary<N: BlockNames>(
    alloc: Global,
    names: &N,
    entry: TraceEntry,
) -> Result<FrameSummary, Memory>
    ensures { IfOk result (λ frame. frame ≡ frame_summary (N.name names.now) entry) }
{
    let block = Text::from_str(alloc, names.name(entry.block))?;
    Ok(FrameSummary {
        line: entry.line,
        block,
    })
}

/// Entries, the most recent call last.
fn oldest_first(alloc: Global, trace: &[TraceEntry]) -> Result<Vec<TraceEntry>, AllocError>
    ensures { IfOk result (λ v. v.items ≡ reverse trace.now) }
{
    trace.iter().rev().copied().collect(alloc)
}

/// The frames of entries.
fn frames<N: BlockNames>(
    alloc: Global,
    names: &N,
    trace: &[TraceEntry],
) -> Result<Seq<FrameSummary>, Memory>
    ensures { IfOk result (λ frames. frames ≡ map (frame_summary (N.name names.now)) trace.now) }
{
    let mut frames = Seq::new(alloc);
    for entry in trace {
        let frame = frame_summary(alloc, names, *entry)?;
        frames.push(frame)?;
    }
    Ok(frames)
}

fn summary<N: BlockNames>(
    alloc: Global,
    heap: &Heap,
    names: &N,
    link: Link,
) -> Result<ExceptionSummary, Memory>
    ensures { IfOk result (λ told.
        told ≡ summary (N.name names.now) heap.now (link.entry.error.now, link.entry.role)) }
{
    let error = link.error;
    let trace = oldest_first(alloc, error.trace.as_slice())?;
    let stack = frames(alloc, names, trace.as_slice())?;
    let class = Text::from_str(alloc, name_at(heap, error.class))?;
    let text = error_text(alloc, heap, error)?;
    Ok(ExceptionSummary {
        stack,
        class,
        text,
        role: link.role,
    })
}

/// What is told of exceptions, one by one.
fn each_summary<N: BlockNames>(
    alloc: Global,
    heap: &Heap,
    names: &N,
    links: &[Link],
) -> Result<Seq<ExceptionSummary>, Memory>
    ensures { IfOk result (λ told. told ≡ map (summary (N.name names.now) heap.now)
        (map (λ l. (l.error.now, l.role)) links.now)) }
{
    let mut told = Seq::new(alloc);
    for link in links {
        let next = summary(alloc, heap, names, *link)?;
        told.push(next)?;
    }
    Ok(told)
}

/// Links, the earliest exception first.
fn earliest_first<'a>(alloc: Global, links: &[Link<'a>]) -> Result<Vec<Link<'a>>, AllocError>
    ensures { IfOk result (λ v. v.items ≡ reverse links.now) }
{
    links.iter().rev().copied().collect(alloc)
}

/// What a traceback tells of an exception and of those that are reported with it, this one last, in
/// time and memory linear in the heap and in what is told.
///
/// # Errors
///
/// `Memory` for want of it.
pub fn summaries<N: BlockNames>(
    alloc: Global,
    heap: &Heap,
    names: &N,
    exception: Value,
) -> Result<Seq<ExceptionSummary>, Memory>
    ensures { IfOk result (λ told. told ≡ summaries (N.name names.now) heap.now exception) }
{
    match exception {
        Value::Obj(id) => {
            let links = chain(alloc, heap, id)?;
            let links = earliest_first(alloc, links.as_slice())?;
            each_summary(alloc, heap, names, links.as_slice())
        }
        _ => Ok(Seq::new(alloc)),
    }
}
