//! Each call that takes memory, run with ample memory, and the objects of the outside in memory.

use pt_base::*;
use std::test::Fail;

#[test]
fn lists_grow_and_shrink(rt: HostRuntime) -> Result<(), Fail> {
    let mut list = Seq::from_slice(rt.alloc(), &[1u32, 2])?;
    list.push(3)?;
    list.set(0, 7);
    assert_eq!(rt; list.as_slice(), [7, 2, 3].as_slice());
    assert_eq!(rt; list.get(2), Some(&3));
    assert_eq!(rt; list.get(3), None);
    assert_eq!(rt; list.dup(rt.alloc())?.as_slice(), list.as_slice());
    list.truncate(2);
    assert_eq!(rt; list.pop(), Some(2));
    assert_eq!(rt; list.len(), 1);
    assert!(rt; !list.is_empty());
    let mut none = Seq::new(rt.alloc());
    assert_eq!(rt; none.pop(), None);
    none.push(1u8)?;
    let items = Vec::from_slice(rt.alloc(), &[1u8])?;
    assert_eq!(rt; none.as_slice(), Seq::from_vec(items).as_slice());
    Ok(())
}

#[test]
fn a_stack_gives_back_the_last_first(rt: HostRuntime) -> Result<(), Fail> {
    let mut stack = Stack::new(rt.alloc());
    assert_eq!(rt; stack.pop(), None);
    stack.push(1u32)?;
    stack.push(2)?;
    assert_eq!(rt; stack.len(), 2);
    assert_eq!(rt; stack.pop(), Some(2));
    assert_eq!(rt; stack.pop(), Some(1));
    assert!(rt; stack.is_empty());
    Ok(())
}

#[test]
fn boxed_and_shared_values_stay_what_they_are(rt: HostRuntime) -> Result<(), Fail> {
    let boxed = Boxed::new(rt.alloc(), 7u64)?;
    assert_eq!(rt; *boxed.get(), 7);
    assert_eq!(rt; boxed.dup(rt.alloc())?.into_inner(), 7);
    let text = Text::from_str(rt.alloc(), "ab")?;
    let shared = Shared::new(rt.alloc(), text)?;
    let other = shared.share()?;
    assert_eq!(rt; shared.get().as_str(), "ab");
    assert_eq!(rt; other.get().as_str(), "ab");
    Ok(())
}

#[test]
fn texts_grow(rt: HostRuntime) -> Result<(), Fail> {
    let mut text = Text::new(rt.alloc());
    assert!(rt; text.is_empty());
    text.push_str("a")?;
    text.push_str("\u{e9}")?;
    assert_eq!(rt; text.as_str(), "a\u{e9}");
    assert_eq!(rt; text.len(), 3);
    let copy = text.dup(rt.alloc())?;
    assert!(rt; copy.is("a\u{e9}"));
    assert!(rt; !copy.is("a"));
    Ok(())
}

#[test]
fn plain_values_are_copied(rt: HostRuntime) -> Result<(), Fail> {
    assert_eq!(rt; 255u8.dup(rt.alloc())?, 255);
    assert_eq!(rt; u32::MAX.dup(rt.alloc())?, u32::MAX);
    assert_eq!(rt; u64::MAX.dup(rt.alloc())?, u64::MAX);
    assert_eq!(rt; Line(3).dup(rt.alloc())?, Line(3));
    Ok(())
}

#[test]
fn a_budget_is_taken_to_its_limit(rt: HostRuntime) -> Result<(), Fail> {
    let mut budget = Budget::new(2);
    assert!(rt; budget.take());
    let mut copy = budget.dup(rt.alloc())?;
    assert!(rt; budget.take());
    assert!(rt; !budget.take());
    assert_eq!(rt; budget.taken(), 2);
    assert_eq!(rt; copy.taken(), 1);
    assert!(rt; copy.take());
    assert!(rt; !copy.take());
    Ok(())
}

#[test]
fn a_shelf_in_memory_reads_what_it_holds(rt: HostRuntime) -> Result<(), Fail> {
    let mut files = Seq::new(rt.alloc());
    for (name, text) in [("a", "one"), ("b", ""), ("a", "two")] {
        let name = Text::from_str(rt.alloc(), name)?;
        files.push((name, Seq::from_slice(rt.alloc(), text.as_bytes())?))?;
    }
    let mut shelf = MemShelf::new(files, Seq::from_slice(rt.alloc(), &[2u64])?);
    let rows: [(&str, u64, Result<&str, ShelfErr>); 6] = [
        ("a", 3, Ok("one")),
        ("a", 3, Err(ShelfErr::Failed)),
        ("a", 2, Err(ShelfErr::TooLong)),
        ("b", 0, Ok("")),
        ("c", 9, Err(ShelfErr::Failed)),
        ("a", u64::MAX, Ok("one")),
    ];
    for (name, max, want) in rows {
        let got = shelf.read(rt.alloc(), name, max);
        let got = got.as_ref().map(|text| text.as_slice()).map_err(|e| *e);
        assert_eq!(rt; got, want.map(|text| text.as_bytes()), "at {name} {max}");
    }
    Ok(())
}

#[test]
fn a_sink_in_memory_takes_pieces(rt: HostRuntime) -> Result<(), Fail> {
    let mut sink = MemSink::new(rt.alloc(), Seq::from_slice(rt.alloc(), &[2u64])?);
    assert_eq!(rt; sink.write(b"one"), Ok(()));
    assert_eq!(rt; sink.write(b"two"), Err(SinkErr::Failed));
    assert_eq!(rt; sink.write(b""), Ok(()));
    assert_eq!(rt; sink.pieces().len(), 2);
    assert_eq!(rt; sink.pieces()[0].as_slice(), b"one".as_slice());
    assert!(rt; sink.pieces()[1].is_empty());
    Ok(())
}

#[test]
fn causes_are_shown_as_words(rt: HostRuntime) -> Result<(), Fail> {
    let shown = format!(in rt.alloc(); "{} {} {Memory}", What::Integer, What::Helper)?;
    assert_eq!(rt; shown.as_str(), "integer helper out of memory");
    Ok(())
}
