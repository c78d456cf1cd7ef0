//! Exceptions as objects of the heap, and what they say of names and calls.

use pt_base::{ObjId, Text};
use pt_bind::BindErr;
use pt_heap::{Heap, Seed, Value};
use pt_host::{
    VALUE_ERROR, binding_text, error_saying, free_text, local_text, name_text, not_callable_text,
};
use std::test::Fail;

#[test]
fn an_exception_stands_behind_its_text(rt: HostRuntime) -> Result<(), Fail> {
    let alloc = rt.alloc();
    let mut heap = Heap::new(alloc, Seed::of(b"errors"));
    let text = Text::from_str(alloc, "no")?;
    let first = error_saying(alloc, &mut heap, VALUE_ERROR, text, None, None)?;
    assert_eq!(rt; first, Some(Value::Obj(ObjId(1))));
    let text = Text::from_str(alloc, "again")?;
    let second = error_saying(alloc, &mut heap, VALUE_ERROR, text, first, first)?;
    assert_eq!(rt; second, Some(Value::Obj(ObjId(3))));
    assert_eq!(rt; heap.len(), 4);
    Ok(())
}

#[test]
fn texts_tell_names(rt: HostRuntime) -> Result<(), Fail> {
    let alloc = rt.alloc();
    let local = "cannot access local variable 'x' where it is not associated with a value";
    assert!(rt; local_text(alloc, "x")?.is(local));
    let free =
        "cannot access free variable 'x' where it is not associated with a value in enclosing scope";
    assert!(rt; free_text(alloc, "x")?.is(free));
    assert!(rt; name_text(alloc, "x")?.is("name 'x' is not defined"));
    assert!(rt; not_callable_text(alloc, "int")?.is("'int' object is not callable"));
    Ok(())
}

#[test]
fn texts_tell_arguments(rt: HostRuntime) -> Result<(), Fail> {
    let alloc = rt.alloc();
    let name = Text::from_str(alloc, "b")?;
    let missing = binding_text(alloc, "f", &BindErr::Missing { name })?;
    assert!(rt; missing.is("f() misses argument 'b'"));
    let many = binding_text(alloc, "f", &BindErr::TooMany { given: 2 })?;
    assert!(rt; many.is("f() got too many arguments"));
    let name = Text::from_str(alloc, "b")?;
    let unexpected = binding_text(alloc, "f", &BindErr::Unexpected { name })?;
    assert!(rt; unexpected.is("f() got an unexpected argument 'b'"));
    let name = Text::from_str(alloc, "b")?;
    let double = binding_text(alloc, "f", &BindErr::Double { name })?;
    assert!(rt; double.is("f() got argument 'b' twice"));
    Ok(())
}
