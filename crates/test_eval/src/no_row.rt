use pt_base::{Failure, Memory};
use pt_heap::HeapErr;
use std::alloc::{AllocError, AllocFailed};

/// The line is no row, or memory ran out.
#[derive(Clone, Copy, Debug)]
pub struct NoRow;

impl From<Memory> for NoRow {
    fn from(_: Memory) -> Self {
        NoRow
    }
}

impl From<AllocError> for NoRow {
    fn from(_: AllocError) -> Self {
        NoRow
    }
}

impl<T: Drop> From<AllocFailed<T>> for NoRow {
    fn from(_: AllocFailed<T>) -> Self {
        NoRow
    }
}

impl From<HeapErr> for NoRow {
    fn from(_: HeapErr) -> Self {
        NoRow
    }
}

impl<E: Drop> From<Failure<E>> for NoRow {
    fn from(_: Failure<E>) -> Self {
        NoRow
    }
}
