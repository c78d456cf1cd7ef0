use pt_base::Memory;
use std::alloc::{AllocError, AllocFailed};

/// The line is no row, or memory ran out.
#[derive(Clone, Copy, Debug)]
pub struct NoRow;

impl From<Memory> for NoRow {
    fn from(_: Memory) -> Self {
        NoRow
    }
}

impl From<AllocError> for NoRow {
    fn from(_: AllocError) -> Self {
        NoRow
    }
}

impl<T: Drop> From<AllocFailed<T>> for NoRow {
    fn from(_: AllocFailed<T>) -> Self {
        NoRow
    }
}
