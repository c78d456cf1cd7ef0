ghost use Rattle.std.specs.Prelude.{◌≡◌, IfOk};

use crate::{Boxed, Budget, Line, Memory, Seq, Text};
use std::alloc::Global;

/// Types whose values can be copied where memory allows. `Clone` promises no equal value, and
/// this does.
pub trait Dup: Sized + Drop {
    /// An equal value.
    fn dup(&self, alloc: Global) -> Result<Self, Memory>
        ensures { IfOk result (λ copy. copy ≡ self.now) };
}

impl Dup for u8 {
    fn dup(&self, _alloc: Global) -> Result<u8, Memory> {
        Ok(*self)
    }
}

impl Dup for u32 {
    fn dup(&self, _alloc: Global) -> Result<u32, Memory> {
        Ok(*self)
    }
}

impl Dup for u64 {
    fn dup(&self, _alloc: Global) -> Result<u64, Memory> {
        Ok(*self)
    }
}

impl Dup for Line {
    fn dup(&self, _alloc: Global) -> Result<Line, Memory> {
        Ok(*self)
    }
}

impl Dup for Budget {
    fn dup(&self, _alloc: Global) -> Result<Budget, Memory> {
        Ok(self.again())
    }
}

impl Dup for Text {
    fn dup(&self, alloc: Global) -> Result<Text, Memory> {
        Text::from_str(alloc, self.as_str())
    }
}

impl<T: Dup> Dup for Boxed<T> {
    fn dup(&self, alloc: Global) -> Result<Boxed<T>, Memory> {
        let inner = self.get().dup(alloc)?;
        Boxed::new(alloc, inner)
    }
}

impl<T: Dup> Dup for Seq<T> {
    fn dup(&self, alloc: Global) -> Result<Seq<T>, Memory> {
        let mut copy = Seq::new(alloc);
        for item in self.as_slice() {
            let item = item.dup(alloc)?;
            copy.push(item)?;
        }
        Ok(copy)
    }
}
