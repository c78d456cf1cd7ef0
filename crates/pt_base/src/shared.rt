ghost use Rattle.std.specs.Prelude.{◌≡◌, IfOk};

use crate::Memory;
use std::alloc::Global;
use std::marker::Model;
use std::rc::Rc;

/// An `Rc` that contracts see as the value in it. Sharing copies no value.
#[derive(Debug, Drop)]
pub struct Shared<T: Drop> {
    inner: Rc<T>,
}

impl<T: Drop> Model for Shared<T> {
    ghost Value = { T };

    ghost coded = { T.code };

    ghost view = { λ s. s.inner.value };
}

impl<T: Drop> Shared<T> {
    pub fn new(alloc: Global, value: T) -> Result<Shared<T>, Memory>
        ensures { IfOk result (λ s. s ≡ value) }
    {
        Ok(Shared {
            inner: Rc::new(alloc, value)?,
        })
    }

    pub fn get(&self) -> &T
        ensures { result.now ≡ self.now }
    {
        &self.inner
    }

    /// One more owner of the same value. Memory is answered where no more owners can be counted.
    pub fn share(&self) -> Result<Shared<T>, Memory>
        ensures { IfOk result (λ s. s ≡ self.now) }
    {
        Ok(Shared {
            inner: self.inner.clone()?,
        })
    }
}
