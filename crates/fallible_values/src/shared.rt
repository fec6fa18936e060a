// A shared value, with the value as its view.
ghost use Rattle.std.specs.Prelude.{◌≡◌, IfOk, MatchOption};

use crate::NoMemory;
use std::alloc::Global;
use std::marker::Model;
use std::rc::Rc;

/// A reference-counted value on the heap, which a contract sees as the value itself.
#[derive(Debug, Drop)]
pub struct Shared<T> {
    inner: Rc<T>,
}

impl<T> Model for Shared<T> {
    ghost Value = { T };

    ghost coded = { T.code };

    ghost view = { λ s. s.inner.value };
}

impl<T> Shared<T> {
    pub fn get(&self) -> &T
        ensures { result.now ≡ self.now }
    {
        &self.inner
    }

    /// The value, if this is its last reference.
    pub fn into_inner(self) -> Option<T>
        ensures { MatchOption result (Unit {0}) (λ value. value ≡ self) }
    {
        let Shared { inner } = self;
        Rc::into_inner(inner)
    }
}

impl<T: Drop> Shared<T> {
    pub fn new(alloc: Global, value: T) -> Result<Shared<T>, NoMemory>
        ensures { IfOk result (λ shared. shared ≡ value) }
    {
        let inner = Rc::new(alloc, value)?;
        Ok(Shared { inner })
    }

    /// One more reference to the same value.
    pub fn copy(&self) -> Result<Shared<T>, NoMemory>
        ensures { IfOk result (λ copied. copied ≡ self.now) }
    {
        let inner = self.inner.clone()?;
        Ok(Shared { inner })
    }
}
