//! A value in a piece of memory of its own.
ghost use Rattle.std.specs.Prelude.{◌≡◌, IfOk};

use std::alloc::{AllocError, Global};
use std::marker::Model;

/// A value in a piece of memory of its own. So a list of values moves only their addresses. Contracts see an `Apart` as its value.
#[derive(Drop)]
pub struct Apart<T> {
    inner: Box<T>,
}

impl<T> Model for Apart<T> {
    ghost Value = { T };

    ghost coded = { T.code };

    ghost view = { λ b. b.inner.value };
}

impl<T> Apart<T> {
    ghost use Rattle.std.specs.Prelude.{◌≡◌};
    ghost use Rattle.std.specs.Borrow.{Lends, sem};
    ghost use Rattle.tb_search.specs.contracts.apart.Apart.{the_row};

    /// Lends the value.
    pub fn get(&self) -> &T
        ensures { result.now ≡ self.now }
    {
        &self.inner
    }

    /// Lends the value for writing.
    pub fn get_mut(&mut self) -> &mut T
        ensures* writes_back { sem 𝓛
            (Lends (the_row T.row) T.row self.entry result (λ value. value)) }
        ensures value { result.now ≡ self.old }
    {
        self.inner.as_mut()
    }
}

impl<T: Drop> Apart<T> {
    /// Moves a value into a piece of memory of its own. If out of memory, the call drops the value.
    pub fn new(alloc: Global, value: T) -> Result<Apart<T>, AllocError>
        ensures { IfOk result (λ apart. apart ≡ value) }
    {
        Ok(Apart {
            inner: Box::new(alloc, value)?,
        })
    }
}
