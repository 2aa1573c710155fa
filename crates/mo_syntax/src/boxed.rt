//! Boxes, which contracts see as what they hold.
ghost use Rattle.std.specs.Prelude.{◌≡◌, IfOk};

use crate::place::NoMemory;
use std::alloc::Global;
use std::marker::Model;

/// A `Box` that contracts see as its value, so that a tree of boxes is plain data.
#[derive(Debug, Drop)]
pub struct Boxed<T>(Box<T>);

impl<T> Model for Boxed<T> {
    ghost Value = { T };

    ghost coded = { T.code };

    ghost view = { λ b. b.0.value };
}

impl<T> Boxed<T> {
    /// What the box holds.
    pub fn get(&self) -> &T
        ensures { result.now ≡ self.now }
    {
        &self.0
    }

    /// What the box held, moved out of it.
    pub fn into_inner(self) -> T
        ensures { result ≡ self }
    {
        let Boxed(inner) = self;
        Box::into_inner(inner)
    }
}

impl<T: Drop> Boxed<T> {
    /// A box around the value. `NoMemory` is the only other answer, and then the value is dropped.
    pub fn new(alloc: Global, value: T) -> Result<Boxed<T>, NoMemory>
        ensures { IfOk result (λ b. b ≡ value) }
    {
        Ok(Boxed(Box::new(alloc, value)?))
    }
}
