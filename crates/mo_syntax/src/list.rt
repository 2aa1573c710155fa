//! Lists, which contracts see as their elements.
ghost use Rattle.std.specs.Prelude.{◌≡◌, [], ◌∷◌, ◌++◌, ◌<◌, length, slice_get, ◌↔◌, IsTrue, OnOk, OnErr, MatchOption};
ghost use Rattle.std.specs.Option.{option_copied};

use crate::place::NoMemory;
use std::alloc::Global;
use std::marker::Model;

/// A `Vec` that contracts see as the list of its elements, so that a tree of lists is plain data.
#[derive(Debug, Drop)]
pub struct List<T>(Vec<T>);

impl<T> Model for List<T> {
    ghost use Rattle.std.specs.Prelude.{List};
    ghost use Rattle.std.specs.Coded.{coded_list};

    ghost Value = { List T };

    ghost coded = { coded_list T.code };

    ghost view = { λ l. l.0.items };
}

impl<T> List<T> {
    /// The empty list, which takes no memory until it is pushed to.
    pub fn new(alloc: Global) -> List<T>
        ensures { result ≡ [] }
    {
        List(Vec::new(alloc))
    }

    /// The elements of a vector, without copying them.
    pub fn from_vec(items: Vec<T>) -> List<T>
        ensures { result ≡ items.items }
    {
        List(items)
    }

    /// The vector of the elements.
    pub fn into_vec(self) -> Vec<T>
        ensures { result.items ≡ self }
    {
        let List(items) = self;
        items
    }

    /// The elements as a slice.
    pub fn as_slice(&self) -> &[T]
        ensures { result.now ≡ self.now }
    {
        self.0.as_slice()
    }

    /// How many elements there are.
    pub fn len(&self) -> usize
        ensures { result ≡ length self.now }
    {
        self.0.len()
    }

    /// Whether there is no element.
    pub fn is_empty(&self) -> bool
        ensures { IsTrue result ↔ (self.now ≡ []) }
    {
        self.0.is_empty()
    }

    /// The element with `at` elements before it, None past the end.
    pub fn get(&self, at: usize) -> Option<&T>
        ensures { option_copied result ≡ slice_get self.now at }
    {
        self.0.get(at)
    }

    /// Takes the last element off, None where there is none.
    pub fn pop(&mut self) -> Option<T>
        ensures { MatchOption result ((self.old ≡ []) × (self.new ≡ [])) (λ last. self.old ≡ self.new ++ last ∷ []) }
    {
        self.0.pop()
    }
}

impl<T: Drop> List<T> {
    /// Puts an element at the end. After `NoMemory` the list is as it was.
    pub fn push(&mut self, item: T) -> Result<(), NoMemory>
        ensures ok { OnOk result (self.new ≡ self.old ++ item ∷ []) }
        ensures err { OnErr result (self.new ≡ self.old) }
    {
        self.0.push(item)?;
        Ok(())
    }

    /// Moves the elements of `more` to the end. After `NoMemory` the list is as it was, and `more` is dropped.
    pub fn append(&mut self, more: List<T>) -> Result<(), NoMemory>
        ensures ok { OnOk result (self.new ≡ self.old ++ more) }
        ensures err { OnErr result (self.new ≡ self.old) }
    {
        let List(mut items) = more;
        self.0.append(&mut items)?;
        Ok(())
    }
}
