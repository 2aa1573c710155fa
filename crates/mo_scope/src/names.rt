//! The first place of each name in a list.
ghost use Rattle.std.specs.Prelude.{◌≡◌, None, List as Seq, ℕ, OnOk, OnErr};
ghost use Rattle.mo_scope.specs.ByName.{PlacesAlso, place_held};

use mo_syntax::{NoMemory, Text};
use std::alloc::Global;
use std::collections::HashMap;

/// How many elements stand before the first one with a name.
#[derive(Drop)]
pub struct Names<'t> {
    places: HashMap<&'t str, usize>,
}

impl<'t> Names<'t> {
    /// No name has a place.
    pub fn new(alloc: Global) -> Names<'t>
        ensures { (name : Seq ℕ) → place_held result name ≡ None }
    {
        Names {
            places: HashMap::new(alloc),
        }
    }

    /// Gives a name its place, if it has none.
    pub fn put(&mut self, name: &'t Text, at: usize) -> Result<(), NoMemory>
        ensures ok { OnOk result (PlacesAlso self.old self.new name.now at) }
        ensures err { OnErr result ((other : Seq ℕ) → place_held self.new other ≡ place_held self.old other) }
    {
        if self.places.contains_key(name.as_str()) {
            return Ok(());
        }
        self.places.insert(name.as_str(), at)?;
        Ok(())
    }

    /// The place of a name, None where it has none.
    pub fn place(&self, name: &Text) -> Option<usize>
        ensures { result ≡ place_held self.now name.now }
    {
        match self.places.get(name.as_str()) {
            Some(at) => Some(*at),
            None => None,
        }
    }
}
