//! The numbers of classes by where their names stand.
ghost use Rattle.std.specs.Prelude.{◌≡◌, map, IfOk, OnOk, if◌then◌else◌};
ghost use Rattle.mo_syntax.specs.declared.place.Place.{Place as PlaceAt};
ghost use Rattle.mo_scope.specs.Held.{number_held};
ghost use Rattle.mo_scope.specs.steps.Listed.{class_seen};
ghost use Rattle.mo_scope.specs.Rows.{place_eq, number_among};

use crate::walk::ClassData;
use mo_syntax::{NoMemory, Place};
use std::alloc::Global;
use std::collections::HashMap;

/// A place as a key.
#[derive(Clone, Copy, PartialEq, Eq, Hash)]
pub(crate) struct Spot {
    file: u32,
    byte: u32,
}

/// The number of the class whose name stands at a place.
#[derive(Drop)]
pub(crate) struct Places {
    numbers: HashMap<Spot, u32>,
}

impl Places {
    /// No class stands anywhere.
    fn new(alloc: Global) -> Places
        ensures { (place : PlaceAt) → number_held result place ≡ 0 }
    {
        Places {
            numbers: HashMap::new(alloc),
        }
    }

    /// Puts the class with that number at a place.
    fn put(&mut self, place: Place, number: u32) -> Result<(), NoMemory>
        ensures { OnOk result ((other : PlaceAt) → number_held self.new other ≡ (if place_eq place other then number else number_held self.old other)) }
    {
        let spot = Spot {
            file: place.file,
            byte: place.byte,
        };
        self.numbers.insert(spot, number)?;
        Ok(())
    }

    /// The number of the class whose name stands there, 0 where none does.
    pub fn number_at(&self, place: Place) -> u32
        ensures { result ≡ number_held self.now place }
    {
        let spot = Spot {
            file: place.file,
            byte: place.byte,
        };
        match self.numbers.get(&spot) {
            Some(number) => *number,
            None => 0,
        }
    }
}

/// The places of classes: where two stand at one place, the first.
pub(crate) fn places_of(alloc: Global, classes: &[ClassData]) -> Result<Places, NoMemory>
    ensures { IfOk result (λ places. (place : PlaceAt) → number_held places place ≡ number_among (map class_seen classes.now) place) }
{
    let mut places = Places::new(alloc);
    for at in (0..classes.len()).rev() {
        let class = &classes[at];
        places.put(class.class.place, class.number)?;
    }
    Ok(places)
}
