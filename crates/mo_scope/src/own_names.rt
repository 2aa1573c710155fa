//! The elements that classes declare themselves, by name.
ghost use Rattle.std.specs.Prelude.{◌≡◌, ◌+◌, List as Seq, ◌∷◌, ℕ, None, map, option_map, slice_get, IfOk, OnOk};
ghost use Rattle.mo_syntax.specs.ClassTable.{otherwise};
ghost use Rattle.mo_scope.specs.OwnNames.{AreNamed, AreOwnNames, IsAlso, element_read, first_own, own_held, own_place};
ghost use Rattle.mo_scope.specs.Rows.{Part as PartSeen, elements_in};
ghost use Rattle.mo_scope.specs.Sights.{declares_seen, part_seen};

use crate::row::{Declares, Part, Row};
use mo_syntax::{List, NoMemory, Text};
use std::alloc::Global;
use std::collections::HashMap;

/// Where an element stands: its place among the parts of its class, and how many elements stand before it.
#[derive(Clone, Copy)]
pub(crate) struct OwnPlace {
    part: usize,
    item: u32,
}

/// The first place of each name among the elements that a class declares itself.
#[derive(Drop)]
pub(crate) struct OwnNames<'t> {
    places: HashMap<&'t str, OwnPlace>,
}

impl<'t> OwnNames<'t> {
    /// No name has a place.
    fn new(alloc: Global) -> OwnNames<'t>
        ensures { (name : Seq ℕ) → own_held result name ≡ None }
    {
        OwnNames {
            places: HashMap::new(alloc),
        }
    }

    /// Gives a name its place, if it has none.
    fn put(&mut self, name: &'t Text, place: OwnPlace) -> Result<(), NoMemory>
        ensures { OnOk result (IsAlso self.old self.new name.now place) }
    {
        if self.places.contains_key(name.as_str()) {
            return Ok(());
        }
        self.places.insert(name.as_str(), place)?;
        Ok(())
    }

    /// The place of a name, None where it has none.
    fn place(&self, name: &Text) -> Option<OwnPlace>
        ensures { result ≡ own_held self.now name.now }
    {
        match self.places.get(name.as_str()) {
            Some(place) => Some(*place),
            None => None,
        }
    }

    /// Adds a part that stands there. How many elements stand before what is behind it; more than a number can tell is want of memory.
    fn add(&mut self, part: &Part<'t>, place: OwnPlace) -> Result<u32, NoMemory>
        ensures { IfOk result (λ next. (name : Seq ℕ) → (rest : Seq PartSeen) → otherwise (own_held self.new name) (own_place name (place.part + 1) next rest) ≡ otherwise (own_held self.old name) (own_place name place.part place.item (part_seen part.now ∷ rest))) }
    {
        match part {
            Part::Element(declares) => {
                self.put(declares.name, place)?;
                place.item.checked_add(1).ok_or(NoMemory)
            }
            Part::Base(_) => Ok(place.item),
        }
    }

    /// The first element of a name among the parts that the places are of, with how many elements stand before it.
    pub fn first(&self, parts: &[Part<'t>], name: &Text) -> Option<(u32, Declares<'t>)>
        requires { AreNamed self.now parts.now }
        ensures { option_map (λ found. (found.0, declares_seen found.1)) result ≡ first_own name.now 0 (elements_in (map part_seen parts.now)) }
    {
        match self.place(name) {
            Some(place) => element_at(parts, place),
            None => None,
        }
    }
}

/// The element that stands there, with how many elements stand before it.
fn element_at<'t>(parts: &[Part<'t>], place: OwnPlace) -> Option<(u32, Declares<'t>)>
    ensures { option_map (λ found. (found.0, declares_seen found.1)) result ≡ element_read (slice_get (map part_seen parts.now) place.part) place.item }
{
    match parts.get(place.part) {
        Some(part) => match part {
            Part::Element(declares) => Some((place.item, *declares)),
            Part::Base(_) => None,
        },
        None => None,
    }
}

/// The elements that a class declares itself, by name.
fn named<'t>(alloc: Global, parts: &[Part<'t>]) -> Result<OwnNames<'t>, NoMemory>
    ensures { IfOk result (λ names. AreNamed names parts.now) }
{
    let mut names = OwnNames::new(alloc);
    let mut item = 0u32;
    for at in 0..parts.len() {
        item = names.add(&parts[at], OwnPlace { part: at, item })?;
    }
    Ok(names)
}

/// The elements that each class declares itself, by name.
pub(crate) fn own_names_of<'t>(
    alloc: Global,
    rows: &[Row<'t>],
) -> Result<List<OwnNames<'t>>, NoMemory>
    ensures { IfOk result (λ owns. AreOwnNames owns rows.now) }
{
    let mut owns = List::new(alloc);
    for row in rows {
        owns.push(named(alloc, row.parts.as_slice())?)?;
    }
    Ok(owns)
}
