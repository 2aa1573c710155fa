//! Paths as keys, and which lists have a path.
ghost use Rattle.std.specs.Prelude.{◌≡◌, ◌+◌, [], ◌∷◌, ◌++◌, List as Seq, ℕ, map, IfOk, OnOk};
ghost use Rattle.mo_syntax.specs.ClassTable.{path_eq};
ghost use Rattle.mo_scope.specs.Frames.{listing_eq};
ghost use Rattle.mo_scope.specs.Held.{path_key};
ghost use Rattle.mo_scope.specs.Sights.{listing_seen};
ghost use Rattle.mo_mods.specs.PathSights.{having_seen, lists_held, lists_or_none};
ghost use Rattle.mo_mods.specs.Calls.{HoldsListAlso, has_list, has_other_list};

use crate::answers::{put_by_key, with_item};
use mo_scope::Listing;
use mo_syntax::{List, NoMemory, Text};
use std::alloc::Global;
use std::collections::HashMap;

/// Writes a name so that no other one is written alike.
pub(crate) fn write_name(key: &mut List<u16>, name: &Text) -> Result<(), NoMemory>
    ensures { OnOk result (key.new ≡ key.old ++ (map (λ b. b + 1) name.now ++ 0 ∷ [])) }
{
    for b in name.as_str().as_bytes() {
        key.push(*b as u16 + 1)?;
    }
    key.push(0)
}

/// The key of a path.
pub(crate) fn key_of(alloc: Global, path: &[&Text]) -> Result<List<u16>, NoMemory>
    ensures { IfOk result (λ key. key ≡ path_key (map (λ name. name.now) path.now)) }
{
    let mut key = List::new(alloc);
    for name in path {
        write_name(&mut key, *name)?;
    }
    Ok(key)
}

/// Whether two paths have the same names.
pub fn is_path(a: &[&Text], b: &[&Text]) -> bool
    ensures { result ≡ path_eq (map (λ name. name.now) a.now) (map (λ name. name.now) b.now) }
{
    if a.len() != b.len() {
        return false;
    }
    for i in 0..a.len() {
        if !a[i].equals(b[i]) {
            return false;
        }
    }
    true
}

/// Whether two lists are one.
fn is_listing(a: &Listing<'_>, b: &Listing<'_>) -> bool
    ensures { result ≡ listing_eq (listing_seen a.now) (listing_seen b.now) }
{
    if a.place.file != b.place.file {
        return false;
    }
    if a.place.byte != b.place.byte {
        return false;
    }
    is_path(a.passed.as_slice(), b.passed.as_slice())
}

/// A list that has a path.
#[derive(Clone, Copy)]
pub(crate) struct Having<'s, 't> {
    listing: &'s Listing<'t>,
}

/// The lists that were under a key, none where there were none.
fn or_none<'s, 't>(alloc: Global, lists: Option<List<Having<'s, 't>>>) -> List<Having<'s, 't>>
    ensures { map having_seen result ≡ lists_or_none lists.entry }
{
    match lists {
        Some(lists) => lists,
        None => List::new(alloc),
    }
}

/// Whether one of some lists is that one.
fn is_among(lists: &[Having<'_, '_>], listing: &Listing<'_>) -> bool
    ensures { result ≡ has_list (listing_seen listing.now) (map having_seen lists.now) }
{
    for other in lists {
        if is_listing(other.listing, listing) {
            return true;
        }
    }
    false
}

/// Whether one of some lists is another one.
fn is_other_among(lists: &[Having<'_, '_>], listing: &Listing<'_>) -> bool
    ensures { result ≡ has_other_list (listing_seen listing.now) (map having_seen lists.now) }
{
    for other in lists {
        if !is_listing(other.listing, listing) {
            return true;
        }
    }
    false
}

/// The lists that have a path, by its key.
#[derive(Drop)]
pub(crate) struct ByPath<'s, 't> {
    lists: HashMap<Vec<u16>, List<Having<'s, 't>>>,
}

impl<'s, 't> ByPath<'s, 't> {
    /// No list has a path.
    pub fn new(alloc: Global) -> ByPath<'s, 't>
        ensures { (key : Seq ℕ) → lists_held result key ≡ [] }
    {
        ByPath {
            lists: HashMap::new(alloc),
        }
    }

    /// Puts a list behind those under a key.
    pub fn add(
        &mut self,
        alloc: Global,
        key: Vec<u16>,
        listing: &'s Listing<'t>,
    ) -> Result<(), NoMemory>
        ensures { OnOk result (HoldsListAlso self.old self.new key.items (listing_seen listing.now)) }
    {
        let group = or_none(alloc, self.lists.remove(key.as_slice()));
        put_by_key(&mut self.lists, key, with_item(group, Having { listing }))
    }

    /// Whether a list is under a key.
    pub fn has(&self, key: &[u16], listing: &Listing<'_>) -> bool
        ensures { result ≡ has_list (listing_seen listing.now) (lists_held self.now key.now) }
    {
        match self.lists.get(key) {
            Some(lists) => is_among(lists.as_slice(), listing),
            None => false,
        }
    }

    /// Whether another list is under a key.
    pub fn has_other(&self, key: &[u16], listing: &Listing<'_>) -> bool
        ensures { result ≡ has_other_list (listing_seen listing.now) (lists_held self.now key.now) }
    {
        match self.lists.get(key) {
            Some(lists) => is_other_among(lists.as_slice(), listing),
            None => false,
        }
    }
}
