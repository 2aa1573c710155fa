//! The classes that files place under others, by the path that they are placed under.
ghost use Rattle.std.specs.Prelude.{◌≡◌, ◌+◌, [], ◌∷◌, ◌++◌, List as Seq, ℕ, map, IfOk, OnOk, if◌then◌else◌};
ghost use Rattle.std.specs.Str.{bytes_eq};
ghost use Rattle.mo_scope.specs.Held.{group_held, path_key, parts_or_none, placed_by, placed_among, placed_held};
ghost use Rattle.mo_scope.specs.steps.Listed.{class_seen};
ghost use Rattle.mo_scope.specs.Rows.{placed_part};
ghost use Rattle.mo_scope.specs.Sights.{part_seen, home_seen};

use crate::declaring::declared_class;
use crate::row::{Home, Part};
use crate::walk::ClassData;
use mo_syntax::{ElementFlags, List, NoMemory, Text};
use std::alloc::Global;
use std::collections::HashMap;

/// The parts that are placed under a path, by its key.
#[derive(Drop)]
pub(crate) struct Groups<'t> {
    groups: HashMap<Vec<u16>, List<Part<'t>>>,
}

/// Writes a name so that no other one is written alike.
fn write_name(key: &mut List<u16>, name: &Text) -> Result<(), NoMemory>
    ensures { OnOk result (key.new ≡ key.old ++ (map (λ b. b + 1) name.now ++ 0 ∷ [])) }
{
    for b in name.as_str().as_bytes() {
        key.push(*b as u16 + 1)?;
    }
    key.push(0)
}

/// The key of a path.
fn key_of(alloc: Global, path: &[&Text]) -> Result<List<u16>, NoMemory>
    ensures { IfOk result (λ key. key ≡ path_key (map (λ name. name.now) path.now)) }
{
    let mut key = List::new(alloc);
    for name in path {
        write_name(&mut key, *name)?;
    }
    Ok(key)
}

/// The parts that were under a key, none where there were none.
fn or_none<'t>(alloc: Global, group: Option<List<Part<'t>>>) -> List<Part<'t>>
    ensures { map part_seen result ≡ parts_or_none group.entry }
{
    match group {
        Some(parts) => parts,
        None => List::new(alloc),
    }
}

/// Puts parts behind others.
fn push_all<'t>(parts: &mut List<Part<'t>>, more: &[Part<'t>]) -> Result<(), NoMemory>
    ensures { OnOk result (map part_seen parts.new ≡ map part_seen parts.old ++ map part_seen more.now) }
{
    for part in more {
        parts.push(*part)?;
    }
    Ok(())
}

/// The class of a file as an element of the class that its file places it under.
fn placed<'t>(class: &ClassData<'t>) -> Part<'t>
    ensures { part_seen result ≡ placed_part (class_seen class.now).row }
{
    let flags = ElementFlags {
        redeclare: false,
        last: false,
        inner: false,
        outer: false,
        replaceable: false,
        hidden: false,
    };
    Part::Element(declared_class(class.class, class.number, flags, None))
}

impl<'t> Groups<'t> {
    /// No class is placed under another.
    pub fn new(alloc: Global) -> Groups<'t>
        ensures { (key : Seq ℕ) → group_held result key ≡ [] }
    {
        Groups {
            groups: HashMap::new(alloc),
        }
    }

    /// Puts a part behind those under a key.
    fn put(&mut self, alloc: Global, key: Vec<u16>, part: Part<'t>) -> Result<(), NoMemory>
        ensures { OnOk result ((other : Seq ℕ) → group_held self.new other ≡ (if bytes_eq key.items other then group_held self.old other ++ part_seen part.entry ∷ [] else group_held self.old other)) }
    {
        let mut group = or_none(alloc, self.groups.remove(key.as_slice()));
        group.push(part)?;
        self.groups.insert(key, group)?;
        Ok(())
    }

    /// Puts a class where its file places it, if it is an outermost one.
    fn add(&mut self, alloc: Global, class: &ClassData<'t>) -> Result<(), NoMemory>
        ensures { OnOk result ((path : Seq (Seq ℕ)) → group_held self.new (path_key path) ≡ group_held self.old (path_key path) ++ map placed_part (placed_by path (class_seen class.now))) }
    {
        if !class.outermost {
            return Ok(());
        }
        match &class.home {
            Home::Under(path) => {
                let key = key_of(alloc, path.as_slice())?;
                self.put(alloc, key.into_vec(), placed(class))
            }
            Home::Inside(_) => Ok(()),
            Home::Apart => Ok(()),
        }
    }

    /// Puts the parts under a key behind others.
    fn push_under(&self, key: &[u16], parts: &mut List<Part<'t>>) -> Result<(), NoMemory>
        ensures { OnOk result (map part_seen parts.new ≡ map part_seen parts.old ++ group_held self.now key.now) }
    {
        match self.groups.get(key) {
            Some(group) => push_all(parts, group.as_slice()),
            None => Ok(()),
        }
    }
}

/// The classes that files place under others.
pub(crate) fn groups_of<'t>(
    alloc: Global,
    classes: &[ClassData<'t>],
) -> Result<Groups<'t>, NoMemory>
    ensures { IfOk result (λ groups. (path : Seq (Seq ℕ)) → group_held groups (path_key path) ≡ map placed_part (placed_among path (map class_seen classes.now))) }
{
    let mut groups = Groups::new(alloc);
    for class in classes {
        groups.add(alloc, class)?;
    }
    Ok(groups)
}

/// The key of the path of a class.
fn key_under(alloc: Global, path: &[&Text], name: &Text) -> Result<List<u16>, NoMemory>
    ensures { IfOk result (λ key. key ≡ path_key (map (λ name. name.now) path.now ++ name.now ∷ [])) }
{
    let mut key = key_of(alloc, path)?;
    write_name(&mut key, name)?;
    Ok(key)
}

/// Puts the classes that files place under a class behind its own parts.
pub(crate) fn push_placed<'t>(
    alloc: Global,
    groups: &Groups<'t>,
    home: &Home<'t>,
    name: &Text,
    parts: &mut List<Part<'t>>,
) -> Result<(), NoMemory>
    ensures { OnOk result (map part_seen parts.new ≡ map part_seen parts.old ++ placed_held (group_held groups.now) (home_seen home.now) name.now) }
{
    match home {
        Home::Under(path) => {
            let key = key_under(alloc, path.as_slice(), name)?;
            groups.push_under(key.as_slice(), parts)
        }
        Home::Inside(_) => Ok(()),
        Home::Apart => Ok(()),
    }
}
