//! The classes that names find.
ghost use Rattle.std.specs.Prelude.{◌≡◌, [], true, IfOk, IfSome};
ghost use Rattle.mo_scope.specs.Kept.{IsHeld};
ghost use Rattle.mo_scope.specs.KeptClasses.{IsAskedSo, IsMade, OldOrMade};

use crate::entered::number_of_all;
use mo_syntax::{FrameId, List, NoMemory, Place, Text};
use std::alloc::Global;
use std::collections::HashMap;

/// A name that is asked for at a place, behind the class of a frame or outwards from the frame, while these classes are having their
/// bases found and so many others may.
#[derive(Clone, Copy)]
pub struct AskedName<'a> {
    pub behind: bool,
    pub frame: FrameId,
    pub name: &'a Text,
    pub place: Place,
    pub left: usize,
    pub busy: &'a [u32],
}

/// What such a name is looked for by. Names that differ may have one key: so the one that is found there is compared.
#[derive(Clone, Copy, PartialEq, Eq, Hash)]
pub(crate) struct AskedKey {
    behind: bool,
    frame: u32,
    file: u32,
    byte: u32,
    left: usize,
    busy: u64,
}

/// The class that such a name finds, and whether its element is replaceable.
#[derive(Drop)]
pub(crate) struct FoundClass {
    behind: bool,
    frame: FrameId,
    name: Text,
    place: Place,
    left: usize,
    busy: List<u32>,
    pub class: FrameId,
    pub replaceable: bool,
}

/// The classes that were found so, and where each may stand among them.
#[derive(Drop)]
pub(crate) struct FoundClasses {
    classes: Vec<FoundClass>,
    places: HashMap<AskedKey, usize>,
}

/// What a name is looked for by.
fn key_of(asked: &AskedName) -> AskedKey {
    AskedKey {
        behind: asked.behind,
        frame: asked.frame.0,
        file: asked.place.file,
        byte: asked.place.byte,
        left: asked.left,
        busy: number_of_all(asked.busy),
    }
}

impl FoundClass {
    /// The class that a name finds.
    fn new(
        alloc: Global,
        asked: &AskedName,
        class: FrameId,
        replaceable: bool,
    ) -> Result<FoundClass, NoMemory>
        ensures { IfOk result (λ made. IsMade made asked.now class replaceable) }
    {
        let name = asked.name.copy(alloc)?;
        let busy = List::from_vec(asked.busy.to_vec(alloc)?);
        Ok(FoundClass {
            behind: asked.behind,
            frame: asked.frame,
            name,
            place: asked.place,
            left: asked.left,
            busy,
            class,
            replaceable,
        })
    }

    /// Whether it is what that name finds.
    fn is_asked_so(&self, asked: &AskedName) -> bool
        ensures { result ≡ true → IsAskedSo self.now asked.now }
    {
        if self.behind != asked.behind {
            return false;
        }
        if self.frame.0 != asked.frame.0 {
            return false;
        }
        if self.left != asked.left {
            return false;
        }
        if self.place.file != asked.place.file {
            return false;
        }
        if self.place.byte != asked.place.byte {
            return false;
        }
        if self.busy.as_slice() != asked.busy {
            return false;
        }
        self.name.equals(asked.name)
    }
}

impl FoundClasses {
    /// None was found.
    pub fn new(alloc: Global) -> FoundClasses
        ensures { result.classes.items ≡ [] }
    {
        FoundClasses {
            classes: Vec::new(alloc),
            places: HashMap::new(alloc),
        }
    }

    /// What was found for a name, None where it is not at hand.
    pub fn found(&self, asked: &AskedName) -> Option<&FoundClass>
        ensures held { IfSome result (λ class. IsHeld self.now.classes.items class.now) }
        ensures asked { IfSome result (λ class. IsAskedSo class.now asked.now) }
    {
        let Some(at) = self.places.get(&key_of(asked)) else {
            return None;
        };
        match self.classes.get(*at) {
            Some(class) => {
                if class.is_asked_so(asked) {
                    Some(class)
                } else {
                    None
                }
            }
            None => None,
        }
    }

    /// Keeps the class that a name finds.
    #[tactic(auto, using(crate::proofs::KeptClasses::keeping))]
    pub fn put(
        &mut self,
        alloc: Global,
        asked: &AskedName,
        class: FrameId,
        replaceable: bool,
    ) -> Result<(), NoMemory>
        ensures { OldOrMade self.old.classes.items self.new.classes.items asked.now class replaceable }
    {
        let made = FoundClass::new(alloc, asked, class, replaceable)?;
        self.places.insert(key_of(asked), self.classes.len())?;
        self.classes.push(made)?;
        Ok(())
    }
}
