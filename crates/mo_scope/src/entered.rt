//! Frames that were entered with no sources.
ghost use Rattle.std.specs.Prelude.{◌≡◌, None, Option as Maybe, ℕ, option_map, OnOk, OnErr};
ghost use Rattle.mo_scope.specs.Bare.{HoldsAlso, entered_held};
ghost use Rattle.mo_scope.specs.Entries.{number_of};

use mo_syntax::{ClassId, FrameId, InstancePath, List, NoMemory, Text};
use std::alloc::Global;
use std::collections::HashMap;

/// A class with the frame around it, None for the top, as a key.
#[derive(Clone, Copy, PartialEq, Eq, Hash)]
pub(crate) struct Around {
    class: u32,
    outer: Option<u32>,
}

/// What a frame without sources is looked for by: its class, the frames around it and its owner, and a number for the last name
/// of its path. Frames that differ may have one key: so the frame that is found there is compared.
#[derive(Clone, Copy, PartialEq, Eq, Hash)]
pub(crate) struct Standing {
    class: u32,
    outer: Option<u32>,
    owner: Option<u32>,
    name: u64,
}

/// The frames that were entered with nothing but a class and the frame around it; and where one without sources may be found.
#[derive(Drop)]
pub(crate) struct Entered {
    frames: HashMap<Around, u32>,
    standing: HashMap<Standing, u32>,
}

fn key_of(class: ClassId, outer: Option<FrameId>) -> Around
    ensures class { result.class ≡ class.0 }
    ensures outer { result.outer ≡ option_map number_of outer }
{
    Around {
        class: class.0,
        outer: outer.map(|frame| frame.0),
    }
}

/// One more number behind those that a number was made of.
fn number_with(number: u64, next: u32) -> u64 {
    number.wrapping_mul(1_000_003).wrapping_add(u64::from(next))
}

/// A number for some numbers, the same one wherever it is asked for.
pub(crate) fn number_of_all(numbers: &[u32]) -> u64 {
    let mut number: u64 = 0;
    for next in numbers {
        number = number_with(number, *next);
    }
    number
}

/// A number for a name, the same one wherever it is asked for.
fn number_of_text(text: &Text) -> u64 {
    let mut number: u64 = 0;
    for byte in text.as_str().as_bytes() {
        number = number_with(number, u32::from(*byte));
    }
    number
}

/// A number for a name with its index, the same one wherever it is asked for.
fn number_of_name(name: &(Text, List<u32>)) -> u64 {
    let mut number = number_of_text(&name.0);
    for n in name.1.as_slice() {
        number = number_with(number, *n);
    }
    number
}

/// A number for the last name of a path, the same one wherever it is asked for.
fn number_of_path(path: Option<&InstancePath>) -> u64 {
    match path {
        Some(path) => match path.0.as_slice() {
            [.., last] => number_of_name(last),
            [] => 0,
        },
        None => 0,
    }
}

/// What a frame without sources is looked for by.
pub(crate) fn standing_of(
    class: ClassId,
    outer: Option<FrameId>,
    at: Option<&InstancePath>,
    owner: Option<FrameId>,
) -> Standing {
    Standing {
        class: class.0,
        outer: outer.map(|frame| frame.0),
        owner: owner.map(|frame| frame.0),
        name: number_of_path(at),
    }
}

impl Entered {
    /// None was entered.
    pub fn new(alloc: Global) -> Entered
        ensures { (class : ℕ) (outer : Maybe ℕ) → entered_held result class outer ≡ None }
    {
        Entered {
            frames: HashMap::new(alloc),
            standing: HashMap::new(alloc),
        }
    }

    /// Puts a frame where it may be found by its key, if it has one.
    fn note(&mut self, standing: Option<Standing>, frame: u32) -> Result<(), NoMemory>
        ensures { (class : ℕ) (outer : Maybe ℕ) → entered_held self.new class outer ≡ entered_held self.old class outer }
    {
        if let Some(key) = standing {
            self.standing.insert(key, frame)?;
        }
        Ok(())
    }

    /// The frame that may be the one with that key.
    pub fn noted(&self, standing: &Standing) -> Option<FrameId> {
        match self.standing.get(standing) {
            Some(frame) => Some(FrameId(*frame)),
            None => None,
        }
    }

    /// Puts a frame with its class and the frame around it, if it has nothing else, and where it may be found by its key, if it
    /// has one.
    pub fn put(
        &mut self,
        bare: bool,
        standing: Option<Standing>,
        class: ClassId,
        outer: Option<FrameId>,
        frame: u32,
    ) -> Result<(), NoMemory>
        ensures ok { OnOk result (HoldsAlso self.old self.new bare class.0 (option_map number_of outer) frame) }
        ensures err { OnErr result ((c : ℕ) (o : Maybe ℕ) → entered_held self.new c o ≡ entered_held self.old c o) }
    {
        self.note(standing, frame)?;
        if !bare {
            return Ok(());
        }
        self.frames.insert(key_of(class, outer), frame)?;
        Ok(())
    }

    /// The frame that was entered with that class and that frame around it.
    pub fn frame(&self, class: ClassId, outer: Option<FrameId>) -> Option<FrameId>
        ensures { option_map number_of result ≡ entered_held self.now class.0 (option_map number_of outer) }
    {
        match self.frames.get(&key_of(class, outer)) {
            Some(frame) => Some(FrameId(*frame)),
            None => None,
        }
    }
}
