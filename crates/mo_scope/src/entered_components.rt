//! The frames that components were entered as.
ghost use Rattle.std.specs.Prelude.{◌≡◌, [], true, IfOk, IfSome};
ghost use Rattle.mo_scope.specs.Kept.{IsHeld};
ghost use Rattle.mo_scope.specs.KeptComponents.{IsEnteredSo, IsMadeSo, OldOrEntered};

use crate::entered::number_of_all;
use crate::row::Member;
use mo_syntax::{FrameId, List, NoMemory};
use std::alloc::Global;
use std::collections::HashMap;

/// What a component that was entered at an index is looked for by. Indices that differ may have one key: so the component that is
/// found there is compared.
#[derive(Clone, Copy, PartialEq, Eq, Hash)]
pub(crate) struct ComponentKey {
    home: u32,
    item: u32,
    hidden: bool,
    index: u64,
}

/// A component that was entered at an index, and the frame that it was entered as.
#[derive(Drop)]
pub(crate) struct EnteredComponent {
    home: FrameId,
    item: u32,
    hidden: bool,
    index: List<u32>,
    pub frame: FrameId,
}

/// The components that were entered, and where each may stand among them.
#[derive(Drop)]
pub(crate) struct EnteredComponents {
    components: Vec<EnteredComponent>,
    places: HashMap<ComponentKey, usize>,
}

/// What a component that is entered at an index is looked for by.
fn key_of(member: &Member, index: &[u32]) -> ComponentKey {
    ComponentKey {
        home: member.home.0,
        item: member.item,
        hidden: member.hidden,
        index: number_of_all(index),
    }
}

impl EnteredComponent {
    /// A component that was entered at an index as that frame.
    fn new(
        alloc: Global,
        member: &Member,
        index: &[u32],
        frame: FrameId,
    ) -> Result<EnteredComponent, NoMemory>
        ensures { IfOk result (λ made. IsMadeSo made member.now index.now frame) }
    {
        let index = List::from_vec(index.to_vec(alloc)?);
        Ok(EnteredComponent {
            home: member.home,
            item: member.item,
            hidden: member.hidden,
            index,
            frame,
        })
    }

    /// Whether it is that component, entered at that index.
    fn is_entered_so(&self, member: &Member, index: &[u32]) -> bool
        ensures { result ≡ true → IsEnteredSo self.now member.now index.now }
    {
        if self.home.0 != member.home.0 {
            return false;
        }
        if self.item != member.item {
            return false;
        }
        if self.hidden != member.hidden {
            return false;
        }
        self.index.as_slice() == index
    }
}

impl EnteredComponents {
    /// None was entered.
    pub fn new(alloc: Global) -> EnteredComponents
        ensures { result.components.items ≡ [] }
    {
        EnteredComponents {
            components: Vec::new(alloc),
            places: HashMap::new(alloc),
        }
    }

    /// A component as it was entered at an index, None where it is not at hand.
    pub fn found(&self, member: &Member, index: &[u32]) -> Option<&EnteredComponent>
        ensures held { IfSome result (λ component. IsHeld self.now.components.items component.now) }
        ensures so { IfSome result (λ component. IsEnteredSo component.now member.now index.now) }
    {
        let Some(at) = self.places.get(&key_of(member, index)) else {
            return None;
        };
        match self.components.get(*at) {
            Some(component) => {
                if component.is_entered_so(member, index) {
                    Some(component)
                } else {
                    None
                }
            }
            None => None,
        }
    }

    /// Keeps the frame that a component was entered as at an index.
    #[tactic(auto, using(crate::proofs::KeptComponents::keeping))]
    pub fn put(
        &mut self,
        alloc: Global,
        member: &Member,
        index: &[u32],
        frame: FrameId,
    ) -> Result<(), NoMemory>
        ensures { OldOrEntered self.old.components.items self.new.components.items member.now index.now frame }
    {
        let made = EnteredComponent::new(alloc, member, index, frame)?;
        self.places
            .insert(key_of(member, index), self.components.len())?;
        self.components.push(made)?;
        Ok(())
    }
}
