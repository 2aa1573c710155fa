//! The values and the sizes of expressions, and what of components they are read from.
ghost use Rattle.std.specs.Prelude.{IfOk};
ghost use Rattle.mo_scope.specs.Outcome.{Gives as GivesSeen};
ghost use Rattle.mo_scope.specs.Sights.{member_at};
ghost use Rattle.mo_scope.specs.Worlds.{World, Grows, IsFrame, frames_of, table_in};
ghost use Rattle.mo_names.specs.Sights.{IsMember};
ghost use Rattle.mo_typing.specs.Outcome.{Gives};
ghost use Rattle.mo_eval.specs.Ends.{IsEnded, ended_at};
ghost use Rattle.mo_eval.specs.InScope.{ended_in_scope, resolved_for_value_in_scope, resolved_in_scope, sides_in_scope, sizes_in_scope, value_in_scope};
ghost use Rattle.mo_eval.specs.Seen.{AreThere, element_at, resolved_at, sides_at};
ghost use Rattle.mo_eval.specs.Values.{most_references, value_of_element, known_of, there_of, component_dims};
ghost use Rattle.mo_eval.specs.Keeping.{AreLayers, IsKept, bound_seen};
ghost use Rattle.mo_eval.specs.steps.Sites.{elements_in};
ghost use Rattle.mo_eval.specs.steps.Asking.{value_in};

use crate::alone::alone;
use crate::ends::{Ended, end_named};
use crate::layers::part_of_bound;
use crate::resolve::{Site, two};
use crate::variables::known_in;
use crate::virtuals::{Element, Resolved, Sides};
use crate::{components, dimensions};
use mo_scope::{Member, ScopeAt, Scopes};
use mo_syntax::{Expr, List, Place, Reference, Stop};
use mo_typing::kind_of;
use mo_values::layers::{self, Layered, answer, fitting};
use mo_values::{Context, Scalar, Value, if_it_has, value_with};
use std::alloc::Global;
use std::collections::HashMap;

/// How many references may be read, one within the other.
pub const MOST_REFERENCES: u64 = 256;

/// The value of an element, with the number of references that were left when it was found.
#[derive(Drop)]
pub struct KeptValue<'t> {
    pub(crate) element: Element<'t>,
    pub(crate) height: u64,
    pub(crate) known: Option<Scalar>,
}

/// Whether a component is there, with the number of references that were left when it was found.
#[derive(Drop)]
pub struct KeptThere<'t> {
    pub(crate) member: Member<'t>,
    pub(crate) left: u64,
    pub(crate) there: bool,
}

/// The dimensions of a component, with the number of references that were left when they were found.
#[derive(Drop)]
pub struct KeptDims<'t> {
    pub(crate) member: Member<'t>,
    pub(crate) left: u64,
    pub(crate) dims: List<u32>,
}

/// What binds the elements of a component, resolved, with its layers once these were asked.
#[derive(Drop)]
pub struct Bound<'t> {
    pub resolved: Resolved<'t>,
    /// None where they were not asked yet, or break a rule.
    pub layers: Option<Layered>,
}

/// The binding of a component, resolved with so many references left. It is the same for all its elements.
#[derive(Drop)]
pub struct KeptBinding<'t> {
    pub(crate) member: Member<'t>,
    pub(crate) left: u64,
    /// None while an element is read by it.
    pub(crate) bound: Option<Bound<'t>>,
}

/// The value of a resolved expression of that place at its pending indices.
fn value_of<'t>(
    reader: &mut Reader<'t>,
    s: &mut Scopes<'t>,
    place: Place,
    index: &[u32],
    resolved: &Resolved<'t>,
) -> Result<Value, Stop>
    requires there { AreThere s.old resolved.now.virtuals }
    requires kept { IsKept s.old reader.old }
    ensures grows { Grows s.old s.new }
    ensures kept { IsKept s.new reader.new }
    ensures exact { Gives result (value_in (elements_in s.old most_references) place index.now (resolved_at s.old resolved.now)) }
{
    fitting(reader.alloc, place, index, &resolved.expression)?;
    let kind = answer(kind_of(&resolved.expression))?;
    let known = known_in(
        reader,
        s,
        MOST_REFERENCES,
        &resolved.expression,
        index,
        resolved.virtuals.as_slice(),
    )?;
    Ok(value_with(kind, if_it_has(kind, known)))
}

/// Where what is kept of a component, or of its element, is looked for.
#[derive(Clone, Copy, PartialEq, Eq, Hash)]
pub struct Key {
    pub(crate) home: u32,
    pub(crate) item: u32,
    pub(crate) left: u64,
    /// A number for the index of the element.
    pub(crate) index: u64,
}

/// Reads values and sizes of expressions. It keeps what components have, so that each is read once: hold one for all calls over the
/// same files.
#[derive(Drop)]
pub struct Reader<'t> {
    pub(crate) alloc: Global,
    pub(crate) values: List<KeptValue<'t>>,
    pub(crate) conditions: List<KeptThere<'t>>,
    pub(crate) dims: List<KeptDims<'t>>,
    /// The place of the last row of each key, in the list of values, of conditions and of dimensions.
    pub(crate) value_places: HashMap<Key, usize>,
    pub(crate) condition_places: HashMap<Key, usize>,
    pub(crate) dims_places: HashMap<Key, usize>,
    pub(crate) bindings: Vec<KeptBinding<'t>>,
    pub(crate) binding_places: HashMap<Key, usize>,
    /// Whether variables are read ahead of a walk, as long as none broke a rule.
    pub(crate) reads_ahead: bool,
}

impl<'t> Reader<'t> {
    /// A reader that has read nothing.
    pub fn new(alloc: Global) -> Reader<'t>
        ensures { (world : World) → IsKept world result }
    {
        Reader {
            alloc,
            values: List::new(alloc),
            conditions: List::new(alloc),
            dims: List::new(alloc),
            value_places: HashMap::new(alloc),
            condition_places: HashMap::new(alloc),
            dims_places: HashMap::new(alloc),
            bindings: Vec::new(alloc),
            binding_places: HashMap::new(alloc),
            reads_ahead: true,
        }
    }

    /// The value of an expression in a scope at its pending indices, or the first rule that is broken: what is asked to resolve it, its
    /// kinds, its dimensions and how the indices fit them (rules 23, 31 and 33), its subscripts, then the value. An element whose kind
    /// is Real or String has none, nor has what depends on time. `NoMemory` is the only other answer.
    pub fn value(
        &mut self,
        s: &mut Scopes<'t>,
        at: &ScopeAt,
        e: &Expr,
        index: &[u32],
    ) -> Result<Value, Stop>
        requires frame { IsFrame s.old at.now.frame.0 }
        requires kept { IsKept s.old self.old }
        ensures grows { Grows s.old s.new }
        ensures kept { IsKept s.new self.new }
        ensures exact { Gives result (value_in_scope s.old at.now e.now index.now) }
    {
        let site = Site {
            at,
            left: MOST_REFERENCES,
            room: u64::MAX,
            context: Context::for_value(),
        };
        let resolved = alone(self, s, &site, e)?;
        value_of(self, s, e.place, index, &resolved)
    }

    /// The dimensions of an expression in a scope, or the first rule that is broken. `NoMemory` is the only other answer.
    pub fn sizes(&mut self, s: &mut Scopes<'t>, at: &ScopeAt, e: &Expr) -> Result<List<u32>, Stop>
        requires frame { IsFrame s.old at.now.frame.0 }
        requires kept { IsKept s.old self.old }
        ensures grows { Grows s.old s.new }
        ensures kept { IsKept s.new self.new }
        ensures exact { Gives result (sizes_in_scope s.old at.now e.now) }
    {
        let site = Site {
            at,
            left: MOST_REFERENCES,
            room: u64::MAX,
            context: Context::for_value(),
        };
        let resolved = alone(self, s, &site, e)?;
        layers::sizes(self.alloc, &resolved.expression)
    }

    /// An expression of the flat model, resolved in a scope where so many references may still be read, or the first rule that is
    /// broken. The components of its virtual variables exist. `NoMemory` is the only other answer.
    pub fn resolved(
        &mut self,
        s: &mut Scopes<'t>,
        at: &ScopeAt,
        left: u64,
        e: &Expr,
    ) -> Result<Resolved<'t>, Stop>
        requires frame { IsFrame s.old at.now.frame.0 }
        requires kept { IsKept s.old self.old }
        ensures grows { Grows s.old s.new }
        ensures kept { IsKept s.new self.new }
        ensures there { IfOk result (λ resolved. AreThere s.new resolved.virtuals) }
        ensures exact { GivesSeen (resolved_at s.new) result (resolved_in_scope s.old left at.now e.now) }
    {
        let site = Site {
            at,
            left,
            room: u64::MAX,
            context: Context::for_flat(),
        };
        alone(self, s, &site, e)
    }

    /// An expression that is read for its value, resolved in a scope where so many references may still be read, or the first rule that is
    /// broken. The components of its virtual variables exist. `NoMemory` is the only other answer.
    pub fn resolved_for_value(
        &mut self,
        s: &mut Scopes<'t>,
        at: &ScopeAt,
        left: u64,
        e: &Expr,
    ) -> Result<Resolved<'t>, Stop>
        requires frame { IsFrame s.old at.now.frame.0 }
        requires kept { IsKept s.old self.old }
        ensures grows { Grows s.old s.new }
        ensures kept { IsKept s.new self.new }
        ensures there { IfOk result (λ resolved. AreThere s.new resolved.virtuals) }
        ensures exact { GivesSeen (resolved_at s.new) result (resolved_for_value_in_scope s.old left at.now e.now) }
    {
        let site = Site {
            at,
            left,
            room: u64::MAX,
            context: Context::for_value(),
        };
        alone(self, s, &site, e)
    }

    /// The two sides of an equation of the flat model, resolved in a scope over one list of variables, the left one first; or the first
    /// rule that is broken. The components of the virtual variables exist. `NoMemory` is the only other answer.
    pub fn sides(
        &mut self,
        s: &mut Scopes<'t>,
        at: &ScopeAt,
        left: &Expr,
        right: &Expr,
    ) -> Result<Sides<'t>, Stop>
        requires frame { IsFrame s.old at.now.frame.0 }
        requires kept { IsKept s.old self.old }
        ensures grows { Grows s.old s.new }
        ensures kept { IsKept s.new self.new }
        ensures there { IfOk result (λ sides. AreThere s.new sides.virtuals) }
        ensures exact { GivesSeen (sides_at s.new) result (sides_in_scope s.old at.now left.now right.now) }
    {
        let site = Site {
            at,
            left: MOST_REFERENCES,
            room: u64::MAX,
            context: Context::for_flat(),
        };
        let mut virtuals = List::new(self.alloc);
        let (left, right) = two(self, s, &site, left, right, &mut virtuals)?;
        Ok(Sides {
            left,
            right,
            virtuals,
        })
    }

    /// What an end of a connect names in a scope, and the elements that it selects, or the first rule that is broken. An end is removed
    /// where the condition of a component that it names is false; nothing behind that component is asked. The components of the elements
    /// exist. `NoMemory` is the only other answer.
    pub fn end(
        &mut self,
        s: &mut Scopes<'t>,
        at: &ScopeAt,
        reference: &Reference,
    ) -> Result<Ended<'t>, Stop>
        requires frame { IsFrame s.old at.now.frame.0 }
        requires kept { IsKept s.old self.old }
        ensures grows { Grows s.old s.new }
        ensures kept { IsKept s.new self.new }
        ensures there { IfOk result (IsEnded s.new) }
        ensures exact { GivesSeen (ended_at s.new) result (ended_in_scope s.old at.now reference.now) }
    {
        let site = Site {
            at,
            left: MOST_REFERENCES,
            room: u64::MAX,
            context: Context::for_value(),
        };
        end_named(self, s, &site, reference)
    }

    /// What the binding of an element gives, where so many references may still be read, or the first rule that is broken. Without a
    /// binding it is not decided; a constant that is replaced breaks rule 28. `NoMemory` is the only other answer.
    pub fn value_of_element(
        &mut self,
        s: &mut Scopes<'t>,
        left: u64,
        element: &Element<'t>,
    ) -> Result<Option<Scalar>, Stop>
        requires member { IsMember s.old element.now.member }
        requires kept { IsKept s.old self.old }
        ensures grows { Grows s.old s.new }
        ensures kept { IsKept s.new self.new }
        ensures exact { Gives result (value_of_element (table_in s.old) left (element_at s.old element.now)) }
    {
        components::element_value(self, s, left, element)
    }

    /// What is known of a resolved expression at an index, where so many references may still be read; or the first rule that is broken.
    /// `NoMemory` is the only other answer.
    pub fn known(
        &mut self,
        s: &mut Scopes<'t>,
        left: u64,
        resolved: &Resolved<'t>,
        index: &[u32],
    ) -> Result<Option<Scalar>, Stop>
        requires there { AreThere s.old resolved.now.virtuals }
        requires kept { IsKept s.old self.old }
        ensures grows { Grows s.old s.new }
        ensures kept { IsKept s.new self.new }
        ensures exact { Gives result (known_of (table_in s.old) left (resolved_at s.old resolved.now) index.now) }
    {
        known_in(
            self,
            s,
            left,
            &resolved.expression,
            index,
            resolved.virtuals.as_slice(),
        )
    }

    /// What is known at an index of what binds a component, where so many references may still be read; or the first rule that is broken.
    /// Where its layers are known, of a list only the element is asked for. `NoMemory` is the only other answer.
    pub fn known_of_binding(
        &mut self,
        s: &mut Scopes<'t>,
        left: u64,
        bound: &Bound<'t>,
        index: &[u32],
    ) -> Result<Option<Scalar>, Stop>
        requires there { AreThere s.old bound.now.resolved.virtuals }
        requires layers { AreLayers bound.now }
        requires kept { IsKept s.old self.old }
        ensures grows { Grows s.old s.new }
        ensures kept { IsKept s.new self.new }
        ensures exact { Gives result (known_of (table_in s.old) left (bound_seen (frames_of s.old) bound.now) index.now) }
    {
        let (e, index) = part_of_bound(&*bound, &*index);
        let virtuals = bound.resolved.virtuals.as_slice();
        known_in(self, s, left, e, index, virtuals)
    }

    /// Whether a component is there by its condition, or the first rule that is broken: rule 40 at a condition that is no scalar Boolean,
    /// rule 28 at one without a value. `NoMemory` is the only other answer.
    pub fn is_there(&mut self, s: &mut Scopes<'t>, member: &Member<'t>) -> Result<bool, Stop>
        requires member { IsMember s.old member.now }
        requires kept { IsKept s.old self.old }
        ensures grows { Grows s.old s.new }
        ensures kept { IsKept s.new self.new }
        ensures exact { Gives result (there_of (table_in s.old) most_references (member_at s.old member.now)) }
    {
        components::is_there(self, s, MOST_REFERENCES, member)
    }

    /// The dimensions of a component: those that it declares, then those of its type, where `:` is taken from its binding; or the first
    /// rule that is broken. `NoMemory` is the only other answer.
    pub fn dims(&mut self, s: &mut Scopes<'t>, member: &Member<'t>) -> Result<List<u32>, Stop>
        requires member { IsMember s.old member.now }
        requires kept { IsKept s.old self.old }
        ensures grows { Grows s.old s.new }
        ensures kept { IsKept s.new self.new }
        ensures exact { Gives result (component_dims (table_in s.old) most_references (member_at s.old member.now)) }
    {
        dimensions::dims(self, s, MOST_REFERENCES, member)
    }
}
