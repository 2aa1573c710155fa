//! The ends of connects.
#![tactic(auto, using(crate::proofs::Staying::staying))]

ghost use Rattle.std.specs.Prelude.{◌≡◌, ◌++◌, ◌∷◌, [], true, false, flat_map, map, option_map, Ok, IfOk, OnOk};
ghost use Rattle.std.specs.Option.{option_to_list};
ghost use Rattle.mo_flat.specs.declared.connect.Side.TheVariants.{Neither};
ghost use Rattle.mo_scope.specs.Sights.{scope_at, member_at};
ghost use Rattle.mo_scope.specs.declared.row.Member.{Member as MemberAt};
ghost use Rattle.mo_scope.specs.Outcome.{Gives as GivesSeen};
ghost use Rattle.mo_scope.specs.Places.{Every};
ghost use Rattle.mo_scope.specs.Worlds.{Grows, IsFrame, frames_of, table_in};
ghost use Rattle.mo_names.specs.Sights.{IsMember};
ghost use Rattle.mo_syntax.specs.Outcome.{and_then};
ghost use Rattle.mo_typing.specs.Outcome.{Gives, each};
ghost use Rattle.mo_typing.specs.Subscripts.{subscripts as subscripts_within};
ghost use Rattle.mo_eval.specs.Ends.{first_identifier};
ghost use Rattle.mo_eval.specs.References.{last_of as last_among};
ghost use Rattle.mo_equations.specs.Connectors.{leaves_below as leaves_below_path};
ghost use Rattle.mo_equations.specs.Ends.{connect_of as connects_of, declared_behind as behind_declared, declared_by_name as declared_by, end_of as end_by, is_connector_member as is_connector_by, leaves_of as leaves_of_element, side_by, side_of as side_of_name};
ghost use Rattle.mo_equations.specs.Leaves.{behind as behind_path};
ghost use Rattle.mo_equations.specs.steps.Desks.{IsDesk, Stays};
ghost use Rattle.mo_equations.specs.steps.Standing.{tree_in};
ghost use Rattle.mo_equations.specs.steps.Ends.{IsBrokenRule, component_in_found, component_or_broken, elements_in, end_beside as end_beside_elements, end_selected, first_component};
ghost use Rattle.mo_equations.specs.steps.LeafTables.{AreLeaves, leaf_at_number};

use crate::desk::Desk;
use crate::leaves::{Leaves, is_connector_class, is_joined_leaf};
use crate::paths::{Step, text_of_path};
use crate::standing::{copied_step, path_of_element};
use crate::table::same_step;
use mo_eval::{Ended, Selected};
use mo_flat::{ArrayExpr, ArrayNode, Connect, End, EndLeaf, Side, Subscript};
use mo_lookup::{child_of_member, enter_component, find_declared, find_element};
use mo_names::{Found, Reached};
use mo_scope::{Member, ScopeAt, Scopes, Sort, copied};
use mo_syntax::{
    Boxed, InstancePath, Kind, List, NoMemory, Part, Place, Reference, Stop, pushed, rules, stop,
};
use mo_typing::subscripts;
use std::alloc::Global;

/// The place of a name: that of its first identifier.
fn place_of(parts: &[Part]) -> Place
    ensures { result ≡ first_identifier parts.now }
{
    match parts {
        [] => Place { file: 0, byte: 0 },
        [part, ..] => part.place,
    }
}

/// What stands in a path behind another one, None where that does not lead to it.
fn behind<'p>(path: &[Step], other: &'p [Step]) -> Option<&'p [Step]>
    ensures { option_map (λ below. below.now) result ≡ behind_path path.now other.now }
{
    match path {
        [] => Some(other),
        [step, more @ ..] => match other {
            [] => None,
            [first, rest @ ..] => {
                if same_step(step, first) {
                    behind(more, rest)
                } else {
                    None
                }
            }
        },
    }
}

/// A copy of names with their indices.
fn copied_steps(alloc: Global, steps: &[Step]) -> Result<List<Step>, NoMemory>
    ensures { IfOk result (λ made. made ≡ steps.now) }
{
    let mut made = List::new(alloc);
    for step in steps {
        pushed(&mut made, copied_step(alloc, &step.0, step.1.as_slice()))?;
    }
    Ok(made)
}

/// Puts the leaf of a variable at the end, if it lies below a path.
fn put_leaf<'i, 't>(
    alloc: Global,
    _s: &Scopes<'t>,
    leaves: &Leaves<'i, 't>,
    path: &[Step],
    number: u32,
    made: &mut List<EndLeaf>,
) -> Result<(), NoMemory>
    requires { AreLeaves _s.now leaves.now }
    ensures { OnOk result (made.new ≡ made.old ++ leaf_at_number (tree_in _s.now leaves.now) path.now number) }
{
    if number == 0 {
        return Err(NoMemory);
    }
    let place = (number - 1) as usize;
    let Some(variable) = leaves.variable(place) else {
        return Err(NoMemory);
    };
    let Some(flow) = leaves.flows.get(place) else {
        return Err(NoMemory);
    };
    if !is_joined_leaf(&variable.leaf) {
        return Ok(());
    }
    let Some(below) = behind(path, variable.path.0.as_slice()) else {
        return Ok(());
    };
    let below = copied_steps(alloc, below)?;
    made.push(EndLeaf {
        below: InstancePath(below),
        flow: *flow,
        variable: number,
        place: variable.place,
    })
}

/// The leaves of these numbers that lie below a path.
fn leaves_of_numbers<'i, 't>(
    alloc: Global,
    s: &Scopes<'t>,
    leaves: &Leaves<'i, 't>,
    path: &[Step],
    numbers: &[u32],
) -> Result<List<EndLeaf>, NoMemory>
    requires { AreLeaves s.now leaves.now }
    ensures { IfOk result (λ made. made ≡ flat_map (leaf_at_number (tree_in s.now leaves.now) path.now) numbers.now) }
{
    let mut made = List::new(alloc);
    for number in numbers {
        put_leaf(alloc, s, leaves, path, *number, &mut made)?;
    }
    Ok(made)
}

/// The leaves of connectors below a path, in their order.
pub(crate) fn leaves_below<'i, 't>(
    alloc: Global,
    s: &Scopes<'t>,
    leaves: &Leaves<'i, 't>,
    path: &[Step],
) -> Result<List<EndLeaf>, NoMemory>
    requires { AreLeaves s.now leaves.now }
    ensures { IfOk result (λ made. made ≡ leaves_below_path (tree_in s.now leaves.now) path.now) }
{
    let text = text_of_path(alloc, path)?;
    match leaves.below.get(text.as_str()) {
        Some(numbers) => leaves_of_numbers(alloc, s, leaves, path, numbers.as_slice()),
        None => Ok(List::new(alloc)),
    }
}

/// The leaves of an element; a connector that has no instance has none.
fn leaves_of<'i, 't>(
    alloc: Global,
    s: &Scopes<'t>,
    leaves: &Leaves<'i, 't>,
    element: &(Member<'t>, List<u32>),
) -> Result<List<EndLeaf>, NoMemory>
    requires member { IsMember s.now element.now.0 }
    requires leaves { AreLeaves s.now leaves.now }
    ensures { IfOk result (λ made. made ≡ leaves_of_element (tree_in s.now leaves.now) (member_at s.now element.now.0, element.now.1)) }
{
    match path_of_element(alloc, s, &element.0, element.1.as_slice())? {
        Some(path) => leaves_below(alloc, s, leaves, path.as_slice()),
        None => Ok(List::new(alloc)),
    }
}

/// The leaves of each element.
fn leaves_of_all<'i, 't>(
    alloc: Global,
    s: &Scopes<'t>,
    leaves: &Leaves<'i, 't>,
    elements: &[(Member<'t>, List<u32>)],
) -> Result<List<List<EndLeaf>>, NoMemory>
    requires members { Every (λ element. IsMember s.now element.0) elements.now }
    requires leaves { AreLeaves s.now leaves.now }
    ensures { IfOk result (λ made. made ≡ map (leaves_of_element (tree_in s.now leaves.now)) (elements_in (frames_of s.now) elements.now)) }
{
    let mut made = List::new(alloc);
    for element in elements {
        pushed(&mut made, leaves_of(alloc, s, leaves, element))?;
    }
    Ok(made)
}

/// Whether a component is a connector by the class of its type.
fn is_connector_member<'t>(
    alloc: Global,
    s: &mut Scopes<'t>,
    member: &Member<'t>,
) -> Result<bool, Stop>
    requires { IsMember s.old member.now }
    ensures grows { Grows s.old s.new }
    ensures value { Gives result (is_connector_by (table_in s.old) (member_at s.old member.now)) }
{
    let child = child_of_member(alloc, s, member, &[])?;
    Ok(is_connector_class(s, s.class_of(child.class)))
}

/// A component that is declared; rule 12 where a class is.
fn component_only<'t>(member: Member<'t>, place: Place) -> Result<Member<'t>, Stop>
    ensures value { GivesSeen (λ (next : MemberAt). next) result (component_or_broken place member.entry) }
    ensures same { IfOk result (λ next. next ≡ member.entry) }
{
    match member.declares.sort {
        Sort::Class {
            number: _,
            encapsulated: _,
        } => Err(stop(rules::NAME_NOT_FOUND, place)),
        Sort::Component(_) => Ok(member),
    }
}

/// The component of that name in a component, as it is declared.
fn declared_behind<'t>(
    alloc: Global,
    s: &mut Scopes<'t>,
    member: &Member<'t>,
    part: &Part,
) -> Result<Member<'t>, Stop>
    requires { IsMember s.old member.now }
    ensures grows { Grows s.old s.new }
    ensures value { GivesSeen (member_at s.new) result (behind_declared (table_in s.old) (member_at s.old member.now) part.now) }
    ensures exists { IfOk result (IsMember s.new) }
{
    let frame = enter_component(alloc, s, member, &[])?;
    match find_element(alloc, s, frame, &part.name, part.place) {
        Ok(Reached::Element(next)) => component_only(next, part.place),
        Ok(Reached::Other(_)) => Err(stop(rules::NAME_NOT_FOUND, part.place)),
        Ok(Reached::Absent) => Err(stop(rules::NAME_NOT_FOUND, part.place)),
        Err(stop) => Err(stop),
    }
}

/// The component that was found; rule 12 where no component was.
fn component_found<'t>(found: Found<'t>, place: Place) -> Result<Member<'t>, Stop>
    ensures { GivesSeen (λ (next : MemberAt). next) result (component_in_found place found.entry) }
{
    match found {
        Found::Component(_, member) => Ok(member),
        Found::Class(_, _) => Err(stop(rules::NAME_NOT_FOUND, place)),
        Found::Literal(_, _) => Err(stop(rules::NAME_NOT_FOUND, place)),
        Found::Iteration(_) => Err(stop(rules::NAME_NOT_FOUND, place)),
        Found::Function(_) => Err(stop(rules::NAME_NOT_FOUND, place)),
        Found::Time => Err(stop(rules::NAME_NOT_FOUND, place)),
    }
}

/// The first component of a name, as it is declared.
fn declared_first<'t>(
    alloc: Global,
    s: &mut Scopes<'t>,
    at: &ScopeAt,
    top: bool,
    part: &Part,
) -> Result<Member<'t>, Stop>
    requires { IsFrame s.old at.now.frame.0 }
    ensures grows { Grows s.old s.new }
    ensures value { GivesSeen (member_at s.new) result (first_component (table_in s.old) top (scope_at s.old at.now) part.now) }
    ensures exists { IfOk result (IsMember s.new) }
{
    match find_declared(alloc, s, at, top, &part.name, part.place) {
        Ok(found) => component_found(found, part.place),
        Err(stop) => Err(stop),
    }
}

/// The components that a name finds, one behind the other, as they are declared.
fn declared_by_name<'t>(
    alloc: Global,
    s: &mut Scopes<'t>,
    at: &ScopeAt,
    reference: &Reference,
) -> Result<List<Member<'t>>, Stop>
    requires { IsFrame s.old at.now.frame.0 }
    ensures grows { Grows s.old s.new }
    ensures value { GivesSeen (map (member_at s.new)) result (declared_by (table_in s.old) (scope_at s.old at.now) reference.now) }
    ensures exist { IfOk result (Every (IsMember s.new)) }
{
    let mut made = List::new(alloc);
    let [first, others @ ..] = reference.parts.as_slice() else {
        return Ok(made);
    };
    let mut member = declared_first(alloc, s, at, reference.top, first)?;
    for part in others {
        made.push(member)?;
        member = declared_behind(alloc, s, &member, part)?;
    }
    made.push(member)?;
    Ok(made)
}

/// Whether each component is a connector.
fn connectors_among<'t>(
    alloc: Global,
    s: &mut Scopes<'t>,
    members: &[Member<'t>],
) -> Result<List<bool>, Stop>
    requires { Every (IsMember s.old) members.now }
    ensures grows { Grows s.old s.new }
    ensures value { Gives result (each (is_connector_by (table_in s.old)) (map (member_at s.old) members.now)) }
{
    let mut made = List::new(alloc);
    for member in members {
        made.push(is_connector_member(alloc, s, member)?)?;
    }
    Ok(made)
}

/// The last of them.
fn last_of(first: bool, others: &[bool]) -> bool
    ensures { result ≡ last_among first others.now }
{
    match others {
        [] => first,
        [.., last] => *last,
    }
}

/// How an end lies whose first component is a connector.
fn side_from_connector(others: &[bool]) -> Side
    ensures { result ≡ side_by (true ∷ others.now) }
{
    if last_of(true, others) {
        Side::Outside
    } else {
        Side::Neither
    }
}

/// How an end lies whose first component is no connector.
fn side_from_other(second: bool, others: &[bool]) -> Side
    ensures { result ≡ side_by (false ∷ second ∷ others.now) }
{
    if !second {
        return Side::Neither;
    }
    if last_of(second, others) {
        Side::Inside
    } else {
        Side::Neither
    }
}

/// How an end lies whose first component is no connector, by the others.
fn side_behind_other(others: &[bool]) -> Side
    ensures { result ≡ side_by (false ∷ others.now) }
{
    match others {
        [] => Side::Neither,
        [second, more @ ..] => side_from_other(*second, more),
    }
}

/// How an end lies, by whether its first component is a connector and which of the others are.
fn side_from(first: bool, others: &[bool]) -> Side
    ensures { result ≡ side_by (first ∷ others.now) }
{
    if first {
        side_from_connector(others)
    } else {
        side_behind_other(others)
    }
}

/// How an end lies, by which of its components are connectors.
fn side_of_connectors(connectors: &[bool]) -> Side
    ensures { result ≡ side_by connectors.now }
{
    match connectors {
        [] => Side::Neither,
        [first, others @ ..] => side_from(*first, others),
    }
}

/// The connectors among the components of a name.
fn connectors_of_name<'t>(
    alloc: Global,
    s: &mut Scopes<'t>,
    at: &ScopeAt,
    reference: &Reference,
) -> Result<List<bool>, Stop>
    requires { IsFrame s.old at.now.frame.0 }
    ensures grows { Grows s.old s.new }
    ensures value { Gives result (and_then (declared_by (table_in s.old) (scope_at s.old at.now) reference.now) (each (is_connector_by (table_in s.old)))) }
{
    let members = declared_by_name(alloc, s, at, reference)?;
    connectors_among(alloc, s, members.as_slice())
}

/// An end whose names break a rule lies neither inside nor outside.
fn side_of_stop(stop: Stop) -> Result<Side, NoMemory>
    ensures neither { IfOk result (λ side. side ≡ Neither) }
    ensures broken { IfOk result (λ side. IsBrokenRule stop) }
{
    match stop {
        Stop::Broken(_) => Ok(Side::Neither),
        Stop::NoMemory => Err(NoMemory),
    }
}

/// How an end lies to the class that holds the connect.
fn side_of<'t>(
    alloc: Global,
    s: &mut Scopes<'t>,
    at: &ScopeAt,
    reference: &Reference,
) -> Result<Side, NoMemory>
    requires { IsFrame s.old at.now.frame.0 }
    ensures grows { Grows s.old s.new }
    ensures value { IfOk result (λ side. side ≡ side_of_name (table_in s.old) (scope_at s.old at.now) reference.now) }
{
    match connectors_of_name(alloc, s, at, reference) {
        Ok(connectors) => Ok(side_of_connectors(connectors.as_slice())),
        Err(stop) => side_of_stop(stop),
    }
}

/// Asks subscripts, each of its dimension: rule 32 at the first one that lies outside.
fn checked_subscripts(
    alloc: Global,
    place: Place,
    dims: List<u32>,
    subs: List<Subscript>,
) -> Result<(), Stop>
    ensures { Gives result (subscripts_within dims subs) }
{
    let node = ArrayNode::Vars {
        vars: List::new(alloc),
        kind: Kind::Real,
        dims,
        subs,
    };
    let e = ArrayExpr {
        place,
        node: Boxed::new(alloc, node)?,
    };
    subscripts(alloc, &e)
}

/// Dimensions whose subscripts lie inside: rule 32 at the first one that lies outside.
fn within(
    alloc: Global,
    place: Place,
    dims: List<u32>,
    subs: List<Subscript>,
) -> Result<List<u32>, Stop>
    ensures { Gives result (and_then (subscripts_within dims subs) (λ _. Ok dims)) }
{
    let shape = copied(alloc, dims.as_slice())?;
    checked_subscripts(alloc, place, shape, subs)?;
    Ok(dims)
}

/// An end that is no connector.
fn end_of_neither(alloc: Global, place: Place, dims: List<u32>) -> End
    ensures { result ≡ record { place = place; side = Neither; dims = dims; elements = [] } }
{
    End {
        place,
        side: Side::Neither,
        dims,
        elements: List::new(alloc),
    }
}

/// An end that selects these elements, with their leaves: rule 32 at the first of its subscripts that lies outside.
fn end_beside<'i, 't>(
    alloc: Global,
    s: &Scopes<'t>,
    desk: &Desk<'i, 't>,
    place: Place,
    selected: Selected<'t>,
    side: Side,
) -> Result<End, Stop>
    requires members { Every (λ element. IsMember s.now element.0) selected.elements }
    requires desk { IsDesk s.now desk.now }
    ensures { Gives result (end_beside_elements (tree_in s.now desk.now.leaves) place selected.entry.dims selected.entry.subs (elements_in (frames_of s.now) selected.entry.elements) side) }
{
    let dims = within(alloc, place, selected.dims, selected.subs)?;
    let elements = leaves_of_all(alloc, s, &desk.leaves, selected.elements.as_slice())?;
    Ok(End {
        place,
        side,
        dims,
        elements,
    })
}

/// An end that selects these elements. Where it is neither inside nor outside, its subscripts may lie outside their dimensions.
fn end_with<'i, 't>(
    alloc: Global,
    s: &Scopes<'t>,
    desk: &Desk<'i, 't>,
    place: Place,
    selected: Selected<'t>,
    side: Side,
) -> Result<End, Stop>
    requires members { Every (λ element. IsMember s.now element.0) selected.elements }
    requires desk { IsDesk s.now desk.now }
    ensures { Gives result (end_selected (tree_in s.now desk.now.leaves) place selected.entry.dims selected.entry.subs (elements_in (frames_of s.now) selected.entry.elements) side) }
{
    match side {
        Side::Neither => Ok(end_of_neither(alloc, place, selected.dims)),
        Side::Inside => end_beside(alloc, s, desk, place, selected, Side::Inside),
        Side::Outside => end_beside(alloc, s, desk, place, selected, Side::Outside),
    }
}

/// An end: its names are looked up, then its conditions, dimensions and subscripts are asked; None where a component is removed.
fn end_of<'i, 't>(
    alloc: Global,
    s: &mut Scopes<'t>,
    desk: &mut Desk<'i, 't>,
    at: &ScopeAt,
    reference: &Reference,
) -> Result<Option<End>, Stop>
    requires frame { IsFrame s.old at.now.frame.0 }
    requires desk { IsDesk s.old desk.old }
    ensures stays { Stays s.old s.new desk.old desk.new }
    ensures exact { Gives result (end_by (tree_in s.old desk.old.leaves) (scope_at s.old at.now) reference.now) }
{
    let place = place_of(reference.parts.as_slice());
    match desk.reader.end(s, at, reference)? {
        Ended::Removed => Ok(None),
        Ended::Other => Ok(Some(end_of_neither(alloc, place, List::new(alloc)))),
        Ended::Selected(selected) => {
            let side = side_of(alloc, s, at, reference)?;
            Ok(Some(end_with(alloc, s, desk, place, selected, side)?))
        }
    }
}

/// A connect. One that names a removed component is removed, and nothing behind that component is asked.
pub(crate) fn connect_of<'i, 't>(
    alloc: Global,
    s: &mut Scopes<'t>,
    desk: &mut Desk<'i, 't>,
    at: &ScopeAt,
    place: Place,
    left: &Reference,
    right: &Reference,
) -> Result<Option<Connect>, Stop>
    requires frame { IsFrame s.old at.now.frame.0 }
    requires desk { IsDesk s.old desk.old }
    ensures stays { Stays s.old s.new desk.old desk.new }
    ensures exact { GivesSeen option_to_list result (connects_of (tree_in s.old desk.old.leaves) (scope_at s.old at.now) place left.now right.now) }
{
    let Some(left) = end_of(alloc, s, desk, at, left)? else {
        return Ok(None);
    };
    match end_of(alloc, s, desk, at, right)? {
        Some(right) => Ok(Some(Connect { place, left, right })),
        None => Ok(None),
    }
}
