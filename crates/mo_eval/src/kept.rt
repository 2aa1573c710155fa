//! What a reader keeps: the values of elements, and the conditions and dimensions of components, each for the number of references that
//! might still be read when it was found. It is used where as many may be read.
ghost use Rattle.std.specs.Prelude.{◌≡◌, ℕ, IfOk, IfSome, IsTrue, Ok};
ghost use Rattle.mo_scope.specs.Worlds.{World, frames_of, table_in};
ghost use Rattle.mo_names.specs.Sights.{IsMember, member_of};
ghost use Rattle.mo_eval.specs.Keeping.{IsBinding, IsKept};
ghost use Rattle.mo_values.specs.Scalars.{Known};
ghost use Rattle.mo_eval.specs.Seen.{element_seen};
ghost use Rattle.mo_eval.specs.Values.{component_dims, there_of, value_of_element};

use crate::reader::{Bound, KeptBinding, KeptDims, KeptThere, KeptValue, Key, Reader};
use crate::virtuals::Element;
use mo_scope::{Member, copied};
use mo_syntax::{Broken, List, NoMemory};
use mo_values::Scalar;

/// Whether two components are one: the same element of the class of one frame.
fn is_same<'t>(a: &Member<'t>, b: &Member<'t>) -> bool
    ensures { IsTrue result → (world : World) → IsMember world a.now → IsMember world b.now → member_of (frames_of world) a.now ≡ member_of (frames_of world) b.now }
{
    a.home == b.home && a.item == b.item && a.hidden == b.hidden
}

/// Whether two elements have the same value.
fn is_same_element<'t>(a: &Element<'t>, b: &Element<'t>) -> bool
    ensures { IsTrue result → (world : World) → IsMember world a.now.member → IsMember world b.now.member → (left : ℕ) (known : Known) → value_of_element (table_in world) left (element_seen (frames_of world) a.now) ≡ Ok known → value_of_element (table_in world) left (element_seen (frames_of world) b.now) ≡ Ok known }
{
    if !is_same(&a.member, &b.member) {
        return false;
    }
    if a.kind != b.kind || a.constant != b.constant {
        return false;
    }
    a.index.as_slice() == b.index.as_slice()
}

/// A number for an index, the same one wherever it is asked for.
fn number_of(index: &[u32]) -> u64 {
    let mut number: u64 = 0;
    for n in index {
        number = number.wrapping_mul(1_000_003).wrapping_add(u64::from(*n));
    }
    number
}

/// Where what is kept is looked for. Elements that differ may have one key: so the row that is found there is compared.
fn key_of<'t>(left: u64, member: &Member<'t>, index: &[u32]) -> Key {
    Key {
        home: member.home.0,
        item: member.item,
        left,
        index: number_of(index),
    }
}

/// What is kept of an element.
pub(crate) fn value_kept<'t>(
    reader: &Reader<'t>,
    left: u64,
    element: &Element<'t>,
) -> Option<Option<Scalar>>
    ensures { (world : World) → IsKept world reader.now → IsMember world element.now.member → IfSome result (λ known. value_of_element (table_in world) left (element_seen (frames_of world) element.now) ≡ Ok known) }
{
    let key = key_of(left, &element.member, element.index.as_slice());
    let Some(place) = reader.value_places.get(&key) else {
        return None;
    };
    let Some(kept) = reader.values.as_slice().get(*place) else {
        return None;
    };
    if kept.height == left && is_same_element(&kept.element, element) {
        return Some(kept.known);
    }
    None
}

/// Keeps the value of an element.
pub(crate) fn keep_value<'t>(
    reader: &mut Reader<'t>,
    left: u64,
    element: &Element<'t>,
    known: Option<Scalar>,
) -> Result<(), NoMemory>
    ensures { (world : World) → IsKept world reader.old → IsMember world element.now.member → value_of_element (table_in world) left (element_seen (frames_of world) element.now) ≡ Ok known → IsKept world reader.new }
{
    let key = key_of(left, &element.member, element.index.as_slice());
    let index = copied(reader.alloc, element.index.as_slice())?;
    reader.value_places.insert(key, reader.values.len())?;
    reader.values.push(KeptValue {
        element: Element {
            member: element.member,
            index,
            kind: element.kind,
            place: element.place,
            constant: element.constant,
        },
        height: left,
        known,
    })?;
    Ok(())
}

/// Whether a component is there, where that is kept.
pub(crate) fn there_kept<'t>(reader: &Reader<'t>, left: u64, member: &Member<'t>) -> Option<bool>
    ensures { (world : World) → IsKept world reader.now → IsMember world member.now → IfSome result (λ there. there_of (table_in world) left (member_of (frames_of world) member.now) ≡ Ok there) }
{
    let Some(place) = reader.condition_places.get(&key_of(left, member, &[])) else {
        return None;
    };
    let Some(kept) = reader.conditions.as_slice().get(*place) else {
        return None;
    };
    if kept.left == left && is_same(&kept.member, member) {
        return Some(kept.there);
    }
    None
}

/// Keeps whether a component is there.
pub(crate) fn keep_there<'t>(
    reader: &mut Reader<'t>,
    left: u64,
    member: &Member<'t>,
    there: bool,
) -> Result<(), NoMemory>
    ensures { (world : World) → IsKept world reader.old → IsMember world member.now → there_of (table_in world) left (member_of (frames_of world) member.now) ≡ Ok there → IsKept world reader.new }
{
    let key = key_of(left, member, &[]);
    reader
        .condition_places
        .insert(key, reader.conditions.len())?;
    reader.conditions.push(KeptThere {
        member: *member,
        left,
        there,
    })?;
    Ok(())
}

/// The dimensions of a component, where these are kept.
pub(crate) fn dims_kept<'t>(
    reader: &Reader<'t>,
    left: u64,
    member: &Member<'t>,
) -> Result<Option<List<u32>>, NoMemory>
    ensures { (world : World) → IsKept world reader.now → IsMember world member.now → IfOk result (λ found. IfSome found (λ dims. component_dims (table_in world) left (member_of (frames_of world) member.now) ≡ Ok dims)) }
{
    let Some(place) = reader.dims_places.get(&key_of(left, member, &[])) else {
        return Ok(None);
    };
    let Some(kept) = reader.dims.as_slice().get(*place) else {
        return Ok(None);
    };
    if kept.left == left && is_same(&kept.member, member) {
        return Ok(Some(copied(reader.alloc, kept.dims.as_slice())?));
    }
    Ok(None)
}

/// Keeps the dimensions of a component.
pub(crate) fn keep_dims<'t>(
    reader: &mut Reader<'t>,
    left: u64,
    member: &Member<'t>,
    dims: &[u32],
) -> Result<(), NoMemory>
    ensures { (world : World) → IsKept world reader.old → IsMember world member.now → component_dims (table_in world) left (member_of (frames_of world) member.now) ≡ Ok dims.now → IsKept world reader.new }
{
    let dims = copied(reader.alloc, dims)?;
    let key = key_of(left, member, &[]);
    reader.dims_places.insert(key, reader.dims.len())?;
    reader.dims.push(KeptDims {
        member: *member,
        left,
        dims,
    })?;
    Ok(())
}

/// Behind a variable that broke a rule nothing is read ahead any more: so no more of them are read than are needed.
pub(crate) fn heed<'t>(reader: &mut Reader<'t>, outcome: &Result<Option<Scalar>, Broken>)
    ensures { (world : World) → IsKept world reader.old → IsKept world reader.new }
{
    reader.reads_ahead = reader.reads_ahead && outcome.is_ok();
}

/// Takes out the resolved binding of a component, where one is kept.
pub(crate) fn take_binding<'t>(
    reader: &mut Reader<'t>,
    left: u64,
    member: &Member<'t>,
) -> Option<Bound<'t>>
    ensures kept { (world : World) → IsKept world reader.old → IsKept world reader.new }
    ensures is { (world : World) → IsKept world reader.old → IsMember world member.now → IfSome result (IsBinding world left member.now) }
{
    let Some(place) = reader.binding_places.get(&key_of(left, member, &[])) else {
        return None;
    };
    let place = *place;
    let Some(kept) = reader.bindings.get(place) else {
        return None;
    };
    if kept.left == left && is_same(&kept.member, member) {
        return reader.bindings[place].bound.take();
    }
    None
}

/// Keeps the resolved binding of an array.
pub(crate) fn keep_binding<'t>(
    reader: &mut Reader<'t>,
    left: u64,
    element: &Element<'t>,
    bound: Bound<'t>,
) -> Result<(), NoMemory>
    ensures { (world : World) → IsKept world reader.old → IsMember world element.now.member → IsBinding world left element.now.member bound.entry → IsKept world reader.new }
{
    if element.index.is_empty() {
        return Ok(());
    }
    let key = key_of(left, &element.member, &[]);
    reader.binding_places.insert(key, reader.bindings.len())?;
    reader.bindings.push(KeptBinding {
        member: element.member,
        left,
        bound: Some(bound),
    })?;
    Ok(())
}
