//! What replaces constants, kept so that each is read once where as many references are left.
ghost use Rattle.std.specs.Prelude.{◌≡◌, IfOk, IfSome, IsTrue, Ok};
ghost use Rattle.mo_flat.specs.declared.expr.FlatExpr.{FlatExpr as Expression};
ghost use Rattle.mo_scope.specs.Worlds.{World, frames_of, table_in};
ghost use Rattle.mo_names.specs.Sights.{IsMember, member_of};
ghost use Rattle.mo_eval.specs.Seen.{element_at};
ghost use Rattle.mo_equations.specs.Leaves.{number_of};
ghost use Rattle.mo_equations.specs.Replacing.{constant as constant_by_left};
ghost use Rattle.mo_equations.specs.steps.Desks.{IsDesk, Stays};
ghost use Rattle.mo_equations.specs.steps.Standing.{tree_in};
ghost use Rattle.mo_equations.specs.steps.Flats.{IsFlat};

use crate::desk::{Desk, KeptConstant};
use crate::flat::Flat;
use crate::levels::may_replace;
use mo_eval::Element;
use mo_scope::{Member, Scopes, copied};
use mo_syntax::NoMemory;
use std::alloc::Global;

/// Whether two components are one: the same element of the class of one frame.
fn is_same<'t>(a: &Member<'t>, b: &Member<'t>) -> bool
    ensures { IsTrue result → (world : World) → IsMember world a.now → IsMember world b.now → member_of (frames_of world) a.now ≡ member_of (frames_of world) b.now }
{
    a.home == b.home && a.item == b.item && a.hidden == b.hidden
}

/// Whether two elements are one, wherever their references stand.
fn is_same_element<'t>(a: &Element<'t>, b: &Element<'t>) -> bool
    ensures member { IsTrue result → (world : World) → IsMember world a.now.member → IsMember world b.now.member → member_of (frames_of world) a.now.member ≡ member_of (frames_of world) b.now.member }
    ensures index { IsTrue result → a.now.index ≡ b.now.index }
    ensures kind { IsTrue result → a.now.kind ≡ b.now.kind }
    ensures constant { IsTrue result → a.now.constant ≡ b.now.constant }
{
    if !is_same(&a.member, &b.member) {
        return false;
    }
    if a.kind != b.kind || a.constant != b.constant {
        return false;
    }
    a.index.as_slice() == b.index.as_slice()
}

/// What was kept of a constant, None where nothing was.
pub(crate) fn kept_constant<'i, 't>(
    alloc: Global,
    _s: &Scopes<'t>,
    desk: &Desk<'i, 't>,
    left: u64,
    element: &Element<'t>,
) -> Result<Option<Flat>, NoMemory>
    requires member { IsMember _s.now element.now.member }
    requires desk { IsDesk _s.now desk.now }
    ensures { IfOk result (λ found. IfSome found (λ flat. (e : Expression) × (constant_by_left (table_in _s.now) (number_of (tree_in _s.now desk.now.leaves)) left (element_at _s.now element.now) ≡ Ok e) × IsFlat flat e)) }
{
    for kept in desk.constants.as_slice() {
        if kept.left == left && is_same_element(&kept.element, element) {
            return Ok(Some(kept.flat.copied(alloc)?));
        }
    }
    Ok(None)
}

/// An element of a component, copied.
fn copied_element<'t>(alloc: Global, element: &Element<'t>) -> Result<Element<'t>, NoMemory>
    ensures { IfOk result (λ made. made ≡ element.now) }
{
    let index = copied(alloc, element.index.as_slice())?;
    Ok(Element {
        member: element.member,
        index,
        kind: element.kind,
        place: element.place,
        constant: element.constant,
    })
}

/// Keeps what replaces a constant.
pub(crate) fn keep_constant<'i, 't>(
    alloc: Global,
    _s: &Scopes<'t>,
    desk: &mut Desk<'i, 't>,
    left: u64,
    element: &Element<'t>,
    flat: &Flat,
) -> Result<(), NoMemory>
    requires member { IsMember _s.now element.now.member }
    requires desk { IsDesk _s.now desk.old }
    requires is { (e : Expression) × (constant_by_left (table_in _s.now) (number_of (tree_in _s.now desk.old.leaves)) left (element_at _s.now element.now) ≡ Ok e) × IsFlat flat.now e }
    ensures { Stays _s.now _s.now desk.old desk.new }
{
    if let Some(e) = &flat.built {
        if !may_replace(e) {
            return Err(NoMemory);
        }
    }
    let element = copied_element(alloc, element)?;
    let flat = flat.copied(alloc)?;
    desk.constants.push(KeptConstant {
        element,
        left,
        flat,
    })
}
