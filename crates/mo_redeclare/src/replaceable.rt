//! Replaceable elements (Modelica Language Specification 3.5, section 7.3).
ghost use Rattle.std.specs.Prelude.{◌≡◌, ◌&&◌, ◌||◌, not, List as Seq, false, map, IfOk};
ghost use Rattle.mo_scope.specs.Frames.{Frame};
ghost use Rattle.mo_scope.specs.Redeclarations.{is_replaceable_for as replaceable_for};
ghost use Rattle.mo_scope.specs.Rows.{place_eq};
ghost use Rattle.mo_scope.specs.Sights.{redeclaration_in, redeclaration_at, member_at};
ghost use Rattle.mo_scope.specs.Worlds.{IsFrame, table_in};
ghost use Rattle.mo_redeclare.specs.steps.Comparing.{kept_behind};

use mo_scope::{Member, Redeclaration, Scopes};
use mo_syntax::{NoMemory, Place};
use std::alloc::Global;

fn is_same_place(a: Place, b: Place) -> bool
    ensures { result ≡ place_eq a b }
{
    a.file == b.file && a.byte == b.byte
}

/// Whether a redeclaration ends that the element is replaceable.
fn is_ended(behind: bool, keeps: bool) -> bool
    ensures { result ≡ (behind && not keeps) }
{
    behind && !keeps
}

/// Whether what follows stands behind the redeclaration at a place.
fn is_behind(behind: bool, redeclaration: &Redeclaration, place: Place) -> bool
    ensures { result ≡ (behind || place_eq redeclaration.now.place place) }
{
    behind || is_same_place(redeclaration.place, place)
}

/// Whether the element stays replaceable in all redeclarations that stand behind the one at that place.
fn is_kept_behind(redeclarations: &[Redeclaration], place: Place) -> bool
    ensures { (frames : Seq Frame) → result ≡ kept_behind false place (map (redeclaration_in frames) redeclarations.now) }
{
    let mut behind = false;
    for redeclaration in redeclarations {
        if is_ended(behind, redeclaration.keeps) {
            return false;
        }
        behind = is_behind(behind, redeclaration, place);
    }
    true
}

/// Whether an element is replaceable for the redeclaration at that place: by its declaration, until a redeclaration without
/// `replaceable` ends that.
pub(crate) fn is_replaceable_for<'t>(
    alloc: Global,
    s: &Scopes<'t>,
    member: &Member<'t>,
    redeclaration: &Redeclaration<'t>,
) -> Result<bool, NoMemory>
    requires { IsFrame s.now member.now.home.0 }
    ensures { IfOk result (λ is. is ≡ replaceable_for (table_in s.now) (member_at s.now member.now) (redeclaration_at s.now redeclaration.now)) }
{
    if !member.declares.flags.replaceable {
        return Ok(false);
    }
    let all = s.redeclarations(alloc, member.home, member.name, &[])?;
    Ok(is_kept_behind(all.as_slice(), redeclaration.place))
}
