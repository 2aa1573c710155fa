//! Components that are declared `outer` (Modelica Language Specification 3.5, section 5.4).
#![tactic(auto, using(crate::proofs::Later::later))]

ghost use Rattle.std.specs.Prelude.{◌≡◌, List as Seq, [], map, not, IfOk};
ghost use Rattle.std.specs.List.{list_any};
ghost use Rattle.mo_scope.specs.Frames.{Frame};
ghost use Rattle.mo_scope.specs.Names.{component_frame};
ghost use Rattle.mo_scope.specs.Outcome.{Gives};
ghost use Rattle.mo_scope.specs.Redeclarations.{Checked};
ghost use Rattle.mo_scope.specs.Rows.{component_of as component_declared};
ghost use Rattle.mo_scope.specs.Sights.{declares_seen, member_at};
ghost use Rattle.mo_scope.specs.Sizes.{is_nothing as is_empty};
ghost use Rattle.mo_scope.specs.Worlds.{Grows, IsFrame, table_in};
ghost use Rattle.mo_names.specs.Children.{IsChild, child_at};
ghost use Rattle.mo_names.specs.Sights.{IsMember, member_of};
ghost use Rattle.mo_instance.specs.Outer.{as_differing as taken_for_differing, condition_in, is_alike as has_alike, is_matched as matches, is_wrongly_outer as is_outer_wrongly, outer_checked as checked_outer};
ghost use Rattle.mo_instance.specs.steps.Speeches.{speech_seen};
ghost use Rattle.mo_instance.specs.steps.Outer.{compared_frames as frames_compared, declared_wrongly, inner_asked, is_spoken_of, matched_children, speaks_for};

use crate::prefixes::is_left_out;
use crate::spoken::{Spoken, all_spoken};
use mo_lookup::{child_of_member, enter_child, inner_of};
use mo_names::Child;
use mo_redeclare::{compatible, dimension_count, prefix_of};
use mo_scope::{Declares, Member, Scopes, component_of, is_nothing};
use mo_syntax::{NoMemory, Place, Stop, Text, rules, stop};
use std::alloc::Global;

/// Whether what is declared has a condition.
fn has_condition(declares: &Declares) -> bool
    ensures { result ≡ condition_in (component_declared (declares_seen declares.now)) }
{
    match component_of(declares) {
        Some(component) => component.condition.is_some(),
        None => false,
    }
}

/// Whether an argument gives something.
fn gives_something(spoken: &Spoken) -> bool
    ensures { result ≡ not (is_empty (speech_seen spoken.now).claims) }
{
    if spoken.claims.is_empty() {
        return false;
    }
    true
}

/// Whether an argument gives something for a name.
fn gives_for(spoken: &Spoken, name: &Text) -> bool
    ensures { result ≡ speaks_for name.now (speech_seen spoken.now) }
{
    if spoken.name.as_str() != name.as_str() {
        return false;
    }
    gives_something(spoken)
}

/// Whether one of some arguments gives something for a name.
fn is_given_for(spoken: &[Spoken], name: &Text) -> bool
    ensures { result ≡ list_any (speaks_for name.now) (map speech_seen spoken.now) }
{
    for one in spoken {
        if gives_for(one, name) {
            return true;
        }
    }
    false
}

/// Whether one of the sources of the frame of an element speaks of it.
fn is_modified<'t>(alloc: Global, s: &Scopes<'t>, member: &Member<'t>) -> Result<bool, NoMemory>
    requires { IsFrame s.now member.now.home.0 }
    ensures { IfOk result (λ is. is ≡ is_spoken_of (table_in s.now) (member_at s.now member.now)) }
{
    let sources = s.sources(member.home).as_slice();
    let spoken = all_spoken(alloc, s, sources)?;
    Ok(is_given_for(spoken.as_slice(), member.name))
}

/// Whether the declaration of an outer component is `inner` too, or has modifiers, a binding or a condition.
fn is_declared_wrongly(member: &Member) -> bool
    ensures { (frames : Seq Frame) → result ≡ declared_wrongly (member_of frames member.now) }
{
    member.declares.flags.inner
        || !is_nothing(&member.declares.own)
        || has_condition(&member.declares)
}

/// Whether an outer component has what it may not have: it is `inner` too, or it has modifiers, a binding, a condition or a
/// prefix that is left out, or a source of its frame speaks of it.
fn is_wrongly_outer<'t>(
    alloc: Global,
    s: &Scopes<'t>,
    member: &Member<'t>,
) -> Result<bool, NoMemory>
    requires { IsFrame s.now member.now.home.0 }
    ensures { IfOk result (λ is. is ≡ is_outer_wrongly (table_in s.now) (member_at s.now member.now)) }
{
    if is_declared_wrongly(member) {
        return Ok(true);
    }
    let prefix = prefix_of(alloc, s, member)?;
    if is_left_out(prefix) {
        return Ok(true);
    }
    is_modified(alloc, s, member)
}

/// Whether two components have as many dimensions, and one flow prefix.
fn is_alike<'t>(
    alloc: Global,
    s: &mut Scopes<'t>,
    outer: (&Member<'t>, &Child<'t>),
    inner: (&Member<'t>, &Child<'t>),
) -> Result<bool, NoMemory>
    requires outer { IsMember s.old outer.0.now × IsChild s.old outer.1.now }
    requires inner { IsMember s.old inner.0.now × IsChild s.old inner.1.now }
    ensures grows { Grows s.old s.new }
    ensures value { IfOk result (λ is. is ≡ has_alike (table_in s.old) (member_at s.old outer.entry.0.now) (child_at s.old outer.entry.1.now) (member_at s.old inner.entry.0.now) (child_at s.old inner.entry.1.now)) }
{
    let flow = prefix_of(alloc, s, inner.0)?.flow;
    let other = prefix_of(alloc, s, outer.0)?.flow;
    let count = dimension_count(alloc, s, inner.0, inner.1)?;
    let wanted = dimension_count(alloc, s, outer.0, outer.1)?;
    Ok(count == wanted && flow == other)
}

/// Rule 46 in place of rule 25.
fn as_differing(compared: Result<(), Stop>, place: Place) -> Result<(), Stop>
    ensures { (told : Checked) → Gives (λ _. tt) compared told → Gives (λ _. tt) result (taken_for_differing place told) }
{
    match compared {
        Err(Stop::Broken(broken)) => {
            let number = broken.rule.number();
            if number == rules::NOT_COMPATIBLE {
                Err(stop(rules::INNER_DIFFERS, place))
            } else {
                Err(Stop::Broken(broken))
            }
        }
        Err(Stop::NoMemory) => Err(Stop::NoMemory),
        Ok(()) => Ok(()),
    }
}

/// Asks that the type of the inner component is compatible with that of the outer one, or breaks rule 46 at the place.
fn compared_frames<'t>(
    alloc: Global,
    s: &mut Scopes<'t>,
    place: Place,
    outer: (&Member<'t>, Child<'t>),
    inner: (&Member<'t>, Child<'t>),
) -> Result<(), Stop>
    requires outer { IsMember s.old outer.0.now × IsChild s.old outer.1 }
    requires inner { IsMember s.old inner.0.now × IsChild s.old inner.1 }
    ensures grows { Grows s.old s.new }
    ensures value { Gives (λ _. tt) result (frames_compared (table_in s.old) place (component_frame (member_at s.old inner.entry.0.now) [] (child_at s.old inner.entry.1)) (component_frame (member_at s.old outer.entry.0.now) [] (child_at s.old outer.entry.1))) }
{
    let (member, child) = outer;
    let (other, other_child) = inner;
    let wanted = enter_child(alloc, s, member, &[], child)?;
    let new = enter_child(alloc, s, other, &[], other_child)?;
    let compared = compatible(alloc, s, new, wanted, place);
    as_differing(compared, place)
}

/// Asks that an inner component may stand in the place of an outer one, both entered.
fn is_matched_by<'t>(
    alloc: Global,
    s: &mut Scopes<'t>,
    outer: (&Member<'t>, Child<'t>),
    inner: (&Member<'t>, Child<'t>),
) -> Result<(), Stop>
    requires outer { IsMember s.old outer.0.now × IsChild s.old outer.1 }
    requires inner { IsMember s.old inner.0.now × IsChild s.old inner.1 }
    ensures grows { Grows s.old s.new }
    ensures value { Gives (λ _. tt) result (matched_children (table_in s.old) (member_at s.old outer.entry.0.now) (child_at s.old outer.entry.1) (member_at s.old inner.entry.0.now) (child_at s.old inner.entry.1)) }
{
    let place = outer.0.declares.place;
    let alike = is_alike(alloc, s, (outer.0, &outer.1), (inner.0, &inner.1))?;
    if alike {
        return compared_frames(alloc, s, place, outer, inner);
    }
    Err(stop(rules::INNER_DIFFERS, place))
}

/// Asks that an inner component may stand in the place of an outer one.
fn is_matched<'t>(
    alloc: Global,
    s: &mut Scopes<'t>,
    outer: &Member<'t>,
    inner: &Member<'t>,
) -> Result<(), Stop>
    requires outer { IsMember s.old outer.now }
    requires inner { IsMember s.old inner.now }
    ensures grows { Grows s.old s.new }
    ensures value { Gives (λ _. tt) result (matches (table_in s.old) (member_at s.old outer.now) (member_at s.old inner.now)) }
{
    let child = child_of_member(alloc, s, outer, &[])?;
    let other = child_of_member(alloc, s, inner, &[])?;
    is_matched_by(alloc, s, (outer, child), (inner, other))
}

/// Asks what an inner component breaks that stands for an outer one, at the name of that.
fn inner_checked<'t>(
    alloc: Global,
    s: &mut Scopes<'t>,
    outer: &Member<'t>,
    inner: &Member<'t>,
) -> Result<(), Stop>
    requires outer { IsMember s.old outer.now }
    requires inner { IsMember s.old inner.now }
    ensures grows { Grows s.old s.new }
    ensures value { Gives (λ _. tt) result (inner_asked (table_in s.old) (member_at s.old outer.now) (member_at s.old inner.now)) }
{
    if has_condition(&inner.declares) {
        return Err(stop(rules::OUTSIDE_PROFILE, outer.declares.place));
    }
    is_matched(alloc, s, outer, inner)
}

/// Asks what an outer component breaks, at its name: rule 34 where it or its inner one has what it may not have, rule 45 where
/// there is no inner one, rule 46 where that may not stand in its place.
pub(crate) fn outer_checked<'t>(
    alloc: Global,
    s: &mut Scopes<'t>,
    member: &Member<'t>,
) -> Result<(), Stop>
    requires { IsMember s.old member.now }
    ensures grows { Grows s.old s.new }
    ensures value { Gives (λ _. tt) result (checked_outer (table_in s.old) (member_at s.old member.now)) }
{
    let place = member.declares.place;
    let wrongly = is_wrongly_outer(alloc, s, member)?;
    if wrongly {
        return Err(stop(rules::OUTSIDE_PROFILE, place));
    }
    match inner_of(alloc, s, member, place) {
        Ok(found) => inner_checked(alloc, s, member, &found.1),
        Err(stop) => Err(stop),
    }
}
