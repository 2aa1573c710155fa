//! Compatibility of classes (Modelica Language Specification 3.5, sections 6.4 and 7.3.2).
#![tactic(auto, using(crate::proofs::Later::later))]

ghost use Rattle.std.specs.Prelude.{◌≡◌, filter, map, option_map, IfOk};
ghost use Rattle.mo_scope.specs.Compatible.{are_matched as are_all_matched, compared as walks_are_compared, compatible_from, is_matched as is_one_matched, is_pair as pair_is_among, with_pair as pair_put_before};
ghost use Rattle.mo_scope.specs.Outcome.{Gives};
ghost use Rattle.mo_scope.specs.Places.{Every};
ghost use Rattle.mo_scope.specs.Worlds.{Grows, IsFrame, frame_at, frames_of, member_in, table_in};
ghost use Rattle.mo_scope.specs.Sights.{member_at};
ghost use Rattle.mo_names.specs.Sights.{IsInherited, IsLeaf, IsMember, IsWalk, inherited_seen, walk_at};
ghost use Rattle.mo_redeclare.specs.steps.Sights.{IsKept, is_open};
ghost use Rattle.mo_redeclare.specs.steps.Comparing.{both_walked as both_are_walked, components_compared as components_are_compared, element_matched as element_is_matched, leaves_compared as leaves_are_compared, pair_compared as pair_is_compared};
ghost use Rattle.mo_redeclare.specs.Calls.{compatible_at};

use crate::entering::entered_matching;
use crate::known::{is_open_component, named, open_components};
use mo_lookup::walk_of;
use mo_names::{Inherited, Walk};
use mo_scope::{Member, MemberTable, Scopes, extend};
use mo_syntax::{FrameId, List, NoMemory, Place, Stop, rules, stop};
use std::alloc::Global;

/// How many pairs of classes are compared at a time at most, one inside another: each takes some of the stack.
const DEPTH_LIMIT: usize = 150;

/// What two classes are compared for: how many pairs of classes are not being compared, those that are, and the place of the
/// redeclaration.
#[derive(Clone, Copy)]
pub(crate) struct Comparing<'a> {
    pub left: usize,
    pub place: Place,
    pub pairs: &'a [(u32, u32)],
}

/// Whether a pair of classes is being compared.
fn is_pair(s: &Scopes, pairs: &[(u32, u32)], new: FrameId, wanted: FrameId) -> bool
    requires new { IsFrame s.now new.0 }
    requires wanted { IsFrame s.now wanted.0 }
    ensures { result ≡ pair_is_among pairs.now (frame_at s.now new.0) (frame_at s.now wanted.0) }
{
    let a = s.class_of(new).0;
    let b = s.class_of(wanted).0;
    pairs.iter().any(|pair| pair.0 == a && pair.1 == b)
}

/// The pairs of classes that are being compared, with one more before them.
fn with_pair(
    alloc: Global,
    s: &Scopes,
    pairs: &[(u32, u32)],
    new: FrameId,
    wanted: FrameId,
) -> Result<List<(u32, u32)>, NoMemory>
    requires new { IsFrame s.now new.0 }
    requires wanted { IsFrame s.now wanted.0 }
    ensures { IfOk result (λ more. more ≡ pair_put_before pairs.now (frame_at s.now new.0) (frame_at s.now wanted.0)) }
{
    let mut more = List::new(alloc);
    more.push((s.class_of(new).0, s.class_of(wanted).0))?;
    extend(&mut more, pairs)?;
    Ok(more)
}

/// The elements of two frames.
fn both_walked<'t>(
    alloc: Global,
    s: &mut Scopes<'t>,
    new: FrameId,
    wanted: FrameId,
) -> Result<(Walk<'t>, Walk<'t>), Stop>
    requires new { IsFrame s.old new.0 }
    requires wanted { IsFrame s.old wanted.0 }
    ensures grows { Grows s.old s.new }
    ensures value { Gives (λ walks. (walk_at s.new walks.0, walk_at s.new walks.1)) result (both_are_walked (table_in s.old) (frame_at s.old new.0) (frame_at s.old wanted.0)) }
    ensures stand { IfOk result (λ walks. IsWalk s.new walks.0 × IsWalk s.new walks.1) }
{
    let walk = walk_of(alloc, s, new)?;
    let other = walk_of(alloc, s, wanted)?;
    Ok((walk, other))
}

/// The pairs of classes that are being compared, with one more, where these are not too many.
fn deeper(
    alloc: Global,
    s: &Scopes,
    pairs: &[(u32, u32)],
    new: FrameId,
    wanted: FrameId,
) -> Result<List<(u32, u32)>, NoMemory>
    requires new { IsFrame s.now new.0 }
    requires wanted { IsFrame s.now wanted.0 }
    ensures { IfOk result (λ more. more ≡ pair_put_before pairs.now (frame_at s.now new.0) (frame_at s.now wanted.0)) }
{
    if pairs.len() >= DEPTH_LIMIT {
        return Err(NoMemory);
    }
    with_pair(alloc, s, pairs, new, wanted)
}

/// Compares two frames, unless their classes are a pair that is being compared.
#[cycle(compare)]
fn frames_compared<'t>(
    alloc: Global,
    s: &mut Scopes<'t>,
    at: &Comparing,
    new: FrameId,
    wanted: FrameId,
) -> Result<(), Stop>
    requires new { IsFrame s.old new.0 }
    requires wanted { IsFrame s.old wanted.0 }
    ensures grows { Grows s.old s.new }
    ensures value { Gives (λ _. tt) result (compatible_from (table_in s.old) at.now.left at.now.place at.now.pairs.now (frame_at s.old new.0) (frame_at s.old wanted.0)) }
{
    let left = at.left;
    if left < 1 {
        return Ok(());
    }
    let among = is_pair(s, at.pairs, new, wanted);
    if among {
        return Ok(());
    }
    let pairs = deeper(alloc, s, at.pairs, new, wanted)?;
    let inner = Comparing {
        left: left - 1,
        place: at.place,
        pairs: pairs.as_slice(),
    };
    components_compared(alloc, s, &inner, new, wanted)
}

/// Compares a component with its counterpart.
#[cycle(compare)]
fn pair_compared<'t>(
    alloc: Global,
    s: &mut Scopes<'t>,
    at: &Comparing,
    new: &Member<'t>,
    wanted: &Member<'t>,
) -> Result<(), Stop>
    requires new { IsMember s.old new.now }
    requires wanted { IsMember s.old wanted.now }
    ensures grows { Grows s.old s.new }
    ensures value { Gives (λ _. tt) result (pair_is_compared (table_in s.old) (compatible_from (table_in s.old) at.now.left at.now.place at.now.pairs.now) at.now.place (member_at s.old new.now) (member_at s.old wanted.now)) }
{
    let (frame, other) = entered_matching(alloc, s, at.place, new, wanted)?;
    frames_compared(alloc, s, at, frame, other)
}

/// Compares a component that is wanted with its counterpart among public components.
#[cycle(compare)]
fn is_matched<'t>(
    alloc: Global,
    s: &mut Scopes<'t>,
    at: &Comparing,
    members: &MemberTable<'t>,
    wanted: &Member<'t>,
) -> Result<(), Stop>
    requires members { Every (IsKept s.old) members.now }
    requires public { members.now ≡ filter is_open members.now }
    requires wanted { IsMember s.old wanted.now }
    ensures grows { Grows s.old s.new }
    ensures value { Gives (λ _. tt) result (is_one_matched (table_in s.old) (compatible_from (table_in s.old) at.now.left at.now.place at.now.pairs.now) at.now.place (map (member_in (frames_of s.old)) members.now) (member_at s.old wanted.now)) }
{
    match named(s, members, wanted.name) {
        Some(new) => pair_compared(alloc, s, at, &new, wanted),
        None => Err(stop(rules::NOT_COMPATIBLE, at.place)),
    }
}

/// An element that is wanted: a public component has a counterpart.
#[cycle(compare)]
fn element_matched<'t>(
    alloc: Global,
    s: &mut Scopes<'t>,
    at: &Comparing,
    members: &MemberTable<'t>,
    wanted: &Member<'t>,
) -> Result<(), Stop>
    requires members { Every (IsKept s.old) members.now }
    requires public { members.now ≡ filter is_open members.now }
    requires wanted { IsMember s.old wanted.now }
    ensures grows { Grows s.old s.new }
    ensures value { Gives (λ _. tt) result (element_is_matched (table_in s.old) (compatible_from (table_in s.old) at.now.left at.now.place at.now.pairs.now) at.now.place (map (member_in (frames_of s.old)) members.now) (member_at s.old wanted.now)) }
{
    if is_open_component(wanted) {
        return is_matched(alloc, s, at, members, wanted);
    }
    Ok(())
}

/// The elements that are wanted, one after another.
#[cycle(compare)]
fn are_matched<'t>(
    alloc: Global,
    s: &mut Scopes<'t>,
    at: &Comparing,
    members: &MemberTable<'t>,
    wanted: &[Inherited<'t>],
) -> Result<(), Stop>
    requires members { Every (IsKept s.old) members.now }
    requires public { members.now ≡ filter is_open members.now }
    requires wanted { Every (IsInherited s.old) wanted.now }
    ensures grows { Grows s.old s.new }
    ensures value { Gives (λ _. tt) result (are_all_matched (table_in s.old) (compatible_from (table_in s.old) at.now.left at.now.place at.now.pairs.now) at.now.place (map (member_in (frames_of s.old)) members.now) (map (λ inherited. inherited.member) (map (inherited_seen (frames_of s.old)) wanted.now))) }
{
    for inherited in wanted {
        element_matched(alloc, s, at, members, &inherited.member)?;
    }
    Ok(())
}

/// Compares two classes that are no leaf types.
#[cycle(compare)]
fn members_compared<'t>(
    alloc: Global,
    s: &mut Scopes<'t>,
    at: &Comparing,
    new: &[Inherited<'t>],
    wanted: &[Inherited<'t>],
) -> Result<(), Stop>
    requires new { Every (IsInherited s.old) new.now }
    requires wanted { Every (IsInherited s.old) wanted.now }
    ensures grows { Grows s.old s.new }
    ensures value { Gives (λ _. tt) result (are_all_matched (table_in s.old) (compatible_from (table_in s.old) at.now.left at.now.place at.now.pairs.now) at.now.place (map (λ inherited. inherited.member) (map (inherited_seen (frames_of s.old)) new.now)) (map (λ inherited. inherited.member) (map (inherited_seen (frames_of s.old)) wanted.now))) }
{
    let members = open_components(alloc, new)?;
    are_matched(alloc, s, at, &members, wanted)
}

/// Compares two classes of which one may be a leaf type: both are leaf types of one kind then. The answer is whether none is.
fn leaves_compared(
    s: &Scopes,
    place: Place,
    new: Option<FrameId>,
    wanted: Option<FrameId>,
) -> Result<bool, Stop>
    requires new { IsLeaf s.now new }
    requires wanted { IsLeaf s.now wanted }
    ensures { Gives (λ none. none) result (leaves_are_compared place (option_map (λ frame. frame_at s.now frame.0) new) (option_map (λ frame. frame_at s.now frame.0) wanted)) }
{
    match new {
        Some(leaf) => match wanted {
            Some(other) => {
                if s.class_of(leaf).0 == s.class_of(other).0 {
                    return Ok(false);
                }
                Err(stop(rules::NOT_COMPATIBLE, place))
            }
            None => Err(stop(rules::NOT_COMPATIBLE, place)),
        },
        None => match wanted {
            Some(_) => Err(stop(rules::NOT_COMPATIBLE, place)),
            None => Ok(true),
        },
    }
}

/// Compares two classes by their elements: where one is a leaf type, both are leaf types of one kind.
#[cycle(compare)]
fn walks_compared<'t>(
    alloc: Global,
    s: &mut Scopes<'t>,
    at: &Comparing,
    new: &Walk<'t>,
    wanted: &Walk<'t>,
) -> Result<(), Stop>
    requires new { IsWalk s.old new.now }
    requires wanted { IsWalk s.old wanted.now }
    ensures grows { Grows s.old s.new }
    ensures value { Gives (λ _. tt) result (walks_are_compared (table_in s.old) (compatible_from (table_in s.old) at.now.left at.now.place at.now.pairs.now) at.now.place (walk_at s.old new.now) (walk_at s.old wanted.now)) }
{
    let no_leaves = leaves_compared(s, at.place, new.leaf, wanted.leaf)?;
    if no_leaves {
        return members_compared(
            alloc,
            s,
            at,
            new.members.as_slice(),
            wanted.members.as_slice(),
        );
    }
    Ok(())
}

/// Compares the components of two classes.
#[cycle(compare)]
fn components_compared<'t>(
    alloc: Global,
    s: &mut Scopes<'t>,
    at: &Comparing,
    new: FrameId,
    wanted: FrameId,
) -> Result<(), Stop>
    requires new { IsFrame s.old new.0 }
    requires wanted { IsFrame s.old wanted.0 }
    ensures grows { Grows s.old s.new }
    ensures value { Gives (λ _. tt) result (components_are_compared (table_in s.old) at.now.left at.now.place at.now.pairs.now (frame_at s.old new.0) (frame_at s.old wanted.0)) }
{
    let (walk, other) = both_walked(alloc, s, new, wanted)?;
    walks_compared(alloc, s, at, &walk, &other)
}

/// Asks that a class is compatible with another one: it has its public components with their names, prefixes, numbers of
/// dimensions and types. Where it is not, rule 25 is broken at the place; a rule that a name on the way breaks comes before. A
/// pair of classes counts as compatible while it is being compared.
pub fn compatible<'t>(
    alloc: Global,
    s: &mut Scopes<'t>,
    new: FrameId,
    wanted: FrameId,
    place: Place,
) -> Result<(), Stop>
    requires new { IsFrame s.old new.0 }
    requires wanted { IsFrame s.old wanted.0 }
    ensures grows { Grows s.old s.new }
    ensures value { Gives (λ _. tt) result (compatible_at s.old place new.0 wanted.0) }
{
    let classes = s.class_count().checked_add(6).ok_or(NoMemory)?;
    let left = classes.checked_mul(classes).ok_or(NoMemory)?;
    let at = Comparing {
        left,
        place,
        pairs: &[],
    };
    frames_compared(alloc, s, &at, new, wanted)
}
