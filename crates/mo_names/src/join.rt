//! Joining the elements of bases.
ghost use Rattle.std.specs.Prelude.{◌≡◌, ◌∷◌, ◌++◌, [], List as Seq, map, option_map, reverse, IfOk};
ghost use Rattle.std.specs.List.{list_any};
ghost use Rattle.std.specs.Str.{bytes_eq};
ghost use Rattle.mo_scope.specs.Frames.{Frame, is_same_base};
ghost use Rattle.mo_scope.specs.Lookup.{final_frame, is_counted, not_counted, with_base as joined_base, with_member as joined_member, with_members as joined_members};
ghost use Rattle.mo_scope.specs.Outcome.{Gives};
ghost use Rattle.mo_scope.specs.Places.{Every};
ghost use Rattle.mo_scope.specs.Worlds.{IsFrame, World, frame_at, frame_in, frames_of};
ghost use Rattle.mo_names.specs.Sights.{AreThrough, IsAdded, IsBase, IsInherited, IsLeaf, IsMember, IsWalk, added_seen, frames_through, inherited_seen, member_of, walk_seen, walk_at};
ghost use Rattle.mo_names.specs.steps.Joins.{all_added as added_all, base_added as added_by_base, base_behind, bases_added as added_bases, counts_through, inherited_behind, is_among, member_hidden};

use crate::same::are_one_base;
use crate::walk::{Inherited, Walk};
use mo_scope::{Member, Scopes};
use mo_syntax::{FrameId, List, NoMemory, Stop, Text, both, rules, stop};
use std::alloc::Global;

/// Whether an element of a walk has that name.
#[tactic(auto, using(crate::proofs::WalkNames::named_among))]
fn has_name(s: &Scopes, walk: &Walk, name: &Text) -> bool
    requires { IsWalk s.now walk.now }
    ensures { result ≡ list_any (λ other. bytes_eq other.member.name name.now) (walk_at s.now walk.now).members }
{
    walk.names.place(name).is_some()
}

/// Puts an element behind others.
#[tactic(auto, using(crate::proofs::WalkNames::names_more))]
pub(crate) fn with_member<'t>(
    s: &Scopes<'t>,
    inherited: Inherited<'t>,
    walk: &mut Walk<'t>,
) -> Result<(), Stop>
    requires inherited { IsInherited s.now inherited }
    requires walk { IsWalk s.now walk.old }
    ensures value { Gives (λ _. walk_at s.now walk.new) result (joined_member (inherited_seen (frames_of s.now) inherited.entry) (walk_at s.now walk.old)) }
    ensures stand { IfOk result (λ _. IsWalk s.now walk.new) }
{
    if has_name(s, walk, inherited.member.name) {
        return Err(stop(
            rules::INHERITED_ELEMENTS_CLASH,
            inherited.member.declares.place,
        ));
    }
    let at = walk.members.len();
    walk.names.put(inherited.member.name, at)?;
    walk.members.push(inherited)?;
    Ok(())
}

/// A list from its end.
pub fn turned<T: Drop>(list: List<T>) -> List<T>
    ensures { result ≡ reverse list }
{
    let mut items = list.into_vec();
    items.reverse();
    List::from_vec(items)
}

/// Puts elements behind others, in their order; they come from their end.
fn with_members<'t>(
    s: &Scopes<'t>,
    turned: List<Inherited<'t>>,
    walk: &mut Walk<'t>,
) -> Result<(), Stop>
    requires inherited { Every (IsInherited s.now) (reverse turned) }
    requires walk { IsWalk s.now walk.old }
    ensures value { Gives (λ _. walk_at s.now walk.new) result (joined_members (map (inherited_seen (frames_of s.now)) (reverse turned.entry)) (walk_at s.now walk.old)) }
    ensures stand { IfOk result (λ _. IsWalk s.now walk.new) }
{
    let mut rest = turned;
    while let Some(next) = rest.pop() {
        with_member(s, next, walk)?;
    }
    Ok(())
}

/// Whether a frame is the innermost one of a base.
fn is_base(s: &Scopes, base: &List<FrameId>, frame: FrameId) -> bool
    requires base { IsBase s.now base.now }
    requires frame { IsFrame s.now frame.0 }
    ensures { result ≡ is_same_base (final_frame (frames_through (frames_of s.now) base.now)) (frame_at s.now frame.0) }
{
    match base.get(0) {
        Some(last) => are_one_base(s, *last, frame),
        None => false,
    }
}

/// Whether a frame is the innermost one of some base.
fn is_base_among(s: &Scopes, bases: &[List<FrameId>], frame: FrameId) -> bool
    requires bases { Every (IsBase s.now) bases.now }
    requires frame { IsFrame s.now frame.0 }
    ensures { result ≡ is_among (map (frames_through (frames_of s.now)) bases.now) (frame_at s.now frame.0) }
{
    for base in bases {
        if is_base(s, base, frame) {
            return true;
        }
    }
    false
}

/// Whether one of some frames is the innermost one of some base.
fn is_any_among(s: &Scopes, bases: &[List<FrameId>], frames: &[FrameId]) -> bool
    requires bases { Every (IsBase s.now) bases.now }
    requires frames { AreThrough s.now frames.now }
    ensures { result ≡ list_any (is_among (map (frames_through (frames_of s.now)) bases.now)) (map (λ frame. frame_in (frames_of s.now) frame.0) frames.now) }
{
    for frame in frames {
        if is_base_among(s, bases, *frame) {
            return true;
        }
    }
    false
}

/// Whether one of these base frames is among the bases before.
fn is_base_counted(s: &Scopes, bases: &[List<FrameId>], through: &[FrameId]) -> bool
    requires bases { Every (IsBase s.now) bases.now }
    requires through { AreThrough s.now through.now }
    ensures { result ≡ is_counted (map (frames_through (frames_of s.now)) bases.now) (frames_through (frames_of s.now) through.now) }
{
    if bases.is_empty() {
        return false;
    }
    is_any_among(s, bases, through)
}

/// The bases of a base that were not met before, behind it; they come from their end.
fn bases_behind(
    alloc: Global,
    s: &Scopes,
    bases: &[List<FrameId>],
    base: FrameId,
    turned: List<List<FrameId>>,
) -> Result<List<List<FrameId>>, NoMemory>
    requires bases { Every (IsBase s.now) bases.now }
    requires base { IsFrame s.now base.0 }
    requires turned { Every (AreThrough s.now) (reverse turned) }
    ensures are { IfOk result (λ made. map (frames_through (frames_of s.now)) made ≡ not_counted (is_counted (map (frames_through (frames_of s.now)) bases.now)) (map (base_behind (frame_at s.now base.0)) (map (frames_through (frames_of s.now)) (reverse turned)))) }
    ensures stand { IfOk result (λ made. Every (IsBase s.now) made) }
{
    let mut made = List::new(alloc);
    let mut rest = turned;
    while let Some(mut through) = rest.pop() {
        through.push(base)?;
        if !is_base_counted(s, bases, through.as_slice()) {
            made.push(through)?;
        }
    }
    Ok(made)
}

/// An element behind a base.
fn inherited_through<'t>(
    s: &Scopes<'t>,
    inherited: Inherited<'t>,
    hidden: bool,
    base: FrameId,
) -> Result<Inherited<'t>, NoMemory>
    requires inherited { IsInherited s.now inherited }
    requires base { IsFrame s.now base.0 }
    ensures is { IfOk result (λ made. inherited_seen (frames_of s.now) made ≡ inherited_behind hidden (frame_at s.now base.0) (inherited_seen (frames_of s.now) inherited.entry)) }
    ensures stand { IfOk result (IsInherited s.now) }
{
    let Inherited {
        member,
        mut through,
    } = inherited;
    through.push(base)?;
    Ok(Inherited {
        member: hidden_member(&member, hidden),
        through,
    })
}

/// An element, protected where it is inherited so.
fn hidden_member<'t>(member: &Member<'t>, hidden: bool) -> Member<'t>
    ensures is { (frames : Seq Frame) → member_of frames result ≡ member_hidden hidden (member_of frames member.now) }
    ensures stand { (world : World) → IsMember world member.now → IsMember world result }
{
    Member {
        name: member.name,
        home: member.home,
        item: member.item,
        hidden: member.hidden || hidden,
        declares: member.declares,
    }
}

/// The elements of a base that were not met before, behind it; they come from their end.
fn members_behind<'t>(
    alloc: Global,
    s: &Scopes<'t>,
    bases: &[List<FrameId>],
    hidden: bool,
    base: FrameId,
    turned: List<Inherited<'t>>,
) -> Result<List<Inherited<'t>>, NoMemory>
    requires bases { Every (IsBase s.now) bases.now }
    requires base { IsFrame s.now base.0 }
    requires turned { Every (IsInherited s.now) (reverse turned) }
    ensures are { IfOk result (λ made. map (inherited_seen (frames_of s.now)) made ≡ not_counted (counts_through (map (frames_through (frames_of s.now)) bases.now)) (map (inherited_behind hidden (frame_at s.now base.0)) (map (inherited_seen (frames_of s.now)) (reverse turned.entry)))) }
    ensures stand { IfOk result (λ made. Every (IsInherited s.now) made) }
{
    let mut made = List::new(alloc);
    let mut rest = turned;
    while let Some(next) = rest.pop() {
        let behind = inherited_through(s, next, hidden, base)?;
        if !is_base_counted(s, bases, behind.through.as_slice()) {
            made.push(behind)?;
        }
    }
    Ok(made)
}

/// The bases of a base, and before them that base itself.
fn all_bases(
    alloc: Global,
    s: &Scopes,
    before: &[List<FrameId>],
    base: FrameId,
    bases: List<List<FrameId>>,
) -> Result<List<List<FrameId>>, NoMemory>
    requires before { Every (IsBase s.now) before.now }
    requires base { IsFrame s.now base.0 }
    requires bases { Every (IsBase s.now) bases }
    ensures are { IfOk result (λ made. map (frames_through (frames_of s.now)) made ≡ not_counted (is_counted (map (frames_through (frames_of s.now)) before.now)) ((frame_at s.now base.0 ∷ []) ∷ map (base_behind (frame_at s.now base.0)) (map (frames_through (frames_of s.now)) bases))) }
    ensures stand { IfOk result (λ made. Every (IsBase s.now) made) }
{
    let mut from_end = turned(bases);
    from_end.push(List::new(alloc))?;
    bases_behind(alloc, s, before, base, from_end)
}

/// The bases of a base in the order of their sections, and behind them that base itself.
fn all_sections(
    alloc: Global,
    s: &Scopes,
    before: &[List<FrameId>],
    base: FrameId,
    sections: List<List<FrameId>>,
) -> Result<List<List<FrameId>>, NoMemory>
    requires before { Every (IsBase s.now) before.now }
    requires base { IsFrame s.now base.0 }
    requires sections { Every (IsBase s.now) sections }
    ensures are { IfOk result (λ made. map (frames_through (frames_of s.now)) made ≡ not_counted (is_counted (map (frames_through (frames_of s.now)) before.now)) (map (base_behind (frame_at s.now base.0)) (map (frames_through (frames_of s.now)) sections) ++ (frame_at s.now base.0 ∷ []) ∷ [])) }
    ensures stand { IfOk result (λ made. Every (IsBase s.now) made) }
{
    let mut all = sections;
    all.push(List::new(alloc))?;
    bases_behind(alloc, s, before, base, turned(all))
}

/// What a base adds to the elements before: elements, bases, sections, and a leaf as those of a walk.
#[derive(Drop)]
pub struct Added<'t> {
    pub members: List<Inherited<'t>>,
    pub bases: List<List<FrameId>>,
    pub sections: List<List<FrameId>>,
    pub leaf: Option<FrameId>,
}

/// What a base adds to the elements before: its own, its bases and their sections, but for those that were met before.
fn base_added<'t>(
    alloc: Global,
    s: &Scopes<'t>,
    before: &[List<FrameId>],
    hidden: bool,
    base: FrameId,
    elements: Added<'t>,
) -> Result<Added<'t>, NoMemory>
    requires before { Every (IsBase s.now) before.now }
    requires base { IsFrame s.now base.0 }
    requires elements { IsAdded s.now elements }
    ensures are { IfOk result (λ added. added_seen (frames_of s.now) added ≡ added_by_base hidden (frame_at s.now base.0) (map (frames_through (frames_of s.now)) before.now) (added_seen (frames_of s.now) elements.entry)) }
    ensures stand { IfOk result (IsAdded s.now) }
{
    let Added {
        members,
        bases,
        sections,
        leaf,
    } = elements;
    let from_end = turned(members);
    let (members, (bases, sections)) = both(
        members_behind(alloc, s, before, hidden, base, from_end),
        both(
            all_bases(alloc, s, before, base, bases),
            all_sections(alloc, s, before, base, sections),
        ),
    )?;
    Ok(Added {
        members,
        bases,
        sections,
        leaf,
    })
}

/// Puts bases and their sections behind those before; the first leaf stays.
fn with_bases<'t>(
    s: &Scopes<'t>,
    bases: List<List<FrameId>>,
    sections: List<List<FrameId>>,
    leaf: Option<FrameId>,
    so_far: &mut Walk<'t>,
) -> Result<(), NoMemory>
    requires bases { Every (IsBase s.now) bases }
    requires sections { Every (IsBase s.now) sections }
    requires leaf { IsLeaf s.now leaf }
    requires so_far { IsWalk s.now so_far.old }
    ensures are { IfOk result (λ _. walk_at s.now so_far.new ≡ added_bases (map (frames_through (frames_of s.now)) bases) (map (frames_through (frames_of s.now)) sections) (option_map (λ frame. frame_at s.now frame.0) leaf) (walk_at s.now so_far.old)) }
    ensures stand { IfOk result (λ _. IsWalk s.now so_far.new) }
{
    so_far.bases.append(bases)?;
    so_far.sections.append(sections)?;
    if so_far.leaf.is_none() {
        so_far.leaf = leaf;
    }
    Ok(())
}

/// Puts all that a base adds behind what is before.
fn with_added<'t>(s: &Scopes<'t>, added: Added<'t>, so_far: &mut Walk<'t>) -> Result<(), Stop>
    requires added { IsAdded s.now added }
    requires so_far { IsWalk s.now so_far.old }
    ensures value { Gives (λ _. walk_at s.now so_far.new) result (added_all (added_seen (frames_of s.now) added.entry) (walk_at s.now so_far.old)) }
    ensures stand { IfOk result (λ _. IsWalk s.now so_far.new) }
{
    let Added {
        members,
        bases,
        sections,
        leaf,
    } = added;
    with_bases(s, bases, sections, leaf, so_far)?;
    with_members(s, turned(members), so_far)
}

/// The elements of a walk without their names.
pub fn without_names<'t>(walk: Walk<'t>) -> Added<'t>
    ensures is { (frames : Seq Frame) → added_seen frames result ≡ walk_seen frames walk.entry }
    ensures stand { (world : World) → IsWalk world walk.entry → IsAdded world result }
{
    let Walk {
        members,
        bases,
        sections,
        leaf,
        names: _,
    } = walk;
    Added {
        members,
        bases,
        sections,
        leaf,
    }
}

/// The elements of a base behind those before. A base that is met again counts once, with all that it inherits.
pub fn with_elements<'t>(
    alloc: Global,
    s: &Scopes<'t>,
    hidden: bool,
    base: FrameId,
    elements: Added<'t>,
    so_far: &mut Walk<'t>,
) -> Result<(), Stop>
    requires base { IsFrame s.now base.0 }
    requires elements { IsAdded s.now elements }
    requires so_far { IsWalk s.now so_far.old }
    ensures value { Gives (λ _. walk_at s.now so_far.new) result (joined_base hidden (frame_at s.now base.0) (added_seen (frames_of s.now) elements.entry) (walk_at s.now so_far.old)) }
    ensures stand { IfOk result (λ _. IsWalk s.now so_far.new) }
{
    let added = base_added(alloc, s, so_far.bases.as_slice(), hidden, base, elements)?;
    with_added(s, added, so_far)
}

/// The same of a walk.
pub(crate) fn with_base<'t>(
    alloc: Global,
    s: &Scopes<'t>,
    hidden: bool,
    base: FrameId,
    walk: Walk<'t>,
    so_far: &mut Walk<'t>,
) -> Result<(), Stop>
    requires base { IsFrame s.now base.0 }
    requires walk { IsWalk s.now walk }
    requires so_far { IsWalk s.now so_far.old }
    ensures value { Gives (λ _. walk_at s.now so_far.new) result (joined_base hidden (frame_at s.now base.0) (walk_at s.now walk.entry) (walk_at s.now so_far.old)) }
    ensures stand { IfOk result (λ _. IsWalk s.now so_far.new) }
{
    with_elements(alloc, s, hidden, base, without_names(walk), so_far)
}
