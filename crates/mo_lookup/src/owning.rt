//! Walks of frames by those of frames that differ from them in path and owner alone.
#![tactic(auto, using(mo_names::proofs::Later::later, crate::proofs::OwnedWalks::owned_walks))]

ghost use Rattle.std.specs.Prelude.{◌≡◌, None, map, IfOk, IfSome};
ghost use Rattle.mo_scope.specs.Places.{Every};
ghost use Rattle.mo_scope.specs.Worlds.{Grows, IsFrame, frame_at, frames_of};
ghost use Rattle.mo_lookup.specs.steps.Settled.{AreOwned};
ghost use Rattle.mo_names.specs.Sights.{AreThrough, IsBase, IsInherited, IsWalk, frames_through, inherited_seen, walk_at};
ghost use Rattle.mo_names.specs.steps.Twins.{owned_by, owned_home, owned_inherited, owned_through, owned_walk};

use crate::copying::frames_copied;
use mo_names::{Inherited, Walk, owner_of, path_copied, turned};
use mo_scope::{Member, Scopes};
use mo_syntax::{FrameId, List, Place, Stop, both, rules, stop};
use std::alloc::Global;

/// A base of a frame that was entered as another frame's base is.
#[derive(Clone, Copy)]
pub(crate) struct Owned {
    pub around: FrameId,
    pub base: FrameId,
    pub frame: FrameId,
}

/// Not known so. No rule is broken by it.
fn unknown() -> Stop {
    stop(rules::BASE_CLASS_CYCLE, Place { file: 0, byte: 0 })
}

/// The frame that was entered for that base of a frame.
fn owned_of(s: &Scopes, made: &[Owned], around: FrameId, base: FrameId) -> Option<FrameId>
    requires { AreOwned s.now made.now }
    ensures is { IfSome result (λ frame. frame_at s.now frame.0 ≡ owned_by (frame_at s.now around.0) (frame_at s.now base.0)) }
    ensures exists { IfSome result (λ frame. IsFrame s.now frame.0) }
{
    for one in made {
        if one.around.0 == around.0 && one.base.0 == base.0 {
            return Some(one.frame);
        }
    }
    None
}

/// A base without sources, entered as that of a frame.
fn owned_anew(
    alloc: Global,
    s: &mut Scopes,
    around: FrameId,
    base: FrameId,
) -> Result<FrameId, Stop>
    requires around { IsFrame s.old around.0 }
    requires base { IsFrame s.old base.0 }
    ensures grows { Grows s.old s.new }
    ensures is { IfOk result (λ frame. frame_at s.new frame.0 ≡ owned_by (frame_at s.old around.0) (frame_at s.old base.0)) }
    ensures exists { IfOk result (λ frame. IsFrame s.new frame.0) }
{
    if !s.sources(base).is_empty() {
        return Err(unknown());
    }
    let at = path_copied(alloc, s.path(around))?;
    let class = s.class_of(base);
    let outer = s.outer(base);
    let owner = owner_of(s, around);
    Ok(s.enter(alloc, class, List::new(alloc), outer, at, owner)?)
}

/// A base, entered as that of a frame if it was not yet.
fn base_owned<'t>(
    alloc: Global,
    s: &mut Scopes<'t>,
    around: FrameId,
    base: FrameId,
    made: &mut List<Owned>,
) -> Result<FrameId, Stop>
    requires around { IsFrame s.old around.0 }
    requires base { IsFrame s.old base.0 }
    requires made { AreOwned s.old made.old }
    ensures grows { Grows s.old s.new }
    ensures is { IfOk result (λ frame. frame_at s.new frame.0 ≡ owned_by (frame_at s.old around.0) (frame_at s.old base.0)) }
    ensures exists { IfOk result (λ frame. IsFrame s.new frame.0) }
    ensures made { AreOwned s.new made.new }
{
    if let Some(frame) = owned_of(s, made.as_slice(), around, base) {
        return Ok(frame);
    }
    let frame = owned_anew(alloc, s, around, base)?;
    made.push(Owned {
        around,
        base,
        frame,
    })?;
    Ok(frame)
}

/// Base frames as those of another frame, with the innermost one, or that frame where there are none.
#[tactic(auto, using(mo_names::proofs::Later::later, crate::proofs::OwnedWalks::through_steps))]
fn through_owned<'t>(
    alloc: Global,
    s: &mut Scopes<'t>,
    frame: FrameId,
    through: &[FrameId],
    made: &mut List<Owned>,
) -> Result<(List<FrameId>, FrameId), Stop>
    requires frame { IsFrame s.old frame.0 }
    requires through { AreThrough s.old through.now }
    requires made { AreOwned s.old made.old }
    ensures grows { Grows s.old s.new }
    ensures is { IfOk result (λ found. frames_through (frames_of s.new) found.0 ≡ owned_through (frame_at s.old frame.0) (frames_through (frames_of s.old) through.now)) }
    ensures home { IfOk result (λ found. frame_at s.new found.1.0 ≡ owned_home (frame_at s.old frame.0) (frames_through (frames_of s.old) through.now)) }
    ensures exist { IfOk result (λ found. AreThrough s.new found.0) }
    ensures exists { IfOk result (λ found. IsFrame s.new found.1.0) }
    ensures made { AreOwned s.new made.new }
{
    let mut rest = frames_copied(alloc, through)?;
    let mut around = frame;
    let mut out = List::new(alloc);
    while let Some(base) = rest.pop() {
        around = base_owned(alloc, s, around, base, made)?;
        out.push(around)?;
    }
    Ok((turned(out), around))
}

/// An element as that of another frame.
#[tactic(auto, using(mo_names::proofs::Later::later, crate::proofs::OwnedWalks::element_steps))]
fn inherited_owned<'t>(
    alloc: Global,
    s: &mut Scopes<'t>,
    frame: FrameId,
    held: &Inherited<'t>,
    made: &mut List<Owned>,
) -> Result<Inherited<'t>, Stop>
    requires frame { IsFrame s.old frame.0 }
    requires held { IsInherited s.old held.now }
    requires made { AreOwned s.old made.old }
    ensures grows { Grows s.old s.new }
    ensures is { IfOk result (λ found. inherited_seen (frames_of s.new) found ≡ owned_inherited (frame_at s.old frame.0) (inherited_seen (frames_of s.old) held.now)) }
    ensures exist { IfOk result (IsInherited s.new) }
    ensures made { AreOwned s.new made.new }
{
    let (through, home) = through_owned(alloc, s, frame, held.through.as_slice(), made)?;
    if s.class_of(home).0 != s.class_of(held.member.home).0 {
        return Err(unknown());
    }
    Ok(Inherited {
        member: Member {
            name: held.member.name,
            home,
            item: held.member.item,
            hidden: held.member.hidden,
            declares: held.member.declares,
        },
        through,
    })
}

/// Elements as those of another frame.
#[tactic(auto, using(mo_names::proofs::Later::later, crate::proofs::OwnedWalks::list_steps))]
fn members_owned<'t>(
    alloc: Global,
    s: &mut Scopes<'t>,
    frame: FrameId,
    members: &[Inherited<'t>],
    made: &mut List<Owned>,
) -> Result<List<Inherited<'t>>, Stop>
    requires frame { IsFrame s.old frame.0 }
    requires members { Every (IsInherited s.old) members.now }
    requires made { AreOwned s.old made.old }
    ensures grows { Grows s.old s.new }
    ensures are { IfOk result (λ found. map (inherited_seen (frames_of s.new)) found ≡ map (owned_inherited (frame_at s.old frame.0)) (map (inherited_seen (frames_of s.old)) members.now)) }
    ensures exist { IfOk result (Every (IsInherited s.new)) }
    ensures made { AreOwned s.new made.new }
{
    let mut found = List::new(alloc);
    for held in members {
        found.push(inherited_owned(alloc, s, frame, held, made)?)?;
    }
    Ok(found)
}

/// Bases as those of another frame.
#[tactic(auto, using(mo_names::proofs::Later::later, crate::proofs::OwnedWalks::list_steps))]
fn bases_owned<'t>(
    alloc: Global,
    s: &mut Scopes<'t>,
    frame: FrameId,
    bases: &[List<FrameId>],
    made: &mut List<Owned>,
) -> Result<List<List<FrameId>>, Stop>
    requires frame { IsFrame s.old frame.0 }
    requires bases { Every (IsBase s.old) bases.now }
    requires made { AreOwned s.old made.old }
    ensures grows { Grows s.old s.new }
    ensures are { IfOk result (λ found. map (frames_through (frames_of s.new)) found ≡ map (owned_through (frame_at s.old frame.0)) (map (frames_through (frames_of s.old)) bases.now)) }
    ensures exist { IfOk result (Every (IsBase s.new)) }
    ensures made { AreOwned s.new made.new }
{
    let mut found = List::new(alloc);
    for base in bases {
        let (through, _) = through_owned(alloc, s, frame, base.as_slice(), made)?;
        found.push(through)?;
    }
    Ok(found)
}

/// The elements, the bases and the sections of a walk as those of another frame.
#[tactic(auto, using(mo_names::proofs::Later::later, crate::proofs::OwnedWalks::walk_steps))]
fn parts_owned<'t>(
    alloc: Global,
    s: &mut Scopes<'t>,
    frame: FrameId,
    walk: &Walk<'t>,
) -> Result<
    (
        List<Inherited<'t>>,
        (List<List<FrameId>>, List<List<FrameId>>),
    ),
    Stop,
>
    requires frame { IsFrame s.old frame.0 }
    requires walk { IsWalk s.old walk.now }
    ensures grows { Grows s.old s.new }
    ensures members { IfOk result (λ found. map (inherited_seen (frames_of s.new)) found.0 ≡ map (owned_inherited (frame_at s.old frame.0)) (map (inherited_seen (frames_of s.old)) walk.now.members)) }
    ensures bases { IfOk result (λ found. map (frames_through (frames_of s.new)) found.1.0 ≡ map (owned_through (frame_at s.old frame.0)) (map (frames_through (frames_of s.old)) walk.now.bases)) }
    ensures sections { IfOk result (λ found. map (frames_through (frames_of s.new)) found.1.1 ≡ map (owned_through (frame_at s.old frame.0)) (map (frames_through (frames_of s.old)) walk.now.sections)) }
    ensures members_exist { IfOk result (λ found. Every (IsInherited s.new) found.0) }
    ensures bases_exist { IfOk result (λ found. Every (IsBase s.new) found.1.0) }
    ensures sections_exist { IfOk result (λ found. Every (IsBase s.new) found.1.1) }
{
    let mut made = List::new(alloc);
    let members = members_owned(alloc, s, frame, walk.members.as_slice(), &mut made);
    let bases = bases_owned(alloc, s, frame, walk.bases.as_slice(), &mut made);
    let sections = bases_owned(alloc, s, frame, walk.sections.as_slice(), &mut made);
    both(members, both(bases, sections))
}

/// The walk of a frame by that of one that differs from it in path and owner alone and ends at no leaf type.
#[tactic(auto, using(mo_names::proofs::Later::later, crate::proofs::OwnedWalks::walk_steps))]
pub(crate) fn walk_owned<'t>(
    alloc: Global,
    s: &mut Scopes<'t>,
    frame: FrameId,
    walk: Walk<'t>,
) -> Result<Walk<'t>, Stop>
    requires frame { IsFrame s.old frame.0 }
    requires walk { IsWalk s.old walk }
    ensures grows { Grows s.old s.new }
    ensures is { IfOk result (λ found. walk_at s.new found ≡ owned_walk (frame_at s.old frame.0) (walk_at s.old walk.entry)) }
    ensures stand { IfOk result (IsWalk s.new) }
{
    let (members, (bases, sections)) = parts_owned(alloc, s, frame, &walk)?;
    Ok(Walk {
        members,
        bases,
        sections,
        leaf: None,
        names: walk.names,
    })
}
