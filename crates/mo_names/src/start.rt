//! Where the elements of a frame begin, and how bases are entered.
ghost use Rattle.std.specs.Prelude.{◌≡◌, ◌∷◌, ◌++◌, [], true, Some, None, List as Seq, map, option_map, IfOk};
ghost use Rattle.mo_scope.specs.Entries.{names_of as path_names, number_of};
ghost use Rattle.mo_scope.specs.Frames.{Frame, In, Top, at_of, class_of, gathered, outer_of, owner_of_base};
ghost use Rattle.mo_scope.specs.Lookup.{Walked, last_place as place_of_last, leaf_checked as checked_leaf, nothing_walked};
ghost use Rattle.mo_scope.specs.Outcome.{Gives};
ghost use Rattle.mo_scope.specs.Rows.{Base_of, form_in, is_left_out as is_row_left_out, is_other_form, is_record};
ghost use Rattle.mo_scope.specs.Sights.{clause_seen, row_seen, source_seen, frame_at_or_top, sources_at};
ghost use Rattle.mo_scope.specs.Worlds.{AreFrames, Grows, IsFrame, IsFrameOrNone, World, frame_at, frame_in, row_of_frame};
ghost use Rattle.mo_syntax.specs.Outcome.{Outcome, and_then};
ghost use Rattle.mo_syntax.specs.declared.class.Body.{out-Body};
ghost use Rattle.mo_names.specs.Sights.{IsLeaf, IsWalk, walk_seen, walk_at};
ghost use Rattle.mo_names.specs.steps.Bases.{StandsAt};
ghost use Rattle.mo_names.specs.steps.Parts.{is_enumeration_form};
ghost use Rattle.mo_names.specs.steps.Lookup.{entered_base, started as walk_started};

use crate::parts::NumberedClause;
use crate::top::looked_up_class;
use crate::walk::Walk;
use mo_scope::{Clause, Names, Row, Scopes, Source};
use mo_syntax::{
    Body, ClassKind, FrameId, InstancePath, List, NoMemory, Part, Place, Stop, Text, rules, stop,
};
use std::alloc::Global;

/// Whether a class is of a form that is left out.
fn is_other(body: &Body) -> bool
    ensures { result ≡ is_other_form (form_in (out-Body body.now)) }
{
    match body {
        Body::Long {
            extending: None,
            items: _,
            external: _,
        } => false,
        Body::Long {
            extending: Some(_),
            items: _,
            external: _,
        } => true,
        Body::Short {
            causal: _,
            base: _,
            subs: _,
            mods: _,
        } => false,
        Body::Enumeration(None) => false,
        Body::Enumeration(Some(_)) => false,
        Body::Der(_, _) => true,
    }
}

fn is_record_kind(kind: ClassKind) -> bool
    ensures { result ≡ is_record kind }
{
    match kind {
        ClassKind::Recd => true,
        ClassKind::Plain
        | ClassKind::Model
        | ClassKind::Block
        | ClassKind::Connector
        | ClassKind::TypeDef
        | ClassKind::Package
        | ClassKind::Function
        | ClassKind::Operator => false,
    }
}

/// Whether a class is left out: an expandable connector, an operator record, `class extends` and a `der` class are.
fn is_left_out(row: &Row) -> bool
    ensures { result ≡ is_row_left_out (row_seen row.now) }
{
    if row.class.flags.expandable {
        return true;
    }
    if row.class.flags.operator && is_record_kind(row.class.kind) {
        return true;
    }
    is_other(&row.class.body)
}

/// Whether a class is an enumeration.
fn is_enumeration(body: &Body) -> bool
    ensures { result ≡ is_enumeration_form (form_in (out-Body body.now)) }
{
    match body {
        Body::Enumeration(_) => true,
        Body::Long {
            extending: _,
            items: _,
            external: _,
        } => false,
        Body::Short {
            causal: _,
            base: _,
            subs: _,
            mods: _,
        } => false,
        Body::Der(_, _) => false,
    }
}

/// No elements and no bases.
#[tactic(auto, using(crate::proofs::WalkNames::no_names))]
fn nothing<'t>(alloc: Global, leaf: Option<FrameId>) -> Result<Walk<'t>, NoMemory>
    ensures is { IfOk result (λ walk. (frames : Seq Frame) → walk_seen frames walk ≡ nothing_walked (option_map (λ frame. frame_in frames frame.0) leaf)) }
    ensures stand { IfOk result (λ walk. (world : World) → IsLeaf world leaf → IsWalk world walk) }
{
    let names = Box::new(alloc, Names::new(alloc))?;
    Ok(Walk {
        members: List::new(alloc),
        bases: List::new(alloc),
        sections: List::new(alloc),
        leaf,
        names,
    })
}

/// What the elements of a frame begin with.
pub fn started<'t>(alloc: Global, s: &Scopes<'t>, frame: FrameId) -> Result<Walk<'t>, Stop>
    requires { IsFrame s.now frame.0 }
    ensures value { Gives (walk_at s.now) result (walk_started (frame_at s.now frame.0) (row_of_frame s.now frame.0)) }
    ensures stand { IfOk result (IsWalk s.now) }
{
    match s.row(s.class_of(frame)) {
        None => Ok(nothing(alloc, Some(frame))?),
        Some(row) => {
            if is_left_out(row) {
                return Err(stop(rules::OUTSIDE_PROFILE, row.class.place));
            }
            if is_enumeration(&row.class.body) {
                return Ok(nothing(alloc, Some(frame))?);
            }
            Ok(nothing(alloc, None)?)
        }
    }
}

/// Asks that a frame that ends at a leaf type has no elements.
fn elements_checked(s: &Scopes, _leaf: FrameId, walk: &Walk) -> Result<(), Stop>
    requires { walk.now.leaf ≡ Some _leaf }
    ensures { Gives (λ _. walk_at s.now walk.now) result (checked_leaf (walk_at s.now walk.now)) }
{
    match walk.members.get(0) {
        Some(first) => Err(stop(rules::WRONG_KIND_OF_NAME, first.member.declares.place)),
        None => Ok(()),
    }
}

/// Asks that no leaf type has elements.
pub fn leaf_checked(s: &Scopes, walk: &Walk) -> Result<(), Stop>
    ensures { Gives (λ _. walk_at s.now walk.now) result (checked_leaf (walk_at s.now walk.now)) }
{
    match walk.leaf {
        Some(leaf) => elements_checked(s, leaf, walk),
        None => Ok(()),
    }
}

/// The elements of a frame whose parts were gone through, asked for those of a leaf type.
pub(crate) fn walk_checked<'t>(
    s: &Scopes<'t>,
    done: Result<(), Stop>,
    walk: Walk<'t>,
) -> Result<Walk<'t>, Stop>
    requires { IfOk done (λ _. IsWalk s.now walk) }
    ensures value { (told : Outcome Walked) → Gives (λ _. walk_at s.now walk.entry) done told → Gives (walk_at s.now) result (and_then told checked_leaf) }
    ensures stand { IfOk result (IsWalk s.now) }
{
    done?;
    leaf_checked(s, &walk)?;
    Ok(walk)
}

/// A copy of the names of an instance path.
pub fn names_copied(
    alloc: Global,
    names: &[(Text, List<u32>)],
) -> Result<List<(Text, List<u32>)>, NoMemory>
    ensures { IfOk result (λ made. made ≡ names.now) }
{
    let mut made = List::new(alloc);
    for (name, index) in names {
        made.push(name_copied(alloc, name, index.as_slice())?)?;
    }
    Ok(made)
}

/// A copy of a name with its index.
pub fn name_copied(alloc: Global, name: &Text, index: &[u32]) -> Result<(Text, List<u32>), NoMemory>
    ensures { IfOk result (λ made. (made.0 ≡ name.now) × (made.1 ≡ index.now)) }
{
    let index = index.to_vec(alloc)?;
    Ok((name.copy(alloc)?, List::from_vec(index)))
}

/// A copy of the path of a frame.
pub fn path_copied(
    alloc: Global,
    path: Option<&InstancePath>,
) -> Result<Option<InstancePath>, NoMemory>
    ensures { IfOk result (λ made. option_map path_names made ≡ option_map (λ path. path.now.0) path.entry) }
{
    match path {
        Some(path) => Ok(Some(InstancePath(names_copied(alloc, path.0.as_slice())?))),
        None => Ok(None),
    }
}

/// The frame that owns what is a base of a frame: that frame, if it has a path or an owner.
pub fn owner_of(s: &Scopes, frame: FrameId) -> Option<FrameId>
    requires { IsFrame s.now frame.0 }
    ensures is { frame_at_or_top s.now result ≡ owner_of_base (frame_at s.now frame.0) }
    ensures exists { IsFrameOrNone s.now (option_map number_of result) }
{
    if s.path(frame).is_some() {
        return Some(frame);
    }
    if s.owner(frame).is_some() {
        return Some(frame);
    }
    None
}

/// Whether a frame has no path and no owner.
pub fn is_unowned(s: &Scopes, frame: FrameId) -> bool
    requires { IsFrame s.now frame.0 }
    ensures path { result ≡ true → at_of (frame_at s.now frame.0) ≡ None }
    ensures owner { result ≡ true → owner_of_base (frame_at s.now frame.0) ≡ Top }
{
    if s.path(frame).is_some() {
        return false;
    }
    s.owner(frame).is_none()
}

/// The base frame of a frame, with these sources, whose class was found as that frame, as a new frame.
fn base_anew<'t>(
    alloc: Global,
    s: &mut Scopes<'t>,
    frame: FrameId,
    sources: List<Source<'t>>,
    class: FrameId,
) -> Result<FrameId, NoMemory>
    requires frame { IsFrame s.old frame.0 }
    requires class { IsFrame s.old class.0 }
    requires sources { AreFrames s.old (map source_seen sources) }
    ensures grows { Grows s.old s.new }
    ensures value { IfOk result (λ base. frame_at s.new base.0 ≡ In (class_of (frame_at s.old class.0)) (gathered (sources_at s.old sources.entry)) (outer_of (frame_at s.old class.0)) (at_of (frame_at s.old frame.0)) (owner_of_base (frame_at s.old frame.0))) }
    ensures stand { IfOk result (λ base. IsFrame s.new base.0) }
{
    let at = path_copied(alloc, s.path(frame))?;
    let number = s.class_of(class);
    let outer = s.outer(class);
    let owner = owner_of(s, frame);
    s.enter(alloc, number, sources, outer, at, owner)
}

/// The same; what has nothing but a class and a frame around it has one number.
fn base_with<'t>(
    alloc: Global,
    s: &mut Scopes<'t>,
    frame: FrameId,
    sources: List<Source<'t>>,
    class: FrameId,
) -> Result<FrameId, NoMemory>
    requires frame { IsFrame s.old frame.0 }
    requires class { IsFrame s.old class.0 }
    requires sources { AreFrames s.old (map source_seen sources) }
    ensures grows { Grows s.old s.new }
    ensures value { IfOk result (λ base. frame_at s.new base.0 ≡ In (class_of (frame_at s.old class.0)) (gathered (sources_at s.old sources.entry)) (outer_of (frame_at s.old class.0)) (at_of (frame_at s.old frame.0)) (owner_of_base (frame_at s.old frame.0))) }
    ensures stand { IfOk result (λ base. IsFrame s.new base.0) }
{
    if !sources.is_empty() {
        return base_anew(alloc, s, frame, sources, class);
    }
    if !is_unowned(s, frame) {
        return base_anew(alloc, s, frame, sources, class);
    }
    let number = s.class_of(class);
    let outer = s.outer(class);
    looked_up_class(alloc, s, number, outer)
}

/// The base frame of an extends clause of a frame, whose class was found as that frame; a predefined type has no clause.
fn base_of_clause<'t>(
    alloc: Global,
    s: &mut Scopes<'t>,
    frame: FrameId,
    clause: &Clause<'t>,
    class: FrameId,
) -> Result<FrameId, NoMemory>
    requires frame { IsFrame s.old frame.0 }
    requires class { IsFrame s.old class.0 }
    ensures grows { Grows s.old s.new }
    ensures value { IfOk result (λ base. frame_at s.new base.0 ≡ entered_base (frame_at s.old frame.0) (row_of_frame s.old frame.0) (clause_seen clause.now) (frame_at s.old class.0)) }
    ensures stand { IfOk result (λ base. IsFrame s.new base.0) }
{
    let sources = match s.row(s.class_of(frame)) {
        Some(row) => s.base_sources(alloc, frame, row, clause, class)?,
        None => return Ok(frame),
    };
    base_with(alloc, s, frame, sources, class)
}

/// The same, entered once: after that it is the frame that is kept.
pub(crate) fn base_entered<'t>(
    alloc: Global,
    s: &mut Scopes<'t>,
    frame: FrameId,
    clause: &NumberedClause<'t>,
    class: FrameId,
) -> Result<FrameId, NoMemory>
    requires frame { IsFrame s.old frame.0 }
    requires clause { StandsAt (row_of_frame s.old frame.0) clause.now.at (Base_of (clause_seen clause.now.clause)) }
    requires class { IsFrame s.old class.0 }
    ensures grows { Grows s.old s.new }
    ensures value { IfOk result (λ base. frame_at s.new base.0 ≡ entered_base (frame_at s.old frame.0) (row_of_frame s.old frame.0) (clause_seen clause.now.clause) (frame_at s.old class.0)) }
    ensures stand { IfOk result (λ base. IsFrame s.new base.0) }
{
    if let Some(base) = s.entered_base(frame, clause.at, class) {
        return Ok(base);
    }
    let base = base_of_clause(alloc, s, frame, &clause.clause, class)?;
    s.keep_base(frame, clause.at, class, base)?;
    Ok(base)
}

/// The place of the last of some identifiers.
pub(crate) fn last_place(parts: &[Part]) -> Place
    ensures { result ≡ place_of_last parts.now }
{
    match parts {
        [.., last] => last.place,
        [] => Place { file: 0, byte: 0 },
    }
}

/// The classes whose bases are being found, with one more.
pub(crate) fn busy_with(alloc: Global, busy: &[u32], class: u32) -> Result<List<u32>, NoMemory>
    ensures { IfOk result (λ more. more ≡ busy.now ++ class ∷ []) }
{
    let mut more = List::from_vec(busy.to_vec(alloc)?);
    more.push(class)?;
    Ok(more)
}
