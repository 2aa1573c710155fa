//! The paths of the own modifiers of a declaration, which its constraining clause may not have too.
ghost use Rattle.std.specs.Prelude.{◌≡◌, ◌++◌, List as Seq, if◌then◌else◌, [], flat_map, map, IfOk, OnOk};
ghost use Rattle.mo_scope.specs.Frames.{Frame, class_of, sources_of};
ghost use Rattle.mo_scope.specs.Rows.{place_eq, short_modifiers};
ghost use Rattle.mo_scope.specs.Sights.{origin_seen, row_seen, source_seen};
ghost use Rattle.mo_scope.specs.Worlds.{IsFrame, frame_at, source_in, table_in, row_of_frame};
ghost use Rattle.mo_mods.specs.PathSights.{claim_seen};
ghost use Rattle.mo_instance.specs.steps.FirstPass.{against};
ghost use Rattle.mo_instance.specs.Passes.{argument_claims, is_own_of as origin_is_own, own_claims as claims_of_own, short_claims, source_claims};
ghost use Rattle.mo_instance.specs.steps.Speeches.{Speech, speech_seen, speeches_of};

use crate::spoken::{Spoken, spoken_of};
use mo_mods::{Claim, claims_by};
use mo_scope::{Origin, Row, Scopes, Source};
use mo_syntax::{Argument, Body, FrameId, List, NoMemory, Place};
use std::alloc::Global;

/// Whether two places are one.
fn is_place(a: Place, b: Place) -> bool
    ensures { result ≡ place_eq a b }
{
    a.file == b.file && a.byte == b.byte
}

/// Whether a list holds the own modifiers of the declaration whose name stands at the place.
fn is_own_of(place: Place, origin: Origin) -> bool
    ensures { result ≡ origin_is_own place (origin_seen origin) }
{
    match origin {
        Origin::OwnOf(other) => is_place(place, other),
        Origin::ConstraintOf(_) => false,
        Origin::Elsewhere => false,
    }
}

/// Puts the paths of an argument.
fn put_one<'t>(one: Spoken<'t>, made: &mut List<Claim<'t>>) -> Result<(), NoMemory>
    ensures { OnOk result (map claim_seen made.new ≡ map claim_seen made.old ++ (speech_seen one.entry).claims) }
{
    let Spoken {
        outside: _,
        origin: _,
        name: _,
        place: _,
        claims,
        replacing: _,
    } = one;
    made.append(claims)
}

/// Puts the paths of arguments.
fn put_all<'t>(spoken: List<Spoken<'t>>, made: &mut List<Claim<'t>>) -> Result<(), NoMemory>
    ensures { OnOk result (map claim_seen made.new ≡ map claim_seen made.old ++ flat_map (λ (one : Speech). one.claims) (map speech_seen spoken.entry)) }
{
    for one in spoken.into_vec() {
        put_one(one, made)?;
    }
    Ok(())
}

/// Puts the paths of the arguments of a source.
fn put_spoken<'t>(
    alloc: Global,
    s: &Scopes<'t>,
    source: &Source<'t>,
    made: &mut List<Claim<'t>>,
) -> Result<(), NoMemory>
    ensures { OnOk result ((frames : Seq Frame) → map claim_seen made.new ≡ map claim_seen made.old ++ flat_map (λ (one : Speech). one.claims) (speeches_of (table_in s.now) (source_in frames (source_seen source.now)))) }
{
    let spoken = spoken_of(alloc, s, source)?;
    put_all(spoken, made)
}

/// Puts the paths of the arguments of a source, if it holds the own modifiers of the declaration.
fn put_source<'t>(
    alloc: Global,
    s: &Scopes<'t>,
    place: Place,
    source: &Source<'t>,
    made: &mut List<Claim<'t>>,
) -> Result<(), NoMemory>
    ensures { OnOk result ((frames : Seq Frame) → map claim_seen made.new ≡ map claim_seen made.old ++ source_claims (table_in s.now) place (source_in frames (source_seen source.now))) }
{
    if is_own_of(place, source.origin) {
        return put_spoken(alloc, s, source, made);
    }
    Ok(())
}

/// The arguments of a short class, none of another one.
fn short_list(body: &Body) -> &[Argument]
    ensures { result.now ≡ (short_modifiers body.now).list }
{
    match body {
        Body::Short {
            causal: _,
            base: _,
            subs: _,
            mods,
        } => mods.0.as_slice(),
        Body::Long {
            extending: _,
            items: _,
            external: _,
        } => &[],
        Body::Enumeration(_) => &[],
        Body::Der(_, _) => &[],
    }
}

/// The paths of an argument of a list.
fn claims_in_list<'t>(alloc: Global, argument: &'t Argument) -> Result<List<Claim<'t>>, NoMemory>
    ensures { IfOk result (λ made. map claim_seen made ≡ argument_claims argument.now) }
{
    claims_by(alloc, argument, argument.name.0.as_slice(), argument.last)
}

/// Puts the paths of the arguments of a list.
fn put_list<'t>(
    alloc: Global,
    list: &'t [Argument],
    made: &mut List<Claim<'t>>,
) -> Result<(), NoMemory>
    ensures { OnOk result (map claim_seen made.new ≡ map claim_seen made.old ++ flat_map argument_claims list.now) }
{
    for argument in list {
        let claims = claims_in_list(alloc, argument)?;
        made.append(claims)?;
    }
    Ok(())
}

/// Puts the paths of a short class that is declared at the place.
fn put_short<'t>(
    alloc: Global,
    place: Place,
    row: &Row<'t>,
    made: &mut List<Claim<'t>>,
) -> Result<(), NoMemory>
    ensures { OnOk result (map claim_seen made.new ≡ map claim_seen made.old ++ (if place_eq place (row_seen row.now).class.place then flat_map argument_claims (short_modifiers (row_seen row.now).class.body).list else [])) }
{
    if is_place(place, row.class.place) {
        return put_list(alloc, short_list(&row.class.body), made);
    }
    Ok(())
}

/// Puts the paths of the class of a frame, if it is a short one that is declared at the place.
fn put_class<'t>(
    alloc: Global,
    s: &Scopes<'t>,
    frame: FrameId,
    place: Place,
    made: &mut List<Claim<'t>>,
) -> Result<(), NoMemory>
    requires { IsFrame s.now frame.0 }
    ensures { OnOk result (map claim_seen made.new ≡ map claim_seen made.old ++ short_claims place (row_of_frame s.now frame.0)) }
{
    match s.row(s.class_of(frame)) {
        Some(row) => put_short(alloc, place, row, made),
        None => Ok(()),
    }
}

/// Puts the paths of the own modifiers of the declaration whose name stands at the place, among the sources of a frame.
fn put_sources<'t>(
    alloc: Global,
    s: &Scopes<'t>,
    frame: FrameId,
    place: Place,
    made: &mut List<Claim<'t>>,
) -> Result<(), NoMemory>
    requires { IsFrame s.now frame.0 }
    ensures { OnOk result (map claim_seen made.new ≡ map claim_seen made.old ++ flat_map (source_claims (table_in s.now) place) (sources_of (frame_at s.now frame.0))) }
{
    let sources = s.sources(frame).as_slice();
    for source in sources {
        put_source(alloc, s, place, source, made)?;
    }
    Ok(())
}

/// The paths of the own modifiers of the declaration whose name stands at the place, among the sources of a frame or those of its
/// short class.
fn own_claims<'t>(
    alloc: Global,
    s: &Scopes<'t>,
    frame: FrameId,
    place: Place,
) -> Result<List<Claim<'t>>, NoMemory>
    requires { IsFrame s.now frame.0 }
    ensures { IfOk result (λ made. map claim_seen made ≡ claims_of_own (table_in s.now) (frame_at s.now frame.0) place) }
{
    let mut made = List::new(alloc);
    put_sources(alloc, s, frame, place, &mut made)?;
    put_class(alloc, s, frame, place, &mut made)?;
    Ok(made)
}

/// The paths that the arguments of a source of a frame with that origin may not have.
pub(crate) fn claims_against<'t>(
    alloc: Global,
    s: &Scopes<'t>,
    frame: FrameId,
    origin: Origin,
) -> Result<List<Claim<'t>>, NoMemory>
    requires { IsFrame s.now frame.0 }
    ensures { IfOk result (λ made. map claim_seen made ≡ against (table_in s.now) (frame_at s.now frame.0) (origin_seen origin)) }
{
    match origin {
        Origin::ConstraintOf(place) => own_claims(alloc, s, frame, place),
        Origin::OwnOf(_) => Ok(List::new(alloc)),
        Origin::Elsewhere => Ok(List::new(alloc)),
    }
}
