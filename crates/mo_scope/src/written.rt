//! Sources that hold a modifier list: of a declaration, of an extends clause, of a redeclaration.
ghost use Rattle.std.specs.Option.{option_to_list};
ghost use Rattle.std.specs.Prelude.{◌≡◌, ◌++◌, List as Seq, flat_map, if◌then◌else◌, is_some, map, IfOk, OnOk};
ghost use Rattle.mo_syntax.specs.declared.class.Body.{out-Body};
ghost use Rattle.mo_scope.specs.Frames.{Frame, Source as SourceOf};
ghost use Rattle.mo_scope.specs.Parts.{clause_source as source_of_clause, first_of, is_nothing as holds_nothing, or_own, place_of_list as place_of_modifiers, replacing_source as source_replacing, with_list as source_with_list, without_value as source_without_value, written as source_written};
ghost use Rattle.mo_scope.specs.Rows.{form_in, is_short_form, is_short_redeclaration as is_redeclaration_short, replacing_in};
ghost use Rattle.mo_scope.specs.Sights.{clause_seen, declares_seen, given_seen, modifiers_seen, origin_seen, row_seen, source_seen};
ghost use Rattle.mo_scope.specs.Worlds.{frame_in, source_in, sources_in};

use crate::copies::copied;
use crate::row::{Clause, Declares, Home, Row};
use crate::saying::{nested_list, replacing};
use crate::source::{Given, Listing, Modifiers, Origin, ScopeAt, Source};
use mo_syntax::{Body, FrameId, Item, List, NoMemory, Place};
use std::alloc::Global;

/// Puts an item at the end, if there is one.
pub(crate) fn put<T: Drop>(made: &mut List<T>, item: Option<T>) -> Result<(), NoMemory>
    ensures { OnOk result (made.new ≡ made.old ++ option_to_list item) }
{
    match item {
        Some(item) => made.push(item),
        None => Ok(()),
    }
}

/// Whether there is neither an argument nor a value.
pub fn is_nothing(modifiers: &Modifiers<'_>) -> bool
    ensures { result ≡ holds_nothing (modifiers_seen modifiers.now) }
{
    modifiers.list.is_empty() && modifiers.value.is_none()
}

/// The place of a list: that of its first argument, else that of its value.
fn place_of_list(modifiers: &Modifiers<'_>) -> Place
    ensures { result ≡ place_of_modifiers (modifiers_seen modifiers.now) }
{
    match modifiers.list.first() {
        Some(argument) => argument.place,
        None => match modifiers.value {
            Some(value) => value.place,
            None => Place { file: 0, byte: 0 },
        },
    }
}

/// The source of a modifier list that stands in a frame, None where it is empty.
pub(crate) fn written<'t>(
    alloc: Global,
    home: FrameId,
    index: &[u32],
    origin: Origin,
    modifiers: Modifiers<'t>,
) -> Result<Option<Source<'t>>, NoMemory>
    ensures { IfOk result (λ made. (frames : Seq Frame) → sources_in frames (map source_seen (option_to_list made)) ≡ source_written (frame_in frames home.0) index.now (origin_seen origin) (modifiers_seen modifiers.entry)) }
{
    if is_nothing(&modifiers) {
        return Ok(None);
    }
    let pending = copied(alloc, index)?;
    Ok(Some(Source {
        given: Given::Listed(modifiers),
        scope: ScopeAt {
            frame: home,
            iters: List::new(alloc),
        },
        pending,
        listing: Listing {
            place: place_of_list(&modifiers),
            passed: List::new(alloc),
        },
        last: false,
        outside: false,
        origin,
    }))
}

/// The source with the list of a redeclaration in its place, None where that is empty.
pub(crate) fn with_list<'t>(source: Source<'t>, modifiers: Modifiers<'t>) -> Option<Source<'t>>
    ensures { (frames : Seq Frame) → sources_in frames (map source_seen (option_to_list result)) ≡ source_with_list (source_in frames (source_seen source.entry)) (modifiers_seen modifiers.entry) }
{
    if is_nothing(&modifiers) {
        return None;
    }
    Some(Source {
        given: Given::Listed(modifiers),
        scope: source.scope,
        pending: source.pending,
        listing: source.listing,
        last: source.last,
        outside: false,
        origin: source.origin,
    })
}

/// What a source holds without the value for what it modifies.
fn valueless(given: Given<'_>) -> Given<'_>
    ensures { (source : SourceOf) → source.piece.given ≡ given_seen given.entry → given_seen result ≡ (source_without_value source).piece.given }
{
    match given {
        Given::Listed(modifiers) => Given::Listed(Modifiers {
            list: modifiers.list,
            value: None,
        }),
        Given::Argued { argument, passed } => {
            if passed < argument.name.0.len() {
                return given;
            }
            Given::Listed(Modifiers {
                list: nested_list(argument, passed),
                value: None,
            })
        }
        Given::Replacing(items) => Given::Replacing(items),
    }
}

/// A source without the value for what it modifies.
pub(crate) fn without_value(source: Source<'_>) -> Source<'_>
    ensures { (frames : Seq Frame) → source_in frames (source_seen result) ≡ source_without_value (source_in frames (source_seen source.entry)) }
{
    Source {
        given: valueless(source.given),
        scope: source.scope,
        pending: source.pending,
        listing: source.listing,
        last: source.last,
        outside: source.outside,
        origin: source.origin,
    }
}

/// The modifiers that a redeclaration brings: its own if it wins, else those of its constraining clause if it has one.
pub fn brought<'t>(wins: bool, declares: &Declares<'t>) -> Modifiers<'t>
    ensures { modifiers_seen result ≡ (if wins then (declares_seen declares.now).own else or_own (declares_seen declares.now).limit (declares_seen declares.now)) }
{
    if wins {
        return declares.own;
    }
    match declares.limit {
        Some(limit) => limit.modifiers,
        None => declares.own,
    }
}

/// Whether an element with `redeclare` is among the items of a class.
fn replaces(items: &[Item]) -> bool
    ensures { result ≡ is_some (first_of (flat_map replacing_in items.now)) }
{
    for item in items {
        if replacing(item).is_some() {
            return true;
        }
    }
    false
}

/// The elements with `redeclare` of a class as a source, None where it has none.
pub(crate) fn replacing_source<'t>(
    alloc: Global,
    frame: FrameId,
    row: &Row<'t>,
) -> Option<Source<'t>>
    ensures { (frames : Seq Frame) → sources_in frames (map source_seen (option_to_list result)) ≡ source_replacing (frame_in frames frame.0) (row_seen row.now) }
{
    if !replaces(row.replacing) {
        return None;
    }
    Some(Source {
        given: Given::Replacing(row.replacing),
        scope: ScopeAt {
            frame,
            iters: List::new(alloc),
        },
        pending: List::new(alloc),
        listing: Listing {
            place: row.class.place,
            passed: List::new(alloc),
        },
        last: false,
        outside: false,
        origin: Origin::Elsewhere,
    })
}

/// Whether a class is a short one (Modelica Language Specification 3.5, section 4.5.1).
pub fn is_short(body: &Body) -> bool
    ensures { result ≡ is_short_form (form_in (out-Body body.now)) }
{
    match body {
        Body::Short {
            causal: _,
            base: _,
            subs: _,
            mods: _,
        } => true,
        Body::Long {
            extending: _,
            items: _,
            external: _,
        } => false,
        Body::Enumeration(_) => false,
        Body::Der(_, _) => false,
    }
}

/// Whether a class is a short one that an argument or an element with `redeclare` declares.
fn is_short_redeclaration(row: &Row<'_>) -> bool
    ensures { result ≡ is_redeclaration_short (row_seen row.now) }
{
    match &row.home {
        Home::Apart => is_short(&row.class.body),
        Home::Under(_) => false,
        Home::Inside(_) => false,
    }
}

/// The source of an extends clause or a short class, None where its list is empty or a part of another source.
pub(crate) fn clause_source<'t>(
    alloc: Global,
    frame: FrameId,
    row: &Row<'t>,
    clause: &Clause<'t>,
) -> Result<Option<Source<'t>>, NoMemory>
    ensures { IfOk result (λ made. (frames : Seq Frame) → sources_in frames (map source_seen (option_to_list made)) ≡ source_of_clause (frame_in frames frame.0) (row_seen row.now) (clause_seen clause.now)) }
{
    if is_short_redeclaration(row) {
        return Ok(None);
    }
    let modifiers = Modifiers {
        list: clause.list,
        value: None,
    };
    written(alloc, frame, &[], Origin::Elsewhere, modifiers)
}
