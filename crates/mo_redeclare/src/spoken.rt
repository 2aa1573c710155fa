//! What the sources of a frame redeclare (Modelica Language Specification 3.5, section 7.3).
ghost use Rattle.std.specs.Option.{option_to_list};
ghost use Rattle.std.specs.Prelude.{◌≡◌, ◌++◌, ◌∷◌, [], List as Seq, flat_map, map, option_map, IfOk, OnOk};
ghost use Rattle.mo_scope.specs.Frames.{Argued, Frame, sources_of};
ghost use Rattle.mo_scope.specs.Parts.{behind_name, declared_in, pending_behind as pending_indices, redeclarations_in, said_behind};
ghost use Rattle.mo_scope.specs.Places.{Every};
ghost use Rattle.mo_scope.specs.Rows.{replacing_in};
ghost use Rattle.mo_scope.specs.Sights.{given_seen, source_seen, source_at};
ghost use Rattle.mo_scope.specs.Spoken.{spoken_argument as argument_spoken, spoken_element as element_spoken, spoken_in, spoken_of, spoken_rest as rest_spoken};
ghost use Rattle.mo_scope.specs.Worlds.{IsFrame, frame_at, frames_of, source_in, table_in};
ghost use Rattle.mo_redeclare.specs.steps.Sights.{IsNamed, named_seen};
ghost use Rattle.mo_redeclare.specs.steps.Comparing.{element_given as given_element, redeclares_in};

use mo_scope::{
    Given, Listing, Origin, Redeclaration, Scopes, Source, copied, copied_scope, nested_list,
    pending_at, replacing,
};
use mo_syntax::{Argument, Element, FrameId, Give, Item, List, NoMemory, Text, both};
use std::alloc::Global;

/// A redeclaration with the name of the element that it redeclares.
#[derive(Drop)]
pub(crate) struct Named<'t> {
    pub name: &'t Text,
    pub redeclaration: Redeclaration<'t>,
}

/// A name that is passed, with what is written before it.
#[derive(Clone, Copy)]
struct Passing<'t> {
    name: &'t Text,
    each: bool,
    last: bool,
}

/// Puts an item at the end, if there is one.
fn put<T: Drop>(made: &mut List<T>, item: Option<T>) -> Result<(), NoMemory>
    ensures { OnOk result (made.new ≡ made.old ++ option_to_list item) }
{
    match item {
        Some(item) => made.push(item),
        None => Ok(()),
    }
}

/// The element with which an argument redeclares, and whether it stays replaceable; None where it modifies.
fn element_given<'t>(give: &'t Give) -> Option<(&'t Element, bool)>
    ensures { option_map (λ given. (given.0.now, given.1)) result ≡ given_element give.now }
{
    match give {
        Give::Modify(_, _) => None,
        Give::Redeclare(element) => Some((element, element.flags.replaceable)),
        Give::Replaceable(element) => Some((element, true)),
    }
}

/// Names that were passed, with one more.
fn names_with<'t>(
    alloc: Global,
    names: &[&'t Text],
    last: &'t Text,
) -> Result<List<&'t Text>, NoMemory>
    ensures { IfOk result (λ made. made ≡ names.now ++ last.entry ∷ []) }
{
    let mut made = copied(alloc, names)?;
    made.push(last)?;
    Ok(made)
}

/// The source behind one more name.
fn source_behind<'t>(
    alloc: Global,
    source: &Source<'t>,
    passing: &Passing<'t>,
    given: Given<'t>,
) -> Result<Source<'t>, NoMemory>
    ensures is { IfOk result (λ made. (frames : Seq Frame) → source_in frames (source_seen made) ≡ behind_name (source_in frames (source_seen source.now)) passing.now.name.now (pending_indices passing.now.each source.now.pending []) passing.now.last (given_seen given.entry)) }
    ensures scope { IfOk result (λ made. made.scope.frame ≡ source.now.scope.frame) }
{
    let (pending, passed) = both(
        pending_at(alloc, passing.each, source.pending.as_slice(), &[]),
        names_with(alloc, source.listing.passed.as_slice(), passing.name),
    )?;
    let scope = copied_scope(alloc, &source.scope)?;
    Ok(Source {
        given,
        scope,
        pending,
        listing: Listing {
            place: source.listing.place,
            passed,
        },
        last: source.last || passing.last,
        outside: source.outside,
        origin: Origin::Elsewhere,
    })
}

/// The redeclaration that an argument is of which so many names are passed; None where names are left, or where it modifies.
fn argument_behind<'t>(
    alloc: Global,
    s: &Scopes<'t>,
    source: &Source<'t>,
    argument: &'t Argument,
    passed: usize,
    passing: &Passing<'t>,
) -> Result<Option<Named<'t>>, NoMemory>
    requires { IsFrame s.now source.now.scope.frame.0 }
    ensures are { IfOk result (λ found. map (named_seen (frames_of s.now)) (option_to_list found) ≡ map (λ redeclaration. (passing.now.name.now, redeclaration)) (redeclarations_in (said_behind (table_in s.now) argument.now passed (behind_name (source_at s.now source.now) passing.now.name.now (pending_indices passing.now.each source.now.pending []) passing.now.last (Argued argument.now passed)) ∷ []))) }
    ensures exist { IfOk result (λ found. Every (IsNamed s.now) (option_to_list found)) }
{
    if passed < argument.name.0.len() {
        return Ok(None);
    }
    match element_given(&argument.give) {
        Some((element, keeps)) => {
            let given = Given::Argued { argument, passed };
            let behind = source_behind(alloc, source, passing, given)?;
            Ok(Some(Named {
                name: passing.name,
                redeclaration: Redeclaration {
                    declares: s.declared(element),
                    place: argument.place,
                    keeps,
                    source: behind,
                },
            }))
        }
        None => Ok(None),
    }
}

/// The redeclaration that an argument of a list is.
fn spoken_argument<'t>(
    alloc: Global,
    s: &Scopes<'t>,
    source: &Source<'t>,
    argument: &'t Argument,
) -> Result<Option<Named<'t>>, NoMemory>
    requires { IsFrame s.now source.now.scope.frame.0 }
    ensures are { IfOk result (λ found. map (named_seen (frames_of s.now)) (option_to_list found) ≡ redeclares_in (argument_spoken (table_in s.now) (source_at s.now source.now) argument.now)) }
    ensures exist { IfOk result (λ found. Every (IsNamed s.now) (option_to_list found)) }
{
    match argument.name.0.get(0) {
        Some(name) => {
            let passing = Passing {
                name,
                each: argument.each,
                last: argument.last,
            };
            argument_behind(alloc, s, source, argument, 1, &passing)
        }
        None => Ok(None),
    }
}

/// The redeclaration that is left of an argument of which so many names were passed.
fn spoken_rest<'t>(
    alloc: Global,
    s: &Scopes<'t>,
    source: &Source<'t>,
    argument: &'t Argument,
    passed: usize,
) -> Result<Option<Named<'t>>, NoMemory>
    requires { IsFrame s.now source.now.scope.frame.0 }
    ensures are { IfOk result (λ found. map (named_seen (frames_of s.now)) (option_to_list found) ≡ redeclares_in (rest_spoken (table_in s.now) (source_at s.now source.now) argument.now passed)) }
    ensures exist { IfOk result (λ found. Every (IsNamed s.now) (option_to_list found)) }
{
    let names = argument.name.0.as_slice();
    if passed >= names.len() {
        return Ok(None);
    }
    let passing = Passing {
        name: &names[passed],
        each: false,
        last: false,
    };
    argument_behind(alloc, s, source, argument, passed + 1, &passing)
}

/// The redeclaration that an element with `redeclare` is.
fn spoken_element<'t>(
    alloc: Global,
    s: &Scopes<'t>,
    source: &Source<'t>,
    element: &'t Element,
) -> Result<Named<'t>, NoMemory>
    requires { IsFrame s.now source.now.scope.frame.0 }
    ensures is { IfOk result (λ made. named_seen (frames_of s.now) made ∷ [] ≡ redeclares_in (element_spoken (table_in s.now) (source_at s.now source.now) (declared_in (table_in s.now) element.now))) }
    ensures exists { IfOk result (IsNamed s.now) }
{
    let declares = s.declared(element);
    let passing = Passing {
        name: declares.name,
        each: false,
        last: declares.flags.last,
    };
    let behind = source_behind(alloc, source, &passing, Given::Listed(declares.own))?;
    Ok(Named {
        name: declares.name,
        redeclaration: Redeclaration {
            declares,
            place: declares.place,
            keeps: declares.flags.replaceable,
            source: behind,
        },
    })
}

/// The redeclaration that an item of a class is, None where it replaces no inherited element.
fn spoken_item<'t>(
    alloc: Global,
    s: &Scopes<'t>,
    source: &Source<'t>,
    item: &'t Item,
) -> Result<Option<Named<'t>>, NoMemory>
    requires { IsFrame s.now source.now.scope.frame.0 }
    ensures are { IfOk result (λ found. map (named_seen (frames_of s.now)) (option_to_list found) ≡ flat_map (λ element. redeclares_in (element_spoken (table_in s.now) (source_at s.now source.now) (declared_in (table_in s.now) element))) (replacing_in item.now)) }
    ensures exist { IfOk result (λ found. Every (IsNamed s.now) (option_to_list found)) }
{
    match replacing(item) {
        Some(element) => Ok(Some(spoken_element(alloc, s, source, element)?)),
        None => Ok(None),
    }
}

/// Adds the redeclarations of a modifier list.
fn add_list<'t>(
    alloc: Global,
    s: &Scopes<'t>,
    source: &Source<'t>,
    list: &'t [Argument],
    made: &mut List<Named<'t>>,
) -> Result<(), NoMemory>
    requires scope { IsFrame s.now source.now.scope.frame.0 }
    requires made { Every (IsNamed s.now) made.old }
    ensures are { OnOk result (map (named_seen (frames_of s.now)) made.new ≡ map (named_seen (frames_of s.now)) made.old ++ flat_map (λ argument. redeclares_in (argument_spoken (table_in s.now) (source_at s.now source.now) argument)) list.now) }
    ensures exist { OnOk result (Every (IsNamed s.now) made.new) }
{
    for argument in list {
        let found = spoken_argument(alloc, s, source, argument)?;
        put(made, found)?;
    }
    Ok(())
}

/// Adds the redeclarations among the items of a class.
fn add_items<'t>(
    alloc: Global,
    s: &Scopes<'t>,
    source: &Source<'t>,
    items: &'t [Item],
    made: &mut List<Named<'t>>,
) -> Result<(), NoMemory>
    requires scope { IsFrame s.now source.now.scope.frame.0 }
    requires made { Every (IsNamed s.now) made.old }
    ensures are { OnOk result (map (named_seen (frames_of s.now)) made.new ≡ map (named_seen (frames_of s.now)) made.old ++ flat_map (λ element. redeclares_in (element_spoken (table_in s.now) (source_at s.now source.now) (declared_in (table_in s.now) element))) (flat_map replacing_in items.now)) }
    ensures exist { OnOk result (Every (IsNamed s.now) made.new) }
{
    for item in items {
        let found = spoken_item(alloc, s, source, item)?;
        put(made, found)?;
    }
    Ok(())
}

/// Adds the redeclarations of a source.
fn add_source<'t>(
    alloc: Global,
    s: &Scopes<'t>,
    source: &Source<'t>,
    made: &mut List<Named<'t>>,
) -> Result<(), NoMemory>
    requires scope { IsFrame s.now source.now.scope.frame.0 }
    requires made { Every (IsNamed s.now) made.old }
    ensures are { OnOk result (map (named_seen (frames_of s.now)) made.new ≡ map (named_seen (frames_of s.now)) made.old ++ redeclares_in (spoken_of (table_in s.now) (source_at s.now source.now))) }
    ensures exist { OnOk result (Every (IsNamed s.now) made.new) }
{
    match source.given {
        Given::Listed(modifiers) => add_list(alloc, s, source, modifiers.list, made),
        Given::Argued { argument, passed } => {
            let found = spoken_rest(alloc, s, source, argument, passed)?;
            put(made, found)?;
            add_list(alloc, s, source, nested_list(argument, passed), made)
        }
        Given::Replacing(items) => add_items(alloc, s, source, items, made),
    }
}

/// The redeclarations among the sources of a frame, outermost first, each with the name of its element.
pub(crate) fn redeclared_in<'t>(
    alloc: Global,
    s: &Scopes<'t>,
    frame: FrameId,
) -> Result<List<Named<'t>>, NoMemory>
    requires { IsFrame s.now frame.0 }
    ensures are { IfOk result (λ made. map (named_seen (frames_of s.now)) made ≡ redeclares_in (spoken_in (table_in s.now) (sources_of (frame_at s.now frame.0)))) }
    ensures exist { IfOk result (λ made. Every (IsNamed s.now) made) }
{
    let mut made = List::new(alloc);
    let sources = s.sources(frame).as_slice();
    for source in sources {
        add_source(alloc, s, source, &mut made)?;
    }
    Ok(made)
}
