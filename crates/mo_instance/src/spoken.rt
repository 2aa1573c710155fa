//! The arguments of sources, each by the first of its names.
ghost use Rattle.std.specs.Prelude.{◌≡◌, ◌++◌, ◌||◌, List as Seq, flat_map, map, IfOk, OnOk};
ghost use Rattle.mo_scope.specs.Frames.{Argued, Frame};
ghost use Rattle.mo_scope.specs.Parts.{declared_in, held};
ghost use Rattle.mo_scope.specs.Rows.{replacing_in};
ghost use Rattle.mo_scope.specs.Sights.{declares_seen, source_seen};
ghost use Rattle.mo_scope.specs.Spoken.{spoken_argument as argument_spoken, spoken_element as element_spoken, spoken_rest as rest_spoken};
ghost use Rattle.mo_scope.specs.Worlds.{source_in, sources_in, table_in};
ghost use Rattle.mo_instance.specs.steps.Speeches.{element_with, speech_of, speech_seen, speeches_in, speeches_of, spoken_with};

use mo_mods::{Claim, claims_by};
use mo_scope::{Declares, Given, Origin, Scopes, Source, nested_list, replacing};
use mo_syntax::{Argument, Item, List, NoMemory, Place, Text, pushed, single};
use std::alloc::Global;

/// An argument of a source.
#[derive(Drop)]
pub(crate) struct Spoken<'t> {
    /// Whether the source has passed through a component.
    pub outside: bool,
    pub origin: Origin,
    /// The first of its names.
    pub name: &'t Text,
    pub place: Place,
    /// The paths that it gives something for.
    pub claims: List<Claim<'t>>,
    /// Whether it is an element with `redeclare` of a class.
    pub replacing: bool,
}

/// An argument by the names that are left of it, the first of which is given beside them.
fn spoken_by<'t>(
    alloc: Global,
    source: &Source<'t>,
    argument: &'t Argument,
    names: (&'t Text, &'t [Text]),
    last: bool,
) -> Result<Spoken<'t>, NoMemory>
    ensures { IfOk result (λ made. speech_seen made ≡ spoken_with (source_seen source.now) argument.now names.entry.0.now names.entry.1.now last) }
{
    let claims = claims_by(alloc, argument, names.1, last)?;
    Ok(Spoken {
        outside: source.outside,
        origin: source.origin,
        name: names.0,
        place: argument.place,
        claims,
        replacing: false,
    })
}

/// An argument of which no name was passed, by the first of its names.
fn spoken_argument<'t>(
    alloc: Global,
    source: &Source<'t>,
    argument: &'t Argument,
    name: &'t Text,
) -> Result<Spoken<'t>, NoMemory>
    ensures { IfOk result (λ made. speech_seen made ≡ spoken_with (source_seen source.now) argument.now name.now argument.now.name.0 (source.now.last || argument.now.last)) }
{
    let last = source.last || argument.last;
    spoken_by(
        alloc,
        source,
        argument,
        (name, argument.name.0.as_slice()),
        last,
    )
}

/// Puts an argument of which no name was passed.
fn put_argument<'t>(
    scopes: &Scopes<'t>,
    alloc: Global,
    source: &Source<'t>,
    argument: &'t Argument,
    made: &mut List<Spoken<'t>>,
) -> Result<(), NoMemory>
    ensures { OnOk result ((frames : Seq Frame) → map speech_seen made.new ≡ map speech_seen made.old ++ map speech_of (argument_spoken (table_in scopes.now) (source_in frames (source_seen source.now)) argument.now)) }
{
    match argument.name.0.get(0) {
        Some(name) => pushed(made, spoken_argument(alloc, source, argument, name)),
        None => Ok(()),
    }
}

/// Puts the arguments of a list.
fn put_list<'t>(
    scopes: &Scopes<'t>,
    alloc: Global,
    source: &Source<'t>,
    list: &'t [Argument],
    made: &mut List<Spoken<'t>>,
) -> Result<(), NoMemory>
    ensures { OnOk result ((frames : Seq Frame) → map speech_seen made.new ≡ map speech_seen made.old ++ flat_map (λ argument. map speech_of (argument_spoken (table_in scopes.now) (source_in frames (source_seen source.now)) argument)) list.now) }
{
    for argument in list {
        put_argument(scopes, alloc, source, argument, made)?;
    }
    Ok(())
}

/// Puts what is left of an argument of which so many names were passed, if names are left.
fn put_rest<'t>(
    scopes: &Scopes<'t>,
    alloc: Global,
    source: &Source<'t>,
    argument: &'t Argument,
    passed: usize,
    made: &mut List<Spoken<'t>>,
) -> Result<(), NoMemory>
    ensures { OnOk result ((frames : Seq Frame) → map speech_seen made.new ≡ map speech_seen made.old ++ map speech_of (rest_spoken (table_in scopes.now) (source_in frames (source_seen source.now)) argument.now passed)) }
{
    let names = argument.name.0.as_slice();
    if passed >= names.len() {
        return Ok(());
    }
    let left = &names[passed..];
    let first = &names[passed];
    pushed(
        made,
        spoken_by(alloc, source, argument, (first, left), source.last),
    )
}

/// Puts an argument of which so many names were passed: what is left of it, and the list behind them.
fn put_argued<'t>(
    scopes: &Scopes<'t>,
    alloc: Global,
    source: &Source<'t>,
    argument: &'t Argument,
    passed: usize,
    made: &mut List<Spoken<'t>>,
) -> Result<(), NoMemory>
    ensures { OnOk result ((frames : Seq Frame) → map speech_seen made.new ≡ map speech_seen made.old ++ (map speech_of (rest_spoken (table_in scopes.now) (source_in frames (source_seen source.now)) argument.now passed) ++ flat_map (λ one. map speech_of (argument_spoken (table_in scopes.now) (source_in frames (source_seen source.now)) one)) (held (Argued argument.now passed)).list)) }
{
    put_rest(scopes, alloc, source, argument, passed, made)?;
    put_list(scopes, alloc, source, nested_list(argument, passed), made)
}

/// An element with `redeclare` of a class.
fn spoken_element<'t>(
    alloc: Global,
    source: &Source<'t>,
    declares: &Declares<'t>,
) -> Result<Spoken<'t>, NoMemory>
    ensures { IfOk result (λ made. speech_seen made ≡ element_with (source_seen source.now) (declares_seen declares.now)) }
{
    let path = single(alloc, declares.name)?;
    let claims = single(
        alloc,
        Claim {
            path,
            place: declares.place,
            last: source.last || declares.flags.last,
        },
    )?;
    Ok(Spoken {
        outside: source.outside,
        origin: source.origin,
        name: declares.name,
        place: declares.place,
        claims,
        replacing: true,
    })
}

/// Puts an item of a class, if it is an element with `redeclare`.
fn put_item<'t>(
    scopes: &Scopes<'t>,
    alloc: Global,
    source: &Source<'t>,
    item: &'t Item,
    made: &mut List<Spoken<'t>>,
) -> Result<(), NoMemory>
    ensures { OnOk result ((frames : Seq Frame) → map speech_seen made.new ≡ map speech_seen made.old ++ flat_map (λ element. map speech_of (element_spoken (table_in scopes.now) (source_in frames (source_seen source.now)) (declared_in (table_in scopes.now) element))) (replacing_in item.now)) }
{
    match replacing(item) {
        Some(element) => {
            let declares = scopes.declared(element);
            pushed(made, spoken_element(alloc, source, &declares))
        }
        None => Ok(()),
    }
}

/// Puts the elements with `redeclare` among the items of a class.
fn put_items<'t>(
    scopes: &Scopes<'t>,
    alloc: Global,
    source: &Source<'t>,
    items: &'t [Item],
    made: &mut List<Spoken<'t>>,
) -> Result<(), NoMemory>
    ensures { OnOk result ((frames : Seq Frame) → map speech_seen made.new ≡ map speech_seen made.old ++ flat_map (λ element. map speech_of (element_spoken (table_in scopes.now) (source_in frames (source_seen source.now)) (declared_in (table_in scopes.now) element))) (flat_map replacing_in items.now)) }
{
    for item in items {
        put_item(scopes, alloc, source, item, made)?;
    }
    Ok(())
}

/// Puts the arguments of a source.
fn put_source<'t>(
    scopes: &Scopes<'t>,
    alloc: Global,
    source: &Source<'t>,
    made: &mut List<Spoken<'t>>,
) -> Result<(), NoMemory>
    ensures { OnOk result ((frames : Seq Frame) → map speech_seen made.new ≡ map speech_seen made.old ++ speeches_of (table_in scopes.now) (source_in frames (source_seen source.now))) }
{
    match source.given {
        Given::Listed(modifiers) => put_list(scopes, alloc, source, modifiers.list, made),
        Given::Argued { argument, passed } => {
            put_argued(scopes, alloc, source, argument, passed, made)
        }
        Given::Replacing(items) => put_items(scopes, alloc, source, items, made),
    }
}

/// The arguments of a source, as they are written.
pub(crate) fn spoken_of<'t>(
    alloc: Global,
    scopes: &Scopes<'t>,
    source: &Source<'t>,
) -> Result<List<Spoken<'t>>, NoMemory>
    ensures { IfOk result (λ made. (frames : Seq Frame) → map speech_seen made ≡ speeches_of (table_in scopes.now) (source_in frames (source_seen source.now))) }
{
    let mut made = List::new(alloc);
    put_source(scopes, alloc, source, &mut made)?;
    Ok(made)
}

/// The arguments of sources, in their order.
pub(crate) fn all_spoken<'t>(
    alloc: Global,
    scopes: &Scopes<'t>,
    sources: &[Source<'t>],
) -> Result<List<Spoken<'t>>, NoMemory>
    ensures { IfOk result (λ made. (frames : Seq Frame) → map speech_seen made ≡ speeches_in (table_in scopes.now) (sources_in frames (map source_seen sources.now))) }
{
    let mut made = List::new(alloc);
    for source in sources {
        put_source(scopes, alloc, source, &mut made)?;
    }
    Ok(made)
}
