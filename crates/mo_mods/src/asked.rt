//! The arguments of sources in their order, each with the paths that it gives something for.
ghost use Rattle.std.specs.Prelude.{◌≡◌, ◌++◌, ◌∷◌, [], List as Seq, flat_map, if◌then◌else◌, map, IfOk, OnOk};
ghost use Rattle.mo_scope.specs.Arguments.{arguments_of, asked_argument as argument_asked, asked_element, asked_of, asked_rest, claim, claims_of};
ghost use Rattle.mo_scope.specs.Frames.{Argued, Frame};
ghost use Rattle.mo_scope.specs.Parts.{declared_in, held, names_left};
ghost use Rattle.mo_scope.specs.Rows.{replacing_in};
ghost use Rattle.mo_scope.specs.Sights.{declares_seen, source_seen};
ghost use Rattle.mo_scope.specs.Worlds.{source_in, sources_in, table_in};
ghost use Rattle.mo_mods.specs.Passes.{nested_claims};
ghost use Rattle.mo_mods.specs.PathSights.{asked_seen, claim_seen};
ghost use Rattle.mo_mods.specs.Calls.{AreClaims};

use mo_scope::{Declares, Given, Listing, Scopes, Source, copied, nested_list, replacing};
use mo_syntax::{Argument, Give, Item, List, NoMemory, Place, Text, pushed, single};
use std::alloc::Global;

/// A path that an argument gives something for.
#[derive(Drop)]
pub struct Claim<'t> {
    pub path: List<&'t Text>,
    /// Where the innermost argument stands.
    pub place: Place,
    /// Whether `final` marks it.
    pub last: bool,
}

/// An argument of a source.
#[derive(Drop)]
pub(crate) struct Asked<'s, 't> {
    /// The list that it is in.
    pub listing: &'s Listing<'t>,
    pub place: Place,
    /// Whether it has `each` where no index is pending.
    pub each: bool,
    pub claims: List<Claim<'t>>,
}

/// Names behind others.
fn path_with<'t>(
    alloc: Global,
    path: &[&'t Text],
    names: &'t [Text],
) -> Result<List<&'t Text>, NoMemory>
    ensures { IfOk result (λ made. map (λ name. name.now) made ≡ map (λ name. name.now) path.now ++ names.now) }
{
    let mut made = copied(alloc, path)?;
    for name in names {
        made.push(name)?;
    }
    Ok(made)
}

/// Puts a path.
fn put_claim<'t>(
    alloc: Global,
    path: &[&'t Text],
    place: Place,
    last: bool,
    made: &mut List<Claim<'t>>,
) -> Result<(), NoMemory>
    ensures { OnOk result (map claim_seen made.new ≡ map claim_seen made.old ++ claim (map (λ name. name.now) path.now) place last ∷ []) }
{
    let path = copied(alloc, path)?;
    made.push(Claim { path, place, last })
}

/// Puts a path, if there is a value for it.
fn put_value<'t>(
    alloc: Global,
    given: bool,
    path: &[&'t Text],
    place: Place,
    last: bool,
    made: &mut List<Claim<'t>>,
) -> Result<(), NoMemory>
    ensures { OnOk result (map claim_seen made.new ≡ map claim_seen made.old ++ (if given then claim (map (λ name. name.now) path.now) place last ∷ [] else [])) }
{
    if given {
        return put_claim(alloc, path, place, last, made);
    }
    Ok(())
}

/// Puts the paths that an argument gives something for, of which these are the names.
#[cycle(claiming)]
fn put_claims<'t>(
    alloc: Global,
    give: &'t Give,
    path: &[&'t Text],
    place: Place,
    last: bool,
    made: &mut List<Claim<'t>>,
) -> Result<(), NoMemory>
    ensures { OnOk result (map claim_seen made.new ≡ map claim_seen made.old ++ claims_of give.now (map (λ name. name.now) path.now) place last) }
{
    match give {
        Give::Modify(mods, value) => {
            put_value(alloc, value.is_some(), path, place, last, made)?;
            put_nested(alloc, mods.0.as_slice(), path, last, made)
        }
        Give::Redeclare(_) => put_claim(alloc, path, place, last, made),
        Give::Replaceable(_) => put_claim(alloc, path, place, last, made),
    }
}

/// Puts the paths that the arguments of a nested list give something for.
#[cycle(claiming)]
fn put_nested<'t>(
    alloc: Global,
    list: &'t [Argument],
    path: &[&'t Text],
    last: bool,
    made: &mut List<Claim<'t>>,
) -> Result<(), NoMemory>
    ensures { OnOk result (map claim_seen made.new ≡ map claim_seen made.old ++ nested_claims list.now (map (λ name. name.now) path.now) last) }
{
    for argument in list {
        let below = path_with(alloc, path, argument.name.0.as_slice())?;
        let marked = last || argument.last;
        put_claims(
            alloc,
            &argument.give,
            below.as_slice(),
            argument.place,
            marked,
            made,
        )?;
    }
    Ok(())
}

/// The paths that an argument gives something for, where these are its names and `final` marks it or not. `NoMemory` is the only
/// other answer.
pub fn claims_by<'t>(
    alloc: Global,
    argument: &'t Argument,
    names: &'t [Text],
    last: bool,
) -> Result<List<Claim<'t>>, NoMemory>
    ensures { IfOk result (AreClaims argument.now names.now last) }
{
    let mut made = List::new(alloc);
    let path = path_with(alloc, &[], names)?;
    put_claims(
        alloc,
        &argument.give,
        path.as_slice(),
        argument.place,
        last,
        &mut made,
    )?;
    Ok(made)
}

/// An argument of a source.
fn asked_argument<'s, 't>(
    alloc: Global,
    source: &'s Source<'t>,
    argument: &'t Argument,
) -> Result<Asked<'s, 't>, NoMemory>
    ensures { IfOk result (λ made. (frames : Seq Frame) → asked_seen made ≡ argument_asked (source_in frames (source_seen source.now)) argument.now) }
{
    let last = source.last || argument.last;
    let claims = claims_by(alloc, argument, argument.name.0.as_slice(), last)?;
    Ok(Asked {
        listing: &source.listing,
        place: argument.place,
        each: argument.each && source.pending.is_empty(),
        claims,
    })
}

/// Puts the arguments of a list.
fn put_list<'s, 't>(
    alloc: Global,
    source: &'s Source<'t>,
    list: &'t [Argument],
    made: &mut List<Asked<'s, 't>>,
) -> Result<(), NoMemory>
    ensures { OnOk result ((frames : Seq Frame) → map asked_seen made.new ≡ map asked_seen made.old ++ map (argument_asked (source_in frames (source_seen source.now))) list.now) }
{
    for argument in list {
        pushed(made, asked_argument(alloc, source, argument))?;
    }
    Ok(())
}

/// Puts what is left of an argument of which so many names were passed, if names are left.
fn put_left<'s, 't>(
    alloc: Global,
    source: &'s Source<'t>,
    argument: &'t Argument,
    passed: usize,
    made: &mut List<Asked<'s, 't>>,
) -> Result<(), NoMemory>
    ensures { OnOk result ((frames : Seq Frame) → map asked_seen made.new ≡ map asked_seen made.old ++ asked_rest (source_in frames (source_seen source.now)) argument.now (names_left argument.now passed)) }
{
    let names = argument.name.0.as_slice();
    if passed >= names.len() {
        return Ok(());
    }
    let claims = claims_by(alloc, argument, &names[passed..], source.last)?;
    made.push(Asked {
        listing: &source.listing,
        place: argument.place,
        each: false,
        claims,
    })
}

/// Puts an argument of which so many names were passed: what is left of it, or the list behind them.
fn put_rest<'s, 't>(
    alloc: Global,
    source: &'s Source<'t>,
    argument: &'t Argument,
    passed: usize,
    made: &mut List<Asked<'s, 't>>,
) -> Result<(), NoMemory>
    ensures { OnOk result ((frames : Seq Frame) → map asked_seen made.new ≡ map asked_seen made.old ++ (asked_rest (source_in frames (source_seen source.now)) argument.now (names_left argument.now passed) ++ map (argument_asked (source_in frames (source_seen source.now))) (held (Argued argument.now passed)).list)) }
{
    put_left(alloc, source, argument, passed, made)?;
    put_list(alloc, source, nested_list(argument, passed), made)
}

/// An element with `redeclare` of a class.
fn asked_declares<'s, 't>(
    alloc: Global,
    source: &'s Source<'t>,
    declares: &Declares<'t>,
) -> Result<Asked<'s, 't>, NoMemory>
    ensures { IfOk result (λ made. (frames : Seq Frame) → asked_seen made ≡ asked_element (source_in frames (source_seen source.now)) (declares_seen declares.now)) }
{
    let path = single(alloc, declares.name)?;
    let claims = single(
        alloc,
        Claim {
            path,
            place: declares.place,
            last: source.last || declares.flags.last,
        },
    )?;
    Ok(Asked {
        listing: &source.listing,
        place: declares.place,
        each: false,
        claims,
    })
}

/// Puts an item of a class, if it is an element with `redeclare`.
fn put_item<'s, 't>(
    scopes: &Scopes<'t>,
    alloc: Global,
    source: &'s Source<'t>,
    item: &'t Item,
    made: &mut List<Asked<'s, 't>>,
) -> Result<(), NoMemory>
    ensures { OnOk result ((frames : Seq Frame) → map asked_seen made.new ≡ map asked_seen made.old ++ map (λ element. asked_element (source_in frames (source_seen source.now)) (declared_in (table_in scopes.now) element)) (replacing_in item.now)) }
{
    match replacing(item) {
        Some(element) => {
            let declares = scopes.declared(element);
            pushed(made, asked_declares(alloc, source, &declares))
        }
        None => Ok(()),
    }
}

/// Puts the elements with `redeclare` among the items of a class.
fn put_items<'s, 't>(
    scopes: &Scopes<'t>,
    alloc: Global,
    source: &'s Source<'t>,
    items: &'t [Item],
    made: &mut List<Asked<'s, 't>>,
) -> Result<(), NoMemory>
    ensures { OnOk result ((frames : Seq Frame) → map asked_seen made.new ≡ map asked_seen made.old ++ map (λ element. asked_element (source_in frames (source_seen source.now)) (declared_in (table_in scopes.now) element)) (flat_map replacing_in items.now)) }
{
    for item in items {
        put_item(scopes, alloc, source, item, made)?;
    }
    Ok(())
}

/// Puts the arguments of a source.
fn put_source<'s, 't>(
    scopes: &Scopes<'t>,
    alloc: Global,
    source: &'s Source<'t>,
    made: &mut List<Asked<'s, 't>>,
) -> Result<(), NoMemory>
    ensures { OnOk result ((frames : Seq Frame) → map asked_seen made.new ≡ map asked_seen made.old ++ asked_of (table_in scopes.now) (source_in frames (source_seen source.now))) }
{
    match source.given {
        Given::Listed(modifiers) => put_list(alloc, source, modifiers.list, made),
        Given::Argued { argument, passed } => put_rest(alloc, source, argument, passed, made),
        Given::Replacing(items) => put_items(scopes, alloc, source, items, made),
    }
}

/// The arguments of sources, in their order.
pub(crate) fn arguments<'s, 't>(
    scopes: &Scopes<'t>,
    alloc: Global,
    sources: &'s [Source<'t>],
) -> Result<List<Asked<'s, 't>>, NoMemory>
    ensures { IfOk result (λ made. (frames : Seq Frame) → map asked_seen made ≡ arguments_of (table_in scopes.now) (sources_in frames (map source_seen sources.now))) }
{
    let mut made = List::new(alloc);
    for source in sources {
        put_source(scopes, alloc, source, &mut made)?;
    }
    Ok(made)
}
