//! The second pass over arguments, in two runs: from the front, which paths an argument before has; from the back, which final
//! paths a later list has. Each run is linear in the paths.
ghost use Rattle.std.specs.Prelude.{◌≡◌, ◌||◌, ◌++◌, ◌∷◌, [], None, List as Seq, map, slice_get, unwrap_or, IfOk, OnOk};
ghost use Rattle.mo_scope.specs.Arguments.{Asked as AskedOf, first_broken as first_broken_argument, is_below_final, or_later};
ghost use Rattle.mo_scope.specs.Sights.{listing_seen};
ghost use Rattle.mo_mods.specs.Passes.{Listed_path, all_finals, all_paths, all_repeated, finals_of, first_below as first_below_final, first_repeated as first_repeated_path, least_broken, or_first as or_first_place};
ghost use Rattle.mo_mods.specs.PathSights.{HasPaths, asked_seen, claim_seen};

use crate::asked::{Asked, Claim};
use crate::paths::{ByPath, key_of, write_name};
use mo_scope::Listing;
use mo_syntax::{Broken, List, NoMemory, Place, broken, pushed, rules};
use std::alloc::Global;

/// The place that was found first, else this one if a rule is broken there.
fn or_first(found: Option<Place>, broken: bool, place: Place) -> Option<Place>
    ensures { result ≡ or_first_place found broken place }
{
    match found {
        Some(found) => Some(found),
        None => { if broken { Some(place) } else { None } }
    }
}

/// The first path of an argument that stands before in the same list. The paths of the argument are put.
fn first_repeated<'s, 't>(
    alloc: Global,
    seen: &mut ByPath<'s, 't>,
    asked: &Asked<'s, 't>,
) -> Result<Option<Place>, NoMemory>
    ensures is { IfOk result (λ found. (before : Seq AskedOf) → HasPaths seen.old (all_paths before) → found ≡ first_repeated_path before (asked_seen asked.now).listing [] (asked_seen asked.now).claims) }
    ensures has { OnOk result ((before : Seq AskedOf) → HasPaths seen.old (all_paths before) → HasPaths seen.new (all_paths (before ++ asked_seen asked.now ∷ []))) }
{
    let mut found = None;
    for claim in asked.claims.as_slice() {
        let key = key_of(alloc, claim.path.as_slice())?;
        let is_repeated = seen.has(key.as_slice(), asked.listing);
        found = or_first(found, is_repeated, claim.place);
        seen.add(alloc, key.into_vec(), asked.listing)?;
    }
    Ok(found)
}

/// The first path of each argument that stands before in the same list.
fn all_repeats(alloc: Global, asked: &[Asked<'_, '_>]) -> Result<List<Option<Place>>, NoMemory>
    ensures { IfOk result (λ made. made ≡ all_repeated [] (map asked_seen asked.now)) }
{
    let mut seen = ByPath::new(alloc);
    let mut made = List::new(alloc);
    for one in asked {
        pushed(&mut made, first_repeated(alloc, &mut seen, one))?;
    }
    Ok(made)
}

fn either(a: bool, b: bool) -> bool
    ensures { result ≡ (a || b) }
{
    a || b
}

/// Whether a path stands at or below a final one of another list.
fn is_below(
    alloc: Global,
    finals: &ByPath<'_, '_>,
    listing: &Listing<'_>,
    claim: &Claim<'_>,
) -> Result<bool, NoMemory>
    ensures { IfOk result (λ is. (after : Seq AskedOf) → HasPaths finals.now (all_finals after) → is ≡ is_below_final after (listing_seen listing.now) (claim_seen claim.now)) }
{
    let mut key = List::new(alloc);
    let mut is = finals.has_other(key.as_slice(), listing);
    for name in claim.path.as_slice() {
        write_name(&mut key, *name)?;
        is = either(is, finals.has_other(key.as_slice(), listing));
    }
    Ok(is)
}

/// The first path of an argument that stands at or below a final one of a later list.
fn first_below(
    alloc: Global,
    finals: &ByPath<'_, '_>,
    asked: &Asked<'_, '_>,
) -> Result<Option<Place>, NoMemory>
    ensures { IfOk result (λ found. (after : Seq AskedOf) → HasPaths finals.now (all_finals after) → found ≡ first_below_final after (asked_seen asked.now).listing (asked_seen asked.now).claims) }
{
    let mut found = None;
    for claim in asked.claims.as_slice() {
        let is = is_below(alloc, finals, asked.listing, claim)?;
        found = or_first(found, is, claim.place);
    }
    Ok(found)
}

/// Puts a path, if it is final.
fn add_final<'s, 't>(
    alloc: Global,
    finals: &mut ByPath<'s, 't>,
    listing: &'s Listing<'t>,
    claim: &Claim<'_>,
) -> Result<(), NoMemory>
    ensures { OnOk result ((paths : Seq Listed_path) → HasPaths finals.old paths → HasPaths finals.new (paths ++ finals_of (listing_seen listing.now) (claim_seen claim.now ∷ []))) }
{
    if !claim.last {
        return Ok(());
    }
    let key = key_of(alloc, claim.path.as_slice())?;
    finals.add(alloc, key.into_vec(), listing)
}

/// Puts the final paths of an argument.
fn add_finals<'s, 't>(
    alloc: Global,
    finals: &mut ByPath<'s, 't>,
    asked: &Asked<'s, 't>,
) -> Result<(), NoMemory>
    ensures { OnOk result ((paths : Seq Listed_path) → HasPaths finals.old paths → HasPaths finals.new (paths ++ finals_of (asked_seen asked.now).listing (asked_seen asked.now).claims)) }
{
    for claim in asked.claims.as_slice() {
        add_final(alloc, finals, asked.listing, claim)?;
    }
    Ok(())
}

/// The rule of the least number that an argument breaks.
fn least(repeated: Option<Place>, below: Option<Place>, asked: &Asked<'_, '_>) -> Option<Broken>
    ensures { result ≡ least_broken repeated below asked.now.each asked.now.place }
{
    match repeated {
        Some(place) => Some(broken(rules::MODIFIED_TWICE, place)),
        None => match below {
            Some(place) => Some(broken(rules::FINAL_MODIFIED, place)),
            None => {
                if asked.each {
                    Some(broken(rules::WRONG_EACH, asked.place))
                } else {
                    None
                }
            }
        },
    }
}

/// The first path of the argument with so many before it that stands before in the same list.
fn repeated_at(repeats: &List<Option<Place>>, at: usize) -> Option<Place>
    ensures { result ≡ unwrap_or (slice_get repeats.now at) None }
{
    match repeats.get(at) {
        Some(found) => *found,
        None => None,
    }
}

/// What is broken first, else what is broken later.
fn earlier(broken: Option<Broken>, later: Option<Broken>) -> Option<Broken>
    ensures { result ≡ or_later broken later }
{
    match broken {
        Some(broken) => Some(broken),
        None => later,
    }
}

/// The first rule that arguments break, in their order.
pub(crate) fn first_broken(
    alloc: Global,
    asked: &[Asked<'_, '_>],
) -> Result<Option<Broken>, NoMemory>
    ensures { IfOk result (λ found. found ≡ first_broken_argument [] (map asked_seen asked.now)) }
{
    let repeats = all_repeats(alloc, asked)?;
    let mut finals = ByPath::new(alloc);
    let mut found = None;
    for at in (0..asked.len()).rev() {
        let one = &asked[at];
        let below = first_below(alloc, &finals, one)?;
        found = earlier(least(repeated_at(&repeats, at), below, one), found);
        add_finals(alloc, &mut finals, one)?;
    }
    Ok(found)
}
