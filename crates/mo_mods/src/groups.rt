//! What is said of each element, by its name.
ghost use Rattle.std.specs.Prelude.{◌≡◌, ◌+◌, ◌++◌, ◌∷◌, [], ℕ, List as Seq, flat_map, map, if◌then◌else◌, IfOk, OnOk};
ghost use Rattle.std.specs.Str.{bytes_eq};
ghost use Rattle.mo_scope.specs.Frames.{Argued, Frame};
ghost use Rattle.mo_scope.specs.Parts.{begins_with, declared_in, held, names_left};
ghost use Rattle.mo_scope.specs.Rows.{replacing_in};
ghost use Rattle.mo_scope.specs.Worlds.{table_in};
ghost use Rattle.mo_mods.specs.Left.{all_say, element_says, elements_say, left_behind as left_behind_name, left_says, list_says, rest_says, said_by as said_by_argument};
ghost use Rattle.mo_mods.specs.Sights.{left_in, said_held, said_in, said_or_none};

use crate::answers::{put_under, with_item};
use crate::left::{Left, Said, left_behind, said_by};
use mo_scope::{Given, Scopes, nested_list, replacing};
use mo_syntax::{Argument, Element, Item, List, NoMemory};
use std::alloc::Global;
use std::collections::BTreeMap;

/// What was said under a name, nothing where there was nothing.
fn or_none<'s, 't>(alloc: Global, said: Option<List<Said<'s, 't>>>) -> List<Said<'s, 't>>
    ensures { (frames : Seq Frame) → map (said_in frames) result ≡ said_or_none frames said.entry }
{
    match said {
        Some(said) => said,
        None => List::new(alloc),
    }
}

/// Puts what is said of an element behind what was said of it before.
fn put<'s, 't>(
    alloc: Global,
    groups: &mut BTreeMap<&'t str, List<Said<'s, 't>>>,
    name: &'t str,
    said: Said<'s, 't>,
) -> Result<(), NoMemory>
    ensures { OnOk result ((frames : Seq Frame) → (other : Seq ℕ) → said_held frames groups.new other ≡ said_held frames groups.old other ++ (if bytes_eq name.now other then said_in frames said.entry ∷ [] else [])) }
{
    let group = or_none(alloc, groups.remove(name));
    put_under(groups, name, with_item(group, said))
}

/// Puts what an argument says, of which so many names were passed, under the next one.
fn put_argument<'s, 't>(
    scopes: &Scopes<'t>,
    alloc: Global,
    groups: &mut BTreeMap<&'t str, List<Said<'s, 't>>>,
    left: &Left<'s, 't>,
    argument: &'t Argument,
    passed: usize,
    each: bool,
) -> Result<(), NoMemory>
    ensures { OnOk result ((frames : Seq Frame) → (other : Seq ℕ) → said_held frames groups.new other ≡ said_held frames groups.old other ++ (if begins_with other (names_left argument.now passed) then said_by_argument (table_in scopes.now) argument.now (passed + 1) (left_behind_name (left_in frames left.now) each (Argued argument.now (passed + 1))) ∷ [] else [])) }
{
    let names = argument.name.0.as_slice();
    if passed >= names.len() {
        return Ok(());
    }
    let given = Given::Argued {
        argument,
        passed: passed + 1,
    };
    let behind = left_behind(alloc, left, each, given)?;
    let said = said_by(scopes, argument, passed + 1, behind);
    put(alloc, groups, names[passed].as_str(), said)
}

/// Puts what a modifier list says, each argument under its first name.
fn put_list<'s, 't>(
    scopes: &Scopes<'t>,
    alloc: Global,
    groups: &mut BTreeMap<&'t str, List<Said<'s, 't>>>,
    left: &Left<'s, 't>,
    list: &'t [Argument],
) -> Result<(), NoMemory>
    ensures { OnOk result ((frames : Seq Frame) → (other : Seq ℕ) → said_held frames groups.new other ≡ said_held frames groups.old other ++ list_says (table_in scopes.now) other (left_in frames left.now) list.now) }
{
    for argument in list {
        put_argument(scopes, alloc, groups, left, argument, 0, argument.each)?;
    }
    Ok(())
}

/// Puts what an argument says of which so many names were passed: what is left of it, or the list behind them.
fn put_rest<'s, 't>(
    scopes: &Scopes<'t>,
    alloc: Global,
    groups: &mut BTreeMap<&'t str, List<Said<'s, 't>>>,
    left: &Left<'s, 't>,
    argument: &'t Argument,
    passed: usize,
) -> Result<(), NoMemory>
    ensures { OnOk result ((frames : Seq Frame) → (other : Seq ℕ) → said_held frames groups.new other ≡ said_held frames groups.old other ++ (rest_says (table_in scopes.now) other (left_in frames left.now) argument.now passed ++ list_says (table_in scopes.now) other (left_in frames left.now) (held (Argued argument.now passed)).list)) }
{
    put_argument(scopes, alloc, groups, left, argument, passed, false)?;
    put_list(scopes, alloc, groups, left, nested_list(argument, passed))
}

/// Puts an element with `redeclare` under its name.
fn put_element<'s, 't>(
    scopes: &Scopes<'t>,
    alloc: Global,
    groups: &mut BTreeMap<&'t str, List<Said<'s, 't>>>,
    left: &Left<'s, 't>,
    element: &'t Element,
) -> Result<(), NoMemory>
    ensures { OnOk result ((frames : Seq Frame) → (other : Seq ℕ) → said_held frames groups.new other ≡ said_held frames groups.old other ++ element_says other (left_in frames left.now) (declared_in (table_in scopes.now) element.now)) }
{
    let declares = scopes.declared(element);
    let behind = left_behind(alloc, left, false, Given::Listed(declares.own))?;
    put(
        alloc,
        groups,
        declares.name.as_str(),
        Said::Anew(declares, behind),
    )
}

/// Puts an item of a class under its name, if it is an element with `redeclare`.
fn put_item<'s, 't>(
    scopes: &Scopes<'t>,
    alloc: Global,
    groups: &mut BTreeMap<&'t str, List<Said<'s, 't>>>,
    left: &Left<'s, 't>,
    item: &'t Item,
) -> Result<(), NoMemory>
    ensures { OnOk result ((frames : Seq Frame) → (other : Seq ℕ) → said_held frames groups.new other ≡ said_held frames groups.old other ++ elements_say (table_in scopes.now) other (left_in frames left.now) (replacing_in item.now)) }
{
    match replacing(item) {
        Some(element) => put_element(scopes, alloc, groups, left, element),
        None => Ok(()),
    }
}

/// Puts the elements with `redeclare` among the items of a class, each under its name.
fn put_elements<'s, 't>(
    scopes: &Scopes<'t>,
    alloc: Global,
    groups: &mut BTreeMap<&'t str, List<Said<'s, 't>>>,
    left: &Left<'s, 't>,
    items: &'t [Item],
) -> Result<(), NoMemory>
    ensures { OnOk result ((frames : Seq Frame) → (other : Seq ℕ) → said_held frames groups.new other ≡ said_held frames groups.old other ++ elements_say (table_in scopes.now) other (left_in frames left.now) (flat_map replacing_in items.now)) }
{
    for item in items {
        put_item(scopes, alloc, groups, left, item)?;
    }
    Ok(())
}

/// Puts what is left of a source, each part of it under the name of its element.
fn put_left<'s, 't>(
    scopes: &Scopes<'t>,
    alloc: Global,
    groups: &mut BTreeMap<&'t str, List<Said<'s, 't>>>,
    left: &Left<'s, 't>,
) -> Result<(), NoMemory>
    ensures { OnOk result ((frames : Seq Frame) → (other : Seq ℕ) → said_held frames groups.new other ≡ said_held frames groups.old other ++ left_says (table_in scopes.now) other (left_in frames left.now)) }
{
    match left.given {
        Given::Listed(modifiers) => put_list(scopes, alloc, groups, left, modifiers.list),
        Given::Argued { argument, passed } => {
            put_rest(scopes, alloc, groups, left, argument, passed)
        }
        Given::Replacing(items) => put_elements(scopes, alloc, groups, left, items),
    }
}

/// What is said of each element, by its name: one pass over all arguments.
pub(crate) fn grouped<'s, 't>(
    scopes: &Scopes<'t>,
    alloc: Global,
    lefts: &[Left<'s, 't>],
) -> Result<BTreeMap<&'t str, List<Said<'s, 't>>>, NoMemory>
    ensures { IfOk result (λ made. (frames : Seq Frame) → (name : Seq ℕ) → said_held frames made name ≡ all_say (table_in scopes.now) name (map (left_in frames) lefts.now)) }
{
    let mut groups = BTreeMap::new(alloc);
    for left in lefts {
        put_left(scopes, alloc, &mut groups, left)?;
    }
    Ok(groups)
}
