//! What is left of modifiers on the way to a path.
ghost use Rattle.std.specs.Prelude.{◌≡◌, ◌++◌, ◌∷◌, [], List as Seq, true, map, option_copied, option_map, IfOk, OnOk};
ghost use Rattle.std.specs.Option.{option_to_list};
ghost use Rattle.mo_scope.specs.Frames.{Frame};
ghost use Rattle.mo_scope.specs.Parts.{held, nested};
ghost use Rattle.mo_scope.specs.Sights.{given_seen, modifiers_seen};
ghost use Rattle.mo_scope.specs.Worlds.{table_in};
ghost use Rattle.mo_mods.specs.Left.{Said as SaidOf, anew_first as first_anew, left_behind as left_behind_name, left_with as left_with_list, lefts_said as lefts_of_said, said_by as said_by_argument, value_left as value_of_left};
ghost use Rattle.mo_mods.specs.Sights.{left_in, left_of_source, redeclared_in, said_in, value_in};

use crate::env::{MergedValue, RedeclaredAt, value_of};
use mo_scope::{
    Declares, Given, Modifiers, ScopeAt, Scopes, Source, brought, copied, copied_scope, is_nothing,
};
use mo_syntax::{Argument, Expr, Give, List, NoMemory};
use std::alloc::Global;

/// What is left to give of a source, whose lists it borrows.
#[derive(Drop)]
pub(crate) struct Left<'s, 't> {
    pub given: Given<'t>,
    /// The indices at which its values are still to be taken.
    pub pending: &'s [u32],
    pub scope: &'s ScopeAt,
    /// For each name that was passed, whether it carries `each`.
    pub each: List<bool>,
}

/// What is said of an element: what is left modifies it, or it is declared anew, and what is left belongs to that declaration.
#[derive(Drop)]
pub(crate) enum Said<'s, 't> {
    GoesOn(Left<'s, 't>),
    Anew(Declares<'t>, Left<'s, 't>),
}

/// What is left of a source of which no name was passed.
fn left_of<'s, 't>(alloc: Global, source: &'s Source<'t>) -> Left<'s, 't>
    ensures { (frames : Seq Frame) → left_in frames result ≡ left_of_source frames source.now }
{
    Left {
        given: source.given,
        pending: source.pending.as_slice(),
        scope: &source.scope,
        each: List::new(alloc),
    }
}

/// What is left of sources.
pub(crate) fn lefts_of<'s, 't>(
    alloc: Global,
    sources: &'s [Source<'t>],
) -> Result<List<Left<'s, 't>>, NoMemory>
    ensures { IfOk result (λ made. (frames : Seq Frame) → map (left_in frames) made ≡ map (left_of_source frames) sources.now) }
{
    let mut made = List::new(alloc);
    for source in sources {
        made.push(left_of(alloc, source))?;
    }
    Ok(made)
}

/// Marks with one more.
fn marks_with(alloc: Global, marks: &[bool], each: bool) -> Result<List<bool>, NoMemory>
    ensures { IfOk result (λ made. made ≡ marks.now ++ each ∷ []) }
{
    let mut made = copied(alloc, marks)?;
    made.push(each)?;
    Ok(made)
}

/// What is left behind one more name.
pub(crate) fn left_behind<'s, 't>(
    alloc: Global,
    left: &Left<'s, 't>,
    each: bool,
    given: Given<'t>,
) -> Result<Left<'s, 't>, NoMemory>
    ensures { IfOk result (λ made. (frames : Seq Frame) → left_in frames made ≡ left_behind_name (left_in frames left.now) each (given_seen given.entry)) }
{
    match marks_with(alloc, left.each.as_slice(), each) {
        Ok(marks) => Ok(Left {
            given,
            pending: if each { &[] } else { left.pending },
            scope: left.scope,
            each: marks,
        }),
        Err(error) => Err(error),
    }
}

/// What an argument says of which so many names were passed: it declares the element anew, or what is left of it modifies it.
pub(crate) fn said_by<'s, 't>(
    scopes: &Scopes<'t>,
    argument: &'t Argument,
    passed: usize,
    left: Left<'s, 't>,
) -> Said<'s, 't>
    ensures { (frames : Seq Frame) → said_in frames result ≡ said_by_argument (table_in scopes.now) argument.now passed (left_in frames left.entry) }
{
    if passed < argument.name.0.len() {
        return Said::GoesOn(left);
    }
    match &argument.give {
        Give::Modify(_, _) => Said::GoesOn(left),
        Give::Redeclare(element) => Said::Anew(scopes.declared(element), left),
        Give::Replaceable(element) => Said::Anew(scopes.declared(element), left),
    }
}

/// The value among what an argument gives, None where it redeclares.
fn given_value(give: &Give) -> Option<&Expr>
    ensures { option_copied result ≡ (nested give.now).value }
{
    match give {
        Give::Modify(_, value) => value.as_ref(),
        Give::Redeclare(_) => None,
        Give::Replaceable(_) => None,
    }
}

/// The value that is given, None where names are left.
fn held_value<'t>(given: &Given<'t>) -> Option<&'t Expr>
    ensures { option_copied result ≡ (held (given_seen given.now)).value }
{
    match given {
        Given::Listed(modifiers) => modifiers.value,
        Given::Argued { argument, passed } => {
            if *passed < argument.name.0.len() {
                return None;
            }
            given_value(&argument.give)
        }
        Given::Replacing(_) => None,
    }
}

/// A value with what is read of it on the way to its path.
fn value_with<'t>(
    alloc: Global,
    left: &Left<'_, 't>,
    value: &'t Expr,
) -> Result<MergedValue<'t>, NoMemory>
    ensures { IfOk result (λ made. (frames : Seq Frame) → value_in frames made ≡ record { picked = record { value = value.now; scope = (left_in frames left.now).scope; pending = (left_in frames left.now).pending }; each = (left_in frames left.now).each }) }
{
    value_of(
        value,
        copied(alloc, left.pending),
        copied_scope(alloc, left.scope),
        copied(alloc, left.each.as_slice()),
    )
}

/// The value of the first that has one.
pub(crate) fn value_left<'t>(
    alloc: Global,
    lefts: &[Left<'_, 't>],
) -> Result<Option<MergedValue<'t>>, NoMemory>
    ensures { IfOk result (λ made. (frames : Seq Frame) → option_map (value_in frames) made ≡ value_of_left (map (left_in frames) lefts.now)) }
{
    for left in lefts {
        if let Some(value) = held_value(&left.given) {
            return match value_with(alloc, left, value) {
                Ok(value) => Ok(Some(value)),
                Err(error) => Err(error),
            };
        }
    }
    Ok(None)
}

/// What is left with the list of a declaration in its place, None where that is empty.
fn left_with<'s, 't>(left: Left<'s, 't>, modifiers: Modifiers<'t>) -> Option<Left<'s, 't>>
    ensures { (frames : Seq Frame) → map (left_in frames) (option_to_list result) ≡ left_with_list (left_in frames left.entry) (modifiers_seen modifiers.entry) }
{
    if is_nothing(&modifiers) {
        return None;
    }
    Some(Left {
        given: Given::Listed(modifiers),
        pending: left.pending,
        scope: left.scope,
        each: left.each,
    })
}

/// What is left by what is said, None where a declaration anew brings an empty list. Behind one none is the first.
fn left_said<'s, 't>(said: Said<'s, 't>, wins: &mut bool) -> Option<Left<'s, 't>>
    ensures { (frames : Seq Frame) → (more : Seq SaidOf) → map (left_in frames) (option_to_list result) ++ lefts_of_said wins.new more ≡ lefts_of_said wins.old (said_in frames said.entry ∷ more) }
{
    match said {
        Said::GoesOn(left) => Some(left),
        Said::Anew(declares, left) => {
            let modifiers = brought(*wins, &declares);
            *wins = false;
            left_with(left, modifiers)
        }
    }
}

/// Puts an item at the end, if there is one.
fn put<T: Drop>(made: &mut List<T>, item: Option<T>) -> Result<(), NoMemory>
    ensures { OnOk result (made.new ≡ made.old ++ option_to_list item) }
{
    match item {
        Some(item) => made.push(item),
        None => Ok(()),
    }
}

/// What is left by all that is said of an element.
pub(crate) fn lefts_said<'s, 't>(
    alloc: Global,
    said: List<Said<'s, 't>>,
) -> Result<List<Left<'s, 't>>, NoMemory>
    ensures { IfOk result (λ made. (frames : Seq Frame) → map (left_in frames) made ≡ lefts_of_said true (map (said_in frames) said.entry)) }
{
    let mut made = List::new(alloc);
    let mut wins = true;
    for one in said.into_vec() {
        put(&mut made, left_said(one, &mut wins))?;
    }
    Ok(made)
}

/// The first declaration anew.
pub(crate) fn anew_first<'t>(
    alloc: Global,
    said: &[Said<'_, 't>],
) -> Result<Option<RedeclaredAt<'t>>, NoMemory>
    ensures { IfOk result (λ made. (frames : Seq Frame) → option_map (redeclared_in frames) made ≡ first_anew (map (said_in frames) said.now)) }
{
    for one in said {
        match one {
            Said::GoesOn(_) => {}
            Said::Anew(declares, left) => {
                let scope = copied_scope(alloc, left.scope)?;
                return Ok(Some(RedeclaredAt {
                    declares: *declares,
                    scope,
                }));
            }
        }
    }
    Ok(None)
}
