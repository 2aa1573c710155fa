//! The value that sources give for a path. It takes no memory: what is passed on the way is read in place.
ghost use Rattle.std.specs.Prelude.{◌≡◌, ◌+◌, ◌<◌, ◌≤◌, ◌++◌, ◌∷◌, [], List as Seq, drop, flat_map, length, map, option_map, take, true};
ghost use Rattle.mo_scope.specs.Frames.{Argued, Frame, Source as SourceOf};
ghost use Rattle.mo_scope.specs.Parts.{Redeclaration as RedeclarationOf, Redeclares, Saying, declared_in, pending_behind, picked_here, said, said_behind, said_by_argument, said_by_element, said_by_elements, said_further, said_in_list};
ghost use Rattle.mo_scope.specs.steps.Picks.{name_at, or_else, picked_said, picked_with, view_in, view_of};
ghost use Rattle.mo_scope.specs.Rows.{Table, replacing_in};
ghost use Rattle.mo_scope.specs.Sights.{picked_in};
ghost use Rattle.mo_scope.specs.Calls.{IsPicked};

use crate::declaring::declared_by;
use crate::saying::{named, nested_list, replacing};
use crate::source::{Given, Picked, ScopeAt, Source};
use crate::values::held_value;
use crate::written::{brought, is_nothing};
use mo_syntax::{Argument, Element, Give, Item, Text};

/// What of a source matters for the values that it gives.
#[derive(Clone, Copy)]
pub(crate) struct View<'a, 't> {
    pub given: Given<'t>,
    pub pending: &'a [u32],
    pub scope: &'a ScopeAt,
}

/// The value of a view for what it modifies.
fn value_of<'a, 't: 'a>(view: &View<'a, 't>) -> Option<Picked<'a>>
    ensures { (frames : Seq Frame) → (source : SourceOf) → (more : Seq SourceOf) → view_of source ≡ view_in frames view.now → or_else (option_map (picked_in frames) result) (picked_here more) ≡ picked_here (source ∷ more) }
{
    match held_value(&view.given) {
        Some(value) => Some(Picked {
            value,
            scope: view.scope,
            pending: view.pending,
        }),
        None => None,
    }
}

/// The indices that are pending behind a name that is entered at none: `each` drops them.
fn pending_left<'a>(each: bool, pending: &'a [u32]) -> &'a [u32]
    ensures { result.now ≡ pending_behind each pending.now [] }
{
    if each {
        return &[];
    }
    pending
}

/// The value of a view for what is left of a path from a place on.
#[cycle(pick)]
fn pick_in_view<'a, 't: 'a>(
    view: &View<'a, 't>,
    names: &[Text],
    at: usize,
    wins: &mut [bool],
) -> Option<Picked<'a>>
    requires path { at ≤ length names.now }
    requires wins { length wins.old ≡ length names.now }
    ensures is { (frames : Seq Frame) → (table : Table) → (source : SourceOf) → (more : Seq SourceOf) → view_of source ≡ view_in frames view.now → or_else (option_map (picked_in frames) result) (picked_with table (drop at wins.new) more (drop at names.now)) ≡ picked_with table (drop at wins.old) (source ∷ more) (drop at names.now) }
    ensures kept { take at wins.new ≡ take at wins.old }
    ensures size { length wins.new ≡ length wins.old }
{
    if at >= names.len() {
        return value_of(view);
    }
    pick_in_given(view, names, at, wins)
}

/// The value of a view for the names from one on, by what it holds.
#[cycle(pick)]
fn pick_in_given<'a, 't: 'a>(
    view: &View<'a, 't>,
    names: &[Text],
    at: usize,
    wins: &mut [bool],
) -> Option<Picked<'a>>
    requires path { at < length names.now }
    requires wins { length wins.old ≡ length names.now }
    ensures is { (frames : Seq Frame) → (table : Table) → (source : SourceOf) → (more : Seq Saying) → view_of source ≡ view_in frames view.now → or_else (option_map (picked_in frames) result) (picked_said table (drop at wins.new) more (drop (at + 1) names.now)) ≡ picked_said table (drop at wins.old) (said table (name_at names.now at) [] source ++ more) (drop (at + 1) names.now) }
    ensures kept { take at wins.new ≡ take at wins.old }
    ensures size { length wins.new ≡ length wins.old }
{
    match view.given {
        Given::Listed(modifiers) => pick_in_list(view, modifiers.list, names, at, wins),
        Given::Argued { argument, passed } => {
            if let Some(found) = pick_further(view, argument, passed, names, at, wins) {
                return Some(found);
            }
            pick_in_list(view, nested_list(argument, passed), names, at, wins)
        }
        Given::Replacing(items) => pick_in_items(view, items, names, at, wins),
    }
}

/// The value that the arguments of a list give.
#[cycle(pick)]
fn pick_in_list<'a, 't: 'a>(
    view: &View<'a, 't>,
    list: &'t [Argument],
    names: &[Text],
    at: usize,
    wins: &mut [bool],
) -> Option<Picked<'a>>
    requires path { at < length names.now }
    requires wins { length wins.old ≡ length names.now }
    ensures is { (frames : Seq Frame) → (table : Table) → (source : SourceOf) → (more : Seq Saying) → view_of source ≡ view_in frames view.now → or_else (option_map (picked_in frames) result) (picked_said table (drop at wins.new) more (drop (at + 1) names.now)) ≡ picked_said table (drop at wins.old) (said_in_list table source (name_at names.now at) [] list.now ++ more) (drop (at + 1) names.now) }
    ensures kept { take at wins.new ≡ take at wins.old }
    ensures size { length wins.new ≡ length wins.old }
{
    for argument in list {
        if let Some(found) = pick_by_argument(view, argument, names, at, wins) {
            return Some(found);
        }
    }
    None
}

/// The value that an argument gives, if it begins with the name.
#[cycle(pick)]
fn pick_by_argument<'a, 't: 'a>(
    view: &View<'a, 't>,
    argument: &'t Argument,
    names: &[Text],
    at: usize,
    wins: &mut [bool],
) -> Option<Picked<'a>>
    requires path { at < length names.now }
    requires wins { length wins.old ≡ length names.now }
    ensures is { (frames : Seq Frame) → (table : Table) → (source : SourceOf) → (more : Seq Saying) → view_of source ≡ view_in frames view.now → or_else (option_map (picked_in frames) result) (picked_said table (drop at wins.new) more (drop (at + 1) names.now)) ≡ picked_said table (drop at wins.old) (said_by_argument table source (name_at names.now at) [] argument.now ++ more) (drop (at + 1) names.now) }
    ensures kept { take at wins.new ≡ take at wins.old }
    ensures size { length wins.new ≡ length wins.old }
{
    match argument.name.0.get(0) {
        Some(first) => {
            if !first.equals(&names[at]) {
                return None;
            }
            let behind = View {
                given: Given::Argued {
                    argument,
                    passed: 1,
                },
                pending: pending_left(argument.each, view.pending),
                scope: view.scope,
            };
            pick_behind(&behind, argument, 1, names, at, wins)
        }
        None => None,
    }
}

/// The value that what is left of an argument gives, of which so many names were passed, if that begins with the name.
#[cycle(pick)]
fn pick_further<'a, 't: 'a>(
    view: &View<'a, 't>,
    argument: &'t Argument,
    passed: usize,
    names: &[Text],
    at: usize,
    wins: &mut [bool],
) -> Option<Picked<'a>>
    requires path { at < length names.now }
    requires wins { length wins.old ≡ length names.now }
    ensures is { (frames : Seq Frame) → (table : Table) → (source : SourceOf) → (more : Seq Saying) → view_of source ≡ view_in frames view.now → or_else (option_map (picked_in frames) result) (picked_said table (drop at wins.new) more (drop (at + 1) names.now)) ≡ picked_said table (drop at wins.old) (said_further table source (name_at names.now at) [] argument.now passed ++ more) (drop (at + 1) names.now) }
    ensures kept { take at wins.new ≡ take at wins.old }
    ensures size { length wins.new ≡ length wins.old }
{
    match named(argument.name.0.as_slice(), passed, &names[at]) {
        Some(_) => {
            let behind = View {
                given: Given::Argued {
                    argument,
                    passed: passed + 1,
                },
                pending: view.pending,
                scope: view.scope,
            };
            pick_behind(&behind, argument, passed + 1, names, at, wins)
        }
        None => None,
    }
}

/// The value behind one more name of an argument, of which so many are passed then: it may redeclare.
#[cycle(pick)]
fn pick_behind<'a, 't: 'a>(
    behind: &View<'a, 't>,
    argument: &'t Argument,
    passed: usize,
    names: &[Text],
    at: usize,
    wins: &mut [bool],
) -> Option<Picked<'a>>
    requires path { at < length names.now }
    requires wins { length wins.old ≡ length names.now }
    ensures is { (frames : Seq Frame) → (table : Table) → (source : SourceOf) → (more : Seq Saying) → view_of source ≡ view_in frames behind.now → or_else (option_map (picked_in frames) result) (picked_said table (drop at wins.new) more (drop (at + 1) names.now)) ≡ picked_said table (drop at wins.old) (said_behind table argument.now passed source ∷ more) (drop (at + 1) names.now) }
    ensures kept { take at wins.new ≡ take at wins.old }
    ensures size { length wins.new ≡ length wins.old }
{
    if passed < argument.name.0.len() {
        return pick_in_view(behind, names, at + 1, wins);
    }
    match &argument.give {
        Give::Modify(_, _) => pick_in_view(behind, names, at + 1, wins),
        Give::Redeclare(element) => pick_anew(behind, element, names, at, wins),
        Give::Replaceable(element) => pick_anew(behind, element, names, at, wins),
    }
}

/// The value that a redeclaration gives, by its own modifiers, or by those of its constraining clause where another one won.
#[cycle(pick)]
fn pick_anew<'a, 't: 'a>(
    behind: &View<'a, 't>,
    element: &'t Element,
    names: &[Text],
    at: usize,
    wins: &mut [bool],
) -> Option<Picked<'a>>
    requires path { at < length names.now }
    requires wins { length wins.old ≡ length names.now }
    ensures is { (frames : Seq Frame) → (table : Table) → (redeclaration : RedeclarationOf) → (more : Seq Saying) → redeclaration.declares ≡ declared_in table element.now → redeclaration.source.scope ≡ (view_in frames behind.now).scope → redeclaration.source.piece.pending ≡ behind.now.pending.now → or_else (option_map (picked_in frames) result) (picked_said table (drop at wins.new) more (drop (at + 1) names.now)) ≡ picked_said table (drop at wins.old) (Redeclares redeclaration ∷ more) (drop (at + 1) names.now) }
    ensures kept { take at wins.new ≡ take at wins.old }
    ensures size { length wins.new ≡ length wins.old }
{
    let declares = declared_by(element, 0);
    let modifiers = brought(wins[at], &declares);
    wins[at] = false;
    if is_nothing(&modifiers) {
        return None;
    }
    let inside = View {
        given: Given::Listed(modifiers),
        pending: behind.pending,
        scope: behind.scope,
    };
    pick_in_view(&inside, names, at + 1, wins)
}

/// The value that an element with `redeclare` gives, if it has the name.
#[cycle(pick)]
fn pick_by_element<'a, 't: 'a>(
    view: &View<'a, 't>,
    element: &'t Element,
    names: &[Text],
    at: usize,
    wins: &mut [bool],
) -> Option<Picked<'a>>
    requires path { at < length names.now }
    requires wins { length wins.old ≡ length names.now }
    ensures is { (frames : Seq Frame) → (table : Table) → (source : SourceOf) → (more : Seq Saying) → view_of source ≡ view_in frames view.now → or_else (option_map (picked_in frames) result) (picked_said table (drop at wins.new) more (drop (at + 1) names.now)) ≡ picked_said table (drop at wins.old) (said_by_element table source (name_at names.now at) [] (declared_in table element.now) ++ more) (drop (at + 1) names.now) }
    ensures kept { take at wins.new ≡ take at wins.old }
    ensures size { length wins.new ≡ length wins.old }
{
    if !declared_by(element, 0).name.equals(&names[at]) {
        return None;
    }
    pick_anew(view, element, names, at, wins)
}

/// The value that the elements with `redeclare` among the items of a class give.
#[cycle(pick)]
fn pick_in_items<'a, 't: 'a>(
    view: &View<'a, 't>,
    items: &'t [Item],
    names: &[Text],
    at: usize,
    wins: &mut [bool],
) -> Option<Picked<'a>>
    requires path { at < length names.now }
    requires wins { length wins.old ≡ length names.now }
    ensures is { (frames : Seq Frame) → (table : Table) → (source : SourceOf) → (more : Seq Saying) → view_of source ≡ view_in frames view.now → or_else (option_map (picked_in frames) result) (picked_said table (drop at wins.new) more (drop (at + 1) names.now)) ≡ picked_said table (drop at wins.old) (said_by_elements table source (name_at names.now at) [] (flat_map replacing_in items.now) ++ more) (drop (at + 1) names.now) }
    ensures kept { take at wins.new ≡ take at wins.old }
    ensures size { length wins.new ≡ length wins.old }
{
    for item in items {
        if let Some(found) = pick_by_item(view, item, names, at, wins) {
            return Some(found);
        }
    }
    None
}

/// The value that an item of a class gives, if it is an element with `redeclare` of that name.
#[cycle(pick)]
fn pick_by_item<'a, 't: 'a>(
    view: &View<'a, 't>,
    item: &'t Item,
    names: &[Text],
    at: usize,
    wins: &mut [bool],
) -> Option<Picked<'a>>
    requires path { at < length names.now }
    requires wins { length wins.old ≡ length names.now }
    ensures is { (frames : Seq Frame) → (table : Table) → (source : SourceOf) → (more : Seq Saying) → view_of source ≡ view_in frames view.now → or_else (option_map (picked_in frames) result) (picked_said table (drop at wins.new) more (drop (at + 1) names.now)) ≡ picked_said table (drop at wins.old) (said_by_elements table source (name_at names.now at) [] (replacing_in item.now) ++ more) (drop (at + 1) names.now) }
    ensures kept { take at wins.new ≡ take at wins.old }
    ensures size { length wins.new ≡ length wins.old }
{
    match replacing(item) {
        Some(element) => pick_by_element(view, element, names, at, wins),
        None => None,
    }
}

/// Every redeclaration still wins.
fn win_all(wins: &mut [bool])
    ensures { wins.new ≡ map (λ before. true) wins.old }
{
    for at in 0..wins.len() {
        wins[at] = true;
    }
}

/// The expression that sources give for a path: that of the first one which speaks of it, with the scope where it was written and the
/// indices at which it is still to be taken. A redeclaration brings its own modifiers if it is the outermost one, else those of its
/// constraining clause. It takes no memory; `work` is overwritten, a place for each name of the path.
pub fn pick<'a, 't: 'a>(
    sources: &'a [Source<'t>],
    path: &[Text],
    work: &mut [bool],
) -> Option<Picked<'a>>
    requires { length work.old ≡ length path.now }
    ensures { IsPicked sources.now path.now result }
{
    win_all(work);
    for source in sources {
        let view = View {
            given: source.given,
            pending: source.pending.as_slice(),
            scope: &source.scope,
        };
        if let Some(found) = pick_in_view(&view, path, 0, work) {
            return Some(found);
        }
    }
    None
}
