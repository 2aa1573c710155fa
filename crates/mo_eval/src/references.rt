//! References to components (Modelica Language Specification 3.5, sections 4.4.5, 5.3 and 10.5): what they hand in.
ghost use Rattle.std.specs.Prelude.{◌≡◌, ◌++◌, ◌+◌, [], if◌then◌else◌, is_ok, length, IfOk, List as Seq, Some};
ghost use Rattle.std.specs.List.{list_any};
ghost use Rattle.mo_syntax.specs.declared.expr.Expr.{Expr as Tree};
ghost use Rattle.mo_scope.specs.Frames.{Frame};
ghost use Rattle.mo_scope.specs.Outcome.{Gives as GivesSeen};
ghost use Rattle.mo_scope.specs.Places.{Every};
ghost use Rattle.mo_scope.specs.Rows.{is_constant, is_constant_prefix as constant_prefix};
ghost use Rattle.mo_scope.specs.Sights.{declares_seen, member_at};
ghost use Rattle.mo_scope.specs.Worlds.{World, Grows, IsFrame, frames_of, table_in};
ghost use Rattle.mo_names.specs.Sights.{IsFound, IsMember, found_at};
ghost use Rattle.mo_typing.specs.Dims.{subscripted};
ghost use Rattle.mo_typing.specs.Outcome.{Gives};
ghost use Rattle.mo_typing.specs.Subscripts.{subscripts};
ghost use Rattle.mo_eval.specs.Keeping.{IsKept};
ghost use Rattle.mo_eval.specs.Contexts.{Part as PartOf};
ghost use Rattle.mo_eval.specs.References.{Components, elements_selected, every, handed_in, is_inside, kept_dims, kind_accepted, kind_among, kind_of_class, leaf_kind};
ghost use Rattle.mo_values.specs.Selected.{emptied};
ghost use Rattle.mo_eval.specs.Resolving.{made_name, made_named, made_found};
ghost use Rattle.mo_eval.specs.Seen.{AreThere, virtuals_seen, virtuals_at};
ghost use Rattle.mo_eval.specs.steps.Sites.{IsMade, ask_of, part_in, scope_of};
ghost use Rattle.mo_eval.specs.Virtuals.{numbers_behind};
ghost use Rattle.mo_eval.specs.steps.Absence.{Removal, as_stopped};
ghost use Rattle.mo_eval.specs.steps.Naming.{AreNames, names_seen};
ghost use Rattle.mo_eval.specs.steps.Parts.{as_reference};
ghost use Rattle.mo_eval.specs.steps.Selecting.{elements_as, elements_seen, kind_of_elements, reading_in, selections_seen};

use crate::absent::{Absent, or_broken};
use crate::below::{At, below};
use crate::literals::literal_text;
use crate::names::{Name, Referred, named};
use crate::reader::Reader;
use crate::resolve::Site;
use crate::selections::{Selection, selections};
use crate::virtuals::{Element, Virtual};
use mo_flat::{ArrayNode, Subscript};
use mo_lookup::{enter_component, walk_of};
use mo_names::Found;
use mo_scope::{Declares, Member, Scopes, Sort, copied};
use mo_syntax::{
    Broken, ClassId, Kind, List, NoMemory, Place, Reference, Stop, Vary, broken, rules,
};
use mo_typing::subscripted;
use mo_values::Context;
use mo_values::layers::answer;
use mo_values::selecting::{are_inside, emptied};
use std::alloc::Global;

/// What a reference hands in: dimensions and subscripts.
pub(crate) type Handed = (List<u32>, List<Subscript>);

/// The dimensions that are left of all.
fn kept_dims(alloc: Global, chosen: &[Selection]) -> Result<List<u32>, NoMemory>
    ensures { IfOk result (λ made. made ≡ kept_dims (selections_seen chosen.now)) }
{
    let mut made = List::new(alloc);
    for selection in chosen {
        let kept = subscripted(alloc, selection.subs.as_slice(), selection.dims.as_slice())?;
        made.append(kept)?;
    }
    Ok(made)
}

/// So many `:`.
fn every(alloc: Global, dims: &[u32]) -> Result<List<Subscript>, NoMemory>
    ensures { IfOk result (λ made. made ≡ every dims.now) }
{
    let mut made = List::new(alloc);
    for _size in dims {
        made.push(Subscript::All)?;
    }
    Ok(made)
}

/// Dimensions and subscripts behind those of the identifiers before: none of these where all of the last part lie inside.
fn handed_behind(alloc: Global, before: List<u32>, last: Selection) -> Result<Handed, NoMemory>
    ensures { IfOk result (λ handed. handed ≡ (if is_ok (subscripts last.entry.dims last.entry.subs) then (before ++ subscripted last.entry.subs last.entry.dims, []) else (before ++ emptied last.entry.dims last.entry.subs, every before ++ last.entry.subs))) }
{
    let mut dims = before;
    if are_inside(last.dims.as_slice(), last.subs.as_slice()) {
        let kept = subscripted(alloc, last.subs.as_slice(), last.dims.as_slice())?;
        dims.append(kept)?;
        return Ok((dims, List::new(alloc)));
    }
    let mut subs = every(alloc, dims.as_slice())?;
    let more = emptied(alloc, last.dims.as_slice(), last.subs.as_slice())?;
    dims.append(more)?;
    subs.append(last.subs)?;
    Ok((dims, subs))
}

/// The dimensions and the subscripts that a reference hands in.
pub(crate) fn handed_in(alloc: Global, chosen: List<Selection>) -> Result<Handed, NoMemory>
    ensures { IfOk result (λ handed. handed ≡ handed_in (selections_seen chosen.entry)) }
{
    let mut before = chosen;
    let Some(last) = before.pop() else {
        return Ok((List::new(alloc), List::new(alloc)));
    };
    let dims = kept_dims(alloc, before.as_slice())?;
    handed_behind(alloc, dims, last)
}

/// Whether all subscripts of the last part lie within their dimensions.
fn is_inside(chosen: &[Selection]) -> bool
    ensures { result ≡ is_inside (selections_seen chosen.now) }
{
    let mut inside = true;
    for selection in chosen {
        inside = are_inside(selection.dims.as_slice(), selection.subs.as_slice());
    }
    inside
}

/// The greatest number of identifiers in a reference whose elements are found.
const MOST_PARTS: usize = 1000;

/// The elements that a reference selects.
#[cycle(resolving)]
pub(crate) fn elements_selected<'t>(
    reader: &mut Reader<'t>,
    s: &mut Scopes<'t>,
    deeper: u64,
    place: Place,
    member: &Member<'t>,
    chosen: &[Selection],
) -> Result<List<At<'t>>, Absent>
    requires member { IsMember s.old member.now }
    requires kept { IsKept s.old reader.old }
    ensures grows { Grows s.old s.new }
    ensures kept { IsKept s.new reader.new }
    ensures there { IfOk result (Every (λ element. IsMember s.new element.0)) }
    ensures exact { (asking : Removal) → GivesSeen (elements_seen (frames_of s.new)) (as_stopped asking result) (elements_selected (table_in s.old) (reading_in asking s.old deeper) place (member_at s.old member.now) (selections_seen chosen.now)) }
{
    let mut made = List::new(reader.alloc);
    if chosen.len() > MOST_PARTS {
        return Err(Absent::Stopped(Stop::NoMemory));
    }
    if is_inside(chosen) {
        below(reader, s, deeper, place, member, chosen, &mut made)?;
    }
    Ok(made)
}

/// The kind of a class at the end of bases.
fn kind_of_class(class: ClassId) -> Kind
    ensures { result ≡ kind_of_class class.0 }
{
    match class.0 {
        0 => Kind::Real,
        1 => Kind::Whole,
        2 => Kind::Truth,
        3 => Kind::Str,
        _ => Kind::Enumeration(class),
    }
}

/// The kind of a component of leaf type at an index, none of another type.
fn leaf_kind<'t>(
    alloc: Global,
    s: &mut Scopes<'t>,
    member: &Member<'t>,
    index: &[u32],
) -> Result<Option<Kind>, Stop>
    requires member { IsMember s.old member.now }
    ensures grows { Grows s.old s.new }
    ensures exact { Gives result (leaf_kind (table_in s.old) (member_at s.old member.now) index.now) }
{
    let frame = enter_component(alloc, s, member, index)?;
    let walk = walk_of(alloc, s, frame)?;
    match walk.leaf {
        None => Ok(None),
        Some(leaf) => Ok(Some(kind_of_class(s.class_of(leaf)))),
    }
}

/// The kind of what is selected: that of the first element, or of the component as it is named where none is.
fn kind_among<'t>(
    alloc: Global,
    s: &mut Scopes<'t>,
    member: &Member<'t>,
    elements: &[At<'t>],
) -> Result<Option<Kind>, Stop>
    requires member { IsMember s.old member.now }
    requires there { Every (λ element. IsMember s.old element.0) elements.now }
    ensures grows { Grows s.old s.new }
    ensures exact { Gives result (kind_among (table_in s.old) (member_at s.old member.now) (elements_seen (frames_of s.old) elements.now)) }
{
    match elements {
        [] => leaf_kind(alloc, s, member, &[]),
        [first, ..] => leaf_kind(alloc, s, &first.0, first.1.as_slice()),
    }
}

/// Accepts a component of leaf type, and one of another type where its kind does not count.
fn kind_accepted(context: Context, place: Place, kind: Option<Kind>) -> Result<Kind, Broken>
    ensures { result ≡ kind_accepted context place kind }
{
    match kind {
        Some(kind) => Ok(kind),
        None => {
            if context.sized {
                Ok(Kind::Real)
            } else {
                Err(broken(rules::OUTSIDE_PROFILE, place))
            }
        }
    }
}

fn is_constant_prefix(vary: Vary) -> bool
    ensures { result ≡ constant_prefix vary }
{
    match vary {
        Vary::Constant => true,
        Vary::Free | Vary::Discrete | Vary::Parameter => false,
    }
}

/// Whether a constant is declared.
fn is_constant(declares: &Declares) -> bool
    ensures { result ≡ is_constant (declares_seen declares.now) }
{
    match declares.sort {
        Sort::Class {
            number: _,
            encapsulated: _,
        } => false,
        Sort::Component(component) => is_constant_prefix(component.prefix.vary),
    }
}

/// Whether one of the names makes a reference constant.
fn are_constant(names: &[Name]) -> bool
    ensures { (f : Tree → PartOf) (frames : Seq Frame) → result ≡ list_any (λ name. is_constant name.0.declares) (names_seen f frames names.now) }
{
    for name in names {
        if is_constant(&name.member.declares) {
            return true;
        }
    }
    false
}

/// The number of one more variable. `NoMemory` is the only other answer.
fn next_number(count: usize) -> Result<u32, NoMemory>
    ensures { IfOk result (λ n. n ≡ count + 1) }
{
    if count >= 4294967295 {
        return Err(NoMemory);
    }
    Ok(count as u32 + 1)
}

/// What all elements of a reference have in common.
#[derive(Clone, Copy)]
struct Common {
    place: Place,
    kind: Kind,
    constant: bool,
}

/// Puts the virtual variables of elements at the end, and gives their numbers.
fn put_variables<'t>(
    alloc: Global,
    common: Common,
    elements: &[At<'t>],
    virtuals: &mut List<Virtual<'t>>,
) -> Result<List<u32>, NoMemory>
    ensures there { (world : World) → AreThere world virtuals.old → Every (λ element. IsMember world element.0) elements.now → AreThere world virtuals.new }
    ensures exact { (frames : Seq Frame) → IfOk result (λ numbers. (numbers ≡ numbers_behind (length virtuals.old) (elements_as frames common elements.now)) × (virtuals_seen frames virtuals.new ≡ virtuals_seen frames virtuals.old ++ elements_as frames common elements.now)) }
{
    let mut numbers = List::new(alloc);
    for element in elements {
        let index = copied(alloc, element.1.as_slice())?;
        let n = next_number(virtuals.len())?;
        virtuals.push(Virtual::Component(Element {
            member: element.0,
            index,
            kind: common.kind,
            place: common.place,
            constant: common.constant,
        }))?;
        numbers.push(n)?;
    }
    Ok(numbers)
}

/// The kind of the elements that a reference selects, where such a kind is accepted.
fn kind_of_elements<'t>(
    alloc: Global,
    s: &mut Scopes<'t>,
    context: Context,
    place: Place,
    member: &Member<'t>,
    elements: &[At<'t>],
) -> Result<Kind, Stop>
    requires member { IsMember s.old member.now }
    requires there { Every (λ element. IsMember s.old element.0) elements.now }
    ensures grows { Grows s.old s.new }
    ensures exact { Gives result (kind_of_elements (table_in s.old) context place (member_at s.old member.now) (elements_seen (frames_of s.old) elements.now)) }
{
    let kind = kind_among(alloc, s, member, elements)?;
    answer(kind_accepted(context, place, kind))
}

/// The components that the identifiers of a reference find, with the virtual variables of their elements behind those before. Where
/// no more references may be read, rule 29 is broken.
#[cycle(resolving)]
fn components<'t>(
    reader: &mut Reader<'t>,
    s: &mut Scopes<'t>,
    site: &Site,
    place: Place,
    names: &[Name<'_, 't>],
    virtuals: &mut List<Virtual<'t>>,
) -> Result<ArrayNode, Stop>
    requires frame { IsFrame s.old site.now.at.now.frame.0 }
    requires names { AreNames s.old names.now }
    requires there { AreThere s.old virtuals.old }
    requires kept { IsKept s.old reader.old }
    ensures grows { Grows s.old s.new }
    ensures kept { IsKept s.new reader.new }
    ensures there { AreThere s.new virtuals.new }
    ensures exact { IsMade s.new result virtuals.new (made_named (table_in s.old) (ask_of s.old site.now) site.now.context place (Components (names_seen (part_in s.old site.now) (frames_of s.old) names.now)) (virtuals_at s.old virtuals.old)) }
{
    if names.is_empty() {
        return Err(Stop::Broken(broken(rules::NAME_NOT_FOUND, place)));
    }
    if site.left == 0 {
        return Err(Stop::Broken(broken(rules::REFERENCE_CHAIN_TOO_LONG, place)));
    }
    let deeper = site.left - 1;
    let first = names[0].member;
    let last = names[names.len() - 1].member;
    let chosen = or_broken(selections(reader, s, site, deeper, first, names))?;
    let elements = or_broken(elements_selected(
        reader,
        s,
        deeper,
        place,
        &first,
        chosen.as_slice(),
    ))?;
    let kind = kind_of_elements(
        reader.alloc,
        s,
        site.context,
        place,
        &last,
        elements.as_slice(),
    )?;
    let common = Common {
        place,
        kind,
        constant: are_constant(names),
    };
    let (dims, subs) = handed_in(reader.alloc, chosen)?;
    let vars = put_variables(reader.alloc, common, elements.as_slice(), virtuals)?;
    Ok(ArrayNode::Vars {
        vars,
        kind,
        dims,
        subs,
    })
}

/// What a name stands for that is no component; a class or a function breaks rule 13 at its identifier.
fn other(alloc: Global, s: &Scopes, place: Place, found: &Found) -> Result<ArrayNode, Stop>
    requires found { IsFound s.now found.now }
    ensures { Gives result (made_found (table_in s.now) place (found_at s.now found.now)) }
{
    match found {
        Found::Literal(class, n) => {
            let text = literal_text(alloc, s, *class, *n)?;
            Ok(ArrayNode::Literal(*class, *n, text))
        }
        Found::Iteration(n) => Ok(ArrayNode::Whole(*n)),
        Found::Time => Ok(ArrayNode::Time),
        Found::Component(_, _) => Err(Stop::Broken(broken(rules::WRONG_KIND_OF_NAME, place))),
        Found::Class(_, _) => Err(Stop::Broken(broken(rules::WRONG_KIND_OF_NAME, place))),
        Found::Function(_) => Err(Stop::Broken(broken(rules::WRONG_KIND_OF_NAME, place))),
    }
}

/// A name in an expression, with the virtual variables of its elements behind those before.
#[cycle(resolving)]
pub(crate) fn name<'t>(
    reader: &mut Reader<'t>,
    s: &mut Scopes<'t>,
    site: &Site,
    place: Place,
    reference: &Reference,
    virtuals: &mut List<Virtual<'t>>,
) -> Result<ArrayNode, Stop>
    requires frame { IsFrame s.old site.now.at.now.frame.0 }
    requires there { AreThere s.old virtuals.old }
    requires kept { IsKept s.old reader.old }
    ensures grows { Grows s.old s.new }
    ensures kept { IsKept s.new reader.new }
    ensures there { AreThere s.new virtuals.new }
    ensures exact { IsMade s.new result virtuals.new (made_name (table_in s.old) (ask_of s.old site.now) (scope_of s.old site.now) site.now.context place (as_reference (part_in s.old site.now) reference.now) (virtuals_at s.old virtuals.old)) }
{
    match named(reader.alloc, s, site, reference)? {
        Referred::Components(names) => {
            components(reader, s, site, place, names.as_slice(), virtuals)
        }
        Referred::Other(found, at) => other(reader.alloc, s, at, &found),
    }
}
