//! What a class may not be or declare where it is instantiated: partial, left out, or with elements with `redeclare` that replace
//! nothing (Modelica Language Specification 3.5, sections 4.6, 5.4 and 7.3).
ghost use Rattle.std.specs.Prelude.{◌≡◌, ◌++◌, List as Seq, flat_map, map};
ghost use Rattle.std.specs.List.{list_any};
ghost use Rattle.mo_syntax.specs.declared.class.Element.{Element as ElementOf};
ghost use Rattle.mo_scope.specs.Outcome.{Gives};
ghost use Rattle.mo_scope.specs.Parts.{declared_in};
ghost use Rattle.mo_scope.specs.Frames.{class_of};
ghost use Rattle.mo_scope.specs.Rows.{Element_of, Table, clauses_in, replacing_in, row_at};
ghost use Rattle.mo_scope.specs.Sights.{declares_seen, part_seen, row_seen};
ghost use Rattle.mo_scope.specs.Worlds.{IsFrame, frame_at, table_in};
ghost use Rattle.mo_instance.specs.Checks.{first_in_text, in_profile as frame_in_profile, is_function as kind_is_function, is_partial_short as row_is_partial_short, replaces_inherited as frame_replaces, row_in_profile as profile_of_row, unless_any, unless_bases, whole_class as class_is_whole, wrongly_inner};
ghost use Rattle.mo_instance.specs.steps.Firsts.{earlier_place, first_replaced, first_wrong, part_is_base, place_in_part, wrong_at, wrong_items, wrong_parts, wrong_place as place_if_wrong};

use mo_scope::{Declares, Part, Row, Scopes, is_class, is_short, replacing};
use mo_syntax::{ClassKind, Element, ElementFlags, FrameId, Item, Place, Stop, What, rules, stop};

/// Breaks rule 26 at the place where the class of a frame is partial.
pub(crate) fn whole_class(s: &Scopes, place: Place, frame: FrameId) -> Result<(), Stop>
    requires { IsFrame s.now frame.0 }
    ensures { Gives (λ _. tt) result (class_is_whole (table_in s.now) place (frame_at s.now frame.0)) }
{
    match s.row(s.class_of(frame)) {
        Some(row) => {
            if row.class.flags.partial {
                Err(stop(rules::PARTIAL_CLASS, place))
            } else {
                Ok(())
            }
        }
        None => Ok(()),
    }
}

/// Whether the class of a frame is a partial short one.
pub(crate) fn is_partial_short(s: &Scopes, frame: FrameId) -> bool
    requires { IsFrame s.now frame.0 }
    ensures { result ≡ row_is_partial_short (row_at (table_in s.now) (class_of (frame_at s.now frame.0))) }
{
    match s.row(s.class_of(frame)) {
        Some(row) => row.class.flags.partial && is_short(&row.class.body),
        None => false,
    }
}

fn is_function(kind: ClassKind) -> bool
    ensures { result ≡ kind_is_function kind }
{
    match kind {
        ClassKind::Function => true,
        ClassKind::Operator => true,
        ClassKind::Plain => false,
        ClassKind::Model => false,
        ClassKind::Block => false,
        ClassKind::Recd => false,
        ClassKind::Connector => false,
        ClassKind::TypeDef => false,
        ClassKind::Package => false,
    }
}

/// The one of two places that stands first in the text.
fn earlier(place: Option<Place>, other: Option<Place>) -> Option<Place>
    ensures { result ≡ earlier_place place other }
{
    match place {
        None => other,
        Some(place) => match other {
            None => Some(place),
            Some(other) => {
                if other.byte < place.byte {
                    Some(other)
                } else {
                    Some(place)
                }
            }
        },
    }
}

/// The place of what has these flags, if it is `inner` or `outer`.
fn wrong_place(flags: ElementFlags, place: Place) -> Option<Place>
    ensures { result ≡ wrong_at flags place }
{
    if flags.inner || flags.outer {
        return Some(place);
    }
    None
}

/// The place of the name of an element that is `inner` or `outer`.
fn wrong_element(element: &Element) -> Option<Place>
    ensures { (table : Table) → result ≡ place_if_wrong (declared_in table element.now) }
{
    match &element.what {
        What::Class(class) => wrong_place(element.flags, class.place),
        What::Component(component) => wrong_place(element.flags, component.place),
    }
}

/// The place of an item that is an element with `redeclare`, and `inner` or `outer`: with it an item stands before those behind.
fn wrong_item(item: &Item) -> Option<Place>
    ensures { (table : Table) → (others : Seq ElementOf) → first_wrong (map (declared_in table) (replacing_in item.now ++ others)) ≡ earlier_place result (first_wrong (map (declared_in table) others)) }
{
    match replacing(item) {
        Some(element) => wrong_element(element),
        None => None,
    }
}

/// The place of what is declared, if it is a class that is `inner` or `outer`.
fn wrong_class(declares: &Declares) -> Option<Place>
    ensures { result ≡ place_in_part (Element_of (declares_seen declares.now)) }
{
    if is_class(declares) {
        return wrong_place(declares.flags, declares.place);
    }
    None
}

/// The place of a part that is a class, and `inner` or `outer`.
fn wrong_part(part: &Part) -> Option<Place>
    ensures { result ≡ place_in_part (part_seen part.now) }
{
    match part {
        Part::Element(declares) => wrong_class(declares),
        Part::Base(_) => None,
    }
}

/// The place of the one of these items that stands first in the text.
fn first_item(items: &[Item]) -> Option<Place>
    ensures { (table : Table) → result ≡ wrong_items table items.now }
{
    let mut first = None;
    for at in (0..items.len()).rev() {
        let item = &items[at];
        first = earlier(wrong_item(item), first);
    }
    first
}

/// The place of the one of these parts that stands first in the text, or the place behind them if that stands before.
fn first_part(parts: &[Part], behind: Option<Place>) -> Option<Place>
    ensures { result ≡ wrong_parts (map part_seen parts.now) behind }
{
    let mut first = behind;
    for at in (0..parts.len()).rev() {
        let part = &parts[at];
        first = earlier(wrong_part(part), first);
    }
    first
}

/// Breaks rule 34 where a class declares a class or an element with `redeclare` that is `inner` or `outer`.
fn parts_in_profile(row: &Row) -> Result<(), Stop>
    ensures { (table : Table) → Gives (λ _. tt) result (unless_any (first_in_text (wrongly_inner table (row_seen row.now)))) }
{
    let behind = first_item(row.replacing);
    match first_part(row.parts.as_slice(), behind) {
        Some(place) => Err(stop(rules::OUTSIDE_PROFILE, place)),
        None => Ok(()),
    }
}

/// Breaks rule 34 where a class is a function or an operator, or declares a class or an element with `redeclare` that is `inner`
/// or `outer`.
fn row_in_profile(row: &Row) -> Result<(), Stop>
    ensures { (table : Table) → Gives (λ _. tt) result (profile_of_row table (row_seen row.now)) }
{
    if is_function(row.class.kind) {
        return Err(stop(rules::OUTSIDE_PROFILE, row.class.place));
    }
    parts_in_profile(row)
}

/// Breaks rule 34 where the class of a frame is left out.
pub(crate) fn in_profile(s: &Scopes, frame: FrameId) -> Result<(), Stop>
    requires { IsFrame s.now frame.0 }
    ensures { Gives (λ _. tt) result (frame_in_profile (table_in s.now) (frame_at s.now frame.0)) }
{
    match s.row(s.class_of(frame)) {
        Some(row) => row_in_profile(row),
        None => Ok(()),
    }
}

/// Where the name of an element is declared.
fn name_place(element: &Element) -> Place
    ensures { (table : Table) → result ≡ (declared_in table element.now).place }
{
    match &element.what {
        What::Class(class) => class.place,
        What::Component(component) => component.place,
    }
}

/// Whether a part of a class is an extends clause.
fn is_base(part: &Part) -> bool
    ensures { result ≡ part_is_base (part_seen part.now) }
{
    match part {
        Part::Base(_) => true,
        Part::Element(_) => false,
    }
}

/// Whether an extends clause is among the parts of a class.
fn has_bases(parts: &[Part]) -> bool
    ensures { result ≡ list_any part_is_base (map part_seen parts.now) }
{
    for part in parts {
        if is_base(part) {
            return true;
        }
    }
    false
}

/// The place of the first element with `redeclare` among the items of a class.
fn first_replacing(items: &[Item]) -> Option<Place>
    ensures { (table : Table) → result ≡ first_replaced table (flat_map replacing_in items.now) }
{
    for item in items {
        match replacing(item) {
            Some(element) => return Some(name_place(element)),
            None => {}
        }
    }
    None
}

/// Breaks rule 20 at the first element with `redeclare` of a class without bases.
fn row_replaces(row: &Row) -> Result<(), Stop>
    ensures { (table : Table) → Gives (λ _. tt) result (unless_bases table (clauses_in (row_seen row.now).parts) (row_seen row.now).replacing) }
{
    if has_bases(row.parts.as_slice()) {
        return Ok(());
    }
    match first_replacing(row.replacing) {
        Some(place) => Err(stop(rules::MODIFIED_ELEMENT_NOT_FOUND, place)),
        None => Ok(()),
    }
}

/// Breaks rule 20 at the first element with `redeclare` of the class of a frame, if it has no bases.
pub(crate) fn replaces_inherited(s: &Scopes, frame: FrameId) -> Result<(), Stop>
    requires { IsFrame s.now frame.0 }
    ensures { Gives (λ _. tt) result (frame_replaces (table_in s.now) (frame_at s.now frame.0)) }
{
    match s.row(s.class_of(frame)) {
        Some(row) => row_replaces(row),
        None => Ok(()),
    }
}
