//! Literals of enumerations (Modelica Language Specification 3.5, section 4.8.5).
ghost use Rattle.std.specs.Prelude.{◌≡◌, ◌+◌, ◌≤◌, length, map, option_map, slice_get, IfOk, IfSome};
ghost use Rattle.mo_tables.specs.Words.{code_in};
ghost use Rattle.mo_scope.specs.Lookup.{literal_of, literals_at, predefined_literals};
ghost use Rattle.mo_scope.specs.Rows.{form_in, literals_in};
ghost use Rattle.mo_scope.specs.Worlds.{frames_of, frame_in, table_in};
ghost use Rattle.mo_syntax.specs.declared.class.Body.{out-Body};
ghost use Rattle.mo_names.specs.Sights.{IsFound, IsLeaf, found_at};
ghost use Rattle.mo_names.specs.steps.Parts.{none_listed};

use crate::found::Found;
use mo_scope::Scopes;
use mo_syntax::{Body, ClassId, FrameId, NoMemory, Text};

/// The literals of `StateSelect`.
const STATE_SELECT: [&str; 5] = ["never", "avoid", "default", "prefer", "always"];

/// The literals of `AssertionLevel`.
const ASSERTION_LEVEL: [&str; 2] = ["warning", "error"];

/// The place of a name among words, from 0.
pub(crate) fn word_place(words: &[&'static str], name: &Text) -> Option<u32>
    requires { length words.now ≤ 64 }
    ensures { result ≡ code_in (map (λ word. word.now) words.now) name.now }
{
    let mut place = 0u32;
    for word in words {
        if word.as_bytes() == name.as_str().as_bytes() {
            return Some(place);
        }
        place += 1;
    }
    None
}

/// The place of a name among literals, from 0.
fn literal_place(literals: &[Text], name: &Text) -> Result<Option<u32>, NoMemory>
    ensures { IfOk result (λ place. place ≡ code_in literals.now name.now) }
{
    let mut place = 0u32;
    for literal in literals {
        if literal.equals(name) {
            return Ok(Some(place));
        }
        let Some(next) = place.checked_add(1) else {
            return Err(NoMemory);
        };
        place = next;
    }
    Ok(None)
}

/// The place of a name among the literals of a predefined enumeration.
fn predefined_place(class: ClassId, name: &Text) -> Option<u32>
    ensures { result ≡ code_in (predefined_literals class.0) name.now }
{
    if class.0 == 4 {
        return word_place(&STATE_SELECT, name);
    }
    if class.0 == 5 {
        return word_place(&ASSERTION_LEVEL, name);
    }
    None
}

/// The place of a name among the literals of an enumeration's body.
fn body_place(body: &Body, name: &Text) -> Result<Option<u32>, NoMemory>
    ensures { IfOk result (λ place. place ≡ code_in (none_listed (literals_in (form_in (out-Body body.now)))) name.now) }
{
    match body {
        Body::Enumeration(Some(literals)) => literal_place(literals.as_slice(), name),
        Body::Enumeration(None) => Ok(None),
        Body::Long {
            extending: _,
            items: _,
            external: _,
        } => Ok(None),
        Body::Short {
            causal: _,
            base: _,
            subs: _,
            mods: _,
        } => Ok(None),
        Body::Der(_, _) => Ok(None),
    }
}

/// The place of a name among the literals of a class.
fn class_place(s: &Scopes, class: ClassId, name: &Text) -> Result<Option<u32>, NoMemory>
    ensures { IfOk result (λ place. place ≡ code_in (literals_at (table_in s.now) class.0) name.now) }
{
    match s.row(class) {
        Some(row) => body_place(&row.class.body, name),
        None => Ok(predefined_place(class, name)),
    }
}

/// The word at a place, from 0.
pub(crate) fn word_at(words: &[&'static str], place: u32) -> Option<&'static str>
    ensures { option_map (λ word. word.now) result ≡ slice_get (map (λ word. word.now) words.now) place }
{
    match words.get(place as usize) {
        Some(word) => Some(*word),
        None => None,
    }
}

/// The name of the literal at a place of a predefined enumeration.
fn predefined_literal(class: ClassId, place: u32) -> Option<&'static str>
    ensures { option_map (λ name. name.now) result ≡ slice_get (predefined_literals class.0) place }
{
    if class.0 == 4 {
        return word_at(&STATE_SELECT, place);
    }
    if class.0 == 5 {
        return word_at(&ASSERTION_LEVEL, place);
    }
    None
}

/// The name at a place among literals.
fn listed_literal(literals: &[Text], place: u32) -> Option<&str>
    ensures { option_map (λ name. name.now) result ≡ slice_get literals.now place }
{
    match literals.get(place as usize) {
        Some(literal) => Some(literal.as_str()),
        None => None,
    }
}

/// The name of the literal at a place of an enumeration's body.
fn body_literal(body: &Body, place: u32) -> Option<&str>
    ensures { option_map (λ name. name.now) result ≡ slice_get (none_listed (literals_in (form_in (out-Body body.now)))) place }
{
    match body {
        Body::Enumeration(Some(literals)) => listed_literal(literals.as_slice(), place),
        Body::Enumeration(None) => None,
        Body::Long {
            extending: _,
            items: _,
            external: _,
        } => None,
        Body::Short {
            causal: _,
            base: _,
            subs: _,
            mods: _,
        } => None,
        Body::Der(_, _) => None,
    }
}

/// The name of the literal at a place of a class, from 0; None where the class has no such literal.
pub fn literal_name<'t>(s: &Scopes<'t>, class: ClassId, place: u32) -> Option<&'t str>
    ensures { option_map (λ name. name.now) result ≡ slice_get (literals_at (table_in s.now) class.0) place }
{
    match s.row(class) {
        Some(row) => body_literal(&row.class.body, place),
        None => predefined_literal(class, place),
    }
}

/// The literal of that name of the class at the end of a frame's bases.
pub(crate) fn literal<'t>(
    s: &Scopes<'t>,
    leaf: Option<FrameId>,
    name: &Text,
) -> Result<Option<Found<'t>>, NoMemory>
    requires { IsLeaf s.now leaf }
    ensures is { IfOk result (λ found. option_map (found_at s.now) found ≡ literal_of (table_in s.now) (option_map (λ frame. frame_in (frames_of s.now) frame.0) leaf) name.now) }
    ensures exists { IfOk result (λ found. IfSome found (IsFound s.now)) }
{
    match leaf {
        Some(frame) => {
            let class = s.class_of(frame);
            match class_place(s, class, name)? {
                Some(place) => Ok(Some(Found::Literal(class, place))),
                None => Ok(None),
            }
        }
        None => Ok(None),
    }
}
