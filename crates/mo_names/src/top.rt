//! Names at the top, and predefined names.
ghost use Rattle.std.specs.Prelude.{◌≡◌, ◌<◌, [], codes, if◌then◌else◌, option_map, slice_get, false, IfOk, IfSome};
ghost use Rattle.std.specs.Str.{bytes_eq};
ghost use Rattle.mo_tables.specs.Words.{code_in, functions};
ghost use Rattle.mo_scope.specs.Entries.{number_of};
ghost use Rattle.mo_scope.specs.Frames.{Top, looked_up};
ghost use Rattle.mo_scope.specs.Lookup.{at_top as found_at_top, predefined as found_predefined, type_names, predefined_function, Class as found_class, Time as found_time};
ghost use Rattle.mo_scope.specs.Rows.{number_of_classes};
ghost use Rattle.mo_scope.specs.Worlds.{Grows, IsFrame, IsFrameOrNone, frame_at, table_in};
ghost use Rattle.mo_scope.specs.Sights.{frame_at_or_top};
ghost use Rattle.mo_names.specs.Sights.{IsFound, found_at};

use crate::found::Found;
use crate::literals::{word_at, word_place};
use mo_scope::Scopes;
use mo_syntax::{ClassId, FrameId, List, NoMemory, Text};
use mo_tables::function;
use std::alloc::Global;

/// The predefined types by number.
const TYPE_NAMES: [&str; 6] = [
    "Real",
    "Integer",
    "Boolean",
    "String",
    "StateSelect",
    "AssertionLevel",
];

/// The number of a predefined type.
fn type_number(name: &Text) -> Option<u32>
    ensures { result ≡ code_in type_names name.now }
{
    word_place(&TYPE_NAMES, name)
}

/// The name of a predefined type, None of another class.
pub fn type_name(class: ClassId) -> Option<&'static str>
    ensures { option_map (λ name. name.now) result ≡ slice_get type_names class.0 }
{
    word_at(&TYPE_NAMES, class.0)
}

/// The frame of a class that is only looked up.
pub fn looked_up_class<'t>(
    alloc: Global,
    s: &mut Scopes<'t>,
    class: ClassId,
    outer: Option<FrameId>,
) -> Result<FrameId, NoMemory>
    requires class { class.0 < number_of_classes (table_in s.old) }
    requires outer { IsFrameOrNone s.old (option_map number_of outer) }
    ensures grows { Grows s.old s.new }
    ensures is { IfOk result (λ frame. frame_at s.new frame.0 ≡ looked_up class.0 [] (frame_at_or_top s.old outer)) }
    ensures exists { IfOk result (λ frame. IsFrame s.new frame.0) }
{
    match s.entered(class, outer) {
        Some(frame) => Ok(frame),
        None => s.enter(alloc, class, List::new(alloc), outer, None, None),
    }
}

/// The class at the top of a number.
fn top_frame<'t>(
    alloc: Global,
    s: &mut Scopes<'t>,
    class: ClassId,
) -> Result<Option<Found<'t>>, NoMemory>
    requires class { class.0 < number_of_classes (table_in s.old) }
    ensures grows { Grows s.old s.new }
    ensures is { IfOk result (λ found. option_map (found_at s.new) found ≡ Some (found_class (looked_up class.0 [] Top) false)) }
    ensures exists { IfOk result (λ found. IfSome found (IsFound s.new)) }
{
    Ok(Some(Found::Class(looked_up_class(alloc, s, class, None)?, false)))
}

/// What a predefined name finds.
pub(crate) fn predefined<'t>(
    alloc: Global,
    s: &mut Scopes<'t>,
    name: &Text,
) -> Result<Option<Found<'t>>, NoMemory>
    ensures grows { Grows s.old s.new }
    ensures is { IfOk result (λ found. option_map (found_at s.new) found ≡ found_predefined name.now) }
    ensures exists { IfOk result (λ found. IfSome found (IsFound s.new)) }
{
    match type_number(name) {
        Some(number) => top_frame(alloc, s, ClassId(number)),
        None => Ok(predefined_value(s, name)),
    }
}

/// What a name that is no type finds.
fn predefined_value<'t>(_s: &Scopes<'t>, name: &Text) -> Option<Found<'t>>
    ensures is { option_map (found_at _s.now) result ≡ (if bytes_eq name.now (codes "time") then Some found_time else predefined_function (code_in functions name.now)) }
    ensures exists { IfSome result (IsFound _s.now) }
{
    if name.as_str() == "time" {
        return Some(Found::Time);
    }
    match function(name.as_str().as_bytes()) {
        Some(code) => Some(Found::Function(code)),
        None => None,
    }
}

/// What a name finds at the top.
pub(crate) fn at_top<'t>(
    alloc: Global,
    s: &mut Scopes<'t>,
    name: &Text,
) -> Result<Option<Found<'t>>, NoMemory>
    ensures grows { Grows s.old s.new }
    ensures is { IfOk result (λ found. option_map (found_at s.new) found ≡ found_at_top (table_in s.old) name.now) }
    ensures exists { IfOk result (λ found. IfSome found (IsFound s.new)) }
{
    match s.top_class(name) {
        Some(class) => top_frame(alloc, s, class),
        None => predefined(alloc, s, name),
    }
}
