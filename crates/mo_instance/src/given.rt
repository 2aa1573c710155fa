//! Whether a component is given from outside: declared `input` by itself or by a short class on the way of its type (Modelica
//! Language Specification 3.5, sections 4.4.2.2 and 4.5.1).
#![tactic(auto, using(crate::proofs::Later::later))]

ghost use Rattle.std.specs.Prelude.{◌≡◌, ◌||◌, IfOk};
ghost use Rattle.mo_syntax.specs.declared.class.Body.{out-Body};
ghost use Rattle.mo_scope.specs.Rows.{form_in, number_of_classes};
ghost use Rattle.mo_scope.specs.Worlds.{Grows, IsFrame, frame_at, table_in, row_of_frame};
ghost use Rattle.mo_instance.specs.Prefixes.{input_from, is_input as causal_is_input};
ghost use Rattle.mo_instance.specs.steps.Ways.{is_input_form, is_input_row};

use crate::prefixes::is_input;
use mo_lookup::step;
use mo_scope::Scopes;
use mo_syntax::{Body, Causal, FrameId, NoMemory};
use std::alloc::Global;

/// Whether a class is a short one that is declared `input`.
fn is_input_body(body: &Body) -> bool
    ensures { result ≡ is_input_form (form_in (out-Body body.now)) }
{
    match body {
        Body::Short {
            causal,
            base: _,
            subs: _,
            mods: _,
        } => is_input(*causal),
        Body::Long {
            extending: _,
            items: _,
            external: _,
        } => false,
        Body::Enumeration(_) => false,
        Body::Der(_, _) => false,
    }
}

/// Whether the class of a frame is a short one that is declared `input`.
fn is_input_class(s: &Scopes, frame: FrameId) -> bool
    requires { IsFrame s.now frame.0 }
    ensures { result ≡ is_input_row (row_of_frame s.now frame.0) }
{
    match s.row(s.class_of(frame)) {
        Some(row) => is_input_body(&row.class.body),
        None => false,
    }
}

/// Whether a class on the way of a type is a short one that is declared `input`.
fn is_input_type<'t>(alloc: Global, s: &mut Scopes<'t>, class: FrameId) -> Result<bool, NoMemory>
    requires { IsFrame s.old class.0 }
    ensures grows { Grows s.old s.new }
    ensures value { IfOk result (λ is. is ≡ input_from (table_in s.old) (number_of_classes (table_in s.old)) (frame_at s.old class.0)) }
{
    let mut left = s.class_count().checked_add(6).ok_or(NoMemory)?;
    let mut frame = class;
    while left > 0 {
        if is_input_class(s, frame) {
            return Ok(true);
        }
        match step(alloc, s, frame)? {
            Some(on) => {
                frame = on.base;
                left -= 1;
            }
            None => return Ok(false),
        }
    }
    Ok(false)
}

/// Whether a component with that causality and that type is declared `input`.
pub(crate) fn is_given<'t>(
    alloc: Global,
    s: &mut Scopes<'t>,
    causal: Causal,
    class: FrameId,
) -> Result<bool, NoMemory>
    requires { IsFrame s.old class.0 }
    ensures grows { Grows s.old s.new }
    ensures value { IfOk result (λ is. is ≡ (causal_is_input causal || input_from (table_in s.old) (number_of_classes (table_in s.old)) (frame_at s.old class.0))) }
{
    if is_input(causal) {
        return Ok(true);
    }
    is_input_type(alloc, s, class)
}
