//! The bases in which the dimensions of types are found (Modelica Language Specification 3.5, sections 4.5.1, 7.3 and 10.1).
#![tactic(auto, using(mo_names::proofs::Later::later))]

ghost use Rattle.std.specs.Prelude.{◌≡◌, [], option_map, IfOk, IfSome};
ghost use Rattle.mo_syntax.specs.declared.class.Body.{out-Body};
ghost use Rattle.mo_scope.specs.Frames.{class_of};
ghost use Rattle.mo_scope.specs.Names.{clauses_of};
ghost use Rattle.mo_scope.specs.Rows.{form_in};
ghost use Rattle.mo_scope.specs.Sizes.{first_base as base_first};
ghost use Rattle.mo_scope.specs.Worlds.{Grows, IsFrame, frame_at, frames_of, table_in, row_of_frame};
ghost use Rattle.mo_lookup.specs.Types.{onward_seen, step_of, step_of_long, step_of_short, way_of_form, way_of_row, way_seen};

use crate::bases::{first_base, is_leaf, leaf_base};
use mo_scope::Scopes;
use mo_syntax::{Body, Expr, FrameId, NoMemory, Stop};
use std::alloc::Global;

/// The dimensions that a class adds, with the base in which further ones are found.
#[derive(Clone, Copy)]
pub struct Onward<'t> {
    pub subscripts: &'t [Option<Expr>],
    pub base: FrameId,
}

/// Those of a short class; nothing where the name of its base breaks a rule.
fn short_step<'t>(
    alloc: Global,
    s: &mut Scopes<'t>,
    frame: FrameId,
    own: &'t [Option<Expr>],
) -> Result<Option<Onward<'t>>, NoMemory>
    requires { IsFrame s.old frame.0 }
    ensures grows { Grows s.old s.new }
    ensures value { IfOk result (λ way. option_map (onward_seen (frames_of s.new)) way ≡ step_of_short own.now (base_first (table_in s.old) (frame_at s.old frame.0) (clauses_of (table_in s.old) (frame_at s.old frame.0)))) }
    ensures stand { IfOk result (λ way. IfSome way (λ on. IsFrame s.new on.base.0)) }
{
    match first_base(alloc, s, frame) {
        Ok(base) => Ok(Some(Onward {
            subscripts: own,
            base,
        })),
        Err(Stop::Broken(_)) => Ok(None),
        Err(Stop::NoMemory) => Err(NoMemory),
    }
}

/// The first base of leaf type of a long class, which adds no dimensions.
fn long_step<'t>(
    alloc: Global,
    s: &mut Scopes<'t>,
    frame: FrameId,
) -> Result<Option<Onward<'t>>, NoMemory>
    requires { IsFrame s.old frame.0 }
    ensures grows { Grows s.old s.new }
    ensures value { IfOk result (λ way. option_map (onward_seen (frames_of s.new)) way ≡ step_of_long (table_in s.old) (frame_at s.old frame.0)) }
    ensures stand { IfOk result (λ way. IfSome way (λ on. IsFrame s.new on.base.0)) }
{
    if !is_leaf(alloc, s, frame)? {
        return Ok(None);
    }
    match leaf_base(alloc, s, frame)? {
        Some(base) => Ok(Some(Onward {
            subscripts: &[],
            base,
        })),
        None => Ok(None),
    }
}

/// What the dimensions of a type are found in.
#[derive(Clone, Copy)]
enum Way<'t> {
    /// A short class with these dimensions of its own.
    Short(&'t [Option<Expr>]),
    Long,
    Nowhere,
}

/// The way that a class's form gives.
fn way_in(body: &Body) -> Way<'_>
    ensures { way_seen result ≡ way_of_form (form_in (out-Body body.now)) }
{
    match body {
        Body::Short {
            causal: _,
            base: _,
            subs,
            mods: _,
        } => Way::Short(subs.as_slice()),
        Body::Long {
            extending: None,
            items: _,
            external: _,
        } => Way::Long,
        Body::Long {
            extending: Some(_),
            items: _,
            external: _,
        } => Way::Nowhere,
        Body::Enumeration(_) => Way::Nowhere,
        Body::Der(_, _) => Way::Nowhere,
    }
}

/// What the dimensions of the class of a frame are found in.
fn way_of<'t>(s: &Scopes<'t>, frame: FrameId) -> Way<'t>
    requires { IsFrame s.now frame.0 }
    ensures { way_seen result ≡ way_of_row (row_of_frame s.now frame.0) }
{
    match s.row(s.class_of(frame)) {
        Some(row) => way_in(&row.class.body),
        None => Way::Nowhere,
    }
}

/// The dimensions that the class of a frame adds, with the base in which further ones are found.
pub fn step<'t>(
    alloc: Global,
    s: &mut Scopes<'t>,
    frame: FrameId,
) -> Result<Option<Onward<'t>>, NoMemory>
    requires { IsFrame s.old frame.0 }
    ensures grows { Grows s.old s.new }
    ensures value { IfOk result (λ way. option_map (onward_seen (frames_of s.new)) way ≡ step_of (table_in s.old) (frame_at s.old frame.0)) }
    ensures stand { IfOk result (λ way. IfSome way (λ on. IsFrame s.new on.base.0)) }
{
    match way_of(s, frame) {
        Way::Short(own) => short_step(alloc, s, frame, own),
        Way::Long => long_step(alloc, s, frame),
        Way::Nowhere => Ok(None),
    }
}
