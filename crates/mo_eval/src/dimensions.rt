//! The dimensions of components (Modelica Language Specification 3.5, sections 4.4.2, 7.2.5 and 10.1).
ghost use Rattle.std.specs.Prelude.{◌≡◌, ◌++◌, ℤ, [], List as Seq, Option as Optional};
ghost use Rattle.mo_syntax.specs.Outcome.{Outcome, and_then};
ghost use Rattle.mo_syntax.specs.declared.expr.Expr.{Expr as Tree};
ghost use Rattle.mo_scope.specs.Frames.{Scope};
ghost use Rattle.mo_scope.specs.Sights.{picked_in, scope_at, member_at};
ghost use Rattle.mo_scope.specs.Worlds.{Grows, IsFrame, frames_of, table_in};
ghost use Rattle.mo_names.specs.Sights.{IsMember};
ghost use Rattle.mo_typing.specs.Dims.{size};
ghost use Rattle.mo_typing.specs.Outcome.{Gives};
ghost use Rattle.mo_eval.specs.Keeping.{IsKept};
ghost use Rattle.mo_eval.specs.Components.{dim_at, dims_behind, each_dim, written_dim};
ghost use Rattle.mo_values.specs.Asked.{any_kind, layered};
ghost use Rattle.mo_eval.specs.Values.{reading, component_dims};
ghost use Rattle.mo_eval.specs.steps.Measuring.{GoesOn, bound_in, dims_more, dims_of_binding, scoped};
ghost use Rattle.mo_lookup.specs.Sizing.{AreSized, sizes_seen};

use crate::alone::{alone, whole_of};
use crate::kept::{dims_kept, keep_dims};
use crate::reader::Reader;
use crate::resolve::Site;
use mo_flat::ArrayExpr;
use mo_lookup::{Sizes, all_sizes, child_of_member, count_of};
use mo_scope::{Member, Picked, ScopeAt, Scopes, copied, pick_here};
use mo_syntax::{Broken, Expr, List, Place, Stop, broken, rules};
use mo_typing::{dims_of, kind_of, subscripts};
use mo_values::Context;
use mo_values::layers::{answer, is_index};
use std::alloc::Global;

/// A number as a dimension; one that is negative or above 4,294,967,295 breaks rule 31.
fn dimension(place: Place, n: i64) -> Result<u32, Broken>
    ensures { result ≡ size (place, n) }
{
    if n < 0 || n > 4294967295 {
        return Err(broken(rules::WRONG_SIZE, place));
    }
    Ok(n as u32)
}

/// The number of a dimension, which may be no answer.
fn dimension_of(place: Place, n: Result<i64, Stop>) -> Result<u32, Stop>
    ensures { (told : Outcome ℤ) → Gives n told → Gives result (and_then told (λ n. size (place, n))) }
{
    let n = n?;
    answer(dimension(place, n))
}

/// A dimension that is written.
#[cycle(resolving)]
fn written_dim<'t>(
    reader: &mut Reader<'t>,
    s: &mut Scopes<'t>,
    left: u64,
    scope: &ScopeAt,
    e: &Expr,
) -> Result<u32, Stop>
    requires frame { IsFrame s.old scope.now.frame.0 }
    requires kept { IsKept s.old reader.old }
    ensures grows { Grows s.old s.new }
    ensures kept { IsKept s.new reader.new }
    ensures exact { Gives result (written_dim (table_in s.old) (reading (table_in s.old) left) (scope_at s.old scope.now) e.now) }
{
    let site = Site {
        at: scope,
        left,
        room: u64::MAX,
        context: Context::for_value(),
    };
    let resolved = alone(reader, s, &site, e)?;
    dimension_of(e.place, whole_of(reader, s, left, e.place, &resolved))
}

/// The dimensions of an expression that binds so many of them, behind the indices that are pending.
fn dims_behind(
    alloc: Global,
    place: Place,
    pending: &[u32],
    count: usize,
    dims: List<u32>,
) -> Result<List<u32>, Stop>
    ensures { Gives result (dims_behind place pending.now count dims) }
{
    if dims.is_empty() {
        if !pending.is_empty() {
            return Err(Stop::Broken(broken(rules::WRONG_EACH, place)));
        }
        if count == 0 {
            return Ok(dims);
        }
        return Err(Stop::Broken(broken(rules::WRONG_TYPE, place)));
    }
    if pending.len() > dims.len() || dims.len() - pending.len() != count {
        return Err(Stop::Broken(broken(rules::WRONG_TYPE, place)));
    }
    let at = pending.len();
    if !is_index(&dims.as_slice()[..at], pending) {
        return Err(Stop::Broken(broken(rules::WRONG_SIZE, place)));
    }
    Ok(copied(alloc, &dims.as_slice()[at..])?)
}

/// Asks an expression of any kind that binds so many dimensions, and gives these.
fn bound_dims(
    alloc: Global,
    place: Place,
    pending: &[u32],
    count: usize,
    e: &ArrayExpr,
) -> Result<List<u32>, Stop>
    ensures { Gives result (layered any_kind (dims_behind place pending.now count) e.now) }
{
    answer(kind_of(e))?;
    let dims = dims_of(alloc, e)?;
    let fitted = dims_behind(alloc, place, pending, count, dims)?;
    subscripts(alloc, e)?;
    Ok(fitted)
}

/// The dimensions of a binding.
#[cycle(resolving)]
fn dims_in<'t>(
    reader: &mut Reader<'t>,
    s: &mut Scopes<'t>,
    left: u64,
    picked: &Picked,
    count: usize,
) -> Result<List<u32>, Stop>
    requires frame { IsFrame s.old picked.now.scope.now.frame.0 }
    requires kept { IsKept s.old reader.old }
    ensures grows { Grows s.old s.new }
    ensures kept { IsKept s.new reader.new }
    ensures exact { Gives result (dims_of_binding (table_in s.old) (reading (table_in s.old) left) count (picked_in (frames_of s.old) picked.now)) }
{
    let e = picked.value;
    let site = Site {
        at: picked.scope,
        left,
        room: u64::MAX,
        context: Context::for_value(),
    };
    let resolved = alone(reader, s, &site, e)?;
    bound_dims(
        reader.alloc,
        e.place,
        picked.pending,
        count,
        &resolved.expression,
    )
}

/// The component whose dimensions are found: how many there are, and how many references may still be read.
#[derive(Drop)]
pub(crate) struct Measured<'a, 't> {
    left: u64,
    member: &'a Member<'t>,
    count: usize,
}

/// The dimensions of the binding of a component.
#[cycle(resolving)]
fn binding_dims<'t>(
    reader: &mut Reader<'t>,
    s: &mut Scopes<'t>,
    of: &Measured<'_, 't>,
) -> Result<List<u32>, Stop>
    requires member { IsMember s.old of.now.member.now }
    requires kept { IsKept s.old reader.old }
    ensures grows { Grows s.old s.new }
    ensures kept { IsKept s.new reader.new }
    ensures exact { Gives result (bound_in s.old of.now) }
{
    let child = child_of_member(reader.alloc, s, of.member, &[])?;
    match pick_here(child.sources.as_slice()) {
        None => Err(Stop::Broken(broken(rules::NO_VALUE, of.member.declares.place))),
        Some(picked) => dims_in(reader, s, of.left, &picked, of.count),
    }
}

/// The dimension with so many before it: as it is written, or for `:` that of the same place in the binding.
#[cycle(resolving)]
fn dim_at<'t>(
    reader: &mut Reader<'t>,
    s: &mut Scopes<'t>,
    of: &Measured<'_, 't>,
    scope: &ScopeAt,
    place: usize,
    sub: &Option<Expr>,
) -> Result<u32, Stop>
    requires member { IsMember s.old of.now.member.now }
    requires frame { IsFrame s.old scope.now.frame.0 }
    requires kept { IsKept s.old reader.old }
    ensures grows { Grows s.old s.new }
    ensures kept { IsKept s.new reader.new }
    ensures exact { Gives result (dim_at (table_in s.old) (reading (table_in s.old) of.now.left) (bound_in s.old of.now) (scope_at s.old scope.now) place sub.now) }
{
    match sub {
        Some(e) => written_dim(reader, s, of.left, scope, e),
        None => {
            let dims = binding_dims(reader, s, of)?;
            match dims.get(place) {
                Some(n) => Ok(*n),
                None => Ok(0),
            }
        }
    }
}

/// Puts dimensions of one scope at the end.
#[cycle(resolving)]
fn put_dims<'t>(
    reader: &mut Reader<'t>,
    s: &mut Scopes<'t>,
    of: &Measured<'_, 't>,
    sizes: &Sizes<'t>,
    made: &mut List<u32>,
) -> Result<(), Stop>
    requires member { IsMember s.old of.now.member.now }
    requires frame { IsFrame s.old sizes.now.scope.frame.0 }
    requires kept { IsKept s.old reader.old }
    ensures grows { Grows s.old s.new }
    ensures kept { IsKept s.new reader.new }
    ensures exact { (others : Seq (Scope × Optional Tree)) → GoesOn result (dims_more (table_in s.old) (reading (table_in s.old) of.now.left) (bound_in s.old of.now) made.old (scoped (scope_at s.old sizes.now.scope) sizes.now.subscripts.now ++ others)) (λ _. dims_more (table_in s.old) (reading (table_in s.old) of.now.left) (bound_in s.old of.now) made.new others) }
{
    for sub in sizes.subscripts {
        let n = dim_at(reader, s, of, &sizes.scope, made.len(), sub)?;
        made.push(n)?;
    }
    Ok(())
}

/// All dimensions that are written.
#[cycle(resolving)]
fn all_dims<'t>(
    reader: &mut Reader<'t>,
    s: &mut Scopes<'t>,
    of: &Measured<'_, 't>,
    sizes: &[Sizes<'t>],
) -> Result<List<u32>, Stop>
    requires member { IsMember s.old of.now.member.now }
    requires there { AreSized s.old sizes.now }
    requires kept { IsKept s.old reader.old }
    ensures grows { Grows s.old s.new }
    ensures kept { IsKept s.new reader.new }
    ensures exact { Gives result (dims_more (table_in s.old) (reading (table_in s.old) of.now.left) (bound_in s.old of.now) [] (each_dim (sizes_seen (frames_of s.old) sizes.now))) }
{
    let mut made = List::new(reader.alloc);
    for one in sizes {
        put_dims(reader, s, of, one, &mut made)?;
    }
    Ok(made)
}

/// The dimensions of a component, where so many references may still be read.
#[cycle(resolving)]
pub(crate) fn dims<'t>(
    reader: &mut Reader<'t>,
    s: &mut Scopes<'t>,
    left: u64,
    member: &Member<'t>,
) -> Result<List<u32>, Stop>
    requires member { IsMember s.old member.now }
    requires kept { IsKept s.old reader.old }
    ensures grows { Grows s.old s.new }
    ensures kept { IsKept s.new reader.new }
    ensures exact { Gives result (component_dims (table_in s.old) left (member_at s.old member.now)) }
{
    if let Some(known) = dims_kept(reader, left, member)? {
        return Ok(known);
    }
    let sizes = all_sizes(reader.alloc, s, member)?;
    let count = count_of(sizes.as_slice())?;
    let of = Measured {
        left,
        member,
        count,
    };
    let dims = all_dims(reader, s, &of, sizes.as_slice())?;
    keep_dims(reader, left, member, dims.as_slice())?;
    Ok(dims)
}
