//! The dimensions of components as they are written (Modelica Language Specification 3.5, sections 7.3 and 10.1).
ghost use Rattle.std.specs.Prelude.{◌≡◌, ◌++◌, [], List as Seq, option_map, IfOk, IfSome, OnOk};
ghost use Rattle.mo_scope.specs.Frames.{Frame};
ghost use Rattle.mo_scope.specs.Outcome.{Gives};
ghost use Rattle.mo_scope.specs.Rows.{component_of};
ghost use Rattle.mo_scope.specs.Sights.{declares_seen, redeclaration_in, member_at};
ghost use Rattle.mo_scope.specs.Sizes.{count_sizes, declared_sizes, sizes_if, sizes_in, type_sizes};
ghost use Rattle.mo_scope.specs.Worlds.{World, Grows, IsFrame, frame_at, frames_of, scope_in, table_in};
ghost use Rattle.mo_names.specs.Children.{IsChild, child_at};
ghost use Rattle.mo_names.specs.Sights.{IsMember, member_of};
ghost use Rattle.mo_lookup.specs.Sizing.{AreSized, all_sizes, sizes_of_child, sizes_seen};
ghost use Rattle.mo_lookup.specs.steps.Redeclared.{redeclared_sizes};

use crate::entering::child_of_member;
use crate::types::step;
use mo_names::{Child, is_busy};
use mo_scope::{Declares, Member, Redeclaration, ScopeAt, Scopes, Sort, copied_scope};
use mo_syntax::{Expr, FrameId, List, NoMemory, Stop};
use std::alloc::Global;

/// Dimensions as they are written, None for `:`, with the scope of their text.
#[derive(Drop)]
pub struct Sizes<'t> {
    pub subscripts: &'t [Option<Expr>],
    pub scope: ScopeAt,
}

/// Puts dimensions at the end, if there are some.
fn put_sizes<'t>(
    alloc: Global,
    made: &mut List<Sizes<'t>>,
    subscripts: &'t [Option<Expr>],
    scope: &ScopeAt,
) -> Result<(), NoMemory>
    ensures there { (world : World) → IsFrame world scope.now.frame.0 → AreSized world made.old → OnOk result (AreSized world made.new) }
    ensures exact { OnOk result ((frames : Seq Frame) → sizes_seen frames made.new ≡ sizes_seen frames made.old ++ sizes_if subscripts.now (scope_in frames scope.now.frame.0 scope.now.iters)) }
{
    if subscripts.is_empty() {
        return Ok(());
    }
    let scope = copied_scope(alloc, scope)?;
    made.push(Sizes { subscripts, scope })?;
    Ok(())
}

/// Puts the dimensions behind the name and the type's name of what is declared at the end.
fn put_declared<'t>(
    alloc: Global,
    made: &mut List<Sizes<'t>>,
    declares: &Declares<'t>,
    scope: &ScopeAt,
) -> Result<(), NoMemory>
    ensures there { (world : World) → IsFrame world scope.now.frame.0 → AreSized world made.old → OnOk result (AreSized world made.new) }
    ensures exact { OnOk result ((frames : Seq Frame) → sizes_seen frames made.new ≡ sizes_seen frames made.old ++ sizes_in (component_of (declares_seen declares.now)) (scope_in frames scope.now.frame.0 scope.now.iters)) }
{
    match declares.sort {
        Sort::Class {
            number: _,
            encapsulated: _,
        } => Ok(()),
        Sort::Component(component) => {
            put_sizes(alloc, made, component.subs.as_slice(), scope)?;
            put_sizes(alloc, made, component.base_subs.as_slice(), scope)?;
            Ok(())
        }
    }
}

/// The dimensions of a redeclaration, none where there is none.
fn redeclared_sizes<'t>(
    alloc: Global,
    redeclared: &Option<Redeclaration<'t>>,
) -> Result<List<Sizes<'t>>, NoMemory>
    ensures there { (world : World) → IfSome redeclared.now (λ redeclaration. IsFrame world redeclaration.source.scope.frame.0) → IfOk result (AreSized world) }
    ensures exact { IfOk result (λ made. (frames : Seq Frame) → sizes_seen frames made ≡ redeclared_sizes (option_map (redeclaration_in frames) redeclared.now)) }
{
    let mut made = List::new(alloc);
    match redeclared {
        None => Ok(made),
        Some(redeclaration) => {
            let scope = &redeclaration.source.scope;
            put_declared(alloc, &mut made, &redeclaration.declares, scope)?;
            Ok(made)
        }
    }
}

/// The declared dimensions of a component: those of the redeclaration that wins, if it has any, are in place of the original's.
fn declared<'t>(
    alloc: Global,
    member: &Member<'t>,
    redeclared: &Option<Redeclaration<'t>>,
) -> Result<List<Sizes<'t>>, NoMemory>
    ensures there { (world : World) → IsFrame world member.now.home.0 → IfSome redeclared.now (λ redeclaration. IsFrame world redeclaration.source.scope.frame.0) → IfOk result (AreSized world) }
    ensures exact { IfOk result (λ made. (frames : Seq Frame) → sizes_seen frames made ≡ declared_sizes (member_of frames member.now) (option_map (redeclaration_in frames) redeclared.now)) }
{
    let mut made = redeclared_sizes(alloc, redeclared)?;
    if !made.is_empty() {
        return Ok(made);
    }
    let scope = ScopeAt {
        frame: member.home,
        iters: List::new(alloc),
    };
    put_declared(alloc, &mut made, &member.declares, &scope)?;
    Ok(made)
}

/// The dimensions of a type: none where the way to them comes back to a class. `NoMemory` is the only other answer.
fn sizes_of_type<'t>(
    alloc: Global,
    s: &mut Scopes<'t>,
    class: FrameId,
) -> Result<List<Sizes<'t>>, NoMemory>
    requires { IsFrame s.old class.0 }
    ensures grows { Grows s.old s.new }
    ensures there { IfOk result (AreSized s.new) }
    ensures exact { IfOk result (λ made. sizes_seen (frames_of s.new) made ≡ type_sizes (table_in s.old) (frame_at s.old class.0)) }
{
    let mut left = s.class_count().checked_add(6).ok_or(NoMemory)?;
    let mut busy = List::new(alloc);
    let mut made = List::new(alloc);
    let mut frame = class;
    while left > 0 {
        let class = s.class_of(frame);
        if is_busy(busy.as_slice(), class) {
            return Ok(List::new(alloc));
        }
        busy.push(class.0)?;
        let Some(onward) = step(alloc, s, frame)? else {
            return Ok(made);
        };
        let scope = ScopeAt {
            frame,
            iters: List::new(alloc),
        };
        put_sizes(alloc, &mut made, onward.subscripts, &scope)?;
        frame = onward.base;
        left -= 1;
    }
    Ok(List::new(alloc))
}

/// The dimensions that a component with this child declares, then those of the child's class.
pub fn sizes_of<'t>(
    alloc: Global,
    s: &mut Scopes<'t>,
    member: &Member<'t>,
    child: &Child<'t>,
) -> Result<List<Sizes<'t>>, NoMemory>
    requires member { IsMember s.old member.now }
    requires child { IsChild s.old child.now }
    ensures grows { Grows s.old s.new }
    ensures there { IfOk result (AreSized s.new) }
    ensures exact { IfOk result (λ made. sizes_seen (frames_of s.new) made ≡ sizes_of_child (table_in s.old) (member_at s.old member.now) (child_at s.old child.now)) }
{
    let mut made = declared(alloc, member, &child.redeclared)?;
    let behind = sizes_of_type(alloc, s, child.class)?;
    made.append(behind)?;
    Ok(made)
}

/// The dimensions that a component declares, then those of its type. Breaks what `child_of_member` breaks.
pub fn all_sizes<'t>(
    alloc: Global,
    s: &mut Scopes<'t>,
    member: &Member<'t>,
) -> Result<List<Sizes<'t>>, Stop>
    requires member { IsMember s.old member.now }
    ensures grows { Grows s.old s.new }
    ensures there { IfOk result (AreSized s.new) }
    ensures exact { Gives (sizes_seen (frames_of s.new)) result (all_sizes (table_in s.old) (member_at s.old member.now)) }
{
    let child = child_of_member(alloc, s, member, &[])?;
    let made = sizes_of(alloc, s, member, &child)?;
    Ok(made)
}

/// How many dimensions a component may have: its elements are gone through a call for each of them.
const MOST_DIMENSIONS: usize = 256;

/// How many dimensions there are: at most 256, more are answered by want of memory.
pub fn count_of(sizes: &[Sizes]) -> Result<usize, NoMemory>
    ensures { IfOk result (λ count. (frames : Seq Frame) → count ≡ count_sizes (sizes_seen frames sizes.now)) }
{
    let mut count = 0usize;
    for one in sizes {
        count = count.checked_add(one.subscripts.len()).ok_or(NoMemory)?;
    }
    if count > MOST_DIMENSIONS {
        return Err(NoMemory);
    }
    Ok(count)
}
