//! What is called, and whether its arguments are expressions.
ghost use Rattle.std.specs.Prelude.{◌≡◌, map, is_some, Ok, List as Seq};
ghost use Rattle.mo_syntax.specs.declared.expr.Expr.{Expr as Tree};
ghost use Rattle.mo_scope.specs.Frames.{Frame, Scope};
ghost use Rattle.mo_scope.specs.Rows.{Table};
ghost use Rattle.mo_scope.specs.Worlds.{Grows, IsFrame, table_in};
ghost use Rattle.mo_names.specs.Sights.{found_in};
ghost use Rattle.mo_typing.specs.Outcome.{Gives};
ghost use Rattle.mo_eval.specs.Virtuals.{Ask};
ghost use Rattle.mo_eval.specs.Contexts.{Part as PartOf};
ghost use Rattle.mo_eval.specs.Calls.{function_found, function_named, has_subscripts, last_identifier};
ghost use Rattle.mo_eval.specs.Resolving.{all_arguments};
ghost use Rattle.mo_eval.specs.steps.Sites.{part_in, scope_of};
ghost use Rattle.mo_eval.specs.steps.Parts.{as_identifier, as_reference, made_argument, made_arguments};

use crate::resolve::Site;
use mo_lookup::find_path;
use mo_names::Found;
use mo_scope::Scopes;
use mo_syntax::{Arg, Args, Broken, Part, Place, Reference, Stop, broken, rules};
use mo_values::layers::answer;
use std::alloc::Global;

/// Whether one of the identifiers has subscripts.
fn has_subscripts(parts: &[Part]) -> bool
    ensures { (part : Tree → PartOf) → result ≡ has_subscripts (map (as_identifier part) parts.now) }
{
    for part in parts {
        if !part.subs.is_empty() {
            return true;
        }
    }
    false
}

fn last_identifier(parts: &[Part]) -> Place
    ensures { (part : Tree → PartOf) → result ≡ last_identifier (map (as_identifier part) parts.now) }
{
    let mut last = Place { file: 0, byte: 0 };
    for part in parts {
        last = part.place;
    }
    last
}

/// The function that was found. A class is left out, and so is a function with subscripts; what is neither breaks rule 13.
fn function_found(place: Place, reference: &Reference, found: &Found) -> Result<u16, Broken>
    ensures { (frames : Seq Frame) (part : Tree → PartOf) → result ≡ function_found place (as_reference part reference.now) (found_in frames found.now) }
{
    let parts = reference.parts.as_slice();
    match found {
        Found::Function(code) => {
            if has_subscripts(parts) {
                Err(broken(rules::OUTSIDE_PROFILE, place))
            } else {
                Ok(*code)
            }
        }
        Found::Class(_, _) => Err(broken(rules::OUTSIDE_PROFILE, place)),
        Found::Component(_, _) => Err(broken(rules::WRONG_KIND_OF_NAME, last_identifier(parts))),
        Found::Literal(_, _) => Err(broken(rules::WRONG_KIND_OF_NAME, last_identifier(parts))),
        Found::Iteration(_) => Err(broken(rules::WRONG_KIND_OF_NAME, last_identifier(parts))),
        Found::Time => Err(broken(rules::WRONG_KIND_OF_NAME, last_identifier(parts))),
    }
}

/// The function of that name.
pub(crate) fn function_named<'t>(
    alloc: Global,
    s: &mut Scopes<'t>,
    site: &Site,
    place: Place,
    reference: &Reference,
) -> Result<u16, Stop>
    requires frame { IsFrame s.old site.now.at.now.frame.0 }
    ensures grows { Grows s.old s.new }
    ensures exact { Gives result (function_named (table_in s.old) (scope_of s.old site.now) place (as_reference (part_in s.old site.now) reference.now)) }
{
    match find_path(alloc, s, site.at, reference, false) {
        Ok(found) => answer(function_found(place, reference, &found)),
        Err(stop) => Err(stop),
    }
}

fn are_values(args: &[Arg]) -> bool
    ensures { (table : Table) (ask : Ask) (scope : Scope) → result ≡ is_some (all_arguments (map (λ a. (a, made_argument table ask scope a)) args.now)) }
{
    for arg in args {
        match arg {
            Arg::Value(_) => {}
            Arg::Partial(_, _) => return false,
        }
    }
    true
}

/// Whether none of the arguments has a name, is a function, or is iterated.
pub(crate) fn are_plain(args: &Args) -> bool
    ensures { (table : Table) (ask : Ask) (scope : Scope) → result ≡ is_some (made_arguments table ask scope args.now) }
{
    if !args.named.is_empty() {
        return false;
    }
    if !args.iters.is_empty() {
        return false;
    }
    are_values(args.plain.as_slice())
}
