//! Elements of array literals.
ghost use Rattle.std.specs.Prelude.{◌≡◌, ℕ, IfSome, Ok, map};
ghost use Rattle.mo_syntax.specs.Outcome.{Outcome};
ghost use Rattle.mo_typing.specs.Kinds.{kind_of};
ghost use Rattle.mo_values.specs.Scalars.{Known, of_known};
ghost use Rattle.mo_values.specs.Walk.{AreKnownAlike, element_among, known_by, part_of, read_as};

use crate::operations::has_values;
use mo_flat::{ArrayExpr, ArrayNode};
use mo_syntax::Kind;

/// The part of an array literal that its first index names, with the index in it.
fn part_among<'a>(parts: &'a [ArrayExpr], index: &'a [u32]) -> Option<(&'a ArrayExpr, &'a [u32])>
    ensures { (variable : ℕ → Outcome Known) → IfSome result (λ found. element_among (map (part_of variable) parts.now) index.now ≡ read_as of_known (known_by variable found.0.now found.1.now)) }
{
    match index {
        [] => None,
        [k, rest @ ..] => {
            let place = k.saturating_sub(1) as usize;
            if place >= parts.len() {
                return None;
            }
            Some((&parts[place], rest))
        }
    }
}

/// The expression that has the element of an expression of that kind, and the index in it: of an array literal whose kind has values
/// its part, so that the kind of the literal is not asked for each of its elements; else the expression itself.
pub fn part_at<'a>(e: &'a ArrayExpr, kind: Kind, index: &'a [u32]) -> (&'a ArrayExpr, &'a [u32])
    requires { kind_of e.now ≡ Ok kind }
    ensures { AreKnownAlike result.0.now result.1.now e.now index.now }
{
    if !has_values(kind) {
        return (e, index);
    }
    let ArrayNode::Array(parts) = e.node.get() else {
        return (e, index);
    };
    match part_among(parts.as_slice(), index) {
        Some(found) => found,
        None => (e, index),
    }
}
