//! The values that sources give.
ghost use Rattle.std.specs.Prelude.{◌≡◌, option_copied};
ghost use Rattle.mo_scope.specs.Parts.{held, nested};
ghost use Rattle.mo_scope.specs.Sights.{given_seen};
ghost use Rattle.mo_scope.specs.Calls.{IsPickedHere};

use crate::source::{Given, Picked, Source};
use mo_syntax::{Expr, Give};

/// The value among what an argument gives, None where it redeclares.
fn given_value(give: &Give) -> Option<&Expr>
    ensures { option_copied result ≡ (nested give.now).value }
{
    match give {
        Give::Modify(_, value) => value.as_ref(),
        Give::Redeclare(_) => None,
        Give::Replaceable(_) => None,
    }
}

/// The value that stands behind the list of a source, None where names of its argument are left.
pub(crate) fn held_value<'t>(given: &Given<'t>) -> Option<&'t Expr>
    ensures { option_copied result ≡ (held (given_seen given.now)).value }
{
    match given {
        Given::Listed(modifiers) => modifiers.value,
        Given::Argued { argument, passed } => {
            if *passed < argument.name.0.len() {
                return None;
            }
            given_value(&argument.give)
        }
        Given::Replacing(_) => None,
    }
}

/// What sources give for the class that they modify: the value of the first one that has a value, with the scope where it
/// was written and the indices at which it is still to be taken. A redeclaration without a binding gives none.
pub fn pick_here<'a, 't: 'a>(sources: &'a [Source<'t>]) -> Option<Picked<'a>>
    ensures { IsPickedHere sources.now result }
{
    for source in sources {
        if let Some(value) = held_value(&source.given) {
            return Some(Picked {
                value,
                scope: &source.scope,
                pending: source.pending.as_slice(),
            });
        }
    }
    None
}
