//! The rules that connects can break.
ghost use Rattle.std.specs.Prelude.{◌≡◌, ◌↔◌, IsTrue, All, MatchOption, MatchResult};
ghost use Rattle.mo_flat.specs.declared.connect.Side.TheVariants.{Neither as neither};
ghost use Rattle.mo_connect.specs.Alike.{IsConnectable, Breaks, IsFirstBroken};

use crate::alike::all_alike;
use mo_flat::{Connect, Side};
use mo_syntax::{Broken, broken, rules};

/// The first rule that the connects break, connect by connect: 37 at an end that is no connector, the left one before the
/// right one; 31 at a connect of connectors of different dimensions; 38 at one of connectors whose leaves differ in their
/// names or flow prefixes. Takes no memory.
pub fn check(connects: &[Connect]) -> Result<(), Broken>
    ensures { MatchResult result (λ _. All IsConnectable connects.now) (λ b. IsFirstBroken connects.now b) }
{
    for connect in connects {
        match breach_of(connect) {
            None => {}
            Some(broken) => return Err(broken),
        }
    }
    Ok(())
}

fn is_neither(side: Side) -> bool
    ensures { IsTrue result ↔ (side ≡ neither) }
{
    match side {
        Side::Neither => true,
        Side::Inside | Side::Outside => false,
    }
}

fn breach_of(connect: &Connect) -> Option<Broken>
    ensures { MatchOption result (IsConnectable connect.now) (λ b. Breaks connect.now b) }
{
    if is_neither(connect.left.side) {
        return Some(broken(rules::NOT_A_CONNECTOR, connect.left.place));
    }
    if is_neither(connect.right.side) {
        return Some(broken(rules::NOT_A_CONNECTOR, connect.right.place));
    }
    if connect.left.dims.as_slice() != connect.right.dims.as_slice() {
        return Some(broken(rules::WRONG_SIZE, connect.place));
    }
    if !all_alike(
        connect.left.elements.as_slice(),
        connect.right.elements.as_slice(),
    ) {
        return Some(broken(rules::CONNECTORS_DIFFER, connect.place));
    }
    None
}
