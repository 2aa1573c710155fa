//! How tightly expressions bind.
ghost use Rattle.std.specs.Prelude.{◌≡◌};
ghost use Rattle.mo_pieces.specs.ShownExpressions.{shown_node};

use mo_syntax::Node;

/// The level of an expression: how tightly it binds, from 0 to 9.
pub fn level(node: &Node) -> u8
    ensures { result ≡ (shown_node node.now).level }
{
    match node {
        Node::Whole(value) => { if *value < 0 { 6 } else { 9 } }
        Node::If(_, _) => 0,
        Node::Range(_, _, _) => 1,
        Node::Any(_) => 2,
        Node::All(_) => 3,
        Node::Not(_) => 4,
        Node::Relation(_, _, _) => 5,
        Node::Sum(_) => 6,
        Node::Product(_) => 7,
        Node::Power(_, _, _) => 8,
        Node::Decimal(_) | Node::Str(_) | Node::Truth(_) | Node::Ref(_) | Node::Call(_, _) => 9,
        Node::Tuple(_) | Node::Array(_) | Node::ArrayFor(_, _) | Node::Matrix(_) => 9,
        Node::EndMark => 9,
    }
}
