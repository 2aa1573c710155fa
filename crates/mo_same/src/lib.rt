//! Whether two expressions are one tree with the same places. References cannot be compared, so trees are; two that were read at different
//! places differ at once.
#![tactic(auto)]

ghost use Rattle.std.specs.Prelude.{◌≡◌, [], IsTrue};
ghost use Rattle.mo_syntax.specs.declared.expr.Args.{out-Args};

use mo_syntax::{Arg, Args, Callee, Expr, Factor, Node, Part, Place, Reference, Term};

fn is_same_place(a: Place, b: Place) -> bool
    ensures { IsTrue result → a ≡ b }
{
    a.file == b.file && a.byte == b.byte
}

#[cycle(same)]
fn is_same_option(a: &Option<Expr>, b: &Option<Expr>) -> bool
    ensures { IsTrue result → a.now ≡ b.now }
{
    match (a, b) {
        (None, None) => true,
        (Some(a), Some(b)) => is_same(a, b),
        _ => false,
    }
}

#[cycle(same)]
fn are_same_options(a: &[Option<Expr>], b: &[Option<Expr>]) -> bool
    ensures { IsTrue result → a.now ≡ b.now }
{
    if a.len() != b.len() {
        return false;
    }
    for k in 0..a.len() {
        if !is_same_option(&a[k], &b[k]) {
            return false;
        }
    }
    true
}

#[cycle(same)]
fn are_same(a: &[Expr], b: &[Expr]) -> bool
    ensures { IsTrue result → a.now ≡ b.now }
{
    if a.len() != b.len() {
        return false;
    }
    for k in 0..a.len() {
        if !is_same(&a[k], &b[k]) {
            return false;
        }
    }
    true
}

#[cycle(same)]
fn is_same_part(a: &Part, b: &Part) -> bool
    ensures { IsTrue result → a.now ≡ b.now }
{
    if !is_same_place(a.place, b.place) || !a.name.equals(&b.name) {
        return false;
    }
    are_same_options(a.subs.as_slice(), b.subs.as_slice())
}

#[cycle(same)]
fn are_same_parts(a: &[Part], b: &[Part]) -> bool
    ensures { IsTrue result → a.now ≡ b.now }
{
    if a.len() != b.len() {
        return false;
    }
    for k in 0..a.len() {
        if !is_same_part(&a[k], &b[k]) {
            return false;
        }
    }
    true
}

#[cycle(same)]
fn is_same_reference(a: &Reference, b: &Reference) -> bool
    ensures { IsTrue result → a.now ≡ b.now }
{
    a.top == b.top && are_same_parts(a.parts.as_slice(), b.parts.as_slice())
}

#[cycle(same)]
fn is_same_term(a: &Term, b: &Term) -> bool
    ensures { IsTrue result → a.now ≡ b.now }
{
    if a.minus != b.minus || a.dotted != b.dotted {
        return false;
    }
    is_same(&a.value, &b.value)
}

#[cycle(same)]
fn are_same_terms(a: &[Term], b: &[Term]) -> bool
    ensures { IsTrue result → a.now ≡ b.now }
{
    if a.len() != b.len() {
        return false;
    }
    for k in 0..a.len() {
        if !is_same_term(&a[k], &b[k]) {
            return false;
        }
    }
    true
}

#[cycle(same)]
fn is_same_factor(a: &Factor, b: &Factor) -> bool
    ensures { IsTrue result → a.now ≡ b.now }
{
    if a.divide != b.divide || a.dotted != b.dotted {
        return false;
    }
    is_same(&a.value, &b.value)
}

#[cycle(same)]
fn are_same_factors(a: &[Factor], b: &[Factor]) -> bool
    ensures { IsTrue result → a.now ≡ b.now }
{
    if a.len() != b.len() {
        return false;
    }
    for k in 0..a.len() {
        if !is_same_factor(&a[k], &b[k]) {
            return false;
        }
    }
    true
}

#[cycle(same)]
fn is_same_argument(a: &Arg, b: &Arg) -> bool
    ensures { IsTrue result → a.now ≡ b.now }
{
    match (a, b) {
        (Arg::Value(a), Arg::Value(b)) => is_same(a, b),
        _ => false,
    }
}

#[cycle(same)]
fn are_same_arguments(a: &[Arg], b: &[Arg]) -> bool
    ensures { IsTrue result → a.now ≡ b.now }
{
    if a.len() != b.len() {
        return false;
    }
    for k in 0..a.len() {
        if !is_same_argument(&a[k], &b[k]) {
            return false;
        }
    }
    true
}

/// Whether a function is called by the same name.
#[cycle(same)]
fn is_same_callee(a: &Callee, b: &Callee) -> bool
    ensures { IsTrue result → a.now ≡ b.now }
{
    match (a, b) {
        (Callee::Named(a), Callee::Named(b)) => is_same_reference(a, b),
        _ => false,
    }
}

/// Whether arguments have neither names nor iteration variables.
fn are_plain(args: &Args) -> bool
    ensures named { IsTrue result → (out-Args args.now).named ≡ [] }
    ensures iters { IsTrue result → (out-Args args.now).iters ≡ [] }
{
    args.named.is_empty() && args.iters.is_empty()
}

/// Whether these are the same arguments without names.
#[cycle(same)]
fn are_same_plain(a: &Args, b: &Args) -> bool
    ensures { IsTrue result → a.now ≡ b.now }
{
    if !are_plain(a) || !are_plain(b) {
        return false;
    }
    are_same_arguments(a.plain.as_slice(), b.plain.as_slice())
}

#[cycle(same)]
fn is_same_node(a: &Node, b: &Node) -> bool
    ensures { IsTrue result → a.now ≡ b.now }
{
    match (a, b) {
        (Node::Whole(a), Node::Whole(b)) => *a == *b,
        (Node::Decimal(a), Node::Decimal(b)) => a.equals(b),
        (Node::Str(a), Node::Str(b)) => a.equals(b),
        (Node::Truth(a), Node::Truth(b)) => *a == *b,
        (Node::Ref(a), Node::Ref(b)) => is_same_reference(a, b),
        (Node::Sum(a), Node::Sum(b)) => are_same_terms(a.as_slice(), b.as_slice()),
        (Node::Product(a), Node::Product(b)) => are_same_factors(a.as_slice(), b.as_slice()),
        (Node::Power(a, dotted, by), Node::Power(b, other, exponent)) => {
            is_same(a, b) && *dotted == *other && is_same(by, exponent)
        }
        (Node::Range(a, step, to), Node::Range(b, other, end)) => {
            is_same(a, b) && is_same_option(step, other) && is_same(to, end)
        }
        (Node::Array(a), Node::Array(b)) => are_same(a.as_slice(), b.as_slice()),
        (Node::Call(name, args), Node::Call(other, others)) => {
            is_same_callee(name, other) && are_same_plain(args, others)
        }
        _ => false,
    }
}

/// Whether two expressions are known to be one tree with the same places. Of literals, names, sums, products, powers, ranges, lists `{..}` and
/// calls without named arguments it is known, of other forms it is not.
#[cycle(same)]
pub fn is_same(a: &Expr, b: &Expr) -> bool
    ensures { IsTrue result → a.now ≡ b.now }
{
    is_same_place(a.place, b.place) && is_same_node(a.node.get(), b.node.get())
}

/// Whether an expression is a literal or a name.
fn is_operand(e: &Expr) -> bool {
    match e.node.get() {
        Node::Whole(_) | Node::Decimal(_) | Node::Str(_) | Node::Truth(_) | Node::Ref(_) => true,
        _ => false,
    }
}

/// Whether an expression has no more nodes than a sum or a product of two literals or names, so that it is soon compared.
pub fn is_short(e: &Expr) -> bool {
    match e.node.get() {
        Node::Sum(terms) => match terms.as_slice() {
            [a] => is_operand(&a.value),
            [a, b] => is_operand(&a.value) && is_operand(&b.value),
            _ => false,
        },
        Node::Product(factors) => match factors.as_slice() {
            [a, b] => is_operand(&a.value) && is_operand(&b.value),
            _ => false,
        },
        _ => is_operand(e),
    }
}
