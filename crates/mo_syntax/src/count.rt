//! How many expressions an expression is made of.
//!
//! One function for each kind of list, all in one cycle. Each sum stays at the greatest `u64` once it is reached.
ghost use Rattle.std.specs.Prelude.{◌≡◌, ◌-◌, ◌^◌, ◌+◌, min, sum_by};
ghost use Rattle.mo_syntax.specs.Count.{count_of, count_in_node, count_in_argument, count_in_arguments, count_in_option, count_in_part, count_in_reference, count_in_callee, count_in_index};

use crate::expr::{Arg, Args, Branch, Callee, Expr, Factor, Index, Node, Part, Reference, Term};
use crate::list::List;
use crate::text::Text;

/// The number of expressions that `e` is made of, itself included: subscripts, arguments and ranges count too. Past
/// the greatest `u64` the answer is that number. Takes no memory.
#[cycle(nodes)]
pub fn nodes(e: &Expr) -> u64
    ensures { result ≡ min (count_of e.now) (2 ^ 64 - 1) }
{
    of_node(e.node.get()).saturating_add(1)
}

#[cycle(nodes)]
#[tactic(auto, using(crate::proofs::CountLemmas::levels))]
fn of_node(node: &Node) -> u64
    ensures { result ≡ min (count_in_node node.now) (2 ^ 64 - 1) }
{
    match node {
        Node::Whole(_) | Node::Decimal(_) | Node::Str(_) | Node::Truth(_) | Node::EndMark => 0,
        Node::Ref(reference) => of_reference(reference),
        Node::Sum(terms) => of_terms(terms.as_slice()),
        Node::Product(factors) => of_factors(factors.as_slice()),
        Node::Power(base, _, exponent) => nodes(base).saturating_add(nodes(exponent)),
        Node::Relation(_, left, right) => nodes(left).saturating_add(nodes(right)),
        Node::Not(operand) => nodes(operand),
        Node::All(operands) => of_exprs(operands.as_slice()),
        Node::Any(operands) => of_exprs(operands.as_slice()),
        Node::Array(elements) => of_exprs(elements.as_slice()),
        Node::Range(first, step, last) => nodes(first)
            .saturating_add(of_option(step))
            .saturating_add(nodes(last)),
        Node::If(branches, last) => of_branches(branches.as_slice()).saturating_add(nodes(last)),
        Node::Call(callee, arguments) => of_callee(callee).saturating_add(of_arguments(arguments)),
        Node::Tuple(outputs) => of_options(outputs.as_slice()),
        Node::ArrayFor(element, iterators) => nodes(element).saturating_add(of_iterators(
            iterators.as_slice(),
        )),
        Node::Matrix(rows) => of_rows(rows.as_slice()),
    }
}

#[cycle(nodes)]
fn of_option(e: &Option<Expr>) -> u64
    ensures { result ≡ min (count_in_option e.now) (2 ^ 64 - 1) }
{
    match e {
        Some(e) => nodes(e),
        None => 0,
    }
}

#[cycle(nodes)]
fn of_reference(reference: &Reference) -> u64
    ensures { result ≡ min (count_in_reference reference.now) (2 ^ 64 - 1) }
{
    of_parts(reference.parts.as_slice())
}

#[cycle(nodes)]
fn of_callee(callee: &Callee) -> u64
    ensures { result ≡ min (count_in_callee callee.now) (2 ^ 64 - 1) }
{
    match callee {
        Callee::Named(reference) => of_reference(reference),
        Callee::Der | Callee::Initial | Callee::Pure => 0,
    }
}

#[cycle(nodes)]
#[tactic(auto, using(crate::proofs::CountLemmas::levels))]
fn of_arguments(arguments: &Args) -> u64
    ensures { result ≡ min (count_in_arguments arguments.now) (2 ^ 64 - 1) }
{
    of_plain(arguments.plain.as_slice())
        .saturating_add(of_named(arguments.named.as_slice()))
        .saturating_add(of_iterators(arguments.iters.as_slice()))
}

#[cycle(nodes)]
#[tactic(auto, using(crate::proofs::CountLemmas::levels))]
fn of_argument(argument: &Arg) -> u64
    ensures { result ≡ min (count_in_argument argument.now) (2 ^ 64 - 1) }
{
    match argument {
        Arg::Value(value) => nodes(value),
        Arg::Partial(function, named) => of_reference(function).saturating_add(of_named(
            named.as_slice(),
        )),
    }
}

#[cycle(nodes)]
fn of_exprs(items: &[Expr]) -> u64
    ensures { result ≡ min (sum_by count_of items.now) (2 ^ 64 - 1) }
{
    let mut all = 0u64;
    for e in items {
        all = all.saturating_add(nodes(e));
    }
    all
}

#[cycle(nodes)]
fn of_options(items: &[Option<Expr>]) -> u64
    ensures { result ≡ min (sum_by count_in_option items.now) (2 ^ 64 - 1) }
{
    let mut all = 0u64;
    for e in items {
        all = all.saturating_add(of_option(e));
    }
    all
}

#[cycle(nodes)]
fn of_terms(items: &[Term]) -> u64
    ensures { result ≡ min (sum_by (λ t. count_of t.value) items.now) (2 ^ 64 - 1) }
{
    let mut all = 0u64;
    for term in items {
        all = all.saturating_add(nodes(&term.value));
    }
    all
}

#[cycle(nodes)]
fn of_factors(items: &[Factor]) -> u64
    ensures { result ≡ min (sum_by (λ f. count_of f.value) items.now) (2 ^ 64 - 1) }
{
    let mut all = 0u64;
    for factor in items {
        all = all.saturating_add(nodes(&factor.value));
    }
    all
}

#[cycle(nodes)]
fn of_branches(items: &[Branch]) -> u64
    ensures { result ≡ min (sum_by (λ b. count_of b.condition + count_of b.value) items.now) (2 ^ 64 - 1) }
{
    let mut all = 0u64;
    for branch in items {
        all = all.saturating_add(nodes(&branch.condition).saturating_add(nodes(&branch.value)));
    }
    all
}

#[cycle(nodes)]
fn of_parts(items: &[Part]) -> u64
    ensures { result ≡ min (sum_by count_in_part items.now) (2 ^ 64 - 1) }
{
    let mut all = 0u64;
    for part in items {
        all = all.saturating_add(of_options(part.subs.as_slice()));
    }
    all
}

#[cycle(nodes)]
fn of_iterators(items: &[Index]) -> u64
    ensures { result ≡ min (sum_by count_in_index items.now) (2 ^ 64 - 1) }
{
    let mut all = 0u64;
    for index in items {
        all = all.saturating_add(of_option(&index.range));
    }
    all
}

#[cycle(nodes)]
fn of_rows(items: &[List<Expr>]) -> u64
    ensures { result ≡ min (sum_by (λ row. sum_by count_of row) items.now) (2 ^ 64 - 1) }
{
    let mut all = 0u64;
    for row in items {
        all = all.saturating_add(of_exprs(row.as_slice()));
    }
    all
}

#[cycle(nodes)]
fn of_plain(items: &[Arg]) -> u64
    ensures { result ≡ min (sum_by count_in_argument items.now) (2 ^ 64 - 1) }
{
    let mut all = 0u64;
    for argument in items {
        all = all.saturating_add(of_argument(argument));
    }
    all
}

#[cycle(nodes)]
fn of_named(items: &[(Text, Arg)]) -> u64
    ensures { result ≡ min (sum_by (λ n. count_in_argument n.1) items.now) (2 ^ 64 - 1) }
{
    let mut all = 0u64;
    for argument in items {
        all = all.saturating_add(of_argument(&argument.1));
    }
    all
}
