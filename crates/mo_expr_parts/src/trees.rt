//! What the readers make of their parts.
ghost use Rattle.std.specs.Prelude.{◌≡◌, ◌≤◌, ◌+◌, ◌*◌, ◌∷◌, ◌^◌, ◌-◌, None, Some, IfOk, map, min, pos, true, false};
ghost use Rattle.mo_grammar.specs.Lexeme.{lexeme, lexemes};
ghost use Rattle.mo_expr_parts.specs.Literals.{literal_tree};
ghost use Rattle.mo_grammar.specs.Trees.{expr_at as tree_at, digits_after, part_of as part_tree, plain_part, index_of as index_tree, callee_of as callee_tree, relation_of as relation_tree, is_minus as minus_tree, term_of as term_tree, sum_tree, terms_tree, factor_of as factor_tree, product_tree, outputs_tree, args_or_none, args_given, args_iterated, given_named, given_more, partial_argument, named_argument, named_arguments, if_tree, range_tree, array_tree};

use mo_grammar::is;
use mo_syntax::TokenKind::{Decimal, Keyword, Operator, Str, Whole};
use mo_syntax::{
    Arg, Args, Boxed, Branch, Callee, Expr, Factor, Index, List, NoMemory, Node, Part, Place,
    Reference, RelOp, Term, Text, Token,
};
use mo_tables::{keywords, operators};
use std::alloc::Global;

/// Plain arguments, and the named ones behind them.
pub type Given = (List<Arg>, List<(Text, Arg)>);

/// What may follow the first expression in braces: iteration variables, or more elements.
pub type InBraces = (Option<List<Index>>, List<Expr>);

/// The node at that place.
pub fn expr_at(alloc: Global, place: Place, node: Node) -> Result<Expr, NoMemory>
    ensures { IfOk result (λ e. e ≡ tree_at place node) }
{
    Ok(Expr {
        place,
        node: Boxed::new(alloc, node)?,
    })
}

/// The first item and those behind it.
pub fn joined<T: Drop>(alloc: Global, first: T, more: List<T>) -> Result<List<T>, NoMemory>
    ensures { IfOk result (λ all. all ≡ first ∷ more) }
{
    let mut all = List::new(alloc);
    all.push(first)?;
    all.append(more)?;
    Ok(all)
}

/// The number that digits write, 2^63 - 1 where they write a greater one.
fn digits_value(digits: &[u8]) -> i64
    ensures { result ≡ pos (min (digits_after 0 digits.now) (2 ^ 63 - 1)) }
{
    let mut value = 0u64;
    for digit in digits {
        value = next_value(value, *digit);
    }
    value as i64
}

/// The value with one more digit, 2^63 - 1 where it is greater.
fn next_value(value: u64, digit: u8) -> u64
    requires { value ≤ 2 ^ 63 - 1 }
    ensures is { result ≡ min (value * 10 + (digit - 48)) (2 ^ 63 - 1) }
    ensures within { result ≤ 2 ^ 63 - 1 }
{
    let next = u128::from(value) * 10 + u128::from(digit.saturating_sub(48));
    if next < 9223372036854775807 {
        next as u64
    } else {
        9223372036854775807
    }
}

/// What a literal or `end` stands for.
pub fn literal_node(alloc: Global, token: &Token) -> Result<Node, NoMemory>
    ensures { IfOk result (λ node. node ≡ literal_tree (lexeme token.now)) }
{
    if is(token, Whole) {
        Ok(Node::Whole(digits_value(token.text.as_bytes())))
    } else if is(token, Decimal) {
        Ok(Node::Decimal(Text::from_str(alloc, token.text)?))
    } else if is(token, Str) {
        Ok(Node::Str(Text::from_str(alloc, token.text)?))
    } else if is(token, Keyword(keywords::FALSE)) {
        Ok(Node::Truth(false))
    } else if is(token, Keyword(keywords::TRUE)) {
        Ok(Node::Truth(true))
    } else {
        Ok(Node::EndMark)
    }
}

/// An identifier of a reference, with its subscripts.
pub fn part_of(alloc: Global, name: &Token, subs: List<Option<Expr>>) -> Result<Part, NoMemory>
    ensures { IfOk result (λ part. part ≡ part_tree (lexeme name.now, Some subs)) }
{
    Ok(Part {
        name: Text::from_str(alloc, name.text)?,
        place: name.place,
        subs,
    })
}

/// The identifiers, without subscripts.
pub fn plain_parts(alloc: Global, names: &[Token]) -> Result<List<Part>, NoMemory>
    ensures { IfOk result (λ parts. parts ≡ map plain_part (lexemes names.now)) }
{
    let mut parts = List::new(alloc);
    for name in names {
        parts.push(part_of(alloc, name, List::new(alloc))?)?;
    }
    Ok(parts)
}

/// An iteration variable, with its range if one is given.
pub fn index_of(alloc: Global, name: &Token, range: Option<Expr>) -> Result<Index, NoMemory>
    ensures { IfOk result (λ index. index ≡ index_tree (lexeme name.now, range)) }
{
    Ok(Index {
        name: Text::from_str(alloc, name.text)?,
        range,
    })
}

/// What a word calls.
pub fn callee_of(word: &Token) -> Callee
    ensures { result ≡ callee_tree (lexeme word.now) }
{
    if is(word, Keyword(keywords::DER)) {
        Callee::Der
    } else if is(word, Keyword(keywords::INITIAL)) {
        Callee::Initial
    } else {
        Callee::Pure
    }
}

/// The relation that a mark stands for.
pub fn relation_of(mark: &Token) -> RelOp
    ensures { result ≡ relation_tree (lexeme mark.now) }
{
    if is(mark, Operator(operators::LESS)) {
        RelOp::Less
    } else if is(mark, Operator(operators::LESS_EQUAL)) {
        RelOp::LessEqual
    } else if is(mark, Operator(operators::GREATER)) {
        RelOp::Greater
    } else if is(mark, Operator(operators::GREATER_EQUAL)) {
        RelOp::GreaterEqual
    } else if is(mark, Operator(operators::DOUBLE_EQUALS)) {
        RelOp::Equal
    } else {
        RelOp::NotEqual
    }
}

/// The term behind a sign.
pub fn term_of(sign: &Token, value: Expr) -> Term
    ensures { result ≡ term_tree (lexeme sign.now, value) }
{
    Term {
        minus: is_minus(sign),
        dotted: is(sign, Operator(operators::DOT_PLUS)) || is(sign, Operator(operators::DOT_MINUS)),
        value,
    }
}

fn is_minus(sign: &Token) -> bool
    ensures { result ≡ minus_tree (lexeme sign.now) }
{
    is(sign, Operator(operators::MINUS)) || is(sign, Operator(operators::DOT_MINUS))
}

/// A chain of terms without a sign before it.
pub fn sum_of(alloc: Global, place: Place, first: Expr, more: List<Term>) -> Result<Expr, NoMemory>
    ensures { IfOk result (λ e. e ≡ terms_tree place first more) }
{
    if more.is_empty() {
        return Ok(first);
    }
    let first = Term {
        minus: false,
        dotted: false,
        value: first,
    };
    expr_at(alloc, place, Node::Sum(joined(alloc, first, more)?))
}

/// A chain of terms behind a sign, which without it stands at the place.
pub fn signed_sum_of(
    alloc: Global,
    sign: &Token,
    place: Place,
    first: Expr,
    more: List<Term>,
) -> Result<Expr, NoMemory>
    ensures { IfOk result (λ e. e ≡ sum_tree (Some (lexeme sign.now), (place, (first, more)))) }
{
    if !is_minus(sign) {
        return sum_of(alloc, place, first, more);
    }
    let all = joined(alloc, term_of(sign, first), more)?;
    expr_at(alloc, sign.place, Node::Sum(all))
}

/// The factor behind a mark.
pub fn factor_of(mark: &Token, value: Expr) -> Factor
    ensures { result ≡ factor_tree (lexeme mark.now, value) }
{
    Factor {
        divide: is(mark, Operator(operators::SLASH)) || is(mark, Operator(operators::DOT_SLASH)),
        dotted: is(mark, Operator(operators::DOT_STAR)) || is(mark, Operator(operators::DOT_SLASH)),
        value,
    }
}

/// A chain of factors.
pub fn product_of(
    alloc: Global,
    place: Place,
    first: Expr,
    more: List<Factor>,
) -> Result<Expr, NoMemory>
    ensures { IfOk result (λ e. e ≡ product_tree (place, (first, more))) }
{
    if more.is_empty() {
        return Ok(first);
    }
    let first = Factor {
        divide: false,
        dotted: false,
        value: first,
    };
    expr_at(alloc, place, Node::Product(joined(alloc, first, more)?))
}

/// An if-expression from its first branch, the branches behind `elseif` and the value of `else`.
pub fn if_of(
    alloc: Global,
    place: Place,
    condition: Expr,
    value: Expr,
    more: List<Branch>,
    last: Expr,
) -> Result<Expr, NoMemory>
    ensures { IfOk result (λ e. e ≡ if_tree (place, (condition, (value, (more, last))))) }
{
    let branches = joined(alloc, Branch { condition, value }, more)?;
    expr_at(alloc, place, Node::If(branches, last))
}

/// A value alone, or a range that begins with it.
pub fn range_of(
    alloc: Global,
    place: Place,
    first: Expr,
    more: Option<(Expr, Option<Expr>)>,
) -> Result<Expr, NoMemory>
    ensures { IfOk result (λ e. e ≡ range_tree (place, (first, more))) }
{
    let Some((second, third)) = more else {
        return Ok(first);
    };
    match third {
        None => expr_at(alloc, place, Node::Range(first, None, second)),
        Some(third) => expr_at(alloc, place, Node::Range(first, Some(second), third)),
    }
}

/// An array from its first element and what follows that in braces.
pub fn array_of(alloc: Global, place: Place, first: Expr, more: InBraces) -> Result<Expr, NoMemory>
    ensures { IfOk result (λ e. e ≡ array_tree (place, (first, more))) }
{
    let (iterators, more) = more;
    match iterators {
        Some(iterators) => expr_at(alloc, place, Node::ArrayFor(first, iterators)),
        None => expr_at(alloc, place, Node::Array(joined(alloc, first, more)?)),
    }
}

/// What stands in parentheses: one expression for itself, all else as a list of outputs.
pub fn outputs_of(
    alloc: Global,
    place: Place,
    mut all: List<Option<Expr>>,
) -> Result<Expr, NoMemory>
    ensures { IfOk result (λ e. e ≡ outputs_tree (place, all)) }
{
    if !matches!(all.as_slice(), [Some(_)]) {
        return expr_at(alloc, place, Node::Tuple(all));
    }
    match all.pop() {
        Some(Some(value)) => Ok(value),
        _ => expr_at(alloc, place, Node::Tuple(all)),
    }
}

/// No arguments.
pub fn no_arguments(alloc: Global) -> Args
    ensures { result ≡ args_or_none None }
{
    Args {
        plain: List::new(alloc),
        named: List::new(alloc),
        iters: List::new(alloc),
    }
}

/// Named arguments alone.
pub fn named_only(alloc: Global, named: List<(Text, Arg)>) -> Args
    ensures { result ≡ args_given (given_named named) }
{
    Args {
        plain: List::new(alloc),
        named,
        iters: List::new(alloc),
    }
}

/// The first argument and those behind it, if any.
pub fn args_of(alloc: Global, first: Arg, more: Option<Given>) -> Result<Args, NoMemory>
    ensures { IfOk result (λ args. args ≡ args_given (given_more (first, more))) }
{
    let (plain, named) = match more {
        Some(more) => more,
        None => (List::new(alloc), List::new(alloc)),
    };
    Ok(Args {
        plain: joined(alloc, first, plain)?,
        named,
        iters: List::new(alloc),
    })
}

/// An argument with iteration variables.
pub fn iterated(alloc: Global, value: Expr, iters: List<Index>) -> Result<Args, NoMemory>
    ensures { IfOk result (λ args. args ≡ args_iterated (value, iters)) }
{
    let mut plain = List::new(alloc);
    plain.push(Arg::Value(value))?;
    Ok(Args {
        plain,
        named: List::new(alloc),
        iters,
    })
}

/// An argument that is given by name.
pub fn named_of(alloc: Global, name: &Token, value: Arg) -> Result<(Text, Arg), NoMemory>
    ensures { IfOk result (λ named. named ≡ named_argument (lexeme name.now, value)) }
{
    Ok((Text::from_str(alloc, name.text)?, value))
}

/// An argument that is given by name, and those behind it.
pub fn named_list_of(
    alloc: Global,
    name: &Token,
    value: Arg,
    more: List<(Text, Arg)>,
) -> Result<List<(Text, Arg)>, NoMemory>
    ensures { IfOk result (λ all. all ≡ named_arguments (lexeme name.now, (value, more))) }
{
    joined(alloc, named_of(alloc, name, value)?, more)
}

/// A function, with some of its arguments given by name.
pub fn partial(alloc: Global, function: Reference, named: Option<List<(Text, Arg)>>) -> Arg
    ensures { result ≡ partial_argument (function, named) }
{
    match named {
        Some(named) => Arg::Partial(function, named),
        None => Arg::Partial(function, List::new(alloc)),
    }
}
