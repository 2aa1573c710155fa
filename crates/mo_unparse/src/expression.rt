//! Expressions in pieces.
//!
//! One function for each kind of part and of list, all in one cycle.
ghost use Rattle.std.specs.Prelude.{◌≡◌, [], ◌∷◌, ◌++◌, codes, IfOk, OnOk};
ghost use Rattle.mo_pieces.specs.Pieces.{a_mark, a_word, a_blank};
ghost use Rattle.mo_pieces.specs.Gathered.{gathered};
ghost use Rattle.mo_pieces.specs.Text.{text_of as text_of_pieces};
ghost use Rattle.mo_unparse.specs.ReadAgain.{IsReadAgain};
ghost use Rattle.mo_pieces.specs.ShownExpressions.{a_semicolon, branch_pieces, callee_pieces, chain_pieces, commas, factors_pieces, in_braces, in_brackets, in_parentheses, in_row, iterators_pieces, joined_by, named_pieces, operand, output_pieces, part_pieces, pieces_of_arg, pieces_of_args, pieces_of_expr, pieces_of_indices, pieces_of_node, pieces_of_outputs, pieces_of_reference, pieces_of_subscripts, power_mark, range_pieces, relation_mark, row_pieces, shown_expr, spaced, step_pieces, subscript_pieces, terms_pieces};

use mo_pieces::{
    Pieces, comma_between, dot_between, dot_where, level, mark_of_relation, separate,
    separate_rows, spaced_mark, spaced_word, text_of, word_between, write_branch_word,
    write_power_mark, write_sign, write_times,
};
use mo_syntax::{
    Arg, Args, Branch, Callee, Expr, Factor, Index, List, NoMemory, Node, Part, Reference, RelOp,
    Term, Text,
};
use std::alloc::Global;

/// The source text of an expression. Where tokens of a text spell the expression, the text is read again to it, places aside.
/// `NoMemory` is the only other answer.
pub fn expr_text(alloc: Global, e: &Expr) -> Result<Text, NoMemory>
    ensures text { IfOk result (λ t. t ≡ text_of_pieces (pieces_of_expr e.now)) }
    ensures read { IfOk result (λ t. IsReadAgain t e.now) }
{
    let mut pieces = Pieces::new(alloc);
    write_expr(&mut pieces, e)?;
    text_of(alloc, &pieces)
}

/// Writes an expression without parentheses around it.
#[cycle(expression)]
pub(crate) fn write_expr<'t>(out: &mut Pieces<'t>, e: &'t Expr) -> Result<(), NoMemory>
    ensures { OnOk result (gathered out.new ≡ gathered out.old ++ pieces_of_expr e.now) }
{
    write_node(out, e.node.get())
}

/// Writes an operand, in parentheses where it binds more loosely than is wanted.
#[cycle(expression)]
pub(crate) fn write_operand<'t>(
    out: &mut Pieces<'t>,
    e: &'t Expr,
    wanted: u8,
) -> Result<(), NoMemory>
    ensures { OnOk result (gathered out.new ≡ gathered out.old ++ operand wanted (shown_expr e.now)) }
{
    if level(e.node.get()) < wanted {
        out.mark("(")?;
        write_expr(out, e)?;
        out.mark(")")
    } else {
        write_expr(out, e)
    }
}

#[cycle(expression)]
#[tactic(auto, using(crate::proofs::ExpressionForms::forms))]
fn write_node<'t>(out: &mut Pieces<'t>, node: &'t Node) -> Result<(), NoMemory>
    ensures { OnOk result (gathered out.new ≡ gathered out.old ++ pieces_of_node node.now) }
{
    match node {
        Node::Whole(value) => out.whole(*value),
        Node::Decimal(text) => out.decimal(text.as_str()),
        Node::Str(text) => out.quoted(text.as_str()),
        Node::Truth(true) => out.word("true"),
        Node::Truth(false) => out.word("false"),
        Node::EndMark => out.word("end"),
        Node::Ref(reference) => write_reference(out, reference),
        Node::Sum(terms) => write_terms(out, terms.as_slice()),
        Node::Product(factors) => write_factors(out, factors.as_slice()),
        Node::Power(base, dotted, exponent) => write_power(out, base, *dotted, exponent),
        Node::Relation(op, left, right) => write_relation(out, *op, left, right),
        Node::Not(inner) => write_not(out, inner),
        Node::All(operands) => write_chain(out, "and", 4, operands.as_slice()),
        Node::Any(operands) => write_chain(out, "or", 3, operands.as_slice()),
        Node::Range(first, step, last) => {
            write_operand(out, first, 2)?;
            out.mark(":")?;
            write_step(out, step)?;
            write_operand(out, last, 2)
        }
        Node::If(branches, last) => write_if(out, branches.as_slice(), last),
        Node::Call(callee, args) => write_call(out, callee, args),
        Node::Tuple(outputs) => write_tuple(out, outputs.as_slice()),
        Node::Array(elements) => write_array(out, elements.as_slice()),
        Node::ArrayFor(e, iterators) => {
            out.mark("{")?;
            write_expr(out, e)?;
            write_iterators(out, iterators.as_slice())?;
            out.mark("}")
        }
        Node::Matrix(rows) => write_matrix(out, rows.as_slice()),
    }
}

#[cycle(expression)]
fn write_power<'t>(
    out: &mut Pieces<'t>,
    base: &'t Expr,
    dotted: bool,
    exponent: &'t Expr,
) -> Result<(), NoMemory>
    ensures { OnOk result (gathered out.new ≡ gathered out.old ++ (operand 9 (shown_expr base.now) ++ power_mark dotted ++ operand 9 (shown_expr exponent.now))) }
{
    write_operand(out, base, 9)?;
    write_power_mark(out, dotted)?;
    write_operand(out, exponent, 9)
}

#[cycle(expression)]
fn write_relation<'t>(
    out: &mut Pieces<'t>,
    op: RelOp,
    left: &'t Expr,
    right: &'t Expr,
) -> Result<(), NoMemory>
    ensures { OnOk result (gathered out.new ≡ gathered out.old ++ (operand 6 (shown_expr left.now) ++ spaced (a_mark (relation_mark op)) ++ operand 6 (shown_expr right.now))) }
{
    write_operand(out, left, 6)?;
    spaced_mark(out, mark_of_relation(op))?;
    write_operand(out, right, 6)
}

#[cycle(expression)]
fn write_not<'t>(out: &mut Pieces<'t>, inner: &'t Expr) -> Result<(), NoMemory>
    ensures { OnOk result (gathered out.new ≡ gathered out.old ++ a_word (codes "not") ∷ a_blank ∷ operand 5 (shown_expr inner.now)) }
{
    out.word("not")?;
    out.blank()?;
    write_operand(out, inner, 5)
}

/// Writes the step of a range and the mark behind it.
#[cycle(expression)]
fn write_step<'t>(out: &mut Pieces<'t>, step: &'t Option<Expr>) -> Result<(), NoMemory>
    ensures { OnOk result (gathered out.new ≡ gathered out.old ++ step_pieces shown_expr step.now) }
{
    match step {
        Some(e) => {
            write_operand(out, e, 2)?;
            out.mark(":")
        }
        None => Ok(()),
    }
}

#[cycle(expression)]
fn write_if<'t>(
    out: &mut Pieces<'t>,
    branches: &'t [Branch],
    last: &'t Expr,
) -> Result<(), NoMemory>
    ensures { OnOk result (gathered out.new ≡ gathered out.old ++ (in_row (branch_pieces shown_expr) branches.now ++ spaced (a_word (codes "else")) ++ pieces_of_expr last.now)) }
{
    write_branches(out, branches)?;
    spaced_word(out, "else")?;
    write_expr(out, last)
}

#[cycle(expression)]
fn write_call<'t>(out: &mut Pieces<'t>, callee: &'t Callee, args: &'t Args) -> Result<(), NoMemory>
    ensures { OnOk result (gathered out.new ≡ gathered out.old ++ (callee_pieces shown_expr callee.now ++ pieces_of_args args.now)) }
{
    write_callee(out, callee)?;
    write_args(out, args)
}

#[cycle(expression)]
fn write_callee<'t>(out: &mut Pieces<'t>, callee: &'t Callee) -> Result<(), NoMemory>
    ensures { OnOk result (gathered out.new ≡ gathered out.old ++ callee_pieces shown_expr callee.now) }
{
    match callee {
        Callee::Named(reference) => write_reference(out, reference),
        Callee::Der => out.word("der"),
        Callee::Initial => out.word("initial"),
        Callee::Pure => out.word("pure"),
    }
}

#[cycle(expression)]
fn write_tuple<'t>(out: &mut Pieces<'t>, outputs: &'t [Option<Expr>]) -> Result<(), NoMemory>
    ensures { OnOk result (gathered out.new ≡ gathered out.old ++ in_parentheses (pieces_of_outputs outputs.now)) }
{
    out.mark("(")?;
    write_outputs(out, outputs)?;
    out.mark(")")
}

#[cycle(expression)]
fn write_array<'t>(out: &mut Pieces<'t>, elements: &'t [Expr]) -> Result<(), NoMemory>
    ensures { OnOk result (gathered out.new ≡ gathered out.old ++ in_braces (row_pieces shown_expr elements.now)) }
{
    out.mark("{")?;
    write_row(out, elements)?;
    out.mark("}")
}

#[cycle(expression)]
fn write_matrix<'t>(out: &mut Pieces<'t>, rows: &'t [List<Expr>]) -> Result<(), NoMemory>
    ensures { OnOk result (gathered out.new ≡ gathered out.old ++ in_brackets (joined_by a_semicolon (row_pieces shown_expr) rows.now)) }
{
    out.mark("[")?;
    write_rows(out, rows)?;
    out.mark("]")
}

#[cycle(expression)]
fn write_terms<'t>(out: &mut Pieces<'t>, terms: &'t [Term]) -> Result<(), NoMemory>
    ensures { OnOk result (gathered out.new ≡ gathered out.old ++ terms_pieces shown_expr terms.now) }
{
    let mut first = true;
    for term in terms {
        write_sign(out, first, term.minus, term.dotted)?;
        write_operand(out, &term.value, 7)?;
        first = false;
    }
    Ok(())
}

#[cycle(expression)]
fn write_factors<'t>(out: &mut Pieces<'t>, factors: &'t [Factor]) -> Result<(), NoMemory>
    ensures { OnOk result (gathered out.new ≡ gathered out.old ++ factors_pieces shown_expr factors.now) }
{
    let mut first = true;
    for factor in factors {
        write_times(out, first, factor.divide, factor.dotted)?;
        write_operand(out, &factor.value, 8)?;
        first = false;
    }
    Ok(())
}

/// Writes the operands of `and` or `or`.
#[cycle(expression)]
fn write_chain<'t>(
    out: &mut Pieces<'t>,
    word: &'t str,
    wanted: u8,
    operands: &'t [Expr],
) -> Result<(), NoMemory>
    ensures { OnOk result (gathered out.new ≡ gathered out.old ++ chain_pieces word.now wanted shown_expr operands.now) }
{
    let mut first = true;
    for e in operands {
        word_between(out, first, word)?;
        write_operand(out, e, wanted)?;
        first = false;
    }
    Ok(())
}

#[cycle(expression)]
fn write_branches<'t>(out: &mut Pieces<'t>, branches: &'t [Branch]) -> Result<(), NoMemory>
    ensures { OnOk result (gathered out.new ≡ gathered out.old ++ in_row (branch_pieces shown_expr) branches.now) }
{
    let mut first = true;
    for branch in branches {
        write_branch_word(out, first)?;
        write_expr(out, &branch.condition)?;
        spaced_word(out, "then")?;
        write_expr(out, &branch.value)?;
        first = false;
    }
    Ok(())
}

/// Writes expressions with a comma between each two.
#[cycle(expression)]
fn write_row<'t>(out: &mut Pieces<'t>, row: &'t [Expr]) -> Result<(), NoMemory>
    ensures { OnOk result (gathered out.new ≡ gathered out.old ++ row_pieces shown_expr row.now) }
{
    let mut first = true;
    for e in row {
        separate(out, first)?;
        write_expr(out, e)?;
        first = false;
    }
    Ok(())
}

/// Writes the rows of a matrix.
#[cycle(expression)]
fn write_rows<'t>(out: &mut Pieces<'t>, rows: &'t [List<Expr>]) -> Result<(), NoMemory>
    ensures { OnOk result (gathered out.new ≡ gathered out.old ++ joined_by a_semicolon (row_pieces shown_expr) rows.now) }
{
    let mut first = true;
    for row in rows {
        separate_rows(out, first)?;
        write_row(out, row.as_slice())?;
        first = false;
    }
    Ok(())
}

/// Writes the outputs of an equation or a call, without the parentheses around them.
#[cycle(expression)]
pub(crate) fn write_outputs<'t>(
    out: &mut Pieces<'t>,
    outputs: &'t [Option<Expr>],
) -> Result<(), NoMemory>
    ensures { OnOk result (gathered out.new ≡ gathered out.old ++ pieces_of_outputs outputs.now) }
{
    let mut first = true;
    for output in outputs {
        separate(out, first)?;
        write_output(out, output)?;
        first = false;
    }
    Ok(())
}

#[cycle(expression)]
fn write_output<'t>(out: &mut Pieces<'t>, output: &'t Option<Expr>) -> Result<(), NoMemory>
    ensures { OnOk result (gathered out.new ≡ gathered out.old ++ output_pieces shown_expr output.now) }
{
    match output {
        Some(e) => write_expr(out, e),
        None => Ok(()),
    }
}

/// Writes a component reference.
#[cycle(expression)]
pub(crate) fn write_reference<'t>(
    out: &mut Pieces<'t>,
    reference: &'t Reference,
) -> Result<(), NoMemory>
    ensures { OnOk result (gathered out.new ≡ gathered out.old ++ pieces_of_reference reference.now) }
{
    dot_where(out, reference.top)?;
    write_parts(out, reference.parts.as_slice())
}

#[cycle(expression)]
fn write_parts<'t>(out: &mut Pieces<'t>, parts: &'t [Part]) -> Result<(), NoMemory>
    ensures { OnOk result (gathered out.new ≡ gathered out.old ++ joined_by (a_mark (codes ".") ∷ []) (part_pieces shown_expr) parts.now) }
{
    let mut first = true;
    for part in parts {
        dot_between(out, first)?;
        out.name(part.name.as_str())?;
        write_subscripts(out, part.subs.as_slice())?;
        first = false;
    }
    Ok(())
}

/// Writes subscripts in their brackets, nothing where there are none.
#[cycle(expression)]
pub(crate) fn write_subscripts<'t>(
    out: &mut Pieces<'t>,
    subscripts: &'t [Option<Expr>],
) -> Result<(), NoMemory>
    ensures { OnOk result (gathered out.new ≡ gathered out.old ++ pieces_of_subscripts subscripts.now) }
{
    if subscripts.is_empty() {
        return Ok(());
    }
    out.mark("[")?;
    write_subscript_list(out, subscripts)?;
    out.mark("]")
}

#[cycle(expression)]
fn write_subscript_list<'t>(
    out: &mut Pieces<'t>,
    subscripts: &'t [Option<Expr>],
) -> Result<(), NoMemory>
    ensures { OnOk result (gathered out.new ≡ gathered out.old ++ commas (subscript_pieces shown_expr) subscripts.now) }
{
    let mut first = true;
    for subscript in subscripts {
        separate(out, first)?;
        write_subscript(out, subscript)?;
        first = false;
    }
    Ok(())
}

#[cycle(expression)]
fn write_subscript<'t>(out: &mut Pieces<'t>, subscript: &'t Option<Expr>) -> Result<(), NoMemory>
    ensures { OnOk result (gathered out.new ≡ gathered out.old ++ subscript_pieces shown_expr subscript.now) }
{
    match subscript {
        Some(e) => write_expr(out, e),
        None => out.mark(":"),
    }
}

/// Writes `for` and iterators behind it, nothing where there are none.
#[cycle(expression)]
fn write_iterators<'t>(out: &mut Pieces<'t>, iterators: &'t [Index]) -> Result<(), NoMemory>
    ensures { OnOk result (gathered out.new ≡ gathered out.old ++ iterators_pieces shown_expr iterators.now) }
{
    if iterators.is_empty() {
        return Ok(());
    }
    spaced_word(out, "for")?;
    write_indices(out, iterators)
}

/// Writes the iterators behind a `for`.
#[cycle(expression)]
pub(crate) fn write_indices<'t>(out: &mut Pieces<'t>, indices: &'t [Index]) -> Result<(), NoMemory>
    ensures { OnOk result (gathered out.new ≡ gathered out.old ++ pieces_of_indices indices.now) }
{
    let mut first = true;
    for index in indices {
        separate(out, first)?;
        out.name(index.name.as_str())?;
        write_index_range(out, &index.range)?;
        first = false;
    }
    Ok(())
}

#[cycle(expression)]
fn write_index_range<'t>(out: &mut Pieces<'t>, range: &'t Option<Expr>) -> Result<(), NoMemory>
    ensures { OnOk result (gathered out.new ≡ gathered out.old ++ range_pieces shown_expr range.now) }
{
    match range {
        Some(e) => {
            spaced_word(out, "in")?;
            write_expr(out, e)
        }
        None => Ok(()),
    }
}

/// Writes the arguments of a call in their parentheses.
#[cycle(expression)]
#[tactic(auto, using(crate::proofs::ExpressionForms::forms))]
pub(crate) fn write_args<'t>(out: &mut Pieces<'t>, args: &'t Args) -> Result<(), NoMemory>
    ensures { OnOk result (gathered out.new ≡ gathered out.old ++ pieces_of_args args.now) }
{
    let plain = args.plain.as_slice();
    let named = args.named.as_slice();
    out.mark("(")?;
    write_plain(out, plain)?;
    comma_between(out, plain.is_empty(), named.is_empty())?;
    write_named(out, named)?;
    write_iterators(out, args.iters.as_slice())?;
    out.mark(")")
}

/// Writes one argument.
#[cycle(expression)]
#[tactic(auto, using(crate::proofs::ExpressionForms::forms))]
fn write_arg<'t>(out: &mut Pieces<'t>, arg: &'t Arg) -> Result<(), NoMemory>
    ensures { OnOk result (gathered out.new ≡ gathered out.old ++ pieces_of_arg arg.now) }
{
    match arg {
        Arg::Value(e) => write_expr(out, e),
        Arg::Partial(function, named) => {
            out.word("function")?;
            out.blank()?;
            write_reference(out, function)?;
            out.mark("(")?;
            write_named(out, named.as_slice())?;
            out.mark(")")
        }
    }
}

#[cycle(expression)]
fn write_plain<'t>(out: &mut Pieces<'t>, plain: &'t [Arg]) -> Result<(), NoMemory>
    ensures { OnOk result (gathered out.new ≡ gathered out.old ++ commas pieces_of_arg plain.now) }
{
    let mut first = true;
    for arg in plain {
        separate(out, first)?;
        write_arg(out, arg)?;
        first = false;
    }
    Ok(())
}

#[cycle(expression)]
fn write_named<'t>(out: &mut Pieces<'t>, named: &'t [(Text, Arg)]) -> Result<(), NoMemory>
    ensures { OnOk result (gathered out.new ≡ gathered out.old ++ commas (named_pieces pieces_of_arg) named.now) }
{
    let mut first = true;
    for arg in named {
        separate(out, first)?;
        out.name(arg.0.as_str())?;
        spaced_mark(out, "=")?;
        write_arg(out, &arg.1)?;
        first = false;
    }
    Ok(())
}
