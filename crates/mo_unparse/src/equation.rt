//! Equations in pieces.
ghost use Rattle.std.specs.Prelude.{◌≡◌, ◌++◌, codes, OnOk};
ghost use Rattle.mo_pieces.specs.Pieces.{a_mark};
ghost use Rattle.mo_pieces.specs.Gathered.{gathered};
ghost use Rattle.mo_pieces.specs.Lines.{block_of, end_of, lines_of};
ghost use Rattle.mo_pieces.specs.ShownExpressions.{pieces_of_args, pieces_of_expr, pieces_of_indices, pieces_of_reference, pieces_of_simple, spaced};
ghost use Rattle.mo_pieces.specs.ShownEquations.{branch_of, branches_of, connection_of, else_of, loop_of, pieces_of_equation, pieces_of_equation_kind};

use crate::expression::{write_args, write_expr, write_indices, write_operand, write_reference};
use mo_pieces::{Pieces, line_between, separate, spaced_mark, word_of, write_end};
use mo_syntax::{Args, Equation, EquationKind, Expr, Index, List, NoMemory, Reference};

/// Writes an equality.
fn write_equality<'t>(out: &mut Pieces<'t>, left: &'t Expr, right: &'t Expr) -> Result<(), NoMemory>
    ensures { OnOk result (gathered out.new ≡ gathered out.old ++ (pieces_of_simple left.now ++ (spaced (a_mark (codes "=")) ++ pieces_of_expr right.now))) }
{
    write_operand(out, left, 1)?;
    spaced_mark(out, "=")?;
    write_expr(out, right)
}

/// Writes a connection of two connectors.
fn write_connection<'t>(
    out: &mut Pieces<'t>,
    one: &'t Reference,
    other: &'t Reference,
) -> Result<(), NoMemory>
    ensures { OnOk result (gathered out.new ≡ gathered out.old ++ connection_of one.now other.now) }
{
    out.word("connect")?;
    out.mark("(")?;
    write_reference(out, one)?;
    separate(out, false)?;
    write_reference(out, other)?;
    out.mark(")")
}

/// Writes a call.
pub(crate) fn write_call_of<'t>(
    out: &mut Pieces<'t>,
    called: &'t Reference,
    args: &'t Args,
) -> Result<(), NoMemory>
    ensures { OnOk result (gathered out.new ≡ gathered out.old ++ (pieces_of_reference called.now ++ pieces_of_args args.now)) }
{
    write_reference(out, called)?;
    write_args(out, args)
}

/// Writes equations, each on a line of its own.
#[cycle(equations)]
pub(crate) fn write_equations<'t>(
    out: &mut Pieces<'t>,
    equations: &'t [Equation],
) -> Result<(), NoMemory>
    ensures { OnOk result (gathered out.new ≡ gathered out.old ++ lines_of pieces_of_equation equations.now) }
{
    for equation in equations {
        out.line()?;
        write_equation(out, &equation.what)?;
        out.mark(";")?;
    }
    Ok(())
}

/// Writes an equation.
#[cycle(equations)]
#[tactic(auto, using(crate::proofs::EquationLayers::equation_layers))]
fn write_equation<'t>(out: &mut Pieces<'t>, kind: &'t EquationKind) -> Result<(), NoMemory>
    ensures { OnOk result (gathered out.new ≡ gathered out.old ++ pieces_of_equation_kind kind.now) }
{
    match kind {
        EquationKind::Equal(left, right) => write_equality(out, left, right),
        EquationKind::If(branches, others) => {
            write_if(out, branches.as_slice(), others.as_slice())
        }
        EquationKind::For(indices, equations) => {
            write_for(out, indices.as_slice(), equations.as_slice())
        }
        EquationKind::When(branches) => write_when(out, branches.as_slice()),
        EquationKind::Connect(one, other) => write_connection(out, one, other),
        EquationKind::Call(called, args) => write_call_of(out, called, args),
    }
}

/// Writes equations further in than what is around them.
#[cycle(equations)]
fn write_block<'t>(out: &mut Pieces<'t>, equations: &'t [Equation]) -> Result<(), NoMemory>
    ensures { OnOk result (gathered out.new ≡ gathered out.old ++ block_of pieces_of_equation equations.now) }
{
    out.deeper()?;
    write_equations(out, equations)?;
    out.shallower()
}

/// Writes a condition with its equations.
#[cycle(equations)]
fn write_branch<'t>(
    out: &mut Pieces<'t>,
    word: &'t str,
    condition: &'t Expr,
    equations: &'t [Equation],
) -> Result<(), NoMemory>
    ensures { OnOk result (gathered out.new ≡ gathered out.old ++ branch_of word.now pieces_of_equation (condition.now, equations.now)) }
{
    out.word(word)?;
    out.blank()?;
    write_expr(out, condition)?;
    out.blank()?;
    out.word("then")?;
    write_block(out, equations)
}

/// Writes conditions with their equations.
#[cycle(equations)]
fn write_branches<'t>(
    out: &mut Pieces<'t>,
    word: &'t str,
    other: &'t str,
    branches: &'t [(Expr, List<Equation>)],
) -> Result<(), NoMemory>
    ensures { OnOk result (gathered out.new ≡ gathered out.old ++ branches_of word.now other.now pieces_of_equation branches.now) }
{
    let mut first = true;
    for branch in branches {
        line_between(out, first)?;
        let begin = word_of(first, word, other);
        write_branch(out, begin, &branch.0, branch.1.as_slice())?;
        first = false;
    }
    Ok(())
}

/// Writes the equations under `else`.
#[cycle(equations)]
fn write_else<'t>(out: &mut Pieces<'t>, others: &'t [Equation]) -> Result<(), NoMemory>
    ensures { OnOk result (gathered out.new ≡ gathered out.old ++ else_of pieces_of_equation others.now) }
{
    if others.is_empty() {
        return Ok(());
    }
    out.line()?;
    out.word("else")?;
    write_block(out, others)
}

/// Writes equations under conditions, with those under `else`.
#[cycle(equations)]
fn write_if<'t>(
    out: &mut Pieces<'t>,
    branches: &'t [(Expr, List<Equation>)],
    others: &'t [Equation],
) -> Result<(), NoMemory>
    ensures { OnOk result (gathered out.new ≡ gathered out.old ++ (branches_of (codes "if") (codes "elseif") pieces_of_equation branches.now ++ (else_of pieces_of_equation others.now ++ end_of (codes "if")))) }
{
    write_branches(out, "if", "elseif", branches)?;
    write_else(out, others)?;
    write_end(out, "if")
}

/// Writes equations that hold when a condition becomes true.
#[cycle(equations)]
fn write_when<'t>(
    out: &mut Pieces<'t>,
    branches: &'t [(Expr, List<Equation>)],
) -> Result<(), NoMemory>
    ensures { OnOk result (gathered out.new ≡ gathered out.old ++ (branches_of (codes "when") (codes "elsewhen") pieces_of_equation branches.now ++ end_of (codes "when"))) }
{
    write_branches(out, "when", "elsewhen", branches)?;
    write_end(out, "when")
}

/// Writes equations over indices.
#[cycle(equations)]
fn write_for<'t>(
    out: &mut Pieces<'t>,
    indices: &'t [Index],
    equations: &'t [Equation],
) -> Result<(), NoMemory>
    ensures { OnOk result (gathered out.new ≡ gathered out.old ++ loop_of (pieces_of_indices indices.now) pieces_of_equation equations.now) }
{
    out.word("for")?;
    out.blank()?;
    write_indices(out, indices)?;
    out.blank()?;
    out.word("loop")?;
    write_block(out, equations)?;
    write_end(out, "for")
}
