//! Statements in pieces.
ghost use Rattle.std.specs.Prelude.{◌≡◌, ◌++◌, codes, OnOk};
ghost use Rattle.mo_pieces.specs.Pieces.{a_mark};
ghost use Rattle.mo_pieces.specs.Gathered.{gathered};
ghost use Rattle.mo_pieces.specs.Lines.{block_of, end_of, lines_of};
ghost use Rattle.mo_pieces.specs.ShownExpressions.{in_parentheses, pieces_of_args, pieces_of_expr, pieces_of_indices, pieces_of_outputs, pieces_of_reference, spaced};
ghost use Rattle.mo_pieces.specs.ShownEquations.{branch_of, branches_of, else_of, loop_of, pieces_of_statement, pieces_of_statement_kind, while_of};

use crate::equation::write_call_of;
use crate::expression::{write_expr, write_indices, write_outputs, write_reference};
use mo_pieces::{Pieces, line_between, spaced_mark, word_of, write_end};
use mo_syntax::{Args, Expr, Index, List, NoMemory, Reference, Statement, StatementKind};

/// Writes an assignment.
fn write_assignment<'t>(
    out: &mut Pieces<'t>,
    variable: &'t Reference,
    value: &'t Expr,
) -> Result<(), NoMemory>
    ensures { OnOk result (gathered out.new ≡ gathered out.old ++ (pieces_of_reference variable.now ++ (spaced (a_mark (codes ":=")) ++ pieces_of_expr value.now))) }
{
    write_reference(out, variable)?;
    spaced_mark(out, ":=")?;
    write_expr(out, value)
}

/// Writes a call with the outputs that are assigned.
fn write_assigned_call<'t>(
    out: &mut Pieces<'t>,
    outputs: &'t [Option<Expr>],
    called: &'t Reference,
    args: &'t Args,
) -> Result<(), NoMemory>
    ensures { OnOk result (gathered out.new ≡ gathered out.old ++ (in_parentheses (pieces_of_outputs outputs.now) ++ (spaced (a_mark (codes ":=")) ++ (pieces_of_reference called.now ++ pieces_of_args args.now)))) }
{
    out.mark("(")?;
    write_outputs(out, outputs)?;
    out.mark(")")?;
    spaced_mark(out, ":=")?;
    write_call_of(out, called, args)
}

/// Writes statements, each on a line of its own.
#[cycle(statements)]
pub(crate) fn write_statements<'t>(
    out: &mut Pieces<'t>,
    statements: &'t [Statement],
) -> Result<(), NoMemory>
    ensures { OnOk result (gathered out.new ≡ gathered out.old ++ lines_of pieces_of_statement statements.now) }
{
    for statement in statements {
        out.line()?;
        write_statement(out, &statement.what)?;
        out.mark(";")?;
    }
    Ok(())
}

/// Writes a statement.
#[cycle(statements)]
#[tactic(auto, using(crate::proofs::EquationLayers::statement_layers))]
fn write_statement<'t>(out: &mut Pieces<'t>, kind: &'t StatementKind) -> Result<(), NoMemory>
    ensures { OnOk result (gathered out.new ≡ gathered out.old ++ pieces_of_statement_kind kind.now) }
{
    match kind {
        StatementKind::Assign(variable, value) => write_assignment(out, variable, value),
        StatementKind::Call(called, args) => write_call_of(out, called, args),
        StatementKind::Outputs(outputs, called, args) => {
            write_assigned_call(out, outputs.as_slice(), called, args)
        }
        StatementKind::Break => out.word("break"),
        StatementKind::Return => out.word("return"),
        StatementKind::If(branches, others) => {
            write_if(out, branches.as_slice(), others.as_slice())
        }
        StatementKind::For(indices, statements) => {
            write_for(out, indices.as_slice(), statements.as_slice())
        }
        StatementKind::While(condition, statements) => {
            write_while(out, condition, statements.as_slice())
        }
        StatementKind::When(branches) => write_when(out, branches.as_slice()),
    }
}

/// Writes statements further in than what is around them.
#[cycle(statements)]
fn write_block<'t>(out: &mut Pieces<'t>, statements: &'t [Statement]) -> Result<(), NoMemory>
    ensures { OnOk result (gathered out.new ≡ gathered out.old ++ block_of pieces_of_statement statements.now) }
{
    out.deeper()?;
    write_statements(out, statements)?;
    out.shallower()
}

/// Writes a condition with its statements.
#[cycle(statements)]
fn write_branch<'t>(
    out: &mut Pieces<'t>,
    word: &'t str,
    condition: &'t Expr,
    statements: &'t [Statement],
) -> Result<(), NoMemory>
    ensures { OnOk result (gathered out.new ≡ gathered out.old ++ branch_of word.now pieces_of_statement (condition.now, statements.now)) }
{
    out.word(word)?;
    out.blank()?;
    write_expr(out, condition)?;
    out.blank()?;
    out.word("then")?;
    write_block(out, statements)
}

/// Writes conditions with their statements.
#[cycle(statements)]
fn write_branches<'t>(
    out: &mut Pieces<'t>,
    word: &'t str,
    other: &'t str,
    branches: &'t [(Expr, List<Statement>)],
) -> Result<(), NoMemory>
    ensures { OnOk result (gathered out.new ≡ gathered out.old ++ branches_of word.now other.now pieces_of_statement branches.now) }
{
    let mut first = true;
    for branch in branches {
        line_between(out, first)?;
        let begin = word_of(first, word, other);
        write_branch(out, begin, &branch.0, branch.1.as_slice())?;
        first = false;
    }
    Ok(())
}

/// Writes the statements under `else`.
#[cycle(statements)]
fn write_else<'t>(out: &mut Pieces<'t>, others: &'t [Statement]) -> Result<(), NoMemory>
    ensures { OnOk result (gathered out.new ≡ gathered out.old ++ else_of pieces_of_statement others.now) }
{
    if others.is_empty() {
        return Ok(());
    }
    out.line()?;
    out.word("else")?;
    write_block(out, others)
}

/// Writes statements under conditions, with those under `else`.
#[cycle(statements)]
fn write_if<'t>(
    out: &mut Pieces<'t>,
    branches: &'t [(Expr, List<Statement>)],
    others: &'t [Statement],
) -> Result<(), NoMemory>
    ensures { OnOk result (gathered out.new ≡ gathered out.old ++ (branches_of (codes "if") (codes "elseif") pieces_of_statement branches.now ++ (else_of pieces_of_statement others.now ++ end_of (codes "if")))) }
{
    write_branches(out, "if", "elseif", branches)?;
    write_else(out, others)?;
    write_end(out, "if")
}

/// Writes statements that are run when a condition becomes true.
#[cycle(statements)]
fn write_when<'t>(
    out: &mut Pieces<'t>,
    branches: &'t [(Expr, List<Statement>)],
) -> Result<(), NoMemory>
    ensures { OnOk result (gathered out.new ≡ gathered out.old ++ (branches_of (codes "when") (codes "elsewhen") pieces_of_statement branches.now ++ end_of (codes "when"))) }
{
    write_branches(out, "when", "elsewhen", branches)?;
    write_end(out, "when")
}

/// Writes statements over indices.
#[cycle(statements)]
fn write_for<'t>(
    out: &mut Pieces<'t>,
    indices: &'t [Index],
    statements: &'t [Statement],
) -> Result<(), NoMemory>
    ensures { OnOk result (gathered out.new ≡ gathered out.old ++ loop_of (pieces_of_indices indices.now) pieces_of_statement statements.now) }
{
    out.word("for")?;
    out.blank()?;
    write_indices(out, indices)?;
    out.blank()?;
    out.word("loop")?;
    write_block(out, statements)?;
    write_end(out, "for")
}

/// Writes statements that are run while a condition holds.
#[cycle(statements)]
fn write_while<'t>(
    out: &mut Pieces<'t>,
    condition: &'t Expr,
    statements: &'t [Statement],
) -> Result<(), NoMemory>
    ensures { OnOk result (gathered out.new ≡ gathered out.old ++ while_of condition.now pieces_of_statement statements.now) }
{
    out.word("while")?;
    out.blank()?;
    write_expr(out, condition)?;
    out.blank()?;
    out.word("loop")?;
    write_block(out, statements)?;
    write_end(out, "while")
}
