//! The modification, equation or statement at a place.
ghost use Rattle.std.specs.Prelude.{◌<◌, ◌≤◌, length, IfOk};
ghost use Rattle.mo_grammar.specs.Symbols.{ClassMods, EquationItems, StatementItems};
ghost use Rattle.mo_grammar.specs.Answers.{from, IsLongestSpelling, IsRefusal, AnswersLongest};

use mo_grammar::{Halt, rest_from, stop_at};
use mo_read_body as readers;
use mo_syntax::{Equation, Mods, Statement, Stop, Token};
use std::alloc::Global;

/// Reads the modifiers in parentheses that stand at `at`, `nest` constructs deep, and answers them with the place behind
/// them.
///
/// Let the front be the longest run of tokens from `at` on that some such modifiers begin with, when nesting is not limited.
/// The answer is the modifiers that the front spells. Breaks rule 8 at the first token that opens a construct past 128 of them
/// with `nest` counted in, if the front has one; and otherwise, if the front is no modifiers, rule 6 at the token behind it,
/// the first such that none begin with the tokens through it. A `nest` past 128 counts as 128: then no construct can be
/// opened. `NoMemory` is the only other answer.
pub fn class_mod(
    alloc: Global,
    tokens: &[Token],
    at: usize,
    nest: u32,
) -> Result<(Mods, usize), Stop>
    requires { at ≤ length tokens.now }
    ensures found { IfOk result (λ x. IsLongestSpelling ClassMods nest tokens.now at x.0 x.1) }
    ensures only { AnswersLongest ClassMods nest tokens.now at result }
    ensures refused { IsRefusal ClassMods nest (from tokens.now at) result }
    ensures later { IfOk result (λ x. at < x.1) }
    ensures within { IfOk result (λ x. x.1 ≤ length tokens.now) }
{
    let rest = rest_from(tokens, at);
    match readers::class_modification(alloc, 128u32.saturating_sub(nest), rest) {
        Ok((value, behind)) => Ok((value, tokens.len() - behind.len())),
        Err(Halt::Stuck(fault, behind)) => Err(stop_at(fault, behind)),
        Err(Halt::NoMemory) => Err(Stop::NoMemory),
    }
}

/// Reads the equation that stands at `at`, `nest` constructs deep, and answers it with the place behind it.
///
/// Let the front be the longest run of tokens from `at` on that some equation begins with, when nesting is not limited. The
/// answer is the equation that the front spells. Breaks rule 8 at the first token that opens a construct past 128 of them with
/// `nest` counted in, if the front has one; and otherwise, if the front is no equation, rule 6 at the token behind it, the
/// first such that no equation begins with the tokens through it. A `nest` past 128 counts as 128: then no construct can be
/// opened. `NoMemory` is the only other answer.
pub fn equation_item(
    alloc: Global,
    tokens: &[Token],
    at: usize,
    nest: u32,
) -> Result<(Equation, usize), Stop>
    requires { at ≤ length tokens.now }
    ensures found { IfOk result (λ x. IsLongestSpelling EquationItems nest tokens.now at x.0 x.1) }
    ensures only { AnswersLongest EquationItems nest tokens.now at result }
    ensures refused { IsRefusal EquationItems nest (from tokens.now at) result }
    ensures later { IfOk result (λ x. at < x.1) }
    ensures within { IfOk result (λ x. x.1 ≤ length tokens.now) }
{
    let rest = rest_from(tokens, at);
    match readers::equation(alloc, 128u32.saturating_sub(nest), rest) {
        Ok((value, behind)) => Ok((value, tokens.len() - behind.len())),
        Err(Halt::Stuck(fault, behind)) => Err(stop_at(fault, behind)),
        Err(Halt::NoMemory) => Err(Stop::NoMemory),
    }
}

/// Reads the statement that stands at `at`, `nest` constructs deep, and answers it with the place behind it.
///
/// Let the front be the longest run of tokens from `at` on that some statement begins with, when nesting is not limited. The
/// answer is the statement that the front spells. Breaks rule 8 at the first token that opens a construct past 128 of them with
/// `nest` counted in, if the front has one; and otherwise, if the front is no statement, rule 6 at the token behind it, the
/// first such that no statement begins with the tokens through it. A `nest` past 128 counts as 128: then no construct can be
/// opened. `NoMemory` is the only other answer.
pub fn statement(
    alloc: Global,
    tokens: &[Token],
    at: usize,
    nest: u32,
) -> Result<(Statement, usize), Stop>
    requires { at ≤ length tokens.now }
    ensures found { IfOk result (λ x. IsLongestSpelling StatementItems nest tokens.now at x.0 x.1) }
    ensures only { AnswersLongest StatementItems nest tokens.now at result }
    ensures refused { IsRefusal StatementItems nest (from tokens.now at) result }
    ensures later { IfOk result (λ x. at < x.1) }
    ensures within { IfOk result (λ x. x.1 ≤ length tokens.now) }
{
    let rest = rest_from(tokens, at);
    match readers::statement(alloc, 128u32.saturating_sub(nest), rest) {
        Ok((value, behind)) => Ok((value, tokens.len() - behind.len())),
        Err(Halt::Stuck(fault, behind)) => Err(stop_at(fault, behind)),
        Err(Halt::NoMemory) => Err(Stop::NoMemory),
    }
}
