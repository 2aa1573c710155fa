//! The expression at a place.
ghost use Rattle.std.specs.Prelude.{◌<◌, ◌≤◌, length, IfOk};
ghost use Rattle.mo_grammar.specs.Symbols.{Expressions};
ghost use Rattle.mo_grammar.specs.Answers.{from, IsLongestSpelling, IsRefusal, AnswersLongest};

use mo_grammar::{Halt, rest_from, stop_at};
use mo_read_expr as readers;
use mo_syntax::{Expr, Stop, Token};
use std::alloc::Global;

/// Reads the expression that stands at `at`, `nest` constructs deep, and answers it with the place behind it.
///
/// Let the front be the longest run of tokens from `at` on that some expression begins with, when nesting is not limited. The
/// answer is the expression that the front spells. Breaks rule 8 at the first token that opens a construct past 128 of them
/// with `nest` counted in, if the front has one; and otherwise, if the front is no expression, rule 6 at the token behind it,
/// the first such that no expression begins with the tokens through it. A `nest` past 128 counts as 128: then no construct
/// can be opened. `NoMemory` is the only other answer.
pub fn expression(
    alloc: Global,
    tokens: &[Token],
    at: usize,
    nest: u32,
) -> Result<(Expr, usize), Stop>
    requires { at ≤ length tokens.now }
    ensures found { IfOk result (λ x. IsLongestSpelling Expressions nest tokens.now at x.0 x.1) }
    ensures only { AnswersLongest Expressions nest tokens.now at result }
    ensures refused { IsRefusal Expressions nest (from tokens.now at) result }
    ensures later { IfOk result (λ x. at < x.1) }
    ensures within { IfOk result (λ x. x.1 ≤ length tokens.now) }
{
    let rest = rest_from(tokens, at);
    match readers::expression(alloc, 128u32.saturating_sub(nest), rest) {
        Ok((value, behind)) => Ok((value, tokens.len() - behind.len())),
        Err(Halt::Stuck(fault, behind)) => Err(stop_at(fault, behind)),
        Err(Halt::NoMemory) => Err(Stop::NoMemory),
    }
}
