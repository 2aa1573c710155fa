//! Where a chain of factors is multiplied as a matrix or a vector.
ghost use Rattle.std.specs.Prelude.{◌≡◌, ◌≤◌, ℕ, length, slice_range, IfOk};
ghost use Rattle.mo_syntax.specs.Outcome.{Outcome};
ghost use Rattle.mo_typing.specs.Indices.{Index};
ghost use Rattle.mo_values.specs.Scalars.{Known};
ghost use Rattle.mo_values.specs.steps.Chains.{chain_before, begun_by, behind_last, latest, acting};

use mo_syntax::{List, NoMemory};
use mo_typing::shapes::{Signed, is_matrix_factor, multiplied, shape, with_factor};
use std::alloc::Global;

/// The last factor by which a chain of n factors is multiplied as a matrix or a vector.
pub(crate) fn last_matrix_factor(
    alloc: Global,
    factors: &[Signed],
    n: usize,
) -> Result<Option<usize>, NoMemory>
    requires { n ≤ length factors.now }
    ensures within { IfOk result (λ last. behind_last last ≤ n) }
    ensures factors { IfOk result (λ last. (variable : ℕ → Outcome Known) (index : Index) → (chain_before variable factors.now n).product index ≡ acting variable index (begun_by variable factors.now last index) (slice_range factors.now (behind_last last) n)) }
{
    let mut last = None;
    let mut dims = None;
    for j in 0..n {
        let factor = &factors[j];
        let operand = (factor.0, factor.1, shape(alloc, &factor.2)?);
        last = latest(is_matrix_factor(&dims, &operand), j, last);
        dims = multiplied(alloc, dims, operand)?;
    }
    Ok(last)
}

/// The last matrix factor once one more factor is seen.
fn latest(matrix: bool, j: usize, last: Option<usize>) -> Option<usize>
    ensures { result ≡ latest matrix j last }
{
    if matrix { Some(j) } else { last }
}

/// The dimensions of a chain of the first n factors.
pub(crate) fn dims_before(
    alloc: Global,
    factors: &[Signed],
    n: usize,
) -> Result<Option<List<u32>>, NoMemory>
    requires { n ≤ length factors.now }
    ensures { IfOk result (λ dims. (variable : ℕ → Outcome Known) → dims ≡ (chain_before variable factors.now n).dims) }
{
    let mut dims = None;
    for factor in &factors[..n] {
        dims = with_factor(alloc, dims, factor)?;
    }
    Ok(dims)
}

/// The place behind the last matrix factor.
pub(crate) fn behind_last(last: Option<usize>, n: usize) -> usize
    requires { behind_last last ≤ n }
    ensures { result ≡ behind_last last }
{
    match last {
        None => 0,
        Some(m) => m + 1,
    }
}
