//! How often what several components share may be read again.
ghost use Rattle.std.specs.Prelude.{◌≡◌, ◌<◌, ◌≤◌, true};

/// Each component of a declaration has a tree of its own of what they all share. Copies of more than 64 tokens past the 64th are
/// answered by want of memory: no file that people or tools write has them, and without a bound a short text would come to a
/// square of trees.
const SHARED_TOKENS: usize = 64;

const COPIES: usize = 64;

/// Whether one more copy of so many tokens is too much, where that many were made.
pub(crate) fn is_copied_too_often(shared: usize, copies: usize) -> bool
    ensures shared { result ≡ true → 64 < shared }
    ensures copies { result ≡ true → 64 ≤ copies }
{
    shared > SHARED_TOKENS && copies >= COPIES
}
