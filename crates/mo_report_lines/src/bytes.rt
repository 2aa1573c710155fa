//! What stands at the front of a text.
ghost use Rattle.std.specs.Prelude.{◌≡◌, ◌++◌, ◌∷◌, ℕ, List as Seq, true, false, drop, IfSome, IfNone};

/// Whether this byte stands at the front.
pub(crate) fn begins_with(text: &[u8], byte: u8) -> bool
    ensures yes { result ≡ true → text.now ≡ byte ∷ drop 1 text.now }
    ensures no { result ≡ false → (rest : Seq ℕ) → text.now ≡ byte ∷ rest → ⊥ }
{
    match text {
        [first, ..] => *first == byte,
        [] => false,
    }
}

/// What stands behind a word at the front, if the text begins with it.
pub(crate) fn after_word<'t>(text: &'t [u8], word: &str) -> Option<&'t [u8]>
    ensures some { IfSome result (λ rest. text.now ≡ word.now ++ rest.now) }
    ensures none { IfNone result ((rest : Seq ℕ) → text.now ≡ word.now ++ rest → ⊥) }
{
    text.strip_prefix(word.as_bytes())
}
