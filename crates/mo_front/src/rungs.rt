//! The number of rungs that a word names.
ghost use Rattle.std.specs.Prelude.{◌≡◌, ◌^◌, ◌-◌, ℕ, None, true, min, IfSome};
ghost use Rattle.mo_lexer.specs.Spelling.{are_digits};
ghost use Rattle.mo_grammar.specs.Trees.{digits_after};
ghost use Rattle.mo_front.specs.Words.{NamesRungs};

/// The most digits of the number.
const MOST_DIGITS: usize = 4;

/// The most rungs of a ladder.
const MOST_RUNGS: u32 = 1000;

/// The number of rungs that the word names, from 1 to 1000, None where it is not from one to four decimal digits of such a value.
pub(crate) fn rungs_named(word: &str) -> Option<u32>
    ensures some { IfSome result (NamesRungs word.now) }
    ensures none { result ≡ None → (n : ℕ) → NamesRungs word.now n → ⊥ }
{
    let bytes = word.as_bytes();
    if bytes.len() > MOST_DIGITS || !are_digits(bytes) {
        return None;
    }
    let n = value_of(bytes);
    if n == 0 || n > MOST_RUNGS {
        return None;
    }
    Some(n)
}

/// Whether all bytes are decimal digits.
fn are_digits(bytes: &[u8]) -> bool
    ensures { result ≡ are_digits bytes.now }
{
    for byte in bytes {
        if !byte.is_ascii_digit() {
            return false;
        }
    }
    true
}

/// The value of decimal digits, the greatest `u32` where that passes 32 bits.
fn value_of(digits: &[u8]) -> u32
    requires digits { are_digits digits.now ≡ true }
    ensures { result ≡ min (digits_after 0 digits.now) (2 ^ 32 - 1) }
{
    let mut value = 0u32;
    for digit in digits {
        value = value
            .saturating_mul(10)
            .saturating_add(u32::from(*digit - 48));
    }
    value
}
