//! Numbers of 32 bits without leading zeros.
ghost use Rattle.std.specs.Prelude.{◌≡◌, ◌<◌, ◌++◌, ℕ, true, false, length, slice_index, decimal, IsTrue, IfSome, IfNone};
ghost use Rattle.std.specs.Str.Parse.{digits_value};
ghost use Rattle.mo_lexer.specs.Bytes.{is_digit};
ghost use Rattle.mo_lexer.specs.Spelling.{are_digits};
ghost use Rattle.mo_report_lines.specs.Grammar.{IsNumber, AreNumbers};
ghost use Rattle.mo_report_lines.specs.steps.Reading.{in_numbers, BeginsOnly, BeginsNever};

use crate::bytes::begins_with;
use mo_lexer::digits_len;

/// The greatest number of 32 bits.
const GREATEST: u64 = 4_294_967_295;

/// The value of digits, None past 32 bits.
fn digits_value(digits: &[u8]) -> Option<u32>
    requires { IsTrue (are_digits digits.now) }
    ensures some { IfSome result (λ n. n ≡ digits_value 10 digits.now) }
    ensures fits { IfSome result (λ n. n < 4294967296) }
    ensures none { IfNone result (4294967295 < digits_value 10 digits.now) }
{
    let mut value = 0;
    for digit in digits {
        if value > GREATEST / 10 {
            return None;
        }
        value = value * 10 + u64::from(*digit - b'0');
        if value > GREATEST {
            return None;
        }
    }
    Some(value as u32)
}

/// Whether more digits stand behind a zero at the front.
fn is_padded(digits: &[u8]) -> bool
    requires { 0 < length digits.now }
    ensures yes { result ≡ true → (slice_index digits.now 0 ≡ 48) × (1 < length digits.now) }
    ensures no { result ≡ false → slice_index digits.now 0 ≡ 48 → length digits.now ≡ 1 }
{
    digits[0] == b'0' && digits.len() > 1
}

/// The number that digits spell: None where there are none, or a needless zero stands in front, or it is past 32 bits.
fn value_of(digits: &[u8]) -> Option<u32>
    requires { IsTrue (are_digits digits.now) }
    ensures some { IfSome result (λ n. decimal n ≡ digits.now) }
    ensures fits { IfSome result (λ n. n < 4294967296) }
    ensures none { IfNone result ((n : ℕ) → n < 4294967296 → decimal n ≡ digits.now → ⊥) }
{
    if digits.is_empty() {
        return None;
    }
    if is_padded(digits) {
        return None;
    }
    let value = digits_value(digits)?;
    Some(value)
}

/// The number at the front, with what stands behind its digits.
pub(crate) fn number(text: &[u8]) -> Option<(u32, &[u8])>
    ensures some { IfSome result (λ r. text.now ≡ decimal r.0 ++ r.1.now) }
    ensures fits { IfSome result (λ r. r.0 < 4294967296) }
    ensures only { IfSome result (λ r. BeginsOnly IsNumber is_digit text.now r.1.now) }
    ensures none { IfNone result (BeginsNever IsNumber is_digit text.now) }
{
    let len = digits_len(text);
    let value = value_of(&text[..len])?;
    Some((value, &text[len..]))
}

/// What stands behind the number at the front.
pub(crate) fn after_number(text: &[u8]) -> Option<&[u8]>
    ensures some { IfSome result (λ rest. BeginsOnly IsNumber is_digit text.now rest.now) }
    ensures none { IfNone result (BeginsNever IsNumber is_digit text.now) }
    ensures shorter { IfSome result (λ rest. length rest.now < length text.now) }
{
    let read = number(text)?;
    Some(read.1)
}

/// What stands behind numbers with this byte between neighbours.
pub(crate) fn after_numbers(text: &[u8], separator: u8) -> Option<&[u8]>
    requires { is_digit separator ≡ false }
    ensures some { IfSome result (λ rest. BeginsOnly (AreNumbers separator) (in_numbers separator) text.now rest.now) }
    ensures none { IfNone result (BeginsNever (AreNumbers separator) (in_numbers separator) text.now) }
{
    let mut rest = after_number(text)?;
    'separated: while begins_with(rest, separator) {
        rest = after_number(&rest[1..])?;
    }
    Some(rest)
}
