//! Numbers: digits, perhaps a point and digits, perhaps an exponent.

ghost use Rattle.std.specs.Prelude.{◌≡◌, ◌≤◌, ◌↔◌, IsTrue, length};
ghost use Rattle.std.specs.Str.Parse.{digits_value};
ghost use Rattle.mo_lexer.specs.Spelling.{are_digits};
ghost use Rattle.mo_lexer.specs.steps.Finding.{Finds, IsNumberFront, point_len, mark_len, exponent_len, begins_number};

use crate::bytes::{digits_len, is_exponent_mark, is_sign};
use crate::piece::Found;
use mo_syntax::{Rule, TokenKind, rules};

// The greatest Integer literal.
const WHOLE_MAX: u64 = 9223372036854775807;

// How many bytes a point and digits after it take.
fn point_len(bytes: &[u8]) -> usize
    ensures value { result ≡ point_len bytes.now }
    ensures within { result ≤ length bytes.now }
{
    match bytes {
        [b'.', digits @ ..] => 1 + digits_len(digits),
        _ => 0,
    }
}

// How many bytes the mark of an exponent and a sign take.
fn mark_len(bytes: &[u8]) -> usize
    ensures value { result ≡ mark_len bytes.now }
    ensures within { result ≤ length bytes.now }
{
    match bytes {
        [mark, sign, ..] if is_exponent_mark(*mark) && is_sign(*sign) => 2,
        [mark, ..] if is_exponent_mark(*mark) => 1,
        _ => 0,
    }
}

// How many bytes the longest exponent takes, 0 where there is none.
fn exponent_len(bytes: &[u8]) -> usize
    ensures value { result ≡ exponent_len bytes.now }
    ensures within { result ≤ length bytes.now }
{
    let start = mark_len(bytes);
    let digits = digits_len(&bytes[start..]);
    if start == 0 || digits == 0 {
        0
    } else {
        start + digits
    }
}

// Whether the digits make a number of 63 bits.
fn is_narrow(digits: &[u8]) -> bool
    requires { IsTrue (are_digits digits.now) }
    ensures { IsTrue result ↔ (digits_value 10 digits.now ≤ 9223372036854775807) }
{
    let mut value = 0;
    for digit in digits {
        if value > WHOLE_MAX / 10 {
            return false;
        }
        value = value * 10 + u64::from(*digit - b'0');
        if value > WHOLE_MAX {
            return false;
        }
    }
    true
}

// Whether the longest number at the front is an Integer literal, and its length.
fn number_front(rest: &[u8]) -> (bool, usize)
    requires { IsTrue (begins_number rest.now) }
    ensures { IsNumberFront rest.now result.0 result.1 }
{
    let digits = digits_len(rest);
    let mantissa = digits + point_len(&rest[digits..]);
    let len = mantissa + exponent_len(&rest[mantissa..]);
    if len == digits {
        (true, len)
    } else {
        (false, len)
    }
}

// The number at the front.
pub(crate) fn number(rest: &[u8]) -> Found
    requires { IsTrue (begins_number rest.now) }
    ensures { Finds rest.now result }
{
    let (whole, len) = number_front(rest);
    if !whole {
        return Found::Spelled(TokenKind::Decimal, len);
    }
    if !is_narrow(&rest[..len]) {
        return Found::Unfit(Rule::new(rules::LITERAL_TOO_WIDE), 0);
    }
    Found::Spelled(TokenKind::Whole, len)
}
