//! Classes of bytes, and runs of bytes of a class.

ghost use Rattle.std.specs.Prelude.{◌≡◌, ◌≤◌, length};
ghost use Rattle.std.specs.List.{prefix_len};
ghost use Rattle.mo_lexer.specs.Bytes.{is_blank, is_letter, is_digit, is_word_byte, is_escaped, is_quotable, is_string_byte, is_line_byte, is_exponent_mark, is_sign};

pub(crate) fn is_blank(b: u8) -> bool
    ensures { result ≡ is_blank b }
{
    b == b' ' || b == b'\t' || b == b'\n' || b == b'\r' || b == 0x0C
}

/// Whether it is a letter or `_`.
pub fn is_letter(b: u8) -> bool
    ensures { result ≡ is_letter b }
{
    b.is_ascii_alphabetic() || b == b'_'
}

pub(crate) fn is_digit(b: u8) -> bool
    ensures { result ≡ is_digit b }
{
    b.is_ascii_digit()
}

pub(crate) fn is_word_byte(b: u8) -> bool
    ensures { result ≡ is_word_byte b }
{
    is_letter(b) || is_digit(b)
}

/// Whether it may follow a backslash in a string or a quoted identifier.
pub fn is_escaped(b: u8) -> bool
    ensures { result ≡ is_escaped b }
{
    b == b'\''
        || b == b'"'
        || b == b'?'
        || b == b'\\'
        || b == b'a'
        || b == b'b'
        || b == b'f'
        || b == b'n'
        || b == b'r'
        || b == b't'
        || b == b'v'
}

/// Whether it may stand in a quoted identifier as it is.
pub fn is_quotable(b: u8) -> bool
    ensures { result ≡ is_quotable b }
{
    b >= b' ' && b <= b'~' && b != b'\'' && b != b'\\'
}

pub(crate) fn is_string_byte(b: u8) -> bool
    ensures { result ≡ is_string_byte b }
{
    b != b'"' && b != b'\\'
}

pub(crate) fn is_line_byte(b: u8) -> bool
    ensures { result ≡ is_line_byte b }
{
    b != b'\n'
}

pub(crate) fn is_exponent_mark(b: u8) -> bool
    ensures { result ≡ is_exponent_mark b }
{
    b == b'e' || b == b'E'
}

pub(crate) fn is_sign(b: u8) -> bool
    ensures { result ≡ is_sign b }
{
    b == b'+' || b == b'-'
}

/// How many bytes from the front on are digits.
pub fn digits_len(bytes: &[u8]) -> usize
    ensures value { result ≡ prefix_len is_digit bytes.now }
    ensures within { result ≤ length bytes.now }
{
    bytes.iter().take_while(|b| is_digit(**b)).count()
}

/// How many bytes from the front on may stand in an identifier.
pub fn word_len(bytes: &[u8]) -> usize
    ensures value { result ≡ prefix_len is_word_byte bytes.now }
    ensures within { result ≤ length bytes.now }
{
    bytes.iter().take_while(|b| is_word_byte(**b)).count()
}

// How many bytes from the front on stand in the line.
pub(crate) fn line_len(bytes: &[u8]) -> usize
    ensures value { result ≡ prefix_len is_line_byte bytes.now }
    ensures within { result ≤ length bytes.now }
{
    bytes.iter().take_while(|b| is_line_byte(**b)).count()
}
