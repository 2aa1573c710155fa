//! What stands between quotes, and where a comment closes.

ghost use Rattle.std.specs.Prelude.{◌≡◌};
ghost use Rattle.mo_lexer.specs.steps.Finding.{is_plain, IsContentsEnd, IsFirstClose};

use crate::bytes::{is_escaped, is_quotable, is_string_byte};

/// The quotes around what is read.
#[derive(Clone, Copy)]
pub(crate) enum Quotes {
    /// `'`, of an identifier.
    Single,
    /// `"`, of a string.
    Double,
}

fn is_plain(quotes: Quotes, b: u8) -> bool
    ensures { result ≡ is_plain quotes b }
{
    match quotes {
        Quotes::Single => is_quotable(b),
        Quotes::Double => is_string_byte(b),
    }
}

// How many bytes from the front on may stand between the quotes.
pub(crate) fn contents_len(quotes: Quotes, bytes: &[u8]) -> usize
    ensures { IsContentsEnd (is_plain quotes) bytes.now result }
{
    let mut n = 0;
    while n < bytes.len() {
        if is_plain(quotes, bytes[n]) {
            n += 1;
        } else if bytes[n] == b'\\' && n + 1 < bytes.len() && is_escaped(bytes[n + 1]) {
            n += 2;
        } else {
            break;
        }
    }
    n
}

// How many bytes stand before the first `*/`, None where there is none.
pub(crate) fn close_at(bytes: &[u8]) -> Option<usize>
    ensures { IsFirstClose bytes.now result }
{
    let mut at = 0;
    while at + 1 < bytes.len() {
        if bytes[at] == b'*' && bytes[at + 1] == b'/' {
            return Some(at);
        }
        at += 1;
    }
    None
}
