//! The lines of texts.
ghost use Rattle.std.specs.Prelude.{◌≡◌, ◌<◌, ◌≤◌, ◌+◌, ◌++◌, ◌∷◌, true, false, length, IfSome, IfNone};
ghost use Rattle.std.specs.List.{prefix_len};
ghost use Rattle.mo_lexer.specs.Bytes.{is_line_byte};
ghost use Rattle.mo_report_lines.specs.Lines.{lines_of, AreReadable, IsFirstUnreadable, DifferFirst};

use crate::line::is_readable;

/// Where two texts differ first.
#[derive(Clone, Copy, Debug)]
pub struct Difference<'p, 'w> {
    /// The number of the line, from 1.
    pub line: u32,
    /// The line of the first text, with its line feed; nothing past the last.
    pub printed: &'p [u8],
    /// The line of the second text, likewise.
    pub wanted: &'w [u8],
}

/// How many bytes stand before the first line feed.
fn line_len(text: &[u8]) -> usize
    ensures value { result ≡ prefix_len is_line_byte text.now }
    ensures within { result ≤ length text.now }
{
    text.iter().take_while(|b| **b != b'\n').count()
}

/// How many bytes the first line has, its line feed included.
fn line_end(text: &[u8]) -> usize
    ensures feed { prefix_len is_line_byte text.now < length text.now → result ≡ prefix_len is_line_byte text.now + 1 }
    ensures last { length text.now ≤ prefix_len is_line_byte text.now → result ≡ length text.now }
    ensures within { result ≤ length text.now }
{
    let len = line_len(text);
    if len < text.len() {
        len + 1
    } else {
        text.len()
    }
}

/// The first line, with its line feed, and what stands behind it. Of a text that is empty both are empty.
pub fn first_line(text: &[u8]) -> (&[u8], &[u8])
    ensures whole { text.now ≡ result.0.now ++ result.1.now }
    ensures lines { 0 < length text.now → lines_of text.now ≡ result.0.now ∷ lines_of result.1.now }
    ensures some { 0 < length text.now → length result.1.now < length text.now }
{
    let end = line_end(text);
    (&text[..end], &text[end..])
}

/// The number of the first line, from 1, that has no form of a report's line, or no line feed.
pub fn first_unreadable(text: &[u8]) -> Option<u32>
    requires { length text.now < 4294967296 }
    ensures some { IfSome result (λ n. IsFirstUnreadable text.now n) }
    ensures none { IfNone result (AreReadable text.now) }
{
    let mut rest = text;
    let mut number = 0;
    'lines: while !rest.is_empty() {
        let (line, left) = first_line(rest);
        number += 1;
        if !is_readable(line) {
            return Some(number);
        }
        rest = left;
    }
    None
}

/// Whether both texts are empty.
fn are_empty(left: &[u8], right: &[u8]) -> bool
    ensures yes { result ≡ true → (length left.now ≡ 0) × (length right.now ≡ 0) }
    ensures no { result ≡ false → 0 < length left.now + length right.now }
{
    left.is_empty() && right.is_empty()
}

/// Where two texts differ first, None where they are the same.
pub fn first_difference<'p, 'w>(printed: &'p [u8], wanted: &'w [u8]) -> Option<Difference<'p, 'w>>
    requires { length printed.now < 4294967295 }
    ensures some { IfSome result (λ d. DifferFirst printed.now wanted.now d.line d.printed.now d.wanted.now) }
    ensures none { IfNone result (printed.now ≡ wanted.now) }
{
    let mut left = printed;
    let mut right = wanted;
    let mut number = 0;
    'lines: while !are_empty(left, right) {
        let (line, left_rest) = first_line(left);
        let (other, right_rest) = first_line(right);
        number += 1;
        if line != other {
            return Some(Difference {
                line: number,
                printed: line,
                wanted: other,
            });
        }
        left = left_rest;
        right = right_rest;
    }
    None
}
