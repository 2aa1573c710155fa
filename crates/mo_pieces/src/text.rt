//! From pieces to text.
ghost use Rattle.std.specs.Prelude.{◌≡◌, ◌+◌, ◌^◌, ◌<◌, ◌++◌, ◌||◌, ◌&&◌, ◌==◌, [], ◌∷◌, is_some, string_bytes, IfOk, OnOk};
ghost use Rattle.std.specs.Fmt.{signed_decimal};
ghost use Rattle.mo_tables.specs.Words.{code_in, operators};
ghost use Rattle.mo_lexer.specs.Bytes.{is_digit, is_word_byte};
ghost use Rattle.mo_pieces.specs.Text.{joins, gap, spaced, name_ending, mark_ending, ending_after, depth_after, piece_text, text_of as text_of_pieces};
ghost use Rattle.mo_pieces.specs.Pieces.{a_line};
ghost use Rattle.mo_pieces.specs.Gathered.{piece_of, gathered};

use crate::piece::{Piece, Pieces};
use itoa::Buffer;
use mo_syntax::{NoMemory, Text};
use mo_tables::operator;
use std::alloc::Global;

/// How the last token may be lengthened by what follows it directly.
#[derive(Clone, Copy, Debug)]
pub enum Ending {
    /// By nothing.
    Closed,
    /// By letters, digits and `_`.
    Word,
    /// As a word, or by a point.
    Number,
    /// By what is an operator, a comment or a number behind this byte.
    Mark(u8),
}

// A letter, `_` or a digit.
fn is_of_word(b: u8) -> bool
    ensures { result ≡ is_word_byte b }
{
    b.is_ascii_alphanumeric() || b == b'_'
}

// Two bytes begin an operator, a comment or a number.
fn is_pair(a: u8, b: u8) -> bool
    ensures { result ≡ (is_some (code_in operators (a ∷ b ∷ [])) || ((a == 47) && ((b == 47) || (b == 42))) || ((a == 46) && is_digit b)) }
{
    let comment = a == b'/' && (b == b'/' || b == b'*');
    let number = a == b'.' && b.is_ascii_digit();
    operator(&[a, b]).is_some() || comment || number
}

// What begins with that byte would be read with what it follows.
fn is_joined(ending: Ending, b: u8) -> bool
    ensures { result ≡ joins ending b }
{
    match ending {
        Ending::Closed => false,
        Ending::Word => is_of_word(b),
        Ending::Number => is_of_word(b) || b == b'.',
        Ending::Mark(a) => is_pair(a, b),
    }
}

// A blank before what would join.
fn gap_before(ending: Ending, text: &str) -> &'static str
    ensures { result.now ≡ gap ending text.now }
{
    match text.as_bytes() {
        [b, ..] if is_joined(ending, *b) => " ",
        _ => "",
    }
}

// An identifier in quotes is closed by them.
fn ending_of_name(text: &str) -> Ending
    ensures { result ≡ name_ending text.now }
{
    match text.as_bytes() {
        [b'\'', ..] => Ending::Closed,
        _ => Ending::Word,
    }
}

// Nothing joins an operator of two bytes.
fn ending_of_mark(text: &str) -> Ending
    ensures { result ≡ mark_ending text.now }
{
    match text.as_bytes() {
        [a] => Ending::Mark(*a),
        _ => Ending::Closed,
    }
}

/// A text that grows by pieces.
#[derive(Debug, Drop)]
struct Growing {
    text: String,
    ending: Ending,
    // How far in lines begin.
    depth: usize,
}

impl Growing {
    // Puts what ends so, with a blank before it where it would join.
    fn put(&mut self, text: &str, ending: Ending) -> Result<(), NoMemory>
        ensures text { OnOk result (string_bytes self.new.text ≡ string_bytes self.old.text ++ spaced self.old.ending text.now) }
        ensures ending { OnOk result (self.new.ending ≡ ending) }
        ensures depth { OnOk result (self.new.depth ≡ self.old.depth) }
    {
        self.text.push_str(gap_before(self.ending, text))?;
        self.text.push_str(text)?;
        self.ending = ending;
        Ok(())
    }

    fn put_whole(&mut self, value: i64) -> Result<(), NoMemory>
        ensures text { OnOk result (string_bytes self.new.text ≡ string_bytes self.old.text ++ spaced self.old.ending (signed_decimal value)) }
        ensures ending { OnOk result (self.new.ending ≡ Ending.Number) }
        ensures depth { OnOk result (self.new.depth ≡ self.old.depth) }
    {
        let mut buffer = Buffer::new();
        self.put(buffer.format(value), Ending::Number)
    }

    // Ends the line, and begins the next.
    fn put_line(&mut self) -> Result<(), NoMemory>
        ensures text { OnOk result (string_bytes self.new.text ≡ string_bytes self.old.text ++ spaced self.old.ending (piece_text self.old.depth a_line)) }
        ensures ending { OnOk result (self.new.ending ≡ Ending.Closed) }
        ensures depth { OnOk result (self.new.depth ≡ self.old.depth) }
    {
        self.put("\n", Ending::Closed)?;
        for _ in 0..self.depth {
            self.text.push_str("  ")?;
        }
        Ok(())
    }

    fn put_piece(&mut self, piece: Piece) -> Result<(), NoMemory>
        requires { self.old.depth + 1 < 2 ^ 64 }
        ensures text { OnOk result (string_bytes self.new.text ≡ string_bytes self.old.text ++ spaced self.old.ending (piece_text self.old.depth (piece_of piece.entry))) }
        ensures ending { OnOk result (self.new.ending ≡ ending_after self.old.ending (piece_of piece.entry)) }
        ensures depth { OnOk result (self.new.depth ≡ depth_after self.old.depth (piece_of piece.entry)) }
    {
        match piece {
            Piece::Name(text) => self.put(text, ending_of_name(text)),
            Piece::Word(text) => self.put(text, Ending::Word),
            Piece::Mark(text) => self.put(text, ending_of_mark(text)),
            Piece::Whole(value) => self.put_whole(value),
            Piece::Decimal(text) => self.put(text, Ending::Number),
            Piece::Quoted(text) => self.put(text, Ending::Closed),
            Piece::Blank => self.put(" ", Ending::Closed),
            Piece::Line => self.put_line(),
            Piece::Deeper => {
                self.depth += 1;
                Ok(())
            }
            Piece::Shallower => {
                self.depth = self.depth.saturating_sub(1);
                Ok(())
            }
        }
    }
}

/// The text of pieces. `NoMemory` is the only other answer.
pub fn text_of(alloc: Global, pieces: &Pieces) -> Result<Text, NoMemory>
    ensures { IfOk result (λ text. text ≡ text_of_pieces (gathered pieces.now)) }
{
    let mut growing = Growing {
        text: String::new(alloc),
        ending: Ending::Closed,
        depth: 0,
    };
    for piece in pieces.as_slice() {
        growing.put_piece(*piece)?;
    }
    Ok(Text::from_string(growing.text))
}
