//! The pieces of a text: tokens, and the layout between them.
ghost use Rattle.std.specs.Prelude.{◌≡◌, [], ◌∷◌, ◌++◌, OnOk};
ghost use Rattle.std.specs.Fmt.{signed_decimal};
ghost use Rattle.mo_pieces.specs.Pieces.{a_name, a_word, a_mark, a_whole, a_decimal, a_string, a_blank, a_line, deeper, shallower};
ghost use Rattle.mo_pieces.specs.Gathered.{gathered};

use mo_syntax::NoMemory;
use std::alloc::Global;

/// A piece of a text.
#[derive(Clone, Copy, Debug)]
pub enum Piece<'t> {
    /// An identifier, with its quotes where it has some.
    Name(&'t str),
    /// A reserved word.
    Word(&'t str),
    /// An operator or mark.
    Mark(&'t str),
    /// An Integer literal, by its value.
    Whole(i64),
    /// A Real literal, as it was spelled.
    Decimal(&'t str),
    /// A string, with its quotes and escapes.
    Quoted(&'t str),
    /// A blank.
    Blank,
    /// The end of a line, and the blanks that the next one begins with.
    Line,
    /// From here on lines begin further in.
    Deeper,
    /// From here on lines begin less far in.
    Shallower,
}

/// Pieces in the order of the text.
#[derive(Debug, Drop)]
pub struct Pieces<'t>(Vec<Piece<'t>>);

impl<'t> Pieces<'t> {
    /// No piece.
    pub fn new(alloc: Global) -> Pieces<'t>
        ensures { gathered result ≡ [] }
    {
        Pieces(Vec::new(alloc))
    }

    /// The pieces in their order.
    pub fn as_slice(&self) -> &[Piece<'t>]
        ensures { result.now ≡ self.now.0.items }
    {
        self.0.as_slice()
    }

    /// Puts a piece at the end.
    pub fn put(&mut self, piece: Piece<'t>) -> Result<(), NoMemory>
        ensures { OnOk result (self.new.0.items ≡ self.old.0.items ++ piece.entry ∷ []) }
    {
        self.0.push(piece)?;
        Ok(())
    }

    /// Puts an identifier at the end.
    pub fn name(&mut self, text: &'t str) -> Result<(), NoMemory>
        ensures { OnOk result (gathered self.new ≡ gathered self.old ++ a_name text.now ∷ []) }
    {
        self.put(Piece::Name(text))
    }

    /// Puts a reserved word at the end.
    pub fn word(&mut self, text: &'t str) -> Result<(), NoMemory>
        ensures { OnOk result (gathered self.new ≡ gathered self.old ++ a_word text.now ∷ []) }
    {
        self.put(Piece::Word(text))
    }

    /// Puts an operator or mark at the end.
    pub fn mark(&mut self, text: &'t str) -> Result<(), NoMemory>
        ensures { OnOk result (gathered self.new ≡ gathered self.old ++ a_mark text.now ∷ []) }
    {
        self.put(Piece::Mark(text))
    }

    /// Puts an Integer literal at the end, by its value.
    pub fn whole(&mut self, value: i64) -> Result<(), NoMemory>
        ensures { OnOk result (gathered self.new ≡ gathered self.old ++ a_whole (signed_decimal value) ∷ []) }
    {
        self.put(Piece::Whole(value))
    }

    /// Puts a Real literal at the end.
    pub fn decimal(&mut self, text: &'t str) -> Result<(), NoMemory>
        ensures { OnOk result (gathered self.new ≡ gathered self.old ++ a_decimal text.now ∷ []) }
    {
        self.put(Piece::Decimal(text))
    }

    /// Puts a string at the end.
    pub fn quoted(&mut self, text: &'t str) -> Result<(), NoMemory>
        ensures { OnOk result (gathered self.new ≡ gathered self.old ++ a_string text.now ∷ []) }
    {
        self.put(Piece::Quoted(text))
    }

    /// Puts a blank at the end.
    pub fn blank(&mut self) -> Result<(), NoMemory>
        ensures { OnOk result (gathered self.new ≡ gathered self.old ++ a_blank ∷ []) }
    {
        self.put(Piece::Blank)
    }

    /// Ends the line.
    pub fn line(&mut self) -> Result<(), NoMemory>
        ensures { OnOk result (gathered self.new ≡ gathered self.old ++ a_line ∷ []) }
    {
        self.put(Piece::Line)
    }

    /// Lets the lines from here on begin further in.
    pub fn deeper(&mut self) -> Result<(), NoMemory>
        ensures { OnOk result (gathered self.new ≡ gathered self.old ++ deeper ∷ []) }
    {
        self.put(Piece::Deeper)
    }

    /// Lets the lines from here on begin less far in.
    pub fn shallower(&mut self) -> Result<(), NoMemory>
        ensures { OnOk result (gathered self.new ≡ gathered self.old ++ shallower ∷ []) }
    {
        self.put(Piece::Shallower)
    }
}
