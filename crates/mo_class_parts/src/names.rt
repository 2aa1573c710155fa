//! The texts of names.
ghost use Rattle.std.specs.Prelude.{◌≡◌, map, IfOk};
ghost use Rattle.mo_grammar.specs.Lexeme.{lexemes};
ghost use Rattle.mo_grammar.specs.ClassTrees.{text_of, path_of, place_of_names};

use mo_syntax::{List, NoMemory, Path, Place, Text, Token};
use std::alloc::Global;

/// The texts of these identifiers.
pub fn texts(alloc: Global, names: &[Token]) -> Result<List<Text>, NoMemory>
    ensures { IfOk result (λ texts. texts ≡ map text_of (lexemes names.now)) }
{
    let mut texts = List::new(alloc);
    for token in names {
        texts.push(Text::from_str(alloc, token.text)?)?;
    }
    Ok(texts)
}

/// The path of these identifiers.
pub fn path(alloc: Global, names: &[Token]) -> Result<Path, NoMemory>
    ensures { IfOk result (λ p. p ≡ path_of (lexemes names.now)) }
{
    Ok(Path(texts(alloc, names)?))
}

/// The place of the first of these identifiers.
pub fn first_place(names: &[Token]) -> Place
    ensures { result ≡ place_of_names (lexemes names.now) }
{
    match names {
        [name, ..] => name.place,
        [] => Place { file: 0, byte: 0 },
    }
}
