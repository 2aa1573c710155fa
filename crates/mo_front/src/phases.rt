//! The tokens and the trees of files, file by file.
ghost use Rattle.std.specs.Prelude.{◌<◌, ◌^◌, ◌-◌, Ok as Yes, Err as No, length, map, IfOk, All};
ghost use Rattle.mo_syntax.specs.Lexeme.{lexemes};
ghost use Rattle.mo_parse_class.specs.WholeFiles.{EndsAtEnd};
ghost use Rattle.mo_front.specs.Files.{Tokens, Trees};
ghost use Rattle.mo_syntax.specs.Outcome.{IfBroken};

use mo_lexer::tokens;
use mo_parse_class::stored_definition;
use mo_syntax::{FileTree, List, Stop, Text, Token};
use std::alloc::Global;

/// The tokens of each text, or the first of rules 3 to 5 that is broken. There are fewer texts than 2^32.
pub(crate) fn all_tokens<'a>(
    alloc: Global,
    texts: &'a [Text],
) -> Result<List<List<Token<'a>>>, Stop>
    requires few { length texts.now < 2 ^ 32 - 1 }
    requires short { All (λ text. length text < 2 ^ 32) texts.now }
    ensures tokens { IfOk result (λ lists. Tokens texts.now (Yes (map lexemes lists))) }
    ensures ended { IfOk result (All (λ list. EndsAtEnd (lexemes list))) }
    ensures broken { IfBroken result (λ b. Tokens texts.now (No b)) }
{
    let mut lists = List::new(alloc);
    let mut number = 1u32;
    for text in texts {
        match tokens(alloc, number, text.as_str()) {
            Ok(list) => lists.push(list)?,
            Err(stop) => return Err(stop),
        }
        number += 1;
    }
    Ok(lists)
}

/// The tree of each list of tokens, or the first of rules 6 to 8 that is broken.
pub(crate) fn all_trees(alloc: Global, lists: &[List<Token>]) -> Result<List<FileTree>, Stop>
    requires ended { All (λ list. EndsAtEnd (lexemes list)) lists.now }
    ensures trees { IfOk result (λ files. Trees (map lexemes lists.now) (Yes files)) }
    ensures broken { IfBroken result (λ b. Trees (map lexemes lists.now) (No b)) }
{
    let mut files = List::new(alloc);
    for list in lists {
        match stored_definition(alloc, list.as_slice()) {
            Ok(file) => files.push(file)?,
            Err(stop) => return Err(stop),
        }
    }
    Ok(files)
}
