//! The file that a list of tokens spells.
ghost use Rattle.std.specs.Prelude.{◌≡◌, IfOk, IfErr};
ghost use Rattle.mo_syntax.specs.declared.class.FileTree.{FileTree as Tree};
ghost use Rattle.mo_grammar.specs.Lexeme.{lexemes};
ghost use Rattle.mo_grammar.specs.Symbols.{Files};
ghost use Rattle.mo_grammar.specs.Language.{whole_limits, Spells};
ghost use Rattle.mo_grammar.specs.Naming.{IsSoundByNames};
ghost use Rattle.mo_parse_class.specs.WholeFiles.{EndsAtEnd, IsTree, IsFirstImpossible, answered, answered_tree};

use crate::file::file;
use mo_class_heads::Left;
use mo_grammar::{Fault, Halt, Reading, stop_at};
use mo_syntax::{FileTree, Stop, Token};
use std::alloc::Global;

/// Reads the file that the tokens spell; the last of them is the end of the file.
///
/// Answers its tree where the whole list spells one, within the limits: at most 128 constructs and 32 classes open inside one
/// another. Otherwise it stops at the first token that is impossible behind those before it: with rule 8 where the token
/// could stand there were nesting not limited, otherwise with rule 7 where it could were the names behind `end` free besides,
/// otherwise with rule 6. `NoMemory` is the only other answer. The tree is sound, and each name in it is that of an
/// identifier: it passes each test that the identifiers among the tokens pass.
pub fn stored_definition(alloc: Global, tokens: &[Token]) -> Result<FileTree, Stop>
    requires ends { EndsAtEnd (lexemes tokens.now) }
    ensures found { IfOk result (λ tree. Spells Files whole_limits (lexemes tokens.now) tree) }
    ensures only { (tree : Tree) → Spells Files whole_limits (lexemes tokens.now) tree → IsTree tree result }
    ensures sound { IsSoundByNames (lexemes tokens.now) result }
    ensures refused { IfErr result (IsFirstImpossible (lexemes tokens.now)) }
{
    let left = Left {
        constructs: 128,
        classes: 32,
        name: "",
    };
    answer(file(alloc, left, tokens))
}

/// What a reading of a file comes to.
fn answer<'t, 'a>(reading: Reading<'t, 'a, FileTree>) -> Result<FileTree, Stop>
    ensures { result ≡ answered reading.entry }
{
    match reading {
        Ok((tree, rest)) => whole_tree(tree, rest),
        Err(Halt::NoMemory) => Err(Stop::NoMemory),
        Err(Halt::Stuck(fault, rest)) => Err(stop_at(fault, rest)),
    }
}

/// The tree, where nothing stands behind the end of the file.
fn whole_tree(tree: FileTree, rest: &[Token]) -> Result<FileTree, Stop>
    ensures { result ≡ answered_tree tree (lexemes rest.now) }
{
    match rest {
        [] => Ok(tree),
        [_, ..] => Err(stop_at(Fault::Misplaced, rest)),
    }
}
