//! What comes of a case.
ghost use Rattle.mo_grammar.specs.Lexeme.{lexemes};
ghost use Rattle.mo_parse_class.specs.WholeFiles.{EndsAtEnd};

use crate::frames::{Question, is_of_class, put_of_class};
use crate::telling::put_number;
use crate::turns::{ROOM, Ran, Transfer, is_turned, run_over, turned};
use mo_front::Status;
use mo_lexer::tokens;
use mo_parse_body::{class_mod, equation_item, statement};
use mo_parse_class::stored_definition;
use mo_parse_expr::expression;
use mo_syntax::{ClassDef, FileTree, List, NoMemory, Stop, Text, Token, both};
use mo_unparse::{class_text, expr_text};
use std::alloc::Global;

/// The run with these words over these files, of which nothing fails.
fn run_well(
    alloc: Global,
    words: &[String],
    files: List<(Text, List<u8>)>,
) -> Result<Ran, NoMemory> {
    let transfer = Transfer {
        most: 4096,
        reads: List::new(alloc),
        writes: List::new(alloc),
    };
    run_over(alloc, words, files, transfer)
}

/// Writes a class with a semicolon and a line feed behind it.
fn put_class(alloc: Global, out: &mut Vec<u8>, class: &ClassDef) -> Result<(), NoMemory> {
    let text = class_text(alloc, class)?;
    out.extend_from_slice(text.as_str().as_bytes())?;
    Ok(out.extend_from_slice(b";\n")?)
}

fn put_classes(alloc: Global, out: &mut Vec<u8>, tree: &FileTree) -> Result<(), NoMemory> {
    for class in tree.classes.as_slice() {
        put_class(alloc, out, class)?;
    }
    Ok(())
}

/// The classes of a file whose tokens are these, as text.
fn put_file(alloc: Global, out: &mut Vec<u8>, tokens: &[Token]) -> Result<(), Stop>
    requires { EndsAtEnd (lexemes tokens.now) }
{
    let tree = stored_definition(alloc, tokens)?;
    Ok(put_classes(alloc, out, &tree)?)
}

/// The expression that these tokens begin with, as text.
fn put_expression(alloc: Global, out: &mut Vec<u8>, tokens: &[Token]) -> Result<(), Stop> {
    let (tree, _) = expression(alloc, tokens, 0, 0)?;
    let text = expr_text(alloc, &tree)?;
    Ok(out.extend_from_slice(text.as_str().as_bytes())?)
}

/// How many tokens were read.
fn count<T: Drop>(read: Result<(T, usize), Stop>) -> Result<usize, Stop> {
    let (_tree, behind) = read?;
    Ok(behind)
}

/// Writes what is asked of the tokens of a text: `print` its classes, `expression` the expression that it begins with; `modifiers`, `equation`
/// and `statement` how many tokens such a part at its begin has; what is asked of a class.
fn put_read(
    alloc: Global,
    out: &mut Vec<u8>,
    question: &Question,
    tokens: &[Token],
) -> Result<(), Stop>
    requires { EndsAtEnd (lexemes tokens.now) }
{
    match question.word {
        word if is_of_class(word) => put_of_class(alloc, out, tokens, question),
        "expression" => put_expression(alloc, out, tokens),
        "modifiers" => Ok(put_number(out, count(class_mod(alloc, tokens, 0, 0))?)?),
        "equation" => Ok(put_number(out, count(equation_item(alloc, tokens, 0, 0))?)?),
        "statement" => Ok(put_number(out, count(statement(alloc, tokens, 0, 0))?)?),
        _ => put_file(alloc, out, tokens),
    }
}

/// Writes what is asked of a text.
fn put_asked(
    alloc: Global,
    out: &mut Vec<u8>,
    question: &Question,
    text: &str,
) -> Result<(), Stop> {
    if text.len() > ROOM {
        return Err(Stop::NoMemory);
    }
    let list = tokens(alloc, 1, text)?;
    put_read(alloc, out, question, list.as_slice())
}

/// The word of that place as a text, the empty one where there is none.
fn text_at(alloc: Global, words: &[String], at: usize) -> Result<Text, NoMemory> {
    match words.get(at) {
        Some(word) => Text::from_str(alloc, word.as_str()),
        None => Text::from_str(alloc, ""),
    }
}

/// What these words ask, of which the first is given and the second names the file.
fn question_of<'w>(
    alloc: Global,
    word: &'w str,
    words: &[String],
) -> Result<Question<'w>, NoMemory> {
    let below = both(text_at(alloc, words, 3), text_at(alloc, words, 4));
    let (class, (element, part)) = both(text_at(alloc, words, 2), below)?;
    Ok(Question {
        word,
        class,
        element,
        part,
    })
}

/// What is asked of a text; status 1 where the text breaks a rule.
fn asked(alloc: Global, question: &Question, bytes: &[u8]) -> Result<Ran, NoMemory> {
    let mut text = Vec::new(alloc);
    match put_asked(
        alloc,
        &mut text,
        question,
        str::from_utf8(bytes).unwrap_or(""),
    ) {
        Ok(()) => Ok(Ran {
            status: Status::Done,
            text,
        }),
        Err(Stop::Broken(_)) => Ok(Ran {
            status: Status::Refused,
            text,
        }),
        Err(Stop::NoMemory) => Err(NoMemory),
    }
}

/// Whether the word asks for what is read of a text, and not for a run.
fn is_asked(word: &str) -> bool {
    is_of_class(word)
        || matches!(
            word,
            "print" | "expression" | "modifiers" | "equation" | "statement"
        )
}

/// The words behind the first.
fn behind_first(words: &[String]) -> &[String] {
    if words.is_empty() {
        return words;
    }
    &words[1..]
}

/// What comes of a case: what its first word asks of its first file or of the run with the words behind it, or the run with its words.
pub(crate) fn answer(
    alloc: Global,
    words: &[String],
    files: List<(Text, List<u8>)>,
) -> Result<Ran, NoMemory> {
    match (words.get(0), files.get(0)) {
        (Some(word), _) if is_turned(word.as_str()) => {
            turned(alloc, word.as_str(), behind_first(words), files.as_slice())
        }
        (Some(word), Some((_, bytes))) if is_asked(word.as_str()) => {
            let question = question_of(alloc, word.as_str(), words)?;
            asked(alloc, &question, bytes.as_slice())
        }
        _ => run_well(alloc, words, files),
    }
}
