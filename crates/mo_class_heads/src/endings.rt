//! Where a class may not begin, and how it ends.
ghost use Rattle.std.specs.Prelude.{◌≡◌, ◌<◌, length, IfOk, false};
ghost use Rattle.mo_grammar.specs.Lexeme.{lexemes};
ghost use Rattle.mo_grammar.specs.Classes.{class_end};
ghost use Rattle.mo_grammar.specs.Language.{reads_form};
ghost use Rattle.mo_grammar.specs.Answers.{Gives, fault_past_limit};
ghost use Rattle.mo_class_parts.specs.Starts.{class_codes};
ghost use Rattle.mo_class_parts.specs.Seen.{ends};
ghost use Rattle.mo_class_heads.specs.Left.{limits};

use crate::nesting::Left;
use mo_class_parts::opens_class;
use mo_grammar::{Fault, Halt, code, take};
use mo_syntax::Token;
use mo_syntax::TokenKind::{Ident, Keyword};
use mo_tables::keywords;

/// Why no class can be opened here, where the limit of nesting is reached.
pub fn past_classes<'t, 'a>(tokens: &'t [Token<'a>]) -> Halt<'t, 'a>
    ensures { result ≡ Halt.Stuck (fault_past_limit class_codes (lexemes tokens.now)) tokens.exit }
{
    if opens_class(tokens) {
        Halt::Stuck(Fault::TooDeep, tokens)
    } else {
        Halt::Stuck(Fault::Misplaced, tokens)
    }
}

/// `end` with the name of the class that is open.
pub fn end_of_class<'t, 'a>(
    left: Left,
    tokens: &'t [Token<'a>],
) -> Result<&'t [Token<'a>], Halt<'t, 'a>>
    ensures reads { Gives (ends false) result (reads_form class_end (limits left.entry) (lexemes tokens.now)) }
    ensures shorter { IfOk result (λ rest. length rest.now < length tokens.now) }
{
    let (_, rest) = take(tokens, Keyword(keywords::END))?;
    match rest {
        [name, behind @ ..] if code(Ident) == code(name.kind) => {
            if left.name == name.text {
                Ok(behind)
            } else {
                Err(Halt::Stuck(Fault::Misnamed, rest))
            }
        }
        _ => Err(Halt::Stuck(Fault::Misplaced, rest)),
    }
}
