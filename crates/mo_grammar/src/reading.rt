//! What readers of tokens are built of: the next token, tests of what comes next, and why reading halts.
ghost use Rattle.std.specs.Prelude.{◌≡◌, ◌==◌, ◌<◌, ◌≤◌, ◌+◌, [], ◌∷◌, length, drop, map, IfOk, IfSome, IfNone, if◌then◌else◌};
ghost use Rattle.mo_grammar.specs.Lexeme.{lexeme, lexemes, code_of, code_of_kind};
ghost use Rattle.mo_grammar.specs.Grammar.{has};
ghost use Rattle.mo_grammar.specs.Reading.{reads_token, next_in, next_two, place_of_first};
ghost use Rattle.mo_grammar.specs.Forms.{flag as flag_form};
ghost use Rattle.mo_grammar.specs.Answers.{with_rest, from, broken_at, ReadsAs, fault_past_limit, reads_whole};

use crate::fault::Fault;
use crate::token_code::code;
use mo_syntax::{Broken, List, NoMemory, Place, Stop, Token, TokenKind};
use std::alloc::Global;

/// Why a reader gives no value.
#[derive(Clone, Copy, Debug)]
pub enum Halt<'t, 'a> {
    NoMemory,
    /// The first of these tokens cannot stand where it stands.
    Stuck(Fault, &'t [Token<'a>]),
}

/// A value with the tokens behind it, or why there is none.
pub type Reading<'t, 'a, T> = Result<(T, &'t [Token<'a>]), Halt<'t, 'a>>;

impl<'t, 'a> From<NoMemory> for Halt<'t, 'a> {
    ghost use Rattle.mo_grammar.specs.declared.reading.Halt.TheVariants.{NoMemory as no_memory};
    ghost use Rattle.std.specs.Prelude.{◌≡◌};

    ghost from_gives = { λ _ h. h ≡ no_memory };

    fn from(_refused: NoMemory) -> Halt<'t, 'a> {
        Halt::NoMemory
    }
}

/// Whether the token has one of these kinds.
pub fn is_any(kind: TokenKind, wanted: &[TokenKind]) -> bool
    ensures { result ≡ has (map code_of_kind wanted.now) (code_of_kind kind) }
{
    for one in wanted {
        if code(*one) == code(kind) {
            return true;
        }
    }
    false
}

/// Whether the token has that kind.
pub fn is(token: &Token, wanted: TokenKind) -> bool
    ensures { result ≡ (code_of_kind wanted == code_of (lexeme token.now)) }
{
    code(wanted) == code(token.kind)
}

/// The next token, which has that kind, or stuck at it.
pub fn take<'t, 'a>(tokens: &'t [Token<'a>], wanted: TokenKind) -> Reading<'t, 'a, Token<'a>>
    ensures reads { ReadsAs lexeme result (reads_token (code_of_kind wanted ∷ []) (lexemes tokens.now)) }
    ensures shorter { IfOk result (λ x. length x.1.now < length tokens.now) }
{
    match tokens {
        [token, rest @ ..] if is(token, wanted) => Ok((*token, rest)),
        _ => Err(Halt::Stuck(Fault::Misplaced, tokens)),
    }
}

/// The next token, which has one of these kinds, or stuck at it.
pub fn take_any<'t, 'a>(tokens: &'t [Token<'a>], wanted: &[TokenKind]) -> Reading<'t, 'a, Token<'a>>
    ensures reads { ReadsAs lexeme result (reads_token (map code_of_kind wanted.now) (lexemes tokens.now)) }
    ensures shorter { IfOk result (λ x. length x.1.now < length tokens.now) }
{
    match tokens {
        [token, rest @ ..] if is_any(token.kind, wanted) => Ok((*token, rest)),
        _ => Err(Halt::Stuck(Fault::Misplaced, tokens)),
    }
}

/// Whether the next token has that kind.
pub fn is_next(tokens: &[Token], wanted: TokenKind) -> bool
    ensures { result ≡ next_in (code_of_kind wanted ∷ []) (lexemes tokens.now) }
{
    match tokens {
        [token, ..] => is(token, wanted),
        [] => false,
    }
}

/// Whether the next token has one of these kinds.
pub fn is_next_any(tokens: &[Token], wanted: &[TokenKind]) -> bool
    ensures { result ≡ next_in (map code_of_kind wanted.now) (lexemes tokens.now) }
{
    match tokens {
        [token, ..] => is_any(token.kind, wanted),
        [] => false,
    }
}

/// Whether the next token has that kind, and the one behind it one of these.
pub fn are_next(tokens: &[Token], first: TokenKind, second: &[TokenKind]) -> bool
    ensures { result ≡ next_two (code_of_kind first) (map code_of_kind second.now) (lexemes tokens.now) }
{
    match tokens {
        [token, then, ..] => is(token, first) && is_any(then.kind, second),
        _ => false,
    }
}

/// Whether the next token has that kind, and the tokens behind it if it has.
pub fn flag<'t, 'a>(tokens: &'t [Token<'a>], wanted: TokenKind) -> (bool, &'t [Token<'a>])
    ensures reads { reads_whole (flag_form (code_of_kind wanted)) tokens.now ≡ with_rest result }
    ensures no_longer { length result.1.now ≤ length tokens.now }
{
    match tokens {
        [token, rest @ ..] if is(token, wanted) => (true, rest),
        _ => (false, tokens),
    }
}

/// Nothing read yet, and all tokens behind it: where a loop over items starts.
pub fn none_yet<'t, 'a, T>(alloc: Global, tokens: &'t [Token<'a>]) -> (List<T>, &'t [Token<'a>])
    ensures none { result.0 ≡ [] }
    ensures all { result.1.now ≡ tokens.now }
{
    (List::new(alloc), tokens)
}

/// The place of the next token.
pub fn place_of(tokens: &[Token]) -> Place
    ensures { result ≡ place_of_first (lexemes tokens.now) }
{
    match tokens {
        [token, ..] => token.place,
        [] => Place { file: 0, byte: 0 },
    }
}

/// Why no construct that a token of that kind opens can stand here, where the limit of nesting is reached.
pub fn past_limit<'t, 'a>(tokens: &'t [Token<'a>], opening: TokenKind) -> Halt<'t, 'a>
    ensures { result ≡ Halt.Stuck (fault_past_limit (code_of_kind opening ∷ []) (lexemes tokens.now)) tokens.exit }
{
    if is_next(tokens, opening) {
        Halt::Stuck(Fault::TooDeep, tokens)
    } else {
        Halt::Stuck(Fault::Misplaced, tokens)
    }
}

/// The rule that the fault names, at the first of these tokens.
pub fn stop_at(fault: Fault, rest: &[Token]) -> Stop
    ensures { result ≡ Stop.Broken (broken_at fault (lexemes rest.now)) }
{
    Stop::Broken(Broken {
        rule: fault.rule(),
        place: place_of(rest),
    })
}

/// The tokens from a place on.
pub fn rest_from<'t, 'a>(tokens: &'t [Token<'a>], at: usize) -> &'t [Token<'a>]
    requires { at ≤ length tokens.now }
    ensures { result.now ≡ drop at tokens.now }
{
    let (_, rest) = tokens.split_at(at);
    rest
}

/// The token at a place, None past the end.
pub fn token_at<'t, 'a>(tokens: &'t [Token<'a>], at: usize) -> Option<&'t Token<'a>>
    ensures found { IfSome result (λ t. from tokens.now at ≡ lexeme t.now ∷ from tokens.now (at + 1)) }
    ensures within { IfSome result (λ t. at < length tokens.now) }
    ensures none { IfNone result (from tokens.now at ≡ []) }
{
    tokens.get(at)
}
