//! What stands before a declaration or an element, and strings.
ghost use Rattle.std.specs.Prelude.{◌≡◌, ◌<◌, ◌≤◌, [], ◌∷◌, length, map, IfOk, false};
ghost use Rattle.mo_grammar.specs.Lexeme.{lexeme, lexemes, code_of_kind};
ghost use Rattle.mo_grammar.specs.Codes.{string, plus};
ghost use Rattle.mo_grammar.specs.Grammar.{token};
ghost use Rattle.mo_grammar.specs.Forms.{optional, behind};
ghost use Rattle.mo_grammar.specs.ClassTrees.{is_code};
ghost use Rattle.mo_grammar.specs.Classes.{strings as strings_form, prefix, class_prefixes as class_prefixes_form, variability as variability_form, causality as causality_form};
ghost use Rattle.mo_grammar.specs.Reading.{next_in, first_codes};
ghost use Rattle.mo_grammar.specs.Tables.{tables};
ghost use Rattle.mo_grammar.specs.Answers.{Gives, with_rest, ReadsAs, as_read, reads_whole};
ghost use Rattle.mo_class_parts.specs.Seen.{no_trace, maybe};
ghost use Rattle.mo_class_heads.specs.Prefixes.{class_words as class_words_form, word_pure, word_operator, words as words_form, words_of};

use mo_class_parts::{causal_of_option, class_flags, class_kind, vary, vary_of_option, way};
use mo_grammar::{Halt, Reading, code, flag, is_any, is_next, is_next_any, take, take_any};
use mo_syntax::TokenKind::{Keyword, Operator, Str};
use mo_syntax::{Causal, ClassFlags, ClassKind, ElementFlags, Prefix, Token, TokenKind, Vary};
use mo_tables::{keywords, operators};

/// The tokens behind the strings that stand there, joined by `+`. There may be none.
pub fn strings<'t, 'a>(tokens: &'t [Token<'a>]) -> Result<&'t [Token<'a>], Halt<'t, 'a>>
    ensures reads { Gives no_trace result (reads_whole strings_form tokens.now) }
    ensures no_longer { IfOk result (λ rest. length rest.now ≤ length tokens.now) }
{
    if !is_next(tokens, Str) {
        return Ok(tokens);
    }
    let (_, mut rest) = take(tokens, Str)?;
    while is_next(rest, Operator(operators::PLUS)) {
        let (_, behind) = string_behind_plus(rest)?;
        rest = behind;
    }
    Ok(rest)
}

/// A plus and a string.
fn string_behind_plus<'t, 'a>(tokens: &'t [Token<'a>]) -> Reading<'t, 'a, Token<'a>>
    ensures reads { ReadsAs lexeme result (reads_whole (behind plus (token (string ∷ []))) tokens.now) }
    ensures shorter { IfOk result (λ x. length x.1.now < length tokens.now) }
{
    let (_, rest) = take(tokens, Operator(operators::PLUS))?;
    let (next, rest) = take(rest, Str)?;
    Ok((next, rest))
}

/// The next token where it has one of these kinds, and the tokens behind it.
pub fn take_optional<'t, 'a>(
    tokens: &'t [Token<'a>],
    wanted: &[TokenKind],
) -> (Option<Token<'a>>, &'t [Token<'a>])
    ensures reads { reads_whole (optional (token (map code_of_kind wanted.now))) tokens.now ≡ as_read maybe result }
    ensures no_longer { length result.1.now ≤ length tokens.now }
{
    match tokens {
        [token, rest @ ..] if is_any(token.kind, wanted) => (Some(*token), rest),
        _ => (None, tokens),
    }
}

/// Whether there is a token and it has that kind.
fn is_kind(token: Option<Token>, wanted: TokenKind) -> bool
    ensures { result ≡ is_code (code_of_kind wanted) (maybe token.entry) }
{
    match token {
        Some(token) => code(token.kind) == code(wanted),
        None => false,
    }
}

/// The type prefixes of a component. There may be none.
pub fn component_prefix<'t, 'a>(tokens: &'t [Token<'a>]) -> Reading<'t, 'a, Prefix>
    ensures reads { Gives with_rest result (reads_whole prefix tokens.now) }
    ensures no_longer { IfOk result (λ x. length x.1.now ≤ length tokens.now) }
{
    let connecting = [Keyword(keywords::FLOW), Keyword(keywords::STREAM)];
    let (connects, rest) = take_optional(tokens, &connecting);
    let (vary, rest) = variability(rest);
    let (way, rest) = causality(rest);
    let prefix = Prefix {
        flow: is_kind(connects, Keyword(keywords::FLOW)),
        stream: is_kind(connects, Keyword(keywords::STREAM)),
        vary: vary_of_option(vary),
        causal: causal_of_option(way),
    };
    Ok((prefix, rest))
}

/// The variability prefix that stands there, if one does.
fn variability<'t, 'a>(tokens: &'t [Token<'a>]) -> (Option<Vary>, &'t [Token<'a>])
    ensures reads { reads_whole variability_form tokens.now ≡ with_rest result }
    ensures no_longer { length result.1.now ≤ length tokens.now }
{
    match tokens {
        [token, rest @ ..]
            if is_any(
                token.kind,
                &[
                    Keyword(keywords::DISCRETE),
                    Keyword(keywords::PARAMETER),
                    Keyword(keywords::CONSTANT),
                ],
            ) => { (Some(vary(token)), rest) }
        _ => (None, tokens),
    }
}

/// The causality prefix that stands there, if one does.
pub fn causality<'t, 'a>(tokens: &'t [Token<'a>]) -> (Option<Causal>, &'t [Token<'a>])
    ensures reads { reads_whole causality_form tokens.now ≡ with_rest result }
    ensures no_longer { length result.1.now ≤ length tokens.now }
{
    match tokens {
        [token, rest @ ..]
            if is_any(
                token.kind,
                &[Keyword(keywords::INPUT), Keyword(keywords::OUTPUT)],
            ) => { (Some(way(token)), rest) }
        _ => (None, tokens),
    }
}

/// Whether the prefixes of a class begin with the next token.
pub fn begins_class_prefixes(tokens: &[Token]) -> bool
    ensures { result ≡ next_in (first_codes tables.starts class_prefixes_form) (lexemes tokens.now) }
{
    is_next_any(
        tokens,
        &[
            Keyword(keywords::PARTIAL),
            Keyword(keywords::CLASS),
            Keyword(keywords::MODEL),
            Keyword(keywords::RECORD),
            Keyword(keywords::BLOCK),
            Keyword(keywords::CONNECTOR),
            Keyword(keywords::TYPE),
            Keyword(keywords::PACKAGE),
            Keyword(keywords::FUNCTION),
            Keyword(keywords::EXPANDABLE),
            Keyword(keywords::PURE),
            Keyword(keywords::IMPURE),
            Keyword(keywords::OPERATOR),
        ],
    )
}

/// The words that say which kind of class is defined.
pub fn class_prefixes<'t, 'a>(tokens: &'t [Token<'a>]) -> Reading<'t, 'a, (ClassKind, ClassFlags)>
    ensures reads { Gives with_rest result (reads_whole class_prefixes_form tokens.now) }
    ensures shorter { IfOk result (λ x. length x.1.now < length tokens.now) }
{
    let (partial, rest) = flag(tokens, Keyword(keywords::PARTIAL));
    let ((kind, flags), rest) = class_words(rest)?;
    Ok(((kind, ClassFlags { partial, ..flags }), rest))
}

/// Those behind `partial`.
fn class_words<'t, 'a>(tokens: &'t [Token<'a>]) -> Reading<'t, 'a, (ClassKind, ClassFlags)>
    ensures reads { Gives with_rest result (reads_whole class_words_form tokens.now) }
    ensures shorter { IfOk result (λ x. length x.1.now < length tokens.now) }
{
    let alone = [
        Keyword(keywords::CLASS),
        Keyword(keywords::MODEL),
        Keyword(keywords::RECORD),
        Keyword(keywords::BLOCK),
        Keyword(keywords::CONNECTOR),
        Keyword(keywords::TYPE),
        Keyword(keywords::PACKAGE),
        Keyword(keywords::FUNCTION),
    ];
    if is_next_any(tokens, &alone) {
        let (word, rest) = take_any(tokens, &alone)?;
        Ok(((class_kind(word), class_flags(false, false, None)), rest))
    } else if is_next(tokens, Keyword(keywords::EXPANDABLE)) {
        let (_, rest) = take(tokens, Keyword(keywords::EXPANDABLE))?;
        let (_, rest) = take(rest, Keyword(keywords::CONNECTOR))?;
        Ok(((ClassKind::Connector, class_flags(false, true, None)), rest))
    } else if is_next_any(
        tokens,
        &[Keyword(keywords::PURE), Keyword(keywords::IMPURE)],
    ) {
        pure_function(tokens)
    } else {
        operator_class(tokens)
    }
}

/// A function with `pure` or `impure` before it.
fn pure_function<'t, 'a>(tokens: &'t [Token<'a>]) -> Reading<'t, 'a, (ClassKind, ClassFlags)>
    ensures reads { Gives with_rest result (reads_whole word_pure tokens.now) }
    ensures shorter { IfOk result (λ x. length x.1.now < length tokens.now) }
{
    let (purity, rest) = take_any(
        tokens,
        &[Keyword(keywords::PURE), Keyword(keywords::IMPURE)],
    )?;
    let (operator, rest) = flag(rest, Keyword(keywords::OPERATOR));
    let (_, rest) = take(rest, Keyword(keywords::FUNCTION))?;
    let pure = code(purity.kind) == code(Keyword(keywords::PURE));
    Ok((
        (
            ClassKind::Function,
            class_flags(operator, false, Some(pure)),
        ),
        rest,
    ))
}

/// An operator, or a record or function with `operator` before it.
fn operator_class<'t, 'a>(tokens: &'t [Token<'a>]) -> Reading<'t, 'a, (ClassKind, ClassFlags)>
    ensures reads { Gives with_rest result (reads_whole word_operator tokens.now) }
    ensures shorter { IfOk result (λ x. length x.1.now < length tokens.now) }
{
    let (_, rest) = take(tokens, Keyword(keywords::OPERATOR))?;
    let (word, rest) = take_optional(
        rest,
        &[Keyword(keywords::RECORD), Keyword(keywords::FUNCTION)],
    );
    match word {
        Some(word) => Ok(((class_kind(word), class_flags(true, false, None)), rest)),
        None => Ok(((ClassKind::Operator, class_flags(false, false, None)), rest)),
    }
}

/// The prefixes of an element that is not replaceable, and the tokens behind them.
pub fn element_flags<'t, 'a>(
    hidden: bool,
    tokens: &'t [Token<'a>],
) -> (ElementFlags, &'t [Token<'a>])
    ensures reads { reads_whole words_form tokens.now ≡ as_read words_of result }
    ensures hidden { result.0.hidden ≡ hidden }
    ensures kept { result.0.replaceable ≡ false }
    ensures no_longer { length result.1.now ≤ length tokens.now }
{
    let (redeclare, rest) = flag(tokens, Keyword(keywords::REDECLARE));
    let (last, rest) = flag(rest, Keyword(keywords::FINAL));
    let (inner, rest) = flag(rest, Keyword(keywords::INNER));
    let (outer, rest) = flag(rest, Keyword(keywords::OUTER));
    let flags = ElementFlags {
        redeclare,
        last,
        inner,
        outer,
        replaceable: false,
        hidden,
    };
    (flags, rest)
}
