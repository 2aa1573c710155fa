//! What prefixes say, and what is made of elements and of calls.
ghost use Rattle.std.specs.Prelude.{◌≡◌, true};
ghost use Rattle.mo_grammar.specs.Lexeme.{lexeme};
ghost use Rattle.mo_grammar.specs.ClassTrees.{name_called, vary_of, way_of, kind_of, way_or_neither, vary_or_free, flags_of_words};

use mo_grammar::code;
use mo_syntax::TokenKind::Keyword;
use mo_syntax::{
    Args, Callee, Causal, ClassFlags, ClassKind, ElementFlags, Expr, Node, Reference, Token, Vary,
};
use mo_tables::keywords;

/// The prefixes of a class that is neither encapsulated nor partial.
pub fn class_flags(operator: bool, expandable: bool, purity: Option<bool>) -> ClassFlags
    ensures { result ≡ flags_of_words operator expandable purity }
{
    ClassFlags {
        encapsulated: false,
        partial: false,
        operator,
        expandable,
        purity,
    }
}

/// The kind of class that a word names.
pub fn class_kind(word: Token) -> ClassKind
    ensures { result ≡ kind_of (lexeme word.entry) }
{
    let word = code(word.kind);
    if word == code(Keyword(keywords::MODEL)) {
        ClassKind::Model
    } else if word == code(Keyword(keywords::BLOCK)) {
        ClassKind::Block
    } else if word == code(Keyword(keywords::RECORD)) {
        ClassKind::Recd
    } else if word == code(Keyword(keywords::CONNECTOR)) {
        ClassKind::Connector
    } else if word == code(Keyword(keywords::TYPE)) {
        ClassKind::TypeDef
    } else if word == code(Keyword(keywords::PACKAGE)) {
        ClassKind::Package
    } else if word == code(Keyword(keywords::FUNCTION)) {
        ClassKind::Function
    } else {
        ClassKind::Plain
    }
}

/// The variability that a word names.
pub fn vary(token: &Token) -> Vary
    ensures { result ≡ vary_of (lexeme token.now) }
{
    if code(token.kind) == code(Keyword(keywords::DISCRETE)) {
        Vary::Discrete
    } else if code(token.kind) == code(Keyword(keywords::PARAMETER)) {
        Vary::Parameter
    } else {
        Vary::Constant
    }
}

/// The variability, or none.
pub fn vary_of_option(vary: Option<Vary>) -> Vary
    ensures { result ≡ vary_or_free vary }
{
    match vary {
        Some(vary) => vary,
        None => Vary::Free,
    }
}

/// The causality that a word names.
pub fn way(token: &Token) -> Causal
    ensures { result ≡ way_of (lexeme token.now) }
{
    if code(token.kind) == code(Keyword(keywords::INPUT)) {
        Causal::Input
    } else {
        Causal::Output
    }
}

/// The causality, or neither.
pub fn causal_of_option(way: Option<Causal>) -> Causal
    ensures { result ≡ way_or_neither way }
{
    match way {
        Some(way) => way,
        None => Causal::None,
    }
}

/// The same prefixes, and whether the class is encapsulated.
pub fn with_encapsulated(flags: ClassFlags, encapsulated: bool) -> ClassFlags
    ensures { result ≡ record flags { encapsulated = encapsulated } }
{
    ClassFlags {
        encapsulated,
        ..flags
    }
}

/// The same prefixes, of an element that is replaceable.
pub fn replaceable(flags: ElementFlags) -> ElementFlags
    ensures { result ≡ record flags { replaceable = true } }
{
    ElementFlags {
        replaceable: true,
        ..flags
    }
}

/// The name and the arguments of an expression that is the call of a name.
#[tactic(auto, unfolding(mo_grammar::specs::ClassTrees::name_called))]
pub fn call_of_name(e: Expr) -> Option<(Reference, Args)>
    ensures { result ≡ name_called e }
{
    match e.node.into_inner() {
        Node::Call(callee, args) => match callee {
            Callee::Named(called) => Some((called, args)),
            _ => None,
        },
        _ => None,
    }
}
