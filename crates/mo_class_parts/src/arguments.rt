//! Arguments of modifiers, and components.
ghost use Rattle.std.specs.Prelude.{◌≡◌, [], ◌∷◌, IfOk};
ghost use Rattle.mo_grammar.specs.Lexeme.{lexeme};
ghost use Rattle.mo_grammar.specs.ClassTrees.{component_of, mods_or_none, binding_or_none, argument_of as argument_tree, argument_element};
ghost use Rattle.mo_grammar.specs.Trees.{or_nothing};
ghost use Rattle.mo_class_parts.specs.Seen.{declared, argued};

use crate::names::path;
use mo_syntax::{
    Argument, ArgumentOf, Component, ComponentOf, Element, ElementFlags, Expr, Give, List, Mods,
    ModsOf, NoMemory, Place, Prefix, Reference, Text, Token, What, both, single,
};
use std::alloc::Global;

/// The list, or an empty one.
pub fn list_or_nothing<T>(alloc: Global, list: Option<List<T>>) -> List<T>
    ensures { result ≡ or_nothing list }
{
    match list {
        Some(list) => list,
        None => List::new(alloc),
    }
}

/// The modifiers, or none.
pub fn modifiers_or_none(alloc: Global, mods: Option<Mods>) -> Mods
    ensures { result ≡ mods_or_none mods }
{
    match mods {
        Some(mods) => mods,
        None => ModsOf(List::new(alloc)),
    }
}

/// An identifier that is declared, with what stands behind it.
#[derive(Drop)]
pub struct Declaration<'a> {
    pub name: Token<'a>,
    /// Its dimensions, None for `:`.
    pub subs: Option<List<Option<Expr>>>,
    /// Its nested modifiers and its value.
    pub binding: Option<(Mods, Option<Expr>)>,
}

/// The nested modifiers and the value, or neither.
pub fn binding_or_none(alloc: Global, binding: Option<(Mods, Option<Expr>)>) -> (Mods, Option<Expr>)
    ensures { result ≡ binding_or_none binding }
{
    match binding {
        Some(binding) => binding,
        None => (ModsOf(List::new(alloc)), None),
    }
}

/// The component with that prefix, that type and the dimensions behind it.
pub fn component(
    alloc: Global,
    prefix: Prefix,
    base: Reference,
    base_subs: List<Option<Expr>>,
    declaration: Declaration,
    condition: Option<Expr>,
) -> Result<Component, NoMemory>
    ensures { IfOk result (λ c. c ≡ component_of prefix base base_subs (declared declaration.entry) condition) }
{
    let Declaration {
        name: token,
        subs,
        binding,
    } = declaration;
    let types = (base, base_subs);
    let rest = ((subs, binding), condition);
    let (name, (types, rest)) = both(Text::from_str(alloc, token.text), Ok((types, rest)))?;
    let (base, base_subs) = types;
    let ((subs, binding), condition) = rest;
    let (mods, binding) = binding_or_none(alloc, binding);
    Ok(ComponentOf {
        prefix,
        base,
        base_subs,
        name,
        place: token.place,
        subs: list_or_nothing(alloc, subs),
        mods,
        binding,
        condition,
    })
}

/// What an argument gives, with the identifiers of its name.
#[derive(Drop)]
pub struct Argued<'a> {
    pub name: List<Token<'a>>,
    pub place: Place,
    pub give: Give,
}

/// What an argument of that name gives.
pub fn named<'a>(alloc: Global, name: Token<'a>, give: Give) -> Result<Argued<'a>, NoMemory>
    ensures { IfOk result (λ a. argued a ≡ ((name.entry.place, lexeme name.entry ∷ []), give)) }
{
    let place = name.place;
    let (name, give) = both(single(alloc, name), Ok(give))?;
    Ok(Argued { name, place, give })
}

/// What an argument gives that modifies.
pub fn modify(alloc: Global, binding: Option<(Mods, Option<Expr>)>) -> Give
    ensures { result ≡ Give.Modify (binding_or_none binding).0 (binding_or_none binding).1 }
{
    let (mods, value) = binding_or_none(alloc, binding);
    Give::Modify(mods, value)
}

/// The element of an argument.
pub fn element(replaceable: bool, what: What, limit: Option<(Reference, Mods)>) -> Element
    ensures { result ≡ argument_element replaceable what limit }
{
    Element {
        flags: ElementFlags {
            redeclare: false,
            last: false,
            inner: false,
            outer: false,
            replaceable,
            hidden: false,
        },
        what,
        limit,
    }
}

/// The argument that gives this.
pub fn argument_of(
    alloc: Global,
    each: bool,
    last: bool,
    given: Argued,
) -> Result<Argument, NoMemory>
    ensures { IfOk result (λ a. a ≡ argument_tree (each, (last, argued given.entry))) }
{
    let Argued { name, place, give } = given;
    let (name, give) = both(path(alloc, name.as_slice()), Ok(give))?;
    Ok(ArgumentOf {
        each,
        last,
        name,
        place,
        give,
    })
}
