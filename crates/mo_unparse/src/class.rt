//! Classes in pieces.
//!
//! One function for each kind of part and of list, all in one cycle.
ghost use Rattle.std.specs.Prelude.{◌≡◌, ◌++◌, codes, map, IfOk, OnOk};
ghost use Rattle.mo_pieces.specs.Pieces.{a_word};
ghost use Rattle.mo_pieces.specs.Gathered.{gathered};
ghost use Rattle.mo_pieces.specs.Text.{text_of as text_of_pieces};
ghost use Rattle.mo_unparse.specs.ReadAgain.{IsReadAsFile};
ghost use Rattle.mo_pieces.specs.Lines.{on_a_line, word_if};
ghost use Rattle.mo_pieces.specs.ShownExpressions.{commas, pieces_of_reference, spaced};
ghost use Rattle.mo_pieces.specs.ShownModifiers.{pieces_of_path};
ghost use Rattle.mo_pieces.specs.ShownElements.{component_with, extends_with};
ghost use Rattle.mo_pieces.specs.ShownClasses.{inside_of, name_with, pieces_of_argument, pieces_of_class, pieces_of_element, pieces_of_items, pieces_of_mods, pieces_of_what, short_with, shown_body, shown_give, shown_item};

use crate::element::{
    write_argument_flags, write_binding, write_causal, write_flags, write_path, write_type,
    write_value,
};
use crate::expression::{write_reference, write_subscripts};
use crate::item::{wanted_by, write_algorithm_section, write_equation_section, write_import_line};
use crate::simple_body::{write_derivative, write_enumeration};
use mo_pieces::{
    Pieces, Section, behind_item, separate, spaced_mark, spaced_word, text_of, write_class_end,
    write_head_between, write_head_words,
};
use mo_syntax::{
    Argument, Body, Causal, ClassDef, Component, Element, Expr, Extends, Give, Item, Mods,
    NoMemory, Path, Reference, Text, What,
};
use std::alloc::Global;

/// The source text of a class, without the semicolon behind it. Where tokens of a text spell the class, in a file or inside other
/// classes, this text with a semicolon is read again as a file of that class, places aside. `NoMemory` is the only other answer.
pub fn class_text(alloc: Global, c: &ClassDef) -> Result<Text, NoMemory>
    ensures text { IfOk result (λ t. t ≡ text_of_pieces (pieces_of_class c.now)) }
    ensures read { IfOk result (λ t. IsReadAsFile t c.now) }
{
    let mut pieces = Pieces::new(alloc);
    write_class(&mut pieces, c)?;
    text_of(alloc, &pieces)
}

// ---- classes

/// Writes a class.
#[cycle(class)]
fn write_class<'t>(out: &mut Pieces<'t>, class: &'t ClassDef) -> Result<(), NoMemory>
    ensures { OnOk result (gathered out.new ≡ gathered out.old ++ pieces_of_class class.now) }
{
    write_head_words(out, class.kind, class.flags)?;
    write_body(out, &class.body, class.name.as_str())
}

/// Writes what stands behind the words that a class begins with.
#[cycle(class)]
#[tactic(auto, using(crate::proofs::ClassLayers::class_layers))]
fn write_body<'t>(out: &mut Pieces<'t>, body: &'t Body, name: &'t str) -> Result<(), NoMemory>
    ensures { OnOk result (gathered out.new ≡ gathered out.old ++ shown_body body.now name.now) }
{
    match body {
        Body::Long {
            extending,
            items,
            external,
        } => {
            write_name(out, extending, name)?;
            write_inside(out, items.as_slice(), *external, name)
        }
        Body::Short {
            causal,
            base,
            subs,
            mods,
        } => write_short(out, mods, *causal, base, subs.as_slice(), name),
        Body::Enumeration(literals) => write_enumeration(out, literals, name),
        Body::Der(function, names) => write_derivative(out, function, names.as_slice(), name),
    }
}

/// Writes the name of a class, with the modifiers of `extends NAME`.
#[cycle(class)]
fn write_name<'t>(
    out: &mut Pieces<'t>,
    extending: &'t Option<Mods>,
    name: &'t str,
) -> Result<(), NoMemory>
    ensures { OnOk result (gathered out.new ≡ gathered out.old ++ name_with shown_give extending.now name.now) }
{
    match extending {
        None => out.name(name),
        Some(mods) => {
            out.word("extends")?;
            out.blank()?;
            out.name(name)?;
            write_mods(out, mods)
        }
    }
}

/// Writes the items of a class and its end.
#[cycle(class)]
fn write_inside<'t>(
    out: &mut Pieces<'t>,
    items: &'t [Item],
    external: bool,
    name: &'t str,
) -> Result<(), NoMemory>
    ensures { OnOk result (gathered out.new ≡ gathered out.old ++ inside_of (map shown_item items.now) external name.now) }
{
    out.deeper()?;
    write_items(out, items)?;
    out.shallower()?;
    write_class_end(out, external, name)
}

/// Writes a short class.
#[cycle(class)]
fn write_short<'t>(
    out: &mut Pieces<'t>,
    mods: &'t Mods,
    causal: Causal,
    base: &'t Reference,
    subs: &'t [Option<Expr>],
    name: &'t str,
) -> Result<(), NoMemory>
    ensures { OnOk result (gathered out.new ≡ gathered out.old ++ short_with shown_give causal base.now subs.now mods.now name.now) }
{
    out.name(name)?;
    spaced_mark(out, "=")?;
    write_causal(out, causal)?;
    write_reference(out, base)?;
    write_subscripts(out, subs)?;
    write_mods(out, mods)
}

/// Writes the items of a class, with the heads of the sections that they stand in.
#[cycle(class)]
fn write_items<'t>(out: &mut Pieces<'t>, items: &'t [Item]) -> Result<(), NoMemory>
    ensures { OnOk result (gathered out.new ≡ gathered out.old ++ pieces_of_items items.now) }
{
    let mut before = Section::Public;
    for item in items {
        let behind = behind_item(before, wanted_by(item));
        write_head_between(out, before, behind)?;
        write_item(out, item)?;
        before = behind;
    }
    Ok(())
}

/// Writes an item of a class.
#[cycle(class)]
#[tactic(auto, using(crate::proofs::ClassLayers::class_layers))]
fn write_item<'t>(out: &mut Pieces<'t>, item: &'t Item) -> Result<(), NoMemory>
    ensures { OnOk result (gathered out.new ≡ gathered out.old ++ (shown_item item.now).pieces) }
{
    match item {
        Item::Import(import) => write_import_line(out, import),
        Item::Extends(clause) => write_extends(out, clause),
        Item::Member(element) => {
            out.line()?;
            write_element(out, element)?;
            out.mark(";")
        }
        Item::Equations(initial, equations) => {
            write_equation_section(out, *initial, equations.as_slice())
        }
        Item::Algorithm(initial, statements) => {
            write_algorithm_section(out, *initial, statements.as_slice())
        }
    }
}

/// Writes an extends clause on a line of its own.
#[cycle(class)]
fn write_extends<'t>(out: &mut Pieces<'t>, clause: &'t Extends) -> Result<(), NoMemory>
    ensures { OnOk result (gathered out.new ≡ gathered out.old ++ on_a_line (extends_with shown_give clause.now)) }
{
    out.line()?;
    out.word("extends")?;
    out.blank()?;
    write_reference(out, &clause.base)?;
    write_mods(out, &clause.mods)?;
    out.mark(";")
}

/// Writes an element.
#[cycle(class)]
#[tactic(auto, using(crate::proofs::ClassLayers::class_layers))]
fn write_element<'t>(out: &mut Pieces<'t>, element: &'t Element) -> Result<(), NoMemory>
    ensures { OnOk result (gathered out.new ≡ gathered out.old ++ pieces_of_element element.now) }
{
    write_flags(out, element.flags)?;
    write_what(out, &element.what)?;
    match &element.limit {
        None => Ok(()),
        Some((base, mods)) => write_limit(out, mods, base),
    }
}

/// Writes what an element declares.
#[cycle(class)]
#[tactic(auto, using(crate::proofs::ClassLayers::class_layers))]
fn write_what<'t>(out: &mut Pieces<'t>, what: &'t What) -> Result<(), NoMemory>
    ensures { OnOk result (gathered out.new ≡ gathered out.old ++ pieces_of_what what.now) }
{
    match what {
        What::Class(class) => write_class(out, class),
        What::Component(component) => write_component(out, component),
    }
}

/// Writes a component.
#[cycle(class)]
fn write_component<'t>(out: &mut Pieces<'t>, component: &'t Component) -> Result<(), NoMemory>
    ensures { OnOk result (gathered out.new ≡ gathered out.old ++ component_with shown_give component.now) }
{
    write_type(out, component)?;
    out.blank()?;
    out.name(component.name.as_str())?;
    write_subscripts(out, component.subs.as_slice())?;
    write_mods(out, &component.mods)?;
    write_value(out, component)
}

/// Writes a constraining clause.
#[cycle(class)]
fn write_limit<'t>(
    out: &mut Pieces<'t>,
    mods: &'t Mods,
    base: &'t Reference,
) -> Result<(), NoMemory>
    ensures { OnOk result (gathered out.new ≡ gathered out.old ++ (spaced (a_word (codes "constrainedby")) ++ (pieces_of_reference base.now ++ pieces_of_mods mods.now))) }
{
    spaced_word(out, "constrainedby")?;
    write_reference(out, base)?;
    write_mods(out, mods)
}

// ---- modifiers

/// Writes a modifier list, nothing where it is empty.
#[cycle(class)]
fn write_mods<'t>(out: &mut Pieces<'t>, mods: &'t Mods) -> Result<(), NoMemory>
    ensures { OnOk result (gathered out.new ≡ gathered out.old ++ pieces_of_mods mods.now) }
{
    if mods.0.is_empty() {
        return Ok(());
    }
    out.mark("(")?;
    write_arguments(out, mods.0.as_slice())?;
    out.mark(")")
}

/// Writes arguments with commas between them.
#[cycle(class)]
fn write_arguments<'t>(out: &mut Pieces<'t>, arguments: &'t [Argument]) -> Result<(), NoMemory>
    ensures { OnOk result (gathered out.new ≡ gathered out.old ++ commas pieces_of_argument arguments.now) }
{
    let mut first = true;
    for argument in arguments {
        separate(out, first)?;
        write_argument(out, argument)?;
        first = false;
    }
    Ok(())
}

/// Writes an argument of a modifier list.
#[cycle(class)]
fn write_argument<'t>(out: &mut Pieces<'t>, argument: &'t Argument) -> Result<(), NoMemory>
    ensures { OnOk result (gathered out.new ≡ gathered out.old ++ pieces_of_argument argument.now) }
{
    write_give(
        out,
        &argument.give,
        argument.each,
        argument.last,
        &argument.name,
    )
}

/// Writes what an argument gives, with its flags and its name.
#[cycle(class)]
#[tactic(auto, using(crate::proofs::ClassLayers::class_layers))]
fn write_give<'t>(
    out: &mut Pieces<'t>,
    give: &'t Give,
    each: bool,
    last: bool,
    name: &'t Path,
) -> Result<(), NoMemory>
    ensures { OnOk result (gathered out.new ≡ gathered out.old ++ shown_give give.now (word_if (codes "each") each ++ word_if (codes "final") last) (pieces_of_path name.now)) }
{
    match give {
        Give::Modify(mods, value) => {
            write_argument_flags(out, each, last)?;
            write_path(out, name)?;
            write_mods(out, mods)?;
            write_binding(out, value)
        }
        Give::Redeclare(element) => {
            out.word("redeclare")?;
            out.blank()?;
            write_argument_flags(out, each, last)?;
            write_element(out, element)
        }
        Give::Replaceable(element) => {
            write_argument_flags(out, each, last)?;
            write_element(out, element)
        }
    }
}
