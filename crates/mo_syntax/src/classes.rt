//! How many classes stand in the parts of a tree, at any depth, those in arguments of modifier lists included.
//!
//! One function for each kind of list, all in one cycle. Each sum stays at the greatest `u32` once it is reached.
ghost use Rattle.std.specs.Prelude.{◌≡◌, ◌-◌, ◌^◌, min, sum_by};
ghost use Rattle.mo_syntax.specs.ClassTable.{class_count as classes_in_files};
ghost use Rattle.mo_syntax.specs.steps.Parts.{classes_in_body, classes_in_class, classes_in_give, classes_in_item, classes_in_what, classes_in_element, classes_in_extending, classes_in_file};

use crate::class::{Argument, Body, ClassDef, Element, FileTree, Give, Item, Mods, What};

/// The number of class definitions in these files, at any depth, those in arguments of modifier lists included. Past
/// the greatest `u32` the answer is that number. Takes no memory.
pub fn class_count(files: &[FileTree]) -> u32
    ensures { result ≡ min (classes_in_files files.now) (2 ^ 32 - 1) }
{
    let mut all = 0u32;
    for file in files {
        all = all.saturating_add(of_file(file));
    }
    all
}

/// The number of classes in a file.
pub(crate) fn of_file(file: &FileTree) -> u32
    ensures { result ≡ min (classes_in_file file.now) (2 ^ 32 - 1) }
{
    of_classes(file.classes.as_slice())
}

fn of_classes(classes: &[ClassDef]) -> u32
    ensures { result ≡ min (sum_by classes_in_class classes.now) (2 ^ 32 - 1) }
{
    let mut all = 0u32;
    for class in classes {
        all = all.saturating_add(of_class(class));
    }
    all
}

/// The number of classes in a class, itself included.
pub(crate) fn of_class(class: &ClassDef) -> u32
    ensures { result ≡ min (classes_in_class class.now) (2 ^ 32 - 1) }
{
    of_body(&class.body).saturating_add(1)
}

#[cycle(classes)]
#[tactic(auto, using(crate::proofs::ClassCounts::counts))]
fn of_body(body: &Body) -> u32
    ensures { result ≡ min (classes_in_body body.now) (2 ^ 32 - 1) }
{
    match body {
        Body::Long {
            extending,
            items,
            external: _,
        } => of_extending(extending).saturating_add(of_items(items.as_slice())),
        Body::Short {
            causal: _,
            base: _,
            subs: _,
            mods,
        } => of_arguments(mods.0.as_slice()),
        Body::Enumeration(_) => 0,
        Body::Der(_, _) => 0,
    }
}

/// The number of classes in what stands behind `extends NAME` at the head of a class.
#[cycle(classes)]
#[tactic(auto, using(crate::proofs::ClassCounts::counts))]
pub(crate) fn of_extending(extending: &Option<Mods>) -> u32
    ensures { result ≡ min (classes_in_extending extending.now) (2 ^ 32 - 1) }
{
    match extending {
        Some(mods) => of_arguments(mods.0.as_slice()),
        None => 0,
    }
}

#[cycle(classes)]
fn of_items(items: &[Item]) -> u32
    ensures { result ≡ min (sum_by classes_in_item items.now) (2 ^ 32 - 1) }
{
    let mut all = 0u32;
    for item in items {
        all = all.saturating_add(of_item(item));
    }
    all
}

/// The number of classes in a part of a class.
#[cycle(classes)]
#[tactic(auto, using(crate::proofs::ClassCounts::counts))]
pub(crate) fn of_item(item: &Item) -> u32
    ensures { result ≡ min (classes_in_item item.now) (2 ^ 32 - 1) }
{
    match item {
        Item::Member(element) => of_element(element),
        Item::Extends(clause) => of_arguments(clause.mods.0.as_slice()),
        Item::Import(_) => 0,
        Item::Equations(_, _) => 0,
        Item::Algorithm(_, _) => 0,
    }
}

#[cycle(classes)]
#[tactic(auto, using(crate::proofs::ClassCounts::counts))]
fn of_element(element: &Element) -> u32
    ensures { result ≡ min (classes_in_element element.now) (2 ^ 32 - 1) }
{
    let declared = of_what(&element.what);
    match &element.limit {
        Some((_, mods)) => declared.saturating_add(of_arguments(mods.0.as_slice())),
        None => declared,
    }
}

#[cycle(classes)]
#[tactic(auto, using(crate::proofs::ClassCounts::counts))]
fn of_what(what: &What) -> u32
    ensures { result ≡ min (classes_in_what what.now) (2 ^ 32 - 1) }
{
    match what {
        What::Class(class) => of_body(&class.body).saturating_add(1),
        What::Component(component) => of_arguments(component.mods.0.as_slice()),
    }
}

#[cycle(classes)]
fn of_arguments(arguments: &[Argument]) -> u32
    ensures { result ≡ min (sum_by (λ argument. classes_in_give argument.give) arguments.now) (2 ^ 32 - 1) }
{
    let mut all = 0u32;
    for argument in arguments {
        all = all.saturating_add(of_give(&argument.give));
    }
    all
}

#[cycle(classes)]
#[tactic(auto, using(crate::proofs::ClassCounts::counts))]
fn of_give(give: &Give) -> u32
    ensures { result ≡ min (classes_in_give give.now) (2 ^ 32 - 1) }
{
    match give {
        Give::Modify(mods, _) => of_arguments(mods.0.as_slice()),
        Give::Redeclare(element) => of_element(element),
        Give::Replaceable(element) => of_element(element),
    }
}
