//! The names that files declare, in the order of the text.
ghost use Rattle.std.specs.Prelude.{true, false, IfOk};
ghost use Rattle.mo_syntax.specs.Classes.{Inside, Apart, each, outline_of_body, outline_of_give, outline_of_item, outline_of_what, outline_of_element};
ghost use Rattle.mo_syntax.specs.steps.Parts.{outline_of_class, outline_of_extending, marked};
ghost use Rattle.mo_tree.specs.Keys.{home_of, Lists};

use crate::names::{Name, Scope, inside, key_of};
use mo_syntax::{
    Argument, Body, ClassDef, Element, FileTree, Give, Item, List, Mods, NoMemory, What,
};
use std::alloc::Global;

/// Puts the names that a file declares behind others, where its classes are elements of the class with that number, or stand at
/// the top where it is 0, and its first class has the number `first`. The answer is the number behind its last class; a
/// number past the greatest is want of memory.
pub(crate) fn file_names(
    alloc: Global,
    file: &FileTree,
    home: u32,
    first: u32,
    names: &mut List<Name>,
) -> Result<u32, NoMemory>
    ensures { IfOk result (λ next. Lists (each (outline_of_class true) file.now.classes) (Inside home) first names.old names.new next) }
{
    of_classes(
        alloc,
        file.classes.as_slice(),
        &Scope::Of(home),
        first,
        names,
    )
}

fn of_classes(
    alloc: Global,
    classes: &[ClassDef],
    scope: &Scope,
    first: u32,
    names: &mut List<Name>,
) -> Result<u32, NoMemory>
    ensures { IfOk result (λ next. Lists (each (outline_of_class true) classes.now) (home_of scope.now) first names.old names.new next) }
{
    let mut next = first;
    for class in classes {
        next = of_class(alloc, class, scope, next, names)?;
    }
    Ok(next)
}

#[cycle(walk)]
fn of_class(
    alloc: Global,
    class: &ClassDef,
    scope: &Scope,
    number: u32,
    names: &mut List<Name>,
) -> Result<u32, NoMemory>
    ensures { IfOk result (λ next. Lists (outline_of_class false class.now) (home_of scope.now) number names.old names.new next) }
{
    let key = key_of(alloc, scope, &class.name)?;
    names.push(Name {
        key,
        place: class.place,
    })?;
    let inner = inside(scope, number);
    let Some(first) = number.checked_add(1) else {
        return Err(NoMemory);
    };
    of_body(alloc, &class.body, &inner, first, names)
}

#[cycle(walk)]
fn of_body(
    alloc: Global,
    body: &Body,
    scope: &Scope,
    first: u32,
    names: &mut List<Name>,
) -> Result<u32, NoMemory>
    ensures { IfOk result (λ next. Lists (outline_of_body body.now) (home_of scope.now) first names.old names.new next) }
{
    match body {
        Body::Long {
            extending,
            items,
            external: _,
        } => {
            let next = of_extending(alloc, extending, first, names)?;
            of_items(alloc, items.as_slice(), scope, next, names)
        }
        Body::Short {
            causal: _,
            base: _,
            subs: _,
            mods,
        } => of_arguments(alloc, mods.0.as_slice(), first, names),
        Body::Enumeration(_) => Ok(first),
        Body::Der(_, _) => Ok(first),
    }
}

#[cycle(walk)]
fn of_extending(
    alloc: Global,
    extending: &Option<Mods>,
    first: u32,
    names: &mut List<Name>,
) -> Result<u32, NoMemory>
    ensures { IfOk result (λ next. Lists (outline_of_extending extending.now) Apart first names.old names.new next) }
{
    match extending {
        Some(mods) => of_arguments(alloc, mods.0.as_slice(), first, names),
        None => Ok(first),
    }
}

#[cycle(walk)]
fn of_items(
    alloc: Global,
    items: &[Item],
    scope: &Scope,
    first: u32,
    names: &mut List<Name>,
) -> Result<u32, NoMemory>
    ensures { IfOk result (λ next. Lists (each outline_of_item items.now) (home_of scope.now) first names.old names.new next) }
{
    let mut next = first;
    for item in items {
        next = of_item(alloc, item, scope, next, names)?;
    }
    Ok(next)
}

#[cycle(walk)]
fn of_item(
    alloc: Global,
    item: &Item,
    scope: &Scope,
    first: u32,
    names: &mut List<Name>,
) -> Result<u32, NoMemory>
    ensures { IfOk result (λ next. Lists (outline_of_item item.now) (home_of scope.now) first names.old names.new next) }
{
    match item {
        Item::Member(element) => of_element(alloc, element, scope, first, names),
        Item::Extends(clause) => of_arguments(alloc, clause.mods.0.as_slice(), first, names),
        Item::Import(_) => Ok(first),
        Item::Equations(_, _) => Ok(first),
        Item::Algorithm(_, _) => Ok(first),
    }
}

#[cycle(walk)]
fn of_element(
    alloc: Global,
    element: &Element,
    scope: &Scope,
    first: u32,
    names: &mut List<Name>,
) -> Result<u32, NoMemory>
    ensures { IfOk result (λ next. Lists (outline_of_element element.now) (home_of scope.now) first names.old names.new next) }
{
    let next = of_declared(alloc, element, scope, first, names)?;
    match &element.limit {
        Some((_, mods)) => of_arguments(alloc, mods.0.as_slice(), next, names),
        None => Ok(next),
    }
}

/// What an element declares, which stands in no scope where it replaces an inherited element.
#[cycle(walk)]
fn of_declared(
    alloc: Global,
    element: &Element,
    scope: &Scope,
    first: u32,
    names: &mut List<Name>,
) -> Result<u32, NoMemory>
    ensures { IfOk result (λ next. Lists (marked element.now.flags.redeclare (outline_of_what element.now.what)) (home_of scope.now) first names.old names.new next) }
{
    if element.flags.redeclare {
        of_what(alloc, &element.what, &Scope::Apart, first, names)
    } else {
        of_what(alloc, &element.what, scope, first, names)
    }
}

#[cycle(walk)]
fn of_what(
    alloc: Global,
    what: &What,
    scope: &Scope,
    first: u32,
    names: &mut List<Name>,
) -> Result<u32, NoMemory>
    ensures { IfOk result (λ next. Lists (outline_of_what what.now) (home_of scope.now) first names.old names.new next) }
{
    match what {
        What::Class(class) => of_class(alloc, class, scope, first, names),
        What::Component(component) => {
            let key = key_of(alloc, scope, &component.name)?;
            names.push(Name {
                key,
                place: component.place,
            })?;
            of_arguments(alloc, component.mods.0.as_slice(), first, names)
        }
    }
}

#[cycle(walk)]
fn of_arguments(
    alloc: Global,
    arguments: &[Argument],
    first: u32,
    names: &mut List<Name>,
) -> Result<u32, NoMemory>
    ensures { IfOk result (λ next. Lists (each (λ argument. outline_of_give argument.give) arguments.now) Apart first names.old names.new next) }
{
    let mut next = first;
    for argument in arguments {
        next = of_give(alloc, &argument.give, next, names)?;
    }
    Ok(next)
}

#[cycle(walk)]
fn of_give(alloc: Global, give: &Give, first: u32, names: &mut List<Name>) -> Result<u32, NoMemory>
    ensures { IfOk result (λ next. Lists (outline_of_give give.now) Apart first names.old names.new next) }
{
    match give {
        Give::Modify(mods, _) => of_arguments(alloc, mods.0.as_slice(), first, names),
        Give::Redeclare(element) => of_element(alloc, element, &Scope::Apart, first, names),
        Give::Replaceable(element) => of_element(alloc, element, &Scope::Apart, first, names),
    }
}
