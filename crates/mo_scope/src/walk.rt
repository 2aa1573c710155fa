//! The classes of the files, in the order of files and bytes.
ghost use Rattle.std.specs.Prelude.{◌≡◌, ◌∷◌, [], ◌++◌, map, true, false, IfOk};
ghost use Rattle.mo_syntax.specs.Classes.{inside as home_inside, Under, Apart, each, outline_of_body, outline_of_give, outline_of_item, outline_of_what, outline_of_element};
ghost use Rattle.mo_syntax.specs.ClassTable.{names_of, in_file};
ghost use Rattle.mo_syntax.specs.steps.Parts.{outline_of_class, outline_of_extending, marked};
ghost use Rattle.mo_scope.specs.steps.Listed.{Lists, class_seen};
ghost use Rattle.mo_scope.specs.Rows.{entries_of};
ghost use Rattle.mo_scope.specs.Sights.{home_seen};

use crate::row::Home;
use mo_syntax::{
    Argument, Body, ClassDef, Element, FileTree, Give, Item, List, Mods, NoMemory, Text, What,
};
use std::alloc::Global;

/// A class of the files with its number.
#[derive(Drop)]
pub(crate) struct ClassData<'t> {
    pub home: Home<'t>,
    pub class: &'t ClassDef,
    /// Whether it stands in no other class of its file.
    pub outermost: bool,
    pub number: u32,
}

/// The names of a path.
fn path_of<'t>(alloc: Global, names: &'t [Text]) -> Result<List<&'t Text>, NoMemory>
    ensures { IfOk result (λ path. map (λ name. name.now) path ≡ names.now) }
{
    let mut path = List::new(alloc);
    for name in names {
        path.push(name)?;
    }
    Ok(path)
}

/// A copy of some names.
fn path_copy<'t>(alloc: Global, names: &[&'t Text]) -> Result<List<&'t Text>, NoMemory>
    ensures { IfOk result (λ path. map (λ name. name.now) path ≡ map (λ name. name.now) names.now) }
{
    let mut path = List::new(alloc);
    for name in names {
        path.push(*name)?;
    }
    Ok(path)
}

/// A copy of some names, with one more behind them.
fn longer_path<'t>(
    alloc: Global,
    names: &[&'t Text],
    last: &'t Text,
) -> Result<List<&'t Text>, NoMemory>
    ensures { IfOk result (λ path. map (λ name. name.now) path ≡ map (λ name. name.now) names.now ++ last.now ∷ []) }
{
    let mut path = path_copy(alloc, names)?;
    path.push(last)?;
    Ok(path)
}

/// A copy of a home.
pub(crate) fn home_copy<'t>(alloc: Global, home: &Home<'t>) -> Result<Home<'t>, NoMemory>
    ensures { IfOk result (λ copy. home_seen copy ≡ home_seen home.now) }
{
    match home {
        Home::Under(path) => Ok(Home::Under(path_copy(alloc, path.as_slice())?)),
        Home::Inside(number) => Ok(Home::Inside(*number)),
        Home::Apart => Ok(Home::Apart),
    }
}

/// Whose elements the names in a class are, which stands in a home.
fn inside<'t>(
    alloc: Global,
    home: &Home<'t>,
    name: &'t Text,
    number: u32,
) -> Result<Home<'t>, NoMemory>
    ensures { IfOk result (λ inner. home_seen inner ≡ home_inside (home_seen home.now) name.now number) }
{
    match home {
        Home::Under(path) => Ok(Home::Under(longer_path(alloc, path.as_slice(), name)?)),
        Home::Inside(_) => Ok(Home::Inside(number)),
        Home::Apart => Ok(Home::Inside(number)),
    }
}

/// Puts the classes of a file behind others, where its first class has that number. The answer is the number
/// behind its last class; a number past the greatest is want of memory.
pub(crate) fn file_classes<'t>(
    alloc: Global,
    file: &'t FileTree,
    first: u32,
    so_far: &mut List<ClassData<'t>>,
) -> Result<u32, NoMemory>
    ensures { IfOk result (λ next. Lists (in_file file.now) Apart first (map class_seen so_far.old) (map class_seen so_far.new) next) }
{
    let scope = file_scope(alloc, file)?;
    of_classes(alloc, file.classes.as_slice(), &scope, first, so_far)
}

/// Where the classes of a file stand.
fn file_scope<'t>(alloc: Global, file: &'t FileTree) -> Result<Home<'t>, NoMemory>
    ensures { IfOk result (λ scope. home_seen scope ≡ Under (names_of file.now.within)) }
{
    match &file.within {
        Some((within, _)) => Ok(Home::Under(path_of(alloc, within.0.as_slice())?)),
        None => Ok(Home::Under(List::new(alloc))),
    }
}

fn of_classes<'t>(
    alloc: Global,
    classes: &'t [ClassDef],
    scope: &Home<'t>,
    first: u32,
    so_far: &mut List<ClassData<'t>>,
) -> Result<u32, NoMemory>
    ensures { IfOk result (λ next. Lists (each (outline_of_class true) classes.now) (home_seen scope.now) first (map class_seen so_far.old) (map class_seen so_far.new) next) }
{
    let mut next = first;
    for class in classes {
        next = of_class(alloc, class, true, scope, next, so_far)?;
    }
    Ok(next)
}

#[cycle(walk)]
fn of_class<'t>(
    alloc: Global,
    class: &'t ClassDef,
    outermost: bool,
    scope: &Home<'t>,
    number: u32,
    so_far: &mut List<ClassData<'t>>,
) -> Result<u32, NoMemory>
    ensures { IfOk result (λ next. Lists (outline_of_class outermost class.now) (home_seen scope.now) number (map class_seen so_far.old) (map class_seen so_far.new) next) }
{
    let home = home_copy(alloc, scope)?;
    so_far.push(ClassData {
        home,
        class,
        outermost,
        number,
    })?;
    let inner = inside(alloc, scope, &class.name, number)?;
    let Some(first) = number.checked_add(1) else {
        return Err(NoMemory);
    };
    of_body(alloc, &class.body, &inner, first, so_far)
}

#[cycle(walk)]
fn of_body<'t>(
    alloc: Global,
    body: &'t Body,
    scope: &Home<'t>,
    first: u32,
    so_far: &mut List<ClassData<'t>>,
) -> Result<u32, NoMemory>
    ensures { IfOk result (λ next. Lists (outline_of_body body.now) (home_seen scope.now) first (map class_seen so_far.old) (map class_seen so_far.new) next) }
{
    match body {
        Body::Long {
            extending,
            items,
            external: _,
        } => {
            let next = of_extending(alloc, extending, first, so_far)?;
            of_items(alloc, items.as_slice(), scope, next, so_far)
        }
        Body::Short {
            causal: _,
            base: _,
            subs: _,
            mods,
        } => of_arguments(alloc, mods.0.as_slice(), first, so_far),
        Body::Enumeration(_) => Ok(first),
        Body::Der(_, _) => Ok(first),
    }
}

#[cycle(walk)]
fn of_extending<'t>(
    alloc: Global,
    extending: &'t Option<Mods>,
    first: u32,
    so_far: &mut List<ClassData<'t>>,
) -> Result<u32, NoMemory>
    ensures { IfOk result (λ next. Lists (outline_of_extending extending.now) Apart first (map class_seen so_far.old) (map class_seen so_far.new) next) }
{
    match extending {
        Some(mods) => of_arguments(alloc, mods.0.as_slice(), first, so_far),
        None => Ok(first),
    }
}

#[cycle(walk)]
fn of_items<'t>(
    alloc: Global,
    items: &'t [Item],
    scope: &Home<'t>,
    first: u32,
    so_far: &mut List<ClassData<'t>>,
) -> Result<u32, NoMemory>
    ensures { IfOk result (λ next. Lists (each outline_of_item items.now) (home_seen scope.now) first (map class_seen so_far.old) (map class_seen so_far.new) next) }
{
    let mut next = first;
    for item in items {
        next = of_item(alloc, item, scope, next, so_far)?;
    }
    Ok(next)
}

#[cycle(walk)]
fn of_item<'t>(
    alloc: Global,
    item: &'t Item,
    scope: &Home<'t>,
    first: u32,
    so_far: &mut List<ClassData<'t>>,
) -> Result<u32, NoMemory>
    ensures { IfOk result (λ next. Lists (outline_of_item item.now) (home_seen scope.now) first (map class_seen so_far.old) (map class_seen so_far.new) next) }
{
    match item {
        Item::Member(element) => of_element(alloc, element, scope, first, so_far),
        Item::Extends(clause) => of_arguments(alloc, clause.mods.0.as_slice(), first, so_far),
        Item::Import(_) => Ok(first),
        Item::Equations(_, _) => Ok(first),
        Item::Algorithm(_, _) => Ok(first),
    }
}

#[cycle(walk)]
fn of_element<'t>(
    alloc: Global,
    element: &'t Element,
    scope: &Home<'t>,
    first: u32,
    so_far: &mut List<ClassData<'t>>,
) -> Result<u32, NoMemory>
    ensures { IfOk result (λ next. Lists (outline_of_element element.now) (home_seen scope.now) first (map class_seen so_far.old) (map class_seen so_far.new) next) }
{
    let next = of_declared(alloc, element, scope, first, so_far)?;
    match &element.limit {
        Some((_, mods)) => of_arguments(alloc, mods.0.as_slice(), next, so_far),
        None => Ok(next),
    }
}

/// What an element declares, which stands in no scope where it replaces an inherited element.
#[cycle(walk)]
fn of_declared<'t>(
    alloc: Global,
    element: &'t Element,
    scope: &Home<'t>,
    first: u32,
    so_far: &mut List<ClassData<'t>>,
) -> Result<u32, NoMemory>
    ensures { IfOk result (λ next. Lists (marked element.now.flags.redeclare (outline_of_what element.now.what)) (home_seen scope.now) first (map class_seen so_far.old) (map class_seen so_far.new) next) }
{
    if element.flags.redeclare {
        of_what(alloc, &element.what, &Home::Apart, first, so_far)
    } else {
        of_what(alloc, &element.what, scope, first, so_far)
    }
}

#[cycle(walk)]
fn of_what<'t>(
    alloc: Global,
    what: &'t What,
    scope: &Home<'t>,
    first: u32,
    so_far: &mut List<ClassData<'t>>,
) -> Result<u32, NoMemory>
    ensures { IfOk result (λ next. Lists (outline_of_what what.now) (home_seen scope.now) first (map class_seen so_far.old) (map class_seen so_far.new) next) }
{
    match what {
        What::Class(class) => of_class(alloc, class, false, scope, first, so_far),
        What::Component(component) => of_arguments(
            alloc,
            component.mods.0.as_slice(),
            first,
            so_far,
        ),
    }
}

#[cycle(walk)]
fn of_arguments<'t>(
    alloc: Global,
    arguments: &'t [Argument],
    first: u32,
    so_far: &mut List<ClassData<'t>>,
) -> Result<u32, NoMemory>
    ensures { IfOk result (λ next. Lists (each (λ argument. outline_of_give argument.give) arguments.now) Apart first (map class_seen so_far.old) (map class_seen so_far.new) next) }
{
    let mut next = first;
    for argument in arguments {
        next = of_give(alloc, &argument.give, next, so_far)?;
    }
    Ok(next)
}

#[cycle(walk)]
fn of_give<'t>(
    alloc: Global,
    give: &'t Give,
    first: u32,
    so_far: &mut List<ClassData<'t>>,
) -> Result<u32, NoMemory>
    ensures { IfOk result (λ next. Lists (outline_of_give give.now) Apart first (map class_seen so_far.old) (map class_seen so_far.new) next) }
{
    match give {
        Give::Modify(mods, _) => of_arguments(alloc, mods.0.as_slice(), first, so_far),
        Give::Redeclare(element) => of_element(alloc, element, &Home::Apart, first, so_far),
        Give::Replaceable(element) => of_element(alloc, element, &Home::Apart, first, so_far),
    }
}

/// The classes of the files in the order of files and bytes, with their numbers from 6. Want of memory is the only other
/// answer, also for more numbers than there are.
pub(crate) fn classes_of<'t>(
    alloc: Global,
    files: &'t [FileTree],
) -> Result<List<ClassData<'t>>, NoMemory>
    ensures { IfOk result (λ classes. map class_seen classes ≡ entries_of files.now) }
{
    let mut classes = List::new(alloc);
    let mut next = 6u32;
    for file in files {
        next = file_classes(alloc, file, next, &mut classes)?;
    }
    Ok(classes)
}
