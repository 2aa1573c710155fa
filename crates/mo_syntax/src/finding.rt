//! The class with a path, by a search that counts the classes which it passes over.
//!
//! A class inside another is looked for only where each name before has matched, so no path is written down.
ghost use Rattle.std.specs.Prelude.{◌≡◌, ◌+◌, ◌^◌, ◌<◌, List as Seq, ℕ, [], ◌∷◌, ◌++◌, length, take, sum_by, IfSome, IfNone, true};
ghost use Rattle.std.specs.Bool.{OnTrue, OnFalse};
ghost use Rattle.std.specs.Option.{option_map};
ghost use Rattle.mo_syntax.specs.Classes.{Under, Apart, each, outline_of_body, outline_of_item, outline_of_element};
ghost use Rattle.mo_syntax.specs.ClassTable.{class_count as classes_in_files, class_of_path, first_row, names_of, in_file as outline_of_file};
ghost use Rattle.mo_syntax.specs.steps.Parts.{outline_of_class, classes_in_class, classes_in_file, classes_in_body, classes_in_item, classes_in_element};
ghost use Rattle.mo_syntax.specs.Rows.{row_of, IsPassed};

use crate::class::{Body, ClassDef, ClassTree, Element, FileTree, Item, What};
use crate::classes::{of_class, of_extending, of_file, of_item};
use crate::meaning::ClassId;
use crate::text::{Path, Text};

/// A class of a set of files, with its number.
#[derive(Clone, Copy)]
pub struct ClassAt<'t> {
    pub id: ClassId,
    pub class: &'t ClassDef,
    /// Whether it stands in no other class of its file.
    pub outermost: bool,
}

/// The class with that path, None where no class has it. The first of several, which only files have that break a
/// rule of the class tree. Takes no memory.
pub fn find_class<'t>(files: &'t [FileTree], path: &[Text]) -> Option<ClassAt<'t>>
    requires few { classes_in_files files.now < 4294967290 }
    ensures { option_map row_of result ≡ class_of_path files.now path.now }
{
    let mut next = 6u32;
    for file in files {
        match in_file(file, path, next) {
            Some(found) => return Some(found),
            None => next += of_file(file),
        }
    }
    None
}

/// The number of the class with that path, None where no class has it. Takes no memory.
pub fn class_at(tree: &ClassTree, path: &Path) -> Option<ClassId>
    requires few { classes_in_files tree.now.files < 4294967290 }
    ensures { option_map (λ id. id.0) result ≡ option_map (λ at. at.number) (class_of_path tree.now.files path.now.0) }
{
    match find_class(tree.files.as_slice(), path.0.as_slice()) {
        Some(found) => Some(found.id),
        None => None,
    }
}

/// The class with that path in a file, whose first class has that number.
fn in_file<'t>(file: &'t FileTree, path: &[Text], first: u32) -> Option<ClassAt<'t>>
    requires few { first + classes_in_file file.now < 2 ^ 32 }
    ensures { option_map row_of result ≡ first_row path.now ((outline_of_file file.now).declared Apart first) }
{
    match names_before(path, within_of(file)) {
        Some(at) => in_classes(file.classes.as_slice(), path, at, first),
        None => None,
    }
}

/// The names behind `within`.
fn within_of(file: &FileTree) -> &[Text]
    ensures { result.now ≡ names_of file.now.within }
{
    match &file.within {
        Some((within, _)) => within.0.as_slice(),
        None => &[],
    }
}

/// How many names the front has, where the path begins with them and goes on.
fn names_before(path: &[Text], front: &[Text]) -> Option<usize>
    ensures begins { IfSome result (λ at. (at < length path.now) × (take at path.now ≡ front.now)) }
    ensures passed { IfNone result ((name : Seq ℕ) → IsPassed path.now (front.now ++ name ∷ [])) }
{
    if path.len() <= front.len() {
        return None;
    }
    let mut at = 0usize;
    for name in front {
        if !is_at(path, at, name) {
            return None;
        }
        at += 1;
    }
    Some(at)
}

/// Whether the path has that name behind so many others.
fn is_at(path: &[Text], at: usize, name: &Text) -> bool
    requires { at < length path.now }
    ensures yes { OnTrue result (take at path.now ++ name.now ∷ [] ≡ take (at + 1) path.now) }
    ensures no { OnFalse result (IsPassed path.now (take at path.now ++ name.now ∷ [])) }
{
    path[at].equals(name)
}

/// The class with that path among outermost ones, whose home so many names of the path lead to.
fn in_classes<'t>(
    classes: &'t [ClassDef],
    path: &[Text],
    at: usize,
    first: u32,
) -> Option<ClassAt<'t>>
    requires at { at < length path.now }
    requires few { first + sum_by classes_in_class classes.now < 2 ^ 32 }
    ensures { option_map row_of result ≡ first_row path.now ((each (outline_of_class true) classes.now).declared (Under (take at path.now)) first) }
{
    let mut next = first;
    for class in classes {
        match in_class(class, path, at, next, true) {
            Some(found) => return Some(found),
            None => next += of_class(class),
        }
    }
    None
}

/// The class with that path, which is this one or stands in it.
#[cycle(finding)]
fn in_class<'t>(
    class: &'t ClassDef,
    path: &[Text],
    at: usize,
    number: u32,
    outermost: bool,
) -> Option<ClassAt<'t>>
    requires at { at < length path.now }
    requires few { number + classes_in_class class.now < 2 ^ 32 }
    ensures { option_map row_of result ≡ first_row path.now ((outline_of_class outermost class.now).declared (Under (take at path.now)) number) }
{
    if !is_at(path, at, &class.name) {
        return None;
    }
    if at + 1 == path.len() {
        return Some(ClassAt {
            id: ClassId(number),
            class,
            outermost,
        });
    }
    in_body(&class.body, path, at + 1, number + 1)
}

#[cycle(finding)]
#[tactic(auto, using(crate::proofs::ClassCounts::counts))]
fn in_body<'t>(body: &'t Body, path: &[Text], at: usize, first: u32) -> Option<ClassAt<'t>>
    requires at { at < length path.now }
    requires few { first + classes_in_body body.now < 2 ^ 32 }
    ensures { option_map row_of result ≡ first_row path.now ((outline_of_body body.now).declared (Under (take at path.now)) first) }
{
    match body {
        Body::Long {
            extending,
            items,
            external: _,
        } => in_items(items.as_slice(), path, at, first + of_extending(extending)),
        Body::Short {
            causal: _,
            base: _,
            subs: _,
            mods: _,
        } => None,
        Body::Enumeration(_) => None,
        Body::Der(_, _) => None,
    }
}

#[cycle(finding)]
fn in_items<'t>(items: &'t [Item], path: &[Text], at: usize, first: u32) -> Option<ClassAt<'t>>
    requires at { at < length path.now }
    requires few { first + sum_by classes_in_item items.now < 2 ^ 32 }
    ensures { option_map row_of result ≡ first_row path.now ((each outline_of_item items.now).declared (Under (take at path.now)) first) }
{
    let mut next = first;
    for item in items {
        match in_item(item, path, at, next) {
            Some(found) => return Some(found),
            None => next += of_item(item),
        }
    }
    None
}

#[cycle(finding)]
#[tactic(auto, using(crate::proofs::ClassCounts::counts))]
fn in_item<'t>(item: &'t Item, path: &[Text], at: usize, first: u32) -> Option<ClassAt<'t>>
    requires at { at < length path.now }
    requires few { first + classes_in_item item.now < 2 ^ 32 }
    ensures { option_map row_of result ≡ first_row path.now ((outline_of_item item.now).declared (Under (take at path.now)) first) }
{
    match item {
        Item::Member(element) => in_element(element, path, at, first),
        Item::Import(_) => None,
        Item::Extends(_) => None,
        Item::Equations(_, _) => None,
        Item::Algorithm(_, _) => None,
    }
}

#[cycle(finding)]
#[tactic(auto, using(crate::proofs::ClassCounts::counts))]
fn in_element<'t>(element: &'t Element, path: &[Text], at: usize, first: u32) -> Option<ClassAt<'t>>
    requires at { at < length path.now }
    requires few { first + classes_in_element element.now < 2 ^ 32 }
    ensures { option_map row_of result ≡ first_row path.now ((outline_of_element element.now).declared (Under (take at path.now)) first) }
{
    if element.flags.redeclare {
        return None;
    }
    match &element.what {
        What::Class(class) => in_class(class, path, at, first, false),
        What::Component(_) => None,
    }
}
