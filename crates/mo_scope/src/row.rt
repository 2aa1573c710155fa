//! Classes by number, and what they declare, by reference into the class tree.
use crate::source::Modifiers;
use mo_syntax::{ClassDef, Component, ElementFlags, Import, Item, List, Place, Reference, Text};

/// What is declared: a class by its number, or a component.
#[derive(Clone, Copy)]
pub enum Sort<'t> {
    Class { number: u32, encapsulated: bool },
    Component(&'t Component),
}

/// A constraining clause.
#[derive(Clone, Copy)]
pub struct Constraint<'t> {
    pub class: &'t Reference,
    pub modifiers: Modifiers<'t>,
}

/// What declares an element of a class.
#[derive(Clone, Copy)]
pub struct Declares<'t> {
    pub name: &'t Text,
    pub place: Place,
    pub flags: ElementFlags,
    pub sort: Sort<'t>,
    /// Its own modifiers: of a component with its binding, of a short class.
    pub own: Modifiers<'t>,
    pub limit: Option<Constraint<'t>>,
}

/// An extends clause, or what stands behind `=` in a short class.
#[derive(Clone, Copy)]
pub struct Clause<'t> {
    pub base: &'t Reference,
    pub list: &'t [mo_syntax::Argument],
    pub hidden: bool,
}

/// A part of a class that elements come from.
#[derive(Clone, Copy)]
pub enum Part<'t> {
    Element(Declares<'t>),
    Base(Clause<'t>),
}

/// Whose element the name of a class is.
#[derive(Drop)]
pub enum Home<'t> {
    /// Of the class with that path, or of the top where it is empty.
    Under(List<&'t Text>),
    /// Of the class with that number, which has no path.
    Inside(u32),
    /// Of none.
    Apart,
}

/// A class, with what stands in it.
#[derive(Drop)]
pub struct Row<'t> {
    /// Its number, from 6 in the order of files and bytes.
    pub number: u32,
    pub home: Home<'t>,
    /// Whether it stands in no other class of its file.
    pub outermost: bool,
    pub class: &'t ClassDef,
    pub parts: List<Part<'t>>,
    /// Its items, of which those with `redeclare` replace inherited elements.
    pub replacing: &'t [Item],
    pub imports: List<&'t Import>,
}

/// An element of a frame, own or inherited.
#[derive(Clone, Copy)]
pub struct Member<'t> {
    pub name: &'t Text,
    /// The frame whose class declares it.
    pub home: mo_syntax::FrameId,
    /// Its place among the elements of that class, from 0.
    pub item: u32,
    /// Whether it is protected.
    pub hidden: bool,
    pub declares: Declares<'t>,
}
