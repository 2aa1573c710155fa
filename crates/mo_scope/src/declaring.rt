//! What declares an element of a class.
ghost use Rattle.std.specs.Prelude.{◌≡◌, option_map};
ghost use Rattle.mo_scope.specs.Rows.{short_modifiers as modifiers_of_short, declared_class as class_declared, declared_component as component_declared, declared_by as element_declared, constraint_in, no_modifiers as without_modifiers};
ghost use Rattle.mo_scope.specs.Sights.{modifiers_seen, declares_seen, constraint_seen};

use crate::row::{Constraint, Declares, Sort};
use crate::source::Modifiers;
use mo_syntax::{Body, ClassDef, Component, Element, ElementFlags, Mods, Reference, What};

/// The modifiers of a short class, none of another.
fn short_modifiers<'t>(body: &'t Body) -> Modifiers<'t>
    ensures { modifiers_seen result ≡ modifiers_of_short body.now }
{
    match body {
        Body::Short {
            causal: _,
            base: _,
            subs: _,
            mods,
        } => Modifiers {
            list: mods.0.as_slice(),
            value: None,
        },
        Body::Long {
            extending: _,
            items: _,
            external: _,
        } => no_modifiers(),
        Body::Enumeration(_) => no_modifiers(),
        Body::Der(_, _) => no_modifiers(),
    }
}

fn no_modifiers<'t>() -> Modifiers<'t>
    ensures { modifiers_seen result ≡ without_modifiers }
{
    Modifiers {
        list: &[],
        value: None,
    }
}

/// What a class definition declares, which has that number.
pub(crate) fn declared_class<'t>(
    class: &'t ClassDef,
    number: u32,
    flags: ElementFlags,
    limit: Option<Constraint<'t>>,
) -> Declares<'t>
    ensures { declares_seen result ≡ class_declared class.now number flags (option_map constraint_seen limit.entry) }
{
    Declares {
        name: &class.name,
        place: class.place,
        flags,
        sort: Sort::Class {
            number,
            encapsulated: class.flags.encapsulated,
        },
        own: short_modifiers(&class.body),
        limit,
    }
}

fn declared_component<'t>(
    component: &'t Component,
    flags: ElementFlags,
    limit: Option<Constraint<'t>>,
) -> Declares<'t>
    ensures { declares_seen result ≡ component_declared component.now flags (option_map constraint_seen limit.entry) }
{
    Declares {
        name: &component.name,
        place: component.place,
        flags,
        sort: Sort::Component(component),
        own: Modifiers {
            list: component.mods.0.as_slice(),
            value: component.binding.as_ref(),
        },
        limit,
    }
}

/// The constraining clause of an element.
fn constraint_of<'t>(limit: &'t Option<(Reference, Mods)>) -> Option<Constraint<'t>>
    ensures { option_map constraint_seen result ≡ constraint_in limit.now }
{
    match limit {
        Some((class, mods)) => Some(Constraint {
            class,
            modifiers: Modifiers {
                list: mods.0.as_slice(),
                value: None,
            },
        }),
        None => None,
    }
}

/// What an element of the text declares; the number is that of its class, if it declares one.
pub(crate) fn declared_by<'t>(element: &'t Element, number: u32) -> Declares<'t>
    ensures { declares_seen result ≡ element_declared element.now number }
{
    let limit = constraint_of(&element.limit);
    match &element.what {
        What::Class(class) => declared_class(class, number, element.flags, limit),
        What::Component(component) => declared_component(component, element.flags, limit),
    }
}
