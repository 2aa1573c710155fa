//! How deep classes stand in each other.
ghost use Rattle.std.specs.Prelude.{◌≡◌, ◌-◌, ◌^◌, min};
ghost use Rattle.mo_syntax.specs.Depth.{greatest_by, depth_of, depth_in_body, depth_in_item, depth_in_what};

use crate::class::{Body, ClassDef, Item, What};

/// How deep classes stand in each other in this one, itself included: 1 for a class without classes. Classes in
/// arguments of modifier lists do not count. Past the greatest `u32` the answer is that number. Takes no memory.
#[cycle(depth)]
pub fn depth(class: &ClassDef) -> u32
    ensures { result ≡ min (depth_of class.now) (2 ^ 32 - 1) }
{
    of_body(&class.body).saturating_add(1)
}

#[cycle(depth)]
fn of_body(body: &Body) -> u32
    ensures { result ≡ min (depth_in_body body.now) (2 ^ 32 - 1) }
{
    match body {
        Body::Long {
            extending: _,
            items,
            external: _,
        } => of_items(items.as_slice()),
        Body::Short {
            causal: _,
            base: _,
            subs: _,
            mods: _,
        } => 0,
        Body::Enumeration(_) => 0,
        Body::Der(_, _) => 0,
    }
}

#[cycle(depth)]
fn of_items(items: &[Item]) -> u32
    ensures { result ≡ min (greatest_by depth_in_item items.now) (2 ^ 32 - 1) }
{
    let mut most = 0u32;
    for item in items {
        most = most.max(of_item(item));
    }
    most
}

#[cycle(depth)]
fn of_item(item: &Item) -> u32
    ensures { result ≡ min (depth_in_item item.now) (2 ^ 32 - 1) }
{
    match item {
        Item::Member(element) => of_what(&element.what),
        Item::Import(_) => 0,
        Item::Extends(_) => 0,
        Item::Equations(_, _) => 0,
        Item::Algorithm(_, _) => 0,
    }
}

#[cycle(depth)]
fn of_what(what: &What) -> u32
    ensures { result ≡ min (depth_in_what what.now) (2 ^ 32 - 1) }
{
    match what {
        What::Class(class) => depth(class),
        What::Component(_) => 0,
    }
}
