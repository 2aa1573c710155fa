//! The rows of classes from their trees.
ghost use Rattle.std.specs.Prelude.{◌≡◌, false, ◌++◌, [], ◌∷◌, map, flat_map, option_map, IfOk, OnOk, if◌then◌else◌};
ghost use Rattle.std.specs.Option.{option_to_list};
ghost use Rattle.mo_syntax.specs.declared.class.Body.{out-Body};
ghost use Rattle.mo_scope.specs.Held.{number_held, group_held, row_with};
ghost use Rattle.mo_scope.specs.steps.Listed.{class_seen};
ghost use Rattle.mo_scope.specs.Rows.{Element_of, Base_of, items_in, bases_in, part_of as part_of_item, import_in, number_by, declared_by as element_declared};
ghost use Rattle.mo_scope.specs.Sights.{part_seen, clause_seen, row_seen};

use crate::declaring::declared_by;
use crate::groups::{Groups, push_placed};
use crate::places::Places;
use crate::row::{Clause, Part, Row};
use crate::walk::{ClassData, home_copy};
use mo_syntax::{Body, Element, Extends, Import, Item, List, Mods, NoMemory, Reference, What};
use std::alloc::Global;

/// The number of the class that an element declares, 0 where it declares a component.
pub(crate) fn element_number(places: &Places, element: &Element) -> u32
    ensures { result ≡ number_by (number_held places.now) element.now }
{
    match &element.what {
        What::Class(class) => places.number_at(class.place),
        What::Component(_) => 0,
    }
}

/// An element as a part of its class, None where it replaces an inherited one.
fn element_part<'t>(places: &Places, element: &'t Element) -> Option<Part<'t>>
    ensures { option_to_list (option_map part_seen result) ≡ (if element.now.flags.redeclare then [] else Element_of (element_declared element.now (number_by (number_held places.now) element.now)) ∷ []) }
{
    if element.flags.redeclare {
        return None;
    }
    Some(Part::Element(declared_by(element, element_number(places, element))))
}

/// An item as a part of its class, None where it is no element and no extends clause.
fn item_part<'t>(places: &Places, item: &'t Item) -> Option<Part<'t>>
    ensures { option_to_list (option_map part_seen result) ≡ part_of_item (number_by (number_held places.now)) item.now }
{
    match item {
        Item::Member(element) => element_part(places, element),
        Item::Extends(clause) => Some(Part::Base(clause_of(clause))),
        Item::Import(_) => None,
        Item::Equations(_, _) => None,
        Item::Algorithm(_, _) => None,
    }
}

fn clause_of<'t>(clause: &'t Extends) -> Clause<'t>
    ensures { clause_seen result ≡ clause.now }
{
    Clause {
        base: &clause.base,
        list: clause.mods.0.as_slice(),
        hidden: clause.hidden,
    }
}

/// The parts of a long class.
fn item_parts<'t>(
    alloc: Global,
    places: &Places,
    items: &'t [Item],
) -> Result<List<Part<'t>>, NoMemory>
    ensures { IfOk result (λ parts. map part_seen parts ≡ flat_map (part_of_item (number_by (number_held places.now))) items.now) }
{
    let mut parts = List::new(alloc);
    for item in items {
        push_some(&mut parts, item_part(places, item))?;
    }
    Ok(parts)
}

/// Puts what is there behind others.
fn push_some<T: Copy + Drop>(items: &mut List<T>, item: Option<T>) -> Result<(), NoMemory>
    ensures { OnOk result (items.new ≡ items.old ++ option_to_list item) }
{
    match item {
        Some(item) => items.push(item),
        None => Ok(()),
    }
}

/// What stands behind `=` in a short class, as its one part.
fn base_part<'t>(
    alloc: Global,
    base: &'t Reference,
    mods: &'t Mods,
) -> Result<List<Part<'t>>, NoMemory>
    ensures { IfOk result (λ parts. map part_seen parts ≡ Base_of (record { base = base.now; mods = mods.now; hidden = false }) ∷ []) }
{
    let mut parts = List::new(alloc);
    parts.push(Part::Base(Clause {
        base,
        list: mods.0.as_slice(),
        hidden: false,
    }))?;
    Ok(parts)
}

/// The parts of a class without those that files place under it.
fn own_parts<'t>(alloc: Global, places: &Places, body: &'t Body) -> Result<List<Part<'t>>, NoMemory>
    ensures { IfOk result (λ parts. map part_seen parts ≡ flat_map (part_of_item (number_by (number_held places.now))) (items_in (out-Body body.now)) ++ map Base_of (bases_in (out-Body body.now))) }
{
    match body {
        Body::Long {
            extending: _,
            items,
            external: _,
        } => item_parts(alloc, places, items.as_slice()),
        Body::Short {
            causal: _,
            base,
            subs: _,
            mods,
        } => base_part(alloc, base, mods),
        Body::Enumeration(_) => Ok(List::new(alloc)),
        Body::Der(_, _) => Ok(List::new(alloc)),
    }
}

fn no_items<'t>() -> &'t [Item]
    ensures { result.now ≡ [] }
{
    &[]
}

/// The items of a long class, none of another.
fn items_of<'t>(body: &'t Body) -> &'t [Item]
    ensures { result.now ≡ items_in (out-Body body.now) }
{
    match body {
        Body::Long {
            extending: _,
            items,
            external: _,
        } => items.as_slice(),
        Body::Short {
            causal: _,
            base: _,
            subs: _,
            mods: _,
        } => no_items(),
        Body::Enumeration(_) => no_items(),
        Body::Der(_, _) => no_items(),
    }
}

/// An item as an import clause, None where it is another.
fn item_import<'t>(item: &'t Item) -> Option<&'t Import>
    ensures { option_to_list (option_map (λ clause. clause.now) result) ≡ import_in item.now }
{
    match item {
        Item::Import(clause) => Some(clause),
        Item::Extends(_) => None,
        Item::Member(_) => None,
        Item::Equations(_, _) => None,
        Item::Algorithm(_, _) => None,
    }
}

/// The import clauses among some items.
fn imports_of<'t>(alloc: Global, items: &'t [Item]) -> Result<List<&'t Import>, NoMemory>
    ensures { IfOk result (λ imports. map (λ clause. clause.now) imports ≡ flat_map import_in items.now) }
{
    let mut imports = List::new(alloc);
    for item in items {
        push_some(&mut imports, item_import(item))?;
    }
    Ok(imports)
}

/// All parts of a class.
fn parts_of<'t>(
    alloc: Global,
    places: &Places,
    groups: &Groups<'t>,
    class: &ClassData<'t>,
) -> Result<List<Part<'t>>, NoMemory>
    ensures { IfOk result (λ parts. map part_seen parts ≡ (row_with (number_held places.now) (group_held groups.now) (class_seen class.now)).parts) }
{
    let mut parts = own_parts(alloc, places, &class.class.body)?;
    push_placed(alloc, groups, &class.home, &class.class.name, &mut parts)?;
    Ok(parts)
}

/// The row of a class.
fn row_of<'t>(
    alloc: Global,
    places: &Places,
    groups: &Groups<'t>,
    class: &ClassData<'t>,
) -> Result<Row<'t>, NoMemory>
    ensures { IfOk result (λ row. row_seen row ≡ row_with (number_held places.now) (group_held groups.now) (class_seen class.now)) }
{
    let items = items_of(&class.class.body);
    let parts = parts_of(alloc, places, groups, class)?;
    let imports = imports_of(alloc, items)?;
    let home = home_copy(alloc, &class.home)?;
    Ok(Row {
        number: class.number,
        home,
        outermost: class.outermost,
        class: class.class,
        parts,
        replacing: items,
        imports,
    })
}

/// The rows of classes in their order.
pub(crate) fn rows_of<'t>(
    alloc: Global,
    places: &Places,
    groups: &Groups<'t>,
    classes: &[ClassData<'t>],
) -> Result<List<Row<'t>>, NoMemory>
    ensures { IfOk result (λ rows. map row_seen rows ≡ map (row_with (number_held places.now) (group_held groups.now)) (map class_seen classes.now)) }
{
    let mut rows = List::new(alloc);
    for class in classes {
        rows.push(row_of(alloc, places, groups, class)?)?;
    }
    Ok(rows)
}
