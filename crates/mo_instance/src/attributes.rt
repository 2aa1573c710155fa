//! The attributes of the predefined types (Modelica Language Specification 3.5, section 4.8).
ghost use Rattle.std.specs.Prelude.{◌≡◌, option_map};
ghost use Rattle.std.specs.Str.{bytes_eq};
ghost use Rattle.mo_flat.specs.Text.{attribute_name};
ghost use Rattle.mo_scope.specs.Worlds.{IsFrame, frame_at, frame_in, frames_of};
ghost use Rattle.mo_names.specs.Sights.{IsLeaf};
ghost use Rattle.mo_eval.specs.References.{kind_of_class as class_kind};
ghost use Rattle.mo_instance.specs.Attributes.{attributes_of as numbers_of_attributes, is_attribute as is_attribute_name, kind_of_leaf as leaf_kind};
ghost use Rattle.mo_instance.specs.steps.Instances.{is_attribute_of as names_attribute};

use mo_flat::name_of_attribute;
use mo_scope::Scopes;
use mo_syntax::{ClassId, FrameId, Kind, Text};

const OF_REAL: [u8; 10] = [0, 1, 2, 3, 4, 5, 6, 7, 8, 9];

const OF_ORDERED: [u8; 5] = [0, 3, 4, 5, 6];

const OF_OTHERS: [u8; 3] = [0, 5, 6];

/// The attributes of a kind, by their numbers.
pub(crate) fn attributes_of(kind: Kind) -> &'static [u8]
    ensures { result.now ≡ numbers_of_attributes kind }
{
    match kind {
        Kind::Real => &OF_REAL,
        Kind::Whole => &OF_ORDERED,
        Kind::Truth => &OF_OTHERS,
        Kind::Str => &OF_OTHERS,
        Kind::Enumeration(_) => &OF_ORDERED,
    }
}

/// The kind of a leaf type.
fn kind_of_class(class: ClassId) -> Kind
    ensures { result ≡ class_kind class.0 }
{
    match class.0 {
        0 => Kind::Real,
        1 => Kind::Whole,
        2 => Kind::Truth,
        3 => Kind::Str,
        _ => Kind::Enumeration(class),
    }
}

/// The kind of a frame of leaf type.
pub(crate) fn kind_of_leaf(s: &Scopes, leaf: FrameId) -> Kind
    requires { IsFrame s.now leaf.0 }
    ensures { result ≡ leaf_kind (frame_at s.now leaf.0) }
{
    kind_of_class(s.class_of(leaf))
}

/// Whether an attribute has that name.
fn is_named(attribute: u8, name: &Text) -> bool
    ensures { result ≡ bytes_eq (attribute_name attribute) name.now }
{
    name_of_attribute(attribute) == name.as_str()
}

/// Whether one of some attributes has that name.
fn is_among(attributes: &[u8], name: &Text) -> bool
    ensures { result ≡ names_attribute attributes.now name.now }
{
    for attribute in attributes {
        if is_named(*attribute, name) {
            return true;
        }
    }
    false
}

/// Whether a kind has an attribute of that name.
fn is_attribute_of(kind: Kind, name: &Text) -> bool
    ensures { result ≡ names_attribute (numbers_of_attributes kind) name.now }
{
    is_among(attributes_of(kind), name)
}

/// Whether a name is an attribute, where the bases of a class end at that leaf type.
pub(crate) fn is_attribute(s: &Scopes, leaf: Option<FrameId>, name: &Text) -> bool
    requires { IsLeaf s.now leaf }
    ensures { result ≡ is_attribute_name (option_map (λ frame. frame_in (frames_of s.now) frame.0) leaf) name.now }
{
    match leaf {
        Some(leaf) => is_attribute_of(kind_of_leaf(s, leaf), name),
        None => false,
    }
}
