//! The elements of frames, and what names find there, while classes are having their bases found: each needs the other (Modelica
//! Language Specification 3.5, sections 5.3, 5.6.1, 7.1 to 7.3 and 13.2).
//!
//! Begin with `src/circle.rt` and `src/bases.rt`; the definitions to read first are `crates/mo_scope/specs/Names.antt`,
//! `specs/Sights.antt` and `specs/Children.antt`, and `specs/Calls.antt` for what the calls answer. What this crate may not know ends its
//! paragraph in docs/ARCHITECTURE.md. What is asked where no class is having its bases found stands in mo_lookup.
//!
//! - [`Ask`]: how the elements of frames are asked. [`Walk`], [`Inherited`] and [`Added`]: elements with the base frames on the way to
//!   them. [`started`], [`own_walked`], [`with_elements`], [`without_names`] and [`turned`] join them; [`walked`] gives those of a frame,
//!   and [`walk_kept`], [`members_held`] and [`elements_kept`] those that are kept of it.
//! - [`base_found`]: the base of an extends clause. [`found_first`], [`reached`], [`behind_class`] and [`class_named`]: what names find,
//!   as [`Found`], [`Reached`], [`Met`] and [`Classed`]. [`own_named`] looks among the elements that a class declares itself.
//! - [`part_at`], [`part_count`], [`NumberedPart`], [`NumberedClause`]: the parts of a class by number.
//! - [`entered_class`]: the frame of an element that is a class. [`Child`] is an element, entered at an index (mo_lookup).
//! - [`literal_name`], [`type_name`], [`looked_up_class`]: the names of literals and of predefined types, and the classes of these.
//!   [`names_copied`], [`name_copied`], [`path_copied`]: copies of names of paths.
//!
//! Each call keeps the frames that exist, after a refusal too. A broken rule is the first one of the definition in `mo_scope`.
#![tactic(auto)]

mod bases;
mod circle;
mod class_element;
mod depth;
mod found;
mod found_before;
mod given;
mod importing;
mod join;
mod kept;
mod literals;
mod own;
mod own_walk;
mod parts;
mod past;
mod reach;
mod same;
mod start;
mod top;
mod walk;

pub use bases::{base_found, class_named, found_first};
pub use circle::{behind_class, reached, walked};
pub use class_element::entered_class;
pub use found::{Ask, Child, Classed, Found, Met, Reached};
pub use join::{Added, turned, with_elements, without_names};
pub use kept::{elements_kept, members_held, walk_kept};
pub use literals::literal_name;
pub use own::own_named;
pub use own_walk::own_walked;
pub use parts::{NumberedClause, NumberedPart, part_at, part_count};
pub use reach::{is_busy, is_closed};
pub use start::{
    is_unowned, leaf_checked, name_copied, names_copied, owner_of, path_copied, started,
};
pub use top::{looked_up_class, type_name};
pub use walk::{Inherited, Walk};
