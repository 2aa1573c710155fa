//! Frames, scopes and sources, and the definitions of what names mean (Modelica Language Specification 3.5, sections 5.3,
//! 5.4, 5.6, 7.1 to 7.3 and 13.2).
//!
//! Begin with `src/scopes.rt`; the definitions to read first are `specs/Frames.antt`, `specs/Lookup.antt` and `specs/Names.antt`, and
//! `specs/Calls.antt` for what the calls answer. What this crate may not know ends its paragraph in docs/ARCHITECTURE.md.
//!
//! - `Scopes`: the classes of the files and frames by number. `row`, `top_class`, `number_at` and `declared` read the
//!   classes; `enter` makes a frame, or finds it where it has no sources and was made before, and `entered` finds one that only
//!   looks a class up; `class_of`, `sources`, `outer`, `path` and `owner` read it; `keep` and `table` hold the table of its
//!   elements, which `MemberTable` finds by name; `keep_class` and `found_class` hold the class that a name finds, an
//!   `AskedName`; `keep_component` and `entered_component` the frame of a component; `keep_base` and `entered_base` that of a base.
//! - `Source`: what modifies a class, by reference into the class tree. `pick_here` finds the value that sources give for it, and
//!   `pick` the one for a path.
//! - `redeclared`, `redeclarations`: what redeclares an element. `child_sources`, `element_sources`, `class_sources`,
//!   `component_sources` and `base_sources` make the sources with which an element or a base is entered.
//! - `Row`, `Declares`, `Member`: a class with what it declares, and an element of a frame. `is_class`, `is_constant`,
//!   `is_encapsulated`, `is_open` and `component_of` read what is declared.
//! - `Names`: the first place of each name in a list. `is_same_path` compares instance paths.
//! - `nested_list` and `replacing` read arguments and items; `pending_at` gives the indices behind a name.
//! - `InstanceTree`, `Instance`, `Leaf`, `Chosen`: the components of a class, as data for what makes them and what reads them.
//!
//! `specs/` has the definitions of elements, lookup, children, arguments and compatibility. They speak of frames as trees;
//! `specs/Worlds.antt` says which tree a number stands for.
#![tactic(auto)]

mod classes;
mod copies;
mod declaring;
mod entered;
mod entered_bases;
mod entered_components;
mod extending;
mod found_classes;
mod frame;
mod frame_sources;
mod groups;
mod instance;
mod making;
mod mentions;
mod names;
mod own_names;
mod paths;
mod pick_path;
mod places;
mod row;
mod saying;
mod scopes;
mod sort;
mod source;
mod sources;
mod table;
mod tops;
mod values;
mod walk;
mod written;

pub use copies::{copied, copied_scope, extend};
pub use found_classes::AskedName;
pub use instance::{Chosen, Instance, InstanceTree, Leaf};
pub use names::Names;
pub use paths::is_same_path;
pub use pick_path::pick;
pub use row::{Clause, Constraint, Declares, Home, Member, Part, Row, Sort};
pub use saying::{Redeclaration, nested_list, pending_at, replacing};
pub use scopes::{DEPTH_LIMIT, Scopes};
pub use sort::{component_of, is_class, is_constant, is_encapsulated, is_open};
pub use source::{Given, Listing, Modifiers, Origin, Picked, ScopeAt, Source};
pub use table::MemberTable;
pub use values::pick_here;
pub use written::{brought, is_nothing, is_short};
