//! What names find from a scope, as what elements are entered, and which dimensions they have (Modelica Language Specification 3.5,
//! sections 4.5.1, 5.3, 5.4, 7.2, 7.3 and 10.1).
//!
//! Begin with `src/free.rt`, `src/lookup.rt`, `src/path.rt`, `src/outer.rt`, `src/entering.rt`, `src/bases.rt` and `src/sizes.rt`; the
//! definitions to read first are `crates/mo_scope/specs/Names.antt` and `crates/mo_scope/specs/Sizes.antt`, and
//! `crates/mo_names/specs/Calls.antt` for what the calls answer. What this crate may not know ends its paragraph in docs/ARCHITECTURE.md.
//!
//! - [`elements`], [`walk_of`], [`base_of`]: the elements of a frame, inherited and own; those with the base frames on the way to them,
//!   as [`Walk`](mo_names::Walk); and the base frame of an extends clause. [`elements_kept_at`] keeps them for those who ask later.
//! - [`first_at`], [`behind_class_at`]: what the first identifier of a name finds, and one behind a class. [`class_named_at`] is the class
//!   that the name of a type finds. [`find_element`] says what a name reaches among the elements of a frame.
//! - [`find`], [`find_first`], [`find_behind`], [`find_path`]: what a name finds, as [`Found`](mo_names::Found): a simple name, the first
//!   identifier of a name, one behind a dot, and a whole name. [`find_declared`] gives what the first identifier finds before an inner
//!   component is sought.
//! - [`inner_of`], [`stands_for`]: the component that one which is declared `outer` stands for.
//! - [`child`], [`child_of_member`]: an element of a frame, entered at an index, as [`Child`](mo_names::Child). [`enter_component`] makes
//!   the frame of a component, or finds it where it was made before; [`enter_child`] makes that of a child, and [`enter_own_child`] keeps it.
//! - [`first_base`]: the base of the first extends clause of the class of a frame, for a short class its only one. [`is_leaf`]: whether a
//!   frame is one of a leaf type. [`leaf_base`]: the first base of leaf type.
//! - [`step`]: one step on the way on which the dimensions of a type are found, as [`Onward`]. [`sizes_of`], [`all_sizes`]: the dimensions
//!   of a component and of its type as they are written, as [`Sizes`]; [`count_of`] counts them.
//!
//! Each call keeps the frames that exist, after a refusal too. A broken rule is the first one of the definition in `mo_scope`.
#![tactic(auto)]

mod ahead;
mod bases;
mod copying;
mod element_list;
mod entering;
mod free;
mod lookup;
mod outer;
mod owning;
mod path;
mod settled;
mod sizes;
mod types;

pub use bases::{first_base, is_leaf, leaf_base};
pub use element_list::{base_of, elements, walk_of};
pub use entering::{child, child_of_member, enter_child, enter_component, enter_own_child};
pub use free::{behind_class_at, class_named_at, elements_kept_at, find_element, first_at};
pub use lookup::{find, find_declared, find_first};
pub use outer::{inner_of, stands_for};
pub use path::{find_behind, find_path};
pub use sizes::{Sizes, all_sizes, count_of, sizes_of};
pub use types::{Onward, step};
