//! Whether expressions of the flat model are sound (Modelica Language Specification 3.5, sections 4.8 and 6.6).
//!
//! Begin with `src/sound.rt`; the definition to read first is `crates/mo_flat/specs/Sound.antt`. What this crate may not know ends its
//! paragraph in docs/ARCHITECTURE.md.
//!
//! - [`is_sound`], [`is_sound_number`]: whether an expression is sound, and whether its value is a number.
//! - [`is_sound_variable`], [`is_sound_equation`], [`is_sound_assert`], and [`are_sound_variables`], [`are_sound_equations`],
//!   [`are_sound_asserts`] of all of a list.
//! - [`is_numeric_variable`]: whether a number is that of a variable whose values are numbers.
//!
//! The definitions are those of mo_flat, specs/Sound.
#![tactic(auto)]

mod kinds;
mod orders;
mod shapes;
mod sound;
mod summary;

pub use sound::{
    are_sound_asserts, are_sound_equations, are_sound_variables, is_numeric_variable, is_sound,
    is_sound_assert, is_sound_equation, is_sound_number, is_sound_variable,
};
