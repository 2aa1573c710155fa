//! What the readers of classes, modifications, equations and statements make of their parts, and what they choose by.
//!
//! Begin with `src/arguments.rt`; the definition to read first is `crates/mo_grammar/specs/Language.antt`. What this crate may not know
//! ends its paragraph in docs/ARCHITECTURE.md.
//!
//! - `arguments`: arguments of modifiers, and components.
//! - `members`: what prefixes say, and what is made of elements and of calls.
//! - `names`: the texts of names.
//! - `starts`: what begins, and what ends, with the next tokens.
#![tactic(auto)]

mod arguments;
mod members;
mod names;
mod starts;

pub use arguments::{
    Argued, Declaration, argument_of, binding_or_none, component, element, list_or_nothing,
    modifiers_or_none, modify, named,
};
pub use members::{
    call_of_name, causal_of_option, class_flags, class_kind, replaceable, vary, vary_of_option,
    way, with_encapsulated,
};
pub use names::{first_place, path, texts};
pub use starts::{
    begins_class, begins_definition, begins_element, begins_equation, begins_section,
    begins_statement, ends_if_branch, ends_when_branch, is_equation_next, opens_class,
};
