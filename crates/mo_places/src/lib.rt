//! Where what the calls from names to flat models answer stands: every place in what is found or made, and the place of every rule that is
//! broken, is written in the trees of the files that are read.
//!
//! Begin with `src/stated.rt` (the laws); the definition to read first is `specs/Laws.antt`. What this crate may not know ends its
//! paragraph in docs/ARCHITECTURE.md.
//!
//! specs/Written and specs/TreeWritten say what is written in the files, specs/Pieces what an expression and an equation hold, specs/Stands,
//! specs/Resolved and specs/MadeStands what it is that frames, expressions, instances and flat models stand there, and specs/Laws has the
//! statement for each call.
//!
//! - [`names_stand`] and [`redeclarations_stand`]: what names find, and what is broken where redeclarations are checked.
//! - [`values_stand`]: what expressions are resolved to, their sizes and values, and the ends of connects.
//! - [`instances_stand`], [`equations_stand`] and [`flat_models_stand`]: instances, what they give, and flat models.
#![tactic(auto)]

mod stated;

pub use stated::{
    equations_stand, flat_models_stand, instances_stand, names_stand, redeclarations_stand,
    values_stand,
};
