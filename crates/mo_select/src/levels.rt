//! How much unknowns are wanted as states, by their attribute stateSelect.
ghost use Rattle.std.specs.Prelude.{◌≡◌, ◌≤◌, length, map, unwrap_or, IfOk};
ghost use Rattle.mo_tables.specs.Words.{code_in};
ghost use Rattle.mo_flat.specs.declared.expr.FlatExpr.{out-FlatExpr};
ghost use Rattle.mo_select.specs.Levels.{level_at, level_in, level_words, levels_of};

use mo_flat::{FlatExpr, FlatVar};
use mo_syntax::{NoMemory, Role, Text};
use std::alloc::Global;

/// The number of the attribute stateSelect.
const STATE_SELECT: u8 = 9;

/// The level of an unknown without the attribute.
const DEFAULT: u32 = 2;

/// The literals of StateSelect as they are printed, by level (Modelica Language Specification 3.5, section 4.8.7.1).
const LITERALS: [&str; 5] = [
    "StateSelect.never",
    "StateSelect.avoid",
    "StateSelect.default",
    "StateSelect.prefer",
    "StateSelect.always",
];

/// The place of a text among words, from 0, and the default level where it is none of them.
fn level_named(words: &[&'static str], text: &Text) -> u32
    requires { length words.now ≤ 64 }
    ensures { result ≡ unwrap_or (code_in (map (λ word. word.now) words.now) text.now) 2 }
{
    let mut place = 0u32;
    for word in words {
        if word.as_bytes() == text.as_str().as_bytes() {
            return place;
        }
        place += 1;
    }
    DEFAULT
}

/// The level that an attribute's value gives.
#[tactic(auto, unfolding(crate::specs::Levels::level_words))]
fn level_of(value: &FlatExpr) -> u32
    ensures { result ≡ level_at (out-FlatExpr value.now) }
{
    match value {
        FlatExpr::Literal(text) => level_named(&LITERALS, text),
        _ => DEFAULT,
    }
}

/// The level of a variable with these attributes.
fn level_in(attributes: &[(u8, FlatExpr)]) -> u32
    ensures { result ≡ level_in attributes.now }
{
    for attribute in attributes {
        if attribute.0 == STATE_SELECT {
            return level_of(&attribute.1);
        }
    }
    DEFAULT
}

/// The levels of the unknowns among the variables, in order.
pub(crate) fn levels_of(alloc: Global, vars: &[FlatVar]) -> Result<Vec<u32>, NoMemory>
    ensures { IfOk result (λ levels. levels.items ≡ levels_of vars.now) }
{
    let mut levels = Vec::new(alloc);
    for v in vars {
        if matches!(v.role, Role::Unknown) {
            levels.push(level_in(v.attributes.as_slice()))?;
        }
    }
    Ok(levels)
}
