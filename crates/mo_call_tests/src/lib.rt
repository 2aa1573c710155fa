//! Tests of public calls that the program does not make: each is run once.
//!
//! Begin with `src/certificates.rt`. What this crate may not know ends its paragraph in docs/ARCHITECTURE.md; what the program does is
//! tested by the cases of mo_cases.
#![tactic(auto)]

#[cfg(test)]
mod certificates;
#[cfg(test)]
mod expressions;
