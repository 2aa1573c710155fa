//! What is left of the limits.

/// How many constructs and classes may still be opened, and the name of the class that is open; no name outside of all.
#[derive(Clone, Copy, Debug)]
pub struct Left<'a> {
    pub constructs: u32,
    pub classes: u32,
    pub name: &'a str,
}
