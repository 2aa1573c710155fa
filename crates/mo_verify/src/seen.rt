//! What is printed of equations and unknowns, as lists.

/// Offsets and pairs, and the order at each pair, by places from 0.
#[derive(Clone, Copy)]
pub(crate) struct Seen<'a> {
    pub c: &'a [u32],
    pub d: &'a [u32],
    pub pairs: &'a [u32],
    pub orders: &'a [u32],
}
