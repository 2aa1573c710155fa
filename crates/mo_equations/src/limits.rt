//! How large a flat model may be.

/// The most unknowns of a flat model.
pub const MOST_UNKNOWNS: u64 = 50_000;

/// The most equations of a flat model, initial ones not counted.
pub const MOST_EQUATIONS: u64 = 50_000;

/// The most nodes of all expressions of a flat model.
pub const MOST_NODES: u64 = 2_000_000;

/// The most turns of all for-equations together.
pub const MOST_TURNS: u32 = 4_000_000;
