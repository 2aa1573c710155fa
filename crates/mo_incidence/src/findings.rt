//! What the analyses of an incidence find, as plain lists.

/// How often each equation is differentiated, and which derivative of each unknown is then the highest.
#[derive(Debug, Drop)]
pub struct Offsets {
    /// For each equation, how often it is differentiated.
    pub c: Vec<u32>,
    /// For each unknown, the order of its highest derivative.
    pub d: Vec<u32>,
    /// For each equation the number of its unknown, or 0 for none.
    pub pairs: Vec<u32>,
}

/// Equations that together mention fewer unknowns than they are, and the unknowns that they mention. Both ascend.
#[derive(Debug, Drop)]
pub struct Deficit {
    /// Numbers of equations.
    pub equations: Vec<u32>,
    /// Numbers of unknowns.
    pub unknowns: Vec<u32>,
}

/// Why an equation has to be differentiated: another equation also determines its unknown.
#[derive(Clone, Copy, Debug, PartialEq, Eq)]
pub struct Reason {
    /// The number of the equation that is differentiated.
    pub equation: u32,
    /// The number of the equation that needs it to be.
    pub from: u32,
}

/// The irreducible blocks of a square system, in an order in which they can be solved: numbers of equations.
#[derive(Debug, Drop)]
pub struct Blocks(pub Vec<Vec<u32>>);

/// The dummy derivatives, and the states that are left (S. E. Mattsson and G. Söderlind, Index reduction in
/// differential-algebraic equations using dummy derivatives, SIAM J. Sci. Comput. 14, 1993).
#[derive(Debug, Drop)]
pub struct Dummies {
    /// Unknown, order, stage and equation of each dummy.
    pub chosen: Vec<(u32, u32, u32, u32)>,
    /// Unknown and order of each state.
    pub states: Vec<(u32, u32)>,
}
