//! What is selected.
use mo_syntax::List;

/// One stage of dummy derivatives.
#[derive(Debug, Drop)]
pub struct Stage {
    /// The chosen unknowns, ascending, each with the number of its equation.
    pub chosen: List<(u32, u32)>,
    /// For each level from 0 to 4, how many unknowns of that level or below were chosen.
    pub counts: List<u32>,
    /// For each level, the numbers of the equations that some largest assignment of candidates of that level or below leaves out.
    pub without: List<List<u32>>,
}

/// The dummy derivatives that are chosen by stateSelect, stage after stage, and the states that they leave.
#[derive(Debug, Drop)]
pub struct Selection {
    /// The stages, from 1.
    pub stages: List<Stage>,
    /// Unknown and order of each state, by unknown, then order.
    pub states: List<(u32, u32)>,
}
