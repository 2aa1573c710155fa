//! What comes of verifying a report.
use mo_syntax::Text;

/// The verdict on a printed report. Lines, equations and unknowns are numbered from 1; a line that is missing counts as an empty text.
#[derive(Debug, Drop)]
pub enum Verdict {
    /// What is printed holds, and the offsets are the least.
    Yes,
    /// What is printed holds; with fewer equations than unknowns a report does not show whether its offsets are the least.
    Admissible,
    /// A line has no form of a report's line, or no line feed.
    Unreadable {
        line: u32,
    },
    /// A line differs from that of the right report.
    Line {
        line: u32,
        printed: Text,
        found: Text,
    },
    /// A line is not that of the equation or the unknown whose turn it is. `wanted` numbers the equations and behind them the unknowns.
    Shape {
        line: u32,
        printed: Text,
        wanted: u32,
    },
    /// The unknown that is paired with an equation does not stand in it at the printed order; None where it does not stand in it.
    Order {
        equation: u32,
        unknown: u32,
        printed: u32,
        found: Option<u32>,
    },
    /// An unknown stands in an equation at an order above the difference of the offsets.
    Low {
        equation: u32,
        unknown: u32,
        order: u32,
        c: u32,
        d: u32,
    },
    /// The order of a pair is below the difference of the offsets.
    Loose {
        equation: u32,
        unknown: u32,
        order: u32,
        c: u32,
        d: u32,
    },
    /// Two equations are paired with one unknown.
    Twice {
        first: u32,
        second: u32,
        unknown: u32,
    },
    /// Some admissible offsets have a smaller one for this equation.
    NotLeast {
        equation: u32,
        printed: u32,
        smaller: u32,
    },
}

/// What a step gives: the verdict, or what the next step needs.
#[derive(Drop)]
pub(crate) enum Step<T> {
    Next(T),
    Verdict(Verdict),
}
