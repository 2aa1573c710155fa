//! What each value of `--emit` asks for.
ghost use Rattle.std.specs.Prelude.{◌≡◌};
ghost use Rattle.mo_front.specs.Emitted.{asked_by};

use crate::words::Emit;

/// A phase behind the incidence, which may break a rule.
#[derive(Clone, Copy, Debug, PartialEq, Eq)]
pub(crate) enum Phase {
    /// The size of the report on the structure.
    Size,
    /// The reduced model.
    Reduction,
}

/// A text of a model.
#[derive(Clone, Copy, Debug, PartialEq, Eq)]
pub(crate) enum Part {
    /// The flat text.
    Flat,
    /// The text of the reduced model, where there is one.
    Reduced,
    /// The report on the structure.
    Report,
    /// The report as JSON, and a line feed.
    Json,
    /// The states that are selected, or the report where there is no selection.
    StatesOrReport,
}

/// The phases behind the incidence, in order.
pub(crate) fn phases(emit: Emit) -> &'static [Phase]
    ensures { result.now ≡ (asked_by emit).phases }
{
    match emit {
        Emit::Flat => &[],
        Emit::Reduced => &[Phase::Reduction],
        Emit::Report => &[Phase::Size],
        Emit::All => &[Phase::Size, Phase::Reduction],
        Emit::Json => &[Phase::Size],
        Emit::States | Emit::Alias => &[Phase::Size],
    }
}

/// The texts that go by the report, one behind the other; for the reduced model those of a model that has none.
pub(crate) fn parts(emit: Emit) -> &'static [Part]
    ensures { result.now ≡ (asked_by emit).parts }
{
    match emit {
        Emit::Flat => &[Part::Flat],
        Emit::Reduced | Emit::Report => &[Part::Report],
        Emit::All => &[Part::Flat, Part::Reduced, Part::Report],
        Emit::Json => &[Part::Json],
        Emit::States => &[Part::StatesOrReport],
        Emit::Alias => &[],
    }
}
