//! The law of what fits. The function does nothing: its contract is the law.
ghost use Rattle.mo_fits.specs.Laws.{FitsOnly, FitsWherever};

/// An expression fits exactly where the indices that are pending are, in their order, indices of components on the path of the leaf, whose
/// sizes are its own.
pub fn fits_have_components()
    ensures only { FitsOnly }
    ensures wherever { FitsWherever }
{}
