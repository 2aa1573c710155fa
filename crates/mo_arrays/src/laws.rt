//! The laws of elements. Each function does nothing: its contract is the law.
ghost use Rattle.mo_arrays.specs.Sound.{ElementsAreSound, EquationsAreSound};

/// The elements of a sound expression that breaks no rule are well shaped, of the kind that `kind_of` gives, an Integer being accepted
/// for a Real, and have at most as many derivatives around one another as the expression.
pub fn elements_are_sound()
    ensures { ElementsAreSound }
{}

/// The equations of sound sides are sound equations of a model.
pub fn equations_are_sound()
    ensures { EquationsAreSound }
{}
