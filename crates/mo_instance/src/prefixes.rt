//! What prefixes make of a component (Modelica Language Specification 3.5, sections 4.4.2 and 4.5).
ghost use Rattle.std.specs.Prelude.{◌≡◌};
ghost use Rattle.mo_scope.specs.Outcome.{Gives};
ghost use Rattle.mo_instance.specs.Elements.{is_free as vary_is_free};
ghost use Rattle.mo_instance.specs.Outer.{is_left_out_prefix};
ghost use Rattle.mo_instance.specs.Prefixes.{is_discrete as vary_is_discrete, is_input as causal_is_input, joined_vary as vary_joined, prefix_in_profile, role_of as role_by};

use mo_syntax::{Causal, Place, Prefix, Role, Stop, Vary, rules, stop};

/// What holds of all components below one.
#[derive(Clone, Copy)]
pub(crate) struct Around {
    /// Where the name of the asked class stands.
    pub asked: Place,
    /// Whether they are components of the asked class itself.
    pub outermost: bool,
    /// The variability around them.
    pub vary: Vary,
    /// Whether the component of the asked class that they lie in is declared `input`.
    pub given: bool,
}

/// Whether it is `input`.
pub(crate) fn is_input(causal: Causal) -> bool
    ensures { result ≡ causal_is_input causal }
{
    match causal {
        Causal::Input => true,
        Causal::Output => false,
        Causal::None => false,
    }
}

fn is_discrete(vary: Vary) -> bool
    ensures { result ≡ vary_is_discrete vary }
{
    match vary {
        Vary::Discrete => true,
        Vary::Free => false,
        Vary::Parameter => false,
        Vary::Constant => false,
    }
}

/// Whether there is neither `parameter` nor `constant`.
pub(crate) fn is_free(vary: Vary) -> bool
    ensures { result ≡ vary_is_free vary }
{
    match vary {
        Vary::Free => true,
        Vary::Discrete => false,
        Vary::Parameter => false,
        Vary::Constant => false,
    }
}

/// Whether one of the prefixes is left out: `stream` or `discrete`.
pub(crate) fn is_left_out(prefix: Prefix) -> bool
    ensures { result ≡ is_left_out_prefix prefix }
{
    prefix.stream || is_discrete(prefix.vary)
}

/// Breaks rule 34 at the place where one of the prefixes is left out.
pub(crate) fn in_profile(place: Place, prefix: Prefix) -> Result<(), Stop>
    ensures { Gives (λ _. tt) result (prefix_in_profile place prefix) }
{
    if is_left_out(prefix) {
        return Err(stop(rules::OUTSIDE_PROFILE, place));
    }
    Ok(())
}

/// The variability of a component with that around it.
pub(crate) fn joined_vary(around: Vary, vary: Vary) -> Vary
    ensures { result ≡ vary_joined around vary }
{
    match (around, vary) {
        (Vary::Constant, _) => Vary::Constant,
        (_, Vary::Constant) => Vary::Constant,
        (Vary::Parameter, _) => Vary::Parameter,
        (_, Vary::Parameter) => Vary::Parameter,
        (_, _) => Vary::Free,
    }
}

/// The role of a leaf of that variability.
pub(crate) fn role_of(vary: Vary, given: bool) -> Role
    ensures { result ≡ role_by vary given }
{
    match vary {
        Vary::Constant => Role::Constant,
        Vary::Parameter => Role::Parameter,
        Vary::Free | Vary::Discrete => { if given { Role::Given } else { Role::Unknown } }
    }
}
