//! What is declared: a class or a component.
ghost use Rattle.std.specs.Prelude.{◌≡◌, option_copied};
ghost use Rattle.mo_scope.specs.Open.{is_open_declares};
ghost use Rattle.mo_scope.specs.Rows.{component_of as component_declared, is_class as declares_class, is_constant as declares_constant, is_constant_prefix as constant_prefix, is_encapsulated as declares_encapsulated};
ghost use Rattle.mo_scope.specs.Sights.{declares_seen};

use crate::row::{Declares, Sort};
use mo_syntax::{Component, Vary};

/// Whether a class is declared.
pub fn is_class(declares: &Declares) -> bool
    ensures { result ≡ declares_class (declares_seen declares.now) }
{
    match declares.sort {
        Sort::Class {
            number: _,
            encapsulated: _,
        } => true,
        Sort::Component(_) => false,
    }
}

fn is_constant_prefix(vary: Vary) -> bool
    ensures { result ≡ constant_prefix vary }
{
    match vary {
        Vary::Constant => true,
        Vary::Free | Vary::Discrete | Vary::Parameter => false,
    }
}

/// Whether a constant is declared.
pub fn is_constant(declares: &Declares) -> bool
    ensures { result ≡ declares_constant (declares_seen declares.now) }
{
    match declares.sort {
        Sort::Class {
            number: _,
            encapsulated: _,
        } => false,
        Sort::Component(component) => is_constant_prefix(component.prefix.vary),
    }
}

/// Whether an encapsulated class is declared.
pub fn is_encapsulated(declares: &Declares) -> bool
    ensures { result ≡ declares_encapsulated (declares_seen declares.now) }
{
    match declares.sort {
        Sort::Class {
            number: _,
            encapsulated,
        } => encapsulated,
        Sort::Component(_) => false,
    }
}

/// Whether a package may declare that: a class or a constant (Modelica Language Specification 3.5, section 4.6).
pub fn is_open(declares: &Declares) -> bool
    ensures { result ≡ is_open_declares (declares_seen declares.now) }
{
    is_class(declares) || is_constant(declares)
}

/// The component that is declared, None where a class is.
pub fn component_of<'t>(declares: &Declares<'t>) -> Option<&'t Component>
    ensures { option_copied result ≡ component_declared (declares_seen declares.now) }
{
    match declares.sort {
        Sort::Class {
            number: _,
            encapsulated: _,
        } => None,
        Sort::Component(component) => Some(component),
    }
}
