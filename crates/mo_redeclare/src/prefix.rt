//! The declared prefixes of components (Modelica Language Specification 3.5, sections 4.4.2.2, 6.4 and 7.3).
ghost use Rattle.std.specs.Prelude.{◌≡◌, IfOk};
ghost use Rattle.mo_scope.specs.Compatible.{bool_eq, causal_eq, no_prefix as without_prefix, prefix_in as declared_prefix, prefix_of as prefix_of_member, same_prefixes as are_same_prefixes};
ghost use Rattle.mo_scope.specs.Rows.{component_of as component_declared};
ghost use Rattle.mo_scope.specs.Sights.{declares_seen, member_at};
ghost use Rattle.mo_scope.specs.Sizes.{or_causal as causality_over, or_vary as variability_over, prefix_over as prefix_put_over};
ghost use Rattle.mo_scope.specs.Worlds.{IsFrame, table_in};

use mo_scope::{Declares, Member, Scopes, component_of};
use mo_syntax::{Causal, NoMemory, Prefix, Vary};
use std::alloc::Global;

fn no_prefix() -> Prefix
    ensures { result ≡ without_prefix }
{
    Prefix {
        flow: false,
        stream: false,
        vary: Vary::Free,
        causal: Causal::None,
    }
}

/// The prefixes of what is declared, none of a class.
fn prefix_in(declares: &Declares) -> Prefix
    ensures { result ≡ declared_prefix (component_declared (declares_seen declares.now)) }
{
    match component_of(declares) {
        Some(component) => component.prefix,
        None => no_prefix(),
    }
}

fn or_vary(vary: Vary, original: Vary) -> Vary
    ensures { result ≡ variability_over vary original }
{
    match vary {
        Vary::Free => original,
        Vary::Discrete => Vary::Discrete,
        Vary::Parameter => Vary::Parameter,
        Vary::Constant => Vary::Constant,
    }
}

fn or_causal(causal: Causal, original: Causal) -> Causal
    ensures { result ≡ causality_over causal original }
{
    match causal {
        Causal::None => original,
        Causal::Input => Causal::Input,
        Causal::Output => Causal::Output,
    }
}

/// The prefixes of a redeclaration, with those of the original that it leaves out.
fn prefix_over(new: Prefix, original: Prefix) -> Prefix
    ensures { result ≡ prefix_put_over new original }
{
    Prefix {
        flow: new.flow || original.flow,
        stream: new.stream || original.stream,
        vary: or_vary(new.vary, original.vary),
        causal: or_causal(new.causal, original.causal),
    }
}

/// The declared prefixes of a component, with those of the redeclaration that wins.
pub fn prefix_of<'t>(alloc: Global, s: &Scopes<'t>, member: &Member<'t>) -> Result<Prefix, NoMemory>
    requires { IsFrame s.now member.now.home.0 }
    ensures { IfOk result (λ prefix. prefix ≡ prefix_of_member (table_in s.now) (member_at s.now member.now)) }
{
    let original = prefix_in(&member.declares);
    match s.redeclared(alloc, member.home, member.name, &[])? {
        Some(redeclaration) => Ok(prefix_over(prefix_in(&redeclaration.declares), original)),
        None => Ok(original),
    }
}

/// Whether two causality prefixes are one.
fn is_same_causal(a: Causal, b: Causal) -> bool
    ensures { result ≡ causal_eq a b }
{
    match (a, b) {
        (Causal::None, Causal::None) => true,
        (Causal::Input, Causal::Input) => true,
        (Causal::Output, Causal::Output) => true,
        _ => false,
    }
}

/// Whether two tests have one answer.
pub(crate) fn is_same(a: bool, b: bool) -> bool
    ensures { result ≡ bool_eq a b }
{
    if a { b } else { !b }
}

/// Whether two components have one flow prefix and one causality prefix.
pub(crate) fn same_prefixes(a: Prefix, b: Prefix) -> bool
    ensures { result ≡ are_same_prefixes a b }
{
    is_same(a.flow, b.flow) && is_same_causal(a.causal, b.causal)
}
