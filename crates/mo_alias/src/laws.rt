//! The laws of aliases. Each function does nothing: its contract is the law.
ghost use Rattle.std.specs.Prelude.{◌≡◌, ℕ, List as Seq, Option as Maybe};
ghost use Rattle.mo_flat.specs.declared.model.FlatModel.{FlatModel};
ghost use Rattle.mo_symdiff.specs.Dual.{Interpretation};
ghost use Rattle.mo_alias.specs.Aliases.{AreAliases};
ghost use Rattle.mo_alias.specs.Chains.{SayOneSign};
ghost use Rattle.mo_alias.specs.declared.alias.Alias.{Alias};
ghost use Rattle.mo_alias.specs.Meaning.{IsExtension, MeansTheSame};
ghost use Rattle.mo_alias.specs.declared.found.Aliases.{Aliases};

/// Whatever numbers an interpretation gives: it satisfies the model without aliases exactly where its extension by signs satisfies the
/// model. One that satisfies the model and gives each unknown that is gone, at every order, the number of the other with its sign, is the
/// extension of one that satisfies the model without aliases.
pub fn same_meaning()
    ensures kept { (m : FlatModel) (a : Aliases) (I : Interpretation) → AreAliases m a → MeansTheSame m a I }
    ensures reached { (m : FlatModel) (a : Aliases) (J : Interpretation) → AreAliases m a → IsExtension m a J }
{}

/// Nothing else can be found of aliases in a model.
pub fn one_finding()
    ensures { (m : FlatModel) (a b : Aliases) → AreAliases m a → AreAliases m b → a ≡ b }
{}

/// Chains of links between the same unknowns say the same. So no equation both agrees and contradicts.
pub fn chains_say_one_sign()
    ensures { (said : Seq (Maybe Alias)) (n u v : ℕ) → SayOneSign said n u v }
{}
