//! What the step of an effect gives to what the effect makes.

ghost use Rattle.std.specs.Prelude.{◌≡◌, Ok};
ghost use Rattle.alias_apply.specs.Apply.{apply_plain, intern_and_apply_plain};
ghost use Rattle.alias_apply.specs.Contexts.{StepContext};
ghost use Rattle.alias_apply.specs.declared.progress.StepProgress.{StepProgress};
ghost use Rattle.alias_hir.specs.declared.effect.AliasingEffect.{AliasingEffect};
ghost use Rattle.alias_tables.specs.Tables.{TableLists};
ghost use Rattle.alias_key_laws.specs.KeySites.{made_site};
ghost use Rattle.alias_key_laws.specs.sites.Given.{IsGiven};

/// The step of an effect that makes a value leaves the identifier that it makes with the site of the effect, and no other; and where the
/// interned effect of its key is stepped in its place, it is still the site of the effect. Does nothing.
pub fn site_laws()
    ensures given { (c : StepContext) (e : AliasingEffect) (s u : StepProgress) (t v : TableLists) → apply_plain c e s t ≡ Ok (u, v) → IsGiven (made_site e) u.state }
    ensures interned { (c : StepContext) (e : AliasingEffect) (s u : StepProgress) (t v : TableLists) → intern_and_apply_plain c e s t ≡ Ok (u, v) → IsGiven (made_site e) u.state }
{}
