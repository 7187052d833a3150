//! What the keys of effects say of sites.

ghost use Rattle.std.specs.Prelude.{◌≡◌};
ghost use Rattle.alias_hir.specs.declared.effect.AliasingEffect.{AliasingEffect};
ghost use Rattle.alias_key_laws.specs.KeySites.{made_site, HaveOneKey};

/// Effects of equal keys make the same identifier, where they make one, and give it the same site. Does nothing.
pub fn key_sites()
    ensures { (e f : AliasingEffect) → HaveOneKey e f → made_site e ≡ made_site f }
{}
