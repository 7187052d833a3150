//! The orders that sets and maps go by.

ghost use Rattle.alias_lattice.specs.SiteOrder.{site_cmp};
ghost use Rattle.alias_tables.specs.InternedEffects.{key_cmp};
ghost use Rattle.alias_key_laws.specs.Orders.{IsLinearOrder, mutation_kind_cmp};

/// The order of sites is total: of any two exactly one is less, or they are the same site. Does nothing.
pub fn site_order()
    ensures { IsLinearOrder site_cmp }
{}

/// The order of the keys of effects is total: of any two exactly one is less, or they are the same key. Does nothing.
pub fn key_order()
    ensures { IsLinearOrder key_cmp }
{}

/// The order of the kinds of mutation is total: of any two exactly one is less, or they are the same kind. Does nothing.
pub fn mutation_kind_order()
    ensures { IsLinearOrder mutation_kind_cmp }
{}
