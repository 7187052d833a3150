//! What temporaries stand for.

use alias_base::{FunctionId, IdentifierId, Text, TryClone};
use std::alloc::{AllocError, Global};
use std::cmp::Ordering;

/// A name of an aliasing part, ordered by its bytes.
#[derive(Drop)]
pub struct Name {
    pub text: Text,
}

impl PartialEq for Name {
    ghost use Rattle.std.specs.Ordering.{eq_by_cmp};
    ghost use Rattle.std.specs.Cmp.{partial_equiv_from_equiv};
    ghost use Rattle.std.proofs.lemmas.Cmp.{eq_by_cmp_equiv};
    ghost use Rattle.alias_tables.specs.NameOrder.{by_text, by_text_total};

    ghost eq = { eq_by_cmp by_text };

    ghost laws = { partial_equiv_from_equiv (eq_by_cmp_equiv by_text_total) };

    fn eq(&self, other: &Name) -> bool {
        self.cmp(other).is_eq()
    }
}

impl Eq for Name {
    ghost use Rattle.std.proofs.lemmas.Cmp.{eq_by_cmp_equiv};
    ghost use Rattle.alias_tables.specs.NameOrder.{by_text_total};

    ghost laws = { eq_by_cmp_equiv by_text_total };
}

impl PartialOrd for Name {
    ghost use Rattle.std.specs.Ordering.{as_partial_cmp};
    ghost use Rattle.std.specs.Cmp.{partial_order_from_total};
    ghost use Rattle.alias_tables.specs.NameOrder.{by_text, by_text_total};

    ghost partial_cmp = { as_partial_cmp by_text };

    ghost laws = { partial_order_from_total by_text_total };

    fn partial_cmp(&self, other: &Name) -> Option<Ordering> {
        Some(self.cmp(other))
    }
}

impl Ord for Name {
    ghost use Rattle.std.specs.Prelude.{refl};
    ghost use Rattle.alias_tables.specs.NameOrder.{by_text, by_text_total};

    ghost cmp = { by_text };

    ghost total = { by_text_total };

    ghost matches_partial_cmp = { λ a b. refl };

    ghost matches_eq = { λ a b. refl };

    fn cmp(&self, other: &Name) -> Ordering {
        self.text.as_str().cmp(other.text.as_str())
    }
}

/// What a temporary stands for.
#[derive(Drop, PartialEq, Eq, PartialOrd, Ord)]
pub enum TempKey {
    /// A name of the aliasing part of a call whose result goes there.
    Named(IdentifierId, Name),
    /// The further arguments of a function that names none.
    Rest(FunctionId),
}

impl TryClone for TempKey {
    fn try_clone(&self, alloc: Global) -> Result<TempKey, AllocError> {
        match self {
            TempKey::Named(into, name) => Ok(TempKey::Named(
                *into,
                Name {
                    text: name.text.try_clone(alloc)?,
                },
            )),
            TempKey::Rest(function) => Ok(TempKey::Rest(*function)),
        }
    }
}
