//! Links by their ends, for nodes that have too many sources to look through them all for each new one.
ghost use Rattle.std.specs.Prelude.{◌≡◌, [], true, false, IsTrue, IfOk, OnOk};
ghost use Rattle.alias_graph.specs.KnownLinks.{ends, is_known, Grows};

use alias_base::IdentifierId;
use indexmap::IndexSet;
use std::alloc::{AllocError, Global};
use std::marker::Model;

/// How many sources of a node are looked through: fewer are compared faster than hashed.
pub(crate) const FEW: usize = 8;

/// The ends of links that stand behind the first few of their list.
#[derive(Drop)]
pub(crate) struct KnownLinks {
    ends: IndexSet<u64>,
}

impl Model for KnownLinks {
    ghost use Rattle.std.specs.Prelude.{List, ℕ};

    ghost Value = { List ℕ };

    ghost view = { λ k. k.ends.keys };
}

impl KnownLinks {
    /// None. Takes no memory.
    pub(crate) fn new(alloc: Global) -> KnownLinks
        ensures { result ≡ [] }
    {
        KnownLinks {
            ends: IndexSet::new(alloc),
        }
    }

    /// Notes a link, and answers whether it wasn't known.
    pub(crate) fn note(
        &mut self,
        from: IdentifierId,
        into: IdentifierId,
    ) -> Result<bool, AllocError>
        ensures new { IfOk result (λ is_new. IsTrue is_new → is_known (ends from into) self.old ≡ false) }
        ensures known { OnOk result (is_known (ends from into) self.new ≡ true) }
        ensures grows { OnOk result (Grows self.old self.new) }
    {
        insert(&mut self.ends, ends(from, into))
    }
}

/// The ends of a link as one number.
fn ends(from: IdentifierId, into: IdentifierId) -> u64
    ensures { result ≡ ends from into }
{
    u64::from(from.0) * 4_294_967_296 + u64::from(into.0)
}

/// Inserts a number, and answers whether it wasn't there.
fn insert(set: &mut IndexSet<u64>, number: u64) -> Result<bool, AllocError>
    ensures new { IfOk result (λ is_new. IsTrue is_new → is_known number set.old.keys ≡ false) }
    ensures known { OnOk result (is_known number set.new.keys ≡ true) }
    ensures grows { OnOk result (Grows set.old.keys set.new.keys) }
{
    let is_new = set.insert(number)?;
    Ok(is_new)
}
