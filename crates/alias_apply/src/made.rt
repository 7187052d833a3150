//! The identifiers that an instruction has made.
ghost use Rattle.std.specs.Prelude.{◌≡◌, ◌++◌, ◌∷◌, [], true, false, ◌==◌, OnOk, OnErr, IfOk};
ghost use Rattle.alias_apply.specs.Made.{is_made, made_in};

use alias_base::IdentifierId;
use indexmap::IndexSet;
use std::alloc::{AllocError, Global};
use std::marker::Model;

/// What was made. Most instructions make one identifier, which takes no memory.
#[derive(Drop)]
pub(crate) enum Made {
    Nothing,
    One(IdentifierId),
    Many(IndexSet<IdentifierId>),
}

/// The identifiers that an instruction has made, in the order in which it made them.
pub struct MadeIdentifiers {
    alloc: Global,
    made: Made,
}

impl Drop for MadeIdentifiers {
    fn drop(self) {
        let MadeIdentifiers { alloc: _, made: _ } = self;
    }
}

impl Model for MadeIdentifiers {
    ghost use Rattle.std.specs.Prelude.{List};
    ghost use Rattle.alias_base.specs.declared.ids.IdentifierId.{IdentifierId};
    ghost use Rattle.alias_apply.specs.Made.{made_in};

    ghost Value = { List IdentifierId };

    ghost view = { λ m. made_in m.made };
}

impl MadeIdentifiers {
    /// None. Takes no memory.
    pub fn new(alloc: Global) -> Self
        ensures { result ≡ [] }
    {
        MadeIdentifiers {
            alloc,
            made: Made::Nothing,
        }
    }

    /// Whether the identifier is among them.
    pub fn contains(&self, identifier: IdentifierId) -> bool
        ensures { result ≡ is_made identifier self.now }
    {
        is_among(&self.made, identifier)
    }

    /// Appends an identifier, where it isn't among them yet; else nothing changes. After an `Err` nothing has changed.
    pub fn push(&mut self, identifier: IdentifierId) -> Result<(), AllocError>
        ensures ok { OnOk result (is_made identifier self.old ≡ false → self.new ≡ self.old ++ identifier ∷ []) }
        ensures there { OnOk result (is_made identifier self.old ≡ true → self.new ≡ self.old) }
        ensures err { OnErr result (self.new ≡ self.old) }
    {
        add(self.alloc, &mut self.made, identifier)
    }
}

/// Whether the identifier is among what was made.
fn is_among(made: &Made, identifier: IdentifierId) -> bool
    ensures { result ≡ is_made identifier (made_in made.now) }
{
    match made {
        Made::Nothing => false,
        Made::One(there) => *there == identifier,
        Made::Many(set) => set.contains(&identifier),
    }
}

/// Adds the identifier to what was made.
fn add(alloc: Global, made: &mut Made, identifier: IdentifierId) -> Result<(), AllocError>
    ensures ok { OnOk result (is_made identifier (made_in made.old) ≡ false → made_in made.new ≡ made_in made.old ++ identifier ∷ []) }
    ensures there { OnOk result (is_made identifier (made_in made.old) ≡ true → made_in made.new ≡ made_in made.old) }
    ensures err { OnErr result (made_in made.new ≡ made_in made.old) }
{
    match made {
        Made::Nothing => {
            *made = Made::One(identifier);
            Ok(())
        }
        Made::One(first) => {
            let first = *first;
            if first != identifier {
                *made = Made::Many(both(alloc, first, identifier)?);
            }
            Ok(())
        }
        Made::Many(set) => insert(set, identifier),
    }
}

/// The set of one identifier, and of another behind it.
fn both(
    alloc: Global,
    first: IdentifierId,
    second: IdentifierId,
) -> Result<IndexSet<IdentifierId>, AllocError>
    requires { (first.0 == second.0) ≡ false }
    ensures { IfOk result (λ set. set.keys ≡ first ∷ second ∷ []) }
{
    let mut set = IndexSet::with_capacity(alloc, 2)?;
    insert(&mut set, first)?;
    insert(&mut set, second)?;
    Ok(set)
}

/// Inserts the identifier behind the others, if it isn't among them.
fn insert(set: &mut IndexSet<IdentifierId>, identifier: IdentifierId) -> Result<(), AllocError>
    ensures ok { OnOk result (is_made identifier set.old.keys ≡ false → set.new.keys ≡ set.old.keys ++ identifier ∷ []) }
    ensures there { OnOk result (is_made identifier set.old.keys ≡ true → set.new.keys ≡ set.old.keys) }
    ensures err { OnErr result (set.new.keys ≡ set.old.keys) }
{
    set.insert(identifier)?;
    Ok(())
}
