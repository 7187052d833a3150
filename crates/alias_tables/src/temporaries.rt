//! Identifiers that the expansion of calls adds.

ghost use Rattle.std.specs.Prelude.{◌≡◌, ◌++◌, ◌∷◌, [], None, IfOk, OnOk, OnErr, option_map};
ghost use Rattle.alias_tables.specs.Temporaries.{temp_like, temp_slot_like, AreTempSlots, temporary_of};

use crate::temp_key::TempKey;
use alias_base::{List, TryClone};
use alias_hir::place::Place;
use std::alloc::{AllocError, Global};
use std::collections::BTreeMap;
use std::marker::Model;

/// A temporary: what it stands for, and its place.
pub struct Temporary {
    pub key: TempKey,
    pub place: Place,
}

impl Drop for Temporary {
    fn drop(self) {
        let Temporary { key: _, place: _ } = self;
    }
}

/// Temporaries in the order in which they came, no two of one key, and the slot of each key among them.
pub struct Temporaries {
    items: List<Temporary>,
    slots: BTreeMap<TempKey, usize>,
}

impl Drop for Temporaries {
    fn drop(self) {
        let Temporaries { items: _, slots: _ } = self;
    }
}

impl Model for Temporaries {
    ghost use Rattle.std.specs.Prelude.{List};
    ghost use Rattle.alias_tables.specs.declared.temporaries.Temporary.{Temporary};

    ghost Value = { List Temporary };

    ghost use Rattle.alias_tables.specs.Temporaries.{AreTempSlots};

    ghost view = { λ t. t.items };

    ghost invariant = { λ t. AreTempSlots t.slots t.items };
}

/// Appends a temporary of a new key. An `Err` leaves both as they are.
fn push_temporary(
    items: &mut List<Temporary>,
    slots: &mut BTreeMap<TempKey, usize>,
    key: TempKey,
    temporary: Temporary,
) -> Result<(), AllocError>
    requires index { AreTempSlots slots.old items.old }
    requires of_key { temporary.key ≡ key }
    requires new { temp_slot_like key items.old ≡ None }
    ensures ok { OnOk result (items.new ≡ items.old ++ temporary ∷ []) }
    ensures err { OnErr result (items.new ≡ items.old) }
    ensures index { AreTempSlots slots.new items.new }
{
    let slot = items.len();
    items.push(temporary)?;
    match slots.insert(key, slot) {
        Ok(_) => Ok(()),
        Err(e) => {
            // Taken back, so that an error leaves the list as it was.
            let _temporary = items.pop();
            Err(e.into())
        }
    }
}

impl Temporaries {
    /// No temporaries. Takes no memory.
    pub fn new(alloc: Global) -> Temporaries
        ensures { result ≡ [] }
    {
        Temporaries {
            items: List::new(alloc),
            slots: BTreeMap::new(alloc),
        }
    }

    /// The temporaries, in order.
    pub fn as_slice(&self) -> &[Temporary]
        ensures { result.now ≡ self.now }
    {
        self.items.as_slice()
    }

    /// The temporary of the key, if it came.
    pub fn get(&self, key: &TempKey) -> Option<&Temporary>
        ensures { option_map (λ t. t.now) result ≡ temp_like key.now self.now }
    {
        match self.slots.get(key) {
            Some(slot) => self.items.get(*slot),
            None => None,
        }
    }

    /// Appends the temporary of a new key. An `Err` leaves the table as it is.
    pub fn push(&mut self, alloc: Global, key: TempKey, place: Place) -> Result<(), AllocError>
        requires { temp_like key self.old ≡ None }
        ensures ok { OnOk result (self.new ≡ self.old ++ temporary_of key place ∷ []) }
        ensures err { OnErr result (self.new ≡ self.old) }
    {
        let copy = key.try_clone(alloc)?;
        push_temporary(
            &mut self.items,
            &mut self.slots,
            copy,
            Temporary { key, place },
        )
    }
}
