//! The shapes of a unit, found by their names.
ghost use Rattle.std.specs.Prelude.{◌≡◌, ◌++◌, ◌∷◌, [], option_map, OnOk, OnErr};
ghost use Rattle.alias_hir.specs.ShapeNames.{shape_named};

use crate::signature::Shape;
use alias_base::List;
use std::alloc::{AllocError, Global};
use std::collections::BTreeMap;
use std::marker::Model;

/// Shapes in their order. To find one by its name it has an index of their names, which is no part of its value.
pub struct Shapes {
    entries: List<Shape>,
    /// For each name the slot of the first shape that has it.
    slots: BTreeMap<String, usize>,
    alloc: Global,
}

impl Drop for Shapes {
    fn drop(self) {
        let Shapes {
            entries: _,
            slots: _,
            alloc: _,
        } = self;
    }
}

impl Model for Shapes {
    ghost use Rattle.std.specs.Prelude.{List as Elements};
    ghost use Rattle.std.specs.BTreeMap.{get_by_text};
    ghost use Rattle.alias_hir.specs.declared.signature.Shape.{Shape as Entry};
    ghost use Rattle.alias_hir.specs.ShapeNames.{AreSlots};

    ghost Value = { Elements Entry };

    ghost view = { λ s. s.entries };

    ghost invariant = { λ s. AreSlots (get_by_text s.slots) s.entries };
}

impl Shapes {
    /// No shapes. Takes no memory.
    pub fn new(alloc: Global) -> Self
        ensures { result ≡ [] }
    {
        Shapes {
            entries: List::new(alloc),
            slots: BTreeMap::new(alloc),
            alloc,
        }
    }

    /// The shapes in their order.
    pub fn as_slice(&self) -> &[Shape]
        ensures { result.now ≡ self.now }
    {
        self.entries.as_slice()
    }

    /// The first shape with the name.
    pub fn named(&self, name: &str) -> Option<&Shape>
        ensures { option_map (λ s. s.now) result ≡ shape_named self.now name.now }
    {
        match self.slots.get(name) {
            Some(slot) => self.entries.get(*slot),
            None => None,
        }
    }

    /// Appends a shape. After an `Err` nothing has changed.
    pub fn push(&mut self, shape: Shape) -> Result<(), AllocError>
        ensures ok { OnOk result (self.new ≡ self.old ++ shape ∷ []) }
        ensures err { OnErr result (self.new ≡ self.old) }
    {
        let slot = self.entries.len();
        let name = String::from_str(self.alloc, shape.id.as_str())?;
        let is_taken = self.slots.contains_key(name.as_str());
        self.entries.push(shape)?;
        if is_taken {
            return Ok(());
        }
        match self.slots.insert(name, slot) {
            Ok(_) => Ok(()),
            Err(e) => {
                let _ = self.entries.pop();
                Err(AllocError::from(e))
            }
        }
    }
}
