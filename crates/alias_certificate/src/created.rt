//! The functions that a function creates, as a certificate's lines look them up.
ghost use Rattle.std.specs.Prelude.{◌≡◌, IfOk};
ghost use Rattle.std.specs.BTreeSet.{contains};
ghost use Rattle.std.specs.Ordering.{nat_cmp};
ghost use Rattle.alias_base.specs.declared.ids.FunctionId.{FunctionId};
ghost use Rattle.alias_certificate.specs.states.States.{is_created};

use alias_base::{FunctionId, List};
use std::alloc::{AllocError, Global};
use std::collections::BTreeSet;
use std::marker::Model;

/// The functions that a function creates. A look-up takes logarithmic time.
pub struct CreatedFunctions {
    ids: List<FunctionId>,
    numbers: BTreeSet<u32>,
}

impl Drop for CreatedFunctions {
    fn drop(self) {
        let CreatedFunctions { ids: _, numbers: _ } = self;
    }
}

impl Model for CreatedFunctions {
    ghost use Rattle.std.specs.Prelude.{◌≡◌, List as Elements};
    ghost use Rattle.std.specs.BTreeSet.{contains};
    ghost use Rattle.std.specs.Ordering.{nat_cmp};
    ghost use Rattle.alias_base.specs.declared.ids.FunctionId.{FunctionId as Id};
    ghost use Rattle.alias_certificate.specs.states.States.{is_created};

    ghost Value = { Elements Id };

    ghost view = { λ c. c.ids };

    ghost invariant = { λ c. (f : Id) → contains nat_cmp c.numbers f.0 ≡ is_created c.ids f };
}

/// The numbers of the functions.
fn numbers_of(alloc: Global, ids: &[FunctionId]) -> Result<BTreeSet<u32>, AllocError>
    ensures { IfOk result (λ s. (f : FunctionId) → contains nat_cmp s f.0 ≡ is_created ids.now f) }
{
    let mut numbers = BTreeSet::new(alloc);
    for id in ids {
        numbers.insert(id.0)?;
    }
    Ok(numbers)
}

impl CreatedFunctions {
    /// The functions of the list.
    pub fn new(alloc: Global, ids: List<FunctionId>) -> Result<CreatedFunctions, AllocError>
        ensures { IfOk result (λ created. created ≡ ids) }
    {
        let numbers = numbers_of(alloc, ids.as_slice())?;
        Ok(CreatedFunctions { ids, numbers })
    }

    /// Whether the function is one of them.
    pub fn has(&self, function: FunctionId) -> bool
        ensures { result ≡ is_created self.now function }
    {
        self.numbers.contains(&function.0)
    }
}
