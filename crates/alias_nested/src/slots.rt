//! Functions in their slots.
ghost use Rattle.std.specs.Prelude.{◌≡◌, ◌<◌, Some, length, slice_get};
ghost use Rattle.alias_nesting_laws.specs.Slots.{with_function};
ghost use Rattle.alias_nested.specs.Slots.{emptied};

use alias_base::{BlockId, BlockMap, FunctionId, List};
use alias_hir::env::Environment;
use alias_hir::hir::{FunctionType, Hir, HirFunction};
use alias_hir::place::Place;
use std::alloc::Global;

/// What stands in the slot of a function that is out. Takes no memory.
fn emptied(alloc: Global, returns: Place) -> HirFunction
    ensures { result ≡ emptied returns }
{
    HirFunction {
        fn_type: FunctionType::Other,
        params: List::new(alloc),
        context: List::new(alloc),
        context_values: List::new(alloc),
        returns,
        body: Hir {
            entry: BlockId(0),
            blocks: BlockMap::new(alloc),
        },
        instructions: List::new(alloc),
        is_async: false,
        span: None,
        aliasing_effects: None,
    }
}

/// Takes the function of the number out of its slot, where an empty one stands meanwhile. Takes no memory.
pub fn take_out(alloc: Global, id: FunctionId, env: &mut Environment) -> HirFunction
    requires { id.0 < length env.old.functions }
    ensures func { slice_get env.old.functions id.0 ≡ Some result }
    ensures env { env.new ≡ with_function id (emptied result.returns) env.old }
{
    let slot = id.0 as usize;
    let returns = env.functions.item(slot).returns;
    env.functions.replace(slot, emptied(alloc, returns))
}

/// Puts a function into the slot of the number.
pub fn put_back(id: FunctionId, func: HirFunction, env: &mut Environment)
    requires { id.0 < length env.old.functions }
    ensures { env.new ≡ with_function id func env.old }
{
    env.functions.replace(id.0 as usize, func);
}
