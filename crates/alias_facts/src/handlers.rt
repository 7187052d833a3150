//! What the handlers of `Try`s bind.
ghost use Rattle.std.specs.Prelude.{◌≡◌, [], IfOk, OnOk};
ghost use Rattle.alias_facts.specs.Handlers.{binding_at, with_binding, after_terminal, handler_bindings};

use crate::numbers::NumberMap;
use alias_base::BlockId;
use alias_hir::hir::HirFunction;
use alias_hir::place::Place;
use alias_hir::terminal::Terminal;
use std::alloc::{AllocError, Global};
use std::marker::Model;

/// The bindings of handlers, by the handlers in ascending order.
#[derive(Drop)]
pub struct Handlers {
    bindings: NumberMap<Place>,
}

impl Model for Handlers {
    ghost use Rattle.std.specs.Prelude.{ℕ, List};
    ghost use Rattle.alias_hir.specs.declared.place.Place.{Place as Binding};

    ghost Value = { List (ℕ × Binding) };

    ghost view = { λ h. h.bindings };
}

impl Handlers {
    /// No bindings. Takes no memory.
    pub fn new(alloc: Global) -> Self
        ensures { result ≡ [] }
    {
        Handlers {
            bindings: NumberMap::new(alloc),
        }
    }

    /// What the handler binds, or `None` where it binds nothing.
    pub fn get(&self, handler: BlockId) -> Option<Place>
        ensures { result ≡ binding_at self.now handler }
    {
        self.bindings.get(handler.0)
    }

    fn bind(&mut self, handler: BlockId, binding: Option<Place>) -> Result<(), AllocError>
        ensures { OnOk result (self.new ≡ with_binding self.old handler binding) }
    {
        match binding {
            Some(place) => self.bindings.set(handler.0, place),
            None => Ok(()),
        }
    }

    fn visit(&mut self, terminal: &Terminal) -> Result<(), AllocError>
        ensures { OnOk result (self.new ≡ after_terminal self.old terminal.now) }
    {
        match terminal {
            Terminal::Try {
                handler,
                handler_binding,
                ..
            } => self.bind(*handler, *handler_binding),
            _ => Ok(()),
        }
    }
}

/// What the handlers of the function's `Try`s bind. The one error is out of memory.
pub fn handler_bindings(alloc: Global, func: &HirFunction) -> Result<Handlers, AllocError>
    ensures { IfOk result (λ h. h ≡ handler_bindings func.now) }
{
    let mut handlers = Handlers::new(alloc);
    for (_, block) in func.body.blocks.iter() {
        handlers.visit(&block.terminal)?;
    }
    Ok(handlers)
}
