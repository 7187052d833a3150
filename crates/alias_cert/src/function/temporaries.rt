//! The temporaries that a certificate says of a function.
ghost use Rattle.std.specs.Prelude.{◌≡◌};
ghost use Rattle.alias_cert.specs.function.Temporaries.{is_key_there, temporary_stated, temporaries_stated};
ghost use Rattle.alias_cert.specs.function.Faults.{StatesInto, temporary_fault};
ghost use Rattle.alias_cert.specs.function.Flows.{SameFlow};

use alias_base::{FunctionId, TryClone};
use alias_certificate::{CertTemporary, CheckFault};
use alias_effects::EffectsFlow;
use alias_hir::env::Environment;
use alias_tables::{EffectFault, Refusal, TempKey};
use std::alloc::{AllocError, Global};

/// Whether what the key names is there.
fn is_key_there(identifiers: usize, functions: usize, key: &TempKey) -> bool
    ensures { result ≡ is_key_there identifiers functions key.now }
{
    match key {
        TempKey::Named(into, _) => (into.0 as usize) < identifiers,
        TempKey::Rest(function) => (function.0 as usize) < functions,
    }
}

fn temporary_fault(function: Option<FunctionId>, fault: EffectFault) -> CheckFault
    ensures { result ≡ temporary_fault function fault }
{
    match fault {
        EffectFault::Refused(Refusal::TooMany(which)) => CheckFault::TooMany { which },
        EffectFault::Refused(_) => CheckFault::Temporaries { function },
        EffectFault::Memory(e) => CheckFault::Memory(e),
    }
}

/// The flow gets the temporary.
fn state_temporary(
    alloc: Global,
    function: Option<FunctionId>,
    env: &Environment,
    flow: &mut EffectsFlow<'_>,
    said: &CertTemporary,
) -> Result<(), CheckFault>
    requires { flow.old.context.env.now ≡ env.now }
    ensures tables { StatesInto (temporary_stated function env.now said.now flow.old.tables) result flow.new.tables }
    ensures same { SameFlow flow.old flow.new }
{
    let more = flow.temporaries().len();
    let Some(next) = env.identifiers.len().checked_add(more) else {
        // Never so: as many entries don't fit into memory.
        return Err(CheckFault::Memory(AllocError));
    };
    if !is_key_there(next, env.functions.len(), &said.key) || said.identifier.0 as usize != next {
        return Err(CheckFault::Temporaries { function });
    }
    let key = said.key.try_clone(alloc)?;
    match flow.temporary(key) {
        Ok(place) => {
            if place.identifier.0 == said.identifier.0 {
                Ok(())
            } else {
                Err(CheckFault::Temporaries { function })
            }
        }
        Err(fault) => Err(temporary_fault(function, fault)),
    }
}

/// The flow gets the temporaries, one after the other.
pub fn state_temporaries(
    alloc: Global,
    function: Option<FunctionId>,
    env: &Environment,
    flow: &mut EffectsFlow<'_>,
    said: &[CertTemporary],
) -> Result<(), CheckFault>
    requires { flow.old.context.env.now ≡ env.now }
    ensures tables { StatesInto (temporaries_stated function env.now said.now flow.old.tables) result flow.new.tables }
    ensures same { SameFlow flow.old flow.new }
{
    for temporary in said {
        state_temporary(alloc, function, env, flow, temporary)?;
    }
    Ok(())
}
