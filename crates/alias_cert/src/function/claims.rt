//! What a certificate says of the steps of a function's blocks.
ghost use Rattle.std.specs.Prelude.{◌≡◌, None, IfOk, slice_index_or};
ghost use Rattle.alias_cert.specs.function.Claims.{is_claimed_at, found_of};

use crate::effects::is_claimed;
use crate::function::lines::number_at;
use alias_certificate::CertBlock;
use alias_effects::EffectsFlow;
use alias_flow::check::{ClaimedFlow, Unsolved};
use alias_step::block::{BlockEffects, BlockRefusal};
use std::alloc::{AllocError, Global};

/// How the step of a block differs from what is said of it.
#[derive(Clone, Copy, Debug, PartialEq, Eq)]
pub enum Difference {
    /// It made a temporary that isn't said.
    MissingTemporary,
    /// It recorded other effects than are claimed.
    Effects,
}

/// What is said of a function's blocks.
#[derive(Clone, Copy)]
pub struct Claims<'a> {
    pub(crate) lines: &'a [CertBlock],
    /// The line of each block, if it has one.
    pub(crate) numbers: &'a [Option<usize>],
    /// How many temporaries are said.
    pub(crate) temporaries: usize,
}

/// Why the flow isn't solved.
pub(crate) type Fault = Unsolved<BlockRefusal, Difference>;

/// Whether the line of the block, if it has one, tells the effects.
fn is_claimed_at(
    alloc: Global,
    claims: &Claims<'_>,
    recorded: &BlockEffects,
    block: u32,
) -> Result<bool, AllocError>
    ensures { IfOk result (λ claimed. claimed ≡ is_claimed_at claims.now.lines.now recorded.now (slice_index_or claims.now.numbers.now block None)) }
{
    let Some(number) = number_at(claims.numbers, block as usize) else {
        return Ok(false);
    };
    let Some(line) = claims.lines.get(number) else {
        return Ok(false);
    };
    is_claimed(alloc, recorded, line)
}

impl<'a, 'c> ClaimedFlow<Claims<'c>> for EffectsFlow<'a> {
    type Difference = Difference;

    ghost found = { λ flow claims block. found_of claims.lines.now claims.numbers.now claims.temporaries flow.tables block (slice_index_or flow.recorded.items block None) };

    fn difference(
        &self,
        alloc: Global,
        claims: &Claims<'c>,
        block: u32,
    ) -> Result<Option<Difference>, AllocError> {
        let Some(recorded) = self.recorded(block) else {
            return Ok(None);
        };
        if self.temporaries().len() > claims.temporaries {
            return Ok(Some(Difference::MissingTemporary));
        }
        if is_claimed_at(alloc, claims, recorded, block)? {
            Ok(None)
        } else {
            Ok(Some(Difference::Effects))
        }
    }
}
