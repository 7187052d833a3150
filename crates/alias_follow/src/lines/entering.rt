//! The state that a block is entered with.
ghost use Rattle.std.specs.Prelude.{◌≡◌, ◌+◌, Some, None, IfOk, length, option_map};
ghost use Rattle.alias_follow.specs.declared.lines.entering.Unfollowed.TheVariants.{State};
ghost use Rattle.alias_follow.specs.function.Givens.{lacking, entering};
ghost use Rattle.alias_follow.specs.lines.Entering.{is_bare, entered_by, entering_by, entering_of};

use crate::lines::numbers::{first_lines as line_numbers, line_at};
use alias_cert::function::lines::number_at;
use alias_certificate::{
    Beyond, CertBlock, CertFunction, CreatedFunctions, nothing_beyond, raised_with_beyond,
};
use alias_effects::EffectsFlow;
use alias_hir::env::Environment;
use alias_hir::hir::HirFunction;
use alias_lattice::InferenceState;
use alias_nested::created::created_functions as created_in;
use alias_passage::Given;
use std::alloc::{AllocError, Global};

/// Why a block isn't followed.
#[derive(Clone, Copy, Debug, PartialEq, Eq)]
pub enum Unfollowed {
    /// Its lines name what isn't there.
    State,
    /// Its step made a temporary that isn't given.
    MissingTemporary,
}

/// What is said of a function's blocks.
pub struct BlockLines<'a> {
    /// How many identifiers there are, with the temporaries that are given.
    pub(crate) identifiers: usize,
    /// The functions that the function creates.
    pub(crate) created: CreatedFunctions,
    pub(crate) blocks: &'a [CertBlock],
    /// Of each block of the function, in stored order, the number of its line.
    pub(crate) numbers: Vec<Option<usize>>,
}

impl<'a> Drop for BlockLines<'a> {
    fn drop(self) {
        let BlockLines {
            identifiers: _,
            created: _,
            blocks: _,
            numbers: _,
        } = self;
    }
}

/// What is given of a function.
pub struct Lines<'a> {
    /// What is said of its blocks. Where nothing is, each is entered with what arrives.
    pub(crate) blocks: Option<BlockLines<'a>>,
    /// How many temporaries steps may make.
    pub(crate) limit: Option<usize>,
}

impl<'a> Drop for Lines<'a> {
    fn drop(self) {
        let Lines {
            blocks: _,
            limit: _,
        } = self;
    }
}

/// The identifiers of the environment and so many more. An `Err` never comes, as so many entries don't fit into memory.
fn identifiers_with(env: &Environment, more: usize) -> Result<usize, AllocError>
    ensures { IfOk result (λ count. count ≡ length env.now.identifiers + more) }
{
    match env.identifiers.len().checked_add(more) {
        Some(count) => Ok(count),
        None => Err(AllocError),
    }
}

impl<'a> BlockLines<'a> {
    /// What is said of the blocks of the function, which has so many. The one error is out of memory.
    fn new(
        alloc: Global,
        given: &'a CertFunction,
        func: &HirFunction,
        env: &Environment,
        count: u32,
    ) -> Result<BlockLines<'a>, AllocError>
        requires { count ≡ length func.now.body.blocks }
        ensures { IfOk result (λ lines. entering_of (Some lines) ≡ entering (Some given.now) None env.now func.now) }
    {
        let identifiers = identifiers_with(env, given.temporaries.len())?;
        let ids = created_in(alloc, func)?;
        let created = CreatedFunctions::new(alloc, ids)?;
        let blocks = given.blocks.as_slice();
        let numbers = line_numbers(alloc, &func.body.blocks, count, blocks)?;
        Ok(BlockLines {
            identifiers,
            created,
            blocks,
            numbers,
        })
    }
}

impl<'a> Lines<'a> {
    /// What is given of the function, which has so many blocks. Where nothing is, this takes no memory and no time. The one
    /// error is out of memory.
    #[tactic(auto, using(crate::proofs::lines::Raising::nothing_entered))]
    pub(crate) fn new(
        alloc: Global,
        given: Option<&'a CertFunction>,
        limit: Option<usize>,
        func: &HirFunction,
        env: &Environment,
        count: u32,
    ) -> Result<Lines<'a>, AllocError>
        requires { count ≡ length func.now.body.blocks }
        ensures entering { IfOk result (λ lines. entering_of lines.blocks ≡ entering (option_map (λ g. g.now) given.entry) None env.now func.now) }
        ensures limit { IfOk result (λ lines. lines.limit ≡ limit) }
    {
        let blocks = match given {
            Some(given) => Some(BlockLines::new(alloc, given, func, env, count)?),
            None => None,
        };
        Ok(Lines { blocks, limit })
    }
}

/// Whether the block has no lines for its state.
fn is_bare(line: &CertBlock) -> bool
    ensures { result ≡ is_bare line.now }
{
    line.values.as_slice().is_empty() && line.variables.as_slice().is_empty()
}

/// What arrives, raised by what is said of the block.
fn entered_by(
    alloc: Global,
    lines: &BlockLines<'_>,
    line: &CertBlock,
    arrived: InferenceState,
) -> Result<Option<(InferenceState, Beyond)>, AllocError>
    ensures { IfOk result (λ entered. entered ≡ entered_by lines.now.identifiers lines.now.created (Some line.now) arrived) }
{
    if is_bare(line) {
        return Ok(Some((arrived, nothing_beyond(alloc))));
    }
    raised_with_beyond(alloc, lines.identifiers, &lines.created, line, &arrived)
}

/// What arrives at the block at this position, raised by what is said of it.
fn entering_by(
    alloc: Global,
    lines: &BlockLines<'_>,
    block: u32,
    arrived: InferenceState,
) -> Result<Option<(InferenceState, Beyond)>, AllocError>
    ensures { IfOk result (λ entered. entered ≡ entering_by lines.now.identifiers lines.now.created lines.now.blocks.now lines.now.numbers.items block arrived) }
{
    let number = number_at(lines.numbers.as_slice(), block as usize);
    match line_at(lines.blocks, number) {
        Some(line) => entered_by(alloc, lines, line, arrived),
        None => Ok(Some((arrived, nothing_beyond(alloc)))),
    }
}

impl<'a, 'l> Given<EffectsFlow<'a>> for Lines<'l> {
    type Beyond = Beyond;

    type Lack = Unfollowed;

    ghost entering = { λ lines. entering_of lines.blocks };

    ghost unentered = { State };

    ghost lacking = { λ lines flow. lacking lines.limit flow.tables };

    fn enter(
        &self,
        alloc: Global,
        block: u32,
        arrived: InferenceState,
    ) -> Result<Option<(InferenceState, Beyond)>, AllocError>
        ensures { IfOk result (λ entered. entered ≡ entering_of self.now.blocks block arrived) }
    {
        match &self.blocks {
            Some(lines) => entering_by(alloc, lines, block, arrived),
            None => Ok(Some((arrived, nothing_beyond(alloc)))),
        }
    }

    fn unentered(&self) -> Unfollowed
        ensures { result ≡ State }
    {
        Unfollowed::State
    }

    fn lack(&self, flow: &EffectsFlow<'a>) -> Option<Unfollowed>
        ensures { result ≡ lacking self.now.limit flow.now.tables }
    {
        let limit = self.limit?;
        if flow.temporaries().len() > limit {
            Some(Unfollowed::MissingTemporary)
        } else {
            None
        }
    }
}
