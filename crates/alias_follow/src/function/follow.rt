//! What follows for one function.
ghost use Rattle.std.specs.Prelude.{◌≡◌, true, IfOk, option_map, length};
ghost use Rattle.alias_base.specs.Answer.{Gives};
ghost use Rattle.alias_facts.specs.Facts.{function_facts as facts_of};
ghost use Rattle.alias_rules.specs.Fitting.{function_fits};
ghost use Rattle.alias_lattice.specs.States.{empty_state, state_join, state_below};
ghost use Rattle.alias_step.specs.block.Contexts.{held};
ghost use Rattle.alias_effects.specs.Inference.{end_tables, env_after};
ghost use Rattle.alias_effects.specs.Numbered.{numbered};
ghost use Rattle.alias_effects.specs.Recording.{with_effects_of};
ghost use Rattle.alias_effects.specs.Solutions.{IsSolvedUnder};
ghost use Rattle.alias_nested.specs.Fitting.{FunctionKept};
ghost use Rattle.alias_cert.specs.function.Faults.{is_memory};
ghost use Rattle.alias_follow.specs.declared.lines.entering.Unfollowed.TheVariants.{State};
ghost use Rattle.alias_follow.specs.function.Faults.{faulted};
ghost use Rattle.alias_follow.specs.function.Functions.{passed_with, given_passed, function_followed};
ghost use Rattle.alias_follow.specs.function.Givens.{lacking};
ghost use Rattle.alias_follow.specs.lines.Entering.{entering_of};
ghost use Rattle.alias_passage.specs.Passes.{flow_passed};

use crate::function::faults::fault_of;
use crate::function::given::{blocks_given, kept, limit, temporaries_given};
use crate::function::reach::reach;
use crate::lines::{Lines, lines_known};
use alias_base::{FunctionId, List};
use alias_cert::function::function::marked_positions;
use alias_cert::function::temporaries::state_temporaries;
use alias_certificate::{Beyond, CertFunction, CheckFault};
use alias_effects::{EffectsFlow, PassEnd};
use alias_facts::{FunctionFacts, function_facts};
use alias_flow::{Flow, Solution};
use alias_hir::env::Environment;
use alias_hir::hir::HirFunction;
use alias_lattice::InferenceState;
use alias_passage::{Passage, begin, pass_all};
use std::alloc::Global;

/// What the entry states of a function have beyond what arrived.
pub struct FunctionBeyond {
    /// Whether each edge of each block goes to a later block.
    pub is_forward: bool,
    /// One for each reached block, in stored order.
    pub blocks: List<Beyond>,
}

impl Drop for FunctionBeyond {
    fn drop(self) {
        let FunctionBeyond {
            is_forward: _,
            blocks: _,
        } = self;
    }
}

/// What is handed out of a function.
#[derive(Drop)]
pub struct FunctionEnd {
    /// What the effects pass would hand out.
    pub end: PassEnd,
    /// What the entry states have beyond what arrived.
    pub beyond: FunctionBeyond,
}

/// The pass over the marked blocks.
fn follow_steps(
    alloc: Global,
    function: Option<FunctionId>,
    func: &HirFunction,
    env: &Environment,
    lines: &Lines<'_>,
    marks: &[bool],
    flow: &mut EffectsFlow<'_>,
) -> Result<Passage<InferenceState, Beyond>, CheckFault>
    requires { length marks.now ≡ (numbered (held flow.old.context)).blocks }
    ensures steps { Gives is_memory (faulted function env.now func.now.body.blocks (flow_passed state_join state_below empty_state (numbered (held flow.old.context)) (entering_of lines.now.blocks) State (lacking lines.now.limit) marks.now flow.old.tables flow.old.recorded.items)) (passed_with flow.new.tables flow.new.recorded.items result) }
    ensures func { flow.new.context.func ≡ flow.old.context.func }
    ensures entries { IfOk result (λ passage. length passage.entries ≡ (numbered (held flow.old.context)).blocks) }
{
    let mut passage = begin(alloc, &*flow)?;
    let empty = InferenceState::empty(alloc);
    match pass_all(alloc, flow, lines, &empty, marks, &mut passage) {
        Ok(()) => Ok(passage),
        Err(fault) => Err(fault_of(alloc, function, func, env, fault)),
    }
}

/// The pass over the marked blocks, from the temporaries that are given, with what is given of the blocks.
fn follow_given(
    alloc: Global,
    given: Option<&CertFunction>,
    limit: Option<usize>,
    function: Option<FunctionId>,
    func: &HirFunction,
    env: &Environment,
    marks: &[bool],
    flow: &mut EffectsFlow<'_>,
) -> Result<Passage<InferenceState, Beyond>, CheckFault>
    requires env { flow.old.context.env.now ≡ env.now }
    requires blocks { (numbered (held flow.old.context)).blocks ≡ length func.now.body.blocks }
    requires marks { length marks.now ≡ length func.now.body.blocks }
    ensures steps { Gives is_memory (given_passed (option_map (λ g. g.now) given.entry) limit function env.now func.now (numbered (held flow.old.context)) marks.now flow.old.tables flow.old.recorded.items) (passed_with flow.new.tables flow.new.recorded.items result) }
    ensures func { flow.new.context.func ≡ flow.old.context.func }
    ensures entries { IfOk result (λ passage. length passage.entries ≡ length func.now.body.blocks) }
{
    let count = flow.blocks();
    let lines = Lines::new(alloc, given, limit, func, env, count)?;
    let temporaries = temporaries_given(given);
    state_temporaries(alloc, function, env, flow, temporaries)?;
    follow_steps(alloc, function, func, env, &lines, marks, flow)
}

/// The function of which these facts are known.
fn follow_with(
    alloc: Global,
    given: Option<&CertFunction>,
    function: Option<FunctionId>,
    func: &HirFunction,
    env: &Environment,
    facts: &FunctionFacts,
    is_function_expression: bool,
) -> Result<FunctionEnd, CheckFault>
    requires fits { function_fits func.now env.now ≡ true }
    requires facts { facts.now ≡ facts_of func.now env.now }
    ensures answer { Gives is_memory (function_followed (option_map (λ g. g.now) given.entry) function env.now func.now is_function_expression) result }
    ensures solves { IfOk result (λ e. IsSolvedUnder env.now func.now is_function_expression (end_tables e.end) e.end.solved) }
    ensures keeps { IfOk result (λ e. FunctionKept func.now env.now (with_effects_of e.end.solved func.now) (env_after env.now e.end)) }
{
    let mut flow = EffectsFlow::new(alloc, func, env, facts, is_function_expression)?;
    let found = reach(alloc, &flow)?;
    let is_forward = found.is_forward;
    let reached = found.marks.as_slice();
    let said = kept(is_forward, given);
    let most = limit(is_forward, given);
    let blocks = blocks_given(said);
    lines_known(blocks);
    let passage = follow_given(alloc, said, most, function, func, env, reached, &mut flow)?;
    let visits = marked_positions(alloc, reached)?;
    let Passage {
        entries,
        beyond,
        ..
    } = passage;
    let end = flow.into_end(Solution { visits, entries })?;
    Ok(FunctionEnd {
        end,
        beyond: FunctionBeyond {
            is_forward,
            blocks: beyond,
        },
    })
}

/// What follows for the function from what is given of it. Takes nothing over: function and environment stay as they are.
///
/// At `Ok` there is what the effects pass would hand out: the states that blocks are entered with, and the effects, interned
/// effects, temporaries and reports of one step of each reached block from them, in stored order; besides it, what each of
/// these states has beyond what arrived. They solve the function's flow under the tables that these steps end with, and
/// the inference takes the function again that carries these effects.
///
/// The faults, each exactly where it is the first: `Temporaries`, where a temporary has another number than the next, or a key that
/// is an earlier one's or names what isn't there; then, block by block, `State`, where its lines name what isn't there, `Step`,
/// where the step is refused, `MissingTemporary`, where it made a temporary that isn't given, and `NotBelow`, where its out
/// state isn't below the entry state of a block that an edge goes back to. `TooMany` comes where a number is wanting for a
/// temporary or a report, and `Memory` is out of memory, which can come at any time.
pub(crate) fn follow_function(
    alloc: Global,
    given: Option<&CertFunction>,
    function: Option<FunctionId>,
    func: &HirFunction,
    env: &Environment,
    is_function_expression: bool,
) -> Result<FunctionEnd, CheckFault>
    requires { function_fits func.now env.now ≡ true }
    ensures answer { Gives is_memory (function_followed (option_map (λ g. g.now) given.entry) function env.now func.now is_function_expression) result }
    ensures solves { IfOk result (λ e. IsSolvedUnder env.now func.now is_function_expression (end_tables e.end) e.end.solved) }
    ensures keeps { IfOk result (λ e. FunctionKept func.now env.now (with_effects_of e.end.solved func.now) (env_after env.now e.end)) }
{
    let facts = function_facts(alloc, func, env)?;
    follow_with(
        alloc,
        given,
        function,
        func,
        env,
        &facts,
        is_function_expression,
    )
}
