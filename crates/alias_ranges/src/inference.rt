//! The range pass as the inference calls it.
ghost use Rattle.std.specs.Prelude.{◌≡◌, true, IfOk, OnOk, OnErr};
ghost use Rattle.alias_rules.specs.Fitting.{function_fits};
ghost use Rattle.alias_range_pass.specs.Passes.{range_pass, PassGives};
ghost use Rattle.alias_range_pass.specs.Laws.{PassKeeps, but_places};
ghost use Rattle.alias_ranges.specs.heap.Reading.{HeapIsCovered};
ghost use Rattle.alias_ranges.specs.Ranges.{RangesCover, MarksAreDefinite, RangesHaveCauses, ListsFlows};

use crate::reports::truncate;
use alias_hir::effect::AliasingEffects;
use alias_hir::env::Environment;
use alias_hir::error::InferError;
use alias_hir::hir::HirFunction;
use alias_range_pass::run_range_pass;
use std::alloc::Global;

/// Infers the mutable ranges of a function's identifiers and the effects of its places, from what its instructions and
/// terminals record, and answers its summary.
///
/// `UnreplacedApply` comes exactly where an instruction carries `Apply`, and `TooMany` where no number is left for a
/// position of the alias graph; both leave function and environment as they were. `Memory` is out of memory, which can
/// come at any time: ranges and effects of places may be set in part then, and no report is recorded. On every answer
/// `check_function` still holds, no range end has fallen, and recorded effects and summaries stay. Where the function is forward
/// and makes each place once, the range of each identifier that reaches a written object on a path of blocks ends past the write.
#[tactic(auto, using(alias_range_pass::specs::CheckLaws::checked_fits, crate::proofs::Answering::refused_fits))]
pub fn infer_mutation_aliasing_ranges(
    alloc: Global,
    func: &mut HirFunction,
    env: &mut Environment,
    is_function_expression: bool,
) -> Result<AliasingEffects, InferError>
    requires { function_fits func.old env.old ≡ true }
    ensures pass { PassGives (range_pass is_function_expression func.old env.old) func.old env.old result func.new env.new }
    ensures fits { function_fits func.new env.new ≡ true }
    ensures still { but_places func.new ≡ but_places func.old }
    ensures kept { PassKeeps env.old env.new }
    ensures reports { OnErr result (env.new.errors ≡ env.old.errors) }
    ensures cover { OnOk result (RangesCover func.old env.new.identifiers) }
    ensures definite { OnOk result (MarksAreDefinite is_function_expression func.old env.old) }
    ensures cause { OnOk result (RangesHaveCauses func.old env.old.identifiers env.new.identifiers) }
    ensures heap { OnOk result (HeapIsCovered func.old env.new.identifiers) }
    ensures flows { IfOk result (λ summary. ListsFlows func.old summary) }
{
    let reported = env.errors.len();
    match run_range_pass(alloc, func, env, is_function_expression) {
        Ok(summary) => Ok(summary),
        Err(error) => {
            truncate(&mut env.errors, reported);
            Err(error)
        }
    }
}
