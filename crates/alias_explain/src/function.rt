//! Why the ranges of all identifiers of a function end where they do.
ghost use Rattle.std.specs.Prelude.{◌≡◌, [], IfOk, OnOk};
ghost use Rattle.std.specs.List.{AllByRecursion};
ghost use Rattle.alias_base.specs.Answer.{Gives};
ghost use Rattle.alias_explain.specs.Explanations.{explained, is_want_of_memory};
ghost use Rattle.alias_explain.specs.Functions.{if_here, with_found, each_explained, function_explained, IsExplanationOf};

use crate::explain::{ExplainFault, Explanation, explain_range, function_of};
use alias_base::{FunctionId, IdentifierId, List};
use alias_hir::env::Unit;
use alias_rules::rules::numbers_below;
use std::alloc::{AllocError, Global};

/// An identifier that stands in a function, with why its range ends where it does.
#[derive(Drop)]
pub struct IdentifierExplanation {
    pub identifier: IdentifierId,
    pub explanation: Explanation,
}

/// What is explained of the identifier, where it stands in the function.
fn explained_here(
    alloc: Global,
    unit: &Unit,
    function: Option<FunctionId>,
    identifier: IdentifierId,
) -> Result<Option<Explanation>, ExplainFault>
    ensures { Gives is_want_of_memory (if_here (explained unit.now function identifier)) result }
{
    match explain_range(alloc, unit, function, identifier) {
        Ok(explanation) => Ok(Some(explanation)),
        Err(ExplainFault::NotHere) => Ok(None),
        Err(fault) => Err(fault),
    }
}

fn push_found(
    found: &mut List<IdentifierExplanation>,
    identifier: IdentifierId,
    explanation: Option<Explanation>,
) -> Result<(), AllocError>
    ensures { OnOk result (found.new ≡ with_found found.old identifier explanation) }
{
    match explanation {
        None => Ok(()),
        Some(explanation) => {
            found.push(IdentifierExplanation {
                identifier,
                explanation,
            })?;
            Ok(())
        }
    }
}

/// Those of the identifiers with these numbers that stand in the function, each with why its range ends where it does.
fn each_explained(
    alloc: Global,
    unit: &Unit,
    function: Option<FunctionId>,
    numbers: &[u32],
) -> Result<List<IdentifierExplanation>, ExplainFault>
    ensures { Gives is_want_of_memory (each_explained unit.now function [] numbers.now) result }
{
    let mut found = List::new(alloc);
    for number in numbers {
        let identifier = IdentifierId(*number);
        let explanation = explained_here(alloc, unit, function, identifier)?;
        push_found(&mut found, identifier, explanation)?;
    }
    Ok(found)
}

/// What is explained of each identifier of a function of the unit: `None` is the root.
fn function_explained(
    alloc: Global,
    unit: &Unit,
    function: Option<FunctionId>,
) -> Result<List<IdentifierExplanation>, ExplainFault>
    ensures { Gives is_want_of_memory (function_explained unit.now function) result }
{
    if function_of(unit, function).is_none() {
        return Err(ExplainFault::NotHere);
    }
    let numbers = numbers_below(alloc, unit.env.identifiers.len())?;
    each_explained(alloc, unit, function, numbers.as_slice())
}

/// Why the ranges of all identifiers end where they do that stand in a function of a unit, in ascending order: `None`
/// is the root. Context places of a nested function are left out, since their ranges are reset. Each is explained as
/// `explain_range` explains it alone. `NotHere` comes exactly where the function isn't there.
#[tactic(auto, using(crate::proofs::EachExplaining::each_alone))]
pub fn explain_function(
    alloc: Global,
    unit: &Unit,
    function: Option<FunctionId>,
) -> Result<List<IdentifierExplanation>, ExplainFault>
    ensures explained { Gives is_want_of_memory (function_explained unit.now function) result }
    ensures alone { IfOk result (λ xs. AllByRecursion (IsExplanationOf unit.now function) xs) }
{
    let explained = function_explained(alloc, unit, function)?;
    Ok(explained)
}
