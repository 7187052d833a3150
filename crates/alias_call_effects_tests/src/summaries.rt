//! Calls by the summary of a function. It has the context place 1, and returns 3.

ghost use Rattle.std.specs.Prelude.{◌<◌, length, slice_get, IfOk, IfSome, IsSome};

use crate::making::{add, environment};
use crate::printing::{print_fact, print_given, print_refusal};
use alias_base::{FunctionId, IdentifierId, List};
use alias_call_effects::{
    AliasingSignature, SignatureError, Temporaries, build_signature_from_function_expression,
    compute_effects_for_aliasing_signature,
};
use alias_hir::effect::{AliasingEffect, AliasingEffects};
use alias_hir::env::Environment;
use alias_hir::hir::{FunctionType, HirFunction, ParamPattern};
use alias_hir::place::{PlaceOrSpreadOrHole, SpreadPattern};
use alias_test_units::place;
use std::alloc::{AllocError, Global};

fn mutate(number: u32) -> AliasingEffect {
    AliasingEffect::Mutate {
        value: place(number),
        reason: None,
    }
}

fn capture(from: u32, into: u32) -> AliasingEffect {
    AliasingEffect::Capture {
        from: place(from),
        into: place(into),
    }
}

/// Its summary writes its parameter 2 and its context place, and captures the first in what it returns.
fn summary(alloc: Global) -> AliasingEffects {
    let mut effects = List::new(alloc);
    add(&mut effects, mutate(1));
    add(&mut effects, mutate(2));
    add(&mut effects, capture(2, 3));
    effects
}

fn function(alloc: Global, param: ParamPattern) -> HirFunction
    ensures { IsSome result.aliasing_effects }
{
    let mut function = alias_test_units::function(alloc, FunctionType::Other);
    add(&mut function.params, param);
    add(&mut function.context, place(1));
    function.returns = place(3);
    function.aliasing_effects = Some(summary(alloc));
    function
}

/// That function alone.
fn functions(alloc: Global, param: ParamPattern) -> Result<List<HirFunction>, AllocError>
    ensures { IfOk result (λ fs. (0 < length fs) × IfSome (slice_get fs 0) (λ f. IsSome f.aliasing_effects)) }
{
    let mut functions = List::new(alloc);
    functions.push(function(alloc, param))?;
    Ok(functions)
}

/// A small environment with that function.
fn environment_with(alloc: Global, param: ParamPattern) -> Result<Environment, AllocError>
    ensures { IfOk result (λ env. (0 < length env.functions) × IfSome (slice_get env.functions 0) (λ f. IsSome f.aliasing_effects)) }
{
    let functions = functions(alloc, param)?;
    let mut env = environment(alloc);
    env.functions = functions;
    Ok(env)
}

/// Prints the numbers of parameters, what is the rest and the result, and the number of effects, or why there are none.
fn print_signature(rt: &impl Print, name: &str, answer: Result<AliasingSignature, SignatureError>) {
    match &answer {
        Ok(it) => {
            let fact = (it.params.len(), it.rest, it.returns, it.effects.len());
            print_fact(rt, name, &fact);
        }
        Err(error) => print_refusal(rt, name, error),
    }
}

/// Prints the names of the function with this parameter, and how many identifiers its environment has then.
fn print_built(
    rt: &impl Print,
    name: &str,
    alloc: Global,
    param: ParamPattern,
    temporaries: &mut Temporaries,
) {
    if let Ok(mut env) = environment_with(alloc, param) {
        let answer = build_signature_from_function_expression(
            alloc,
            &mut env,
            FunctionId(0),
            temporaries,
        );
        print_signature(rt, name, answer);
        print_fact(rt, name, &("identifiers", env.identifiers.len()));
    }
}

/// The names where the parameter is a place, of two environments after one another, and where it is spread.
fn print_names(rt: &impl Print, alloc: Global) {
    let mut temporaries = Temporaries::new(alloc);
    let param = ParamPattern::Place(place(2));
    let name = "a_function_without_a_rest_gets_one";
    print_built(rt, name, alloc, param, &mut temporaries);
    let name = "a_function_without_a_rest_gets_one, again";
    print_built(rt, name, alloc, param, &mut temporaries);
    let param = ParamPattern::Spread(SpreadPattern { place: place(2) });
    let name = "a_spread_parameter_is_the_rest";
    print_built(rt, name, alloc, param, &mut temporaries);
}

/// The names of a function with the rest 2, or with the parameter 2, and the effects of its summary.
fn signature(alloc: Global, is_rest: bool) -> AliasingSignature {
    let named = IdentifierId(2);
    let mut params = List::new(alloc);
    if !is_rest {
        add(&mut params, named);
    }
    AliasingSignature {
        params,
        rest: if is_rest { Some(named) } else { None },
        returns: IdentifierId(3),
        effects: summary(alloc),
    }
}

/// Prints what a call of that function lists.
fn print_call(
    rt: &impl Print,
    name: &str,
    alloc: Global,
    env: &Environment,
    is_rest: bool,
    args: &[PlaceOrSpreadOrHole],
) {
    let signature = signature(alloc, is_rest);
    let context = [place(1)];
    let answer = compute_effects_for_aliasing_signature(
        alloc,
        env,
        &signature,
        &place(0),
        args,
        &context,
        None,
    );
    print_given(rt, name, answer);
}

fn print_calls(rt: &impl Print, alloc: Global, env: &Environment) {
    let args = [
        PlaceOrSpreadOrHole::Place(place(0)),
        PlaceOrSpreadOrHole::Hole,
    ];
    let name = "further_arguments_stand_for_the_rest";
    print_call(rt, name, alloc, env, true, &args[..1]);
    let name = "a_call_without_the_parameter_gives_none";
    print_call(rt, name, alloc, env, false, &[]);
    let name = "a_hole_too_many_gives_none";
    print_call(rt, name, alloc, env, false, &args);
}

pub(crate) fn print_summaries(rt: &impl Print, alloc: Global) {
    print_names(rt, alloc);
    print_calls(rt, alloc, &environment(alloc));
}
