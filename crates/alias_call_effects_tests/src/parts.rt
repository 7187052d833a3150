//! Calls by an aliasing part. Each calls 1, and its result is 3.

use crate::making::{add, environment, spread_argument, text};
use crate::printing::{print_fact, print_given};
use alias_base::List;
use alias_call_effects::{Temporaries, compute_effects_for_aliasing_signature_config};
use alias_hir::effect::{ValueKind, ValueReason};
use alias_hir::env::Environment;
use alias_hir::place::{Place, PlaceOrSpreadOrHole};
use alias_hir::signature::{AliasingEffectConfig, AliasingSignatureConfig};
use alias_test_units::place;
use std::alloc::Global;

/// A part with the rest `rest`, no temporaries, and no effects.
fn part(alloc: Global) -> AliasingSignatureConfig {
    AliasingSignatureConfig {
        receiver: text(alloc, "r"),
        params: List::new(alloc),
        rest: Some(text(alloc, "rest")),
        returns: text(alloc, "ret"),
        temporaries: List::new(alloc),
        effects: List::new(alloc),
    }
}

fn create(alloc: Global, name: &str) -> AliasingEffectConfig {
    AliasingEffectConfig::Create {
        into: text(alloc, name),
        value: ValueKind::Mutable,
        reason: ValueReason::Other,
    }
}

fn capture(alloc: Global, from: &str, into: &str) -> AliasingEffectConfig {
    AliasingEffectConfig::Capture {
        from: text(alloc, from),
        into: text(alloc, into),
    }
}

/// It makes the result and the temporary `t`, and captures the temporary and what is named `x` outside in the result.
fn capturing(alloc: Global) -> AliasingSignatureConfig {
    let mut part = part(alloc);
    add(&mut part.temporaries, text(alloc, "t"));
    add(&mut part.effects, create(alloc, "ret"));
    add(&mut part.effects, create(alloc, "t"));
    add(&mut part.effects, capture(alloc, "t", "ret"));
    add(&mut part.effects, capture(alloc, "@x", "ret"));
    part
}

fn impure(alloc: Global, name: &str) -> AliasingEffectConfig {
    AliasingEffectConfig::Impure {
        place: text(alloc, name),
    }
}

fn freeze(alloc: Global, name: &str) -> AliasingEffectConfig {
    AliasingEffectConfig::Freeze {
        value: text(alloc, name),
        reason: ValueReason::Other,
    }
}

/// It tells of an impure call of each argument, and then freezes them.
fn telling(alloc: Global) -> AliasingSignatureConfig {
    let mut part = part(alloc);
    add(&mut part.temporaries, text(alloc, "t"));
    add(&mut part.effects, impure(alloc, "rest"));
    add(&mut part.effects, freeze(alloc, "rest"));
    part
}

/// Prints what a call of a host with these temporaries lists.
fn print_call(
    rt: &impl Print,
    name: &str,
    alloc: Global,
    env: &mut Environment,
    config: &AliasingSignatureConfig,
    args: &[PlaceOrSpreadOrHole],
    context: &[Place],
    temporaries: &mut Temporaries,
) {
    let answer = compute_effects_for_aliasing_signature_config(
        alloc,
        env,
        config,
        &place(3),
        &place(1),
        args,
        context,
        None,
        temporaries,
    );
    print_given(rt, name, answer);
}

/// Two calls, between which another identifier is made, and one in another context, where nothing is named `x`. Prints
/// how many identifiers, types and temporaries there are then, too.
fn print_one_host(
    rt: &impl Print,
    alloc: Global,
    env: &mut Environment,
    config: &AliasingSignatureConfig,
) {
    let mut kept = Temporaries::new(alloc);
    let context = [place(0), place(2)];
    let name = "a_temporary_keeps_its_identifier, first";
    print_call(rt, name, alloc, env, config, &[], &context, &mut kept);
    let made = env.next_identifier_id().is_ok();
    print_fact(rt, "a_temporary_keeps_its_identifier, another", &made);
    let name = "a_temporary_keeps_its_identifier, again";
    print_call(rt, name, alloc, env, config, &[], &context, &mut kept);
    let name = "a_temporary_keeps_its_identifier, without x";
    print_call(rt, name, alloc, env, config, &[], &[], &mut kept);
    let counts = (
        env.identifiers.len(),
        env.types.len(),
        kept.as_slice().len(),
    );
    print_fact(
        rt,
        "identifiers, types and temporaries of the host",
        &counts,
    );
}

/// Prints what the call of a new host lists, and how many identifiers and reports there are then.
fn print_new_host(
    rt: &impl Print,
    name: &str,
    alloc: Global,
    env: &mut Environment,
    config: &AliasingSignatureConfig,
    args: &[PlaceOrSpreadOrHole],
) {
    let mut temporaries = Temporaries::new(alloc);
    print_call(rt, name, alloc, env, config, args, &[], &mut temporaries);
    let counts = (env.identifiers.len(), env.interned.len());
    print_fact(rt, name, &("identifiers and reports", counts));
}

/// Calls of a host, of two new ones, and of one by the part without its rest, with an argument too many.
fn print_capturing(rt: &impl Print, alloc: Global, env: &mut Environment) {
    let mut config = capturing(alloc);
    print_one_host(rt, alloc, env, &config);
    let name = "temporaries_of_another_host_are_new, one";
    print_new_host(rt, name, alloc, env, &config, &[]);
    let name = "temporaries_of_another_host_are_new, another";
    print_new_host(rt, name, alloc, env, &config, &[]);
    config.rest = None;
    let argument = PlaceOrSpreadOrHole::Place(place(2));
    let name = "a_part_without_a_rest_gives_none";
    print_new_host(rt, name, alloc, env, &config, &[argument]);
}

/// A call with a spread argument, by a part that tells of it before it would freeze it.
fn print_telling(rt: &impl Print, alloc: Global, env: &mut Environment) {
    let name = "reports_before_a_refusal_stay";
    let config = telling(alloc);
    print_new_host(rt, name, alloc, env, &config, &[spread_argument()]);
}

pub(crate) fn print_parts(rt: &impl Print, alloc: Global) {
    let mut env = environment(alloc);
    print_capturing(rt, alloc, &mut env);
    print_telling(rt, alloc, &mut env);
}
