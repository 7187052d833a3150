//! Laws of the calls of a call's effects, over an environment.

ghost use Rattle.std.specs.Prelude.{◌≡◌, [], List};
ghost use Rattle.alias_base.specs.declared.ids.FunctionId.{FunctionId};
ghost use Rattle.alias_hir.specs.declared.effect.AliasingEffect.{AliasingEffect};
ghost use Rattle.alias_hir.specs.declared.hir.HirFunction.{HirFunction};
ghost use Rattle.alias_hir.specs.declared.place.PlaceOrSpreadOrHole.{PlaceOrSpreadOrHole};
ghost use Rattle.alias_hir.specs.declared.signature.AliasingEffectConfig.{AliasingEffectConfig};
ghost use Rattle.alias_hir.specs.declared.signature.AliasingSignatureConfig.{AliasingSignatureConfig};
ghost use Rattle.alias_hir.specs.declared.signature.FunctionSignature.{FunctionSignature};
ghost use Rattle.alias_lattice.specs.States.{State};
ghost use Rattle.alias_tables.specs.Tables.{TableLists};
ghost use Rattle.alias_calls.specs.declared.call.CallSite.{CallSite};
ghost use Rattle.alias_calls.specs.Calls.{ConfigCall, SummaryCall};
ghost use Rattle.alias_calls.specs.Configs.{config_expansion, with_config_effects};
ghost use Rattle.alias_calls.specs.Legacy.{legacy_expansion};
ghost use Rattle.alias_calls.specs.Summaries.{names_expansion, summary_names};
ghost use Rattle.alias_call_effects.specs.Configs.{config_called};
ghost use Rattle.alias_call_effects.specs.Legacy.{legacy_called};
ghost use Rattle.alias_call_effects.specs.Summaries.{signature_of};
ghost use Rattle.alias_call_effects.specs.laws.LegacyPassLaws.{environment_alone};
ghost use Rattle.alias_call_effects.specs.laws.PassLaws.{host_of, as_host, names_given};
ghost use Rattle.alias_call_effects.specs.laws.RefusalLaws.{RefusesWithCause};

use alias_hir::env::Environment;

/// A host whose environment has an identifier for each temporary of a pass and the reports of the pass, and which keeps
/// these temporaries, is given the lists and the names of a summary that the pass is given, and is left so again. Does
/// nothing.
pub fn pass_laws(env: &Environment)
    ensures parts { (config : AliasingSignatureConfig) (site : CallSite) (args : List PlaceOrSpreadOrHole) (t : TableLists) → config_called config site args [] (host_of env.now t) ≡ as_host env.now (config_expansion env.now config site args t) }
    ensures legacy { (s : FunctionSignature) (site : CallSite) (args : List PlaceOrSpreadOrHole) (u : State) (t : TableLists) → legacy_called s site args u (host_of env.now t).env ≡ environment_alone (as_host env.now (legacy_expansion env.now s site args u t)) }
    ensures summaries { (f : FunctionId) (function : HirFunction) (effects : List AliasingEffect) (t : TableLists) → names_given (signature_of f function effects (host_of env.now t)) ≡ as_host env.now (summary_names env.now f function t) }
{
    // A law does nothing with what it is given: its clause is what it is for.
    let _env = env;
}

/// Where a list is refused, a host is told of a spread argument or of numbers, and never of lack of memory. Does nothing.
pub fn refusal_laws(env: &Environment)
    ensures parts { (c : ConfigCall) (effects : List AliasingEffectConfig) → RefusesWithCause (with_config_effects env.now c effects []) }
    ensures summaries { (c : SummaryCall) (effects : List AliasingEffect) → RefusesWithCause (names_expansion env.now c effects) }
    ensures legacy { (s : FunctionSignature) (site : CallSite) (args : List PlaceOrSpreadOrHole) (u : State) → RefusesWithCause (legacy_expansion env.now s site args u) }
{
    let _env = env;
}
