//! Reads signatures.
ghost use Rattle.std.specs.Prelude.{◌≡◌, Result};
ghost use Rattle.alias_json.specs.Tree.{view};
ghost use Rattle.alias_base.specs.Answer.{Gives};
ghost use Rattle.alias_json.specs.Pointer.{pointer};
ghost use Rattle.alias_json.specs.Fault.{is_memory};
ghost use Rattle.alias_json.specs.Reading.{known_keys};
ghost use Rattle.alias_read.specs.Signatures.{apply_arg_of, apply_arg_at, flow_with, flow_at, freeze_at, create_at, impure_at, mutate_at, mutate_transitive_at, apply_at, config_effect_of_kind, config_effect_at, aliasing_at, signature_keys, signature_at};

use crate::config_kinds::{ConfigEffectKind, FlowKind};
use crate::json::{FromJson, flag, list_of, optional, required};
use alias_base::Text;
use alias_hir::signature::{
    AliasingEffectConfig, AliasingSignatureConfig, ApplyArgConfig, FunctionSignature,
};
use alias_json::{Path, Tree, ValueFault, known_keys, object};
use std::alloc::Global;

fn apply_arg_of(name: Option<Text>) -> ApplyArgConfig
    ensures { result ≡ apply_arg_of name }
{
    match name {
        None => ApplyArgConfig::Hole,
        Some(name) => ApplyArgConfig::Place(name),
    }
}

impl FromJson for ApplyArgConfig {
    ghost reads = { apply_arg_at };

    fn from_json(alloc: Global, path: &Path, value: &Tree) -> Result<ApplyArgConfig, ValueFault> {
        Ok(apply_arg_of(Option::<Text>::from_json(alloc, path, value)?))
    }
}

fn flow_with(kind: FlowKind, from: Text, into: Text) -> AliasingEffectConfig
    ensures { result ≡ flow_with kind from into }
{
    match kind {
        FlowKind::CreateFrom => AliasingEffectConfig::CreateFrom { from, into },
        FlowKind::Assign => AliasingEffectConfig::Assign { from, into },
        FlowKind::Alias => AliasingEffectConfig::Alias { from, into },
        FlowKind::Capture => AliasingEffectConfig::Capture { from, into },
        FlowKind::ImmutableCapture => AliasingEffectConfig::ImmutableCapture { from, into },
    }
}

fn flow(
    alloc: Global,
    kind: FlowKind,
    path: &Path,
    value: &Tree,
) -> Result<AliasingEffectConfig, ValueFault>
    ensures { Gives is_memory (flow_at kind (pointer path.now) (view value.now)) result }
{
    let from = required(alloc, path, "from", value)?;
    let into = required(alloc, path, "into", value)?;
    known_keys(alloc, path, &["kind", "from", "into"], value)?;
    Ok(flow_with(kind, from, into))
}

fn freeze(alloc: Global, path: &Path, value: &Tree) -> Result<AliasingEffectConfig, ValueFault>
    ensures { Gives is_memory (freeze_at (pointer path.now) (view value.now)) result }
{
    let frozen = required(alloc, path, "value", value)?;
    let reason = required(alloc, path, "reason", value)?;
    known_keys(alloc, path, &["kind", "value", "reason"], value)?;
    Ok(AliasingEffectConfig::Freeze {
        value: frozen,
        reason,
    })
}

fn create(alloc: Global, path: &Path, value: &Tree) -> Result<AliasingEffectConfig, ValueFault>
    ensures { Gives is_memory (create_at (pointer path.now) (view value.now)) result }
{
    let into = required(alloc, path, "into", value)?;
    let created = required(alloc, path, "value", value)?;
    let reason = required(alloc, path, "reason", value)?;
    known_keys(alloc, path, &["kind", "into", "value", "reason"], value)?;
    Ok(AliasingEffectConfig::Create {
        into,
        value: created,
        reason,
    })
}

fn impure(alloc: Global, path: &Path, value: &Tree) -> Result<AliasingEffectConfig, ValueFault>
    ensures { Gives is_memory (impure_at (pointer path.now) (view value.now)) result }
{
    let place = required(alloc, path, "place", value)?;
    known_keys(alloc, path, &["kind", "place"], value)?;
    Ok(AliasingEffectConfig::Impure { place })
}

fn mutate(alloc: Global, path: &Path, value: &Tree) -> Result<AliasingEffectConfig, ValueFault>
    ensures { Gives is_memory (mutate_at (pointer path.now) (view value.now)) result }
{
    let mutated = required(alloc, path, "value", value)?;
    known_keys(alloc, path, &["kind", "value"], value)?;
    Ok(AliasingEffectConfig::Mutate { value: mutated })
}

fn mutate_transitive(
    alloc: Global,
    path: &Path,
    value: &Tree,
) -> Result<AliasingEffectConfig, ValueFault>
    ensures { Gives is_memory (mutate_transitive_at (pointer path.now) (view value.now)) result }
{
    let mutated = required(alloc, path, "value", value)?;
    known_keys(alloc, path, &["kind", "value"], value)?;
    Ok(AliasingEffectConfig::MutateTransitiveConditionally { value: mutated })
}

fn apply(alloc: Global, path: &Path, value: &Tree) -> Result<AliasingEffectConfig, ValueFault>
    ensures { Gives is_memory (apply_at (pointer path.now) (view value.now)) result }
{
    let receiver = required(alloc, path, "receiver", value)?;
    let function = required(alloc, path, "function", value)?;
    let mutates_function = flag(alloc, path, "mutates_function", value)?;
    let args = list_of(alloc, path, "args", value)?;
    let into = required(alloc, path, "into", value)?;
    known_keys(
        alloc,
        path,
        &[
            "kind",
            "receiver",
            "function",
            "mutates_function",
            "args",
            "into",
        ],
        value,
    )?;
    Ok(AliasingEffectConfig::Apply {
        receiver,
        function,
        mutates_function,
        args,
        into,
    })
}

fn config_effect_of_kind(
    alloc: Global,
    kind: ConfigEffectKind,
    path: &Path,
    value: &Tree,
) -> Result<AliasingEffectConfig, ValueFault>
    ensures { Gives is_memory (config_effect_of_kind kind (pointer path.now) (view value.now)) result }
{
    match kind {
        ConfigEffectKind::Flow(kind) => flow(alloc, kind, path, value),
        ConfigEffectKind::Freeze => freeze(alloc, path, value),
        ConfigEffectKind::Create => create(alloc, path, value),
        ConfigEffectKind::Impure => impure(alloc, path, value),
        ConfigEffectKind::Mutate => mutate(alloc, path, value),
        ConfigEffectKind::MutateTransitiveConditionally => mutate_transitive(alloc, path, value),
        ConfigEffectKind::Apply => apply(alloc, path, value),
    }
}

impl FromJson for AliasingEffectConfig {
    ghost reads = { config_effect_at };

    fn from_json(
        alloc: Global,
        path: &Path,
        value: &Tree,
    ) -> Result<AliasingEffectConfig, ValueFault> {
        object(alloc, path, value)?;
        let kind = required(alloc, path, "kind", value)?;
        config_effect_of_kind(alloc, kind, path, value)
    }
}

impl FromJson for AliasingSignatureConfig {
    ghost reads = { aliasing_at };

    fn from_json(
        alloc: Global,
        path: &Path,
        value: &Tree,
    ) -> Result<AliasingSignatureConfig, ValueFault> {
        object(alloc, path, value)?;
        let receiver = required(alloc, path, "receiver", value)?;
        let params = list_of(alloc, path, "params", value)?;
        let rest = optional(alloc, path, "rest", value)?;
        let returns = required(alloc, path, "returns", value)?;
        let temporaries = list_of(alloc, path, "temporaries", value)?;
        let effects = list_of(alloc, path, "effects", value)?;
        known_keys(
            alloc,
            path,
            &[
                "receiver",
                "params",
                "rest",
                "returns",
                "temporaries",
                "effects",
            ],
            value,
        )?;
        Ok(AliasingSignatureConfig {
            receiver,
            params,
            rest,
            returns,
            temporaries,
            effects,
        })
    }
}

fn signature_keys(alloc: Global, path: &Path, value: &Tree) -> Result<(), ValueFault>
    ensures { Gives is_memory (known_keys signature_keys (pointer path.now) (view value.now)) result }
{
    known_keys(
        alloc,
        path,
        &[
            "positional_params",
            "rest_param",
            "return_value_kind",
            "return_value_reason",
            "callee_effect",
            "no_alias",
            "mutable_only_if_operands_are_mutable",
            "impure",
            "known_incompatible",
            "canonical_name",
            "aliasing",
        ],
        value,
    )
}

impl FromJson for FunctionSignature {
    ghost reads = { signature_at };

    fn from_json(
        alloc: Global,
        path: &Path,
        value: &Tree,
    ) -> Result<FunctionSignature, ValueFault> {
        object(alloc, path, value)?;
        let positional_params = list_of(alloc, path, "positional_params", value)?;
        let rest_param = optional(alloc, path, "rest_param", value)?;
        let return_value_kind = required(alloc, path, "return_value_kind", value)?;
        let return_value_reason = optional(alloc, path, "return_value_reason", value)?;
        let callee_effect = required(alloc, path, "callee_effect", value)?;
        let no_alias = flag(alloc, path, "no_alias", value)?;
        let mutable_only_if_operands_are_mutable = flag(
            alloc,
            path,
            "mutable_only_if_operands_are_mutable",
            value,
        )?;
        let impure = flag(alloc, path, "impure", value)?;
        let known_incompatible = optional(alloc, path, "known_incompatible", value)?;
        let canonical_name = optional(alloc, path, "canonical_name", value)?;
        let aliasing = optional(alloc, path, "aliasing", value)?;
        signature_keys(alloc, path, value)?;
        Ok(FunctionSignature {
            positional_params,
            rest_param,
            return_value_kind,
            return_value_reason,
            callee_effect,
            no_alias,
            mutable_only_if_operands_are_mutable,
            impure,
            known_incompatible,
            canonical_name,
            aliasing,
        })
    }
}
