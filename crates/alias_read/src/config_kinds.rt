//! The kinds of effects of a signature, and their names.
ghost use Rattle.alias_json.specs.Names.{named_at};
ghost use Rattle.alias_read.specs.Signatures.{config_effect_names};

use crate::json::FromJson;
use alias_json::{Path, Tree, ValueFault, by_name};
use std::alloc::Global;

/// The kinds that go from one value to another.
#[derive(Clone, Copy)]
pub enum FlowKind {
    CreateFrom,
    Assign,
    Alias,
    Capture,
    ImmutableCapture,
}

/// The kinds of effects of a signature.
#[derive(Clone, Copy)]
pub enum ConfigEffectKind {
    Flow(FlowKind),
    Freeze,
    Create,
    Impure,
    Mutate,
    MutateTransitiveConditionally,
    Apply,
}

static CONFIG_EFFECTS: [(&str, ConfigEffectKind); 11] = [
    ("Freeze", ConfigEffectKind::Freeze),
    ("Create", ConfigEffectKind::Create),
    ("CreateFrom", ConfigEffectKind::Flow(FlowKind::CreateFrom)),
    ("Assign", ConfigEffectKind::Flow(FlowKind::Assign)),
    ("Alias", ConfigEffectKind::Flow(FlowKind::Alias)),
    ("Capture", ConfigEffectKind::Flow(FlowKind::Capture)),
    (
        "ImmutableCapture",
        ConfigEffectKind::Flow(FlowKind::ImmutableCapture),
    ),
    ("Impure", ConfigEffectKind::Impure),
    ("Mutate", ConfigEffectKind::Mutate),
    (
        "MutateTransitiveConditionally",
        ConfigEffectKind::MutateTransitiveConditionally,
    ),
    ("Apply", ConfigEffectKind::Apply),
];

impl FromJson for ConfigEffectKind {
    ghost reads = { named_at config_effect_names };

    #[tactic(auto, unfolding(crate::specs::Signatures::config_effect_names))]
    fn from_json(alloc: Global, path: &Path, value: &Tree) -> Result<ConfigEffectKind, ValueFault> {
        by_name(alloc, &CONFIG_EFFECTS, path, value)
    }
}
