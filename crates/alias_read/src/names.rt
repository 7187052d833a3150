//! Names of effects, of kinds and reasons of values, of declarations and of functions.
ghost use Rattle.std.specs.Prelude.{◌≡◌};
ghost use Rattle.alias_json.specs.Names.{named, named_at};
ghost use Rattle.alias_read.specs.Names.{effect_names, value_kind_names, value_reason_names, instruction_kind_names, function_type_names};

use crate::json::FromJson;
use alias_hir::effect::{ValueKind, ValueReason};
use alias_hir::hir::FunctionType;
use alias_hir::place::Effect;
use alias_hir::value::InstructionKind;
use alias_json::{Path, Tree, ValueFault, by_name, named};
use std::alloc::Global;

static EFFECTS: [(&str, Effect); 8] = [
    ("Unknown", Effect::Unknown),
    ("Freeze", Effect::Freeze),
    ("Read", Effect::Read),
    ("Capture", Effect::Capture),
    (
        "ConditionallyMutateIterator",
        Effect::ConditionallyMutateIterator,
    ),
    ("ConditionallyMutate", Effect::ConditionallyMutate),
    ("Mutate", Effect::Mutate),
    ("Store", Effect::Store),
];

impl FromJson for Effect {
    ghost reads = { named_at effect_names };

    #[tactic(auto, unfolding(crate::specs::Names::effect_names))]
    fn from_json(alloc: Global, path: &Path, value: &Tree) -> Result<Effect, ValueFault> {
        by_name(alloc, &EFFECTS, path, value)
    }
}

static VALUE_KINDS: [(&str, ValueKind); 6] = [
    ("Primitive", ValueKind::Primitive),
    ("Global", ValueKind::Global),
    ("Frozen", ValueKind::Frozen),
    ("Mutable", ValueKind::Mutable),
    ("Context", ValueKind::Context),
    ("MaybeFrozen", ValueKind::MaybeFrozen),
];

impl FromJson for ValueKind {
    ghost reads = { named_at value_kind_names };

    #[tactic(auto, unfolding(crate::specs::Names::value_kind_names))]
    fn from_json(alloc: Global, path: &Path, value: &Tree) -> Result<ValueKind, ValueFault> {
        by_name(alloc, &VALUE_KINDS, path, value)
    }
}

static VALUE_REASONS: [(&str, ValueReason); 12] = [
    ("KnownReturnSignature", ValueReason::KnownReturnSignature),
    ("State", ValueReason::State),
    ("ReducerState", ValueReason::ReducerState),
    ("Context", ValueReason::Context),
    ("Effect", ValueReason::Effect),
    ("HookCaptured", ValueReason::HookCaptured),
    ("HookReturn", ValueReason::HookReturn),
    ("Global", ValueReason::Global),
    ("JsxCaptured", ValueReason::JsxCaptured),
    ("StoreLocal", ValueReason::StoreLocal),
    (
        "ReactiveFunctionArgument",
        ValueReason::ReactiveFunctionArgument,
    ),
    ("Other", ValueReason::Other),
];

impl FromJson for ValueReason {
    ghost reads = { named_at value_reason_names };

    #[tactic(auto, unfolding(crate::specs::Names::value_reason_names))]
    fn from_json(alloc: Global, path: &Path, value: &Tree) -> Result<ValueReason, ValueFault> {
        by_name(alloc, &VALUE_REASONS, path, value)
    }
}

static INSTRUCTION_KINDS: [(&str, InstructionKind); 8] = [
    ("Const", InstructionKind::Const),
    ("Let", InstructionKind::Let),
    ("Reassign", InstructionKind::Reassign),
    ("Catch", InstructionKind::Catch),
    ("HoistedConst", InstructionKind::HoistedConst),
    ("HoistedLet", InstructionKind::HoistedLet),
    ("HoistedFunction", InstructionKind::HoistedFunction),
    ("Function", InstructionKind::Function),
];

impl FromJson for InstructionKind {
    ghost reads = { named_at instruction_kind_names };

    #[tactic(auto, unfolding(crate::specs::Names::instruction_kind_names))]
    fn from_json(alloc: Global, path: &Path, value: &Tree) -> Result<InstructionKind, ValueFault> {
        by_name(alloc, &INSTRUCTION_KINDS, path, value)
    }
}

static FUNCTION_TYPES: [(&str, FunctionType); 3] = [
    ("Component", FunctionType::Component),
    ("Hook", FunctionType::Hook),
    ("Other", FunctionType::Other),
];

impl FromJson for FunctionType {
    ghost reads = { named_at function_type_names };

    #[tactic(auto, unfolding(crate::specs::Names::function_type_names))]
    fn from_json(alloc: Global, path: &Path, value: &Tree) -> Result<FunctionType, ValueFault> {
        by_name(alloc, &FUNCTION_TYPES, path, value)
    }
}

/// The kind of a declaration that a name stands for.
#[tactic(auto, unfolding(crate::specs::Names::instruction_kind_names))]
pub fn instruction_kind(name: &str) -> Option<InstructionKind>
    ensures { result ≡ named instruction_kind_names name.now }
{
    named(&INSTRUCTION_KINDS, name)
}

/// The type of a function that a name stands for.
#[tactic(auto, unfolding(crate::specs::Names::function_type_names))]
pub fn function_type(name: &str) -> Option<FunctionType>
    ensures { result ≡ named function_type_names name.now }
{
    named(&FUNCTION_TYPES, name)
}
