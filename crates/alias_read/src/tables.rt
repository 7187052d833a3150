//! Reads identifiers, and what is asked of the inference.
ghost use Rattle.std.specs.Prelude.{◌≡◌, Result};
ghost use Rattle.alias_json.specs.Tree.{view};
ghost use Rattle.alias_base.specs.Answer.{Gives};
ghost use Rattle.alias_json.specs.Pointer.{pointer};
ghost use Rattle.alias_json.specs.Fault.{is_memory};
ghost use Rattle.alias_read.specs.Tables.{promoted_at, name_at, identifier_at, config_at};

use crate::json::{FromJson, flag, optional, required};
use alias_base::{DeclarationId, EvaluationOrder, Text, TypeId};
use alias_hir::env::{Config, Identifier, IdentifierName, MutableRange};
use alias_json::{Path, Tree, ValueFault, known_keys, object};
use std::alloc::Global;

fn promoted(alloc: Global, path: &Path, value: &Tree) -> Result<IdentifierName, ValueFault>
    ensures { Gives is_memory (promoted_at (pointer path.now) (view value.now)) result }
{
    object(alloc, path, value)?;
    let name = required(alloc, path, "promoted", value)?;
    known_keys(alloc, path, &["promoted"], value)?;
    Ok(IdentifierName::Promoted(name))
}

impl FromJson for IdentifierName {
    ghost reads = { name_at };

    fn from_json(alloc: Global, path: &Path, value: &Tree) -> Result<IdentifierName, ValueFault> {
        if value.is_string() {
            Ok(IdentifierName::Named(Text::from_json(alloc, path, value)?))
        } else {
            promoted(alloc, path, value)
        }
    }
}

impl FromJson for Identifier {
    ghost reads = { identifier_at };

    fn from_json(alloc: Global, path: &Path, value: &Tree) -> Result<Identifier, ValueFault> {
        object(alloc, path, value)?;
        let declaration = required(alloc, path, "declaration", value)?;
        let type_ = required(alloc, path, "type", value)?;
        let name = optional(alloc, path, "name", value)?;
        let span = optional(alloc, path, "span", value)?;
        known_keys(alloc, path, &["declaration", "type", "name", "span"], value)?;
        Ok(Identifier {
            declaration_id: DeclarationId(declaration),
            name,
            mutable_range: MutableRange {
                start: EvaluationOrder::UNSET,
                end: EvaluationOrder::UNSET,
            },
            scope: None,
            type_: TypeId(type_),
            span,
        })
    }
}

const PRESERVE: &str = "enable_preserve_existing_memoization_guarantees";

const FREEZE: &str = "enable_transitively_freeze_function_expressions";

const NO_IMPURE: &str = "validate_no_impure_functions_in_render";

impl FromJson for Config {
    ghost reads = { config_at };

    fn from_json(alloc: Global, path: &Path, value: &Tree) -> Result<Config, ValueFault> {
        object(alloc, path, value)?;
        let enable_validations = flag(alloc, path, "enable_validations", value)?;
        let preserve = flag(alloc, path, PRESERVE, value)?;
        let freeze = flag(alloc, path, FREEZE, value)?;
        let no_impure = flag(alloc, path, NO_IMPURE, value)?;
        known_keys(
            alloc,
            path,
            &["enable_validations", PRESERVE, FREEZE, NO_IMPURE],
            value,
        )?;
        Ok(Config {
            enable_validations,
            enable_preserve_existing_memoization_guarantees: preserve,
            enable_transitively_freeze_function_expressions: freeze,
            validate_no_impure_functions_in_render: no_impure,
        })
    }
}
