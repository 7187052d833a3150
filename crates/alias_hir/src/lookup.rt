//! Look-ups in the tables, and new identifiers.
ghost use Rattle.std.specs.Prelude.{◌≡◌, ◌≤◌, None, length, option_map, OnOk, OnErr};
ghost use Rattle.alias_base.specs.Answer.{Gives};
ghost use Rattle.alias_hir.specs.Errors.{is_hir_memory};
ghost use Rattle.alias_hir.specs.Types.{function_shape};
ghost use Rattle.alias_hir.specs.Tables.{next_identifier, next_identifier_where_known, with_identifier, fresh_identifier, shape_of, function_signature, hook_kind, has_no_alias};

use crate::env::{Environment, Identifier, MutableRange};
use crate::error::{Counter, HirError};
use crate::place::Span;
use crate::signature::{FunctionSignature, HookKind, Shape};
use crate::types::{Ty, type_of};
use alias_base::{DeclarationId, EvaluationOrder, IdentifierId, TypeId};

fn function_shape(ty: &Ty) -> Option<&str>
    ensures { option_map (λ s. s.now) result ≡ function_shape ty.now }
{
    match ty {
        Ty::Function {
            shape_id: Some(name),
            ..
        } => Some(name.as_str()),
        _ => None,
    }
}

fn shape_of<'a>(env: &'a Environment, ty: &Ty) -> Option<&'a Shape>
    ensures { option_map (λ s. s.now) result ≡ shape_of env.now ty.now }
{
    match function_shape(ty) {
        Some(name) => env.shapes.named(name),
        None => None,
    }
}

/// The number of a new identifier, or that none is left.
fn next_number(env: &Environment) -> Result<IdentifierId, HirError>
    ensures { result ≡ next_identifier env.now }
{
    if env.identifiers.len() < 4294967295 && env.types.len() < 4294967295 {
        Ok(IdentifierId(env.identifiers.len() as u32))
    } else {
        Err(HirError::TooMany(Counter::Identifiers))
    }
}

/// An identifier of a declaration of its own, which has its number: it has no name, no range and no scope.
pub fn fresh_identifier(span: Option<Span>, number: u32, type_: u32) -> Identifier
    ensures { result ≡ fresh_identifier span number type_ }
{
    Identifier {
        declaration_id: DeclarationId(number),
        name: None,
        mutable_range: MutableRange {
            start: EvaluationOrder::UNSET,
            end: EvaluationOrder::UNSET,
        },
        scope: None,
        type_: TypeId(type_),
        span,
    }
}

impl Environment {
    /// Makes an identifier of a declaration of its own, of which nothing is known; it has no span. `TooMany` comes
    /// exactly where as many identifiers or types are there as there are numbers. After an `Err` nothing has changed.
    pub fn next_identifier_id(&mut self) -> Result<IdentifierId, HirError>
        ensures number { Gives is_hir_memory (next_identifier self.old) result }
        ensures taken { length self.old.identifiers ≤ 4294967295 → length self.old.types ≤ 4294967295 → Gives is_hir_memory (next_identifier_where_known self.old) result }
        ensures ok { OnOk result (self.new ≡ with_identifier None self.old) }
        ensures err { OnErr result (self.new ≡ self.old) }
    {
        self.next_identifier_id_at(None)
    }

    /// The same, but that the identifier has this span: a temporary's has the one of its place.
    pub fn next_identifier_id_at(&mut self, span: Option<Span>) -> Result<IdentifierId, HirError>
        ensures number { Gives is_hir_memory (next_identifier self.old) result }
        ensures taken { length self.old.identifiers ≤ 4294967295 → length self.old.types ≤ 4294967295 → Gives is_hir_memory (next_identifier_where_known self.old) result }
        ensures ok { OnOk result (self.new ≡ with_identifier span self.old) }
        ensures err { OnErr result (self.new ≡ self.old) }
    {
        let id = next_number(self)?;
        let identifier = fresh_identifier(span, id.0, self.types.len() as u32);
        self.types.push(Ty::Var)?;
        match self.identifiers.push(identifier) {
            Ok(()) => Ok(id),
            Err(e) => {
                let _ = self.types.pop();
                Err(HirError::from(e))
            }
        }
    }

    /// Whether the validations are asked for.
    pub fn enable_validations(&self) -> bool
        ensures { result ≡ self.now.config.enable_validations }
    {
        self.config.enable_validations
    }

    /// The signature of the first shape with the name that a function type gives.
    pub fn get_function_signature(&self, ty: &Ty) -> Option<&FunctionSignature>
        ensures { option_map (λ s. s.now) result ≡ function_signature self.now ty.now }
    {
        match shape_of(self, ty) {
            Some(shape) => shape.signature.as_ref(),
            None => None,
        }
    }

    /// `Hook` exactly where the first shape with the name that a function type gives is that of a hook.
    pub fn get_hook_kind_for_type(&self, ty: &Ty) -> Option<HookKind>
        ensures { result ≡ hook_kind self.now ty.now }
    {
        match shape_of(self, ty) {
            Some(shape) => {
                if shape.hook {
                    Some(HookKind::Hook)
                } else {
                    None
                }
            }
            None => None,
        }
    }

    /// Whether the identifier's type has a signature that says that nothing of its arguments is kept.
    pub fn has_no_alias_signature(&self, identifier: IdentifierId) -> bool
        ensures { result ≡ has_no_alias self.now identifier }
    {
        match type_of(self, identifier) {
            Some(ty) => match self.get_function_signature(ty) {
                Some(signature) => signature.no_alias,
                None => false,
            },
            None => false,
        }
    }
}
