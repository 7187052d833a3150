//! Identifiers.
ghost use Rattle.std.specs.Prelude.{◌≡◌, ◌∷◌, IfOk};
ghost use Rattle.json.specs.Token as spec;
ghost use Rattle.alias_read.specs.Tables.{name_at};
ghost use Rattle.alias_straight.specs.Takes.{Takes};
ghost use Rattle.alias_straight.specs.Tables.{identifier_of};

use crate::fault::TakeFault;
use crate::members::{close_object, is_next, next_key, open_object, take_member, take_optional};
use crate::tokens::FromTokens;
use alias_base::{DeclarationId, EvaluationOrder, Text, TypeId};
use alias_hir::env::{Identifier, IdentifierName, MutableRange};
use alias_hir::place::Span;
use json::{Reader, Token};
use std::alloc::Global;

impl FromTokens for IdentifierName {
    fn from_tokens(
        alloc: Global,
        reader: &mut Reader,
        depth: usize,
    ) -> Result<IdentifierName, TakeFault> {
        let token = reader.next().ok_or(TakeFault::Unusual)?;
        match token {
            Token::String(text) => {
                let name = Text::from_str(alloc, text)?;
                Ok(IdentifierName::Named(name))
            }
            Token::BeginObject => {
                let name = take_promoted_behind(alloc, reader, depth)?;
                Ok(name)
            }
            _ => Err(TakeFault::Unusual),
        }
    }
}

// Takes a name that is promoted, of which the brace has been taken.
fn take_promoted_behind(
    alloc: Global,
    reader: &mut Reader,
    depth: usize,
) -> Result<IdentifierName, TakeFault>
    ensures { IfOk result (λ name. Takes name_at depth (spec.begin_object ∷ reader.old) name reader.new) }
{
    if depth == 0 {
        return Err(TakeFault::Unusual);
    }
    let mut next = next_key(reader)?;
    let name = take_member(alloc, reader, depth - 1, &mut next, "promoted")?;
    close_object(next)?;
    Ok(IdentifierName::Promoted(name))
}

fn identifier_of(
    declaration: u32,
    type_: u32,
    name: Option<IdentifierName>,
    span: Option<Span>,
) -> Identifier
    ensures { result ≡ identifier_of declaration type_ name span }
{
    Identifier {
        declaration_id: DeclarationId(declaration),
        name,
        mutable_range: MutableRange {
            start: EvaluationOrder::UNSET,
            end: EvaluationOrder::UNSET,
        },
        scope: None,
        type_: TypeId(type_),
        span,
    }
}

// The type stands behind the declaration, or last.
impl FromTokens for Identifier {
    fn from_tokens(
        alloc: Global,
        reader: &mut Reader,
        depth: usize,
    ) -> Result<Identifier, TakeFault> {
        if depth == 0 {
            return Err(TakeFault::Unusual);
        }
        let inner = depth - 1;
        let mut next = open_object(reader)?;
        let declaration = take_member(alloc, reader, inner, &mut next, "declaration")?;
        if is_next(next, "type") {
            let type_ = take_member(alloc, reader, inner, &mut next, "type")?;
            let name = take_optional(alloc, reader, inner, &mut next, "name")?;
            let span = take_optional(alloc, reader, inner, &mut next, "span")?;
            close_object(next)?;
            return Ok(identifier_of(declaration, type_, name, span));
        }
        let name = take_optional(alloc, reader, inner, &mut next, "name")?;
        let span = take_optional(alloc, reader, inner, &mut next, "span")?;
        let type_ = take_member(alloc, reader, inner, &mut next, "type")?;
        close_object(next)?;
        Ok(identifier_of(declaration, type_, name, span))
    }
}
