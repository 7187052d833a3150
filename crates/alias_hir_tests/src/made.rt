//! Texts, types and items of tables, which are empty or missing where memory runs out.

use alias_base::{Boxed, List, Text};
use alias_hir::types::Ty;
use std::alloc::Global;

pub(crate) fn text_of(alloc: Global, text: &str) -> Text {
    match Text::from_str(alloc, text) {
        Ok(made) => made,
        Err(_) => Text::new(alloc),
    }
}

pub(crate) fn object(alloc: Global, shape: &str) -> Ty {
    Ty::Object {
        shape_id: Some(text_of(alloc, shape)),
    }
}

pub(crate) fn function(alloc: Global, shape: &str, return_type: Ty) -> Ty {
    match Boxed::new(alloc, return_type) {
        Ok(return_type) => Ty::Function {
            shape_id: Some(text_of(alloc, shape)),
            return_type,
        },
        Err(_) => Ty::Var,
    }
}

pub(crate) fn add<T: Drop>(list: &mut List<T>, item: T) {
    let _ = list.push(item);
}
