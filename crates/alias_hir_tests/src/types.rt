//! Types, how they are printed, and the shapes that they name.

use crate::made::{add, function, object};
use crate::print_fact;
use alias_base::{List, Text, TryClone};
use alias_hir::env::Environment;
use alias_hir::printed::push_type;
use alias_hir::types::Ty;
use std::alloc::Global;

/// Adds the types 3 to 6.
pub(crate) fn add_types(alloc: Global, types: &mut List<Ty>) {
    add(types, object(alloc, "useState"));
    add(types, function(alloc, "F", Ty::Primitive));
    let unshaped = Ty::Object { shape_id: None };
    add(types, function(alloc, "F", unshaped));
    add(types, object(alloc, "S"));
}

/// Prints the type, whether the first shape that it names is that of a hook, and whether that has a signature.
fn print_type(rt: &impl Print, alloc: Global, env: &Environment, ty: &Ty) {
    let mut text = Text::new(alloc);
    let _ = push_type(&mut text, ty);
    let has_signature = env.get_function_signature(ty).is_some();
    let fact = (text.as_str(), env.get_hook_kind_for_type(ty), has_signature);
    print_fact(rt, "prints_types_and_looks_up_the_first_shape", &fact);
}

fn print_copy(rt: &impl Print, alloc: Global, env: &Environment, ty: &Ty) {
    if let Ok(copy) = ty.try_clone(alloc) {
        print_type(rt, alloc, env, &copy);
    }
}

/// Prints a copy of each type of the tables.
pub(crate) fn print_types(rt: &impl Print, alloc: Global, env: &Environment) {
    for ty in env.types.as_slice() {
        print_copy(rt, alloc, env, ty);
    }
}
