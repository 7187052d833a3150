//! Copies of states and of sets equal what they were made from.

use crate::print_fact;
use alias_base::IdentifierId;
use alias_hir::effect::{ValueKind, ValueReason};
use alias_lattice::{AbstractValue, InferenceState, Lattice, ReasonSet, Site, SiteSet};
use std::alloc::Global;

fn created(into: u32, kind: ValueKind) -> Site {
    Site::Created {
        into: IdentifierId(into),
        kind,
        reason: ValueReason::Other,
    }
}

/// Prints whether the value is below a copy of it, and the copy below the value.
fn print_copied<L: Lattice + Drop>(rt: &impl Print, name: &str, value: &L) {
    if let Ok(copy) = value.try_clone() {
        let fact = (value.is_below(&copy), copy.is_below(value));
        print_fact(rt, name, &fact);
    }
}

/// Gives identifier 1 a mutable object, and 2 the same, and answers whether both are done.
fn share_object(state: &mut InferenceState) -> bool {
    let site = created(1, ValueKind::Mutable);
    let value = AbstractValue {
        kind: ValueKind::Mutable,
        reason: ReasonSet::single(ValueReason::Other),
    };
    let is_given = state.give(IdentifierId(1), site, value).is_ok();
    is_given && state.assign(IdentifierId(2), IdentifierId(1)).is_ok()
}

fn print_state(rt: &impl Print, alloc: Global) {
    let mut state = InferenceState::empty(alloc);
    let is_shared = share_object(&mut state);
    print_fact(rt, "copies_a_state: the object is shared", &is_shared);
    print_copied(rt, "copies_a_state: below its copy, and above", &state);
}

fn print_set(rt: &impl Print, alloc: Global) {
    let mut sites = SiteSet::empty(alloc);
    let is_first_in = sites.insert(created(2, ValueKind::Primitive)).is_ok();
    let is_second_in = sites.insert(created(1, ValueKind::Mutable)).is_ok();
    let fact = (is_first_in, is_second_in);
    print_fact(rt, "copies_a_set: two are in", &fact);
    print_copied(rt, "copies_a_set: below its copy, and above", &sites);
}

pub(crate) fn print_copies(rt: &impl Print, alloc: Global) {
    print_state(rt, alloc);
    print_set(rt, alloc);
}
