//! What maps of kinds answer once they are joined, walked over and copied.

use crate::print_fact;
use alias_hir::effect::ValueKind;
use alias_lattice::lattice::Lattice;
use alias_lattice::map::LatticeMap;
use std::alloc::Global;

type Kinds = LatticeMap<u32, ValueKind>;

/// The map of these keys and kinds.
fn map_of(alloc: Global, entries: &[(u32, ValueKind)]) -> Kinds {
    let mut map = LatticeMap::empty(alloc);
    for entry in entries {
        let _ = map.set(entry.0, entry.1);
    }
    map
}

/// Prints the entries after none, after key 1 and after key 3, and the kinds at 1 and at 2.
fn print_entries(rt: &impl Print, name: &str, map: &Kinds) {
    let first = map.entry_after(None);
    let fact = (first, map.entry_after(Some(1)), map.entry_after(Some(3)));
    print_fact(rt, name, &fact);
    print_fact(rt, name, &(map.get(1), map.get(2)));
}

/// Joins the second map in twice, and prints whether the first grew each time, and what it answers then.
fn print_joined(rt: &impl Print, name: &str, one: &mut Kinds, two: &Kinds) {
    let once = one.join_from(two);
    let fact = (once, one.join_from(two));
    print_fact(rt, name, &fact);
    print_entries(rt, name, one);
}

/// Joins a mutable kind at key 1 into the map of the entries.
fn print_join(rt: &impl Print, alloc: Global, name: &str, entries: &[(u32, ValueKind)]) {
    let mut one = map_of(alloc, entries);
    let two = map_of(alloc, &[(1, ValueKind::Mutable)]);
    print_joined(rt, name, &mut one, &two);
}

/// Keys 3 and 1, of which the second is joined with another kind; and key 1 alone.
pub(crate) fn print_joins(rt: &impl Print, alloc: Global) {
    let two = [(3, ValueKind::Global), (1, ValueKind::Frozen)];
    print_join(rt, alloc, "joins_maps_key_by_key", &two);
    let one = [(1, ValueKind::Frozen)];
    print_join(rt, alloc, "joins_frozen_with_mutable", &one);
}

/// Sets entries in several chunks, whose keys come in another order than they stand.
fn scatter(map: &mut Kinds) {
    for i in 0..300u32 {
        let _ = map.set(i * 7 % 300, ValueKind::Frozen);
    }
}

/// How many of the keys below 300 a walk gives in ascending order, and whether it ends after them.
fn walk(map: &Kinds) -> (u32, bool) {
    let mut after = None;
    for i in 0..300u32 {
        match map.entry_after(after) {
            Some(entry) if entry.0 == i => after = Some(i),
            _ => return (i, false),
        }
    }
    (300, map.entry_after(after).is_none())
}

/// Prints the kinds at 150 and at 1000.
fn print_changes(rt: &impl Print, name: &str, map: &Kinds) {
    let fact = (map.get(150), map.get(1000));
    print_fact(rt, name, &fact);
}

/// Prints what the join of the copy and the map answers: whether they are below it, whether it is below the copy, and
/// whether it grows when the map is joined in once more.
fn print_join_of(rt: &impl Print, copy: &Kinds, map: &Kinds) {
    if let Ok(mut joined) = copy.joined(map) {
        print_changes(rt, "keeps_copies_as_they_were: joined", &joined);
        let is_above = (copy.is_below(&joined), map.is_below(&joined));
        let fact = (is_above, joined.is_below(copy), joined.join_from(map));
        print_fact(rt, "keeps_copies_as_they_were: above, below, grows", &fact);
    }
}

/// Changes the map at 150 and at 1000, and prints what a copy of what it was has there.
fn print_copied(rt: &impl Print, map: &mut Kinds) {
    if let Ok(copy) = map.try_clone() {
        let _ = map.set(150, ValueKind::Mutable);
        let _ = map.set(1000, ValueKind::Mutable);
        print_changes(rt, "keeps_copies_as_they_were: the copy", &copy);
        print_join_of(rt, &copy, map);
    }
}

pub(crate) fn print_scattered(rt: &impl Print, alloc: Global) {
    let mut map = LatticeMap::empty(alloc);
    scatter(&mut map);
    print_fact(rt, "walks_over_all_chunks: keys, ends", &walk(&map));
    print_copied(rt, &mut map);
}
