//! Lists, texts, blocks in order, and calls that fail as planned.

use crate::print_fact;
use alias_base::failures::PlannedFailures;
use alias_base::{BlockId, BlockMap, List, Text, TryClone};
use std::alloc::Global;

/// A list of these items, or an empty one where memory runs out.
pub(crate) fn list_of<T: Copy>(alloc: Global, items: &[T]) -> List<T> {
    match List::from_slice(alloc, items) {
        Ok(list) => list,
        Err(_) => List::new(alloc),
    }
}

/// Prints the items, and those of a copy whose item at 2 is 6.
fn print_changed(rt: &impl Print, alloc: Global, items: &[u32]) {
    let mut copy = list_of(alloc, items);
    if let Some(last) = copy.get_mut(2) {
        *last = 6;
    }
    let fact = (items, copy.as_slice());
    print_fact(
        rt,
        "lists_keep_their_items: the list and its changed copy",
        &fact,
    );
}

pub(crate) fn print_list(rt: &impl Print, alloc: Global) {
    let mut list = list_of(alloc, &[3, 4]);
    let _ = list.push(5);
    print_changed(rt, alloc, list.as_slice());
    let popped = list.pop();
    let fact = (popped, list.get(2));
    print_fact(
        rt,
        "lists_keep_their_items: what is popped, and then at 2",
        &fact,
    );
}

fn grow(text: &mut Text) {
    let _ = text.push('=');
    let _ = text.push_number(4_294_967_295);
    let _ = text.push_str("é");
}

fn print_copy(rt: &impl Print, alloc: Global, text: &Text) {
    if let Ok(copy) = text.try_clone(alloc) {
        let fact = (copy.as_str(), copy == *text);
        print_fact(
            rt,
            "texts_grow_at_their_end: a copy, and whether it is the text",
            &fact,
        );
    }
}

pub(crate) fn print_text(rt: &impl Print, alloc: Global) {
    if let Ok(mut text) = Text::from_str(alloc, "n") {
        grow(&mut text);
        print_copy(rt, alloc, &text);
    }
}

/// Inserts at 7, at 2, and at 7 again, and gives what stood there before.
fn insert_three(map: &mut BlockMap<char>) -> Option<char> {
    let _ = map.insert(BlockId(7), 'a');
    let _ = map.insert(BlockId(2), 'b');
    match map.insert(BlockId(7), 'c') {
        Ok(before) => before,
        Err(_) => None,
    }
}

fn print_map(rt: &impl Print, map: &BlockMap<char>, before: Option<char>) {
    let fact = (map.len(), map.get(BlockId(7)), before);
    print_fact(
        rt,
        "blocks_stay_in_order: how many, the block 7, and the one before",
        &fact,
    );
    let fact = (map.position(BlockId(2)), map.position(BlockId(3)));
    print_fact(
        rt,
        "blocks_stay_in_order: the positions of 2 and of 3",
        &fact,
    );
}

pub(crate) fn print_blocks(rt: &impl Print, alloc: Global) {
    let mut map = BlockMap::new(alloc);
    let before = insert_three(&mut map);
    print_map(rt, &map, before);
}

/// Which of five calls fail, of which the second and the fourth are planned to.
pub(crate) fn print_planned(rt: &impl Print, alloc: Global) {
    let mut calls = PlannedFailures::new(list_of(alloc, &[2u64, 4]));
    for call in 1..6u32 {
        let fact = (call, calls.fails_now());
        print_fact(rt, "fails_at_the_planned_calls_alone", &fact);
    }
}
