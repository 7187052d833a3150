//! The search for the next new entry of a walk.
ghost use Rattle.std.specs.Prelude.{◌≡◌, ◌≤◌, ◌∷◌, [], length, take, vec_len, vec_capacity};
ghost use Rattle.alias_graph.specs.Claims.{claimed};
ghost use Rattle.alias_graph.specs.Flat.{AllBelow, AllFit};
ghost use Rattle.alias_graph.specs.Links.{along};
ghost use Rattle.alias_graph.specs.Nodes.{slot_of};
ghost use Rattle.alias_graph.specs.Waiting.{listed, led, led_entries, waiting_of, waiting, Searched};

use crate::node_map::{NodeMap, SlotHint};
use crate::pushes::put;
use crate::seen_table::SeenTable;
use crate::steps::Steps;
use crate::types::{
    Direction, EdgeKind, Entry, Found, LinkList, MutationKind, Node, Pending, StoredLink,
};
use std::sync::ledger::Ledger;

/// The slot of the entry's node, where the entry is new.
#[inline(always)]
fn new_slot(nodes: &NodeMap, seen: &SeenTable, entry: Entry, hint: SlotHint) -> Option<usize>
    requires { length seen.now ≡ length nodes.now }
    ensures { result ≡ claimed (slot_of nodes.now entry.id) seen.now entry }
{
    let slot = nodes.slot_near(entry.id, hint)?;
    if seen.covers(slot, entry) {
        None
    } else {
        Some(slot)
    }
}

/// The entry that a forward link leads to.
#[inline(always)]
fn entry_along(link: StoredLink, transitive: bool, kind: MutationKind) -> Entry
    ensures { result ≡ along link.kind link.into transitive kind }
{
    match link.kind {
        EdgeKind::Capture => Entry {
            id: link.into,
            transitive,
            direction: Direction::Backwards,
            kind,
        },
        EdgeKind::Alias => Entry {
            id: link.into,
            transitive,
            direction: Direction::Forwards,
            kind,
        },
        EdgeKind::MaybeAlias => Entry {
            id: link.into,
            transitive,
            direction: Direction::Forwards,
            kind: MutationKind::Conditional,
        },
    }
}

/// The entry that a link of a list leads to.
#[inline(always)]
fn entry_of(link: StoredLink, list: LinkList, transitive: bool, kind: MutationKind) -> Entry
    ensures { result ≡ led list transitive kind link }
{
    match list {
        LinkList::Forward => entry_along(link, transitive, kind),
        LinkList::CreatedFrom | LinkList::Captures | LinkList::Aliases | LinkList::MaybeAliases =>
            Entry {
                id: link.from,
                transitive,
                direction: Direction::Backwards,
                kind,
            },
    }
}

/// Where the node of that entry may be.
#[inline(always)]
fn hint_of(link: StoredLink, list: LinkList) -> SlotHint {
    match list {
        LinkList::Forward => link.into_hint,
        _ => link.from_hint,
    }
}

/// The slots of a list of the node.
fn slots_of(node: &Node, list: LinkList) -> &[usize]
    ensures { result.now ≡ listed list node.now }
{
    match list {
        LinkList::Forward => node.forward.as_slice(),
        LinkList::CreatedFrom => node.created_from.as_slice(),
        LinkList::Captures => node.captures.as_slice(),
        LinkList::Aliases => node.aliases.as_slice(),
        LinkList::MaybeAliases => node.maybe_aliases.as_slice(),
    }
}

/// The search among the pending links of a list, the last first: how many are left before the one that leads to a
/// new entry, and that entry.
#[tactic(auto, using(crate::proofs::Lists::below_at))]
fn search_slots<L: Ledger>(
    nodes: &NodeMap,
    links: &[StoredLink],
    seen: &SeenTable,
    index: u32,
    pending: Pending,
    slots: &[usize],
    steps: &mut Steps<L>,
) -> (usize, Option<Found>)
    requires size { length seen.now ≡ length nodes.now }
    requires slots { AllBelow (length links.now) slots.now }
    ensures { Searched nodes.now seen.now (led_entries pending.list index pending.transitive pending.kind links.now (take pending.left slots.now)) (led_entries pending.list index pending.transitive pending.kind links.now (take result.0 slots.now)) steps.old steps.new result.1 }
{
    let Pending {
        list,
        transitive,
        kind,
        ..
    } = pending;
    let mut left = pending.left.min(slots.len());
    'scan: while 0 < left {
        left -= 1;
        let link = links[slots[left]];
        if link.index < index {
            let entry = entry_of(link, list, transitive, kind);
            if let Some(slot) = new_slot(nodes, seen, entry, hint_of(link, list)) {
                return (left, Some(Found { entry, slot }));
            }
            steps.tick();
        }
    }
    (0, None)
}

/// The search among pending links.
fn search_pending<L: Ledger>(
    nodes: &NodeMap,
    links: &[StoredLink],
    seen: &SeenTable,
    index: u32,
    pending: Pending,
    steps: &mut Steps<L>,
) -> (usize, Option<Found>)
    requires size { length seen.now ≡ length nodes.now }
    requires fit { AllFit (length links.now) nodes.now }
    ensures { Searched nodes.now seen.now (waiting_of links.now nodes.now index pending) (waiting_of links.now nodes.now index (record pending { left = result.0 })) steps.old steps.new result.1 }
{
    match nodes.get_index(pending.slot) {
        None => (0, None),
        Some((_, node)) => {
            let slots = slots_of(node, pending.list);
            search_slots(nodes, links, seen, index, pending, slots, steps)
        }
    }
}

/// The next new entry of those that wait on the stack. It and those before it are taken off, and those before it
/// are counted.
pub(crate) fn next_new<L: Ledger>(
    nodes: &NodeMap,
    links: &[StoredLink],
    seen: &SeenTable,
    index: u32,
    stack: &mut Vec<Pending>,
    steps: &mut Steps<L>,
) -> Option<Found>
    requires size { length seen.now ≡ length nodes.now }
    requires fit { AllFit (length links.now) nodes.now }
    ensures found { Searched nodes.now seen.now (waiting links.now nodes.now index stack.old.items) (waiting links.now nodes.now index stack.new.items) steps.old steps.new result }
    ensures len { vec_len stack.new ≤ vec_len stack.old }
    ensures capacity { vec_capacity stack.old ≤ vec_capacity stack.new }
{
    // The last first, as the walks of the rules have it: which way comes to a node first decides what is said of it.
    'search: while let Some(pending) = stack.pop() {
        let (left, found) = search_pending(nodes, links, seen, index, pending, steps);
        if let Some(found) = found {
            put(stack, Pending { left, ..pending });
            return Some(found);
        }
    }
    None
}

/// The first entry of a walk, where it is new. Else it is counted.
pub(crate) fn first_new<L: Ledger>(
    nodes: &NodeMap,
    seen: &SeenTable,
    entry: Entry,
    steps: &mut Steps<L>,
) -> Option<Found>
    requires { length seen.now ≡ length nodes.now }
    ensures { Searched nodes.now seen.now (entry ∷ []) [] steps.old steps.new result }
{
    match new_slot(nodes, seen, entry, nodes.hint(entry.id)) {
        Some(slot) => Some(Found { entry, slot }),
        None => {
            steps.tick();
            None
        }
    }
}
