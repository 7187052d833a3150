//! The links that an entry follows, put on the stack of a walk.
ghost use Rattle.std.specs.Prelude.{◌≡◌, ◌+◌, ◌≤◌, ◌<◌, ◌++◌, ◌∷◌, [], vec_len, vec_capacity, true};
ghost use Rattle.alias_graph.specs.Links.{opens};
ghost use Rattle.alias_graph.specs.Waiting.{pending, pending_aliases, pending_captures, followed};

use crate::types::{Direction, Entry, LinkList, MutationKind, Node, NodeValue, Pending};

/// Puts pending links on a stack that has room for them.
pub(crate) fn put(stack: &mut Vec<Pending>, pending: Pending)
    requires { vec_len stack.old < vec_capacity stack.old }
    ensures items { stack.new.items ≡ stack.old.items ++ pending ∷ [] }
    ensures len { vec_len stack.new ≡ vec_len stack.old + 1 }
    ensures capacity { vec_capacity stack.old ≤ vec_capacity stack.new }
{
    match stack.push(pending) {
        Ok(()) => {}
        Err(_) => unreachable!(),
    }
}

/// Puts all links of a list on the stack, if there are some.
fn put_list(
    stack: &mut Vec<Pending>,
    slot: usize,
    list: LinkList,
    transitive: bool,
    kind: MutationKind,
    slots: &[usize],
)
    requires { vec_len stack.old < vec_capacity stack.old }
    ensures items { stack.new.items ≡ stack.old.items ++ pending slot list transitive kind slots.now }
    ensures len { vec_len stack.new ≤ vec_len stack.old + 1 }
    ensures capacity { vec_capacity stack.old ≤ vec_capacity stack.new }
{
    let left = slots.len();
    if 0 < left {
        put(
            stack,
            Pending {
                slot,
                list,
                left,
                transitive,
                kind,
            },
        );
    }
}

/// The sources of the node's aliases are followed: it is no phi that was entered forwards.
fn opens(value: NodeValue, direction: Direction) -> bool
    ensures { result ≡ opens value direction }
{
    match value {
        NodeValue::Phi => match direction {
            Direction::Backwards => true,
            Direction::Forwards => false,
        },
        NodeValue::Object => true,
        NodeValue::Function { .. } => true,
    }
}

fn put_aliases(stack: &mut Vec<Pending>, slot: usize, entry: Entry, node: &Node)
    requires { vec_len stack.old + 2 ≤ vec_capacity stack.old }
    ensures items { stack.new.items ≡ stack.old.items ++ pending_aliases (opens node.now.value entry.direction) slot entry.transitive entry.kind node.now }
    ensures len { vec_len stack.new ≤ vec_len stack.old + 2 }
    ensures capacity { vec_capacity stack.old ≤ vec_capacity stack.new }
{
    if opens(node.value, entry.direction) {
        put_list(
            stack,
            slot,
            LinkList::Aliases,
            entry.transitive,
            entry.kind,
            node.aliases.as_slice(),
        );
        put_list(
            stack,
            slot,
            LinkList::MaybeAliases,
            entry.transitive,
            MutationKind::Conditional,
            node.maybe_aliases.as_slice(),
        );
    }
}

fn put_captures(stack: &mut Vec<Pending>, slot: usize, entry: Entry, node: &Node)
    requires { vec_len stack.old < vec_capacity stack.old }
    ensures items { stack.new.items ≡ stack.old.items ++ pending_captures entry.transitive slot entry.kind node.now }
    ensures len { vec_len stack.new ≤ vec_len stack.old + 1 }
    ensures capacity { vec_capacity stack.old ≤ vec_capacity stack.new }
{
    if entry.transitive {
        put_list(
            stack,
            slot,
            LinkList::Captures,
            true,
            entry.kind,
            node.captures.as_slice(),
        );
    }
}

/// Puts the links that the entry follows on the stack.
pub(crate) fn put_followed(stack: &mut Vec<Pending>, slot: usize, entry: Entry, node: &Node)
    requires { vec_len stack.old + 5 ≤ vec_capacity stack.old }
    ensures items { stack.new.items ≡ stack.old.items ++ followed slot entry node.now }
    ensures len { vec_len stack.new ≤ vec_len stack.old + 5 }
    ensures capacity { vec_capacity stack.old ≤ vec_capacity stack.new }
{
    put_list(
        stack,
        slot,
        LinkList::Forward,
        entry.transitive,
        entry.kind,
        node.forward.as_slice(),
    );
    let transitive = true;
    put_list(
        stack,
        slot,
        LinkList::CreatedFrom,
        transitive,
        entry.kind,
        node.created_from.as_slice(),
    );
    put_aliases(stack, slot, entry, node);
    put_captures(stack, slot, entry, node);
}
