//! The walk of a render.
ghost use Rattle.std.specs.Prelude.{◌≡◌, ◌+◌, ◌*◌, ◌≤◌, ◌<◌, ◌++◌, ◌∷◌, [], ℕ, length, vec_len, vec_capacity, IfOk, OnOk, OnErr};
ghost use Rattle.alias_graph.specs.Flat.{AllFit, AllBelow, LinksFit, NodeFits, node_of, nodes_of, sources_at};
ghost use Rattle.alias_graph.specs.Nodes.{node_at, slot_of};
ghost use Rattle.alias_graph.specs.Renders.{stored_is_lit, before, sources_of, sources, rendered, render_reports, Renders, Grown, lit_claim, lit_noted};
ghost use Rattle.alias_graph.specs.Reports.{stored_reported_at, with_reports};

use crate::graph::AliasGraph;
use crate::node_map::{NodeMap, SlotHint};
use crate::reports::report_node;
use crate::types::{Node, StoredLink};
use alias_base::IdentifierId;
use alias_hir::env::Environment;
use std::alloc::{AllocError, Global};

/// How many entries a render pops at most, where the lists of the nodes have each link twice.
fn pops(links: usize) -> Result<usize, AllocError>
    ensures { IfOk result (λ n. n ≡ 1 + 2 * links) }
{
    let Some(slots) = links.checked_mul(2) else {
        return Err(AllocError);
    };
    match slots.checked_add(1) {
        Some(room) => Ok(room),
        None => Err(AllocError),
    }
}

/// Puts an identifier on a stack that has room for it.
fn put_id(stack: &mut Vec<IdentifierId>, id: IdentifierId)
    requires { vec_len stack.old < vec_capacity stack.old }
    ensures items { stack.new.items ≡ stack.old.items ++ id ∷ [] }
    ensures capacity { vec_capacity stack.old ≤ vec_capacity stack.new }
{
    match stack.push(id) {
        Ok(()) => {}
        Err(_) => unreachable!(),
    }
}

/// The slot of the identifier's node where that has no mark and is new, which is noted.
fn claim_lit(nodes: &NodeMap, seen: &mut Vec<bool>, id: IdentifierId) -> Option<usize>
    requires { length seen.old.items ≡ length nodes.now }
    ensures claim { result ≡ lit_claim (slot_of nodes.now id) (stored_is_lit (node_at nodes.now id)) seen.old.items }
    ensures noted { seen.new.items ≡ lit_noted result seen.old.items }
{
    let slot = nodes.slot_of(id)?;
    let node = nodes.get_near(id, SlotHint::at(slot))?;
    if node.local.is_some() || node.transitive.is_some() || seen[slot] {
        return None;
    }
    seen[slot] = true;
    Some(slot)
}

fn put_before(stack: &mut Vec<IdentifierId>, index: u32, links: &[StoredLink], slots: &[usize])
    requires room { vec_len stack.old + length (before index (sources_at links.now slots.now)) ≤ vec_capacity stack.old }
    requires slots { AllBelow (length links.now) slots.now }
    ensures items { stack.new.items ≡ stack.old.items ++ before index (sources_at links.now slots.now) }
    ensures capacity { vec_capacity stack.old ≤ vec_capacity stack.new }
{
    for slot in slots {
        let link = links[*slot];
        if link.index < index {
            put_id(stack, link.from);
        }
    }
}

/// Puts what the node was made from, what it is and what it holds on the stack.
fn put_sources_of(stack: &mut Vec<IdentifierId>, index: u32, links: &[StoredLink], node: &Node)
    requires fits { NodeFits (length links.now) node.now }
    requires room { vec_len stack.old + length (sources_of index (node_of links.now node.now)) ≤ vec_capacity stack.old }
    ensures items { stack.new.items ≡ stack.old.items ++ sources_of index (node_of links.now node.now) }
    ensures capacity { vec_capacity stack.old ≤ vec_capacity stack.new }
{
    put_before(stack, index, links, node.created_from.as_slice());
    put_before(stack, index, links, node.aliases.as_slice());
    put_before(stack, index, links, node.captures.as_slice());
}

/// Appends the reports of the identifier's node, and puts its sources on the stack.
#[tactic(auto, using(crate::proofs::Lists::fit_node, crate::proofs::Rendering::sources_slot, crate::proofs::Rendering::none_put))]
fn render_at(
    alloc: Global,
    nodes: &NodeMap,
    links: &[StoredLink],
    index: u32,
    id: IdentifierId,
    hint: SlotHint,
    stack: &mut Vec<IdentifierId>,
    env: &mut Environment,
) -> Result<(), AllocError>
    requires fit { AllFit (length links.now) nodes.now }
    requires room { vec_len stack.old + length (sources (nodes_of links.now nodes.now) index id) ≤ vec_capacity stack.old }
    ensures env { OnOk result (env.new ≡ with_reports (stored_reported_at env.old (node_at nodes.now id)) env.old) }
    ensures items { OnOk result (stack.new.items ≡ stack.old.items ++ sources (nodes_of links.now nodes.now) index id) }
    ensures capacity { vec_capacity stack.old ≤ vec_capacity stack.new }
    ensures err { OnErr result (env.new ≡ record env.old { errors = env.new.errors }) }
    ensures grown { OnErr result (Grown env.old.errors env.new.errors) }
{
    match nodes.get_near(id, hint) {
        None => Ok(()),
        Some(node) => {
            report_node(alloc, node, env)?;
            put_sources_of(stack, index, links, node);
            Ok(())
        }
    }
}

/// The walk of a render from the start, over nodes that keep the places of their links.
fn render_walk(
    alloc: Global,
    nodes: &NodeMap,
    links: &[StoredLink],
    index: u32,
    start: IdentifierId,
    env: &mut Environment,
) -> Result<(), AllocError>
    requires fit { LinksFit links.now nodes.now }
    ensures env { OnOk result (env.new ≡ with_reports (render_reports env.old (nodes_of links.now nodes.now) (rendered (nodes_of links.now nodes.now) index start).done) env.old) }
    ensures err { OnErr result (env.new ≡ record env.old { errors = env.new.errors }) }
    ensures grown { OnErr result (Grown env.old.errors env.new.errors) }
{
    let room = pops(links.len())?;
    let mut stack = Vec::with_capacity(alloc, room)?;
    let mut seen = vec![in alloc; false; nodes.len()]?;
    put_id(&mut stack, start);
    // Each link is followed at most once, so that the stack is empty before the count ends.
    for _ in 0..room {
        let Some(id) = stack.pop() else {
            return Ok(());
        };
        if let Some(slot) = claim_lit(nodes, &mut seen, id) {
            render_at(
                alloc,
                nodes,
                links,
                index,
                id,
                SlotHint::at(slot),
                &mut stack,
                env,
            )?;
        }
    }
    Ok(())
}

impl AliasGraph {
    /// Walks from the node of `start` over what its value was made from, is and holds before `index`, and adds the
    /// reports of the functions that it comes to. A node that has a mark ends a path. The one error is want
    /// of memory, after which some reports may have been added to `errors`.
    pub fn render(
        &self,
        index: u32,
        start: IdentifierId,
        env: &mut Environment,
    ) -> Result<(), AllocError>
        ensures env { OnOk result (env.new ≡ with_reports (render_reports env.old self.now (rendered self.now index start).done) env.old) }
        ensures renders { OnOk result (Renders self.now index start (rendered self.now index start).done) }
        ensures err { OnErr result (env.new ≡ record env.old { errors = env.new.errors }) }
        ensures grown { OnErr result (Grown env.old.errors env.new.errors) }
    {
        render_walk(
            self.alloc,
            &self.nodes,
            self.links.as_slice(),
            index,
            start,
            env,
        )
    }
}
