//! A graph cut off to the part that is walked for what can be seen.
ghost use Rattle.std.specs.Prelude.{◌≡◌, ◌+◌, ◌≤◌, ◌<◌, ℕ, true, false, [], List, length, vec_len, slice_index_or, Some, OnOk, OnErr, IfOk};
ghost use Rattle.alias_base.specs.declared.ids.IdentifierId.{IdentifierId};
ghost use Rattle.alias_hir.specs.declared.report.Interned.{Interned};
ghost use Rattle.alias_hir.specs.ReportNumbers.{effect_reports};
ghost use Rattle.alias_graph.specs.Cutting.{flagged, any_edge, any_source, leads, leads_at, FlagsGrow, unflagged, IsClosed, stored_value_quiet, stored_bare, bare_at, cut_to};
ghost use Rattle.alias_graph.specs.Flat.{AllBelow, AllFit, LinksFit, NodeFits, edges_at, node_of, sources_at};
ghost use Rattle.alias_graph.specs.Nodes.{slot_of};
ghost use Rattle.alias_graph.specs.Parts.{CutOff};
ghost use Rattle.alias_graph.specs.Reports.{value_reports};
ghost use Rattle.alias_graph.specs.Waiting.{stored_at};
ghost use Rattle.alias_graph.specs.Walks.{IsOneOf};

use crate::graph::AliasGraph;
use crate::node_map::{NodeMap, SlotHint};
use crate::types::{Node, NodeValue, StoredLink};
use alias_base::{IdentifierId, List};
use alias_hir::effect::{AliasingEffect, error_of};
use alias_hir::env::Environment;
use std::alloc::{AllocError, Global};

/// Whether the identifier has a node that is flagged.
fn is_flagged(nodes: &NodeMap, flags: &[bool], id: IdentifierId, hint: SlotHint) -> bool
    requires { length flags.now ≡ length nodes.now }
    ensures { result ≡ flagged nodes.now flags.now id }
{
    match nodes.slot_near(id, hint) {
        None => false,
        Some(slot) => flags[slot],
    }
}

/// Whether one of these forward links leads to a flagged node.
fn any_edge(nodes: &NodeMap, links: &[StoredLink], flags: &[bool], slots: &[usize]) -> bool
    requires size { length flags.now ≡ length nodes.now }
    requires slots { AllBelow (length links.now) slots.now }
    ensures { result ≡ any_edge (flagged nodes.now flags.now) (edges_at links.now slots.now) }
{
    for slot in slots {
        let link = links[*slot];
        if is_flagged(nodes, flags, link.into, link.into_hint) {
            return true;
        }
    }
    false
}

/// Whether one of these backward links leads to a flagged node.
fn any_source(nodes: &NodeMap, links: &[StoredLink], flags: &[bool], slots: &[usize]) -> bool
    requires size { length flags.now ≡ length nodes.now }
    requires slots { AllBelow (length links.now) slots.now }
    ensures { result ≡ any_source (flagged nodes.now flags.now) (sources_at links.now slots.now) }
{
    for slot in slots {
        let link = links[*slot];
        if is_flagged(nodes, flags, link.from, link.from_hint) {
            return true;
        }
    }
    false
}

/// Whether a link of the node leads to a flagged one.
fn leads(nodes: &NodeMap, links: &[StoredLink], flags: &[bool], node: &Node) -> bool
    requires size { length flags.now ≡ length nodes.now }
    requires fits { NodeFits (length links.now) node.now }
    ensures { result ≡ leads (flagged nodes.now flags.now) (node_of links.now node.now) }
{
    any_edge(nodes, links, flags, node.forward.as_slice())
        || any_source(nodes, links, flags, node.created_from.as_slice())
        || any_source(nodes, links, flags, node.captures.as_slice())
        || any_source(nodes, links, flags, node.aliases.as_slice())
        || any_source(nodes, links, flags, node.maybe_aliases.as_slice())
}

/// Whether a link of the node at a slot leads to a flagged one.
fn leads_at(nodes: &NodeMap, links: &[StoredLink], flags: &[bool], slot: usize) -> bool
    requires size { length flags.now ≡ length nodes.now }
    requires fit { AllFit (length links.now) nodes.now }
    ensures { result ≡ leads_at (flagged nodes.now flags.now) links.now (stored_at nodes.now slot) }
{
    match nodes.get_index(slot) {
        None => false,
        Some((_, node)) => leads(nodes, links, flags, node),
    }
}

/// Flags the node at a slot, and puts it on the stack, where it has no flag.
#[tactic(auto, using(crate::proofs::Cutting::unflagged_set, crate::proofs::Cutting::grow_set, crate::proofs::Cutting::set_there, crate::proofs::Cutting::grow_same))]
fn flag(flags: &mut Vec<bool>, stack: &mut Vec<usize>, slot: usize) -> Result<(), AllocError>
    requires { slot < length flags.old.items }
    ensures grow { OnOk result (FlagsGrow flags.old.items flags.new.items) }
    ensures count { OnOk result (vec_len stack.new + unflagged flags.new.items ≡ vec_len stack.old + unflagged flags.old.items) }
    ensures there { OnOk result (slice_index_or flags.new.items slot false ≡ true) }
{
    if !flags[slot] {
        flags[slot] = true;
        stack.push(slot)?;
    }
    Ok(())
}

/// Flags the node of an identifier, where there is one.
fn flag_id(
    nodes: &NodeMap,
    flags: &mut Vec<bool>,
    stack: &mut Vec<usize>,
    id: IdentifierId,
    hint: SlotHint,
) -> Result<(), AllocError>
    requires { length flags.old.items ≡ length nodes.now }
    ensures grow { OnOk result (FlagsGrow flags.old.items flags.new.items) }
    ensures count { OnOk result (vec_len stack.new + unflagged flags.new.items ≡ vec_len stack.old + unflagged flags.old.items) }
    ensures there { OnOk result ((p : ℕ) → slot_of nodes.now id ≡ Some p → slice_index_or flags.new.items p false ≡ true) }
{
    if let Some(slot) = nodes.slot_near(id, hint) {
        flag(flags, stack, slot)?;
    }
    Ok(())
}

/// Flags the nodes that these forward links lead to.
fn flag_edges(
    nodes: &NodeMap,
    links: &[StoredLink],
    flags: &mut Vec<bool>,
    stack: &mut Vec<usize>,
    slots: &[usize],
) -> Result<(), AllocError>
    requires size { length flags.old.items ≡ length nodes.now }
    requires slots { AllBelow (length links.now) slots.now }
    ensures grow { OnOk result (FlagsGrow flags.old.items flags.new.items) }
    ensures count { OnOk result (vec_len stack.new + unflagged flags.new.items ≡ vec_len stack.old + unflagged flags.old.items) }
{
    for slot in slots {
        let link = links[*slot];
        flag_id(nodes, flags, stack, link.into, link.into_hint)?;
    }
    Ok(())
}

/// Flags the nodes that these backward links lead to.
fn flag_sources(
    nodes: &NodeMap,
    links: &[StoredLink],
    flags: &mut Vec<bool>,
    stack: &mut Vec<usize>,
    slots: &[usize],
) -> Result<(), AllocError>
    requires size { length flags.old.items ≡ length nodes.now }
    requires slots { AllBelow (length links.now) slots.now }
    ensures grow { OnOk result (FlagsGrow flags.old.items flags.new.items) }
    ensures count { OnOk result (vec_len stack.new + unflagged flags.new.items ≡ vec_len stack.old + unflagged flags.old.items) }
{
    for slot in slots {
        let link = links[*slot];
        flag_id(nodes, flags, stack, link.from, link.from_hint)?;
    }
    Ok(())
}

/// Flags the nodes that links of this one lead to.
#[tactic(auto, using(crate::proofs::Cutting::grow_trans))]
fn flag_neighbours(
    nodes: &NodeMap,
    links: &[StoredLink],
    flags: &mut Vec<bool>,
    stack: &mut Vec<usize>,
    node: &Node,
) -> Result<(), AllocError>
    requires size { length flags.old.items ≡ length nodes.now }
    requires fits { NodeFits (length links.now) node.now }
    ensures grow { OnOk result (FlagsGrow flags.old.items flags.new.items) }
    ensures count { OnOk result (vec_len stack.new + unflagged flags.new.items ≡ vec_len stack.old + unflagged flags.old.items) }
{
    flag_edges(nodes, links, flags, stack, node.forward.as_slice())?;
    flag_sources(nodes, links, flags, stack, node.created_from.as_slice())?;
    flag_sources(nodes, links, flags, stack, node.captures.as_slice())?;
    flag_sources(nodes, links, flags, stack, node.aliases.as_slice())?;
    flag_sources(nodes, links, flags, stack, node.maybe_aliases.as_slice())?;
    Ok(())
}

/// Flags what links lead to from the nodes on the stack. In most graphs each link is in a list of both of its nodes, so
/// that all that leads to a flagged node is flagged then.
#[tactic(auto, using(crate::proofs::Cutting::grow_trans, crate::proofs::Cutting::grow_same))]
fn spread(
    nodes: &NodeMap,
    links: &[StoredLink],
    flags: &mut Vec<bool>,
    stack: &mut Vec<usize>,
) -> Result<(), AllocError>
    requires size { length flags.old.items ≡ length nodes.now }
    requires fit { AllFit (length links.now) nodes.now }
    ensures grow { OnOk result (FlagsGrow flags.old.items flags.new.items) }
    ensures count { OnOk result (vec_len stack.new + unflagged flags.new.items ≤ vec_len stack.old + unflagged flags.old.items) }
    ensures empty { OnOk result (vec_len stack.new ≡ 0) }
{
    // In any order: flags only come, and all that leads to one is reached.
    'spread: while let Some(slot) = stack.pop() {
        if let Some((_, node)) = nodes.get_index(slot) {
            flag_neighbours(nodes, links, flags, stack, node)?;
        }
    }
    Ok(())
}

/// Flags the node at a slot where a link of it leads to a flagged one. Whether it did.
#[tactic(auto, using(crate::proofs::Cutting::unflagged_set, crate::proofs::Cutting::grow_set))]
fn flag_where_leads(
    nodes: &NodeMap,
    links: &[StoredLink],
    flags: &mut Vec<bool>,
    stack: &mut Vec<usize>,
    slot: usize,
) -> Result<bool, AllocError>
    requires slot { slot < length flags.old.items }
    requires size { length flags.old.items ≡ length nodes.now }
    requires fit { AllFit (length links.now) nodes.now }
    ensures same { IfOk result (λ found. found ≡ false → flags.new.items ≡ flags.old.items) }
    ensures out { IfOk result (λ found. found ≡ false → slice_index_or flags.old.items slot false ≡ false → leads_at (flagged nodes.now flags.old.items) links.now (stored_at nodes.now slot) ≡ false) }
    ensures grow { IfOk result (λ found. found ≡ true → FlagsGrow flags.old.items flags.new.items) }
    ensures one { IfOk result (λ found. found ≡ true → unflagged flags.new.items + 1 ≡ unflagged flags.old.items) }
{
    if flags[slot] {
        return Ok(false);
    }
    if !leads_at(nodes, links, flags.as_slice(), slot) {
        return Ok(false);
    }
    flags[slot] = true;
    stack.push(slot)?;
    Ok(true)
}

/// Flags each node with a link to a flagged one. Whether there was one.
fn flag_leading(
    nodes: &NodeMap,
    links: &[StoredLink],
    flags: &mut Vec<bool>,
    stack: &mut Vec<usize>,
) -> Result<bool, AllocError>
    requires size { length flags.old.items ≡ length nodes.now }
    requires fit { AllFit (length links.now) nodes.now }
    ensures grow { OnOk result (FlagsGrow flags.old.items flags.new.items) }
    ensures fewer { IfOk result (λ more. more ≡ true → unflagged flags.new.items < unflagged flags.old.items) }
    ensures closed { IfOk result (λ more. more ≡ false → (flags.new.items ≡ flags.old.items) × IsClosed links.now nodes.now flags.old.items) }
{
    let mut more = false;
    for slot in 0..flags.len() {
        let found = flag_where_leads(nodes, links, flags, stack, slot)?;
        if found {
            more = true;
        }
    }
    Ok(more)
}

/// Flags all nodes from which links lead to a flagged one.
fn flag_part(
    nodes: &NodeMap,
    links: &[StoredLink],
    flags: &mut Vec<bool>,
    stack: &mut Vec<usize>,
) -> Result<(), AllocError>
    requires size { length flags.old.items ≡ length nodes.now }
    requires fit { AllFit (length links.now) nodes.now }
    ensures grow { OnOk result (FlagsGrow flags.old.items flags.new.items) }
    ensures closed { OnOk result (IsClosed links.now nodes.now flags.new.items) }
{
    let mut more = true;
    'part: while more {
        spread(nodes, links, flags, stack)?;
        more = flag_leading(nodes, links, flags, stack)?;
    }
    Ok(())
}

/// Flags the nodes of these identifiers.
fn flag_targets(
    nodes: &NodeMap,
    flags: &mut Vec<bool>,
    stack: &mut Vec<usize>,
    targets: &[IdentifierId],
) -> Result<(), AllocError>
    requires { length flags.old.items ≡ length nodes.now }
    ensures grow { OnOk result (FlagsGrow flags.old.items flags.new.items) }
    ensures there { OnOk result ((id : IdentifierId) → IsOneOf id targets.now → (p : ℕ) → slot_of nodes.now id ≡ Some p → slice_index_or flags.new.items p false ≡ true) }
{
    for id in targets {
        flag_id(nodes, flags, stack, *id, nodes.hint(*id))?;
    }
    Ok(())
}

/// Whether one of the effects is an error.
fn any_error(effects: &[AliasingEffect]) -> bool
    ensures { result ≡ false → (interned : List Interned) → effect_reports interned effects.now ≡ [] }
{
    for effect in effects {
        if error_of(effect).is_some() {
            return true;
        }
    }
    false
}

/// Whether the value is a function whose summary has an error.
fn may_report(value: NodeValue, env: &Environment) -> bool
    ensures { result ≡ false → value_reports env.now value ≡ [] }
{
    match value {
        NodeValue::Object | NodeValue::Phi => false,
        NodeValue::Function { function_id } => match env.functions.get(function_id.0 as usize) {
            None => false,
            Some(function) => match &function.aliasing_effects {
                None => false,
                Some(effects) => any_error(effects.as_slice()),
            },
        },
    }
}

/// Flags the functions whose summary has an error.
fn flag_reports(
    nodes: &NodeMap,
    flags: &mut Vec<bool>,
    stack: &mut Vec<usize>,
    env: &Environment,
) -> Result<(), AllocError>
    requires { length flags.old.items ≡ length nodes.now }
    ensures grow { OnOk result (FlagsGrow flags.old.items flags.new.items) }
    ensures quiet { OnOk result ((i : ℕ) → slice_index_or flags.new.items i false ≡ false → stored_value_quiet env.now (stored_at nodes.now i)) }
{
    for slot in 0..flags.len() {
        if let Some((_, node)) = nodes.get_index(slot)
            && may_report(node.value, env)
        {
            flag(flags, stack, slot)?;
        }
    }
    Ok(())
}

/// The flags of the part in which the targets are, and, where errors are recorded, the functions with errors.
fn part_flags(
    alloc: Global,
    nodes: &NodeMap,
    links: &[StoredLink],
    targets: &[IdentifierId],
    should_record_errors: bool,
    env: &Environment,
) -> Result<Vec<bool>, AllocError>
    requires { AllFit (length links.now) nodes.now }
    ensures size { IfOk result (λ flags. length flags.items ≡ length nodes.now) }
    ensures closed { IfOk result (λ flags. IsClosed links.now nodes.now flags.items) }
    ensures there { IfOk result (λ flags. (id : IdentifierId) → IsOneOf id targets.now → (p : ℕ) → slot_of nodes.now id ≡ Some p → slice_index_or flags.items p false ≡ true) }
    ensures quiet { IfOk result (λ flags. should_record_errors ≡ true → (i : ℕ) → slice_index_or flags.items i false ≡ false → stored_value_quiet env.now (stored_at nodes.now i)) }
{
    let mut flags = vec![in alloc; false; nodes.len()]?;
    let mut stack = Vec::new(alloc);
    flag_targets(nodes, &mut flags, &mut stack, targets)?;
    if should_record_errors {
        flag_reports(nodes, &mut flags, &mut stack, env)?;
    }
    flag_part(nodes, links, &mut flags, &mut stack)?;
    Ok(flags)
}

/// Takes all links of a node away.
fn strip(alloc: Global, node: &mut Node)
    ensures { node.new ≡ stored_bare node.old }
{
    node.forward = List::new(alloc);
    node.created_from = List::new(alloc);
    node.captures = List::new(alloc);
    node.aliases = List::new(alloc);
    node.maybe_aliases = List::new(alloc);
}

/// Takes all links of the node at a slot away, where there is one.
#[tactic(auto, using(crate::proofs::Cutting::set_bare, crate::proofs::Cutting::none_bare))]
fn strip_at(alloc: Global, nodes: &mut NodeMap, slot: usize)
    ensures { nodes.new ≡ bare_at slot nodes.old }
{
    if let Some(node) = nodes.get_index_mut(slot) {
        strip(alloc, node);
    }
}

/// Takes the links of the nodes without a flag away.
#[tactic(auto, using(crate::proofs::Cutting::cut_flagged, crate::proofs::Cutting::cut_unflagged))]
fn cut_to(alloc: Global, nodes: &mut NodeMap, flags: &[bool])
    requires { length flags.now ≡ length nodes.old }
    ensures { nodes.new ≡ cut_to flags.now nodes.old }
{
    for slot in 0..flags.len() {
        if !flags[slot] {
            strip_at(alloc, nodes, slot);
        }
    }
}

impl AliasGraph {
    /// Takes the links of the nodes away from which no link leads to one of the targets, nor, where errors are recorded, to a
    /// function whose summary has an error. What walks and renders leave at the others, and report, stays the same.
    /// An `Err` changes nothing.
    pub fn cut_off(
        &mut self,
        targets: &[IdentifierId],
        should_record_errors: bool,
        env: &Environment,
    ) -> Result<(), AllocError>
        ensures cut { OnOk result (CutOff should_record_errors env.now targets.now self.old self.new) }
        ensures err { OnErr result (self.new ≡ self.old) }
    {
        let flags = part_flags(
            self.alloc,
            &self.nodes,
            self.links.as_slice(),
            targets,
            should_record_errors,
            env,
        )?;
        cut_to(self.alloc, &mut self.nodes, flags.as_slice());
        Ok(())
    }
}
