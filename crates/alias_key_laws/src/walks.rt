//! What is left of a walk over the alias graph.

ghost use Rattle.std.specs.Prelude.{◌≡◌, ◌≤◌, ◌+◌, ◌*◌, ℕ, []};
ghost use Rattle.alias_base.specs.declared.ids.IdentifierId.{IdentifierId};
ghost use Rattle.alias_graph.specs.Links.{all_links, step_to, walk};
ghost use Rattle.alias_graph.specs.Nodes.{Nodes};
ghost use Rattle.alias_graph.specs.Renders.{render_to, rendered};
ghost use Rattle.alias_graph.specs.declared.types.Entry.{Entry};

/// The walk of a mutation is defined as so many steps, and that of a render too: after these nothing is left to come to, and
/// any more change nothing. So neither is cut short. Does nothing.
pub fn walks_end()
    ensures walk { (g : Nodes) (m : ℕ) (start : Entry) → (walk g m start).stack ≡ [] }
    ensures walk_stays { (g : Nodes) (m : ℕ) (start : Entry) (n : ℕ) → 1 + 8 * all_links g ≤ n → step_to g m start n ≡ walk g m start }
    ensures render { (g : Nodes) (m : ℕ) (start : IdentifierId) → (rendered g m start).stack ≡ [] }
    ensures render_stays { (g : Nodes) (m : ℕ) (start : IdentifierId) (n : ℕ) → 1 + all_links g ≤ n → render_to g m start n ≡ rendered g m start }
{}
