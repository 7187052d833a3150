//! A list of events that knows which nodes it has made.
ghost use Rattle.std.specs.Prelude.{◌≡◌, ◌++◌, ◌∷◌, [], OnOk, OnErr, option_to_list};
ghost use Rattle.alias_graph.specs.recorded.IdSets.{made_id};

use crate::GraphEvent;
use crate::recorded::id_set::IdSet;
use alias_base::IdentifierId;
use std::alloc::{AllocError, Global};
use std::marker::Model;

/// Events in order. Contracts see the list of them.
#[derive(Drop)]
pub struct EventList {
    events: Vec<GraphEvent>,
    made: IdSet,
}

impl Model for EventList {
    ghost use Rattle.std.specs.Prelude.{List};
    ghost use Rattle.alias_graph.specs.declared.events.GraphEvent.{GraphEvent};
    ghost use Rattle.alias_graph.specs.recorded.IdSets.{Knows};

    ghost Value = { List GraphEvent };

    ghost view = { λ e. e.events.items };

    ghost invariant = { λ e. Knows e.made e.events.items };
}

/// The identifier whose node an event makes.
fn made_id(event: GraphEvent) -> Option<IdentifierId>
    ensures { result ≡ made_id event }
{
    match event {
        GraphEvent::Make { id, .. } => Some(id),
        GraphEvent::CreateFrom { into, .. } => Some(into),
        GraphEvent::Link { .. } => None,
    }
}

impl EventList {
    ghost use Rattle.alias_graph.specs.recorded.IdSets.{has_made};

    /// No events. Takes no memory.
    pub fn new(alloc: Global) -> EventList
        ensures { result ≡ [] }
    {
        EventList {
            events: Vec::new(alloc),
            made: IdSet::new(alloc),
        }
    }

    /// The events in order.
    pub fn as_slice(&self) -> &[GraphEvent]
        ensures { result.now ≡ self.now }
    {
        self.events.as_slice()
    }

    /// Whether some event makes the node of the identifier.
    pub fn has_made(&self, id: IdentifierId) -> bool
        ensures { result ≡ has_made self.now id }
    {
        self.made.has(id)
    }

    /// Appends an event. An `Err` changes nothing.
    #[tactic(auto, using(crate::proofs::recorded::Knowing::knows_more, crate::proofs::recorded::Knowing::knows_same))]
    pub fn push(&mut self, event: GraphEvent) -> Result<(), AllocError>
        ensures ok { OnOk result (self.new ≡ self.old ++ event ∷ []) }
        ensures err { OnErr result (self.new ≡ self.old) }
    {
        self.events.push(event)?;
        let Some(id) = made_id(event) else {
            return Ok(());
        };
        match self.made.insert(id) {
            Ok(()) => Ok(()),
            Err(e) => {
                self.events.pop();
                Err(e)
            }
        }
    }
}
