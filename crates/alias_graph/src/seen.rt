//! What a walk has seen at a node.
ghost use Rattle.std.specs.Prelude.{◌≡◌};
ghost use Rattle.alias_graph.specs.Seen.{risen, nothing_seen, reaches, is_seen, see};

use crate::types::{Direction, Entry, MutationKind};

/// The highest kind of the entries that were expanded, for each flag and direction.
#[derive(Clone, Copy)]
pub(crate) struct Seen {
    local_forwards: Option<MutationKind>,
    local_backwards: Option<MutationKind>,
    transitive_forwards: Option<MutationKind>,
    transitive_backwards: Option<MutationKind>,
}

fn risen(kind: MutationKind, level: Option<MutationKind>) -> Option<MutationKind>
    ensures { result ≡ risen kind level }
{
    match kind {
        MutationKind::Definite => Some(MutationKind::Definite),
        MutationKind::Conditional => match level {
            None => Some(MutationKind::Conditional),
            Some(old) => Some(old),
        },
    }
}

#[inline(always)]
fn reaches(level: Option<MutationKind>, kind: MutationKind) -> bool
    ensures { result ≡ reaches level kind }
{
    match level {
        None => false,
        Some(MutationKind::Definite) => true,
        Some(MutationKind::Conditional) => match kind {
            MutationKind::Definite => false,
            MutationKind::Conditional => true,
        },
    }
}

impl Seen {
    pub(crate) fn nothing() -> Seen
        ensures { result ≡ nothing_seen }
    {
        Seen {
            local_forwards: None,
            local_backwards: None,
            transitive_forwards: None,
            transitive_backwards: None,
        }
    }

    /// An entry with at least this kind, flag and direction was expanded.
    #[inline(always)]
    pub(crate) fn covers(&self, entry: Entry) -> bool
        ensures { result ≡ is_seen self.now entry }
    {
        let level = match entry.direction {
            Direction::Forwards => {
                if entry.transitive {
                    self.transitive_forwards
                } else {
                    self.local_forwards
                }
            }
            Direction::Backwards => {
                if entry.transitive {
                    self.transitive_backwards
                } else {
                    self.local_backwards
                }
            }
        };
        reaches(level, entry.kind)
    }

    pub(crate) fn note(&mut self, entry: Entry)
        ensures { self.new ≡ see entry self.old }
    {
        self.local_forwards = risen(entry.kind, self.local_forwards);
        match entry.direction {
            Direction::Forwards => {
                if entry.transitive {
                    self.transitive_forwards = risen(entry.kind, self.transitive_forwards);
                }
            }
            Direction::Backwards => {
                self.local_backwards = risen(entry.kind, self.local_backwards);
                if entry.transitive {
                    self.transitive_forwards = risen(entry.kind, self.transitive_forwards);
                    self.transitive_backwards = risen(entry.kind, self.transitive_backwards);
                }
            }
        }
    }
}
