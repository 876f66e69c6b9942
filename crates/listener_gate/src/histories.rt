//! The history of a gate: its connections and parts. A history exists in proofs alone: it takes no
//! memory, and no step of the program reads it.

ghost use Rattle.std.specs.Prelude.{◌≡◌, [], ◌∷◌, ◌++◌};

use http_server::Log;
use std::fmt;
use vod_base::Opening;

/// What happened at a part: it gave a connection, it had no more, its listener failed, or a
/// connection came back.
#[derive(Clone, Copy, Debug, Drop)]
pub enum PartNote {
    Gave,
    NoMore,
    Failed,
    CameBack,
}

/// What happened at a gate: it was opened, a call failed to open it, a part was split off, or a
/// part came back.
#[derive(Clone, Copy, Debug, Drop)]
pub enum GateNote {
    Opened(Opening),
    NotOpened,
    Split,
    CameBack,
}

/// The history of a part, each note with the connection that it is of.
#[derive(Drop)]
pub struct PartHistory<C: Drop> {
    /// The number of the split that gave the part, from 0.
    pub number: u32,
    pub notes: Log<Option<C>, PartNote>,
}

/// The history of a gate, each note with the part that it is of.
pub type GateHistory<C> = Log<Option<PartHistory<C>>, GateNote>;

impl<C: Drop> fmt::Debug for PartHistory<C> {
    fn fmt<W: fmt::Write>(&self, f: &mut fmt::Formatter<W>) -> fmt::Result {
        f.debug_struct("PartHistory")
            .field("number", &self.number)
            .finish_non_exhaustive()
    }
}

impl<C: Drop> PartHistory<C> {
    /// Makes the history of a part that did nothing yet.
    pub fn new(number: u32) -> PartHistory<C>
        ensures number { result.number ≡ number }
        ensures notes { result.notes.items ≡ [] }
    {
        PartHistory {
            number,
            notes: Log::new(),
        }
    }

    /// Adds a note on a connection, if it is on one.
    pub fn note(&mut self, conn: &Option<C>, note: PartNote)
        ensures number { self.new.number ≡ self.old.number }
        ensures notes { self.new.notes.items ≡ self.old.notes.items ++ (conn.now, note) ∷ [] }
    {
        self.notes = self.notes.and(conn, &note);
    }
}
