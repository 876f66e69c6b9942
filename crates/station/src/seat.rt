//! A seat.

ghost use Rattle.std.specs.Prelude.{◌≡◌};
ghost use Rattle.station.specs.Seats.{IsSeat};

use std::fmt;
use std::marker::Model;
use turnstile::Pass;

/// The right of one caller to ask at the station. Its number is the maker of its entries.
///
/// Contracts see its station, the steps of the capacity, the most entries, its number, the journal
/// as far as it has seen it, its own entries with their places, how many seats were split from it,
/// and what those that were joined to it had made.
#[derive(Drop)]
pub struct Seat {
    pub(crate) pass: Pass,
}

impl Model for Seat {
    ghost use Rattle.station.specs.Seats.{SeatState};

    ghost Value = { SeatState };

    ghost use Rattle.station.specs.Inside.{seat_state, IsSeatInvariant};

    ghost view = { seat_state };

    ghost invariant = { IsSeatInvariant };
}

/// Its number alone: what it has seen exists for contracts only.
impl fmt::Debug for Seat {
    fn fmt<W: fmt::Write>(&self, f: &mut fmt::Formatter<W>) -> fmt::Result {
        f.debug_struct("Seat")
            .field("number", &self.pass.number())
            .finish_non_exhaustive()
    }
}

impl Seat {
    /// Returns its number: 0 for the first seat.
    pub fn number(&self) -> u32
        ensures { result ≡ self.now.number }
    {
        self.pass.number()
    }

    /// States what each seat satisfies, and does nothing: it has seen a legal history over its
    /// capacity in which each play is halted by its own maker, and its own entries are those of its
    /// number in it.
    pub fn holds(&self)
        ensures kept { IsSeat self.now }
    {
        // a body that uses a field may rely on the invariant of its type
        let _number = self.pass.number();
    }
}
