//! The guard of the lock, with the kept value.

ghost use Rattle.std.specs.Prelude.{◌≡◌, Some, None};
ghost use Rattle.std.specs.Borrow.{sem};
ghost use Rattle.turnstile.specs.TurnValues.{LendsValue};
ghost use Rattle.turnstile.specs.Passes.{MayLeave};
ghost use Rattle.admission.specs.Makers.{entries_by};
ghost use Rattle.turnstile.specs.TableSeats.{IsFree, IsSeated, IsSized};
ghost use Rattle.turnstile.specs.Steps.{IsTurn};
ghost use Rattle.turnstile.specs.PassSeats.{IsViewOf, state_of_view};

use crate::kept_value::Kept;
use crate::steps::{count_if_grown, give_back};
use crate::table::{Place, SharedTable, VALUE};
use crate::wakers::Wakers;
use std::fmt;
use std::marker::Model;

/// The guard of a pass that holds the lock, with the value. It must be handed to
/// `Turnstile::leave`.
///
/// Contracts see the pass as it was when it took the lock, and the value.
pub struct Turn<B: Kept> {
    seat: Place<B>,
    value: B,
    /// How many entries its list had when the lock was taken.
    before: u64,
}

impl<B: Kept> Model for Turn<B> {
    ghost use Rattle.turnstile.specs.Passes.{TurnState};

    ghost Value = { TurnState B };

    ghost use Rattle.turnstile.specs.PassSeats.{IsTurnTaken, state_of_view};

    ghost view = { λ t. record { pass = state_of_view t.seat.table_id t.seat.me.0; value = t.value } };

    ghost invariant = { λ t. IsTurnTaken t.seat t.before };
}

/// No field: the value may have no text.
impl<B: Kept> fmt::Debug for Turn<B> {
    fn fmt<W: fmt::Write>(&self, f: &mut fmt::Formatter<W>) -> fmt::Result {
        f.write_str("Turn { .. }")
    }
}

impl<B: Kept> Turn<B> {
    /// The guard of a pass that has emptied the slot, with the value from it.
    pub(crate) fn begin(seat: Place<B>, value: B) -> Turn<B>
        requires turn { IsTurn seat.me None }
        requires list { B.entries value ≡ seat.me.0.seen }
        requires own { seat.me.0.mine ≡ entries_by seat.me.0.number seat.me.0.seen }
        ensures { result ≡ record { pass = state_of_view seat.table_id seat.me.0; value = value } }
    {
        // Kept, so that the end can tell at run time whether an entry was made.
        let before = value.count();
        Turn {
            seat,
            value,
            before,
        }
    }

    /// Puts the value back, counts the entry that its list has more, passes the lock to the next
    /// ticket and rings its bell.
    pub(crate) fn end(self, shared: &SharedTable<B>, wakers: &Wakers) -> Place<B>
        // needs: the lock of this table, and a list with at most one entry more, of its own
        requires sized { IsSized shared.now.table_id }
        requires here { self.pass.id ≡ shared.now.table_id }
        requires list { MayLeave self.pass.seen self.pass.number (B.entries self.value) }
        requires terms { B.terms self.value ≡ self.pass.terms }
        // answers: a place that rests, and has seen the list as it was put back
        ensures free { IsFree result.me }
        ensures here { result.table_id ≡ self.pass.id }
        ensures view { IsViewOf self.pass.number self.pass.splits result.me.0 }
        ensures pass { state_of_view result.table_id result.me.0
            ≡ record self.pass {
              seen = B.entries self.value;
              mine = entries_by self.pass.number (B.entries self.value);
            } }
    {
        let Turn {
            mut seat,
            value,
            before,
        } = self;
        // A turn makes at most one entry, so another count means one more.
        let grown = value.count() != before;
        // The value goes back before the next ticket is served: that pass takes it at once.
        let empty = shared.exchange(&mut seat, VALUE, Some(value));
        // The slot was emptied when the lock was taken, and no other pass could fill it.
        let None = empty else { unreachable!() };
        count_if_grown(shared, &mut seat, grown);
        let served = give_back(shared, &mut seat);
        // Tickets that share this bell wake too. They see that they aren't served, and sleep again.
        wakers.waker_of(served.wrapping_add(1)).notify_all();
        seat
    }

    /// Lends the value. What is written to it is what `Turnstile::leave` puts back.
    pub fn value(&mut self) -> &mut B
        ensures* writes_back { sem 𝓛 (LendsValue B.row B.Kept self.entry result) }
        ensures value { result.now ≡ self.old.value }
    {
        &mut self.value
    }
}
