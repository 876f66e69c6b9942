//! The turnstile.

ghost use Rattle.std.specs.Prelude.{◌≡◌, ◌≢◌, ◌+◌, ◌^◌, ◌<◌, [], ◌∷◌, ◌++◌, IfOk, true, false};
ghost use mathlib.Core.List.{IsPrefix};
ghost use Rattle.admission.specs.Makers.{entries_by};
ghost use Rattle.turnstile.specs.Passes.{AllJoined, IsWholeList, MayLeave, after_join, after_split};
ghost use Rattle.turnstile.specs.Passes.{first_pass, new_pass};

use crate::acquire::take;
use crate::kept_value::Kept;
use crate::pass::Pass;
use crate::split_rules::{Joins, Splits};
use crate::steps::read_view;
use crate::table::{Board, VALUE};
use crate::turn::Turn;
use crate::wakers::Wakers;
use atomic_table::Table;
use std::alloc::Global;
use std::fmt;
use std::marker::Model;
use std::snapshot::Snapshot;
use std::sync::Wait;
use vod_base::NoMemory;

/// A value that one pass at a time holds. Passes get the lock in the order in which they drew their
/// tickets, and sleep while they wait.
///
/// Contracts see which turnstile it is, and what stays of the value.
#[derive(Drop)]
pub struct Turnstile<B: Kept> {
    table: Board<B>,
    wakers: Wakers,
}

impl<B: Kept> Model for Turnstile<B> {
    ghost use Rattle.turnstile.specs.Passes.{TurnstileState};

    ghost Value = { TurnstileState };

    ghost use Rattle.turnstile.specs.TableSeats.{IsSized};

    ghost view = { λ t. record {
      id = t.table.shared.table_id;
      terms = B.terms t.table.shared.key.value;
    } };

    ghost invariant = { λ t. IsSized t.table.shared.table_id };
}

/// No field: the value belongs to the pass that holds the lock.
impl<B: Kept> fmt::Debug for Turnstile<B> {
    fn fmt<W: fmt::Write>(&self, f: &mut fmt::Formatter<W>) -> fmt::Result {
        f.write_str("Turnstile { .. }")
    }
}

impl<B: Kept> Turnstile<B> {
    /// Makes a turnstile round a value whose list is empty, and its first pass.
    ///
    /// # Errors
    ///
    /// [`NoMemory`] where there is none. No other call takes memory.
    pub fn new(alloc: Global, kept: B) -> Result<(Turnstile<B>, Pass), NoMemory>
    where
        B: Drop,
        requires { B.entries kept ≡ [] }
        ensures terms { IfOk result (λ made. made.0.terms ≡ B.terms kept) }
        ensures pass { IfOk result (λ made. made.1 ≡ first_pass made.0) }
    {
        // For contracts: they name what stays of the value also while a turn has it.
        let about = Snapshot::of(&kept);
        let mut slots = Vec::with_capacity(alloc, 1)?;
        slots.push_reserved(Some(kept));
        // No ticket was drawn, ticket 0 is served, and the list has no entry.
        let Ok((table, seat)) = Table::new(alloc, &[0, 0, 0], slots, &about) else {
            return Err(NoMemory);
        };
        let turnstile = Turnstile {
            table,
            wakers: Wakers::new(),
        };
        Ok((turnstile, Pass::at_rest(seat, 0, 0)))
    }

    /// Draws a ticket, waits until it is served, and takes the value.
    pub fn enter<R: Wait>(&self, rt: &R, pass: &mut Pass) -> Turn<B>
        // needs: a pass of this turnstile that doesn't hold the lock
        requires own { pass.old.id ≡ self.now.id }
        requires free { pass.old.has_turn ≡ false }
        // leaves: the pass without its seat
        ensures away { pass.new.has_turn ≡ true }
        ensures number { pass.new.number ≡ pass.old.number }
        ensures splits { pass.new.splits ≡ pass.old.splits }
        // answers: the turn, with the value as the last turn left it: with all that the pass had
        // seen, and with no entry of the pass that it didn't make before
        ensures pass { result.pass ≡ record pass.old { seen = B.entries result.value } }
        ensures longer { IsPrefix pass.old.seen (B.entries result.value) }
        ensures own { pass.old.mine ≡ entries_by pass.old.number (B.entries result.value) }
        ensures terms { B.terms result.value ≡ pass.old.terms }
    {
        // The pass has no seat until `leave`, so it can't take the lock twice.
        let place = pass.take_seat();
        take(rt, &self.table.shared, &self.wakers, place)
    }

    /// Gives the value back, and passes the lock to the next ticket, whose pass it wakes. The list
    /// is as it was at `enter`, or has one more entry, of this pass.
    pub fn leave(&self, pass: &mut Pass, turn: Turn<B>)
        // needs: the turn of this pass
        requires own { turn.pass.id ≡ self.now.id }
        requires away { pass.old.has_turn ≡ true }
        requires number { turn.pass.number ≡ pass.old.number }
        requires splits { turn.pass.splits ≡ pass.old.splits }
        // and a value with the same terms, and at most one more entry, of this pass
        requires list { MayLeave turn.pass.seen turn.pass.number (B.entries turn.value) }
        requires terms { B.terms turn.value ≡ turn.pass.terms }
        // leaves: the pass with all that the value's list has
        ensures { pass.new ≡ record turn.pass {
          seen = B.entries turn.value;
          mine = entries_by turn.pass.number (B.entries turn.value);
        } }
    {
        let place = turn.end(&self.table.shared, &self.wakers);
        // The pass has its seat back, and may enter again.
        *pass = Pass::at_rest(place, pass.number(), pass.splits());
    }

    /// Splits a new pass off, which has seen as much. The k-th that is split has the number k.
    pub fn split(&self, pass: &mut Pass) -> Pass
        // needs: the first pass of this turnstile, without the lock, and a number left
        requires own { pass.old.id ≡ self.now.id }
        requires free { pass.old.has_turn ≡ false }
        requires first { pass.old.number ≡ 0 }
        requires few { pass.old.splits + 1 < 2 ^ 32 }
        // leaves: the pass, split once more; answers: the new one, which made no entry
        ensures same { pass.new ≡ after_split pass.old }
        ensures new { result ≡ new_pass pass.old }
        ensures none { entries_by result.number result.seen ≡ [] }
    {
        let mut place = pass.take_seat();
        let mut other = self.table.shared.split_seat::<Splits>(&mut place);
        // Only after a read do contracts know that no entry has the new number.
        read_view(&self.table.shared, &mut other);
        let splits = pass.splits() + 1;
        *pass = Pass::at_rest(place, 0, splits);
        Pass::at_rest(other, splits, 0)
    }

    /// Takes in what another pass has seen and noted. Passes of one turnstile have the same terms.
    pub fn join(&self, pass: &mut Pass, mut other: Pass)
        // needs: two passes of this turnstile without the lock, the second not the first of all
        requires own { pass.old.id ≡ self.now.id }
        requires free { pass.old.has_turn ≡ false }
        requires other { other.id ≡ self.now.id }
        requires other_free { other.has_turn ≡ false }
        requires not_first { other.number ≢ 0 }
        // leaves: the pass with what both have seen, which are prefixes of one list
        ensures pass { pass.new ≡ after_join pass.old other }
        ensures longer { IsPrefix pass.old.seen pass.new.seen }
        ensures told { IsPrefix other.seen pass.new.seen }
        ensures own { pass.new.mine ≡ entries_by pass.new.number pass.new.seen }
        ensures terms { other.terms ≡ pass.old.terms }
    {
        let mut place = pass.take_seat();
        let theirs = other.take_seat();
        self.table.shared.join_seat::<Joins>(&mut place, theirs);
        // Only after a read do contracts know that both had seen parts of one history.
        read_view(&self.table.shared, &mut place);
        *pass = Pass::at_rest(place, pass.number(), pass.splits());
    }

    /// Hands the value out, once every pass was joined to the first one.
    pub fn close(self, mut pass: Pass) -> B
        // needs: the first pass of this turnstile, with all others joined to it
        requires own { pass.id ≡ self.id }
        requires free { pass.has_turn ≡ false }
        requires first { pass.number ≡ 0 }
        requires all { AllJoined pass.splits pass.joined }
        // answers: the value with all entries of all passes
        ensures whole { IsWholeList pass (B.entries result) }
        ensures terms { B.terms result ≡ pass.terms }
    {
        let Turnstile { table, wakers: _ } = self;
        let mut closed = table.close_with(pass.take_seat());
        let slot = closed.take(VALUE);
        closed.free();
        // No other pass is left and this one holds no lock, so the value is in its slot.
        slot.unwrap()
    }
}
