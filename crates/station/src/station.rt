//! The station.

ghost use Rattle.std.specs.Prelude.{◌≡◌, ◌≢◌, ◌+◌, ◌^◌, ◌<◌, ◌≤◌, ℕ, IfOk, IfErr};
ghost use mathlib.Core.List.{IsPrefix};
ghost use Rattle.plan_cert.specs.PlanSlots.{total_bytes};
ghost use Rattle.admission.specs.declared.entries.Answer.{Answer};
ghost use Rattle.admission.specs.declared.entries.Command.{Command};
ghost use Rattle.admission.specs.Makers.{IsOpenAmong};
ghost use Rattle.station.specs.Answers.{IsFull, IsSeatRefused, HasMadeEntry};
ghost use Rattle.station.specs.Ledgers.{IsOffered, look_at, play_of};
ghost use Rattle.station.specs.Seats.{IsJournalOf, IsSameSeat, IsSeat, after_join};
ghost use Rattle.station.specs.Seats.{after_split, first_seat, new_seat};
ghost use Rattle.turnstile.specs.Passes.{AllJoined};

use crate::answers::{Booking, Looked, Offered, PlayRefused};
use crate::ledger::Ledger;
use crate::seat::Seat;
use admission::{Book, Full, MAX_ENTRIES};
use early_start::Offers;
use plan_cert::Plan;
use slot_calendar::Profile;
use std::alloc::Global;
use std::fmt;
use std::marker::Model;
use std::sync::Wait;
use turnstile::Turnstile;
use vod_base::NoMemory;

/// The book of a shared link, at which one seat at a time asks.
///
/// Contracts see which station it is, the steps of the capacity and the most entries.
#[derive(Drop)]
pub struct Station {
    turns: Turnstile<Ledger>,
}

impl Model for Station {
    ghost use Rattle.station.specs.Seats.{StationState};

    ghost Value = { StationState };

    ghost view = { λ s. record {
      id = s.turns.id;
      steps = s.turns.terms.steps;
      limit = s.turns.terms.limit;
    } };
}

/// No field: the book belongs to the seat that holds the lock.
impl fmt::Debug for Station {
    fn fmt<W: fmt::Write>(&self, f: &mut fmt::Formatter<W>) -> fmt::Result {
        f.write_str("Station { .. }")
    }
}

impl Station {
    /// Makes a station of a link of this capacity, in bytes a slot, whose journal has room for
    /// `limit` entries, 2 to 1,048,576; and its first seat. No other call takes memory.
    ///
    /// # Errors
    ///
    /// [`NoMemory`] where there is none for the calendar, the journal and the table.
    pub fn new(alloc: Global, profile: Profile, limit: u64) -> Result<(Station, Seat), NoMemory>
        requires some { 2 ≤ limit }
        requires few { limit ≤ MAX_ENTRIES }
        ensures steps { IfOk result (λ made. made.0.steps ≡ profile) }
        ensures limit { IfOk result (λ made. made.0.limit ≡ limit) }
        ensures seat { IfOk result (λ made. made.1 ≡ first_seat made.0) }
    {
        // Calendar and entire journal are reserved here, so no call fails later for lack of memory.
        let book = Book::new(alloc, profile, limit)?;
        let (turns, pass) = Turnstile::new(alloc, Ledger::new(book))?;
        Ok((Station { turns }, Seat { pass }))
    }

    /// Asks for a play of the plan in a slot that has begun, as `Book::play`.
    ///
    /// # Errors
    ///
    /// [`PlayRefused::JournalFull`] exactly where the entries, the open plays and 2 are more than
    /// the limit: it makes no entry. [`PlayRefused::Overflow`] exactly where a slot has no room for
    /// the plan; it is the answer of an entry.
    pub fn play<R: Wait>(
        &self,
        rt: &R,
        seat: &mut Seat,
        heard: u64,
        plan: Plan,
    ) -> Result<Booking, PlayRefused>
        // needs: a seat of this station
        requires seat { seat.old.id ≡ self.now.id }
        // leaves: the seat stays the same one, with the history that it now has seen
        ensures same { IsSameSeat seat.old seat.new }
        ensures kept { IsSeat seat.new }
        // answers: the booking, whose play is open, or why there is none
        ensures made { IfOk result (λ booking.
            HasMadeEntry seat.old seat.new 2 (play_of heard plan) booking.number
            (Answer.Admitted booking.start)) }
        ensures open { IfOk result (λ booking. (keep : ℕ) → keep ≤ total_bytes plan →
            IsOpenAmong seat.new.mine booking.number keep) }
        ensures refused { IfErr result (IsSeatRefused seat.old seat.new heard plan) }
    {
        let mut turn = self.turns.enter(rt, &mut seat.pass);
        let maker = seat.pass.number();
        // Search and entry under one lock: else another play could take the room in between. The
        // reply is written after the lock is passed on.
        let told = turn.value().play(maker, heard, plan);
        // By its contract the journal is legal, so the seat knows it of what it has seen.
        turn.value().holds();
        self.turns.leave(&mut seat.pass, turn);
        told
    }

    /// Halts the play of a booking: it keeps the first `keep` bytes of its plan. Returns the place
    /// of the entry, which always finds one.
    pub fn halt<R: Wait>(&self, rt: &R, seat: &mut Seat, booking: Booking, keep: u64) -> u64
        // needs: a seat of this station, whose own open play this is
        requires seat { seat.old.id ≡ self.now.id }
        requires open { IsOpenAmong seat.old.mine booking.number keep }
        // leaves: the seat stays the same one, with the history that it now has seen
        ensures same { IsSameSeat seat.old seat.new }
        ensures kept { IsSeat seat.new }
        // answers: the place of the entry
        ensures made { HasMadeEntry seat.old seat.new 0 (Command.Halt booking.number keep) result
            Answer.Halted }
    {
        // Taken apart here alone: a booking can't be dropped, so each play is halted once.
        let Booking { number, start: _ } = booking;
        let mut turn = self.turns.enter(rt, &mut seat.pass);
        let maker = seat.pass.number();
        // No error: the journal keeps one place for the halt of each open play.
        let place = turn.value().halt(maker, number, keep);
        turn.value().holds();
        self.turns.leave(&mut seat.pass, turn);
        place
    }

    /// Asks what is booked in a slot, as `Book::look`.
    ///
    /// # Errors
    ///
    /// [`Full`] exactly where the entries, the open plays and 1 are more than the limit: it makes
    /// no entry.
    pub fn look<R: Wait>(&self, rt: &R, seat: &mut Seat, slot: u64) -> Result<Looked, Full>
        // needs: a seat of this station
        requires seat { seat.old.id ≡ self.now.id }
        // leaves: the seat stays the same one, with the history that it now has seen
        ensures same { IsSameSeat seat.old seat.new }
        ensures kept { IsSeat seat.new }
        // answers: what its entry says, or that the journal is full
        ensures made { IfOk result (λ looked.
            HasMadeEntry seat.old seat.new 1 (look_at slot) looked.place
            (Answer.Looked looked.now looked.at looked.booked)) }
        ensures full { IfErr result (λ full.
            IsFull seat.old seat.new 1 full.entries full.live) }
    {
        let mut turn = self.turns.enter(rt, &mut seat.pass);
        let maker = seat.pass.number();
        // A look makes an entry, so its answer is part of the history that proofs speak of.
        let told = turn.value().look(maker, slot);
        turn.value().holds();
        self.turns.leave(&mut seat.pass, turn);
        told
    }

    /// Finds the earliest start of a plan within a wait, asked for in a slot that has begun. It
    /// makes no entry, and books nothing.
    pub fn offer<R: Wait>(
        &self,
        rt: &R,
        seat: &mut Seat,
        heard: u64,
        plan: &Plan,
        into: &mut Offers,
    ) -> Offered
        // needs: a seat of this station
        requires seat { seat.old.id ≡ self.now.id }
        // leaves: the seat stays the same one, with the history that it now has seen
        ensures same { IsSameSeat seat.old seat.new }
        ensures kept { IsSeat seat.new }
        // answers: the starts of the history that the seat has seen; no entry is made
        ensures mine { seat.new.mine ≡ seat.old.mine }
        ensures wait { into.new.wait ≡ into.old.wait }
        ensures offered { IsOffered seat.new.steps seat.new.seen heard plan.now result into.new }
    {
        let mut turn = self.turns.enter(rt, &mut seat.pass);
        // Under the lock, so that starts and number of entries belong to one moment.
        let told = turn.value().offer(heard, plan, into);
        turn.value().holds();
        self.turns.leave(&mut seat.pass, turn);
        told
    }

    /// Splits a new seat off, which has seen as much. The k-th that is split has the number k.
    pub fn split(&self, seat: &mut Seat) -> Seat
        // needs: the first seat of this station, with a number left
        requires seat { seat.old.id ≡ self.now.id }
        requires first { seat.old.number ≡ 0 }
        requires few { seat.old.splits + 1 < 2 ^ 32 }
        // leaves: the seat, split once more; answers: the new seat
        ensures same { seat.new ≡ after_split seat.old }
        ensures new { result ≡ new_seat seat.old }
        ensures kept { IsSeat result }
    {
        // Only the first seat splits, so that no two have one number.
        let pass = self.turns.split(&mut seat.pass);
        Seat { pass }
    }

    /// Takes in what another seat has seen and made. Seats of one station have its capacity and its
    /// limit.
    pub fn join(&self, seat: &mut Seat, other: Seat)
        // needs: two seats of this station, the second not the first of all
        requires seat { seat.old.id ≡ self.now.id }
        requires other { other.id ≡ self.now.id }
        requires not_first { other.number ≢ 0 }
        // leaves: the seat with what both have seen, which are parts of one history
        ensures same { seat.new ≡ after_join seat.old other }
        ensures kept { IsSeat seat.new }
        ensures longer { IsPrefix seat.old.seen seat.new.seen }
        ensures told { IsPrefix other.seen seat.new.seen }
        // both have the station's capacity and limit
        ensures steps { other.steps ≡ seat.old.steps }
        ensures limit { other.limit ≡ seat.old.limit }
    {
        let Seat { pass } = other;
        self.turns.join(&mut seat.pass, pass);
    }

    /// Hands the book out, once every seat was joined to the first one.
    pub fn close(self, seat: Seat) -> Book
        // needs: the first seat of this station, with all others joined to it
        requires seat { seat.id ≡ self.id }
        requires first { seat.number ≡ 0 }
        requires all { AllJoined seat.splits seat.joined }
        // answers: the book with all entries of all seats
        ensures whole { IsJournalOf seat result.entries }
        ensures steps { result.steps ≡ seat.steps }
        ensures limit { result.limit ≡ seat.limit }
    {
        let Station { turns } = self;
        let Seat { pass } = seat;
        let ledger = turns.close(pass);
        ledger.into_book()
    }
}
