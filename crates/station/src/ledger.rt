//! The calls of the book while a seat holds the lock.

ghost use Rattle.std.specs.Prelude.{◌≡◌, IfOk, IfErr, []};
ghost use Rattle.admission.specs.declared.entries.Answer.{Answer};
ghost use Rattle.admission.specs.declared.entries.Command.{Command};
ghost use Rattle.admission.specs.Histories.{IsLegal, state_after};
ghost use Rattle.admission.specs.Makers.{AreHaltsOwn, IsOpenAmong, entries_by};
ghost use Rattle.station.specs.Ledgers.{IsEntered, IsFullFor, IsOffered, IsPlayRefused, look_at};
ghost use Rattle.station.specs.Ledgers.{play_of};

use crate::answers::{Booking, Looked, Offered, PlayRefused};
use admission::laws::{law_never_overbooked, law_own_open_play_can_be_halted};
use admission::{Answer, Book, Full, Noted, PlayFull};
use early_start::Offers;
use early_start::laws::law_offer_covers_past_slots;
use plan_cert::Plan;
use std::marker::Model;
use turnstile::Kept;
use vod_base::LATEST_SLOT;

/// The book that a station's seats share. Each play in it is halted by its own maker.
#[derive(Drop)]
pub(crate) struct Ledger {
    book: Book,
}

impl Model for Ledger {
    ghost use Rattle.admission.specs.Books.{Journal};
    ghost use Rattle.admission.specs.Makers.{AreHaltsOwn};

    ghost Value = { Journal };

    ghost view = { λ l. l.book };

    ghost invariant = { λ l. AreHaltsOwn l.book.entries };
}

impl Kept for Ledger {
    ghost entries = { λ j. j.entries };

    ghost terms = { λ j. record { steps = j.steps; limit = j.limit } };

    fn count(&self) -> u64 {
        self.book.entries().len() as u64
    }
}

impl Ledger {
    /// A ledger of an empty book.
    pub(crate) fn new(book: Book) -> Ledger
        requires { book.entries ≡ [] }
        ensures { result ≡ book }
    {
        Ledger { book }
    }

    /// What each ledger satisfies.
    pub(crate) fn holds(&self)
        ensures legal { IsLegal self.now.steps self.now.entries }
        ensures halts { AreHaltsOwn self.now.entries }
    {
        // the contract of this call says that the history is legal
        let _entries = self.book.entries();
    }

    /// As `Book::play`: it halts nothing.
    fn note_play(&mut self, maker: u32, heard: u64, plan: Plan) -> Result<Noted, PlayFull>
        ensures made { IfOk result (λ noted.
            IsEntered self.old self.new maker 2 (play_of heard plan) noted.place noted.answer) }
        ensures full { IfErr result (λ refused.
            IsFullFor self.old self.new 2 refused.full.entries refused.full.live) }
        ensures plan { IfErr result (λ refused. refused.plan ≡ plan) }
    {
        self.book.play(maker, heard, plan)
    }

    /// Books a play where it is admitted, or returns why it is refused.
    pub(crate) fn play(
        &mut self,
        maker: u32,
        heard: u64,
        plan: Plan,
    ) -> Result<Booking, PlayRefused>
        ensures made { IfOk result (λ booking.
            IsEntered self.old self.new maker 2 (play_of heard plan) booking.number
            (Answer.Admitted booking.start)) }
        ensures refused { IfErr result (IsPlayRefused self.old self.new maker heard plan) }
    {
        let noted = self.note_play(maker, heard, plan)?;
        match noted.answer {
            Answer::Overflow {
                slot,
                booked,
                asked,
            } => Err(PlayRefused::Overflow {
                place: noted.place,
                slot,
                booked,
                asked,
            }),
            // The only other answer to a play is that it is admitted.
            _ => Ok(Booking::of(noted).unwrap()),
        }
    }

    /// As `Book::halt`, of a play that is open among its maker's entries.
    pub(crate) fn halt(&mut self, maker: u32, number: u64, keep: u64) -> u64
        requires { IsOpenAmong (entries_by maker self.old.entries) number keep }
        ensures { IsEntered self.old self.new maker 0 (Command.Halt number keep) result
            Answer.Halted }
    {
        // the contract of this call says that the history is legal, in which an open play is its
        // maker's own
        let _entries = self.book.entries();
        law_own_open_play_can_be_halted();
        self.book.halt(maker, number, keep).place
    }

    /// As `Book::look`.
    pub(crate) fn look(&mut self, maker: u32, slot: u64) -> Result<Looked, Full>
        ensures made { IfOk result (λ looked.
            IsEntered self.old self.new maker 1 (look_at slot) looked.place
            (Answer.Looked looked.now looked.at looked.booked)) }
        ensures full { IfErr result (λ full.
            IsFullFor self.old self.new 1 full.entries full.live) }
    {
        let noted = self.book.look(maker, slot)?;
        // An entry of a look has the answer to a look alone.
        Ok(Looked::of(noted).unwrap())
    }

    /// Finds the earliest start of a plan within a wait. It makes no entry.
    pub(crate) fn offer(&self, heard: u64, plan: &Plan, into: &mut Offers) -> Offered
        ensures wait { into.new.wait ≡ into.old.wait }
        ensures offered { IsOffered self.now.steps self.now.entries heard plan.now result into.new }
    {
        let calendar = self.book.calendar();
        let entries = self.book.entries();
        // The search needs a calendar within its capacity, and a start that isn't past.
        law_never_overbooked();
        law_offer_covers_past_slots();
        // Where a play that is asked for now would begin: in the slot after the last one that
        // arrived, or after the latest one in which any play was asked for.
        let first = calendar.now().max(heard.min(LATEST_SLOT)) + 1;
        into.find(calendar, plan, first);
        Offered {
            seen: entries.len() as u64,
            first,
        }
    }

    /// Its book.
    pub(crate) fn into_book(self) -> Book
        ensures same { result ≡ self }
        ensures halts { AreHaltsOwn result.entries }
    {
        let Ledger { book } = self;
        book
    }
}
