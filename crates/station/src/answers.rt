//! What a station answers.

ghost use Rattle.std.specs.Prelude.{◌≡◌, ℕ, IfSome, IsSome};
ghost use Rattle.admission.specs.declared.entries.Answer.{Answer};

use admission::{Answer, Noted, PlayFull};
use plan_cert::Plan;
use std::marker::Model;
use thiserror::Error;

/// A play that was admitted and not halted. It can't be dropped, and only `Station::halt` takes it:
/// so its holder halts the play.
///
/// Contracts see its number and its start.
#[derive(Debug)]
pub struct Booking {
    pub(crate) number: u64,
    pub(crate) start: u64,
}

impl Model for Booking {
    ghost use Rattle.station.specs.Bookings.{Booking};

    ghost Value = { Booking };

    ghost view = { λ b. record { number = b.number; start = b.start } };
}

impl Booking {
    /// The booking of an entry that admitted a play.
    pub(crate) fn of(noted: Noted) -> Option<Booking>
        ensures value { IfSome result (λ booking. (booking.number ≡ noted.place)
            × (noted.answer ≡ Answer.Admitted booking.start)) }
        ensures some { (start : ℕ) → noted.answer ≡ Answer.Admitted start → IsSome result }
    {
        match noted.answer {
            Answer::Admitted { start } => Some(Booking {
                number: noted.place,
                start,
            }),
            _ => None,
        }
    }

    /// Returns the play's number: the place of its entry in the journal, from 0 on.
    pub fn number(&self) -> u64
        ensures { result ≡ self.now.number }
    {
        self.number
    }

    /// Returns the slot in which the play begins.
    pub fn start(&self) -> u64
        ensures { result ≡ self.now.start }
    {
        self.start
    }
}

/// Why a play was refused.
#[derive(Debug, Drop, Error)]
pub enum PlayRefused {
    /// The journal has no room for the play's entry and its halt's; no entry was made.
    #[error("the journal is full: {entries} entries, {live} open plays")]
    JournalFull {
        /// The plan that was asked for.
        plan: Plan,
        /// How many entries the journal has.
        entries: u64,
        /// How many plays are open.
        live: u64,
    },
    /// A slot has no room for the plan; the answer is an entry.
    #[error("slot {slot} has no room: {booked} bytes are booked and {asked} asked")]
    Overflow {
        /// The place of the entry.
        place: u64,
        /// The first such slot.
        slot: u64,
        /// The bytes that are booked in it.
        booked: u64,
        /// The bytes that the plan asks for in it.
        asked: u64,
    },
}

impl From<PlayFull> for PlayRefused {
    ghost use Rattle.std.specs.Prelude.{◌≡◌};
    ghost use Rattle.station.specs.declared.answers.PlayRefused.TheVariants.{JournalFull};

    ghost from_gives = { λ refused why.
        why ≡ JournalFull refused.plan refused.full.entries refused.full.live };

    fn from(refused: PlayFull) -> PlayRefused {
        let PlayFull { plan, full } = refused;
        PlayRefused::JournalFull {
            plan,
            entries: full.entries,
            live: full.live,
        }
    }
}

/// What is booked in a slot.
#[derive(Clone, Copy, Debug, PartialEq, Eq)]
pub struct Looked {
    /// The place of the look's entry.
    pub place: u64,
    /// The slot up to which the book has come.
    pub now: u64,
    /// The slot that was looked at: the one asked for, or `now` where that is later.
    pub at: u64,
    /// The bytes that are booked in it.
    pub booked: u64,
}

impl Looked {
    /// What the entry of a look says.
    pub(crate) fn of(noted: Noted) -> Option<Looked>
        ensures value { IfSome result (λ looked. (looked.place ≡ noted.place)
            × (noted.answer ≡ Answer.Looked looked.now looked.at looked.booked)) }
        ensures some { (now at booked : ℕ) → noted.answer ≡ Answer.Looked now at booked →
            IsSome result }
    {
        match noted.answer {
            Answer::Looked { now, at, booked } => Some(Looked {
                place: noted.place,
                now,
                at,
                booked,
            }),
            _ => None,
        }
    }
}

/// When an offer was made.
#[derive(Clone, Copy, Debug, PartialEq, Eq)]
pub struct Offered {
    /// How many entries the journal had.
    pub seen: u64,
    /// The first slot in which the play may begin.
    pub first: u64,
}
