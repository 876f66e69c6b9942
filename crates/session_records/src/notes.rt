//! What a connection notes of its requests to the station, for its report.

use admission::Answer;
use early_start::Offers;
use plan_cert::Plan;

/// What the station answered, in the order of the answers.
#[derive(Clone, Copy, Debug, PartialEq, Eq)]
pub enum Receipt {
    /// The journal has a new entry.
    Entry {
        /// Its place in the journal.
        place: u64,
        /// Its answer.
        answer: Answer,
    },
    /// The journal was full.
    Full {
        /// How many entries it had.
        entries: u64,
        /// How many plays were open.
        live: u64,
    },
}

/// A play that was admitted.
#[derive(Debug, Drop)]
pub struct PlayNote {
    /// The place of its admission in the journal.
    pub place: u64,
    /// The number of its film, from 0.
    pub film: u32,
    /// The first unit of its run.
    pub first_unit: u64,
    /// The unit at which its run ends.
    pub end_unit: u64,
    /// The first unplayed unit of the run as the play began.
    pub from_unit: u64,
    /// The client's buffer, in bytes.
    pub buffer: u64,
    /// The slots before the first picture is used.
    pub delay: u64,
    /// The bytes of the run that were played before it.
    pub played: u64,
    /// The bytes of the run that were sent before it.
    pub sent_before: u64,
    /// Its plan.
    pub plan: Plan,
    /// The slot in which it began.
    pub start: u64,
    /// How many bytes of the plan its booking keeps: all of them until it is halted.
    pub keep: u64,
}

/// An offer, as its client received it.
#[derive(Debug, Drop)]
pub struct OfferNote {
    /// How many entries the journal had.
    pub seen: u64,
    /// The first slot at which the plan could begin.
    pub first: u64,
    /// The plan.
    pub plan: Plan,
    /// The starts that were tried, and the one that was found.
    pub offers: Offers,
}

/// What a connection leaves for its report.
#[derive(Debug, Drop)]
pub struct Notes {
    /// The station's answers, in order.
    pub receipts: Vec<Receipt>,
    /// The plays that were admitted, in order.
    pub plays: Vec<PlayNote>,
    /// The slots that did not arrive while a play was sent: at each slot those between the slot
    /// before it, or the slot before the play's start where that is later, and itself.
    pub late: u64,
    /// The offers, in order.
    pub offers: Vec<OfferNote>,
}
