//! The book, and its limit of entries.

ghost use Rattle.std.specs.Prelude.{ℕ, ◌≡◌, ◌+◌, ◌<◌, ◌≤◌, [], min, IfOk, IfErr, OnOk, OnErr};
ghost use Rattle.plan_cert.specs.PlanSlots.{total_bytes};
ghost use Rattle.slot_calendar.specs.Calendars.{Represents};
ghost use Rattle.admission.specs.Machine.{CanHalt, plays_of};
ghost use Rattle.admission.specs.Histories.{IsLegal, state_after};

use crate::entries::{Answer, Command, Entry, Full, Noted, PlayFull};
use crate::operations::{admit, note, opened_count, release_play};
use plan_cert::Plan;
use slot_calendar::{Calendar, Profile};
use std::alloc::Global;
use std::fmt;
use std::marker::Model;
use vod_base::NoMemory;

/// The book of a shared link. It admits plays, halts them and reports what is booked. It notes each
/// of these commands with its answer in a journal. It keeps a free place in the journal for the
/// halt of each open play.
///
/// Contracts see the steps of the capacity, the most entries, and the list of the entries.
#[derive(Drop)]
pub struct Book {
    calendar: Calendar,
    entries: Vec<Entry>,
    /// The most entries.
    limit: u64,
    /// The plays that were admitted and not halted.
    live: u64,
}

impl Model for Book {
    ghost use Rattle.admission.specs.Inside.{Journal, journal_of, IsBook};

    ghost Value = { Journal };

    ghost view = { journal_of };

    ghost invariant = { IsBook };
}

/// How many entries it has and may have; its calendar and its journal are too long for a text.
impl fmt::Debug for Book {
    fn fmt<W: fmt::Write>(&self, f: &mut fmt::Formatter<W>) -> fmt::Result {
        f.debug_struct("Book")
            .field("entries", &self.entries.len())
            .field("limit", &self.limit)
            .finish_non_exhaustive()
    }
}

/// The most entries of a journal. A book takes memory for its limit of them when it is made.
pub const MAX_ENTRIES: u64 = 1_048_576;

/// The latest slot; a later one is taken as this one.
pub const LATEST_SLOT: u64 = vod_base::LATEST_SLOT;

impl Book {
    ghost use Rattle.admission.specs.Books.{IsFull, IsNoted, places_taken};

    /// Makes an empty book of a link of this capacity, whose journal has room for `limit` entries,
    /// 2 to [`MAX_ENTRIES`]. No other call takes memory.
    ///
    /// # Errors
    ///
    /// [`NoMemory`] where there is none for the calendar or for the entire journal.
    pub fn new(alloc: Global, profile: Profile, limit: u64) -> Result<Book, NoMemory>
        requires some { 2 ≤ limit }
        requires few { limit ≤ MAX_ENTRIES }
        ensures { IfOk result (λ book.
            book ≡ record { steps = profile; limit = limit; entries = [] }) }
    {
        // All memory of the journal and the calendar is taken here, so no entry needs more later.
        let calendar = Calendar::new(alloc, profile)?;
        Ok(Book {
            calendar,
            entries: Vec::with_capacity(alloc, limit as usize)?,
            limit,
            live: 0,
        })
    }

    /// How many entries there are, and how many plays are open.
    fn counts(&self) -> Full
        ensures full { IsFull self.now result }
        ensures within { result.entries + result.live ≤ self.now.limit }
        ensures few { self.now.limit ≤ MAX_ENTRIES }
    {
        Full {
            entries: self.entries.len() as u64,
            live: self.live,
        }
    }

    /// Admits a play of this plan, asked for in a slot, if its plan fits into every slot from the
    /// slot after that one and after now on. Else it answers the first slot without room. Both make
    /// an entry, and now comes up to the slot. A slot above [`LATEST_SLOT`] is taken as that one.
    ///
    /// # Errors
    ///
    /// [`PlayFull`] exactly where the entries, the open plays and 2, for the play's entry and its
    /// halt's, are more than the limit. It hands the plan back and leaves the book as it was.
    pub fn play(&mut self, maker: u32, slot: u64, plan: Plan) -> Result<Noted, PlayFull>
        // answers: the admission rule's answer, exactly where the journal has two more places
        ensures noted { IfOk result (λ noted.
            IsNoted self.old maker (Command.Play (min slot LATEST_SLOT) plan) noted self.new) }
        ensures room { OnOk result (places_taken self.old.entries + 2 ≤ self.old.limit) }
        // refuses: exactly where it hasn't, with the counts
        ensures full { OnErr result (self.old.limit < places_taken self.old.entries + 2) }
        ensures counts { IfErr result (λ refused. IsFull self.old refused.full) }
        // answers: an admitted play can be halted, after any of its bytes
        ensures open { IfOk result (λ noted. (start keep : ℕ) →
            noted.answer ≡ Answer.Admitted start → keep ≤ total_bytes plan →
            CanHalt (state_after self.new.entries) noted.place keep) }
        // leaves: after a refusal, the plan to the caller and the book as it was
        ensures plan { IfErr result (λ refused. refused.plan ≡ plan) }
        ensures left { OnErr result (self.new ≡ self.old) }
    {
        let full = self.counts();
        // Each open play has a free place for its halt's entry. A new play needs two: its own entry
        // and its halt's.
        if full.entries + full.live + 2 > self.limit {
            return Err(PlayFull { plan, full });
        }
        // A bounded slot: no sum of slots overflows, also with the slots of a plan.
        let slot = slot.min(LATEST_SLOT);
        let answer = admit(&mut self.calendar, slot, &plan);
        self.live += opened_count(answer);
        Ok(note(
            &mut self.entries,
            maker,
            Command::Play { slot, plan },
            answer,
        ))
    }

    /// Halts the open play of this number, the place of its entry. It keeps the first `keep` bytes
    /// of its plan; what is after them is free again in the slots from now on. `keep` is at most
    /// the plan's bytes. The entry always finds its place.
    pub fn halt(&mut self, maker: u32, number: u64, keep: u64) -> Noted
        requires { CanHalt (state_after self.old.entries) number keep }
        ensures noted { IsNoted self.old maker (Command.Halt number keep) result self.new }
        ensures answer { result.answer ≡ Answer.Halted }
    {
        release_play(&mut self.calendar, self.entries.as_slice(), number, keep);
        self.live -= 1;
        // The play's free place becomes this entry's. So a halt needs no limit, and never fails.
        note(
            &mut self.entries,
            maker,
            Command::Halt { number, keep },
            Answer::Halted,
        )
    }

    /// Reports what is booked in a slot, or in now where that is later. It doesn't change now. A
    /// slot above [`LATEST_SLOT`] is taken as that one.
    ///
    /// # Errors
    ///
    /// [`Full`] exactly where the entries, the open plays and 1 are more than the limit. It leaves
    /// the book as it was.
    pub fn look(&mut self, maker: u32, slot: u64) -> Result<Noted, Full>
        // answers: what is booked, exactly where the journal has one more place
        ensures noted { IfOk result (λ noted.
            IsNoted self.old maker (Command.Look (min slot LATEST_SLOT)) noted self.new) }
        ensures room { OnOk result (places_taken self.old.entries + 1 ≤ self.old.limit) }
        // refuses: exactly where it hasn't, with the counts
        ensures full { OnErr result (self.old.limit < places_taken self.old.entries + 1) }
        ensures counts { IfErr result (λ full. IsFull self.old full) }
        // leaves: after a refusal, the book as it was
        ensures left { OnErr result (self.new ≡ self.old) }
    {
        let full = self.counts();
        // A look takes an entry, too: its answer is then part of the history that can be judged.
        if full.entries + full.live + 1 > self.limit {
            return Err(full);
        }
        let slot = slot.min(LATEST_SLOT);
        let now = self.calendar.now();
        // The calendar has forgotten the slots before now. A look doesn't move now; plays alone do.
        let at = now.max(slot);
        let booked = self.calendar.booked(at);
        Ok(note(
            &mut self.entries,
            maker,
            Command::Look { slot },
            Answer::Looked { now, at, booked },
        ))
    }

    /// Returns the entries, in their order.
    pub fn entries(&self) -> &[Entry]
        ensures value { result.now ≡ self.now.entries }
        ensures legal { IsLegal self.now.steps self.now.entries }
        ensures within { places_taken self.now.entries ≤ self.now.limit }
        ensures few { self.now.limit ≤ MAX_ENTRIES }
    {
        self.entries.as_slice()
    }

    /// Returns what is booked on the link from the machine's now on.
    pub fn calendar(&self) -> &Calendar
        ensures steps { result.now.steps ≡ self.now.steps }
        ensures now { result.now.first ≡ (state_after self.now.entries).now }
        ensures stands { Represents result.now (plays_of (state_after self.now.entries)) }
        ensures legal { IsLegal self.now.steps self.now.entries }
    {
        &self.calendar
    }

    /// Hands the journal out.
    pub fn into_entries(self) -> Vec<Entry>
        ensures value { result.items ≡ self.entries }
        ensures legal { IsLegal self.steps self.entries }
        ensures within { places_taken self.entries ≤ self.limit }
        ensures few { self.limit ≤ MAX_ENTRIES }
    {
        let Book {
            calendar: _,
            entries,
            limit: _,
            live: _,
        } = self;
        entries
    }
}
