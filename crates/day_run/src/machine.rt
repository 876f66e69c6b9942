//! A day as it runs: what clients ask and slots, one after the other, on one book.

ghost use Rattle.std.specs.Prelude.{◌≡◌, ◌-◌, ◌*◌, ◌≤◌, ◌<◌, length, map, min, IfOk, OnOk};
ghost use Rattle.admission.specs.Histories.{IsLegal};
ghost use Rattle.admission.specs.Books.{places_taken};
ghost use Rattle.day_run.specs.Clients.{IsPlanFor, IsRest, rest_of};
ghost use Rattle.day_run.specs.Days.{at_slot, booked_up_to, last_journal, first_moment, rest_at};
ghost use Rattle.day_run.specs.Days.{state_at, sent_up_to, IsAsked, IsLookLine, IsOfferLine};
ghost use Rattle.day_run.specs.Days.{IsPauseLine, IsPlanned, IsPlayLine, IsResumeLine};
ghost use Rattle.day_run.specs.FairDays.{most_up_to};
ghost use Rattle.day_run.specs.MachineState.{IfSaid, IsKept, IsDayMachine, IsWithinRanges, link_on};
ghost use Rattle.day_run.specs.MachineState.{day_state_of, reply_text};
ghost use Rattle.day_run.specs.MediaContents.{media_content};

use crate::booked_sums::booked_between;
use crate::client_set::{halt_plays, idle_clients, step_clients};
use crate::clients::{Client, HaltedPlays, Rest};
use crate::media::Media;
use crate::play_start::{begin_play, medium_at, start_of, whole_of};
use admission::{Book, Entry, Full, MAX_ENTRIES};
use early_start::{MAX_WAIT, Offers};
use film_run::plan_of;
use plan_cert::Plan;
use slot_calendar::Profile;
use std::alloc::Global;
use vod_base::{LATEST_SLOT, MAX_BYTES, NoMemory};
use wire_curve::{CurveFault, CurveRefused};

/// What is answered to a client.
#[derive(Clone, Copy)]
pub(crate) enum LineAnswer {
    /// The entry at this place of the journal, which was made.
    Entry(u64),
    /// The journal is full.
    Full(Full),
    /// The client isn't in a state in which it can be asked.
    State,
    /// The curves are refused.
    Fault(CurveFault),
}

/// What a slot brings.
#[derive(Clone, Copy)]
pub(crate) struct SlotTotals {
    /// The bytes that were sent.
    pub(crate) sent: u64,
    /// The bytes that are booked in the slots since the last one.
    pub(crate) booked: u64,
    /// The most of them in one slot.
    pub(crate) peak: u64,
}

/// A day as far as it has run.
#[derive(Drop)]
pub(crate) struct DayMachine<'r> {
    /// The sources, in the order of their numbers.
    pub(crate) media: &'r [Media<'r>],
    /// The slot length in 1/360,000 second.
    pub(crate) slot_units: u32,
    pub(crate) book: Book,
    /// The 256 clients, in the order of their numbers.
    pub(crate) clients: Vec<Client<'r>>,
    /// The last slot to which the link has come, 0 before the first.
    pub(crate) heard: u64,
}

impl<'r> DayMachine<'r> {
    /// A day that begins.
    pub(crate) fn new(
        alloc: Global,
        media: &'r [Media<'r>],
        profile: Profile,
        limit: u64,
        slot_units: u32,
    ) -> Result<DayMachine<'r>, NoMemory>
        // needs: a limit and a slot length in range
        requires some { 2 ≤ limit }
        requires few { limit ≤ MAX_ENTRIES }
        requires some_slot_units { 1 ≤ slot_units }
        requires slot_units_fit { slot_units ≤ 360000 }
        // answers: a day at slot 0 on that link, whose clients play nothing
        ensures machine { IfOk result IsDayMachine }
        ensures steps { IfOk result (λ machine. machine.book.steps ≡ profile) }
        ensures link { IfOk result (λ machine. link_on machine ≡ record {
          steps = profile;
          limit = limit;
          slot_units = slot_units;
          media = map (media_content slot_units) media.entry.now;
        }) }
        ensures heard { IfOk result (λ machine. machine.heard ≡ 0) }
        ensures media { IfOk result (λ machine. machine.media.now ≡ media.entry.now) }
        ensures begun { IfOk result (λ machine. day_state_of machine ≡ first_moment) }
    {
        let book = Book::new(alloc, profile, limit)?;
        let clients = idle_clients(alloc)?;
        Ok(DayMachine {
            media,
            slot_units,
            book,
            clients,
            heard: 0,
        })
    }

    /// A client asks to play all of a source.
    pub(crate) fn play(
        &mut self,
        alloc: Global,
        client: u8,
        source: usize,
        buffer: u64,
        delay: u64,
    ) -> Result<LineAnswer, NoMemory>
        // needs: a sound day, one of its sources, and a buffer and a delay in range
        requires machine { IsDayMachine self.old }
        requires source { source < length self.old.media.now }
        requires asked { IsWithinRanges 1 buffer delay }
        // leaves: a sound day on the same link, in the same slot
        ensures machine { OnOk result (IsDayMachine self.new) }
        ensures kept { OnOk result (IsKept self.old self.new) }
        ensures heard { OnOk result (self.new.heard ≡ self.old.heard) }
        // answers: what the definition of a `play` line says
        ensures line { IfOk result (λ told.
            IsPlayLine (link_on self.old) client (rest_at (link_on self.old) source buffer delay)
            (day_state_of self.old) (day_state_of self.new)
            (reply_text self.new.book.entries told)) }
    {
        if self.clients[client as usize].is_busy() {
            return Ok(LineAnswer::State);
        }
        match whole_of(
            medium_at(self.media, source),
            self.slot_units,
            buffer,
            delay,
        ) {
            Some(rest) => self.ask(alloc, client, rest),
            None => Ok(LineAnswer::Fault(CurveFault::NoPictures)),
        }
    }

    /// A client asks to go on where it was paused.
    pub(crate) fn resume(&mut self, alloc: Global, client: u8) -> Result<LineAnswer, NoMemory>
        requires machine { IsDayMachine self.old }
        ensures machine { OnOk result (IsDayMachine self.new) }
        ensures kept { OnOk result (IsKept self.old self.new) }
        ensures heard { OnOk result (self.new.heard ≡ self.old.heard) }
        ensures line { IfOk result (λ told.
            IsResumeLine (link_on self.old) client (state_at (day_state_of self.old) client)
            (day_state_of self.old) (day_state_of self.new)
            (reply_text self.new.book.entries told)) }
    {
        // A resume is a new play of what is left, with a new plan. So it can be refused as any
        // play.
        match self.clients[client as usize].rest_left() {
            Some(rest) => self.ask(alloc, client, rest),
            None => Ok(LineAnswer::State),
        }
    }

    /// A client that plays nothing asks for a rest.
    fn ask(&mut self, alloc: Global, client: u8, rest: Rest<'r>) -> Result<LineAnswer, NoMemory>
        requires machine { IsDayMachine self.old }
        requires rest { IsRest rest }
        ensures machine { OnOk result (IsDayMachine self.new) }
        ensures kept { OnOk result (IsKept self.old self.new) }
        ensures heard { OnOk result (self.new.heard ≡ self.old.heard) }
        ensures asked { IfOk result (λ told.
            IsAsked (link_on self.old) client (rest_of rest.entry)
            (day_state_of self.old) (day_state_of self.new)
            (reply_text self.new.book.entries told)) }
    {
        match plan_of(alloc, rest.medium, &rest.playback, &rest.run) {
            Ok(plan) => {
                // The book takes the plan, and the client needs it to send and to pause. The copies
                // are made before the play is booked: out of memory after that, a booking would
                // stay behind.
                let paced = plan.copy()?;
                let kept = plan.copy()?;
                Ok(self.book_play(client, rest, plan, kept, paced))
            }
            Err(CurveRefused::Fault(fault)) => Ok(LineAnswer::Fault(fault)),
            Err(CurveRefused::NoMemory) => Err(NoMemory),
        }
    }

    /// Asks the book for a play, which begins where it is admitted.
    fn book_play(
        &mut self,
        client: u8,
        rest: Rest<'r>,
        plan: Plan,
        kept: Plan,
        paced: Plan,
    ) -> LineAnswer
        // needs: a plan of what the client asks for, once each for book, note and sender
        requires machine { IsDayMachine self.old }
        requires rest { IsRest rest }
        requires plan { IsPlanFor rest plan }
        requires kept { kept ≡ plan }
        requires paced { paced ≡ plan }
        // leaves: a machine that keeps its invariant, at the same slot
        ensures machine { IsDayMachine self.new }
        ensures kept { IsKept self.old self.new }
        ensures heard { self.new.heard ≡ self.old.heard }
        // answers: as the book does
        ensures planned { IsPlanned (link_on self.old) client (rest_of rest.entry)
            (day_state_of self.old) (day_state_of self.new) (reply_text self.new.book.entries
            result) }
    {
        match self.book.play(u32::from(client), self.heard, plan) {
            Ok(noted) => {
                if let Some(start) = start_of(noted.answer) {
                    // Only where it was admitted: after an overflow the client stays as it was.
                    let play = begin_play(noted.place, rest, kept, paced, start);
                    self.clients[client as usize] = Client::Playing(play);
                }
                LineAnswer::Entry(noted.place)
            }
            Err(refused) => LineAnswer::Full(refused.full),
        }
    }

    /// A client pauses.
    pub(crate) fn pause(&mut self, client: u8) -> LineAnswer
        requires machine { IsDayMachine self.old }
        ensures machine { IsDayMachine self.new }
        ensures kept { IsKept self.old self.new }
        ensures heard { self.new.heard ≡ self.old.heard }
        ensures line { IsPauseLine (link_on self.old) client (state_at (day_state_of self.old)
            client)
            (day_state_of self.old) (day_state_of self.new) (reply_text self.new.book.entries
            result) }
    {
        match self.clients[client as usize].pause() {
            Some(halt) => {
                // At once: the rest of the reservation is free for others from this slot on.
                let noted = self.book.halt(u32::from(client), halt.number, halt.keep);
                LineAnswer::Entry(noted.place)
            }
            None => LineAnswer::State,
        }
    }

    /// A look at a slot.
    pub(crate) fn look(&mut self, slot: u64) -> LineAnswer
        requires machine { IsDayMachine self.old }
        ensures machine { IsDayMachine self.new }
        ensures kept { IsKept self.old self.new }
        ensures heard { self.new.heard ≡ self.old.heard }
        ensures line { IsLookLine (link_on self.old) (min slot LATEST_SLOT)
            (day_state_of self.old) (day_state_of self.new) (reply_text self.new.book.entries
            result) }
    {
        // An entry needs a maker, and a `look` line names no client: 0 stands for it.
        match self.book.look(0, slot) {
            Ok(noted) => LineAnswer::Entry(noted.place),
            Err(full) => LineAnswer::Full(full),
        }
    }

    /// The earliest start of a source within a wait, or the fault of its curves.
    pub(crate) fn offer(
        &self,
        alloc: Global,
        source: usize,
        buffer: u64,
        delay: u64,
        wait: u64,
    ) -> Result<Offers, CurveRefused>
        requires machine { IsDayMachine self.now }
        requires source { source < length self.now.media.now }
        requires asked { IsWithinRanges 1 buffer delay }
        requires wait { wait ≤ MAX_WAIT }
        ensures { IfSaid result
            (IsOfferLine (link_on self.now) (rest_at (link_on self.now) source buffer delay) wait
            (day_state_of self.now) (day_state_of self.now)) }
    {
        let Some(rest) = whole_of(
            medium_at(self.media, source),
            self.slot_units,
            buffer,
            delay,
        ) else {
            return Err(CurveRefused::Fault(CurveFault::NoPictures));
        };
        let plan = plan_of(alloc, rest.medium, &rest.playback, &rest.run)?;
        let Ok(mut offers) = Offers::new(alloc, wait) else {
            return Err(CurveRefused::NoMemory);
        };
        // From the start that a play would get which is asked for in this slot: the slot after it,
        // so that its first bytes have a complete slot. The book is only read: an offer reserves
        // nothing.
        let calendar = self.book.calendar();
        offers.find(calendar, &plan, calendar.now().max(self.heard) + 1);
        Ok(offers)
    }

    /// The link comes to a slot: what is due is sent, and plays that are done are halted.
    pub(crate) fn slot(&mut self, slot: u64) -> SlotTotals
        // needs: a sound day, and a later slot
        requires machine { IsDayMachine self.old }
        requires later { self.old.heard < slot }
        requires small { slot ≤ LATEST_SLOT }
        // leaves: a sound day on the same link, in that slot
        ensures machine { IsDayMachine self.new }
        ensures kept { IsKept self.old self.new }
        ensures heard { self.new.heard ≡ slot }
        ensures moment { day_state_of self.new ≡ at_slot (day_state_of self.old) slot }
        // answers: what was sent and booked in the slots that passed, also in those between
        ensures sent { result.sent ≡ sent_up_to (day_state_of self.old) slot }
        ensures booked { result.booked ≡ booked_up_to (day_state_of self.old) slot }
        ensures peak { result.peak ≡ most_up_to (day_state_of self.old) slot }
        ensures few { result.booked ≤ (slot - self.old.heard) * MAX_BYTES }
    {
        let sent = step_clients(&mut self.clients, slot);
        // Read here: a later play moves the calendar on, and it then forgets the slots that passed.
        let (booked, peak) = booked_between(&self.book, self.heard, slot);
        self.heard = slot;
        // As a server does after the last byte of a play: its client can play again from here on.
        halt_plays(&mut self.book, &mut self.clients, HaltedPlays::Done);
        SlotTotals { sent, booked, peak }
    }

    /// The day ends: open plays are halted at what is due.
    pub(crate) fn end(&mut self)
        requires { IsDayMachine self.old }
        ensures kept { IsKept self.old self.new }
        ensures journal { self.new.book.entries ≡ last_journal (day_state_of self.old) }
    {
        // So each admitted play has its halt, also one that the script left open.
        halt_plays(&mut self.book, &mut self.clients, HaltedPlays::Open);
    }

    /// The entries of its journal.
    pub(crate) fn into_entries(self) -> Vec<Entry>
        ensures value { result.items ≡ self.entry.book.entries }
        ensures legal { IsLegal self.entry.book.steps self.entry.book.entries }
        ensures within { places_taken self.entry.book.entries ≤ self.entry.book.limit }
        ensures few { self.entry.book.limit ≤ MAX_ENTRIES }
    {
        let DayMachine {
            media: _,
            slot_units: _,
            book,
            clients: _,
            heard: _,
        } = self;
        book.into_entries()
    }
}
