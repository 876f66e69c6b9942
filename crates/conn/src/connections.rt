//! A connection as it goes on: its input, its session, and the booking that is open for it.

ghost use Rattle.std.specs.Prelude.{◌≡◌, ◌≤◌, Ok, false, None, [], drop, take};
ghost use Rattle.std.specs.Prelude.{length as list_length, IfOk, OnOk, OnErr, Some};
ghost use Rattle.vod_base.specs.Links.{IsWithin, io_event_of};
ghost use Rattle.interleave.specs.Elements.{IsFirst, IsMessageLength};
ghost use Rattle.interleave.specs.declared.elements.Step.TheVariants.{Request};
ghost use Rattle.session.specs.SessionStates.{AreFilms, AreSettings, CanKeep, AwaitsNoAnswer};
ghost use Rattle.session.specs.SessionStates.{IsHalt, PlayAnswer, LookAnswer, OfferAnswer};
ghost use Rattle.session.specs.SessionStates.{awaited_answer, open_of};
ghost use Rattle.conn.specs.ReservationInvariant.{IsHeld, IsQuiet, KeepsReservations};
ghost use Rattle.conn.specs.Observations.{HasAnswered, HasAsked, HasFailedSend, HasHandledEvent};
ghost use Rattle.conn.specs.Observations.{HasTakenSlot, HasProcessedInput, TakesNext, observed};
ghost use Rattle.session.specs.declared.commands.Ask.{Ask};
ghost use Rattle.conn.specs.ConnectionService.{HasClosed};
ghost use Rattle.session.specs.RequestSteps.{new_session_state};
ghost use Rattle.conn.specs.Events.{CutsOn, HasCounted, HasTakenEvent, IsEndOf, IsTaken};
ghost use Rattle.conn.specs.Events.{IsProcessed, IsWaiting, end_in, with_heard};
ghost use Rattle.vod_base.specs.IoState.{HasRisen};

use crate::play_answers::{drop_none, hear_refusal, hold};
use crate::reports::ConnEnd;
use early_start::Offers;
use film_frames::Stored;
use interleave::laws::law_waiting_bytes_are_bounded;
use interleave::{Demux, DemuxFault, Step};
use plan_cert::Plan;
use session::{Ask, Notes, Session, Settings, Slotted};
use station::{Booking, Seat, Station};
use std::alloc::Global;
use std::mem;
use std::sync::Wait;
use vod_base::{Heard, Link, LinkFault, MAX_READ_BYTES, NoMemory};

/// A connection between two events.
pub(crate) struct Connection<'a> {
    /// What its requests and slots come to.
    session: Session<'a>,
    /// The bytes that came and weren't processed.
    input: Demux,
    /// The booking of the play that is sent.
    booking: Option<Booking>,
}

impl<'a> Connection<'a> {
    /// Makes a connection before its first event.
    pub(crate) fn new(
        alloc: Global,
        films: &'a [Stored],
        settings: &Settings,
        words: [u32; 5],
    ) -> Result<Connection<'a>, NoMemory>
        // needs: settings and films within their ranges
        requires settings { AreSettings settings.now }
        requires films { AreFilms films.now }
        // answers: nothing has arrived, is booked, waits or failed
        ensures input { IfOk result (λ connection. connection.input ≡ []) }
        ensures waiting { IfOk result IsWaiting }
        ensures exact { IfOk result
            (λ connection. connection.session ≡ new_session_state films.now settings.now words) }
        ensures booking { IfOk result (λ connection. connection.booking ≡ None) }
        ensures session { IfOk result (λ connection. AwaitsNoAnswer connection.session) }
        ensures open { IfOk result (λ connection. open_of connection.session ≡ None) }
        ensures receipts { IfOk result (λ connection. connection.session.receipts ≡ []) }
        ensures waits { IfOk result (λ connection. connection.session.waits ≡ false) }
        ensures torn { IfOk result (λ connection. connection.session.torn ≡ false) }
        ensures lost { IfOk result (λ connection. connection.session.lost ≡ false) }
    {
        let input = Demux::new(alloc)?;
        let session = Session::new(alloc, films, *settings, words)?;
        Ok(Connection {
            session,
            input,
            booking: None,
        })
    }

    /// Processes an event, and returns how it ended the connection, if it did. The bytes that
    /// arrived are at the start of `bytes`.
    #[tactic(auto, using(crate::proofs::SharedLemmas::count_steps))]
    pub(crate) fn hear<R: Wait, K: Link>(
        &mut self,
        rt: &R,
        station: &Station,
        seat: &mut Seat,
        link: &mut K,
        heard: Heard,
        bytes: &[u8],
    ) -> Option<ConnEnd>
        // needs: its seat, and that it goes on: nothing is torn down, and no call failed
        requires seat { seat.old.id ≡ station.now.id }
        requires quiet { IsQuiet seat.old.mine self.old }
        requires torn { self.old.session.torn ≡ false }
        requires heard { IsWithin heard (list_length bytes.now) }
        requires few { list_length bytes.now ≤ MAX_READ_BYTES }
        requires waiting { IsWaiting self.old }
        requires lost { self.old.session.lost ≡ false }
        // leaves: the booking held, what was sent, the rest of the input, and the count of faults
        ensures kept { KeepsReservations seat.old seat.new self.old self.new }
        ensures comes { HasHandledEvent result (io_event_of heard bytes.now)
            (observed self.old (K.told link.old) seat.old)
            (observed self.new (K.told link.new) seat.new) }
        ensures cut { CutsOn (with_heard self.old.input heard bytes.now) self.new.input }
        ensures taken { HasTakenEvent heard (list_length self.old.input) result self.new }
        ensures counted { HasCounted result (K.faults link.old) (K.faults link.new) }
    {
        match heard {
            // No booking is lost here: `close` halts it, whatever ended the connection.
            Heard::End => Some(ConnEnd::Ended),
            Heard::Bytes(count) => {
                // An incomplete request leaves room for one more read. So there is too much only
                // while a reply waits, for which the requests behind it have to wait.
                law_waiting_bytes_are_bounded(&self.input);
                if self.input.put(&bytes[..count]).is_err() {
                    return Some(ConnEnd::TooMuchInput);
                }
                self.process_input(rt, station, seat, link)
            }
            Heard::Slot(slot) => {
                // The slot may bring the end of a reply's wait, so the requests that waited for it
                // are processed after it.
                if self.step(rt, station, seat, link, slot).is_err() {
                    return Some(ConnEnd::LinkFault);
                }
                self.process_input(rt, station, seat, link)
            }
        }
    }

    /// Processes a slot: what is due is sent, a waiting reply goes out, and a play that is done is
    /// halted.
    #[tactic(auto, using(crate::proofs::SharedLemmas::slot_steps))]
    fn step<R: Wait, K: Link>(
        &mut self,
        rt: &R,
        station: &Station,
        seat: &mut Seat,
        link: &mut K,
        slot: u64,
    ) -> Result<(), LinkFault>
        // needs: a seat of this station; the session rests, and no call of the link has failed
        requires seat { seat.old.id ≡ station.now.id }
        requires quiet { IsQuiet seat.old.mine self.old }
        requires lost { self.old.session.lost ≡ false }
        // answers: the slot was taken as a whole, or a send failed; the seat holds what is open
        ensures kept { KeepsReservations seat.old seat.new self.old self.new }
        ensures passed { OnOk result (HasTakenSlot
            (observed self.old (K.told link.old) seat.old)
            (observed self.new (K.told link.new) seat.new) slot) }
        ensures broken { OnErr result (HasFailedSend
            (observed self.old (K.told link.old) seat.old)
            (observed self.new (K.told link.new) seat.new) slot) }
        // leaves: the input, and the link without a failure if it answers Ok
        ensures input { self.new.input ≡ self.old.input }
        ensures lost { OnOk result (self.new.session.lost ≡ false) }
        // fails: only where the link counted a fault
        ensures count { K.faults link.old ≤ K.faults link.new }
        ensures fault { OnErr result (HasRisen (K.faults link.old) (K.faults link.new)) }
    {
        match self.session.slot(slot, link)? {
            Slotted::Going => {}
            Slotted::Finished(keep) => self.halt(rt, station, seat, keep),
        }
        Ok(())
    }

    /// Processes what waits, and returns how it ended the connection, if it did.
    #[tactic(auto, using(crate::proofs::SharedLemmas::count_steps))]
    fn process_input<R: Wait, K: Link>(
        &mut self,
        rt: &R,
        station: &Station,
        seat: &mut Seat,
        link: &mut K,
    ) -> Option<ConnEnd>
        // needs: a seat of this station; the session rests, and no call of the link has failed
        requires seat { seat.old.id ≡ station.now.id }
        requires quiet { IsQuiet seat.old.mine self.old }
        requires lost { self.old.session.lost ≡ false }
        // answers: each complete element was processed, up to one that has to wait or that ends
        ensures kept { KeepsReservations seat.old seat.new self.old self.new }
        ensures up { HasProcessedInput result
            (observed self.old (K.told link.old) seat.old)
            (observed self.new (K.told link.new) seat.new) }
        // leaves: the rest of the input; a link fault is the end only where the link counted one
        ensures cut { CutsOn self.old.input self.new.input }
        ensures taken { IsProcessed result self.new }
        ensures counted { HasCounted result (K.faults link.old) (K.faults link.new) }
    {
        'elements: loop {
            match self.process_next(rt, station, seat, link) {
                InputProgress::Gone => {}
                InputProgress::Waits => return None,
                InputProgress::End(end) => return Some(end),
            }
        }
    }

    /// Processes the first element that waits. A request is processed only where no reply waits,
    /// and none is once a TEARDOWN was answered 200.
    #[tactic(auto, using(crate::proofs::SharedLemmas::count_steps))]
    fn process_next<R: Wait, K: Link>(
        &mut self,
        rt: &R,
        station: &Station,
        seat: &mut Seat,
        link: &mut K,
    ) -> InputProgress
        // needs: a seat of this station; the session rests, and no call of the link has failed
        requires seat { seat.old.id ≡ station.now.id }
        requires quiet { IsQuiet seat.old.mine self.old }
        requires lost { self.old.session.lost ≡ false }
        // answers: the first element was processed, has to wait, or ends the connection
        ensures kept { KeepsReservations seat.old seat.new self.old self.new }
        ensures takes { TakesNext result
            (observed self.old (K.told link.old) seat.old)
            (observed self.new (K.told link.new) seat.new) }
        // leaves: the rest of the input; a link fault is the end only where the link counted one
        ensures cut { CutsOn self.old.input self.new.input }
        ensures taken { IsTaken result (list_length self.old.input) self.new }
        ensures counted { HasCounted (end_in result) (K.faults link.old) (K.faults link.new) }
    {
        // One session a connection: with the reply to TEARDOWN both end, and the rest isn't read.
        if self.session.torn() {
            return InputProgress::End(ConnEnd::TornDown);
        }
        match self.input.look() {
            // Where the next request begins can't be known any more, so the connection ends, also
            // while a reply waits.
            Err(fault) => InputProgress::End(end_of(fault)),
            Ok(Step::More) => InputProgress::Waits,
            // RFC 2068 section 4.1: empty lines before a request are passed over.
            Ok(Step::Skip(count)) => {
                self.input.drop_front(count);
                InputProgress::Gone
            }
            // The client's RTCP is ignored: what is sent follows from requests and slots alone.
            Ok(Step::Block(_, count)) => {
                self.input.drop_front(count);
                InputProgress::Gone
            }
            Ok(Step::Request(length)) => self.process_request(rt, station, seat, link, length),
        }
    }

    /// Processes the first request that waits, which has this length, unless a reply waits, and
    /// sends its reply where it can go out.
    #[tactic(auto, using(crate::proofs::SharedLemmas::count_steps))]
    fn process_request<R: Wait, K: Link>(
        &mut self,
        rt: &R,
        station: &Station,
        seat: &mut Seat,
        link: &mut K,
        length: usize,
    ) -> InputProgress
        // needs: as for any element, and this request first in the input
        requires seat { seat.old.id ≡ station.now.id }
        requires quiet { IsQuiet seat.old.mine self.old }
        requires torn { self.old.session.torn ≡ false }
        requires lost { self.old.session.lost ≡ false }
        requires first { IsFirst self.old.input (Ok (Request length)) }
        // answers: the request was processed, has to wait, or ends the connection
        ensures kept { KeepsReservations seat.old seat.new self.old self.new }
        ensures takes { TakesNext result
            (observed self.old (K.told link.old) seat.old)
            (observed self.new (K.told link.new) seat.new) }
        // leaves: the rest of the input; a link fault is the end only where the link counted one
        ensures cut { CutsOn self.old.input self.new.input }
        ensures taken { IsTaken result (list_length self.old.input) self.new }
        ensures counted { HasCounted (end_in result) (K.faults link.old) (K.faults link.new) }
    {
        // One reply at a time: a client that sends without reading can't fill memory.
        if self.session.waits() {
            return InputProgress::Waits;
        }
        self.answer_request(rt, station, seat, length);
        // Sent at once where no frame is being sent; else the slots bring it out.
        match self.session.reply(link) {
            Ok(()) => InputProgress::Gone,
            Err(_) => InputProgress::End(ConnEnd::LinkFault),
        }
    }

    /// Hands the first request that waits, which has this length, to the session, and asks the
    /// station what the session asks for.
    fn answer_request<R: Wait>(&mut self, rt: &R, station: &Station, seat: &mut Seat, length: usize)
        // needs: a seat of this station; a session that rests and has no reply that waits;
        // a complete message first in the input
        requires seat { seat.old.id ≡ station.now.id }
        requires quiet { IsQuiet seat.old.mine self.old }
        requires waits { self.old.session.waits ≡ false }
        requires torn { self.old.session.torn ≡ false }
        requires whole { IsMessageLength self.old.input length }
        requires within { length ≤ list_length self.old.input }
        requires lost { self.old.session.lost ≡ false }
        // answers: the session and the station did what the request asks for
        ensures kept { KeepsReservations seat.old seat.new self.old self.new }
        ensures heard { HasAsked self.old.session (take length self.old.input) self.new.session
            seat.old seat.new }
        // leaves: the input behind the request, and the link as it was
        ensures input { self.new.input ≡ drop length self.old.input }
        ensures lost { self.new.session.lost ≡ self.old.session.lost }
    {
        let ask = self.session.hear(&self.input.waiting()[..length]);
        // The session has taken all that it needs of the request, so its bytes can go.
        self.input.drop_front(length);
        match ask {
            Ask::Reply => {}
            Ask::Play(plan) => self.play(rt, station, seat, plan),
            Ask::Halt(keep) => self.halt(rt, station, seat, keep),
            Ask::Look(slot) => self.look(rt, station, seat, slot),
            Ask::Offer(plan, offers) => self.offer(rt, station, seat, plan, offers),
        }
    }

    /// Asks the station for a play.
    fn play<R: Wait>(&mut self, rt: &R, station: &Station, seat: &mut Seat, plan: Plan)
        // needs: a seat of this station that holds what is open;
        // a session that asks for a play, and none is open
        requires seat { seat.old.id ≡ station.now.id }
        requires held { IsHeld seat.old.mine self.old.booking (open_of self.old.session) }
        requires asked { awaited_answer self.old.session ≡ PlayAnswer plan }
        requires closed { open_of self.old.session ≡ None }
        // answers: the session has the answer of the station
        ensures kept { KeepsReservations seat.old seat.new self.old self.new }
        ensures answered { HasAnswered self.old.session (Ask.Play plan) self.new.session
            seat.old seat.new }
        // leaves: the input as it was
        ensures input { self.new.input ≡ self.old.input }
        ensures lost { self.new.session.lost ≡ self.old.session.lost }
    {
        // It does nothing: its contract says of the seat what the proofs of the booking need.
        seat.holds();
        match station.play(rt, seat, self.session.heard_slot(), plan) {
            Ok(booking) => {
                self.session.admitted(booking.number(), booking.start());
                hold(&mut self.booking, booking);
            }
            Err(refused) => hear_refusal(&mut self.session, refused),
        }
    }

    /// Halts the open booking. So many bytes stay booked.
    fn halt<R: Wait>(&mut self, rt: &R, station: &Station, seat: &mut Seat, keep: u64)
        // needs: a seat of this station that holds what is open;
        // a session that asks for a halt of the open play that keeps as much
        requires seat { seat.old.id ≡ station.now.id }
        requires held { IsHeld seat.old.mine self.old.booking (open_of self.old.session) }
        requires asked { IsHalt (awaited_answer self.old.session) (open_of self.old.session) }
        requires keep { CanKeep (open_of self.old.session) keep }
        // answers: the session has the answer of the station
        ensures kept { KeepsReservations seat.old seat.new self.old self.new }
        ensures answered { HasAnswered self.old.session (Ask.Halt keep) self.new.session
            seat.old seat.new }
        // leaves: the input as it was; no play is open any more
        ensures input { self.new.input ≡ self.old.input }
        ensures open { open_of self.new.session ≡ None }
        ensures booking { self.new.booking ≡ None }
        ensures lost { self.new.session.lost ≡ self.old.session.lost }
    {
        seat.holds();
        // Moved out: the station takes it, so that no play is halted twice. There is one, since the
        // session asks for a halt only while a play is open.
        if let Some(booking) = mem::replace(&mut self.booking, None) {
            let place = station.halt(rt, seat, booking, keep);
            self.session.halted(place);
        }
    }

    /// Looks at a slot.
    #[tactic(auto, using(crate::proofs::ReservationSteps::held_at_look))]
    fn look<R: Wait>(&mut self, rt: &R, station: &Station, seat: &mut Seat, slot: u64)
        // needs: a seat of this station that holds what is open;
        // a session that asks for a look at this slot
        requires seat { seat.old.id ≡ station.now.id }
        requires held { IsHeld seat.old.mine self.old.booking (open_of self.old.session) }
        requires asked { awaited_answer self.old.session ≡ LookAnswer }
        requires slot { slot ≡ self.old.session.heard }
        // answers: the session has the answer of the station
        ensures kept { KeepsReservations seat.old seat.new self.old self.new }
        ensures answered { HasAnswered self.old.session (Ask.Look slot) self.new.session
            seat.old seat.new }
        // leaves: the input as it was
        ensures input { self.new.input ≡ self.old.input }
        ensures lost { self.new.session.lost ≡ self.old.session.lost }
    {
        seat.holds();
        match station.look(rt, seat, slot) {
            Ok(looked) => {
                self.session
                    .looked(looked.place, looked.now, looked.at, looked.booked)
            }
            Err(full) => self.session.full(full.entries, full.live),
        }
    }

    /// Asks from which slot on a plan fits.
    #[tactic(auto, using(crate::proofs::ReservationSteps::gone_still))]
    fn offer<R: Wait>(
        &mut self,
        rt: &R,
        station: &Station,
        seat: &mut Seat,
        plan: Plan,
        mut offers: Offers,
    )
        // needs: a seat of this station that holds what is open;
        // a session that asks for an offer
        requires seat { seat.old.id ≡ station.now.id }
        requires held { IsHeld seat.old.mine self.old.booking (open_of self.old.session) }
        requires asked { awaited_answer self.old.session ≡ OfferAnswer }
        // answers: the session has the answer of the station
        ensures kept { KeepsReservations seat.old seat.new self.old self.new }
        ensures answered { HasAnswered self.old.session (Ask.Offer plan offers) self.new.session
            seat.old seat.new }
        // leaves: the input as it was
        ensures input { self.new.input ≡ self.old.input }
        ensures lost { self.new.session.lost ≡ self.old.session.lost }
    {
        // The same slot as a PLAY would ask with, so that the offer says what that would get.
        let heard = self.session.heard_slot();
        let offered = station.offer(rt, seat, heard, &plan, &mut offers);
        self.session
            .offered(offered.seen, offered.first, plan, offers);
    }

    /// Ends the connection: an open booking is halted at what is due.
    #[tactic(auto, using(crate::proofs::SharedLemmas::close_steps))]
    pub(crate) fn close<R: Wait>(&mut self, rt: &R, station: &Station, seat: &mut Seat)
        requires seat { seat.old.id ≡ station.now.id }
        requires quiet { IsQuiet seat.old.mine self.old }
        ensures kept { KeepsReservations seat.old seat.new self.old self.new }
        ensures closed { HasClosed self.old.session self.new.session seat.old seat.new }
        ensures open { open_of self.new.session ≡ None }
        ensures booking { self.new.booking ≡ None }
    {
        // What was due may have been sent, so it stays booked. The rest is free for others. Without
        // this a disconnected client would leave its reservation behind.
        if let Some(due) = self.session.open_due() {
            self.halt(rt, station, seat, due);
        }
    }

    /// What a closed connection leaves for its report.
    pub(crate) fn notes(self) -> Notes
        // needs: a session that was closed: it awaits nothing, and has nothing open
        requires rest { AwaitsNoAnswer self.session }
        requires open { open_of self.session ≡ None }
        requires booking { self.booking ≡ None }
        // answers: what the session noted
        ensures receipts { result.receipts.items ≡ self.entry.session.receipts }
        ensures plays { result.plays.items ≡ self.entry.session.plays }
        ensures late { result.late ≡ self.entry.session.late }
        ensures offers { result.offers.items ≡ self.entry.session.offers }
    {
        let Connection {
            session,
            input: _input,
            booking,
        } = self;
        // `close` has halted any.
        drop_none(booking);
        session.notes()
    }
}

/// What came of the first element that waits.
pub(crate) enum InputProgress {
    /// It was processed and is gone.
    Gone,
    /// Nothing more can be processed: no complete element waits, or a request waits for a reply to
    /// be sent.
    Waits,
    /// The connection ended.
    End(ConnEnd),
}

/// How a framing fault ends a connection.
fn end_of(fault: DemuxFault) -> ConnEnd
    ensures { IsEndOf fault result }
{
    match fault {
        DemuxFault::HeadTooLong => ConnEnd::HeadTooLong,
        DemuxFault::BodyTooLong => ConnEnd::BodyTooLong,
    }
}
