//! What a session notes for the connection's report: the station's answers, the plays and the
//! offers.

ghost use Rattle.std.specs.Prelude.{◌≡◌, ◌+◌, ◌-◌, ◌≤◌, ◌++◌, [], ◌∷◌, IfOk, OnOk, IsOk, None};
ghost use Rattle.session_records.specs.RecordLists.{IsSameLists};

use crate::notes::{Notes, OfferNote, PlayNote, Receipt};
use early_start::{MAX_WAIT, Offers};
use plan_cert::Plan;
use std::alloc::Global;
use std::marker::Model;
use vod_base::NoMemory;

/// Receipts and notes, with the room that is reserved for more. Contracts see the three lists and
/// how many more each has room for.
#[derive(Debug, Drop)]
pub struct Records {
    /// The station's answers.
    receipts: Vec<Receipt>,
    /// The plays that were admitted and are halted.
    plays: Vec<PlayNote>,
    /// The offers.
    offers: Vec<OfferNote>,
}

impl Model for Records {
    ghost use Rattle.std.specs.Prelude.{◌-◌, vec_capacity, vec_len};
    ghost use Rattle.session_records.specs.RecordLists.{SessionRecords};

    ghost Value = { SessionRecords };

    ghost view = { λ log. record {
      receipts = log.receipts.items;
      plays = log.plays.items;
      offers = log.offers.items;
      receipt_room = vec_capacity log.receipts - vec_len log.receipts;
      play_room = vec_capacity log.plays - vec_len log.plays;
      offer_room = vec_capacity log.offers - vec_len log.offers;
    } };
}

/// The looks for whose receipts a session has room from the beginning: 1,024, of its own choice.
pub const RESERVED_LOOKS: usize = 1_024;

impl Records {
    /// Returns empty lists, with room for [`RESERVED_LOOKS`] receipts.
    ///
    /// # Errors
    ///
    /// [`NoMemory`] where memory runs out.
    pub fn new(alloc: Global) -> Result<Records, NoMemory>
        ensures { IfOk result (λ log. log ≡ record {
          receipts = [];
          plays = [];
          offers = [];
          receipt_room = RESERVED_LOOKS;
          play_room = log.play_room;
          offer_room = log.offer_room;
        }) }
    {
        let receipts = Vec::with_capacity(alloc, RESERVED_LOOKS)?;
        Ok(Records {
            receipts,
            // These two take memory only when a play or an offer is asked for.
            plays: Vec::new(alloc),
            offers: Vec::new(alloc),
        })
    }

    /// Makes room for `count` more receipts.
    ///
    /// # Errors
    ///
    /// [`NoMemory`], never where there is room already. The lists are as they were.
    pub fn reserve_receipts(&mut self, count: usize) -> Result<(), NoMemory>
        ensures lists { IsSameLists self.old self.new }
        ensures room { OnOk result (count ≤ self.new.receipt_room) }
        ensures more { self.old.receipt_room ≤ self.new.receipt_room }
        ensures enough { count ≤ self.old.receipt_room → IsOk result }
        ensures others { (self.new.play_room ≡ self.old.play_room)
            × (self.new.offer_room ≡ self.old.offer_room) }
    {
        self.receipts.reserve(count)?;
        Ok(())
    }

    /// Makes room for one more play.
    fn reserve_play(&mut self) -> Result<(), NoMemory>
        ensures lists { IsSameLists self.old self.new }
        ensures room { OnOk result (1 ≤ self.new.play_room) }
        ensures more { self.old.play_room ≤ self.new.play_room }
        ensures others { (self.new.receipt_room ≡ self.old.receipt_room)
            × (self.new.offer_room ≡ self.old.offer_room) }
    {
        self.plays.reserve(1)?;
        Ok(())
    }

    /// Makes room for the receipts of so many looks, and for the two receipts and the note of a
    /// play.
    fn reserve_for_play(&mut self, looks: usize) -> Result<(), NoMemory>
        requires { looks ≤ RESERVED_LOOKS }
        ensures lists { IsSameLists self.old self.new }
        ensures room { OnOk result (looks + 2 ≤ self.new.receipt_room) }
        ensures plays { OnOk result (1 ≤ self.new.play_room) }
        ensures more { (self.old.receipt_room ≤ self.new.receipt_room)
            × (self.old.play_room ≤ self.new.play_room) }
        ensures others { self.new.offer_room ≡ self.old.offer_room }
    {
        // Two receipts: for the admission and for the halt. A halt must find its place at any time.
        self.reserve_receipts(looks + 2)?;
        self.reserve_play()
    }

    /// Makes room for one more offer.
    fn reserve_offer(&mut self) -> Result<(), NoMemory>
        ensures lists { IsSameLists self.old self.new }
        ensures room { OnOk result (1 ≤ self.new.offer_room) }
        ensures more { self.old.offer_room ≤ self.new.offer_room }
        ensures others { (self.new.receipt_room ≡ self.old.receipt_room)
            × (self.new.play_room ≡ self.old.play_room) }
    {
        self.offers.reserve(1)?;
        Ok(())
    }

    /// Makes room for the note of a play, its two receipts, and those of `looks` looks, at most
    /// [`RESERVED_LOOKS`]. Returns two copies of the play's plan.
    ///
    /// # Errors
    ///
    /// [`NoMemory`] where memory runs out. The lists are as they were; room may have been added.
    pub fn plans_with_room(&mut self, looks: usize, plan: &Plan) -> Result<(Plan, Plan), NoMemory>
        // needs: at most as many looks as have room from the beginning
        requires { looks ≤ RESERVED_LOOKS }
        // leaves: the same lists, and room for the play that is never less than before
        ensures lists { IsSameLists self.old self.new }
        ensures room { OnOk result (looks + 2 ≤ self.new.receipt_room) }
        ensures plays { OnOk result (1 ≤ self.new.play_room) }
        ensures more { (self.old.receipt_room ≤ self.new.receipt_room)
            × (self.old.play_room ≤ self.new.play_room) }
        ensures others { self.new.offer_room ≡ self.old.offer_room }
        // answers: the plan twice, for the note and for what sends it
        ensures own { IfOk result (λ both. both.0 ≡ plan.now) }
        ensures paced { IfOk result (λ both. both.1 ≡ plan.now) }
    {
        self.reserve_for_play(looks)?;
        let own = plan.copy()?;
        let paced = plan.copy()?;
        Ok((own, paced))
    }

    /// Makes room for the note of an offer. Returns an offer of this wait, in slots (at most
    /// [`MAX_WAIT`]), for which no start was tried.
    ///
    /// # Errors
    ///
    /// [`NoMemory`] where memory runs out. The lists are as they were.
    pub fn offers_with_room(&mut self, alloc: Global, wait: u64) -> Result<Offers, NoMemory>
        // needs: a wait that an offer may have
        requires { wait ≤ MAX_WAIT }
        // leaves: the same lists, and room for the offer that is never less than before
        ensures lists { IsSameLists self.old self.new }
        ensures room { OnOk result (1 ≤ self.new.offer_room) }
        ensures more { self.old.offer_room ≤ self.new.offer_room }
        ensures others { (self.new.receipt_room ≡ self.old.receipt_room)
            × (self.new.play_room ≡ self.old.play_room) }
        // answers: an offer with that wait, before its first start
        ensures wait { IfOk result (λ offers. offers.wait ≡ wait) }
        ensures start { IfOk result (λ offers. offers.start ≡ None) }
        ensures tried { IfOk result (λ offers. offers.tried ≡ []) }
    {
        let offers = Offers::new(alloc, wait)?;
        self.reserve_offer()?;
        Ok(offers)
    }

    /// Puts a receipt at the end of its list, which has room for it.
    pub fn note(&mut self, receipt: Receipt)
        requires { 1 ≤ self.old.receipt_room }
        ensures { self.new ≡ record self.old {
          receipts = self.old.receipts ++ receipt ∷ [];
          receipt_room = self.old.receipt_room - 1;
        } }
    {
        // No error: the request for this receipt reserved its room before the station was asked.
        self.receipts.push_reserved(receipt);
    }

    /// Puts a play at the end of its list, which has room for it.
    pub fn note_play(&mut self, play: PlayNote)
        requires { 1 ≤ self.old.play_room }
        ensures { self.new ≡ record self.old {
          plays = self.old.plays ++ play ∷ [];
          play_room = self.old.play_room - 1;
        } }
    {
        self.plays.push_reserved(play);
    }

    /// Puts an offer at the end of its list, which has room for it.
    pub fn note_offer(&mut self, offer: OfferNote)
        requires { 1 ≤ self.old.offer_room }
        ensures { self.new ≡ record self.old {
          offers = self.old.offers ++ offer ∷ [];
          offer_room = self.old.offer_room - 1;
        } }
    {
        self.offers.push_reserved(offer);
    }

    /// Returns the lists, with the number of slots that were missed.
    pub fn into_notes(self, late: u64) -> Notes
        ensures receipts { result.receipts.items ≡ self.receipts }
        ensures plays { result.plays.items ≡ self.plays }
        ensures offers { result.offers.items ≡ self.offers }
        ensures late { result.late ≡ late }
    {
        Notes {
            receipts: self.receipts,
            plays: self.plays,
            late,
            offers: self.offers,
        }
    }
}
