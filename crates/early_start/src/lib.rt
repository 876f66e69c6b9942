//! The earliest start of a plan on a shared link: from which slot on, within a wait, the plan fits
//! into the link's calendar, with the first slot without room for each earlier start.
#![tactic(auto)]

ghost use Rattle.std.specs.Prelude.{◌≡◌, ◌+◌, ◌^◌, ◌<◌, ◌≤◌, None, [], IfOk, length, vec_capacity};
ghost use Rattle.early_start.specs.StartSearch.{AreRefusalsIn, IsOfferIn, IsStartIn};

pub mod laws;

use plan_cert::Plan;
use slot_calendar::{Calendar, Overflow};
use std::alloc::Global;
use std::marker::Model;
use vod_base::{LATEST_SLOT, NoMemory};

/// A start at which the plan doesn't fit.
#[derive(Clone, Copy, Debug, PartialEq, Eq)]
pub struct Tried {
    /// The slot at which the plan would begin.
    pub start: u64,
    /// The first slot without room.
    pub over: Overflow,
}

/// The starts from which a plan was tried, and the one that was found.
///
/// Contracts see the wait, the start, and the list of the starts at which the plan doesn't fit.
#[derive(Debug, Drop)]
pub struct Offers {
    wait: u64,
    start: Option<u64>,
    tried: Vec<Tried>,
}

impl Model for Offers {
    ghost use Rattle.early_start.specs.StartSearch.{Offers};
    ghost use Rattle.early_start.specs.OffersInvariant.{offers_state, AreOffersKept};

    ghost Value = { Offers };

    ghost view = { offers_state };

    ghost invariant = { AreOffersKept };
}

/// The most slots that a play may start later than the first one.
pub const MAX_WAIT: u64 = 255;

impl Offers {
    /// Reserves room for all starts up to `wait` slots later than the first, at most [`MAX_WAIT`];
    /// no other call takes memory.
    ///
    /// # Errors
    ///
    /// [`NoMemory`] where there is none for them.
    pub fn new(alloc: Global, wait: u64) -> Result<Offers, NoMemory>
        requires { wait ≤ MAX_WAIT }
        ensures wait { IfOk result (λ offers. offers.wait ≡ wait) }
        ensures start { IfOk result (λ offers. offers.start ≡ None) }
        ensures tried { IfOk result (λ offers. offers.tried ≡ []) }
    {
        // The first start and `wait` later ones. Where the plan fits at none, all of them are
        // noted.
        let tried = Vec::with_capacity(alloc, wait as usize + 1)?;
        Ok(Offers {
            wait,
            start: None,
            tried,
        })
    }

    /// Returns how many slots later than the first one the plan may start.
    pub fn wait(&self) -> u64
        ensures value { result ≡ self.now.wait }
        ensures most { result ≤ MAX_WAIT }
    {
        self.wait
    }

    /// Returns the least start that was found, or None where the plan fits at none.
    pub fn start(&self) -> Option<u64>
        ensures { result ≡ self.now.start }
    {
        self.start
    }

    /// Returns the starts before it, at which the plan doesn't fit, in order; all of them where
    /// there is none. At most `wait() + 1` starts.
    pub fn tried(&self) -> &[Tried]
        ensures value { result.now ≡ self.now.tried }
        ensures few { length result.now ≤ self.now.wait + 1 }
    {
        self.tried.as_slice()
    }

    /// Finds the least start from `first` to `first + wait` where the plan fits into every slot of
    /// the calendar, in place of what was found before. It books nothing and takes no memory.
    ///
    /// `first` is after the calendar's now, and at most 2^62 + 1.
    pub fn find(&mut self, calendar: &Calendar, plan: &Plan, first: u64)
        requires after { calendar.now.first < first }
        requires small { first ≤ LATEST_SLOT + 1 }
        ensures wait { self.new.wait ≡ self.old.wait }
        ensures offer { IsOfferIn calendar.now plan.now first self.new }
    {
        // The answer is for this calendar alone, so what was found before is dropped.
        self.tried.clear();
        self.start = search(calendar, plan, first, self.wait, &mut self.tried);
    }
}

/// Tries the starts from `first` on, up to `wait` slots later, until the plan fits.
fn search(
    calendar: &Calendar,
    plan: &Plan,
    first: u64,
    wait: u64,
    tried: &mut Vec<Tried>,
) -> Option<u64>
    // needs: a first start after now, and room for all starts that may be tried
    requires after { calendar.now.first < first }
    requires small { first ≤ LATEST_SLOT + 1 }
    requires wait { wait ≤ MAX_WAIT }
    requires empty { tried.old.items ≡ [] }
    requires room { wait + 1 ≤ vec_capacity tried.old }
    // answers: the first start that fits, or None; each start before it with its overflow
    ensures refusals { AreRefusalsIn calendar.now plan.now first tried.new.items }
    ensures start { IsStartIn calendar.now plan.now first wait (length tried.new.items) result }
    ensures room { vec_capacity tried.old ≤ vec_capacity tried.new }
{
    // In the order of the starts, so the first one that fits is the earliest.
    for later in 0..wait + 1 {
        let start = first + later;
        let Some(over) = calendar.first_overflow(start, plan) else {
            return Some(start);
        };
        tried.push_reserved(Tried { start, over });
    }
    None
}

#[cfg(test)]
mod tests;
