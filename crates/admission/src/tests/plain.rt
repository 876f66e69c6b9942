//! A plain book for the tests: a list of plays, whose booked bytes are added up slot by slot, each
//! time anew.

use crate::entries::{Answer, Full, Noted};
use std::alloc::{AllocError, Global};

#[derive(Drop)]
pub(crate) struct Played {
    pub(crate) number: u64,
    start: u64,
    // the bytes sent through each slot of the plan
    sums: Vec<u64>,
    keep: u64,
    pub(crate) open: bool,
}

impl Played {
    pub(crate) fn bytes(&self) -> u64 {
        match self.sums.last() {
            Some(bytes) => *bytes,
            None => 0,
        }
    }

    // the bytes sent before a slot
    fn sum_before(&self, slot: u64) -> u64 {
        if slot <= self.start {
            return 0;
        }
        match self.sums.get((slot - self.start - 1) as usize) {
            Some(sum) => *sum,
            None => self.bytes(),
        }
    }

    // the bytes booked in a slot: what is kept of those sent through it, without those sent before
    // it
    fn share(&self, slot: u64) -> u64 {
        let sent = self.sum_before(slot.saturating_add(1)).min(self.keep);
        sent.saturating_sub(self.sum_before(slot).min(self.keep))
    }
}

/// The bytes that segments have sent through each slot.
fn sums_of(alloc: Global, pairs: &[(u64, u64)]) -> Result<Vec<u64>, AllocError> {
    let mut sums = Vec::new(alloc);
    let mut before = 0_u64;
    for (slots, bytes) in pairs {
        for passed in 0..*slots {
            let sent = (passed + 1).saturating_mul(*bytes) / (*slots).max(1);
            sums.push(before.saturating_add(sent))?;
        }
        before = before.saturating_add(*bytes);
    }
    Ok(sums)
}

#[derive(Drop)]
pub(crate) struct PlainBook<'a> {
    pub(crate) steps: &'a [(u64, u64)],
    pub(crate) limit: u64,
    pub(crate) entries: u64,
    pub(crate) now: u64,
    pub(crate) plays: Vec<Played>,
}

impl PlainBook<'_> {
    pub(crate) fn booked(&self, slot: u64) -> u64 {
        let mut total = 0_u64;
        for played in &self.plays {
            total = total.saturating_add(played.share(slot));
        }
        total
    }

    fn capacity(&self, slot: u64) -> u64 {
        let mut capacity = 0;
        for (from, bytes) in self.steps {
            if *from <= slot {
                capacity = *bytes;
            }
        }
        capacity
    }

    fn full(&self) -> Full {
        let mut live = 0_u64;
        for played in &self.plays {
            if played.open {
                live = live.saturating_add(1);
            }
        }
        Full {
            entries: self.entries,
            live,
        }
    }

    // The numbers, where `more` entries have no room.
    fn full_for(&self, more: u64) -> Option<Full> {
        let full = self.full();
        let taken = full.entries.saturating_add(full.live);
        if taken.saturating_add(more) > self.limit {
            Some(full)
        } else {
            None
        }
    }

    fn note(&mut self, answer: Answer) -> Noted {
        let place = self.entries;
        self.entries = place.saturating_add(1);
        Noted { place, answer }
    }

    fn overflow(&self, played: &Played) -> Option<Answer> {
        for passed in 0..played.sums.len() {
            let slot = played.start.saturating_add(passed as u64);
            let booked = self.booked(slot);
            let asked = played.share(slot);
            if booked.saturating_add(asked) > self.capacity(slot) {
                return Some(Answer::Overflow {
                    slot,
                    booked,
                    asked,
                });
            }
        }
        None
    }

    pub(crate) fn play(
        &mut self,
        alloc: Global,
        slot: u64,
        pairs: &[(u64, u64)],
    ) -> Result<Result<Noted, Full>, AllocError> {
        if let Some(full) = self.full_for(2) {
            return Ok(Err(full));
        }
        self.now = self.now.max(slot);
        let mut played = Played {
            number: self.entries,
            start: self.now.saturating_add(1),
            sums: sums_of(alloc, pairs)?,
            keep: u64::MAX,
            open: true,
        };
        played.keep = played.bytes();
        if let Some(answer) = self.overflow(&played) {
            return Ok(Ok(self.note(answer)));
        }
        let start = played.start;
        self.plays.push(played)?;
        Ok(Ok(self.note(Answer::Admitted { start })))
    }

    pub(crate) fn halt(&mut self, number: u64, keep: u64) -> Noted {
        for played in &mut self.plays {
            if played.number == number {
                played.keep = keep;
                played.open = false;
            }
        }
        self.note(Answer::Halted)
    }

    pub(crate) fn look(&mut self, slot: u64) -> Result<Noted, Full> {
        if let Some(full) = self.full_for(1) {
            return Err(full);
        }
        let at = self.now.max(slot);
        let booked = self.booked(at);
        let now = self.now;
        Ok(self.note(Answer::Looked { now, at, booked }))
    }
}
