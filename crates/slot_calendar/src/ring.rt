//! The totals of the slots, with the greatest of each block.

ghost use Rattle.std.specs.Prelude.{◌≡◌, ◌≢◌, ◌+◌, ◌-◌, ◌*◌, ◌/◌, ◌^◌, ◌<◌, ◌≤◌, ℕ, None, Some};
ghost use Rattle.std.specs.Prelude.{length, IfOk};
ghost use Rattle.slot_calendar.specs.Rings.{AreZeros, IsEmptyFrom, IsGreatest, AreBlockMaxima};
ghost use Rattle.slot_calendar.specs.Rings.{total_of};
ghost use Rattle.slot_calendar.specs.Totals.{ring_slots};

use std::alloc::Global;
use std::marker::Model;
use vod_base::NoMemory;

/// The number of slots that a calendar knows, from its now on: more than a plan has, so a plan that
/// begins in the next slot ends within it. No bytes are booked after them.
pub const RING_SLOTS: u64 = 1_048_576;

/// The places of a block. A ring has a whole number of blocks, so the slots of a block have places
/// of one block.
pub(crate) const BLOCK: u64 = 1024;

/// The blocks of a ring.
const BLOCKS: usize = 1024;

/// The totals of the slots from `now` on, each slot at its number modulo [`RING_SLOTS`], with the
/// greatest total of each block.
///
/// Contracts see `now`, the list of the totals from it on, and the block that was lowered and not
/// read again.
#[derive(Drop)]
pub(crate) struct Ring {
    /// Its now.
    first: u64,
    /// A slot after which no total is above 0.
    last: u64,
    /// The total of each slot in bytes.
    places: Vec<u64>,
    /// The greatest total of each block.
    tops: Vec<u64>,
    /// The block whose greatest total may be less than is kept of it.
    stale: Option<usize>,
}

impl Model for Ring {
    ghost use Rattle.slot_calendar.specs.Rings.{Slots, slots_of_ring, IsRing};

    ghost Value = { Slots };

    ghost view = { slots_of_ring };

    ghost invariant = { IsRing };
}

impl Ring {
    /// A ring without bookings, from slot 0 on.
    pub(crate) fn new(alloc: Global) -> Result<Ring, NoMemory>
        ensures now { IfOk result (λ ring. ring.first ≡ 0) }
        ensures empty { IfOk result (λ ring. (t : ℕ) → total_of ring t ≡ 0) }
        ensures settled { IfOk result (λ ring. ring.stale ≡ None) }
    {
        let places = zeros(alloc, RING_SLOTS as usize)?;
        let tops = zeros(alloc, BLOCKS)?;
        Ok(Ring {
            first: 0,
            last: 0,
            places,
            tops,
            stale: None,
        })
    }

    /// The first slot.
    pub(crate) fn now(&self) -> u64
        ensures value { result ≡ self.now.first }
        ensures past { (t : ℕ) → self.now.first + ring_slots ≤ t → total_of self.now t ≡ 0 }
    {
        self.first
    }

    /// A slot after which no total is above 0.
    pub(crate) fn last(&self) -> u64
        ensures { IsEmptyFrom self.now (result + 1) }
    {
        self.last
    }

    /// The total of a slot; 0 past the ring.
    pub(crate) fn total(&self, slot: u64) -> u64
        requires { self.now.first ≤ slot }
        ensures value { result ≡ total_of self.now slot }
        ensures past { self.now.first + ring_slots ≤ slot → result ≡ 0 }
    {
        // Past the ring nothing is booked. The place of such a slot belongs to an earlier one.
        if slot - self.first >= RING_SLOTS {
            return 0;
        }
        self.places[(slot % RING_SLOTS) as usize]
    }

    /// A number that no total is above, from this slot up to the next multiple of 1,024.
    pub(crate) fn top(&self, slot: u64) -> u64
        requires { self.now.first ≤ slot }
        ensures { (t : ℕ) → slot ≤ t → t / BLOCK ≡ slot / BLOCK → total_of self.now t ≤ result }
    {
        // Past the ring 0 is a bound. The block's places belong to earlier slots.
        if slot - self.first >= RING_SLOTS {
            return 0;
        }
        self.tops[(slot % RING_SLOTS) as usize / BLOCK as usize]
    }

    /// Adds to the total of a slot.
    pub(crate) fn raise(&mut self, slot: u64, by: u64)
        // needs: a slot of the ring, and a sum of 64 bits
        requires from_now { self.old.first ≤ slot }
        requires within { slot < self.old.first + ring_slots }
        requires fits { total_of self.old slot + by < 2 ^ 64 }
        // leaves: this slot's total raised, and all others as they were
        ensures now { self.new.first ≡ self.old.first }
        ensures stale { self.new.stale ≡ self.old.stale }
        ensures at { total_of self.new slot ≡ total_of self.old slot + by }
        ensures others { (t : ℕ) → self.old.first ≤ t → t ≢ slot →
            total_of self.new t ≡ total_of self.old t }
    {
        let place = (slot % RING_SLOTS) as usize;
        let block = place / BLOCK as usize;
        let total = self.places[place] + by;
        self.places[place] = total;
        // A raise can only lift the greatest total, so the block isn't read for it.
        self.tops[block] = self.tops[block].max(total);
        // Noted, so that `advance` can pass over a long time without bookings at once.
        self.last = self.last.max(slot);
    }

    /// Takes from the total of a slot. The greatest total of its block is settled later.
    pub(crate) fn lower(&mut self, slot: u64, by: u64)
        // needs: a slot from now on that has so much
        requires from_now { self.old.first ≤ slot }
        requires some { 0 < by }
        requires booked { by ≤ total_of self.old slot }
        // leaves: this slot's total lowered, and all others as they were
        ensures now { self.new.first ≡ self.old.first }
        ensures at { total_of self.new slot + by ≡ total_of self.old slot }
        ensures others { (t : ℕ) → self.old.first ≤ t → t ≢ slot →
            total_of self.new t ≡ total_of self.old t }
    {
        let place = (slot % RING_SLOTS) as usize;
        let block = place / BLOCK as usize;
        settle_other(
            self.places.as_slice(),
            self.tops.as_mut_slice(),
            self.stale,
            block,
        );
        // A release lowers slots in order, so the greatest total of a block is read again once,
        // when the next block begins, and not at each slot. At most one block is stale at a time.
        self.stale = Some(block);
        self.places[place] -= by;
    }

    /// Makes each block's greatest total exact again.
    pub(crate) fn settle(&mut self)
        ensures now { self.new.first ≡ self.old.first }
        ensures settled { self.new.stale ≡ None }
        ensures totals { self.new.totals ≡ self.old.totals }
    {
        settle_block(self.places.as_slice(), self.tops.as_mut_slice(), self.stale);
        self.stale = None;
    }

    /// Empties the first slot.
    fn empty_first(&mut self)
        ensures now { self.new.first ≡ self.old.first }
        ensures none { total_of self.new self.old.first ≡ 0 }
        ensures others { (t : ℕ) → self.old.first ≤ t → t ≢ self.old.first →
            total_of self.new t ≡ total_of self.old t }
    {
        let total = self.total(self.first);
        if total > 0 {
            self.lower(self.first, total);
        }
    }

    /// Empties the first slot, which becomes the last one.
    fn advance_one(&mut self)
        requires { self.old.first + 1 < 2 ^ 64 }
        ensures now { self.new.first ≡ self.old.first + 1 }
        ensures totals { (t : ℕ) → self.new.first ≤ t → total_of self.new t ≡ total_of self.old t }
    {
        // Its place is the last slot's as soon as now moves, and nothing is booked there yet.
        self.empty_first();
        self.first += 1;
    }

    /// Begins with slot `now`, where all slots from the first one on are empty.
    fn jump(&mut self, now: u64)
        requires { IsEmptyFrom self.old self.old.first }
        ensures now { self.new.first ≡ now }
        ensures empty { IsEmptyFrom self.new now }
    {
        self.first = now;
    }

    /// Forgets the slots before `now`. It empties those that may hold bytes, and passes over the
    /// others at once.
    pub(crate) fn advance(&mut self, now: u64)
        requires { self.old.first ≤ now }
        ensures now { self.new.first ≡ now }
        ensures settled { self.new.stale ≡ None }
        ensures totals { (t : ℕ) → now ≤ t → total_of self.new t ≡ total_of self.old t }
    {
        let last = self.last();
        // after `last` nothing is booked, so a jump over empty slots costs nothing
        while self.first < now && self.first <= last {
            self.advance_one();
        }
        if self.first < now {
            self.jump(now);
        }
        // Emptying lowers totals, which leaves a block's greatest one above them.
        self.settle();
    }
}

/// The greatest of some numbers.
fn greatest_of(numbers: &[u64]) -> u64
    requires { 0 < length numbers.now }
    ensures { IsGreatest numbers.now result }
{
    // A block has places, so the 0 is never taken.
    *numbers.iter().max().unwrap_or(&0)
}

/// Reads the stale block again, if there is one.
fn settle_block(places: &[u64], tops: &mut [u64], stale: Option<usize>)
    requires { AreBlockMaxima places.now tops.old stale }
    ensures { AreBlockMaxima places.now tops.new None }
{
    if let Some(block) = stale {
        let from = block * BLOCK as usize;
        tops[block] = greatest_of(&places[from..from + BLOCK as usize]);
    }
}

/// Reads the stale block again, unless it is this one, which becomes the stale one.
fn settle_other(places: &[u64], tops: &mut [u64], stale: Option<usize>, block: usize)
    requires topped { AreBlockMaxima places.now tops.old stale }
    requires within { block < BLOCKS }
    ensures { AreBlockMaxima places.now tops.new (Some block) }
{
    if let Some(other) = stale
        && other != block
    {
        settle_block(places, tops, stale);
    }
}

/// So many zeros.
fn zeros(alloc: Global, count: usize) -> Result<Vec<u64>, NoMemory>
    ensures { IfOk result (λ numbers. AreZeros numbers.items count) }
{
    let numbers = vec![in alloc; 0; count]?;
    Ok(numbers)
}
