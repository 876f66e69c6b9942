//! The curves of a film, from the sizes of its pictures and the times at which they are used.

ghost use Rattle.std.specs.Prelude.{◌≡◌, ◌+◌, ◌-◌, ◌<◌, ◌≤◌, ◌^◌, length, sum, IsTrue, ◌↔◌};
ghost use Rattle.std.specs.Prelude.{MatchOption, IfOk, IfErr, IfSome, IfNone, OnOk, All};
ghost use Rattle.wire_curve.specs.SoundCurves.{AreSound};
ghost use Rattle.wire_curve.specs.FilmCurves.{due_slot, total_of, slot_count, IsWithinLimits};
ghost use Rattle.wire_curve.specs.FilmCurves.{AreFilmCurves};
ghost use Rattle.wire_curve.specs.SlotUsage.{AreSlotUses, IsFaultOfSlotUses, AreCurvesOfUses};
ghost use Rattle.wire_curve.specs.SlotUsage.{IsLowerOfUses, IsUpperOfUses};
ghost use Rattle.wire_curve.specs.CurveFaults.{IsAccepted, IsRefused};

use crate::curves::Curves;
use std::alloc::{AllocError, Global};
use thiserror::Error;
use vod_base::{MAX_BYTES, MAX_DELAY, MAX_FILM_PICTURES, MAX_SLOTS};

/// The longest time of a picture and of a slot, in units of 1/360,000 second: one second.
const MAX_UNITS: u32 = 360_000;

/// The times at which pictures are used, and what the client can hold.
///
/// Times are in units of 1/360,000 second. Picture k is used in the slot `k * picture_units /
/// slot_units + delay`, rounded down.
#[derive(Clone, Copy, Debug)]
pub struct Timing {
    /// The time of one picture, 1 to 360,000 units.
    pub picture_units: u32,
    /// The time of one slot, 1 to 360,000 units.
    pub slot_units: u32,
    /// The bytes that the client's buffer holds, 1 to 2^42.
    pub buffer: u64,
    /// The slots before the first picture is used, at most 10,000.
    pub delay: u64,
    /// The bytes that were used before slot 0.
    pub played: u64,
    /// The bytes that were sent before slot 0.
    pub sent: u64,
}

impl Timing {
    /// Returns the slot in which a picture is used, one of at most 4,194,304, from 0.
    pub fn due_slot(&self, picture: u64) -> u64
        // needs: numbers within the limits, so that the product fits into 64 bits
        requires some_slot_units { 1 ≤ self.now.slot_units }
        requires picture_units { self.now.picture_units ≤ MAX_UNITS }
        requires picture { picture < MAX_FILM_PICTURES }
        requires delay { self.now.delay ≤ MAX_DELAY }
        ensures { result ≡ due_slot self.now picture }
    {
        // One picture a slot, as each trace has: the quotient is the picture's number, without a
        // division.
        if self.picture_units == self.slot_units {
            return picture + self.delay;
        }
        picture * u64::from(self.picture_units) / u64::from(self.slot_units) + self.delay
    }

    /// Returns whether [`film_curves`] may be called for pictures of these sizes: each field is in
    /// its range; they are at most 4,194,304 pictures, and their bytes and those used before slot 0
    /// at most 2^42; and the bytes sent before slot 0 are at least those used by then, at most all,
    /// and leave in the buffer no more than it holds.
    ///
    /// It takes no memory, and time linear in the pictures.
    pub fn is_within_limits(&self, sizes: &[u64]) -> bool
        ensures { IsTrue result ↔ IsWithinLimits sizes.now self.now }
    {
        let Some(total) = total_bytes(self.played, sizes) else {
            return false;
        };
        // In this order: `played` is at most `sent` before the difference is taken.
        1 <= self.picture_units
            && self.picture_units <= MAX_UNITS
            && 1 <= self.slot_units
            && self.slot_units <= MAX_UNITS
            && sizes.len() <= MAX_FILM_PICTURES as usize
            && self.delay <= MAX_DELAY
            && 1 <= self.buffer
            && self.buffer <= MAX_BYTES
            && self.played <= self.sent
            && self.sent <= total
            && self.sent - self.played <= self.buffer
    }
}

/// The bytes used before slot 0 and those of the pictures, or None where they are more than 2^42.
fn total_bytes(played: u64, sizes: &[u64]) -> Option<u64>
    ensures { MatchOption result (MAX_BYTES < played + sum sizes.now)
        (λ total. (total ≡ played + sum sizes.now) × (total ≤ MAX_BYTES)) }
{
    // Counted down from the limit, so that no sum of sizes can overflow.
    let mut left = MAX_BYTES.checked_sub(played)?;
    for size in sizes {
        left = left.checked_sub(*size)?;
    }
    Some(MAX_BYTES - left)
}

/// The reason why pictures have no curves, in the order in which the faults are looked for.
#[derive(Clone, Copy, PartialEq, Eq, Debug, Error)]
pub enum CurveFault {
    /// There is no picture.
    #[error("there is no picture")]
    NoPictures,
    /// The last picture is used after slot 999,999.
    #[error("{slots} slots are too many")]
    TooManySlots { slots: u64 },
    /// Slot `slot` is the first that uses more than the buffer holds: `used` bytes. The greatest
    /// use of any slot is `least`, so a buffer of that many bytes would do.
    #[error("slot {slot} uses {used} bytes; the least buffer is {least}")]
    BufferTooSmall { slot: u64, used: u64, least: u64 },
}

/// The reason why `film_curves` gives no curves.
#[derive(Clone, Copy, PartialEq, Eq, Debug, Error)]
pub enum CurveRefused {
    /// The pictures have none.
    #[error("{0}")]
    Fault(CurveFault),
    /// Out of memory.
    #[error("out of memory")]
    NoMemory,
}

impl From<AllocError> for CurveRefused {
    ghost use Rattle.wire_curve.specs.declared.film.CurveRefused.TheVariants.{NoMemory};

    ghost from_gives = { λ _ refusal. refusal ≡ NoMemory };

    fn from(_error: AllocError) -> Self {
        CurveRefused::NoMemory
    }
}

/// Makes the curves of pictures of these sizes, which are sound.
///
/// It reads the sizes once and takes time linear in the pictures and the slots.
///
/// # Errors
///
/// [`CurveRefused::Fault`] exactly where a fault holds, the first in the order of [`CurveFault`].
/// [`CurveRefused::NoMemory`] where there is none for the curves.
pub fn film_curves(alloc: Global, sizes: &[u64], timing: &Timing) -> Result<Curves, CurveRefused>
    // needs: sizes and times within their limits
    requires { IsWithinLimits sizes.now timing.now }
    // answers: sound curves, exactly where there is no fault and memory is found
    ensures accepted { OnOk result (IsAccepted sizes.now timing.now) }
    ensures curves { IfOk result (λ curves. AreFilmCurves sizes.now timing.now curves) }
    ensures sound { IfOk result (λ curves. AreSound curves.from curves.low.items curves.up.items) }
    // refuses: the first fault, or out of memory
    ensures refused { IfErr result (λ refusal. IsRefused sizes.now timing.now refusal) }
{
    let Some(last) = sizes.len().checked_sub(1) else {
        return Err(CurveRefused::Fault(CurveFault::NoPictures));
    };
    // Counted before any memory is taken: the times alone can ask for far more slots than a plan
    // has.
    let slots = timing.due_slot(last as u64) + 1;
    if slots > MAX_SLOTS {
        return Err(CurveRefused::Fault(CurveFault::TooManySlots { slots }));
    }
    // One pass makes both curves here. Where it finds a picture above the buffer, the way below
    // finds the fault again, with its slot and the least buffer.
    if timing.picture_units == timing.slot_units {
        if let Some(curves) = picture_curves(alloc, sizes, timing)? {
            return Ok(curves);
        }
    }
    let uses = sum_slot_uses(alloc, sizes, timing, slots as usize)?;
    if let Some(fault) = buffer_fault(&uses.in_slot, timing.buffer) {
        return Err(CurveRefused::Fault(fault));
    }
    Ok(curves_of_uses(alloc, timing, uses)?)
}

/// The curves of pictures of which each is used in a slot of its own, the next one after the
/// picture before. None where a picture is larger than the buffer.
///
/// It makes both curves in one pass, without the list of what each slot uses.
fn picture_curves(
    alloc: Global,
    sizes: &[u64],
    timing: &Timing,
) -> Result<Option<Curves>, AllocError>
    requires limits { IsWithinLimits sizes.now timing.now }
    requires own_slots { timing.now.picture_units ≡ timing.now.slot_units }
    requires some_picture { 0 < length sizes.now }
    ensures curves { IfOk result (λ found.
        IfSome found (AreFilmCurves sizes.now timing.now)) }
    ensures fits { IfOk result (λ found.
        IfSome found (λ _. All (λ size. size ≤ timing.now.buffer) sizes.now)) }
{
    let slots = timing.delay as usize + sizes.len();
    let total = sum_sizes(timing.played, sizes);
    let mut low = Vec::with_capacity(alloc, slots)?;
    let mut up = Vec::with_capacity(alloc, slots)?;
    // Before the first picture is used, nothing more must be sent, and the buffer may be filled.
    for _ in 0..timing.delay {
        low.push_reserved(timing.sent);
        up.push_reserved(total.min(timing.played + timing.buffer));
    }
    let mut used = timing.played;
    for size in sizes {
        if *size > timing.buffer {
            return Ok(None);
        }
        // The picture of a slot must have come by the slot's end, but it leaves the buffer only
        // then. So the upper curve counts what was used before the slot, and the lower one the
        // picture, too.
        up.push_reserved(total.min(used + timing.buffer));
        used += *size;
        low.push_reserved(timing.sent.max(used));
    }
    Ok(Some(Curves {
        from: timing.sent,
        low,
        up,
    }))
}

/// The bytes used before slot 0 and those of the pictures.
fn sum_sizes(played: u64, sizes: &[u64]) -> u64
    requires { played + sum sizes.now ≤ MAX_BYTES }
    ensures { result ≡ played + sum sizes.now }
{
    let mut total = played;
    for size in sizes {
        total += *size;
    }
    total
}

/// What a film's pictures use, slot by slot.
#[derive(Drop)]
struct SlotUses {
    /// The bytes used in each slot.
    in_slot: Vec<u64>,
    /// The bytes used in all, those of earlier plays among them.
    total: u64,
}

/// Adds up the pictures of each slot, in one pass over the sizes.
fn sum_slot_uses(
    alloc: Global,
    sizes: &[u64],
    timing: &Timing,
    slots: usize,
) -> Result<SlotUses, AllocError>
    requires limits { IsWithinLimits sizes.now timing.now }
    requires some_picture { 0 < length sizes.now }
    requires slots { slots ≡ slot_count sizes.now timing.now }
    ensures in_slot { IfOk result (λ uses. AreSlotUses sizes.now timing.now uses.in_slot.items) }
    ensures total { IfOk result (λ uses. uses.total ≡ total_of sizes.now timing.now) }
{
    let mut in_slot = vec![in alloc; 0u64; slots]?;
    let mut total = timing.played;
    for (picture, size) in sizes.iter().enumerate() {
        // Several pictures may fall into one slot, and some slots may have none.
        let slot = timing.due_slot(picture as u64) as usize;
        in_slot[slot] += *size;
        total += *size;
    }
    Ok(SlotUses { in_slot, total })
}

/// The fault of a buffer that doesn't hold what some slot uses.
fn buffer_fault(in_slot: &[u64], buffer: u64) -> Option<CurveFault>
    ensures holds { IfNone result (All (λ used. used ≤ buffer) in_slot.now) }
    ensures overfull { IfSome result (IsFaultOfSlotUses in_slot.now buffer) }
{
    let slot = in_slot.iter().position(|used| *used > buffer)?;
    let used = in_slot[slot];
    // Some slot uses more than the buffer, so there is a greatest use.
    let least = in_slot.iter().copied().max().unwrap_or(used);
    Some(CurveFault::BufferTooSmall {
        slot: slot as u64,
        used,
        least,
    })
}

/// The curves of pictures that use so much in each slot. The list of the uses becomes the lower
/// one.
fn curves_of_uses(alloc: Global, timing: &Timing, uses: SlotUses) -> Result<Curves, AllocError>
    requires total { timing.now.played + sum uses.in_slot.items ≤ MAX_BYTES }
    requires buffer { timing.now.buffer ≤ MAX_BYTES }
    ensures { IfOk result (AreCurvesOfUses timing.now uses.in_slot.items uses.total) }
{
    // The upper curve is made first. The list of the uses isn't needed after it, and becomes the
    // lower.
    let up = upper_curve(alloc, timing, &uses)?;
    let mut low = uses.in_slot;
    lower_curve(timing, low.as_mut_slice());
    Ok(Curves {
        from: timing.sent,
        low,
        up,
    })
}

/// What may have been sent by the end of each slot: all, or what the buffer still holds.
fn upper_curve(alloc: Global, timing: &Timing, uses: &SlotUses) -> Result<Vec<u64>, AllocError>
    requires total { timing.now.played + sum uses.now.in_slot.items ≤ MAX_BYTES }
    requires buffer { timing.now.buffer ≤ MAX_BYTES }
    ensures { IfOk result (λ up.
        IsUpperOfUses timing.now uses.now.in_slot.items uses.now.total up.items) }
{
    let mut up = Vec::with_capacity(alloc, uses.in_slot.len())?;
    let mut used = timing.played;
    for in_slot in &uses.in_slot {
        // What a slot uses still fills the buffer up to the slot's end, so it isn't counted as used
        // yet.
        up.push_reserved(uses.total.min(used + timing.buffer));
        used += *in_slot;
    }
    Ok(up)
}

/// Makes of the bytes used in each slot what must have been sent by its end.
fn lower_curve(timing: &Timing, uses: &mut [u64])
    requires { timing.now.played + sum uses.old ≤ MAX_BYTES }
    ensures { IsLowerOfUses timing.now uses.old uses.new }
{
    let mut used = timing.played;
    for slot in 0..uses.len() {
        used += uses[slot];
        // What was sent before slot 0 stays sent, so the curve never begins below it.
        uses[slot] = timing.sent.max(used);
    }
}
