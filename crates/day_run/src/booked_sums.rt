//! What is booked in slots that pass.

ghost use Rattle.std.specs.Prelude.{◌≡◌, ◌+◌, ◌-◌, ◌*◌, ◌≤◌, fold, map, max, sum_by};
ghost use Rattle.std.specs.List.{range_with_len};
ghost use Rattle.admission.specs.Histories.{state_after};
ghost use Rattle.admission.specs.Machine.{booked_in};

use admission::Book;
use vod_base::{LATEST_SLOT, MAX_BYTES};

/// The bytes booked in the slots after `from` up to `to`, and the most in one of them.
pub(crate) fn booked_between(book: &Book, from: u64, to: u64) -> (u64, u64)
    requires from_now { (state_after book.now.entries).now ≤ from }
    requires small { from ≤ LATEST_SLOT }
    requires order { from ≤ to }
    ensures booked { result.0 ≡
        sum_by (booked_in (state_after book.now.entries)) (range_with_len (from + 1) (to - from)) }
    ensures peak { result.1 ≡ fold max 0
        (map (booked_in (state_after book.now.entries)) (range_with_len (from + 1) (to - from))) }
    ensures few { result.0 ≤ (to - from) * MAX_BYTES }
{
    let calendar = book.calendar();
    // Nothing is booked later. A script may go on by `LATEST_SLOT` slots in one line, and the sum
    // must not count through them.
    let end = to.min(calendar.booked_through());
    let mut booked = 0;
    let mut peak = 0;
    for slot in from + 1..end + 1 {
        let here = calendar.booked(slot);
        booked += here;
        peak = peak.max(here);
    }
    (booked, peak)
}
