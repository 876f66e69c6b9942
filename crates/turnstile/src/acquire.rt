//! How a pass waits for the lock and takes it.

ghost use Rattle.std.specs.Prelude.{◌≡◌, ◌%◌, ◌^◌, ◌<◌, ◌++◌, [], ◌∷◌, Some, None, true, false};
ghost use Rattle.turnstile.specs.TableSeats.{IsFree, IsSame, IsSeated};
ghost use Rattle.turnstile.specs.Steps.{HasTaken, IsWaiting, ticket_of};
ghost use Rattle.admission.specs.Makers.{entries_by};
ghost use mathlib.Core.List.{IsPrefix};
ghost use Rattle.turnstile.specs.PassSeats.{state_of_view};

use crate::kept_value::Kept;
use crate::steps::{draw, look};
use crate::table::{Place, SharedTable, VALUE};
use crate::turn::Turn;
use crate::wakers::Wakers;
use crossbeam_utils::sync::EventCount;
use std::hint;
use std::sync::Wait;

/// How often the pass that is next looks before it sleeps.
const SPINS: u32 = 64;

/// Draws a ticket, waits until it is served and takes the value.
pub(crate) fn take<B: Kept, R: Wait>(
    rt: &R,
    shared: &SharedTable<B>,
    wakers: &Wakers,
    mut place: Place<B>,
) -> Turn<B>
    requires seat { IsSeated shared.now.table_id place }
    requires free { IsFree place.me }
    requires own { place.me.0.mine ≡ entries_by place.me.0.number place.me.0.seen }
    ensures pass { result.pass
        ≡ record (state_of_view place.table_id place.me.0) { seen = B.entries result.value } }
    ensures longer { IsPrefix place.me.0.seen (B.entries result.value) }
    ensures own { place.me.0.mine ≡ entries_by place.me.0.number (B.entries result.value) }
    ensures terms { B.terms result.value ≡ place.me.0.terms }
{
    let ticket = draw(shared, &mut place);
    wait(rt, shared, wakers.waker_of(ticket), &mut place, ticket);
    let slot = shared.exchange(&mut place, VALUE, None);
    // by the invariant the value is in the slot until the pass whose ticket is served takes it
    Turn::begin(place, slot.unwrap())
}

/// Waits until the ticket is served, asleep at its bell. The pass that is next stays awake for a
/// short time; one that has others before it sleeps at once, since one of them may need the
/// processor that it runs on.
fn wait<B: Kept, R: Wait>(
    rt: &R,
    shared: &SharedTable<B>,
    bell: &EventCount,
    place: &mut Place<B>,
    ticket: u64,
)
    requires seat { IsSeated shared.now.table_id place.old }
    requires waits { IsWaiting place.old.me ticket }
    ensures same { IsSame place.old place.new }
    ensures took { HasTaken B.entries B.terms (ticket_of place.old.me.0.stage)
        place.old.me place.new.me }
{
    let mut tries = 0;
    for _ in rt.forever() {
        // announced before the look, so that the bell isn't missed if it rings after it
        let sleep = if tries < SPINS {
            None
        } else {
            Some(bell.prepare_wait())
        };
        let serving = look(shared, place, ticket);
        if serving == ticket {
            break;
        }
        tries = match sleep {
            // Its bell rang, so this ticket is most likely next: it looks awake again.
            Some(key) => {
                key.wait(rt);
                0
            }
            // next in line: the lock is likely to be free before a sleep and a wake are over
            None if serving.wrapping_add(1) == ticket => {
                hint::spin_loop();
                (tries + 1).min(SPINS)
            }
            // Others come first: it sleeps before the next look.
            None => SPINS,
        };
    }
}
