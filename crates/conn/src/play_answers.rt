//! What becomes of the station's answer to a play: a booking is held, or a refusal is handed on.

ghost use Rattle.std.specs.Prelude.{◌≡◌, None, Some};
ghost use Rattle.session.specs.SessionStates.{IsAnswerRecorded, IsPlay, awaited_answer, open_of};
ghost use Rattle.conn.specs.Refusals.{after_refusal, refusal_receipt};

use session::Session;
use station::{Booking, PlayRefused};
use std::mem;

/// Hands the session the reason why the play that it asked for was refused.
pub(crate) fn hear_refusal(session: &mut Session<'_>, refused: PlayRefused)
    requires asked { IsPlay (awaited_answer session.old) }
    requires closed { open_of session.old ≡ None }
    ensures exact { session.new ≡ after_refusal session.old refused }
    ensures handed { IsAnswerRecorded session.old (refusal_receipt refused) session.new }
    ensures open { open_of session.new ≡ None }
{
    match refused {
        PlayRefused::JournalFull { entries, live, .. } => session.full(entries, live),
        PlayRefused::Overflow {
            place,
            slot,
            booked,
            asked,
        } => session.overflowed(place, slot, booked, asked),
    }
}

/// Holds a booking, where none is held. An assignment would drop what was held before.
pub(crate) fn hold(held: &mut Option<Booking>, booking: Booking)
    requires { held.old ≡ None }
    ensures { held.new ≡ Some booking }
{
    drop_none(mem::replace(held, Some(booking)));
}

/// Drops the place of a booking, where none is held. A booking itself can't be dropped: it is to be
/// spent by its halt.
pub(crate) fn drop_none(held: Option<Booking>)
    requires { held ≡ None }
{
    match held {
        None => {}
        Some(_) => unreachable!(),
    }
}
