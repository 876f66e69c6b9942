//! The law that leads from a session to what the laws of all sessions need.

ghost use Rattle.session.specs.SessionInvariant.{IsSoundState};

use crate::sessions::Session;

/// Every session is sound, whatever happened to it: what it settled and planned is in its ranges
/// and fits its state. A caller that holds a session shows by this what the laws of a play need.
pub fn law_every_session_is_sound(session: &Session<'_>)
    ensures { IsSoundState session.now }
{
    // a field is read, so that what every session satisfies is known here
    let _waits = session.waits;
}
