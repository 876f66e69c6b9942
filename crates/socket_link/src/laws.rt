//! Laws over the definitions of the clock and of the limits.

ghost use Rattle.std.specs.Prelude.{◌≡◌, ◌+◌, ◌-◌, ◌*◌, ◌^◌, ◌<◌, ◌≤◌, ◌++◌, [], ◌∷◌, ℕ, List, All};
ghost use Rattle.std.specs.Prelude.{nat_le, true, false};
ghost use Rattle.socket_link.specs.Calls.{SocketCall, GaveBytes, TookBytes, ReadClock};
ghost use Rattle.socket_link.specs.Limits.{is_overdue, no_watch, watch_of};
ghost use Rattle.socket_link.specs.QuietCalls.{IsBeforePatience, IsQuiet, TakesNothing};
ghost use Rattle.socket_link.specs.Slots.{AreFalling, slot_of, slots_due};
ghost use Rattle.socket_link.specs.declared.limits.TheConstants.{STUCK_LIMIT, FIRST_SEND_LIMIT};
ghost use Rattle.socket_link.specs.declared.limits.TheConstants.{IDLE_LIMIT, RETRY, LINGER};
ghost use Rattle.socket_link.specs.declared.sockets.Purpose.{Purpose};
ghost use Rattle.socket_link.specs.declared.sockets.Purpose.TheVariants.{Accept, Idle, Patience};
ghost use Rattle.socket_link.specs.declared.sockets.Purpose.TheVariants.{Slot};

/// A law: a slot of so many units lasts so many 1/360,000 s. At a time in nanoseconds since slot 0
/// began, slot n is the one where n slots have passed and n + 1 have not; up to the latest slot,
/// 2^62.
pub fn law_slots_have_their_length()
    ensures { (units time : ℕ) → 1 ≤ units → slot_of units time < 2 ^ 62 →
        (slot_of units time * units * 1000000000 ≤ time * 360000)
        × (time * 360000 < (slot_of units time + 1) * units * 1000000000) }
{}

/// States when an idle reading of the clock, at `time`, ends a connection. After the last byte that
/// the peer took, as after the last one that came, 3,600 s must have passed since the reading
/// before that byte. A peer that took nothing since its accept has 15 s from the accept on, also
/// where it sends bytes. Times are nanoseconds.
pub fn law_idle_limit_counts_from_last_byte()
    ensures taken { (before quiet : List SocketCall) (purpose : Purpose) (bytes : List ℕ)
        (last time : ℕ) → All IsQuiet quiet →
        is_overdue (watch_of no_watch (before ++ (ReadClock purpose last
        ∷ (TookBytes bytes ∷ quiet)))) Idle time ≡ nat_le (3600 * 10 ^ 9) (time - last) }
    ensures came { (before between quiet : List SocketCall) (purpose : Purpose)
        (taken bytes : List ℕ) (last time : ℕ) →
        All TakesNothing (between ++ ReadClock purpose last ∷ []) → All IsQuiet quiet →
        is_overdue (watch_of no_watch (before ++ ((TookBytes taken ∷ between)
        ++ (ReadClock purpose last ∷ (GaveBytes bytes ∷ quiet))))) Idle time
        ≡ nat_le (3600 * 10 ^ 9) (time - last) }
    ensures first_send { (before after : List SocketCall) (accept time : ℕ) →
        All TakesNothing after → 15 * 10 ^ 9 ≤ time - accept →
        is_overdue (watch_of no_watch (before ++ ReadClock Accept accept ∷ after)) Idle time
        ≡ true }
    ensures early { (before quiet : List SocketCall) (accept time : ℕ) →
        All IsQuiet quiet → time - accept < 15 * 10 ^ 9 →
        is_overdue (watch_of no_watch (before ++ ReadClock Accept accept ∷ quiet)) Idle time
        ≡ false }
{}

/// States when a reading of the clock for patience, at `time`, ends a connection: where the peer
/// has taken none of the bytes that wait for it for 60 s. They count from the first such reading
/// after the last byte that it took. Times are nanoseconds.
pub fn law_patience_counts_from_first_write_that_took_nothing()
    ensures { (before between after : List SocketCall) (taken : List ℕ) (first time : ℕ) →
        All IsBeforePatience between → All TakesNothing after →
        is_overdue (watch_of no_watch (before ++ ((TookBytes taken ∷ between)
        ++ (ReadClock Patience first ∷ after)))) Patience time
        ≡ nat_le (60 * 10 ^ 9) (time - first) }
{}

/// States which slots are reported, the newest first: each is later than all before it, so none is
/// reported twice and time never goes back. Each is the slot of a reading of the clock.
pub fn law_slots_are_reported_once_and_in_order()
    ensures falling { (units : ℕ) (calls : List SocketCall) → AreFalling (slots_due units [] calls) }
    ensures latest { (units time : ℕ) (calls : List SocketCall) →
        All (λ s. s < slot_of units time) (slots_due units [] calls) →
        slots_due units [] (calls ++ ReadClock Slot time ∷ [])
        ≡ slot_of units time ∷ slots_due units [] calls }
{}

/// States the lengths of time that a link goes by, in nanoseconds: it gives up a peer that takes
/// nothing for 60 s, one to which nothing was sent 15 s after its accept, and a connection that is
/// idle for 3,600 s. It tries a write again after 1 s, and reads on for 1 s after its last byte.
pub fn law_limits_have_their_seconds()
    ensures stuck { STUCK_LIMIT ≡ 60 * 10 ^ 9 }
    ensures first_send { FIRST_SEND_LIMIT ≡ 15 * 10 ^ 9 }
    ensures idle { IDLE_LIMIT ≡ 3600 * 10 ^ 9 }
    ensures retry { RETRY ≡ 10 ^ 9 }
    ensures linger { LINGER ≡ 10 ^ 9 }
{}
