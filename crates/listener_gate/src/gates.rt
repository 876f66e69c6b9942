//! A gate over a listener.

ghost use Rattle.std.specs.Prelude.{◌≡◌, ◌<◌, ◌≤◌, ◌*◌, ◌+◌, ◌-◌, ◌^◌, ◌++◌, ◌∷◌, [], ◌⊎◌, min};
ghost use Rattle.std.specs.Prelude.{None, Some, option_map, IsTrue, IfOk, OnOk, OnErr};
ghost use Rattle.std.specs.Prelude.{IfSome, true, false};
ghost use Rattle.vod_base.specs.IoState.{HasRisen, one_more};
ghost use Rattle.vod_base.specs.Gates.{MaySplit, IsPartOut, HasConnOut, after_open, split_off};
ghost use Rattle.vod_base.specs.Gates.{new_part, after_take, after_empty_take, after_return};
ghost use Rattle.vod_base.specs.Gates.{NoMore, Failed, told_rejoined};
ghost use Rattle.listener_gate.specs.Accepts.{first_wait, longer_wait, IsAcceptedAfter, IsGivenUp};
ghost use Rattle.listener_gate.specs.Accepts.{FailedTry, failed_try, wait_after};
ghost use Rattle.listener_gate.specs.Openings.{address_of, MayGive, HasGivenAll};
ghost use Rattle.listener_gate.specs.Histories.{splits_after};

use crate::histories::{GateHistory, GateNote, PartHistory, PartNote};
use crate::listeners::{AcceptError, Listener, ListenerDoing, ListenerFault};
use http_server::Log;
use std::fmt;
use vod_base::{Gate, GateFault, Opening};

/// The first wait, in milliseconds, where descriptors or memory are short.
const FIRST_WAIT: u64 = 10;

/// The longest wait, in milliseconds. So a connection waits for a second at most once the shortage
/// is over.
const LONGEST_WAIT: u64 = 1_000;

/// A gate that takes connections from a listener. It listens at 127.0.0.1, or at 0.0.0.0 where
/// connections from other machines are taken too.
///
/// Each part has a handle to the same listening socket and gives so many connections of its own as
/// [`Opening`] says. It skips a connection that failed before it was accepted. Where descriptors or
/// memory are short, `take` waits 10 ms, then twice as long each time, at most 1 s, until an accept
/// succeeds. What else fails is a fault.
#[derive(Drop)]
pub struct ListenerGate<L: Listener> {
    listener: L,
    is_open: bool,
    /// The most connections that it gives, or 0 where there is no limit.
    most: u64,
    /// How many it gave since it was opened or split off.
    given: u64,
    /// The wait for the next shortage, in milliseconds.
    wait: u64,
    /// How many parts were split off since it was opened.
    splits: u32,
    faults: u64,
    own: PartHistory<L::Conn>,
    history: GateHistory<L::Conn>,
    ghost within: { 0 < most → given ≤ most },
    ghost counted: { splits ≡ min (splits_after 0 history.items) (2 ^ 32 - 1) },
}

impl<L: Listener> ListenerGate<L> {
    /// Makes a gate that isn't open, over a listener that isn't bound.
    pub fn new(listener: L) -> ListenerGate<L>
        // leaves: a gate that has done nothing
        ensures listener { result.listener ≡ listener }
        ensures closed { result.is_open ≡ false }
        ensures wait { result.wait ≡ first_wait }
        ensures faults { result.faults ≡ 0 }
        ensures history { (result.own.number ≡ 0) × (result.own.notes.items ≡ [])
            × (result.history.items ≡ []) }
    {
        ListenerGate {
            listener,
            is_open: false,
            most: 0,
            given: 0,
            wait: FIRST_WAIT,
            splits: 0,
            faults: 0,
            own: PartHistory::new(0),
            history: Log::new(),
        }
    }

    /// Returns the listener.
    pub fn listener(&self) -> &L
        ensures { result.now ≡ self.now.listener }
    {
        &self.listener
    }
}

/// Tries to accept a connection. It skips one that failed before it was accepted, and waits once at
/// a shortage.
fn try_accept<L: Listener>(
    listener: &mut L,
    wait: &mut u64,
) -> Result<Option<L::Conn>, ListenerFault>
    ensures count { L.faults listener.old ≤ L.faults listener.new }
    // answers: a connection that has done nothing, or None after one wait or one lost connection
    ensures accepted { IfOk result (λ tried. IfSome tried (λ conn. (wait.new ≡ first_wait)
        × (IsTrue L.tells → L.did listener.new ≡ L.did listener.old
        ++ ListenerDoing.Accepted ∷ []))) }
    ensures fresh { IfOk result (λ tried. IfSome tried (λ conn. (L.Conn.faults conn ≡ 0)
        × IfSome (L.Conn.told conn) (λ doings. doings ≡ []))) }
    ensures failed { IfOk result (λ tried. tried ≡ None → (t : FailedTry)
        × ((wait.new ≡ wait_after t wait.old) × (IsTrue L.tells →
        L.did listener.new ≡ L.did listener.old ++ failed_try wait.old t))) }
    // faults: the listener's count rose
    ensures lost { OnErr result (IsTrue L.tells → (L.did listener.new ≡ L.did listener.old)
        ⊎ (L.did listener.new ≡ L.did listener.old ++ ListenerDoing.ShortageError ∷ [])) }
    ensures fault { OnErr result (HasRisen (L.faults listener.old) (L.faults listener.new)) }
{
    match listener.accept() {
        Ok(conn) => {
            // The shortage is over, so the next one begins with the shortest wait.
            *wait = FIRST_WAIT;
            Ok(Some(conn))
        }
        // The error is of that connection, not of the listener: accept(2) says to try again.
        Err(AcceptError::Transient) => Ok(None),
        // A worker that gave up here would be lost until a restart, so it waits.
        Err(AcceptError::Shortage) => wait_out(listener, wait),
        // The listening socket can't be used any more.
        Err(AcceptError::Broken) => Err(ListenerFault),
    }
}

/// Waits for once where descriptors or memory are short, and makes the next wait longer.
fn wait_out<L: Listener, C>(listener: &mut L, wait: &mut u64) -> Result<Option<C>, ListenerFault>
    ensures none { IfOk result (λ none. none ≡ None) }
    ensures wait { OnOk result (wait.new ≡ longer_wait wait.old) }
    ensures count { L.faults listener.old ≤ L.faults listener.new }
    ensures waited { OnOk result (IsTrue L.tells →
        L.did listener.new ≡ L.did listener.old ++ ListenerDoing.Waited wait.old ∷ []) }
    ensures lost { OnErr result (IsTrue L.tells → L.did listener.new ≡ L.did listener.old) }
    ensures fault { OnErr result (HasRisen (L.faults listener.old) (L.faults listener.new)) }
{
    match listener.wait(*wait) {
        Ok(()) => {
            // Cut before it is doubled, so that the result is 1 s at most and can't overflow.
            *wait = (*wait).min(LONGEST_WAIT / 2) * 2;
            Ok(None)
        }
        Err(fault) => Err(fault),
    }
}

/// Accepts a connection. It skips those that failed before they were accepted, and waits out
/// shortages.
fn accept<L: Listener>(listener: &mut L, wait: &mut u64) -> Result<L::Conn, ListenerFault>
    ensures wait { OnOk result (wait.new ≡ first_wait) }
    ensures accepted { OnOk result (IsTrue L.tells →
        IsAcceptedAfter wait.old (L.did listener.old) (L.did listener.new)) }
    ensures fresh { IfOk result (λ conn. (L.Conn.faults conn ≡ 0)
        × IfSome (L.Conn.told conn) (λ doings. doings ≡ [])) }
    ensures given_up { OnErr result (IsGivenUp wait.old (L.faults listener.old)
        (L.faults listener.new) L.tells (L.did listener.old) (L.did listener.new)) }
{
    for _n in 0..u64::MAX {
        match try_accept(listener, wait) {
            Ok(Some(conn)) => return Ok(conn),
            Ok(None) => {}
            Err(fault) => return Err(fault),
        }
    }
    // Never reached: a call must be proved to end, so the loop counts.
    Err(ListenerFault)
}

impl<L: Listener + fmt::Debug> fmt::Debug for ListenerGate<L> {
    fn fmt<W: fmt::Write>(&self, f: &mut fmt::Formatter<W>) -> fmt::Result {
        f.debug_struct("ListenerGate")
            .field("listener", &self.listener)
            .finish_non_exhaustive()
    }
}

impl<L: Listener + Drop> Gate for ListenerGate<L> {
    ghost use Rattle.listener_gate.specs.Histories.{told_if, content_with, shared_after};
    ghost use Rattle.listener_gate.specs.Histories.{none_shared, part_after};
    ghost use Rattle.vod_base.specs.Gates.{fresh_part};

    type Conn = L::Conn;

    ghost faults = { λ g. g.faults };

    ghost told = { λ g. told_if L.tells (content_with
        (shared_after (λ p. part_after L.Conn.faults L.Conn.told (fresh_part p.number)
        p.notes.items)
        none_shared g.history.items)
        (part_after L.Conn.faults L.Conn.told (fresh_part g.own.number) g.own.notes.items)) };

    fn open(&mut self, how: &Opening) -> Result<(), GateFault>
        // faults: they are counted, and the history has them
        ensures count { self.old.faults ≤ self.new.faults }
        ensures fault { OnErr result (HasRisen self.old.faults self.new.faults) }
        ensures open { OnOk result (⟦<ListenerGate<L> as Gate>⟧.told self.new ≡
            option_map (after_open (Some how.now)) (⟦<ListenerGate<L> as Gate>⟧.told self.old)) }
        ensures lost { OnErr result (⟦<ListenerGate<L> as Gate>⟧.told self.new ≡
            option_map (after_open None) (⟦<ListenerGate<L> as Gate>⟧.told self.old)) }
        // leaves: a bound listener, and a gate that has given nothing
        ensures bound { OnOk result (IsTrue L.tells →
            L.did self.new.listener ≡ L.did self.old.listener
            ++ ListenerDoing.Bound (address_of how.now) how.now.port how.now.slot_units ∷ []) }
        ensures begun { OnOk result ((self.new.is_open ≡ true)
            × (self.new.most ≡ how.now.connections) × (self.new.given ≡ 0)) }
        ensures closed { OnErr result (self.new.is_open ≡ false) }
        // a fault comes of the listener alone
        ensures cause { OnErr result
            (HasRisen (L.faults self.old.listener) (L.faults self.new.listener)) }
    {
        // Binding lets go of the old socket first. So a gate that can't be bound is closed.
        self.is_open = false;
        match self
            .listener
            .bind(address_of(how), how.port, how.slot_units)
        {
            Ok(()) => {
                self.is_open = true;
                self.most = how.connections;
                self.given = 0;
                // Parts are numbered anew from each opening.
                self.splits = 0;
                self.history = self.history.and(&None, &GateNote::Opened(*how));
                Ok(())
            }
            Err(ListenerFault) => {
                self.splits = 0;
                self.faults = self.faults.saturating_add(1);
                self.history = self.history.and(&None, &GateNote::NotOpened);
                Err(GateFault)
            }
        }
    }

    fn split(&mut self) -> Result<ListenerGate<L>, GateFault>
        // needs: in the history, an open gate that may be split
        requires may { IfSome (⟦<ListenerGate<L> as Gate>⟧.told self.old) MaySplit }
        ensures count { self.old.faults ≤ self.new.faults }
        ensures fault { OnErr result (HasRisen self.old.faults self.new.faults) }
        // answers: a part that has given nothing, with a handle of its own
        ensures split { OnOk result (⟦<ListenerGate<L> as Gate>⟧.told self.new ≡ option_map
            split_off (⟦<ListenerGate<L> as Gate>⟧.told self.old)) }
        ensures part { IfOk result (λ part.
            (⟦<ListenerGate<L> as Gate>⟧.told part ≡ option_map new_part (⟦<ListenerGate<L> as Gate>⟧.told self.old))
            × (part.faults ≡ 0)) }
        ensures lost { OnErr result (⟦<ListenerGate<L> as Gate>⟧.told self.new ≡ ⟦<ListenerGate<L> as Gate>⟧.told self.old) }
        ensures copied { OnOk result (IsTrue L.tells →
            L.did self.new.listener ≡ L.did self.old.listener ++ ListenerDoing.Copied ∷ []) }
        ensures fresh { IfOk result (λ part. IsTrue L.tells → L.did part.listener ≡ []) }
        ensures begun { IfOk result (λ part. (part.is_open ≡ true)
            × (part.most ≡ self.old.most) × (part.given ≡ 0) × (part.wait ≡ first_wait)) }
        // leaves: the gate as it was, open
        ensures same { (self.new.is_open ≡ self.old.is_open) × (self.new.most ≡ self.old.most)
            × (self.new.given ≡ self.old.given) }
        ensures was_open { OnOk result (self.old.is_open ≡ true) }
        // a fault comes where the gate isn't open, or of the listener
        ensures cause { OnErr result ((self.old.is_open ≡ false)
            ⊎ HasRisen (L.faults self.old.listener) (L.faults self.new.listener)) }
    {
        if !self.is_open {
            self.faults = self.faults.saturating_add(1);
            return Err(GateFault);
        }
        match self.listener.copy() {
            Ok(listener) => {
                let number = self.splits;
                // The number names the part in proofs alone, and their count saturates, too
                // (`counted`).
                self.splits = number.saturating_add(1);
                self.history = self.history.and(&None, &GateNote::Split);
                Ok(ListenerGate {
                    listener,
                    is_open: true,
                    most: self.most,
                    // `connections` limits each part by itself: it is a limit of each worker.
                    given: 0,
                    wait: FIRST_WAIT,
                    splits: 0,
                    faults: 0,
                    own: PartHistory::new(number),
                    history: Log::new(),
                })
            }
            Err(ListenerFault) => {
                self.faults = self.faults.saturating_add(1);
                Err(GateFault)
            }
        }
    }

    fn take(&mut self) -> Result<Option<L::Conn>, GateFault>
        // answers: the next connection, none, or a fault, each noted in the history
        ensures count { self.old.faults ≤ self.new.faults }
        ensures fault { OnErr result (HasRisen self.old.faults self.new.faults) }
        ensures gave { IfOk result (λ taken. IfSome taken (λ conn.
            ⟦<ListenerGate<L> as Gate>⟧.told self.new ≡ option_map after_take (⟦<ListenerGate<L> as Gate>⟧.told self.old))) }
        ensures fresh { IfOk result (λ taken. IfSome taken (λ conn. (L.Conn.faults conn ≡ 0)
            × IfSome (L.Conn.told conn) (λ doings. doings ≡ []))) }
        ensures none { IfOk result (λ taken. taken ≡ None →
            ⟦<ListenerGate<L> as Gate>⟧.told self.new ≡ option_map (after_empty_take NoMore)
            (⟦<ListenerGate<L> as Gate>⟧.told self.old)) }
        ensures lost { OnErr result (⟦<ListenerGate<L> as Gate>⟧.told self.new ≡
            option_map (after_empty_take Failed) (⟦<ListenerGate<L> as Gate>⟧.told self.old)) }
        // a connection is given where fewer than all were given, and accepted after the waits that
        // are due
        ensures may { IfOk result (λ taken. IfSome taken (λ conn.
            MayGive self.old.most self.old.given)) }
        ensures counted { IfOk result (λ taken. IfSome taken (λ conn.
            self.new.given ≡ one_more self.old.given)) }
        ensures accepted { IfOk result (λ taken. IfSome taken (λ conn. IsTrue L.tells →
            IsAcceptedAfter self.old.wait (L.did self.old.listener) (L.did self.new.listener))) }
        ensures wait { IfOk result (λ taken. IfSome taken (λ conn. self.new.wait ≡ first_wait)) }
        // none is given where all were given, and the listener does nothing
        ensures all { IfOk result (λ taken. taken ≡ None →
            HasGivenAll self.old.most self.old.given) }
        ensures idle { IfOk result (λ taken. taken ≡ None →
            (self.new.listener ≡ self.old.listener) × (self.new.wait ≡ self.old.wait)) }
        ensures same { (self.new.is_open ≡ self.old.is_open) × (self.new.most ≡ self.old.most) }
        ensures was_open { OnOk result (self.old.is_open ≡ true) }
        // a fault comes where the gate isn't open, or of the listener
        ensures cause { OnErr result ((self.old.is_open ≡ false)
            ⊎ IsGivenUp self.old.wait (L.faults self.old.listener) (L.faults self.new.listener)
            L.tells (L.did self.old.listener) (L.did self.new.listener)) }
    {
        if !self.is_open {
            self.faults = self.faults.saturating_add(1);
            self.own.note(&None, PartNote::Failed);
            return Err(GateFault);
        }
        // Asked before the accept: else a connection would be accepted that can't be given.
        if self.most > 0 && self.given >= self.most {
            self.own.note(&None, PartNote::NoMore);
            return Ok(None);
        }
        match accept(&mut self.listener, &mut self.wait) {
            Ok(conn) => {
                // Without a limit the count may stay at its end: only a limit is compared with it.
                self.given = self.given.saturating_add(1);
                self.own.note(&None, PartNote::Gave);
                Ok(Some(conn))
            }
            Err(ListenerFault) => {
                self.faults = self.faults.saturating_add(1);
                self.own.note(&None, PartNote::Failed);
                Err(GateFault)
            }
        }
    }

    fn give_back(&mut self, conn: L::Conn)
        requires out { IfSome (⟦<ListenerGate<L> as Gate>⟧.told self.old) HasConnOut }
        ensures count { self.old.faults ≤ self.new.faults }
        ensures back { ⟦<ListenerGate<L> as Gate>⟧.told self.new ≡
            option_map (after_return (record {
              faults = L.Conn.faults conn;
              told = L.Conn.told conn;
            })) (⟦<ListenerGate<L> as Gate>⟧.told self.old) }
        ensures ended { IsTrue L.tells →
            (L.did self.new.listener ≡ L.did self.old.listener)
            × (L.ended self.new.listener ≡ one_more (L.ended self.old.listener)) }
    {
        // A note takes an `Option` by reference. So the connection is wrapped for it, and taken out
        // again to be ended.
        let back = Some(conn);
        self.own.note(&back, PartNote::CameBack);
        if let Some(conn) = back {
            self.listener.end(conn);
        }
    }

    fn rejoin(&mut self, part: ListenerGate<L>)
        // needs: a part of this gate that isn't back yet
        requires out { IfSome (⟦<ListenerGate<L> as Gate>⟧.told self.old) (λ c.
            IfSome (⟦<ListenerGate<L> as Gate>⟧.told part) (λ p. IsPartOut p.own.number c)) }
        // leaves: the part's faults and history added, and all else as it was
        ensures count { self.old.faults ≤ self.new.faults }
        ensures risen { 0 < part.faults → HasRisen self.old.faults self.new.faults }
        ensures joined { ⟦<ListenerGate<L> as Gate>⟧.told self.new ≡
            told_rejoined (⟦<ListenerGate<L> as Gate>⟧.told part) (⟦<ListenerGate<L> as Gate>⟧.told
            self.old) }
        ensures same { (self.new.listener ≡ self.old.listener)
            × (self.new.is_open ≡ self.old.is_open) × (self.new.most ≡ self.old.most)
            × (self.new.given ≡ self.old.given) × (self.new.wait ≡ self.old.wait) }
    {
        let ListenerGate { own, faults, .. } = part;
        // The part's faults become the gate's, as the gate is what the caller still holds. The
        // part's handle is closed here; the gate's own stays.
        self.faults = self.faults.saturating_add(faults);
        self.history = self.history.and(&Some(own), &GateNote::CameBack);
    }
}

/// The address that a gate listens at.
fn address_of(how: &Opening) -> [u8; 4]
    ensures { result ≡ address_of how.now }
{
    if how.all {
        [0, 0, 0, 0]
    } else {
        [127, 0, 0, 1]
    }
}
