//! Listeners, as a trait: connections, part by part.

ghost use Rattle.std.specs.Prelude.{◌≡◌, ◌<◌, ◌≤◌, ℕ, Option, Some, None, [], option_map, IfSome};
ghost use Rattle.std.specs.Prelude.{IfOk, OnOk, OnErr};
ghost use Rattle.vod_base.specs.IoState.{HasRisen};
ghost use Rattle.vod_base.specs.Gates.{Content, NoMore, Failed, MaySplit, IsPartOut, HasConnOut};
ghost use Rattle.vod_base.specs.Gates.{after_open, split_off, new_part, after_take};
ghost use Rattle.vod_base.specs.Gates.{after_empty_take, after_return, told_rejoined};

use crate::errors::GateFault;
use crate::links::Link;

/// The settings with which a gate is opened.
#[derive(Clone, Copy, Debug, PartialEq, Eq)]
pub struct Opening {
    /// The TCP port.
    pub port: u16,
    /// Whether connections from other machines are accepted, too.
    pub all: bool,
    /// The number of connections that each part gives; 0 means without end.
    pub connections: u64,
    /// The slot length in 1/360,000 second, 360 to 360,000.
    pub slot_units: u32,
}

/// A listener. It is opened and split into parts, one for each worker; each part gives connections.
///
/// A gate counts its faults as a library does; a part begins with the count 0. An object in memory
/// exposes to contracts what it did.
pub trait Gate: Sized {
    type Conn: Link;

    ghost faults: { Self → ℕ };

    ghost told: { Self → Option Content };

    /// Opens the gate, and forgets the earlier parts. Each call is counted.
    ///
    /// # Errors
    ///
    /// [`GateFault`] if it can't listen. Then it isn't open, and the earlier parts are forgotten.
    fn open(&mut self, how: &Opening) -> Result<(), GateFault>
        ensures count { faults self.old ≤ faults self.new }
        ensures fault { OnErr result (HasRisen (faults self.old) (faults self.new)) }
        ensures open { OnOk result (told self.new ≡
            option_map (after_open (Some how.now)) (told self.old)) }
        ensures lost { OnErr result (told self.new ≡
            option_map (after_open None) (told self.old)) };

    /// Returns a new part, which gives connections of its own.
    ///
    /// # Errors
    ///
    /// [`GateFault`] if there is no new part.
    fn split(&mut self) -> Result<Self, GateFault>
        // needs: an open gate with fewer than 256 parts, where it exposes what it did
        requires may { IfSome (told self.old) MaySplit }
        // faults: the count never falls, and rises where the call fails
        ensures count { faults self.old ≤ faults self.new }
        ensures fault { OnErr result (HasRisen (faults self.old) (faults self.new)) }
        // leaves: one part more, which has no fault; after a fault, all as it was
        ensures split { OnOk result (told self.new ≡ option_map split_off (told self.old)) }
        ensures part { IfOk result (λ part. (told part ≡ option_map new_part (told self.old))
            × (faults part ≡ 0)) }
        ensures lost { OnErr result (told self.new ≡ told self.old) };

    /// Waits for the next connection, and returns it, or None if there are no more. A connection
    /// that it returns did nothing yet.
    ///
    /// # Errors
    ///
    /// [`GateFault`] if none can be accepted any more.
    fn take(&mut self) -> Result<Option<Self::Conn>, GateFault>
        // faults: the count never falls, and rises where the call fails
        ensures count { faults self.old ≤ faults self.new }
        ensures fault { OnErr result (HasRisen (faults self.old) (faults self.new)) }
        // answers: a connection that did nothing yet
        ensures gave { IfOk result (λ taken.
            IfSome taken (λ conn. told self.new ≡ option_map after_take (told self.old))) }
        ensures fresh { IfOk result (λ taken.
            IfSome taken (λ conn. (Self.Conn.faults conn ≡ 0)
            × IfSome (Self.Conn.told conn) (λ doings. doings ≡ []))) }
        // leaves: where none is given, why: there are no more, or it failed
        ensures none { IfOk result (λ taken. taken ≡ None →
            told self.new ≡ option_map (after_empty_take NoMore) (told self.old)) }
        ensures lost { OnErr result (told self.new ≡
            option_map (after_empty_take Failed) (told self.old)) };

    /// Takes back a connection that `take` returned.
    fn give_back(&mut self, conn: Self::Conn)
        requires out { IfSome (told self.old) HasConnOut }
        ensures count { faults self.old ≤ faults self.new }
        ensures back { told self.new ≡
            option_map (after_return (record {
              faults = Self.Conn.faults conn;
              told = Self.Conn.told conn;
            })) (told self.old) };

    /// Takes back a part that was split from this gate since its last `open`.
    fn rejoin(&mut self, part: Self)
        requires out { IfSome (told self.old) (λ c.
            IfSome (told part) (λ p. IsPartOut p.own.number c)) }
        ensures count { faults self.old ≤ faults self.new }
        ensures risen { 0 < faults part → HasRisen (faults self.old) (faults self.new) }
        ensures joined { told self.new ≡ told_rejoined (told part) (told self.old) };
}
