//! The table of the lock: the atomic words `TICKETS`, `SERVING` and `ENTRIES`, and one slot for the
//! value.

use crate::kept_value::Kept;
use crate::view::View;
use atomic_table::{Join, Play, Seat, Shared, Split, Table, TableRule};
use std::alloc::Global;
use std::marker::PhantomData;
use std::snapshot::Snapshot;

/// How many tickets were drawn, modulo 2^64.
pub(crate) const TICKETS: usize = 0;

/// The ticket that is served, modulo 2^64.
pub(crate) const SERVING: usize = 1;

/// How many entries the list has, modulo 2^64.
pub(crate) const ENTRIES: usize = 2;

/// The slot of the value.
pub(crate) const VALUE: usize = 0;

/// The invariant of the lock: what is true of the words, the slot and the views at each moment.
pub(crate) struct Turns<B> {
    marker: PhantomData<B>,
}

impl<B: Kept> TableRule<Option<B>, View, Snapshot<B>> for Turns<B> {
    ghost use Rattle.turnstile.specs.TurnRule.{IsRuled};
    ghost use Rattle.turnstile.specs.Steps.{first_view};

    ghost holds = { λ key. IsRuled B.entries B.terms (B.terms key.value) };

    ghost first = { λ key. first_view (B.terms key.value) };
}

/// The table of a turnstile.
pub(crate) type Board<B> = Table<Option<B>, View, Snapshot<B>, Turns<B>, Global>;

/// What the passes share of the table.
pub(crate) type SharedTable<B> = Shared<Option<B>, View, Snapshot<B>, Turns<B>>;

/// A pass at the table, with its view and the slot that it has taken.
pub(crate) type Place<B> = Seat<Option<B>, View>;
