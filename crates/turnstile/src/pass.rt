//! A pass.

ghost use Rattle.std.specs.Prelude.{◌≡◌, false, true};
ghost use Rattle.turnstile.specs.TableSeats.{IsFree};
ghost use Rattle.turnstile.specs.PassSeats.{IsViewOf, state_of_view};

use crate::table::Place;
use crate::view::View;
use atomic_table::Badge;
use std::marker::Model;
use std::{fmt, mem};

/// The right of one caller to take the lock, as often as it needs it. Its number is the maker of
/// the entries that it makes.
///
/// Contracts see its turnstile, its number, the list as far as it has seen it, its own entries with
/// their places, how many passes were split from it, and what those that were joined to it had
/// made; and whether it holds the lock.
#[derive(Drop)]
pub struct Pass {
    badge: Badge<View>,
    number: u32,
    splits: u32,
}

impl Model for Pass {
    ghost use Rattle.turnstile.specs.Passes.{PassState};

    ghost Value = { PassState };

    ghost use Rattle.turnstile.specs.Inside.{pass_state, IsPass};

    ghost view = { pass_state };

    ghost invariant = { IsPass };
}

/// Its number alone: what it has seen exists for contracts only.
impl fmt::Debug for Pass {
    fn fmt<W: fmt::Write>(&self, f: &mut fmt::Formatter<W>) -> fmt::Result {
        f.debug_struct("Pass")
            .field("number", &self.number)
            .finish_non_exhaustive()
    }
}

impl Pass {
    /// Returns its number: 0 for the first pass.
    pub fn number(&self) -> u32
        ensures { result ≡ self.now.number }
    {
        self.number
    }

    /// How many passes were split from it.
    pub(crate) fn splits(&self) -> u32
        ensures { result ≡ self.now.splits }
    {
        self.splits
    }

    /// A pass that rests.
    pub(crate) fn at_rest<B>(place: Place<B>, number: u32, splits: u32) -> Pass
        requires free { IsFree place.me }
        requires view { IsViewOf number splits place.me.0 }
        ensures { result ≡ state_of_view place.table_id place.me.0 }
    {
        Pass {
            badge: place.into_badge(),
            number,
            splits,
        }
    }

    /// Takes the seat of a pass that rests.
    pub(crate) fn take_seat<B>(&mut self) -> Place<B>
        requires { self.old.has_turn ≡ false }
        ensures free { IsFree result.me }
        ensures view { IsViewOf self.old.number self.old.splits result.me.0 }
        ensures old { self.old ≡ state_of_view result.table_id result.me.0 }
        ensures away { self.new.has_turn ≡ true }
        ensures number { self.new.number ≡ self.old.number }
        ensures splits { self.new.splits ≡ self.old.splits }
    {
        // A blank badge stays behind: while the lock is held the seat is in the turn alone.
        mem::replace(&mut self.badge, Badge::blank()).into_seat()
    }
}
