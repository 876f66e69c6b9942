//! Each atomic step of the lock, as a small function.
//!
//! There are eight kinds of step: a pass draws a ticket; it reads which ticket is served; it takes
//! the value out of its slot or puts it back; it counts the entry that the value has more; it
//! passes the lock on; a pass is split in two; two passes are joined; and after a split or a join a
//! pass reads the word of the tickets. The last kind changes nothing: it exposes what the rule says
//! of the pass.

ghost use Rattle.std.specs.Prelude.{◌≡◌, ◌++◌, [], ◌∷◌, Some, false, true};
ghost use Rattle.admission.specs.declared.entries.Entry.{Entry};
ghost use Rattle.turnstile.specs.declared.view.PassStage.TheVariants.{Idle};
ghost use Rattle.admission.specs.Makers.{entries_by};
ghost use Rattle.turnstile.specs.TableSeats.{IsSame, IsSeated, IsFree};
ghost use Rattle.turnstile.specs.Steps.{HasDrawn, HasLeft, HasLooked, HasCounted, HasRead, IsTurn};
ghost use Rattle.turnstile.specs.Steps.{IsWaiting, Knows, after_counting, slot_list};

use crate::kept_value::Kept;
use crate::table::{ENTRIES, Place, SERVING, SharedTable, TICKETS};
use crate::view::View;
use atomic_table::Play;
use std::marker::PhantomData;

/// What drawing a ticket exposes.
pub(crate) struct Draws;

impl<B> Play<Option<B>, View> for Draws {
    ghost then = { λ _. HasDrawn };
}

/// What reading the ticket that is served exposes.
pub(crate) struct Looks<B> {
    marker: PhantomData<B>,
}

impl<B: Kept> Play<Option<B>, View> for Looks<B> {
    ghost then = { λ _. HasLooked B.entries B.terms };
}

/// What counting an entry exposes.
pub(crate) struct Counts<B> {
    marker: PhantomData<B>,
}

impl<B: Kept> Play<Option<B>, View> for Counts<B> {
    ghost then = { λ _. HasCounted B.entries };
}

/// What passing the lock on exposes.
pub(crate) struct Leaves;

impl<B> Play<Option<B>, View> for Leaves {
    ghost then = { λ _. HasLeft };
}

/// What reading a word exposes of what the pass knows.
pub(crate) struct Reads;

impl<B> Play<Option<B>, View> for Reads {
    ghost then = { λ _. HasRead };
}

/// Draws a ticket.
pub(crate) fn draw<B: Kept>(shared: &SharedTable<B>, place: &mut Place<B>) -> u64
    requires seat { IsSeated shared.now.table_id place.old }
    requires free { IsFree place.old.me }
    ensures same { IsSame place.old place.new }
    ensures drew { HasDrawn place.old.me result place.new.me }
{
    // one atomic step, so each caller has a ticket of its own and the tickets fix their order
    shared.fetch_add::<Draws>(place, TICKETS, 1)
}

/// Reads which ticket is served. Where it is this pass's ticket, the pass holds the lock and has
/// the slot.
pub(crate) fn look<B: Kept>(shared: &SharedTable<B>, place: &mut Place<B>, ticket: u64) -> u64
    requires seat { IsSeated shared.now.table_id place.old }
    requires waits { IsWaiting place.old.me ticket }
    ensures same { IsSame place.old place.new }
    ensures looked { HasLooked B.entries B.terms place.old.me result place.new.me }
{
    // Reading its own ticket gives a pass the slot, so the lock needs no step of its own.
    shared.load::<Looks<B>>(place, SERVING)
}

/// Counts the entry that the value in the slot has more.
pub(crate) fn count_entry<B: Kept>(shared: &SharedTable<B>, place: &mut Place<B>)
    requires seat { IsSeated shared.now.table_id place.old }
    requires turn { (value : B) × IsTurn place.old.me (Some value) }
    requires one { (e : Entry)
        × (slot_list B.entries place.old.me.1 ≡ place.old.me.0.seen ++ e ∷ [])
        × (e.maker ≡ place.old.me.0.number) }
    ensures same { IsSame place.old place.new }
    ensures counted { place.new.me ≡ after_counting B.entries place.old.me }
{
    // By the invariant the word is the length of the journal, so this step makes the entry.
    shared.fetch_add::<Counts<B>>(place, ENTRIES, 1);
}

/// Gives the slot back, and passes the lock to the next ticket. Returns the ticket that was served
/// until then.
pub(crate) fn give_back<B: Kept>(shared: &SharedTable<B>, place: &mut Place<B>) -> u64
    requires seat { IsSeated shared.now.table_id place.old }
    requires turn { (value : B) × IsTurn place.old.me (Some value)
        × (B.entries value ≡ place.old.me.0.seen) × (B.terms value ≡ place.old.me.0.terms) }
    ensures same { IsSame place.old place.new }
    ensures left { (place.new.me.0 ≡ record place.old.me.0 { stage = Idle })
        × (place.new.me.1 ≡ []) }
{
    // One step gives the slot back and serves the next ticket, so the next pass finds the value.
    shared.fetch_add::<Leaves>(place, SERVING, 1)
}

/// Reads a word, which exposes what the pass knows and changes nothing.
pub(crate) fn read_view<B: Kept>(shared: &SharedTable<B>, place: &mut Place<B>)
    requires seat { IsSeated shared.now.table_id place.old }
    requires left { place.old.me.0.spent ≡ false }
    ensures same { IsSame place.old place.new }
    ensures told { (place.new.me ≡ place.old.me) × Knows place.old.me.0 }
{
    // any access exposes the invariant; the number that it reads isn't needed
    shared.load::<Reads>(place, TICKETS);
}

/// Counts the entry that the value in the slot has more, if it has one.
pub(crate) fn count_if_grown<B: Kept>(shared: &SharedTable<B>, place: &mut Place<B>, grown: bool)
    requires seat { IsSeated shared.now.table_id place.old }
    requires turn { (value : B) × IsTurn place.old.me (Some value) }
    requires own { place.old.me.0.mine ≡ entries_by place.old.me.0.number place.old.me.0.seen }
    requires one { grown ≡ true → (e : Entry)
        × (slot_list B.entries place.old.me.1 ≡ place.old.me.0.seen ++ e ∷ [])
        × (e.maker ≡ place.old.me.0.number) }
    requires none { grown ≡ false → slot_list B.entries place.old.me.1 ≡ place.old.me.0.seen }
    ensures same { IsSame place.old place.new }
    ensures noted { place.new.me ≡ after_counting B.entries place.old.me }
{
    if grown {
        count_entry(shared, place);
    }
}
