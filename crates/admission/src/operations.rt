//! What each command does to the calendar.

ghost use Rattle.std.specs.Prelude.{◌≡◌, ◌+◌, ◌<◌, ◌≤◌, ◌++◌, [], ◌∷◌, ℕ, length, vec_len};
ghost use Rattle.std.specs.Prelude.{vec_capacity, if◌then◌else◌, List, IsSomeAnd};
ghost use Rattle.plan_cert.specs.declared.Segment.{Segment};
ghost use Rattle.admission.specs.Machine.{State, CanHalt, IsAnswer, IsNeverOverbooked, next_state};
ghost use Rattle.admission.specs.Histories.{IsLegal, is_admission, state_after};
ghost use Rattle.admission.specs.BookInvariant.{MatchesState};

use crate::book::MAX_ENTRIES;
use crate::entries::{Answer, Command, Entry, Noted};
use plan_cert::Plan;
use slot_calendar::Calendar;
use slot_calendar::laws::law_booked_plan_can_be_released;
use vod_base::LATEST_SLOT;

/// Moves now up to a slot, and books a plan from the slot after now on, if it fits everywhere.
pub(crate) fn admit(calendar: &mut Calendar, slot: u64, plan: &Plan) -> Answer
    requires { slot ≤ LATEST_SLOT }
    ensures steps { calendar.new.steps ≡ calendar.old.steps }
    ensures answer { (state : State) → MatchesState calendar.old state →
        IsNeverOverbooked calendar.old.steps state →
        IsAnswer calendar.old.steps state (Command.Play slot plan.now) result }
    ensures next { (state : State) (place : ℕ) → MatchesState calendar.old state →
        MatchesState calendar.new (next_state state place (Command.Play slot plan.now) result) }
{
    let now = calendar.now().max(slot);
    // Also before a refusal: the request itself shows that time has come to its slot.
    calendar.advance(now);
    // Not in the slot of the request: the play's first bytes then have a complete slot.
    let start = now + 1;
    // the contract of this call says that a plan has at most 1,000,000 slots, so it ends within the
    // calendar's ring
    let _plan = plan.segments();
    match calendar.first_overflow(start, plan) {
        Some(over) => Answer::Overflow {
            slot: over.slot,
            booked: over.booked,
            asked: over.asked,
        },
        None => {
            calendar.book(start, plan);
            Answer::Admitted { start }
        }
    }
}

/// How many plays an answer opens: 1 where it admits one.
pub(crate) fn opened_count(answer: Answer) -> u64
    ensures { result ≡ (if is_admission answer then 1 else 0) }
{
    match answer {
        Answer::Admitted { .. } => 1,
        _ => 0,
    }
}

/// The plan and the start of the play that an entry admits, where it admits one.
fn admission_of(entry: &Entry) -> Option<(&Plan, u64)>
    ensures { (slot start : ℕ) (segments : List Segment) →
        entry.now.command ≡ Command.Play slot segments →
        entry.now.answer ≡ Answer.Admitted start →
        IsSomeAnd result (λ found. (found.0.now ≡ segments) × (found.1 ≡ start)) }
{
    match (&entry.command, entry.answer) {
        (Command::Play { plan, .. }, Answer::Admitted { start }) => Some((plan, start)),
        _ => None,
    }
}

/// Gives back what an open play has after its first `keep` bytes in the slots from now on. Its plan
/// stands in the entry that admitted it.
pub(crate) fn release_play(calendar: &mut Calendar, entries: &[Entry], number: u64, keep: u64)
    requires few { length entries.now ≤ MAX_ENTRIES }
    requires legal { IsLegal calendar.old.steps entries.now }
    requires follows { MatchesState calendar.old (state_after entries.now) }
    requires can { CanHalt (state_after entries.now) number keep }
    ensures steps { calendar.new.steps ≡ calendar.old.steps }
    ensures next { (place : ℕ) →
        MatchesState calendar.new
        (next_state (state_after entries.now) place (Command.Halt number keep) Answer.Halted) }
{
    // Only the place of an admitted play can be halted (`CanHalt`), so its entry has both.
    let (plan, start) = admission_of(&entries[number as usize]).unwrap();
    // the contract of this call says that the segments make a plan; all of it is booked, so the law
    // says that it can be stopped early
    let _plan = plan.segments();
    law_booked_plan_can_be_released();
    calendar.release(start, plan, keep);
}

/// Appends an entry, for which room is reserved.
pub(crate) fn note(entries: &mut Vec<Entry>, maker: u32, command: Command, answer: Answer) -> Noted
    requires { vec_len entries.old < vec_capacity entries.old }
    ensures place { result.place ≡ length entries.old.items }
    ensures answer { result.answer ≡ answer }
    ensures items { entries.new.items
        ≡ entries.old.items ++ record { maker = maker; command = command; answer = answer } ∷ [] }
    ensures room { vec_capacity entries.new ≡ vec_capacity entries.old }
{
    let place = entries.len() as u64;
    // No memory is taken: what the calendar has changed is then noted without fail.
    entries.push_reserved(Entry {
        maker,
        command,
        answer,
    });
    Noted { place, answer }
}
