//! The printed lines of a day that are no entries of the journal.

ghost use Rattle.std.specs.Prelude.{◌≡◌, ◌++◌, OnOk, codes, flat_map};
ghost use Rattle.vod_base.specs.Fields.{field};
ghost use Rattle.day_script.specs.LineTexts.{entry_words, fair_text, fault_text, fault_words};
ghost use Rattle.day_script.specs.LineTexts.{full_text, offer_text, slot_text, slot_words};
ghost use Rattle.day_script.specs.LineTexts.{start_words, state_text, sum_words, tried_text};
ghost use Rattle.day_script.specs.LineTexts.{turn_words};

use crate::fair_totals::{EntryCounts, FairTotals};
use admission::Full;
use early_start::{Offers, Tried};
use vod_base::{NoMemory, push, push_field};
use wire_curve::CurveFault;

/// Appends the line of a client that can't be asked in its state.
///
/// # Errors
///
/// [`NoMemory`] where there is no memory for the text. `out` may then hold a prefix of it.
pub fn push_state(out: &mut Vec<u8>) -> Result<(), NoMemory>
    ensures { OnOk result (out.new.items ≡ out.old.items ++ state_text) }
{
    push(out, b"refused state\n")
}

/// Appends the line of curves that are refused.
///
/// # Errors
///
/// [`NoMemory`] where there is no memory for the text. `out` may then hold a prefix of it.
#[tactic(auto, using(std::proofs::lemmas::List::append_assoc))]
pub fn push_fault(out: &mut Vec<u8>, fault: CurveFault) -> Result<(), NoMemory>
    ensures { OnOk result (out.new.items ≡ out.old.items ++ (fault_text fault)) }
{
    push_fault_words(out, fault)?;
    push(out, b"\n")
}

/// Appends the line of a full journal, with its entries and the plays that are open.
///
/// # Errors
///
/// [`NoMemory`] where there is no memory for the text. `out` may then hold a prefix of it.
#[tactic(auto, using(std::proofs::lemmas::List::append_assoc))]
pub fn push_full(out: &mut Vec<u8>, full: Full) -> Result<(), NoMemory>
    ensures { OnOk result (out.new.items ≡ out.old.items ++ (full_text full)) }
{
    push_field(out, b"refused journal entries=", full.entries)?;
    push_field(out, b" open=", full.live)?;
    push(out, b"\n")
}

/// Appends the line of a slot, with the bytes that were sent and booked since the last one.
///
/// # Errors
///
/// [`NoMemory`] where there is no memory for the text. `out` may then hold a prefix of it.
#[tactic(auto, using(std::proofs::lemmas::List::append_assoc))]
pub fn push_slot(out: &mut Vec<u8>, slot: u64, sent: u64, booked: u64) -> Result<(), NoMemory>
    ensures { OnOk result (out.new.items ≡ out.old.items ++ (slot_text slot sent booked)) }
{
    push_field(out, b"slot ", slot)?;
    push_field(out, b" sent=", sent)?;
    push_field(out, b" booked=", booked)?;
    push(out, b"\n")
}

/// Appends the lines of an offer: one for each start that was tried in vain, and one for what is
/// offered.
///
/// # Errors
///
/// [`NoMemory`] where there is no memory for the text. `out` may then hold a prefix of it.
#[tactic(auto, using(std::proofs::lemmas::List::append_assoc))]
pub fn push_offer(out: &mut Vec<u8>, offers: &Offers) -> Result<(), NoMemory>
    ensures { OnOk result (out.new.items ≡ out.old.items ++ (offer_text offers.now)) }
{
    push_all_tried(out, offers.tried())?;
    push_offered(out, offers.start(), offers.tried().len() as u64)
}

/// Appends the line of a large day.
///
/// # Errors
///
/// [`NoMemory`] where there is no memory for the text. `out` may then hold a prefix of it.
#[tactic(auto, using(std::proofs::lemmas::List::append_assoc))]
pub fn push_fair(
    out: &mut Vec<u8>,
    counts: &FairTotals,
    entries: &EntryCounts,
) -> Result<(), NoMemory>
    ensures { OnOk result (out.new.items ≡ out.old.items ++ fair_text counts.now entries.now) }
{
    push_turns(out, counts, entries)?;
    push_slots(out, counts)?;
    push(out, b"\n")
}

/// Appends the name of the curves' refusal and its numbers.
#[tactic(auto, using(std::proofs::lemmas::List::append_assoc))]
fn push_fault_words(out: &mut Vec<u8>, fault: CurveFault) -> Result<(), NoMemory>
    ensures { OnOk result (out.new.items ≡ out.old.items ++ (fault_words fault)) }
{
    match fault {
        CurveFault::NoPictures => push(out, b"refused NoPictures"),
        CurveFault::TooManySlots { slots } => push_field(out, b"refused TooManySlots ", slots),
        CurveFault::BufferTooSmall { slot, used, least } => {
            push_field(out, b"refused BufferTooSmall ", slot)?;
            push_field(out, b" ", used)?;
            push_field(out, b" ", least)
        }
    }
}

/// Appends the line of a start that was tried in vain.
#[tactic(auto, using(std::proofs::lemmas::List::append_assoc))]
fn push_tried(out: &mut Vec<u8>, tried: &Tried) -> Result<(), NoMemory>
    ensures { OnOk result (out.new.items ≡ out.old.items ++ (tried_text tried.now)) }
{
    push_field(out, b"tried start=", tried.start)?;
    push_field(out, b" slot=", tried.over.slot)?;
    push_room(out, tried.over.booked, tried.over.asked)
}

/// Appends what is booked in the slot that has no room and what was asked for there, and ends the
/// line.
#[tactic(auto, using(std::proofs::lemmas::List::append_assoc))]
fn push_room(out: &mut Vec<u8>, booked: u64, asked: u64) -> Result<(), NoMemory>
    ensures { OnOk result (out.new.items ≡ out.old.items
        ++ (field (codes " booked=") booked ++ field (codes " asked=") asked ++ codes "\n")) }
{
    push_field(out, b" booked=", booked)?;
    push_field(out, b" asked=", asked)?;
    push(out, b"\n")
}

/// Appends the lines of the starts that were tried in vain.
fn push_all_tried(out: &mut Vec<u8>, tried: &[Tried]) -> Result<(), NoMemory>
    ensures { OnOk result (out.new.items ≡ out.old.items ++ (flat_map tried_text tried.now)) }
{
    for start in tried {
        push_tried(out, start)?;
    }
    Ok(())
}

/// Appends what is offered and how many starts were tried in vain, and ends the line.
#[tactic(auto, using(std::proofs::lemmas::List::append_assoc))]
fn push_offered(out: &mut Vec<u8>, start: Option<u64>, tried: u64) -> Result<(), NoMemory>
    ensures { OnOk result (out.new.items ≡ out.old.items
        ++ (start_words start ++ field (codes " tried=") tried ++ codes "\n")) }
{
    push_start(out, start)?;
    push_field(out, b" tried=", tried)?;
    push(out, b"\n")
}

/// Appends what is offered.
fn push_start(out: &mut Vec<u8>, start: Option<u64>) -> Result<(), NoMemory>
    ensures { OnOk result (out.new.items ≡ out.old.items ++ (start_words start)) }
{
    match start {
        Some(start) => push_field(out, b"offer start=", start),
        None => push(out, b"offer none"),
    }
}

/// Appends how many entries of a fair have each answer.
#[tactic(auto, using(crate::proofs::AppendedTextLemmas::joins), unfolding(crate::specs::LineTexts::entry_words))]
fn push_entries(out: &mut Vec<u8>, entries: &EntryCounts) -> Result<(), NoMemory>
    ensures { OnOk result (out.new.items ≡ out.old.items ++ entry_words entries.now) }
{
    push_field(out, b" admitted=", entries.admitted)?;
    push_field(out, b" overflow=", entries.overflows)?;
    push_field(out, b" halted=", entries.halted)
}

/// Appends what a fair's slots brought.
#[tactic(auto, using(crate::proofs::AppendedTextLemmas::joins), unfolding(crate::specs::LineTexts::sum_words))]
fn push_sums(out: &mut Vec<u8>, counts: &FairTotals) -> Result<(), NoMemory>
    ensures { OnOk result (out.new.items ≡ out.old.items ++ sum_words counts.now) }
{
    push_field(out, b" sent=", counts.sent)?;
    push_field(out, b" booked=", counts.booked)?;
    push_field(out, b" peak=", counts.peak)
}

/// Appends the turns of a fair and how many entries have each answer.
#[tactic(auto, using(crate::proofs::AppendedTextLemmas::joins), unfolding(crate::specs::LineTexts::turn_words))]
fn push_turns(out: &mut Vec<u8>, counts: &FairTotals, entries: &EntryCounts) -> Result<(), NoMemory>
    ensures { OnOk result (out.new.items ≡ out.old.items ++ turn_words counts.now entries.now) }
{
    push_field(out, b"fair turns=", counts.turns)?;
    push_entries(out, entries)
}

/// Appends how often the journal was full, the last slot, and what the slots brought.
#[tactic(auto, using(crate::proofs::AppendedTextLemmas::joins), unfolding(crate::specs::LineTexts::slot_words))]
fn push_slots(out: &mut Vec<u8>, counts: &FairTotals) -> Result<(), NoMemory>
    ensures { OnOk result (out.new.items ≡ out.old.items ++ slot_words counts.now) }
{
    push_field(out, b" full=", counts.full)?;
    push_field(out, b" last=", counts.last)?;
    push_sums(out, counts)
}
