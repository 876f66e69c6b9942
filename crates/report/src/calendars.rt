//! The text of a calendar: its first slot, and each slot in which bytes are booked.

ghost use Rattle.std.specs.Prelude.{◌++◌, codes, flat_map};
ghost use Rattle.slot_calendar.specs.Calendars.{booked_at};
ghost use Rattle.vod_base.specs.Appends.{IsAppended};
ghost use Rattle.report.specs.CalendarTexts.{booked_slots, calendar_text, slot_line, slot_words};

use slot_calendar::{Calendar, RING_SLOTS};
use vod_base::{NoMemory, push, push_field};

/// Appends the text of a calendar: `calendar from=T` with T its now, then `at S booked=X` for each
/// slot S of its ring, from now on, in which X bytes are booked, above 0, and then `end`. Numbers
/// are decimal, and each line ends with LF. It takes one pass over the slots.
///
/// # Errors
///
/// After [`NoMemory`] a prefix of the text was appended.
pub fn calendar_text(calendar: &Calendar, out: &mut Vec<u8>) -> Result<(), NoMemory>
    ensures { IsAppended out.old.items
        (calendar_text calendar.now.first (booked_at calendar.now)) out.new.items result }
{
    push_field(out, b"calendar from=", calendar.now())?;
    push(out, b"\n")?;
    push_slots(out, calendar)?;
    push(out, b"end\n")
}

/// Appends the line of a slot.
fn push_slot(out: &mut Vec<u8>, slot: u64, booked: u64) -> Result<(), NoMemory>
    ensures { IsAppended out.old.items (slot_words slot booked ++ codes "\n") out.new.items result }
{
    push_field(out, b"at ", slot)?;
    push_field(out, b" booked=", booked)?;
    push(out, b"\n")
}

/// Appends the lines of the slots in which bytes are booked.
fn push_slots(out: &mut Vec<u8>, calendar: &Calendar) -> Result<(), NoMemory>
    ensures { IsAppended out.old.items
        (flat_map (slot_line (booked_at calendar.now))
        (booked_slots calendar.now.first (booked_at calendar.now)))
        out.new.items result }
{
    let now = calendar.now();
    // Nothing is booked past the ring, so these are all slots that can have a line.
    for slot in now..now + RING_SLOTS {
        let booked = calendar.booked(slot);
        if booked > 0 {
            push_slot(out, slot, booked)?;
        }
    }
    Ok(())
}
