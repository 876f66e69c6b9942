//! Scripts, run from their first line to the day's end.

ghost use Rattle.std.specs.Prelude.{◌≡◌, ◌≤◌, ◌<◌, ◌++◌, [], drop, length, IfOk, OnOk};
ghost use Rattle.admission.specs.Books.{places_taken};
ghost use Rattle.admission.specs.Histories.{IsLegal};
ghost use Rattle.report.specs.JournalTexts.{journal_text};
ghost use Rattle.day_run.specs.Days.{IsDay, IsLine, last_journal, last_lines, link_of};
ghost use Rattle.day_run.specs.Days.{first_moment};
ghost use Rattle.day_run.specs.DayLaws.{IsLink};
ghost use Rattle.day_script.specs.Scripts.{AreClients, IsClient, AreLines, StandsAfter, slot_after};
ghost use Rattle.day_run.specs.MachineState.{HasRun, IsKept, IsPrinted, IsDayMachine, link_on};
ghost use Rattle.day_run.specs.MachineState.{day_state_of, reply_text};
ghost use Rattle.day_run.specs.Sources.{AreSources};

use crate::machine::{DayMachine, LineAnswer};
use crate::media::Source;
use crate::media_sources::all_media_of;
use admission::{Book, Entry, MAX_ENTRIES};
use day_script::{Line, Script, push_fault, push_full, push_offer, push_slot, push_state};
use report::laws::{law_answers_match_commands, law_calendar_text_matches_state};
use report::{calendar_text, journal_text};
use slot_calendar::Profile;
use std::alloc::Global;
use std::fmt;
use vod_base::{LATEST_SLOT, NoMemory};
use wire_curve::CurveRefused;

/// What a day leaves.
#[derive(Drop)]
pub struct Day {
    /// What it printed.
    pub text: Vec<u8>,
    /// Its journal.
    pub journal: Vec<Entry>,
}

impl fmt::Debug for Day {
    fn fmt<W: fmt::Write>(&self, f: &mut fmt::Formatter<W>) -> fmt::Result {
        f.debug_struct("Day").finish_non_exhaustive()
    }
}

/// Runs a script on a link of this capacity, whose journal has room for `limit` entries, 2 to
/// 1,048,576, in slots of `slot_units`, 1 to 360,000, in 1/360,000 s. The sources are those that
/// the script names, in order.
///
/// # Errors
///
/// [`NoMemory`] alone.
pub fn run_script(
    alloc: Global,
    script: &Script,
    sources: &[Source],
    profile: Profile,
    limit: u64,
    slot_units: u32,
) -> Result<Day, NoMemory>
    // needs: settings in range, sound sources, and lines that may stand in their order
    requires some { 2 ≤ limit }
    requires few { limit ≤ MAX_ENTRIES }
    requires some_slot_units { 1 ≤ slot_units }
    requires slot_units_fit { slot_units ≤ 360000 }
    requires sources { AreSources sources.now }
    requires lines { AreLines (length sources.now) script.now.lines.items }
    // answers: the one text and the one journal that the definition of a day allows
    ensures day { IfOk result (λ day.
        IsDay (link_of profile limit slot_units sources.now) script.now.lines.items
        day.text.items day.journal.items) }
    ensures legal { IfOk result (λ day. IsLegal profile day.journal.items) }
    ensures within { IfOk result (λ day. places_taken day.journal.items ≤ limit) }
    // what the lines and the link are, for laws that need it
    ensures clients { OnOk result (AreClients script.now.lines.items) }
    ensures link { OnOk result (IsLink (link_of profile limit slot_units sources.now)) }
{
    let media = all_media_of(alloc, sources)?;
    let mut machine = DayMachine::new(alloc, &media, profile, limit, slot_units)?;
    let mut text = Vec::new(alloc);
    run_lines(alloc, &mut machine, &script.lines, &mut text)?;
    run_end(&mut machine, &mut text)?;
    Ok(Day {
        text,
        journal: machine.into_entries(),
    })
}

/// Prints the entries of a journal from a place on.
fn print_entries(book: &Book, from: usize, text: &mut Vec<u8>) -> Result<(), NoMemory>
    ensures { OnOk result
        (text.new.items ≡ text.old.items ++ journal_text from (drop from book.now.entries)) }
{
    let entries = book.entries();
    // Does nothing at run time: the prover gets the form of entries from it.
    law_answers_match_commands();
    journal_text(from, entries, text)
}

/// Prints what a client is answered.
fn print_answer(book: &Book, told: LineAnswer, text: &mut Vec<u8>) -> Result<(), NoMemory>
    ensures { OnOk result (text.new.items ≡ text.old.items ++ reply_text book.now.entries told) }
{
    match told {
        LineAnswer::Entry(place) => print_entries(book, place as usize, text),
        LineAnswer::Full(full) => push_full(text, full),
        LineAnswer::State => push_state(text),
        LineAnswer::Fault(fault) => push_fault(text, fault),
    }
}

/// Runs a `slot` line.
fn run_slot(machine: &mut DayMachine<'_>, slot: u64, text: &mut Vec<u8>) -> Result<(), NoMemory>
    requires machine { IsDayMachine machine.old }
    requires later { machine.old.heard < slot }
    requires small { slot ≤ LATEST_SLOT }
    ensures machine { OnOk result (IsDayMachine machine.new) }
    ensures kept { OnOk result (IsKept machine.old machine.new) }
    ensures heard { OnOk result (machine.new.heard ≡ slot) }
    ensures line { OnOk result (IsPrinted text.old.items text.new.items
        (IsLine (link_on machine.old) (Line.Slot slot) (day_state_of machine.old)
        (day_state_of machine.new))) }
{
    // The halts that the slot brings are printed after its own line.
    let from = machine.book.entries().len();
    let passed = machine.slot(slot);
    push_slot(text, slot, passed.sent, passed.booked)?;
    print_entries(&machine.book, from, text)
}

/// Runs a line.
fn run_line(
    alloc: Global,
    machine: &mut DayMachine<'_>,
    line: Line,
    text: &mut Vec<u8>,
) -> Result<(), NoMemory>
    requires machine { IsDayMachine machine.old }
    requires line { StandsAfter machine.old.heard (length machine.old.media.now) line }
    ensures machine { OnOk result (IsDayMachine machine.new) }
    ensures kept { OnOk result (IsKept machine.old machine.new) }
    ensures heard { OnOk result (machine.new.heard ≡ slot_after machine.old.heard line) }
    ensures line { OnOk result (IsPrinted text.old.items text.new.items
        (IsLine (link_on machine.old) line (day_state_of machine.old) (day_state_of machine.new))) }
    ensures client { IsClient line }
{
    match line {
        Line::Play {
            client,
            source,
            buffer,
            delay,
        } => {
            let told = machine.play(alloc, client, source, buffer, delay)?;
            print_answer(&machine.book, told, text)
        }
        Line::Pause(client) => {
            let told = machine.pause(client);
            print_answer(&machine.book, told, text)
        }
        Line::Resume(client) => {
            let told = machine.resume(alloc, client)?;
            print_answer(&machine.book, told, text)
        }
        Line::Look(slot) => {
            let told = machine.look(slot);
            print_answer(&machine.book, told, text)
        }
        Line::Slot(slot) => run_slot(machine, slot, text),
        Line::Offer {
            // An offer books nothing and changes no client, so it doesn't matter which one asks.
            client: _,
            source,
            buffer,
            delay,
            wait,
        } => match machine.offer(alloc, source, buffer, delay, wait) {
            Ok(offers) => push_offer(text, &offers),
            Err(CurveRefused::Fault(fault)) => push_fault(text, fault),
            Err(CurveRefused::NoMemory) => Err(NoMemory),
        },
    }
}

/// Ends a day.
fn run_end(machine: &mut DayMachine<'_>, text: &mut Vec<u8>) -> Result<(), NoMemory>
    requires { IsDayMachine machine.old }
    ensures kept { OnOk result (IsKept machine.old machine.new) }
    ensures journal { OnOk result (machine.new.book.entries ≡ last_journal (day_state_of
        machine.old)) }
    ensures text { OnOk result
        (text.new.items ≡ text.old.items ++ last_lines (day_state_of machine.old)) }
{
    let from = machine.book.entries().len();
    machine.end();
    print_entries(&machine.book, from, text)?;
    // As above: for the form of the calendar.
    law_calendar_text_matches_state();
    calendar_text(machine.book.calendar(), text)
}

/// Runs the lines of a script.
fn run_lines(
    alloc: Global,
    machine: &mut DayMachine<'_>,
    lines: &[Line],
    text: &mut Vec<u8>,
) -> Result<(), NoMemory>
    // needs: a machine before its first slot, lines that may stand so, an empty text
    requires machine { IsDayMachine machine.old }
    requires begun { machine.old.heard ≡ 0 }
    requires lines { AreLines (length machine.old.media.now) lines.now }
    requires morning { day_state_of machine.old ≡ first_moment }
    requires empty { text.old.items ≡ [] }
    // leaves: a machine that keeps its invariant
    ensures machine { OnOk result (IsDayMachine machine.new) }
    ensures kept { OnOk result (IsKept machine.old machine.new) }
    // answers: the text that these lines print
    ensures run { OnOk result
        (HasRun (link_on machine.old) lines.now text.new.items (day_state_of machine.new)) }
    ensures clients { OnOk result (AreClients lines.now) }
{
    for line in lines {
        run_line(alloc, machine, *line, text)?;
    }
    Ok(())
}
