//! A large day from a number.

ghost use Rattle.std.specs.Prelude.{◌≡◌, ◌+◌, ◌^◌, ◌≤◌, ◌<◌, ◌%◌, List, false, if◌then◌else◌};
ghost use Rattle.std.specs.Prelude.{length, map, IfOk, OnOk};
ghost use Rattle.film_make.specs.Generator.{words_after, words_left};
ghost use Rattle.admission.specs.declared.entries.Entry.{Entry};
ghost use Rattle.admission.specs.Books.{places_taken};
ghost use Rattle.admission.specs.Histories.{IsLegal};
ghost use Rattle.day_run.specs.BookingBalance.{IsReady};
ghost use Rattle.report.specs.JournalTexts.{journal_text};
ghost use Rattle.day_run.specs.Days.{IsPlayLine, first_moment, rest_at, state_at};
ghost use Rattle.day_run.specs.FairDays.{IsDone, IsFair, after_traces, at_later, entry_counts_of};
ghost use Rattle.day_run.specs.FairDays.{is_full_line, line_drawn, traces_drawn, words_for};
ghost use Rattle.day_run.specs.FairProgress.{AreTraces, AreTurnResults, IsTurnResult, IsFitting};
ghost use Rattle.day_run.specs.FairProgress.{drawn_to, said_text, sizes_in, with_slot};
ghost use Rattle.day_run.specs.MachineState.{IsKept, IsDayMachine, link_on, day_state_of};
ghost use Rattle.day_run.specs.MachineState.{reply_text};
ghost use Rattle.day_run.specs.ClientStates.{trace_content};
ghost use Rattle.day_run.specs.MediaContents.{media_content};

use crate::clients::Client;
use crate::machine::{DayMachine, LineAnswer};
use crate::media::Media;
use crate::script_run::Day;
use admission::{Answer, Book, Entry, MAX_ENTRIES};
use day_script::{EntryCounts, FairTotals, push_fair};
use film_make::{Draws, draw_sizes};
use slot_calendar::Profile;
use std::alloc::Global;
use vod_base::NoMemory;

/// How many traces a fair has.
const TRACES: usize = 16;

/// A slot in 1/360,000 second.
const SLOT_UNITS: u32 = 14_400;

/// The least buffer that is drawn for a client.
const LEAST_BUFFER: u64 = 16_384;

/// How many sizes of a buffer are drawn, from the least one on.
const BUFFER_SIZES: u32 = 16_384;

/// No turn begins after this slot: 100,000 turns come to at most 300,000 slots.
const LATEST_TURN_SLOT: u64 = 1 << 20;

/// Runs a large day that a number determines: 16 drawn traces, 256 clients and so many turns, at
/// most 100,000, on a link of this capacity in slots of 40 ms, whose journal has room for 1,048,576
/// entries.
///
/// # Errors
///
/// [`NoMemory`] alone.
pub fn fair(alloc: Global, seed: u64, plays: u32, profile: Profile) -> Result<Day, NoMemory>
    requires { plays ≤ 100000 }
    // answers: the one line and journal of the number, a legal one within its limit
    ensures fair { IfOk result (λ day.
        IsFair profile seed plays day.text.items day.journal.items) }
    ensures legal { IfOk result (λ day. IsLegal profile day.journal.items) }
    ensures within { IfOk result (λ day. places_taken day.journal.items ≤ MAX_ENTRIES) }
{
    let mut draws = Draws::new(seed);
    let traces = draw_traces(alloc, &mut draws)?;
    let media = trace_media(alloc, &traces)?;
    // The longest journal there is: 100,000 turns ask for at most as many plays, each with one
    // halt.
    let mut machine = DayMachine::new(alloc, &media, profile, MAX_ENTRIES, SLOT_UNITS)?;
    let counts = run_turns(alloc, &mut draws, &mut machine, plays)?;
    // The plays that are open are halted, so the counts have one halt for each play.
    machine.end();
    let journal = machine.into_entries();
    let entries = count_entries(&journal);
    let mut text = Vec::new(alloc);
    push_fair(&mut text, &counts, &entries)?;
    Ok(Day { text, journal })
}

/// The sizes of a fair's traces.
fn draw_traces(alloc: Global, draws: &mut Draws) -> Result<Vec<Vec<u64>>, NoMemory>
    ensures count { IfOk result (λ traces. length traces.items ≡ 16) }
    ensures traces { IfOk result (λ traces. AreTraces traces.items) }
    ensures sizes { IfOk result (λ traces.
        sizes_in traces.items ≡ traces_drawn 16 (words_left draws.old)) }
    ensures left { OnOk result (words_left draws.new ≡ after_traces 16 (words_left draws.old)) }
{
    let mut traces = Vec::with_capacity(alloc, TRACES)?;
    for trace in 0..TRACES {
        // The order of the draws is part of the definition of a large day, here and below: one
        // number has one day.
        let pictures = 100 + draws.draw(101);
        traces.push(draw_sizes(alloc, draws, pictures)?)?;
    }
    Ok(traces)
}

/// The traces as they are played.
fn trace_media<'s>(alloc: Global, traces: &'s [Vec<u64>]) -> Result<Vec<Media<'s>>, NoMemory>
    requires { AreTraces traces.now }
    ensures count { IfOk result (λ media. length media.items ≡ length traces.entry.now) }
    ensures contents { IfOk result (λ media. map (media_content SLOT_UNITS) media.items
        ≡ map (trace_content SLOT_UNITS) (sizes_in traces.entry.now)) }
{
    let mut media = Vec::with_capacity(alloc, traces.len())?;
    for trace in traces {
        media.push(Media::trace(alloc, trace)?)?;
    }
    Ok(media)
}

/// A client asks for a drawn play.
fn play_drawn(
    alloc: Global,
    draws: &mut Draws,
    machine: &mut DayMachine<'_>,
    client: u8,
) -> Result<LineAnswer, NoMemory>
    requires machine { IsDayMachine machine.old }
    requires media { length machine.old.media.now ≡ 16 }
    ensures machine { OnOk result (IsDayMachine machine.new) }
    ensures kept { OnOk result (IsKept machine.old machine.new) }
    ensures heard { OnOk result (machine.new.heard ≡ machine.old.heard) }
    ensures line { IfOk result (λ told.
        IsPlayLine (link_on machine.old) client (rest_at (link_on machine.old)
        (words_left draws.old 0 % 16) (LEAST_BUFFER + words_left draws.old 1 % BUFFER_SIZES)
        (words_left draws.old 2 % 26)) (day_state_of machine.old) (day_state_of machine.new)
        (reply_text machine.new.book.entries told)) }
    ensures left { OnOk result (words_left draws.new ≡ words_after 3 (words_left draws.old)) }
{
    let source = draws.draw(TRACES as u32) as usize;
    let buffer = LEAST_BUFFER + u64::from(draws.draw(BUFFER_SIZES));
    let delay = u64::from(draws.draw(26));
    machine.play(alloc, client, source, buffer, delay)
}

/// What the drawn client does, by its state.
fn turn_client(
    alloc: Global,
    draws: &mut Draws,
    machine: &mut DayMachine<'_>,
    client: u8,
) -> Result<Option<LineAnswer>, NoMemory>
    requires machine { IsDayMachine machine.old }
    requires media { length machine.old.media.now ≡ 16 }
    ensures machine { OnOk result (IsDayMachine machine.new) }
    ensures kept { OnOk result (IsKept machine.old machine.new) }
    ensures heard { OnOk result (machine.new.heard ≡ machine.old.heard) }
    ensures done { IfOk result (λ told.
        IsDone (link_on machine.old)
        (line_drawn (words_left draws.old) client (state_at (day_state_of machine.old) client))
        (day_state_of machine.old) (day_state_of machine.new) (said_text machine.new.book.entries
        told)) }
    ensures left { OnOk result (words_left draws.new
        ≡ words_after (words_for (state_at (day_state_of machine.old) client)) (words_left
        draws.old)) }
{
    match &machine.clients[client as usize] {
        Client::Playing(_) => Ok(Some(machine.pause(client))),
        // Its last piece isn't sent to its end, so it can be asked for nothing in this slot.
        Client::Pausing(_) => Ok(None),
        Client::Paused(_) => Ok(Some(machine.resume(alloc, client)?)),
        Client::Idle => Ok(Some(play_drawn(alloc, draws, machine, client)?)),
    }
}

/// Comes to a slot that is so many later, if it is.
fn advance(machine: &mut DayMachine<'_>, later: u64, counts: &mut FairTotals)
    // needs: a sound day that is early enough, and sums that fit
    requires machine { IsDayMachine machine.old }
    requires ready { IsReady (day_state_of machine.old) }
    requires few { later ≤ 3 }
    requires early { machine.old.heard ≤ LATEST_TURN_SLOT }
    requires fitting { IsFitting machine.old.heard counts.old }
    // leaves: a sound day in the later slot, and its sums
    ensures machine { IsDayMachine machine.new }
    ensures ready { IsReady (day_state_of machine.new) }
    ensures kept { IsKept machine.old machine.new }
    ensures heard { machine.new.heard ≡ machine.old.heard + later }
    ensures moment { day_state_of machine.new ≡ at_later (day_state_of machine.old) later }
    ensures counts { counts.new ≡ with_slot counts.old (day_state_of machine.old)
        machine.new.heard }
    ensures fitting { IsFitting machine.new.heard counts.new }
{
    if later > 0 {
        // The sums below can't overflow: at most 2^20 slots of at most `MAX_BYTES`.
        let slot = machine.heard + later;
        let passed = machine.slot(slot);
        counts.last = slot;
        counts.sent += passed.sent;
        counts.booked += passed.booked;
        counts.peak = counts.peak.max(passed.peak);
    }
}

/// The lines of entries don't say that the journal is full: they begin with a digit.
fn law_entries_other(place: u64)
    ensures { (entries : List Entry) → is_full_line (journal_text place entries) ≡ false }
{}

/// Whether the answer is that the journal is full.
fn is_full(told: LineAnswer) -> bool
    ensures { (entries : List Entry) → is_full_line (reply_text entries told) ≡ result }
{
    match told {
        LineAnswer::Full(_) => true,
        LineAnswer::Entry(place) => {
            // Does nothing at run time: the prover gets from it that an entry's line isn't this
            // one.
            law_entries_other(place);
            false
        }
        LineAnswer::State => false,
        LineAnswer::Fault(_) => false,
    }
}

/// Whether a client is answered that the journal is full.
fn is_refused(told: Option<LineAnswer>) -> bool
    ensures { (entries : List Entry) → is_full_line (said_text entries told) ≡ result }
{
    match told {
        Some(told) => is_full(told),
        None => false,
    }
}

/// Counts a turn.
fn count_turn(counts: &mut FairTotals, full: bool)
    requires turns { counts.old.turns < 2 ^ 32 }
    requires full { counts.old.full ≤ counts.old.turns }
    ensures { counts.new ≡ record counts.old {
      turns = counts.old.turns + 1;
      full = counts.old.full + (if full then 1 else 0);
    } }
{
    counts.turns += 1;
    if full {
        counts.full += 1;
    }
}

/// Runs a turn.
fn run_turn(
    alloc: Global,
    draws: &mut Draws,
    machine: &mut DayMachine<'_>,
    counts: &mut FairTotals,
) -> Result<(), NoMemory>
    // needs: a sound day that is early enough, with the 16 traces, and counts that fit
    requires machine { IsDayMachine machine.old }
    requires ready { IsReady (day_state_of machine.old) }
    requires media { length machine.old.media.now ≡ 16 }
    requires early { machine.old.heard ≤ LATEST_TURN_SLOT }
    requires turns { counts.old.turns < 2 ^ 32 }
    requires fitting { IsFitting machine.old.heard counts.old }
    // leaves: a sound day, at most 3 slots later, with counts that fit
    ensures machine { OnOk result (IsDayMachine machine.new) }
    ensures ready { OnOk result (IsReady (day_state_of machine.new)) }
    ensures kept { OnOk result (IsKept machine.old machine.new) }
    ensures heard { OnOk result (machine.new.heard ≤ machine.old.heard + 3) }
    ensures fitting { OnOk result (IsFitting machine.new.heard counts.new) }
    // answers: one turn of the definition
    ensures turned { OnOk result (IsTurnResult (link_on machine.old)
        (drawn_to (words_left draws.old) counts.old (day_state_of machine.old))
        (drawn_to (words_left draws.new) counts.new (day_state_of machine.new))) }
{
    let later = u64::from(draws.draw(4));
    advance(machine, later, counts);
    let client = draws.draw(256) as u8;
    let told = turn_client(alloc, draws, machine, client)?;
    count_turn(counts, is_refused(told));
    Ok(())
}

/// Counts the entries of a journal by their answers.
fn count_entries(entries: &[Entry]) -> EntryCounts
    requires { length entries.now ≤ MAX_ENTRIES }
    ensures { result ≡ entry_counts_of entries.now }
{
    let mut counts = EntryCounts {
        admitted: 0,
        overflows: 0,
        halted: 0,
    };
    for entry in entries {
        match entry.answer {
            Answer::Admitted { .. } => counts.admitted += 1,
            Answer::Overflow { .. } => counts.overflows += 1,
            Answer::Halted => counts.halted += 1,
            Answer::Looked { .. } => {}
        }
    }
    counts
}

/// Runs so many turns.
fn run_turns(
    alloc: Global,
    draws: &mut Draws,
    machine: &mut DayMachine<'_>,
    turns: u32,
) -> Result<FairTotals, NoMemory>
    requires machine { IsDayMachine machine.old }
    requires morning { day_state_of machine.old ≡ first_moment }
    requires media { length machine.old.media.now ≡ 16 }
    requires few { turns ≤ 100000 }
    ensures machine { OnOk result (IsDayMachine machine.new) }
    ensures kept { OnOk result (IsKept machine.old machine.new) }
    ensures come { IfOk result (λ counts. AreTurnResults (link_on machine.old) (words_left
        draws.old)
        (words_left draws.new) turns counts (day_state_of machine.new)) }
{
    let mut counts = FairTotals {
        turns: 0,
        full: 0,
        last: 0,
        sent: 0,
        booked: 0,
        peak: 0,
    };
    for turn in 0..turns {
        run_turn(alloc, draws, machine, &mut counts)?;
    }
    Ok(counts)
}
