//! The end of a server: its journal, what is still booked and a last line are printed, and journal
//! and reports are handed out.

ghost use Rattle.std.specs.Prelude.{◌≡◌, ◌≤◌, ◌++◌, length, IfOk, OnOk};
ghost use Rattle.vodserve.specs.Run.{Ends};
ghost use Rattle.vodserve.specs.ServerOutput.{IsPrinted, last_line, served_text};
ghost use Rattle.vodserve.specs.IoStates.{io_state_of, streams};

use crate::run_results::{Ended, end_with};
use crate::server::Closed;
use admission::Book;
use cli_errors::CliError;
use conn::PartEnd;
use report::laws::{law_answers_match_commands, law_calendar_text_matches_state};
use report::{calendar_text, journal_text};
use std::alloc::Global;
use vod_base::{NoMemory, Sink, push, push_field};

/// Ends a server: prints its journal, what is still booked and a last line, and hands journal and
/// reports out.
pub(crate) fn end_server<O: Sink, E: Sink>(
    alloc: Global,
    out: &mut O,
    err: &mut E,
    closed: Closed,
) -> Ended
    ensures journal { result.journal.items ≡ closed.book.entries }
    ensures reports { result.reports.items ≡ closed.reports.items }
    ensures count { O.faults out.old ≤ O.faults out.new }
    ensures ends { Ends
        (streams (io_state_of O.faults O.written out.old) (io_state_of O.faults O.written out.new)
        (io_state_of E.faults E.written err.old) (io_state_of E.faults E.written err.new))
        (served_text closed.book.entries (length closed.reports.items)) closed.end result }
{
    let mut ended = match print_served(alloc, out, &closed) {
        Ok(()) => Ended::with_status(alloc, 0),
        Err(error) => end_with(alloc, err, error),
    };
    let Closed {
        book,
        reports,
        end: _,
    } = closed;
    // Also after an error: the laws on the journal hold with every status.
    ended.journal = book.into_entries();
    ended.reports = reports;
    ended
}

/// Writes the text of a closed server.
///
/// # Errors
///
/// What went wrong: out of memory, here or in a worker, before a fault of the output before one of
/// the gate.
fn print_served<O: Sink>(
    alloc: Global,
    out: &mut O,
    closed: &Closed,
) -> Result<(), CliError<'static>>
    ensures count { O.faults out.old ≤ O.faults out.new }
    ensures printed { IsPrinted
        (io_state_of O.faults O.written out.old) (io_state_of O.faults O.written out.new)
        (served_text closed.now.book.entries (length closed.now.reports.items))
        closed.now.end result }
{
    // The text is complete before any of it is written, so no half of it is printed where memory is
    // out.
    let text = served_text(alloc, &closed.book, closed.reports.len() as u64)?;
    let written = out.write_all(&text);
    match closed.end {
        PartEnd::NoMemory => Err(CliError::NoMemory),
        PartEnd::GateFault => {
            // A fault of the output has status 5, and comes before one of the gate (7).
            written?;
            Err(CliError::GateFault)
        }
        PartEnd::AllTaken => Ok(written?),
    }
}

/// Appends the last line: how many connections were served, and how many entries the journal has.
fn push_last(text: &mut Vec<u8>, connections: u64, entries: u64) -> Result<(), NoMemory>
    ensures { OnOk result (text.new.items ≡ text.old.items ++ last_line connections entries) }
{
    push_field(text, b"served connections=", connections)?;
    push_field(text, b" entries=", entries)?;
    push(text, b"\n")
}

/// The text of a closed server: each entry of its journal, what is still booked, and the last line.
fn served_text(alloc: Global, book: &Book, connections: u64) -> Result<Vec<u8>, NoMemory>
    ensures { IfOk result (λ text. text.items ≡ served_text book.now.entries connections) }
{
    let entries = book.entries();
    let calendar = book.calendar();
    // These two calls do nothing at run time: the prover gets the laws from them.
    law_calendar_text_matches_state();
    law_answers_match_commands();
    let mut text = Vec::new(alloc);
    journal_text(0, entries, &mut text)?;
    calendar_text(calendar, &mut text)?;
    push_last(&mut text, connections, entries.len() as u64)?;
    Ok(text)
}
