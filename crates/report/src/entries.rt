//! The line of a journal entry.

ghost use Rattle.std.specs.Prelude.{◌++◌};
ghost use Rattle.vod_base.specs.Appends.{IsAppended};
ghost use Rattle.report.specs.AnswerKinds.{IsOfKind};
ghost use Rattle.report.specs.EntryLines.{answer_text, command_text, entry_line};

use crate::number_fields::push_fields;
use admission::{Answer, Command, Entry};
use vod_base::{NoMemory, push, push_field, push_number};

/// Appends the line of the journal's entry at `place`: `PLACE seat=M` and then, for a play, `play
/// slot=S slots=N bytes=B admitted start=T` or `play slot=S slots=N bytes=B overflow slot=U
/// booked=X asked=Y`, for a halt `halt number=K keep=P halted`, for a look `look slot=S looked
/// now=T at=U booked=X`. B, P, X and Y count bytes. Numbers are decimal, and the line ends with LF.
///
/// # Errors
///
/// After [`NoMemory`] a prefix of the line was appended.
pub fn entry_line(place: u64, entry: &Entry, out: &mut Vec<u8>) -> Result<(), NoMemory>
    requires { IsOfKind entry.now.command entry.now.answer }
    ensures { IsAppended out.old.items (entry_line place entry.now) out.new.items result }
{
    // The place comes first: the line of a halt names the play by it.
    push_number(out, place)?;
    push_field(out, b" seat=", u64::from(entry.maker))?;
    push_command(out, &entry.command)?;
    push_answer(out, entry.answer)?;
    push(out, b"\n")
}

/// Appends what was asked.
fn push_command(out: &mut Vec<u8>, command: &Command) -> Result<(), NoMemory>
    ensures { IsAppended out.old.items (command_text command.now) out.new.items result }
{
    match command {
        Command::Play { slot, plan } => push_fields(
            out,
            (b" play slot=", *slot),
            (b" slots=", plan.slots()),
            (b" bytes=", plan.bytes()),
        ),
        Command::Halt { number, keep } => {
            push_field(out, b" halt number=", *number)?;
            push_field(out, b" keep=", *keep)
        }
        Command::Look { slot } => push_field(out, b" look slot=", *slot),
    }
}

/// Appends what was answered.
fn push_answer(out: &mut Vec<u8>, answer: Answer) -> Result<(), NoMemory>
    ensures { IsAppended out.old.items (answer_text answer) out.new.items result }
{
    match answer {
        Answer::Admitted { start } => push_field(out, b" admitted start=", start),
        Answer::Overflow {
            slot,
            booked,
            asked,
        } => push_fields(
            out,
            (b" overflow slot=", slot),
            (b" booked=", booked),
            (b" asked=", asked),
        ),
        Answer::Halted => push(out, b" halted"),
        Answer::Looked { now, at, booked } => push_fields(
            out,
            (b" looked now=", now),
            (b" at=", at),
            (b" booked=", booked),
        ),
    }
}
