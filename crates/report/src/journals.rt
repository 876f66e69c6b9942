//! The text of a journal: the lines of its entries, in their order.

ghost use Rattle.std.specs.Prelude.{◌≡◌, drop};
ghost use Rattle.vod_base.specs.Appends.{IsAppended};
ghost use Rattle.report.specs.JournalTexts.{journal_text};
ghost use Rattle.report.specs.AnswerKinds.{AreOfKind};

use crate::entries::entry_line;
use admission::Entry;
use vod_base::NoMemory;

/// Appends the lines of a journal's entries from the place `from` on, each as `entry_line` has it,
/// with its place in the journal.
///
/// # Errors
///
/// After [`NoMemory`] a prefix of the text was appended.
pub fn journal_text(from: usize, entries: &[Entry], out: &mut Vec<u8>) -> Result<(), NoMemory>
    requires { AreOfKind entries.now }
    ensures { IsAppended out.old.items (journal_text from (drop from entries.now)) out.new.items
        result }
{
    let rest = entries_from(entries, from);
    for (passed, entry) in rest.iter().enumerate() {
        // Places count from the journal's beginning, also where the text begins later: `halt
        // number=K` refers to them.
        entry_line((from + passed) as u64, entry, out)?;
    }
    Ok(())
}

/// The entries from the place `from` on; none where the journal ends before it.
fn entries_from(entries: &[Entry], from: usize) -> &[Entry]
    ensures { result.now ≡ drop from entries.now }
{
    // A text from a place past the end is empty, and no error: nothing was noted since.
    entries.get(from..).unwrap_or(&[])
}
