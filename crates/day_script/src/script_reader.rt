//! A script's text, read line by line.

ghost use Rattle.std.specs.Prelude.{◌≡◌, ◌+◌, ◌<◌, ◌≤◌, ◌++◌, ◌∷◌, [], false, true, length, All};
ghost use Rattle.std.specs.Prelude.{IfOk, IfErr, IfSome, IfNone, None, OnOk, MatchOption};
ghost use Rattle.vod_base.specs.Names.{good_name};
ghost use Rattle.day_script.specs.Scripts.{AreClients, IsClient, AreLines, StandsAfter};
ghost use Rattle.day_script.specs.Scripts.{latest_slot, slot_after};
ghost use Rattle.day_script.specs.TextLines.{texts_at};
ghost use Rattle.day_script.specs.MessageWords.{IsInRange};
ghost use Rattle.day_script.specs.ScriptReading.{HasGoodName, HasPlaces, IsDraft, IsLineTaken};
ghost use Rattle.day_script.specs.ScriptReading.{IsPlaceOf, IsRoster, IsScript, IsTextRefused};
ghost use Rattle.day_script.specs.ScriptReading.{known_place, line_read, name_as, named_in};
ghost use Rattle.day_script.specs.ScriptReading.{names_of, nothing_read, reading_of, source_in};
ghost use Rattle.day_script.specs.ScriptReading.{with_line, with_name, with_message};

use crate::line_split::{first_line, split_words};
use crate::messages::{Message, PlayParams, message_in};
use crate::scripts::{Line, Named, Script, ScriptRefused, SourceKind};
use std::alloc::Global;
use std::collections::BTreeMap;
use vod_base::{NoMemory, good_name};

/// The most lines of a script.
const MAX_LINES: u64 = 1_000_000;

/// Reads a script. Lines end with LF or CR LF, the last one also with the text. An empty line is
/// counted and passed over; each other one is a line of [`Line`]'s forms, its words one space apart
/// and its numbers decimal. There are at most 1,000,000.
///
/// It takes time in the text's bytes, and for each line with a name in the logarithm of the number
/// of names before it.
///
/// # Errors
///
/// [`ScriptRefused::BadScript`] exactly where a line may not stand there, with the first such line.
pub fn read_script(alloc: Global, text: &[u8]) -> Result<Script, ScriptRefused>
    // answers: the script that the text spells, or the first line that may not stand there
    ensures script { IfOk result (IsScript text.now) }
    ensures refused { IfErr result (IsTextRefused text.now) }
    // of the script: clients, places and names are in range, slots rise
    ensures lines { IfOk result (λ script.
        AreLines (length script.named.items) script.lines.items) }
    ensures clients { IfOk result (λ script. AreClients script.lines.items) }
    ensures names { IfOk result (λ script. All HasGoodName script.named.items) }
{
    let mut draft = ScriptBuilder::new(alloc);
    let mut words = Vec::new(alloc);
    let mut rest = text;
    let mut number = 0;
    while let Some((line, next)) = first_line(rest) {
        // Asked where a further line begins: that line is the one to name, whatever it says.
        if number == MAX_LINES {
            return Err(ScriptRefused::BadScript { line: number + 1 });
        }
        let stands = draft.read(line, &mut words)?;
        if !stands {
            return Err(ScriptRefused::BadScript { line: number + 1 });
        }
        number += 1;
        rest = next;
    }
    let ScriptBuilder {
        lines,
        roster,
        slot: _,
    } = draft;
    Ok(Script {
        lines,
        named: roster.into_named(),
    })
}

/// A script as far as it was read.
#[derive(Drop)]
pub(crate) struct ScriptBuilder {
    lines: Vec<Line>,
    roster: NameTable,
    /// The slot of the last `slot` line, 0 before the first.
    slot: u64,
}

impl ScriptBuilder {
    /// A draft of nothing.
    fn new(alloc: Global) -> ScriptBuilder
        ensures reading { reading_of result ≡ nothing_read }
        ensures draft { IsDraft result }
    {
        ScriptBuilder {
            lines: Vec::new(alloc),
            roster: NameTable::new(alloc),
            slot: 0,
        }
    }

    /// Takes in a line that may stand there.
    fn add(&mut self, line: Line) -> Result<(), NoMemory>
        // needs: lines that are sound so far, and a line that may stand behind them
        requires lines { AreLines (length self.old.roster.named.items) self.old.lines.items }
        requires clients { AreClients self.old.lines.items }
        requires client { IsClient line }
        requires stands { StandsAfter (latest_slot self.old.lines.items)
            (length self.old.roster.named.items) line }
        requires slot { self.old.slot ≡ slot_after (latest_slot self.old.lines.items) line }
        requires roster { IsRoster self.old.roster }
        // leaves: the lines with this one at their end
        ensures reading { OnOk result (reading_of self.new ≡ with_line (reading_of self.old) line) }
        ensures draft { OnOk result (IsDraft self.new) }
    {
        self.lines.push(line)?;
        Ok(())
    }

    /// The place of the film or trace that is the fourth of these words. None where it is no name.
    fn source(&mut self, words: &[&[u8]], asked: PlayParams) -> Result<Option<usize>, NoMemory>
        requires { IsRoster self.old.roster }
        ensures found { IfOk result (λ found. MatchOption found
            (good_name (named_in (texts_at words.now) asked).name ≡ false)
            (λ place. IsPlaceOf (reading_of self.old) (reading_of self.new)
            (named_in (texts_at words.now) asked) place)) }
        ensures inside { IfOk result (λ found.
            IfSome found (λ place. place < length self.new.roster.named.items)) }
        ensures longer { OnOk result
            (length self.old.roster.named.items ≤ length self.new.roster.named.items) }
        ensures roster { OnOk result (IsRoster self.new.roster) }
        ensures lines { OnOk result (self.new.lines.items ≡ self.old.lines.items) }
    {
        match words {
            [_, _, _, word, ..] => match name_in(word) {
                Some(name) => {
                    let place = self.roster.source_of(asked.kind, name)?;
                    Ok(Some(place))
                }
                None => Ok(None),
            },
            _ => Ok(None),
        }
    }

    /// The line that these words say; None where it may not stand there. Its name and its slot are
    /// noted.
    fn line_of(&mut self, words: &[&[u8]], message: Message) -> Result<Option<Line>, NoMemory>
        // needs: a sound draft, and words that were read as this message
        requires draft { IsDraft self.old }
        requires range { IsInRange message }
        // answers: the line where it may stand there, else None
        ensures line { IfOk result (λ found. IfSome found
            (λ line. with_message (reading_of self.old) (texts_at words.now) message
            ≡ Some (with_line (reading_of self.new) line))) }
        ensures none { IfOk result (λ found.
            IfNone found (with_message (reading_of self.old) (texts_at words.now) message ≡ None)) }
        // answers: a line that goes on from those before it
        ensures stands { IfOk result (λ found. IfSome found
            (λ line. StandsAfter (latest_slot self.old.lines.items)
            (length self.new.roster.named.items) line)) }
        ensures client { IfOk result (λ found. IfSome found IsClient) }
        ensures slot { IfOk result (λ found. IfSome found
            (λ line. self.new.slot ≡ slot_after (latest_slot self.old.lines.items) line)) }
        // leaves: the lines as they were; names may have been added
        ensures longer { OnOk result
            (length self.old.roster.named.items ≤ length self.new.roster.named.items) }
        ensures roster { OnOk result (IsRoster self.new.roster) }
        ensures lines { OnOk result (self.new.lines.items ≡ self.old.lines.items) }
    {
        match message {
            Message::Play(asked) => match self.source(words, asked)? {
                Some(source) => Ok(Some(play_line(asked, source))),
                None => Ok(None),
            },
            Message::Offer(asked, wait) => match self.source(words, asked)? {
                Some(source) => Ok(Some(offer_line(asked, source, wait))),
                None => Ok(None),
            },
            Message::Pause(client) => Ok(Some(Line::Pause(client))),
            Message::Resume(client) => Ok(Some(Line::Resume(client))),
            Message::Look(slot) => Ok(Some(Line::Look(slot))),
            Message::Slot(slot) => {
                // A link comes to each slot once, so the slots of these lines rise.
                if slot <= self.slot {
                    return Ok(None);
                }
                self.slot = slot;
                Ok(Some(Line::Slot(slot)))
            }
        }
    }

    /// Takes in a line of these words, and returns whether it may stand there.
    fn add_message(&mut self, words: &[&[u8]], message: Message) -> Result<bool, NoMemory>
        requires draft { IsDraft self.old }
        requires range { IsInRange message }
        ensures taken { IfOk result (λ stands. IsLineTaken stands (reading_of self.new)
            (with_message (reading_of self.old) (texts_at words.now) message)) }
        ensures draft { IfOk result (λ stands. stands ≡ true → IsDraft self.new) }
    {
        match self.line_of(words, message)? {
            Some(line) => {
                self.add(line)?;
                Ok(true)
            }
            None => Ok(false),
        }
    }

    /// Takes in a line's text, and returns whether it may stand there.
    fn read<'a>(&mut self, line: &'a [u8], words: &mut Vec<&'a [u8]>) -> Result<bool, NoMemory>
        requires { IsDraft self.old }
        ensures taken { IfOk result (λ stands. IsLineTaken stands (reading_of self.new)
            (line_read (reading_of self.old) line.now)) }
        ensures draft { IfOk result (λ stands. stands ≡ true → IsDraft self.new) }
    {
        if line.is_empty() {
            // Counted, so that the numbers of bad lines are those of an editor.
            return Ok(true);
        }
        split_words(line, words)?;
        match message_in(words) {
            Some(message) => self.add_message(words, message),
            None => Ok(false),
        }
    }
}

/// The line of a play of the source of that number.
fn play_line(asked: PlayParams, source: usize) -> Line
    ensures { result ≡ Line.Play asked.client source asked.buffer asked.delay }
{
    Line::Play {
        client: asked.client,
        source,
        buffer: asked.buffer,
        delay: asked.delay,
    }
}

/// The line of an offer for such a play.
fn offer_line(asked: PlayParams, source: usize, wait: u64) -> Line
    ensures { result ≡ Line.Offer asked.client source asked.buffer asked.delay wait }
{
    Line::Offer {
        client: asked.client,
        source,
        buffer: asked.buffer,
        delay: asked.delay,
        wait,
    }
}

/// The name of a film or trace that a word is; None where it is no good name.
fn name_in(word: &[u8]) -> Option<&str>
    ensures name { IfSome result (λ name. name.now ≡ word.now) }
    ensures good { IfSome result (λ _. good_name word.now ≡ true) }
    ensures none { IfNone result (good_name word.now ≡ false) }
{
    if !good_name(word) {
        return None;
    }
    match str::from_utf8(word) {
        Ok(name) => Some(name),
        // Never so: a good name has ASCII bytes alone.
        Err(_) => None,
    }
}

/// The films and traces that lines name.
#[derive(Drop)]
pub(crate) struct NameTable {
    alloc: Global,
    /// Each once, in the order of the lines that name them first.
    named: Vec<Named>,
    // Search trees: their bound holds for any names, where a hash table with a fixed seed can be
    // attacked. Two, since a film and a trace may have the same name.
    /// The place of each film among them, by its name.
    films: BTreeMap<String, usize>,
    /// The place of each trace among them, by its name.
    traces: BTreeMap<String, usize>,
}

impl NameTable {
    /// A roster of no names.
    fn new(alloc: Global) -> NameTable
        ensures none { result.named.items ≡ [] }
        ensures roster { IsRoster result }
    {
        NameTable {
            alloc,
            named: Vec::new(alloc),
            films: BTreeMap::new(alloc),
            traces: BTreeMap::new(alloc),
        }
    }

    /// Gives the films and traces back.
    fn into_named(self) -> Vec<Named>
        ensures { result ≡ self.named }
    {
        self.named
    }

    /// The place of a film or trace among them; None where it is new.
    fn place_of(&self, kind: SourceKind, name: &str) -> Option<usize>
        requires { IsRoster self.now }
        ensures { result ≡ known_place (names_of self.now.named.items) (name_as kind name.now) }
    {
        match kind {
            SourceKind::Film => self.films.get(name).copied(),
            SourceKind::Trace => self.traces.get(name).copied(),
        }
    }

    /// Notes that a new film or trace comes after those that there are.
    fn note(&mut self, kind: SourceKind, name: &str) -> Result<(), NoMemory>
        requires places { HasPlaces (names_of self.old.named.items) self.old }
        requires fresh { known_place (names_of self.old.named.items) (name_as kind name.now)
            ≡ None }
        ensures places { OnOk result (HasPlaces
            (names_of self.old.named.items ++ name_as kind name.now ∷ []) self.new) }
        ensures named { OnOk result (self.new.named.items ≡ self.old.named.items) }
    {
        let key = String::from_str(self.alloc, name)?;
        let place = self.named.len();
        match kind {
            SourceKind::Film => self.films.insert(key, place)?,
            SourceKind::Trace => self.traces.insert(key, place)?,
        };
        Ok(())
    }

    /// Takes in a new film or trace.
    fn add(&mut self, kind: SourceKind, name: &str) -> Result<(), NoMemory>
        requires roster { IsRoster self.old }
        requires good { good_name name.now ≡ true }
        requires fresh { known_place (names_of self.old.named.items) (name_as kind name.now)
            ≡ None }
        ensures roster { OnOk result (IsRoster self.new) }
        ensures names { OnOk result (names_of self.new.named.items ≡
            names_of self.old.named.items ++ name_as kind name.now ∷ []) }
    {
        // After an error the draft is dropped. So a name that was noted here alone does no harm.
        self.note(kind, name)?;
        let name = String::from_str(self.alloc, name)?;
        self.named.push(Named { kind, name })?;
        Ok(())
    }

    /// The place of a film or trace among them, which have it from now on.
    fn source_of(&mut self, kind: SourceKind, name: &str) -> Result<usize, NoMemory>
        requires roster { IsRoster self.old }
        requires good { good_name name.now ≡ true }
        ensures roster { OnOk result (IsRoster self.new) }
        ensures inside { IfOk result (λ place. place < length self.new.named.items) }
        ensures longer { OnOk result (length self.old.named.items ≤ length self.new.named.items) }
        ensures place { IfOk result (λ place. place ≡
            source_in (names_of self.old.named.items) (name_as kind name.now)) }
        ensures names { OnOk result (names_of self.new.named.items ≡
            with_name (names_of self.old.named.items) (name_as kind name.now)) }
    {
        if let Some(place) = self.place_of(kind, name) {
            return Ok(place);
        }
        let place = self.named.len();
        self.add(kind, name)?;
        Ok(place)
    }
}
