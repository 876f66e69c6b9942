//! Runs of the program over objects in memory, by scripts.

use crate::run::run;
use crate::run_results::Ended;
use crate::tests::materials::{Files, bytes_of, number_of, word_and_rest, words_of};
use crate::tests::outcomes::Outcome;
use std::alloc::Global;
use std::process::Abort;
use std::slice;
use std::sync::Wait;
use std::test::Fail;
use std::thread::Threads;
use vod_base::{
    Event, Gate, Library, MemoryGate, MemoryLibrary, MemoryLink, MemoryPart, MemorySink, NoMemory,
    Sink,
};

/// The most bytes that an object in memory holds.
const ROOM: usize = 1 << 25;

/// Plays scripts. Where memory is refused, its name says so, and the script is played once more.
pub(crate) fn pass_all<R: Threads + Wait + Sync + Abort>(
    rt: &R,
    alloc: Global,
    scripts: &[&str],
) -> Result<(), Fail> {
    for script in scripts {
        if play_out(rt, alloc, script).is_err() {
            play_out(rt, alloc, script)?;
        }
    }
    Ok(())
}

/// A script of inputs that are refused. Each row of the cases has a fault, `:` and the input. A
/// line of that kind makes a file of an input, and the command takes the file by its key.
pub(crate) fn refusals_of(
    alloc: Global,
    kind: &str,
    command: &str,
    cases: &str,
) -> Result<String, NoMemory> {
    let mut script = String::new(alloc);
    for (number, row) in cases.lines().enumerate() {
        push_case(&mut script, alloc, number, kind, command, row)?;
    }
    Ok(script)
}

/// Adds one of these cases.
fn push_case(
    script: &mut String,
    alloc: Global,
    number: usize,
    kind: &str,
    command: &str,
    row: &str,
) -> Result<(), NoMemory> {
    let (fault, input) = row.split_once(':').unwrap_or((row, ""));
    let file = format!(in alloc; "{kind} case{number} {input}\n")?;
    script.push_str(file.as_str())?;
    let run = format!(in alloc; "> {command}=case{number}\n")?;
    script.push_str(run.as_str())?;
    let line = format!(in alloc; "3 vodserve: case{number}: {fault}|\n")?;
    script.push_str(line.as_str())?;
    Ok(())
}

/// The objects of the next run, and what the last run left that no line has read yet.
#[derive(Drop)]
struct Stage {
    /// The files of the library.
    files: Files,
    /// The events of the link of the next part.
    events: Vec<Event>,
    /// The events of the link of the last part.
    last_events: Vec<Event>,
    /// The parts of the gate.
    parts: Vec<MemoryPart>,
    /// The calls that are to fail.
    failing: Failing,
    /// What the last run left.
    left: Outcome,
}

/// The calls of an object that are to fail in the next run, by their numbers from 1.
#[derive(Drop)]
struct Failing {
    /// Calls of the library.
    library: Vec<u64>,
    /// Calls of the output.
    out: Vec<u64>,
    /// Calls of the error stream.
    err: Vec<u64>,
    /// Calls of the gate.
    gate: Vec<u64>,
}

/// No call fails.
fn no_failing(alloc: Global) -> Failing {
    Failing {
        library: Vec::new(alloc),
        out: Vec::new(alloc),
        err: Vec::new(alloc),
        gate: Vec::new(alloc),
    }
}

/// The first so many of these events.
fn first_events(alloc: Global, events: &[Event], count: u64) -> Result<Vec<Event>, NoMemory> {
    let mut copies = Vec::new(alloc);
    let count = usize::try_from(count).unwrap_or(0);
    for event in events.iter().take(count) {
        copies.push(match event {
            Event::Bytes(bytes) => Event::Bytes(Vec::from_slice(alloc, bytes)?),
            Event::Slot(slot) => Event::Slot(*slot),
            Event::End => Event::End,
        })?;
    }
    Ok(copies)
}

/// Runs the program with these arguments, over any objects. This is the one call of `run` of the
/// tests: the proof of such a call repeats what is known of its objects, and of these it is little.
pub(crate) fn carry_out<R, L: Library, S: Sink, G: Gate + Send + Drop>(
    rt: &R,
    alloc: Global,
    words: &[String],
    library: &mut L,
    out: &mut S,
    err: &mut S,
    gate: &mut G,
) -> Ended
where
    R: Threads + Wait + Sync,
    G::Conn: Send,
{
    run(rt, alloc, words, library, out, err, gate, [7; 32])
}

/// What is left by a run over this library and this gate. The error is out of memory.
fn left_by<R: Threads + Wait + Sync + Abort>(
    rt: &R,
    alloc: Global,
    line: &str,
    library: &mut MemoryLibrary,
    gate: &mut MemoryGate,
    failing: &Failing,
) -> Result<Outcome, NoMemory> {
    let words = words_of(alloc, line)?;
    let mut out = sink_of(alloc, &failing.out)?;
    let mut err = sink_of(alloc, &failing.err)?;
    let ended = carry_out(rt, alloc, &words, library, &mut out, &mut err, gate);
    Outcome::of_run(rt, alloc, line, &ended, &out, &err, gate)
}

/// A sink of which the calls of these numbers fail.
fn sink_of(alloc: Global, failing: &[u64]) -> Result<MemorySink, NoMemory> {
    MemorySink::new(alloc, ROOM, Vec::from_slice(alloc, failing)?)
}

impl Stage {
    /// No objects, before the first run.
    fn new(alloc: Global) -> Stage {
        Stage {
            files: Files::new(alloc),
            events: Vec::new(alloc),
            last_events: Vec::new(alloc),
            parts: Vec::new(alloc),
            failing: no_failing(alloc),
            left: Outcome::new(alloc),
        }
    }

    /// The gate of the next run.
    fn gate(&mut self, alloc: Global) -> Result<MemoryGate, NoMemory> {
        let failing = Vec::from_slice(alloc, &self.failing.gate)?;
        MemoryGate::new(
            alloc,
            std::mem::replace(&mut self.parts, Vec::new(alloc)),
            failing,
        )
    }

    /// Runs the program with these arguments. The error is out of memory.
    fn run<R: Threads + Wait + Sync + Abort>(
        &mut self,
        rt: &R,
        alloc: Global,
        line: &str,
    ) -> Result<(), NoMemory> {
        self.left.check_all_read(rt, line);
        let mut library = self.files.library(alloc, &self.failing.library)?;
        let mut gate = self.gate(alloc)?;
        self.left = left_by(rt, alloc, line, &mut library, &mut gate, &self.failing)?;
        self.failing = no_failing(alloc);
        Ok(())
    }

    /// Puts a file into the library.
    fn add_file<R: Abort>(
        &mut self,
        rt: &R,
        alloc: Global,
        word: &str,
        name: &str,
        text: &str,
    ) -> Result<(), NoMemory> {
        let bytes = match word {
            "file" => bytes_of(alloc, text, b"\n")?,
            "reply" => bytes_of(alloc, text, b"\r\n")?,
            "bytes" => self.files.join_words(rt, alloc, text)?,
            _ => self.files.sizes_of(rt, alloc, text)?,
        };
        self.files.keep(alloc, name, bytes)
    }

    /// Adds an event of the next link: bytes arrive.
    fn add_bytes(&mut self, bytes: Vec<u8>) -> Result<(), NoMemory> {
        self.events.push(Event::Bytes(bytes))?;
        Ok(())
    }

    /// Adds an event of the next link: the bytes of words arrive.
    fn add_words<R: Abort>(&mut self, rt: &R, alloc: Global, words: &str) -> Result<(), NoMemory> {
        let bytes = self.files.join_words(rt, alloc, words)?;
        self.add_bytes(bytes)
    }

    /// Adds events of the next link: slots begin.
    fn add_slots(&mut self, first: u64, last: u64) -> Result<(), NoMemory> {
        for slot in first..=last {
            self.events.push(Event::Slot(slot))?;
        }
        Ok(())
    }

    /// Takes the first so many events of the link of the last part.
    fn repeat(&mut self, alloc: Global, count: u64) -> Result<(), NoMemory> {
        self.events = first_events(alloc, &self.last_events, count)?;
        Ok(())
    }

    /// Processes a line. The test stops where it says what isn't so.
    fn process<R: Threads + Wait + Sync + Abort>(
        &mut self,
        rt: &R,
        alloc: Global,
        word: &str,
        rest: &str,
    ) -> Result<(), NoMemory> {
        let (first, more) = word_and_rest(rest);
        match word {
            "" | "#" => Ok(()),
            ">" => self.run(rt, alloc, rest),
            "file" | "reply" | "bytes" | "sizes" => self.add_file(rt, alloc, word, first, more),
            "hears" => self.add_bytes(bytes_of(alloc, rest, b"\r\n")?),
            "gets" => self.add_words(rt, alloc, rest),
            "slots" => self.add_slots(number_of(first), number_of(more)),
            "again" => self.repeat(alloc, number_of(first)),
            "part" => self.add_part(alloc, number_of(first)),
            "fails" => self.fail(first, number_of(more)),
            _ => self.left.check(rt, alloc, &mut self.files, word, rest),
        }
    }

    /// Processes the lines of a script. After the last one, lines have read all that the run left.
    fn process_all<R: Threads + Wait + Sync + Abort>(
        &mut self,
        rt: &R,
        alloc: Global,
        script: &str,
    ) -> Result<(), NoMemory> {
        for line in script.lines() {
            let (word, rest) = word_and_rest(line);
            self.process(rt, alloc, word, rest)?;
        }
        self.left.check_all_read(rt, "the end");
        Ok(())
    }

    /// Adds a part of the gate with one link, which has the events. Its call of `take` of that
    /// number fails.
    fn add_part(&mut self, alloc: Global, fails: u64) -> Result<(), NoMemory> {
        let events = std::mem::replace(&mut self.events, Vec::new(alloc));
        self.last_events = first_events(alloc, &events, events.len() as u64)?;
        self.parts.push(part_of(alloc, events, fails)?)?;
        Ok(())
    }

    /// Lets the call of that number fail.
    fn fail(&mut self, object: &str, number: u64) -> Result<(), NoMemory> {
        let calls = match object {
            "library" => &mut self.failing.library,
            "out" => &mut self.failing.out,
            "err" => &mut self.failing.err,
            _ => &mut self.failing.gate,
        };
        calls.push(number)?;
        Ok(())
    }
}

/// A part of a gate with one link that has these events. Its call of `take` of that number fails.
fn part_of(alloc: Global, events: Vec<Event>, fails: u64) -> Result<MemoryPart, NoMemory> {
    let link = MemoryLink::new(alloc, events, ROOM, Vec::new(alloc), Vec::new(alloc))?;
    let mut links = Vec::new(alloc);
    links.push(link)?;
    let failing = Vec::from_slice(alloc, slice::from_ref(&fails))?;
    Ok(MemoryPart { links, failing })
}

/// Processes the lines of a script, one after another.
///
/// `file NAME TEXT`, `reply NAME TEXT`, `bytes NAME WORDS`, `sizes NAME FILM`, `hears TEXT`, `gets
/// WORDS`, `slots FIRST LAST`, `again COUNT` (the first so many events of the part before), `part
/// [CALL]` and `fails OBJECT CALL` say what the next run is over; `> WORDS` runs; and the lines
/// after it say what it left: `STATUS TEXT` its status and its entire text, of the output or else
/// of the error stream, `out TEXT`, `err TEXT` and `is NAME` an entire text, `has TEXT` a part of
/// the output, `ends STATUS` its status, `counts REPORTS ENTRIES`, `says REPLY`, `sends WORDS` and
/// `plays NAME` what its first link sent next, and `said LINKS TEXT` how many links sent a text.
/// `keeps NAME` makes a file of the output. What no line reads is to be empty, except the rest of
/// the output after `has`, and the rest of what links sent after `said`.
fn play_out<R: Threads + Wait + Sync + Abort>(
    rt: &R,
    alloc: Global,
    script: &str,
) -> Result<(), NoMemory> {
    Stage::new(alloc).process_all(rt, alloc, script)
}
