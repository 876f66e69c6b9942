//! What a run left, and the lines of a script that say what that is to be.

use crate::run_results::Ended;
use crate::tests::materials::{Files, after_text, is_text, number_of, word_and_rest};
use admission::{Answer, Entry};
use conn::{ConnEnd, ConnReport};
use std::alloc::Global;
use std::process::Abort;
use vod_base::{MemoryGate, MemoryLink, MemorySink, NoMemory};

/// What a run left.
#[derive(Drop)]
pub(crate) struct Outcome {
    /// The status that it ended with.
    status: u64,
    /// What it wrote to the output.
    out: Vec<u8>,
    /// Whether a line has read the output, or looked for a part of it.
    is_out_read: bool,
    /// What it wrote to the error stream.
    err: Vec<u8>,
    /// Whether a line has read the error stream.
    is_err_read: bool,
    /// How many reports it handed out.
    reports: u64,
    /// How many entries its journal has.
    entries: u64,
    /// What each link sent.
    sent: Vec<Vec<u8>>,
    /// How many bytes of the first link's lines have read.
    read: usize,
    /// Whether a line has looked through what all links sent.
    is_sent_searched: bool,
}

/// Whether a text stands in bytes. In the text `|` means a line's end.
fn contains(bytes: &[u8], text: &str, end: &[u8]) -> bool {
    for from in 0..bytes.len() {
        if after_text(&bytes[from..], text, end).is_some() {
            return true;
        }
    }
    text.is_empty()
}

/// Whether a link reported that memory was out.
fn is_refused(link: &MemoryLink) -> bool {
    contains(link.sent(), "RTSP/1.0 500 ", b"")
}

/// Whether as many plays were admitted as were halted.
fn all_halted(journal: &[Entry]) -> bool {
    let mut admitted = 0u64;
    let mut halted = 0u64;
    for entry in journal {
        match &entry.answer {
            Answer::Admitted { .. } => admitted = admitted.saturating_add(1),
            Answer::Halted => halted = halted.saturating_add(1),
            _ => {}
        }
    }
    admitted == halted
}

/// Whether a connection ended because memory ran out, which changes no status.
fn lacked_memory(reports: &[ConnReport]) -> bool {
    reports.iter().any(|report| report.end == ConnEnd::NoMemory)
}

/// Whether one of these links reported that memory was out.
fn any_refused(links: &[MemoryLink]) -> bool {
    links.iter().any(|link| is_refused(link))
}

/// Adds what each of these links sent.
fn push_sent(sent: &mut Vec<Vec<u8>>, alloc: Global, links: &[MemoryLink]) -> Result<(), NoMemory> {
    for link in links {
        sent.push(Vec::from_slice(alloc, link.sent())?)?;
    }
    Ok(())
}

/// What the links of a gate's first parts sent, in the order in which they came back.
fn sent_of(alloc: Global, gate: &MemoryGate) -> Result<Vec<Vec<u8>>, NoMemory> {
    let mut sent = Vec::new(alloc);
    for number in 0..2 {
        push_sent(&mut sent, alloc, gate.given_back(number))?;
    }
    Ok(sent)
}

/// Whether memory ran out in a run.
fn ran_out(ended: &Ended, gate: &MemoryGate) -> bool {
    ended.status == 6
        || lacked_memory(&ended.reports)
        || any_refused(gate.given_back(0))
        || any_refused(gate.given_back(1))
}

/// What stands of these bytes after the payload of a block on channel 0. Other blocks have none.
fn after_payload<'a>(film: &'a [u8], channel: u8, payload: &[u8]) -> Option<&'a [u8]> {
    if channel == 0 {
        film.strip_prefix(payload)
    } else {
        Some(film)
    }
}

impl Outcome {
    /// Nothing, before the first run.
    pub(crate) fn new(alloc: Global) -> Outcome {
        Outcome {
            status: 0,
            out: Vec::new(alloc),
            is_out_read: true,
            err: Vec::new(alloc),
            is_err_read: true,
            reports: 0,
            entries: 0,
            sent: Vec::new(alloc),
            read: 0,
            is_sent_searched: false,
        }
    }

    /// What the run of this line left, in which each play has its halt. The error is out of memory.
    pub(crate) fn of_run<R: Abort>(
        rt: &R,
        alloc: Global,
        line: &str,
        ended: &Ended,
        out: &MemorySink,
        err: &MemorySink,
        gate: &MemoryGate,
    ) -> Result<Outcome, NoMemory> {
        let is_halted = all_halted(&ended.journal);
        assert!(rt; is_halted, "a play without its halt at {line}");
        let is_told = ended.status != 6 || is_text(err.bytes(), "vodserve: NoMemory|", b"\n");
        assert!(rt; is_told, "another error than out of memory at {line}");
        if ran_out(ended, gate) {
            return Err(NoMemory);
        }
        let out = Vec::from_slice(alloc, out.bytes())?;
        let err = Vec::from_slice(alloc, err.bytes())?;
        let sent = sent_of(alloc, gate)?;
        Ok(Outcome {
            status: u64::from(ended.status),
            is_out_read: out.is_empty(),
            out,
            is_err_read: err.is_empty(),
            err,
            reports: ended.reports.len() as u64,
            entries: ended.journal.len() as u64,
            sent,
            read: 0,
            is_sent_searched: false,
        })
    }

    /// The bytes of the first link that no line has read.
    fn unread_bytes(&self) -> &[u8] {
        match self.sent.first() {
            Some(sent) => sent.get(self.read..).unwrap_or(&[]),
            None => &[],
        }
    }

    /// Whether lines have read all that the links sent.
    fn all_sent_read(&self) -> bool {
        let others = self.sent.get(1..).unwrap_or(&[]);
        self.is_sent_searched
            || (self.unread_bytes().is_empty() && others.iter().all(|sent| sent.is_empty()))
    }

    /// Lines are to have read all that the run left, before that place in the script.
    pub(crate) fn check_all_read<R: Abort>(&self, rt: &R, place: &str) {
        let is_out_read = self.is_out_read || self.out.is_empty();
        let read = (is_out_read, self.is_err_read, self.all_sent_read());
        assert!(rt;
            read == (true, true, true),
            "output, errors, bytes of links: not all read before {place}: {read:?}"
        );
    }

    /// Reads bytes that the first link sent next; returns whether it did.
    fn reads_sent(&mut self, want: &[u8]) -> bool {
        let is_next = self.unread_bytes().starts_with(want);
        self.read = self.read.saturating_add(want.len());
        is_next
    }

    /// Reads a reply that the first link sent next; returns whether it did.
    fn reads_reply(&mut self, text: &str) -> bool {
        let unread = self.unread_bytes();
        let Some(rest) = after_text(unread, text, b"\r\n") else {
            return false;
        };
        let count = unread.len().saturating_sub(rest.len());
        self.read = self.read.saturating_add(count);
        true
    }

    /// Reads the blocks that the first link sent next. Returns whether the payloads of those on
    /// channel 0 are this film, if there is one.
    fn reads_film(&mut self, film: Option<&[u8]>) -> bool {
        let Some(mut film) = film else {
            return false;
        };
        for _ in 0..self.unread_bytes().len() {
            let [b'$', channel, high, low, after @ ..] = self.unread_bytes() else {
                break;
            };
            let length = usize::from(*high) * 256 + usize::from(*low);
            let Some(rest) = after_payload(film, *channel, after.get(16..length).unwrap_or(&[]))
            else {
                return false;
            };
            film = rest;
            self.read = self.read.saturating_add(4 + length);
        }
        film.is_empty()
    }

    /// Whether so many links sent a text.
    fn was_sent_by(&mut self, count: u64, text: &str) -> bool {
        self.is_sent_searched = true;
        let sending = self
            .sent
            .iter()
            .filter(|sent| contains(sent, text, b"\r\n"));
        sending.count() as u64 == count
    }

    /// Reads the entire output; returns whether it is this text.
    fn reads_out(&mut self, text: &str) -> bool {
        self.is_out_read = true;
        is_text(&self.out, text, b"\n")
    }

    /// Reads the entire error stream; returns whether it is this text.
    fn reads_err(&mut self, text: &str) -> bool {
        self.is_err_read = true;
        is_text(&self.err, text, b"\n")
    }

    /// Reads a status and its entire text.
    fn ends_with(&mut self, status: u64, text: &str) -> bool {
        self.status == status
            && if status < 2 {
                self.reads_out(text)
            } else {
                self.reads_err(text)
            }
    }

    /// Looks for a part of the output.
    fn has_in_output(&mut self, text: &str) -> bool {
        self.is_out_read = true;
        contains(&self.out, text, b"\n")
    }

    /// Reads the entire output; returns whether it is a file.
    fn reads_file(&mut self, file: Option<&[u8]>) -> bool {
        self.is_out_read = true;
        file == Some(self.out.as_slice())
    }

    /// Whether the run left what a line says.
    fn is_as_said(&mut self, files: &Files, word: &str, rest: &str) -> bool {
        let (first, more) = word_and_rest(rest);
        match word {
            "out" => self.reads_out(rest),
            "err" => self.reads_err(rest),
            "is" => self.reads_file(files.bytes(first)),
            "has" => self.has_in_output(rest),
            "ends" => self.status == number_of(first),
            "counts" => self.reports == number_of(first) && self.entries == number_of(more),
            "says" => self.reads_reply(rest),
            "plays" => self.reads_film(files.bytes(first)),
            "said" => self.was_sent_by(number_of(first), more),
            _ => self.ends_with(number_of(word), rest),
        }
    }

    /// The beginning of what the run wrote: to the error stream, or else to the output.
    fn found(&self, alloc: Global) -> Result<String, NoMemory> {
        let text = if self.err.is_empty() {
            self.out.as_slice()
        } else {
            self.err.as_slice()
        };
        Ok(String::from_utf8_lossy(alloc, text.get(..4_000).unwrap_or(text))?)
    }

    /// Makes a file of the output.
    fn keep_output(
        &mut self,
        alloc: Global,
        files: &mut Files,
        name: &str,
    ) -> Result<bool, NoMemory> {
        let out = std::mem::replace(&mut self.out, Vec::new(alloc));
        files.keep(alloc, name, out)?;
        Ok(true)
    }

    /// Processes a line on what the run left, over these files. Returns whether it is so.
    fn process<R: Abort>(
        &mut self,
        rt: &R,
        alloc: Global,
        files: &mut Files,
        word: &str,
        rest: &str,
    ) -> Result<bool, NoMemory> {
        match word {
            "keeps" => self.keep_output(alloc, files, rest),
            "sends" => Ok(self.reads_sent(&files.join_words(rt, alloc, rest)?)),
            _ => Ok(self.is_as_said(files, word, rest)),
        }
    }

    /// Processes a line on what the run left, over these files. The test stops where it isn't so.
    pub(crate) fn check<R: Abort>(
        &mut self,
        rt: &R,
        alloc: Global,
        files: &mut Files,
        word: &str,
        rest: &str,
    ) -> Result<(), NoMemory> {
        if self.process(rt, alloc, files, word, rest)? {
            return Ok(());
        }
        let found = self.found(alloc)?;
        panic!(rt; "not {word} {rest} but {found}")
    }
}
