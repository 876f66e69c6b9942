//! The lines of a script, what it names, and why a text is none.

use thiserror::Error;
use vod_base::NoMemory;

/// How many clients a script has.
pub const CLIENTS: usize = 256;

/// A line of a script. Clients are 0 to 255.
#[derive(Clone, Copy, Debug, PartialEq, Eq)]
pub enum Line {
    /// `play C film NAME B D` or `play C trace NAME B D`: a client asks for a play.
    Play {
        /// The client.
        client: u8,
        /// The place of the film or trace in the script's list of names.
        source: usize,
        /// The bytes that its buffer holds, 1 to 2^42 ([`vod_base::MAX_BYTES`]).
        buffer: u64,
        /// The slots before the first picture is used, at most 10,000 ([`vod_base::MAX_DELAY`]).
        delay: u64,
    },
    /// `pause C`: a client pauses its play, which ends with the frame or report in hand.
    Pause(u8),
    /// `resume C`: a client goes on where it was paused.
    Resume(u8),
    /// `look T`: what is booked in a slot, at most 2^62 ([`vod_base::LATEST_SLOT`]).
    Look(u64),
    /// `slot T`: the link comes to a slot, from 1 to 2^62 ([`vod_base::LATEST_SLOT`]), later than
    /// that of each `slot` line before.
    Slot(u64),
    /// `offer C film NAME B D W` or `offer C trace NAME B D W`: from when on a play would be
    /// admitted.
    Offer {
        /// The client.
        client: u8,
        /// The place of the film or trace in the script's list of names.
        source: usize,
        /// The bytes that its buffer holds, 1 to 2^42 ([`vod_base::MAX_BYTES`]).
        buffer: u64,
        /// The slots before the first picture is used, at most 10,000 ([`vod_base::MAX_DELAY`]).
        delay: u64,
        /// How many slots later than the first one the play may start, at most 255
        /// ([`early_start::MAX_WAIT`]).
        wait: u64,
    },
}

/// What a script names: a film, by `film`, or a trace, by `trace`.
#[derive(Clone, Copy, Debug, PartialEq, Eq)]
pub enum SourceKind {
    /// A film.
    Film,
    /// A trace.
    Trace,
}

/// A film or trace that a script names.
#[derive(Debug, Drop)]
pub struct Named {
    /// What it is named as.
    pub kind: SourceKind,
    /// Its name, as of a file of the library.
    pub name: String,
}

/// A script.
#[derive(Debug, Drop)]
pub struct Script {
    /// Its lines that aren't empty, in order.
    pub lines: Vec<Line>,
    /// Each film and each trace that they name, once, in the order of the lines that name them
    /// first.
    pub named: Vec<Named>,
}

/// Why a text isn't read as a script.
#[derive(Clone, Copy, Debug, PartialEq, Eq, Error)]
pub enum ScriptRefused {
    /// A line is no line of a script, or comes after 1,000,000 others.
    #[error("line {line} of the script is bad")]
    BadScript {
        /// The first such line, from 1 to 1,000,001; empty lines are counted.
        line: u64,
    },
    /// Out of memory.
    #[error("out of memory")]
    NoMemory,
}

impl From<NoMemory> for ScriptRefused {
    ghost use Rattle.std.specs.Prelude.{◌≡◌};
    ghost use Rattle.day_script.specs.declared.scripts.ScriptRefused.TheVariants.{NoMemory as NoRoom};

    ghost from_gives = { λ _ refused. refused ≡ NoRoom };

    fn from(_want: NoMemory) -> ScriptRefused {
        ScriptRefused::NoMemory
    }
}
