//! What is to be watched, and what came of it.

ghost use Rattle.std.specs.Prelude.{◌≡◌};
ghost use Rattle.rtsp_client.specs.declared.watch_request.WatchEnd.{WatchEnd};

use std::alloc::AllocError;
use thiserror::Error;
use vod_base::{LinkFault, NoMemory, SinkFault};

/// What is to be watched, and how it is to be played.
#[derive(Debug, Drop)]
pub struct Wish {
    /// The film's name: 1 to 64 letters, digits, `.`, `_` and `-`, the first not `.`.
    pub name: String,
    /// The server's port, from 1.
    pub port: u16,
    /// The client's buffer in bytes, 1 to 2^42.
    pub buffer: u64,
    /// The slots that pass before the first picture is used, 0 to 10,000.
    pub startup: u64,
    /// The slot length in 1/360,000 second, 360 to 360,000.
    pub slot_units: u32,
}

/// What was received of a film, and what the buffer's meter read.
///
/// The meter is read at each new slot from the play's first one on.
#[derive(Clone, Copy, Debug, PartialEq, Eq)]
pub struct Watched {
    /// The pictures that are complete.
    pub units: u64,
    /// The bytes of the film that were handed on.
    pub bytes: u64,
    /// The complete frames: the blocks on channel 0.
    pub frames: u64,
    /// The complete reports: the blocks on channel 1.
    pub reports: u64,
    /// The most bytes that waited to be played.
    pub most: u64,
    /// In how many slots more bytes waited than the buffer holds.
    pub over: u64,
    /// In how many slots a picture was to be played that wasn't complete.
    pub under: u64,
}

/// Why a film wasn't watched to its end.
#[derive(Clone, Copy, Debug, PartialEq, Eq, Error)]
pub enum WatchFault {
    /// A request was answered with this code.
    #[error("a request was answered {0}")]
    Refused(u16),
    /// The reply of this number, from 1, isn't awaited, has a bad first line or another CSeq, or
    /// has a field missing.
    #[error("reply {0} isn't as it should be")]
    BadReply(u64),
    /// The frame of this number, from 0, comes when none is to come, or isn't the next one of the
    /// film.
    #[error("frame {0} isn't as it should be")]
    BadFrame(u64),
    /// What came begins no reply and no block.
    #[error("what came begins no reply and no block")]
    Framing,
    /// The server ended when so many pictures were complete.
    #[error("the server ended after {0} pictures")]
    EndedEarly(u64),
    /// The client received as many events as it processes, 2^40.
    #[error("too many events")]
    TurnsSpent,
}

/// What came of watching a film.
#[derive(Clone, Copy, Debug, PartialEq, Eq)]
pub enum WatchEnd {
    /// All pictures are complete, and the server answered TEARDOWN.
    Done(Watched),
    /// The server didn't do what was asked of it.
    Fault(WatchFault),
    /// The link failed.
    LinkFault,
    /// The output failed.
    SinkFault,
    /// Out of memory.
    NoMemory,
}

impl From<WatchFault> for WatchEnd {
    ghost from_gives = { λ fault end. end ≡ WatchEnd.Fault fault };

    fn from(fault: WatchFault) -> WatchEnd {
        WatchEnd::Fault(fault)
    }
}

impl From<LinkFault> for WatchEnd {
    ghost from_gives = { λ _ end. end ≡ WatchEnd.LinkFault };

    fn from(_fault: LinkFault) -> WatchEnd {
        WatchEnd::LinkFault
    }
}

impl From<SinkFault> for WatchEnd {
    ghost from_gives = { λ _ end. end ≡ WatchEnd.SinkFault };

    fn from(_fault: SinkFault) -> WatchEnd {
        WatchEnd::SinkFault
    }
}

impl From<NoMemory> for WatchEnd {
    ghost from_gives = { λ _ end. end ≡ WatchEnd.NoMemory };

    fn from(_fault: NoMemory) -> WatchEnd {
        WatchEnd::NoMemory
    }
}

impl From<AllocError> for WatchEnd {
    ghost from_gives = { λ _ end. end ≡ WatchEnd.NoMemory };

    fn from(_error: AllocError) -> WatchEnd {
        WatchEnd::NoMemory
    }
}
