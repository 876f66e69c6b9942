//! The errors of the program.

ghost use Rattle.std.specs.Prelude.{◌≡◌};
ghost use Rattle.cli_errors.specs.declared.errors.CliError.{CliError};

use mpeg_scan::FilmFault;
use std::alloc::{AllocError, AllocFailed};
use sys_demux::SystemFault;
use thiserror::Error;
use vod_base::{GateFault, NoMemory, SinkFault};
use wire_curve::CurveFault;

/// Why an input is refused.
#[derive(Clone, Copy, Debug, PartialEq, Eq, Error)]
pub enum InputError {
    /// The library has no file of that name.
    #[error("there is no such file")]
    NotFound,
    /// The place of the first byte of the first token that makes the text no trace.
    #[error("the word at byte {0} makes it no trace")]
    BadTrace(u64),
    /// The curves of the trace are refused.
    #[error("{0}")]
    Curves(CurveFault),
    /// The first line, from 1, at which the text is no certificate.
    #[error("line {0} makes it no certificate")]
    BadCert(u64),
    /// The first line, from 1, at which the text is no script.
    #[error("line {0} makes it no script")]
    BadScript(u64),
    /// The film is refused; its places count from the first byte of its video.
    #[error("{0}")]
    Film(FilmFault),
    /// The film is a system stream that is refused; its places count from the file's first byte.
    #[error("{0}")]
    System(SystemFault),
    /// The film has more bytes than a server may hold.
    #[error("the film has more bytes than a server holds")]
    FilmTooLarge,
    /// There is no connection to a server.
    #[error("there is no connection")]
    NoConnection,
    /// A server refused a request with that status code.
    #[error("the server answered {0}")]
    RefusedWith(u16),
    /// A server's reply of that number, from 1, isn't one that its request asks for.
    #[error("reply {0} isn't as it must be")]
    BadReply(u64),
    /// A server's interleaved block of that number, from 0, isn't the film's next frame.
    #[error("block {0} isn't the film's next frame")]
    BadFrame(u64),
    /// A server's bytes are no interleaved blocks and replies.
    #[error("the server's bytes can't be told apart")]
    Framing,
    /// A server ended before its last reply, after so many complete pictures.
    #[error("the server ended after {0} pictures")]
    EndedEarly(u64),
    /// More events arrived than a connection may have, 2^40.
    #[error("the server's events don't end")]
    TurnsSpent,
}

/// Why a command failed. [`write_error`](crate::write_error) writes it on the error stream as a
/// line of names and numbers; its `Display` is prose.
#[derive(Clone, Copy, Debug, Error)]
pub enum CliError<'a> {
    /// The arguments have no meaning.
    #[error("the arguments have no meaning")]
    Usage,
    /// The input of that name is refused.
    #[error("{0}: {1}")]
    Refused(&'a str, InputError),
    /// The library failed at that name.
    #[error("{0} could not be read")]
    StoreFault(&'a str),
    /// Output could not be written.
    #[error("the output could not be written")]
    SinkFault,
    /// Out of memory.
    #[error("out of memory")]
    NoMemory,
    /// The gate failed.
    #[error("the gate failed")]
    GateFault,
    /// The link to a server failed.
    #[error("the connection failed")]
    LinkFault,
}

impl From<NoMemory> for CliError<'_> {
    ghost from_gives = { λ _ error. error ≡ CliError.NoMemory };

    fn from(_fault: NoMemory) -> Self {
        CliError::NoMemory
    }
}

impl From<AllocError> for CliError<'_> {
    ghost from_gives = { λ _ error. error ≡ CliError.NoMemory };

    fn from(_error: AllocError) -> Self {
        CliError::NoMemory
    }
}

impl<T: Drop> From<AllocFailed<T>> for CliError<'_> {
    ghost from_gives = { λ _ error. error ≡ CliError.NoMemory };

    fn from(_error: AllocFailed<T>) -> Self {
        CliError::NoMemory
    }
}

impl From<GateFault> for CliError<'_> {
    ghost from_gives = { λ _ error. error ≡ CliError.GateFault };

    fn from(_fault: GateFault) -> Self {
        CliError::GateFault
    }
}

impl From<SinkFault> for CliError<'_> {
    ghost from_gives = { λ _ error. error ≡ CliError.SinkFault };

    fn from(_fault: SinkFault) -> Self {
        CliError::SinkFault
    }
}
