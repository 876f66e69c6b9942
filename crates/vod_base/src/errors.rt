//! What may fail in the environment, by name.

ghost use Rattle.std.specs.Prelude.{◌≡◌};

use std::alloc::{AllocError, AllocFailed};
use thiserror::Error;

/// Out of memory: an allocation was refused.
#[derive(Clone, Copy, Debug, PartialEq, Eq, Error)]
#[error("out of memory")]
pub struct NoMemory;

impl From<AllocError> for NoMemory {
    ghost from_gives = { λ _ fault. fault ≡ record {} };

    fn from(_error: AllocError) -> NoMemory {
        NoMemory
    }
}

impl<T: Drop> From<AllocFailed<T>> for NoMemory {
    ghost from_gives = { λ _ fault. fault ≡ record {} };

    fn from(_error: AllocFailed<T>) -> NoMemory {
        NoMemory
    }
}

/// The fault of a library that could not be searched or read.
#[derive(Clone, Copy, Debug, PartialEq, Eq, Error)]
#[error("the library could not be read")]
pub struct StoreFault;

/// The fault of output that could not be written.
#[derive(Clone, Copy, Debug, PartialEq, Eq, Error)]
#[error("the output could not be written")]
pub struct SinkFault;

/// The fault of a connection that could not be read or written.
#[derive(Clone, Copy, Debug, PartialEq, Eq, Error)]
#[error("the connection could not be read or written")]
pub struct LinkFault;

/// The fault of a listener: no connection could be awaited or opened.
#[derive(Clone, Copy, Debug, PartialEq, Eq, Error)]
#[error("no connection could be made")]
pub struct GateFault;
