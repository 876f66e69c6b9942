//! Streams that are written to.

ghost use Rattle.std.specs.Prelude.{◌≡◌, None};

use crate::faults::Faults;
use std::io::Write;
use std::{fmt, io};
use vod_base::{Sink, SinkFault};

/// A stream that is written to and never read.
#[derive(Drop)]
pub struct OutSink<W: Write + Drop> {
    stream: W,
    faults: Faults,
}

impl<W: Write + Drop> OutSink<W> {
    /// Makes a sink over a stream.
    pub fn new(stream: W) -> OutSink<W> {
        OutSink {
            stream,
            faults: Faults::new(),
        }
    }

    /// Writes all bytes, and leaves none of them in a buffer of the stream.
    fn write_through(&mut self, bytes: &[u8]) -> io::Result<()>
        ensures { self.new.faults ≡ self.old.faults }
    {
        // Flushed each time, so that a failure is this call's and the bytes of a watched film don't
        // wait.
        self.stream.write_all(bytes)?;
        self.stream.flush()
    }
}

impl<S: Write + Drop> fmt::Debug for OutSink<S> {
    fn fmt<W: fmt::Write>(&self, f: &mut fmt::Formatter<W>) -> fmt::Result {
        f.debug_struct("OutSink").finish_non_exhaustive()
    }
}

impl<W: Write + Drop> Sink for OutSink<W> {
    ghost faults = { λ s. s.faults.count };

    ghost written = { λ _. None };

    fn write_all(&mut self, bytes: &[u8]) -> Result<(), SinkFault> {
        let written = self.write_through(bytes);
        self.faults.pass_on(written, SinkFault)
    }
}
