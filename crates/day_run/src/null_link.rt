//! A link that takes what the plays of a day send, and keeps none of it.

ghost use Rattle.std.specs.Prelude.{None};

use vod_base::{Heard, Link, LinkFault};

/// A link that takes every byte and keeps none. It never fails, and receives nothing.
#[derive(Clone, Copy)]
pub(crate) struct NullLink;

impl Link for NullLink {
    ghost faults = { λ _. 0 };

    ghost told = { λ _. None };

    fn next(&mut self, _into: &mut [u8]) -> Result<Heard, LinkFault> {
        // Never called: the events of a day are the lines of its script.
        Ok(Heard::End)
    }

    fn send(&mut self, _bytes: &[u8]) -> Result<(), LinkFault> {
        Ok(())
    }
}
