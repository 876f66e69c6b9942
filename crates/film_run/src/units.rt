//! What is sent unit by unit: films and traces.

ghost use Rattle.std.specs.Prelude.{◌≡◌, ◌<◌, ◌≤◌, ℕ, List, length, sum, slice_index};

use film_frames::Stored;
use film_frames::laws::law_wire_size_of_film_is_bounded;
use mpeg_scan::laws::law_film_is_well_formed;
use std::marker::Model;
use vod_base::{MAX_BYTES, MAX_FILM_PICTURES};

/// Units that are sent one after another, by the bytes that each has on the wire.
pub trait Units {
    ghost sizes: { Self → List ℕ };

    /// Returns the number of the units, at most [`MAX_FILM_PICTURES`]. All together they have at
    /// most [`MAX_BYTES`] on the wire.
    fn count(&self) -> usize
        ensures count { result ≡ length (sizes self.now) }
        ensures few { length (sizes self.now) ≤ MAX_FILM_PICTURES }
        ensures small { sum (sizes self.now) ≤ MAX_BYTES };

    /// Returns the bytes of a unit on the wire.
    fn wire_size(&self, unit: usize) -> u64
        requires { unit < length (sizes self.now) }
        ensures { result ≡ slice_index (sizes self.now) unit };
}

/// A film's units, each with its frames and the report before it.
impl Units for Stored {
    ghost use Rattle.film_run.specs.Units.{stored_sizes};

    ghost sizes = { stored_sizes };

    fn count(&self) -> usize {
        // Both laws show the bounds of a film. They do nothing when they run.
        law_film_is_well_formed(&self.film);
        law_wire_size_of_film_is_bounded();
        self.film.units.len()
    }

    fn wire_size(&self, unit: usize) -> u64 {
        Stored::wire_size(self, unit)
    }
}

/// A trace: the sizes of its units, in bytes. Contracts see the list.
#[derive(Debug, Drop)]
pub struct Trace<'a> {
    sizes: &'a [u64],
}

impl<'a> Model for Trace<'a> {
    ghost use Rattle.std.specs.Prelude.{List, ℕ};
    ghost use Rattle.film_run.specs.Units.{AreUnitSizes};

    ghost Value = { List ℕ };

    ghost view = { λ t. t.sizes.now };

    ghost invariant = { λ t. AreUnitSizes t.sizes.now };
}

impl<'a> Trace<'a> {
    ghost use Rattle.film_run.specs.Units.{AreUnitSizes};

    /// Makes the trace of these sizes: at most 4,194,304, which add up to at most 2^42
    /// ([`MAX_FILM_PICTURES`], [`MAX_BYTES`]).
    pub fn new(sizes: &'a [u64]) -> Trace<'a>
        requires { AreUnitSizes sizes.now }
        ensures { result ≡ sizes.now }
    {
        Trace { sizes }
    }
}

impl Units for Trace<'_> {
    ghost sizes = { λ sizes. sizes };

    fn count(&self) -> usize {
        self.sizes.len()
    }

    fn wire_size(&self, unit: usize) -> u64 {
        let sizes = self.sizes;
        sizes[unit]
    }
}
