//! The reel of a trace.

ghost use Rattle.std.specs.Prelude.{◌≡◌};

use film_frames::TraceTrack;
use film_run::Trace;

/// A trace as it is played: its sizes, and its track.
#[derive(Drop)]
pub(crate) struct TraceMedia<'s> {
    pub(crate) sizes: Trace<'s>,
    pub(crate) track: TraceTrack,
    pub(crate) ghost same: { track ≡ sizes },
}
