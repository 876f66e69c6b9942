//! The films of a session, and the frames that are sent of them.

ghost use Rattle.std.specs.Prelude.{◌≡◌, ◌<◌, ◌≤◌, length};
ghost use Rattle.film_run.specs.Units.{stored_sizes};
ghost use Rattle.film_streams.specs.SettingRanges.{AreFilms};
ghost use Rattle.session.specs.RunRequests.{HasPlannedBytes, IsStoredAt, sending_of};

use film_frames::laws::{law_frame_and_report_sizes_are_exact, law_wire_size_of_film_is_bounded};
use film_frames::{Frames, Stored};
use film_run::Run;
use film_streams::{Counts, Setup, StreamSource, identity_of};
use mpeg_scan::laws::law_film_is_well_formed;

/// The film of that number, whose name is good.
pub(crate) fn stored_at(films: &[Stored], film: usize) -> &Stored
    requires films { AreFilms films.now }
    requires within { film < length films.now }
    ensures { IsStoredAt films.now film result.now }
{
    let stored = &films[film];
    // Both laws bound the sizes of the film's units, which the contract states.
    law_film_is_well_formed(&stored.film);
    law_wire_size_of_film_is_bounded();
    stored
}

/// The frames of a run that is sent after so many frames and octets.
pub(crate) fn frames_of<'a>(
    stored: &'a Stored,
    source: StreamSource,
    setup: &Setup,
    counts: Counts,
    run: &Run,
) -> Frames<'a>
    requires order { run.now.first_unit < run.now.end_unit }
    requires within { run.now.end_unit ≤ length (stored_sizes stored.now) }
    ensures frames { result ≡ sending_of stored.now.film source setup.now counts run.now }
    ensures bytes { HasPlannedBytes result stored.now run.now }
{
    let identity = identity_of(source, setup, counts);
    // The law ties the sizes of the pieces to the sizes of which the plan was made.
    law_frame_and_report_sizes_are_exact();
    Frames::new(stored, run.first_unit, run.end_unit, identity)
}
