//! What the reply to a PLAY says of its run.

ghost use Rattle.std.specs.Prelude.{◌≡◌, ◌≤◌, string_bytes};
ghost use Rattle.vod_base.specs.declared.limits.TheConstants.{MAX_FILM_PICTURES};
ghost use Rattle.film_streams.specs.Films.{milliseconds_at};
ghost use Rattle.film_streams.specs.StreamNumbers.{counts_after, identity_of, timestamp_at};

use crate::states::Prepared;
use film_frames::Stored;
use film_streams::{Setup, StreamSource, counts_after, identity_of, milliseconds_at, timestamp_at};
use rtsp_replies::PlayInfo;

/// Where a play begins and ends in time, and from which frame it goes on.
pub(crate) fn info_of<'m>(
    stored: &'m Stored,
    source: StreamSource,
    setup: &Setup,
    prepared: &Prepared<'_>,
    authority: &'m [u8],
) -> PlayInfo<'m>
    // needs: pictures of a film
    requires from { prepared.now.run.from_unit ≤ MAX_FILM_PICTURES }
    requires end { prepared.now.run.end_unit ≤ MAX_FILM_PICTURES }
    // answers: the times of its first and last picture
    ensures first { result.first_ms ≡ milliseconds_at stored.now.film prepared.now.run.from_unit }
    ensures end { result.end_ms ≡ milliseconds_at stored.now.film prepared.now.run.end_unit }
    // answers: the URL of the stream
    ensures authority { result.authority.now ≡ authority.now }
    ensures name { result.name.now ≡ string_bytes stored.now.name }
    // answers: the number and the time of the next frame (RFC 2326 section 12.33)
    ensures number { let sent = counts_after prepared.now.counts prepared.now.frames
        prepared.now.run.sent in
        result.sequence ≡ (identity_of source setup.now sent).sequence }
    ensures time { result.timestamp ≡
        timestamp_at stored.now.film source prepared.now.run.from_unit }
{
    let run = prepared.run;
    // `seq` is the next frame to be sent, `rtptime` the time at which `Range` begins (RFC 2326
    // section 12.33). After a pause that picture may have been sent already.
    let sent = counts_after(prepared.counts, &prepared.frames, run.sent);
    PlayInfo {
        first_ms: milliseconds_at(&stored.film, run.from_unit),
        end_ms: milliseconds_at(&stored.film, run.end_unit),
        authority,
        name: stored.name.as_bytes(),
        sequence: identity_of(source, setup, sent).sequence,
        timestamp: timestamp_at(&stored.film, source, run.from_unit),
    }
}
