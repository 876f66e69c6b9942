//! A script's films and traces, prepared to be played.

ghost use Rattle.std.specs.Prelude.{ℕ, ◌≡◌, All, length, map, IfOk, OnOk};
ghost use Rattle.day_run.specs.ClientStates.{source_content};
ghost use Rattle.day_run.specs.DayLaws.{IsPlayable};
ghost use Rattle.day_run.specs.Sources.{AreSources, IsSource};
ghost use Rattle.day_run.specs.MediaContents.{media_content};

use crate::media::{Media, Source};
use film_frames::laws::law_wire_size_of_film_is_bounded;
use mpeg_scan::laws::law_film_is_well_formed;
use std::alloc::Global;
use vod_base::NoMemory;

/// The sources as they are played.
pub(crate) fn all_media_of<'s>(
    alloc: Global,
    sources: &'s [Source],
) -> Result<Vec<Media<'s>>, NoMemory>
    requires { AreSources sources.now }
    ensures count { IfOk result (λ media. length media.items ≡ length sources.entry.now) }
    ensures contents { IfOk result (λ media. (slot_units : ℕ) →
        map (media_content slot_units) media.items
        ≡ map (source_content slot_units) sources.entry.now) }
    ensures playable { OnOk result (All IsPlayable sources.entry.now) }
{
    let mut media = Vec::with_capacity(alloc, sources.len())?;
    for source in sources {
        media.push(media_of(alloc, source)?)?;
    }
    Ok(media)
}

/// A source as it is played.
fn media_of<'s>(alloc: Global, source: &'s Source) -> Result<Media<'s>, NoMemory>
    requires { IsSource source.now }
    ensures content { IfOk result (λ medium. (slot_units : ℕ) →
        media_content slot_units medium ≡ source_content slot_units source.entry.now) }
    ensures playable { OnOk result (IsPlayable source.entry.now) }
{
    match source {
        Source::Film(stored) => {
            // These two calls do nothing at run time: the prover gets from them that the film can
            // be played.
            law_film_is_well_formed(&stored.film);
            law_wire_size_of_film_is_bounded();
            Ok(Media::Film(stored))
        }
        Source::Trace(sizes) => Media::trace(alloc, sizes),
    }
}
