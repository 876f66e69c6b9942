//! How a client's play begins: what is asked for, and the play that was admitted.

ghost use Rattle.std.specs.Prelude.{◌≡◌, ◌<◌, ℕ, false, length, map, slice_index_or, IfSome};
ghost use Rattle.std.specs.Prelude.{IfNone};
ghost use Rattle.pacer.specs.PacerStates.{is_done};
ghost use Rattle.admission.specs.declared.entries.Answer.TheVariants.{Admitted};
ghost use Rattle.admission.specs.Histories.{is_admission};
ghost use Rattle.day_run.specs.Clients.{IsPlanFor, IsPlaying, IsRest, rest_of};
ghost use Rattle.day_run.specs.MediaPieces.{media_sizes};
ghost use Rattle.day_run.specs.MachineState.{IsWithinRanges};
ghost use Rattle.day_run.specs.ClientStates.{MediaContent, whole_rest};
ghost use Rattle.day_run.specs.MediaContents.{media_content};

use crate::clients::{ClientPlay, Rest};
use crate::media::Media;
use admission::Answer;
use film_run::{Playback, full_run};
use pacer::Pacer;
use plan_cert::Plan;

/// The source of that number.
pub(crate) fn medium_at<'r>(media: &'r [Media<'r>], source: usize) -> &'r Media<'r>
    requires { source < length media.now }
    ensures { (slot_units : ℕ) (none : MediaContent) →
        slice_index_or (map (media_content slot_units) media.now) source none
        ≡ media_content slot_units result.now }
{
    &media[source]
}

/// All of a source, for a client with such a buffer and start delay; None where it has no picture.
pub(crate) fn whole_of<'r>(
    medium: &'r Media<'r>,
    slot_units: u32,
    buffer: u64,
    delay: u64,
) -> Option<Rest<'r>>
    requires { IsWithinRanges slot_units buffer delay }
    ensures rest { IfSome result IsRest }
    ensures whole { IfSome result (λ rest.
        rest_of rest ≡ whole_rest slot_units (media_content slot_units medium.now) buffer delay) }
    ensures none { IfNone result (length (media_sizes medium.now) ≡ 0) }
{
    let run = full_run(medium)?;
    let playback = Playback {
        picture_units: medium.picture_units(slot_units),
        slot_units,
        buffer,
        delay,
    };
    Some(Rest {
        medium,
        playback,
        run,
    })
}

/// The first slot of a play that was admitted.
pub(crate) fn start_of(answer: Answer) -> Option<u64>
    ensures some { IfSome result (λ start. answer ≡ Admitted start) }
    ensures none { IfNone result (is_admission answer ≡ false) }
{
    match answer {
        Answer::Admitted { start } => Some(start),
        Answer::Overflow { .. } | Answer::Halted | Answer::Looked { .. } => None,
    }
}

/// A play that begins.
pub(crate) fn begin_play<'r>(
    number: u64,
    rest: Rest<'r>,
    plan: Plan,
    paced: Plan,
    start: u64,
) -> ClientPlay<'r>
    // needs: what the client asks, and its plan twice
    requires rest { IsRest rest }
    requires plan { IsPlanFor rest plan }
    requires paced { paced ≡ plan }
    // answers: a play that goes on, of which nothing was sent
    ensures playing { IsPlaying result }
    ensures undone { is_done result.pacer ≡ false }
    ensures number { result.number ≡ number }
    ensures plan { result.plan ≡ plan }
    ensures rest_is { result.rest ≡ rest.entry }
    ensures start { result.pacer.start ≡ start }
    ensures begun { result.pacer.passed ≡ 0 }
{
    let pacer = Pacer::new(rest.medium.as_sending(), rest.run.sent, paced, start);
    // The pacer's own invariant isn't visible here: only the clauses of a call say it.
    let _sent = pacer.sent();
    ClientPlay {
        number,
        rest,
        plan,
        pacer,
    }
}
