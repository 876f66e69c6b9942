//! A client's settings.

ghost use Rattle.std.specs.Prelude.{◌≡◌, ◌∷◌, [], option_map, codes, IfSome};
ghost use Rattle.cli_args.specs.Settings.{is_absent, texts, values_of};
ghost use Rattle.cli_args.specs.Invocations.{source_given, source_of, client_given};
ghost use Rattle.cli_args.specs.Invocations.{script_run_given, fair_run_given};
ghost use Rattle.cli_args.specs.InvocationViews.{source_read, client_params_of, script_run_of};
ghost use Rattle.cli_args.specs.Ranges.{IsSourceInRange, IsClientInRange, IsScriptRunInRange};
ghost use Rattle.cli_args.specs.Ranges.{IsFairRunInRange};

use crate::invocations::{ClientParams, FairRun, PlanSource, ScriptRun};
use crate::key_values::{
    buffer_given, capacity_given, delay_given, film_given, journal_given, plays_given,
    script_given, seed_given, slot_given,
};
use crate::settings::{Given, find_given};
use vod_base::good_name;

/// What is planned, and for which client.
pub(crate) fn client_given<'a>(words: &'a [String]) -> Option<ClientParams<'a>>
    ensures viewer { option_map client_params_of result ≡ client_given (texts words.entry.now) }
    ensures range { IfSome result IsClientInRange }
{
    let source = source_given(words)?;
    let buffer = buffer_given(words)?;
    let delay = delay_given(words)?;
    Some(ClientParams {
        source,
        buffer,
        delay,
    })
}

/// The script that is run, and its link.
pub(crate) fn script_run_given<'a>(words: &'a [String]) -> Option<ScriptRun<'a>>
    ensures run { option_map script_run_of result ≡ script_run_given (texts words.entry.now) }
    ensures range { IfSome result IsScriptRunInRange }
{
    let script = script_given(words)?;
    let capacity = capacity_given(words)?;
    let journal = journal_given(words)?;
    let slot = slot_given(words)?;
    Some(ScriptRun {
        script,
        capacity,
        journal,
        slot,
    })
}

/// The drawn plays that are run, and their link.
pub(crate) fn fair_run_given(words: &[String]) -> Option<FairRun>
    ensures run { result ≡ fair_run_given (texts words.now) }
    ensures range { IfSome result IsFairRunInRange }
{
    let seed = seed_given(words)?;
    let plays = plays_given(words)?;
    let capacity = capacity_given(words)?;
    Some(FairRun {
        seed,
        plays,
        capacity,
    })
}

/// Whether the arguments give no value to the key.
fn is_absent(words: &[String], key: &str) -> bool
    ensures { result ≡ is_absent (values_of key.now (texts words.now)) }
{
    matches!(find_given(words, key), Given::Absent)
}

/// The trace of that name, where neither a film nor a slot's length is given.
fn trace_alone<'a>(words: &[String], name: &'a str) -> Option<PlanSource<'a>>
    ensures source { option_map source_read result ≡ source_of (name.entry.now ∷ [])
        (values_of (codes "film") (texts words.now)) (values_of (codes "slot") (texts words.now)) }
    ensures range { IfSome result IsSourceInRange }
{
    // A trace has one picture a slot, whatever a slot's length is. So `slot` has no meaning with
    // it.
    if good_name(name.as_bytes()) && is_absent(words, "film") && is_absent(words, "slot") {
        Some(PlanSource::Trace(name))
    } else {
        None
    }
}

/// What is planned: a trace or a film.
fn source_given<'a>(words: &'a [String]) -> Option<PlanSource<'a>>
    ensures source { option_map source_read result ≡ source_given (texts words.entry.now) }
    ensures range { IfSome result IsSourceInRange }
{
    match find_given(words, "trace") {
        Given::Absent => {
            let name = film_given(words)?;
            let slot = slot_given(words)?;
            Some(PlanSource::Film(name, slot))
        }
        Given::Once(name) => trace_alone(words, name),
        Given::Again => None,
    }
}
