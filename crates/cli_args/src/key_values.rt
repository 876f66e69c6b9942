//! The value of each key.

ghost use Rattle.std.specs.Prelude.{◌≡◌, ◌∷◌, [], true, IfSome};
ghost use Rattle.std.specs.Option.{option_copied};
ghost use Rattle.vod_base.specs.Names.{good_name};
ghost use Rattle.slot_calendar.specs.Profiles.{IsProfile};
ghost use Rattle.cli_args.specs.Settings.{texts, values_of};
ghost use Rattle.cli_args.specs.KeyValues.{film_given, cert_given, script_given, buffer_given};
ghost use Rattle.cli_args.specs.KeyValues.{delay_given, slot_given, capacity_given};
ghost use Rattle.cli_args.specs.KeyValues.{journal_given, port_given, workers_given};
ghost use Rattle.cli_args.specs.KeyValues.{connections_given, seed_given, pictures_given};
ghost use Rattle.cli_args.specs.KeyValues.{plays_given, one_kind, one_bind};
ghost use Rattle.cli_args.specs.ArgumentText.{IsValidBuffer, IsValidJournal, IsValidPictures};
ghost use Rattle.cli_args.specs.ArgumentText.{IsValidPlays, IsValidPort, IsValidSlot, IsValidDelay};
ghost use Rattle.cli_args.specs.ArgumentText.{IsValidWorkers};

use crate::capacities::one_capacity;
use crate::capacity_steps::Steps;
use crate::invocations::MediaKind;
use crate::settings::{Given, find_given, number_or, one_name, one_number};
use vod_base::{MAX_BYTES, MAX_DELAY};

/// A client's buffer in bytes, where no argument gives one: 1 MiB.
pub(crate) const DEFAULT_BUFFER_BYTES: u64 = 1_048_576;

/// A start delay in slots, where no argument gives one: 1 s of default slots.
pub(crate) const DEFAULT_DELAY: u64 = 25;

/// The length of a slot in 1/360,000 second, where no argument gives one: 40 ms.
pub(crate) const DEFAULT_SLOT_UNITS: u64 = 14_400;

/// The shortest slot, in 1/360,000 second: 1 ms.
pub(crate) const MIN_SLOT_UNITS: u64 = 360;

/// The longest slot, in 1/360,000 second: 1 s.
pub(crate) const MAX_SLOT_UNITS: u64 = 360_000;

/// The most entries of a journal, where no argument gives them.
pub(crate) const DEFAULT_JOURNAL_ENTRIES: u64 = 65_536;

/// The fewest entries that a journal may be limited to: those of one play, its start and its halt.
pub(crate) const MIN_JOURNAL_ENTRIES: u64 = 2;

/// The most entries that a journal may be given, as many as the book of `admission` may have.
pub const MAX_JOURNAL_ENTRIES: u64 = 1_048_576;

/// The port of a server, where no argument gives one.
pub(crate) const DEFAULT_PORT: u64 = 8554;

/// The last port.
pub(crate) const MAX_PORT: u64 = 65_535;

/// The workers of a server, where no argument gives their number.
pub(crate) const DEFAULT_WORKERS: u64 = 32;

/// The most workers of a server.
pub const MAX_WORKERS: u64 = 256;

/// The most pictures that `make` generates.
pub(crate) const MAX_PICTURES: u64 = 100_000;

/// The most plays that `fair` draws.
pub(crate) const MAX_PLAYS: u64 = 100_000;

/// The one film.
pub(crate) fn film_given<'a>(words: &'a [String]) -> Option<&'a str>
    ensures name { option_copied result ≡ film_given (texts words.entry.now) }
    ensures good { IfSome result (λ name. good_name name.now ≡ true) }
{
    one_name(words, "film")
}

/// The certificate.
pub(crate) fn cert_given<'a>(words: &'a [String]) -> Option<&'a str>
    ensures name { option_copied result ≡ cert_given (texts words.entry.now) }
    ensures good { IfSome result (λ name. good_name name.now ≡ true) }
{
    one_name(words, "cert")
}

/// The script.
pub(crate) fn script_given<'a>(words: &'a [String]) -> Option<&'a str>
    ensures name { option_copied result ≡ script_given (texts words.entry.now) }
    ensures good { IfSome result (λ name. good_name name.now ≡ true) }
{
    one_name(words, "script")
}

/// A client's buffer, in bytes: 1 to 2^42, 1 MiB if not given.
pub(crate) fn buffer_given(words: &[String]) -> Option<u64>
    ensures buffer { result ≡ buffer_given (texts words.now) }
    ensures range { IfSome result IsValidBuffer }
{
    number_or(words, "buffer", DEFAULT_BUFFER_BYTES, 1, MAX_BYTES)
}

/// A start delay, in slots: 0 to 10,000, 25 (1 s of default slots) if not given.
pub(crate) fn delay_given(words: &[String]) -> Option<u64>
    ensures delay { result ≡ delay_given (texts words.now) }
    ensures range { IfSome result IsValidDelay }
{
    number_or(words, "startup", DEFAULT_DELAY, 0, MAX_DELAY)
}

/// The length of a slot, in 1/360,000 second: 360 (1 ms) to 360,000 (1 s), 14,400 (40 ms) if not
/// given.
pub(crate) fn slot_given(words: &[String]) -> Option<u32>
    ensures slot { result ≡ slot_given (texts words.now) }
    ensures range { IfSome result IsValidSlot }
{
    let slot = number_or(
        words,
        "slot",
        DEFAULT_SLOT_UNITS,
        MIN_SLOT_UNITS,
        MAX_SLOT_UNITS,
    )?;
    Some(slot as u32)
}

/// The capacity of a link.
pub(crate) fn capacity_given(words: &[String]) -> Option<Steps>
    ensures capacity { result ≡ capacity_given (texts words.now) }
    ensures profile { IfSome result IsProfile }
{
    one_capacity(words, "capacity")
}

/// The most entries of a journal: 2 to 1,048,576, 65,536 if not given.
pub(crate) fn journal_given(words: &[String]) -> Option<u64>
    ensures journal { result ≡ journal_given (texts words.now) }
    ensures range { IfSome result IsValidJournal }
{
    number_or(
        words,
        "journal",
        DEFAULT_JOURNAL_ENTRIES,
        MIN_JOURNAL_ENTRIES,
        MAX_JOURNAL_ENTRIES,
    )
}

/// The port: 1 to 65,535, 8554 if not given.
pub(crate) fn port_given(words: &[String]) -> Option<u16>
    ensures port { result ≡ port_given (texts words.now) }
    ensures range { IfSome result IsValidPort }
{
    let port = number_or(words, "port", DEFAULT_PORT, 1, MAX_PORT)?;
    Some(port as u16)
}

/// The number of workers: 1 to 256, 32 if not given. Each serves one connection at a time.
pub(crate) fn workers_given(words: &[String]) -> Option<u32>
    ensures workers { result ≡ workers_given (texts words.now) }
    ensures range { IfSome result IsValidWorkers }
{
    let workers = number_or(words, "workers", DEFAULT_WORKERS, 1, MAX_WORKERS)?;
    Some(workers as u32)
}

/// The connections of each worker; 0 is no end.
pub(crate) fn connections_given(words: &[String]) -> Option<u64>
    ensures { result ≡ connections_given (texts words.now) }
{
    number_or(words, "connections", 0, 0, u64::MAX)
}

/// The number that a generator begins with.
pub(crate) fn seed_given(words: &[String]) -> Option<u64>
    ensures { result ≡ seed_given (texts words.now) }
{
    one_number(words, "seed", 0, u64::MAX)
}

/// The number of pictures that are generated.
pub(crate) fn pictures_given(words: &[String]) -> Option<u32>
    ensures pictures { result ≡ pictures_given (texts words.now) }
    ensures range { IfSome result IsValidPictures }
{
    let pictures = one_number(words, "pictures", 1, MAX_PICTURES)?;
    Some(pictures as u32)
}

/// The number of turns that are run.
pub(crate) fn plays_given(words: &[String]) -> Option<u32>
    ensures plays { result ≡ plays_given (texts words.now) }
    ensures range { IfSome result IsValidPlays }
{
    let plays = one_number(words, "plays", 1, MAX_PLAYS)?;
    Some(plays as u32)
}

/// The kind that is given once.
pub(crate) fn one_kind(words: &[String], key: &str) -> Option<MediaKind>
    ensures { result ≡ one_kind (values_of key.now (texts words.now)) }
{
    match find_given(words, key) {
        Given::Once(text) => kind_named(text),
        _ => None,
    }
}

/// Whether all addresses are listened at; else this machine alone.
pub(crate) fn one_bind(words: &[String], key: &str) -> Option<bool>
    ensures { result ≡ one_bind (values_of key.now (texts words.now)) }
{
    match find_given(words, key) {
        Given::Absent => Some(false),
        Given::Once(text) => match text {
            "local" => Some(false),
            "all" => Some(true),
            _ => None,
        },
        Given::Again => None,
    }
}

/// The kind of that name.
fn kind_named(text: &str) -> Option<MediaKind>
    ensures { result ≡ one_kind (text.now ∷ []) }
{
    match text {
        "film" => Some(MediaKind::Film),
        "trace" => Some(MediaKind::Trace),
        "system" => Some(MediaKind::System),
        _ => None,
    }
}
