//! Arguments of the form `key=value`.

ghost use Rattle.std.specs.Prelude.{◌≡◌, ◌≤◌, ◌^◌, true, IfSome};
ghost use Rattle.std.specs.Option.{option_copied};
ghost use Rattle.vod_base.specs.Names.{good_name};
ghost use Rattle.cli_args.specs.Settings.{texts, setting_value, values_of, one_name};
ghost use Rattle.cli_args.specs.Settings.{one_number, number_or};
ghost use Rattle.cli_args.specs.Occurrences.{IsGiven};

use vod_base::{good_name, number_within};

/// Counts how often arguments give a value to a key.
#[derive(Clone, Copy)]
pub(crate) enum Given<'a> {
    /// None does.
    Absent,
    /// One does, and this is the value.
    Once(&'a str),
    /// Two or more do.
    Again,
}

/// Returns the value that the argument gives to the key.
pub(crate) fn setting<'a>(word: &'a str, key: &str) -> Option<&'a str>
    ensures { option_copied result ≡ setting_value key.now word.entry.now }
{
    let (name, value) = word.split_once('=')?;
    if name == key { Some(value) } else { None }
}

/// The value that is given to a key, where it is given once.
pub(crate) fn find_given<'a>(words: &'a [String], key: &str) -> Given<'a>
    ensures { IsGiven result (values_of key.now (texts words.entry.now)) }
{
    let mut found = None;
    for word in words {
        if let Some(value) = setting(word.as_str(), key) {
            if found.is_some() {
                // A second value is an error and not the last word: a typing error must not change
                // a setting silently.
                return Given::Again;
            }
            found = Some(value);
        }
    }
    match found {
        Some(value) => Given::Once(value),
        None => Given::Absent,
    }
}

/// The good name that is given to a key once.
pub(crate) fn one_name<'a>(words: &'a [String], key: &str) -> Option<&'a str>
    ensures name { option_copied result ≡ one_name (values_of key.now (texts words.entry.now)) }
    ensures good { IfSome result (λ name. good_name name.now ≡ true) }
{
    match find_given(words, key) {
        Given::Once(name) if good_name(name.as_bytes()) => Some(name),
        _ => None,
    }
}

/// The number in its range that is given to a key once.
pub(crate) fn one_number(words: &[String], key: &str, least: u64, most: u64) -> Option<u64>
    ensures { result ≡ one_number least most (values_of key.now (texts words.now)) }
{
    match find_given(words, key) {
        Given::Once(text) => number_within(text.as_bytes(), least, most),
        _ => None,
    }
}

/// The same, or the default where the key is given no value.
pub(crate) fn number_or(
    words: &[String],
    key: &str,
    default: u64,
    least: u64,
    most: u64,
) -> Option<u64>
    requires { (least ≤ default) × (default ≤ most) }
    ensures number { result ≡ number_or default least most (values_of key.now (texts words.now)) }
    ensures range { IfSome result (λ number. (least ≤ number) × (number ≤ most)) }
{
    match find_given(words, key) {
        Given::Absent => Some(default),
        Given::Once(text) => number_within(text.as_bytes(), least, most),
        Given::Again => None,
    }
}
