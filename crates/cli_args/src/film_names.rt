//! The names of a server's films.

ghost use Rattle.std.specs.Prelude.{◌≡◌, option_map, codes};
ghost use Rattle.std.specs.List.{list_any};
ghost use Rattle.std.specs.Option.{option_copied};
ghost use Rattle.std.specs.Str.{bytes_eq};
ghost use Rattle.cli_args.specs.Settings.{setting_value, texts, values_of};
ghost use Rattle.cli_args.specs.Invocations.{are_films};

use crate::settings::setting;
use vod_base::good_name;

/// The most films.
pub(crate) const MAX_FILMS: usize = 64;

/// Returns the film that an argument names, if it is an argument of the key `film`.
pub fn film_named<'a>(word: &'a str) -> Option<&'a str>
    ensures { option_copied result ≡ setting_value (codes "film") word.entry.now }
{
    setting(word, "film")
}

/// Whether the arguments name 1 to 64 films, with good names, no two alike.
pub(crate) fn are_films(words: &[String]) -> bool
    ensures { result ≡ are_films (values_of (codes "film") (texts words.now)) }
{
    let mut count = 0usize;
    for (place, word) in words.iter().enumerate() {
        if let Some(name) = film_named(word.as_str()) {
            // The name is the path of the film's URL, so two films can't have the same.
            if !good_name(name.as_bytes()) || is_named(&words[place + 1..], name) {
                return false;
            }
            count += 1;
        }
    }
    1 <= count && count <= MAX_FILMS
}

/// Whether one of the arguments names that film.
fn is_named(words: &[String], name: &str) -> bool
    ensures { result ≡ list_any (bytes_eq name.now) (values_of (codes "film") (texts words.now)) }
{
    for word in words {
        if let Some(other) = film_named(word.as_str()) {
            if name == other {
                return true;
            }
        }
    }
    false
}
