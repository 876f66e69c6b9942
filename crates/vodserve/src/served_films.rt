//! The films of a server, as its arguments name them.

ghost use Rattle.std.specs.Prelude.{◌≡◌, ◌++◌, Some, true, codes, All, IfOk, IfErr, OnOk};
ghost use Rattle.std.specs.List.{Contains};
ghost use Rattle.std.specs.Option.{option_to_list};
ghost use Rattle.film_streams.specs.SettingRanges.{AreFilms, names_of};
ghost use Rattle.cli_args.specs.Settings.{setting_value, texts, values_of};
ghost use Rattle.cli_args.specs.Invocations.{are_films};
ghost use Rattle.cli_errors.specs.ReadErrors.{IsReadOnly, IsReadError};
ghost use Rattle.inputs.specs.LoadErrors.{IsServedFilmRefused};
ghost use Rattle.vodserve.specs.ServerOutput.{IsFirstRefused, IsWordNamed};
ghost use Rattle.vodserve.specs.WorkerResults.{AreLoaded, IsHeld};

use cli_args::film_named;
use cli_errors::CliError;
use film_frames::Stored;
use inputs::load_film;
use std::alloc::Global;
use vod_base::Library;

/// Loads the film that an argument names, if it names one.
fn add_film<'a, L: Library>(
    alloc: Global,
    library: &mut L,
    films: &mut Vec<Stored>,
    word: &'a str,
) -> Result<(), CliError<'a>>
    ensures library { IsReadOnly L.files L.faults library.old library.new }
    ensures added { OnOk result (names_of films.new.items
        ≡ names_of films.old.items
        ++ option_to_list (setting_value (codes "film") word.entry.now)) }
    ensures held { All (IsHeld (L.files library.old)) films.old.items →
        OnOk result (All (IsHeld (L.files library.old)) films.new.items) }
    ensures error { IfErr result (IsReadError (IsWordNamed word.entry.now) IsServedFilmRefused
        (L.files library.old) (L.faults library.old) (L.faults library.new)) }
{
    let Some(name) = film_named(word) else {
        return Ok(());
    };
    let film = load_film(alloc, library, name)?;
    films.push(film)?;
    Ok(())
}

/// Loads the films that the arguments name, one by one. The error names the first that is refused.
pub(crate) fn load_films<'a, L: Library>(
    alloc: Global,
    library: &mut L,
    words: &'a [String],
) -> Result<Vec<Stored>, CliError<'a>>
    requires { are_films (values_of (codes "film") (texts words.now)) ≡ true }
    ensures library { IsReadOnly L.files L.faults library.old library.new }
    ensures films { IfOk result (λ films. AreFilms films.items) }
    ensures loaded { IfOk result (λ films. AreLoaded (L.files library.old)
        (values_of (codes "film") (texts words.entry.now)) films.items) }
    ensures error { IfErr result (IsReadError
        (Contains (values_of (codes "film") (texts words.entry.now)))
        (IsFirstRefused (values_of (codes "film") (texts words.entry.now)))
        (L.files library.old) (L.faults library.old) (L.faults library.new)) }
{
    let mut films = Vec::new(alloc);
    for word in words {
        add_film(alloc, library, &mut films, word.as_str())?;
    }
    Ok(films)
}
