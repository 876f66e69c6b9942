//! The commands and their keys.

ghost use Rattle.std.specs.Prelude.{◌≡◌, map};
ghost use Rattle.std.specs.List.{list_all};
ghost use Rattle.cli_args.specs.Settings.{texts};
ghost use Rattle.cli_args.specs.Subcommands.{subcommand_named, is_setting_of, keys_of};

use crate::settings::setting;

/// The commands whose arguments are settings.
#[derive(Clone, Copy, Debug, PartialEq, Eq)]
pub enum Subcommand {
    /// The best plan of a trace or film.
    Plan,
    /// The verdict on a certificate.
    Check,
    /// The units of a film.
    Scan,
    /// The trace, film or system stream of a number.
    Make,
    /// A script of plays over one link.
    Day,
    /// Drawn plays over one link.
    Fair,
    /// A server of films over RTSP.
    Serve,
    /// A client of such a server.
    Watch,
}

/// Returns the command of that name, if there is one.
pub fn subcommand_named(word: &str) -> Option<Subcommand>
    ensures { result ≡ subcommand_named word.now }
{
    match word {
        "plan" => Some(Subcommand::Plan),
        "check" => Some(Subcommand::Check),
        "scan" => Some(Subcommand::Scan),
        "make" => Some(Subcommand::Make),
        "day" => Some(Subcommand::Day),
        "fair" => Some(Subcommand::Fair),
        "serve" => Some(Subcommand::Serve),
        "watch" => Some(Subcommand::Watch),
        _ => None,
    }
}

/// Returns the keys that a command takes.
pub fn keys_of(command: Subcommand) -> &'static [&'static str]
    ensures { map (λ key. key.now) result.now ≡ keys_of command }
{
    match command {
        Subcommand::Plan => &["trace", "film", "buffer", "startup", "slot"],
        Subcommand::Check => &["trace", "film", "cert", "buffer", "startup", "slot"],
        Subcommand::Scan => &["film"],
        Subcommand::Make => &["kind", "seed", "pictures"],
        Subcommand::Day => &["script", "capacity", "journal", "slot"],
        Subcommand::Fair => &["seed", "plays", "capacity"],
        Subcommand::Serve => &[
            "film",
            "port",
            "bind",
            "capacity",
            "buffer",
            "startup",
            "slot",
            "journal",
            "workers",
            "connections",
        ],
        Subcommand::Watch => &["film", "port", "buffer", "startup", "slot"],
    }
}

/// Whether each argument gives a value to a key of the command.
pub(crate) fn are_settings_of(command: Subcommand, words: &[String]) -> bool
    ensures { result ≡ list_all (is_setting_of command) (texts words.now) }
{
    for word in words {
        if !is_setting_of(command, word.as_str()) {
            return false;
        }
    }
    true
}

/// Whether the argument gives a value to a key that the command takes.
fn is_setting_of(command: Subcommand, word: &str) -> bool
    ensures { result ≡ is_setting_of command word.now }
{
    for key in keys_of(command) {
        if setting(word, key).is_some() {
            return true;
        }
    }
    false
}
