//! What a reader can learn from the output: laws over the texts of a scan, a verdict and
//! `--help`.

ghost use Rattle.std.specs.Prelude.{◌≡◌, ◌≢◌, ◌<◌, ◌^◌, ℕ, true, List, All, codes, length};
ghost use Rattle.std.specs.List.{list_all};
ghost use Rattle.mpeg_scan.specs.declared.units.Unit.{Unit};
ghost use Rattle.cert_check.specs.declared.CertFault.{CertFault};
ghost use Rattle.cli_args.specs.Subcommands.{keys_of};
ghost use Rattle.cli_args.specs.ArgumentSyntax.{defaults};
ghost use Rattle.cli_args.specs.ArgumentText.{name_of};
ghost use Rattle.cli_args.specs.Invocations.{Invocation};
ghost use Rattle.cli_args.specs.declared.subcommands.Subcommand.{Subcommand};
ghost use Rattle.offline_commands.specs.HelpLaws.{fits_into, shows_command, shows_default};
ghost use Rattle.offline_commands.specs.HelpLaws.{shows_key};
ghost use Rattle.offline_commands.specs.HelpText.{help_text};
ghost use Rattle.offline_commands.specs.ScanText.{film_line, scan_text, unit_line};
ghost use Rattle.offline_commands.specs.TextLaws.{IsSameScan, IsShortFault, IsShortUnit};
ghost use Rattle.offline_commands.specs.TextLaws.{LineShowsFilm, LineShowsUnit};
ghost use Rattle.offline_commands.specs.VerdictText.{refused_line};

/// A law: the text of a scan determines the film's size, its rate code and its units, one for each
/// line between the first and the last: scans with the same text agree in each of them, and in a
/// line each number follows its key.
pub fn law_scan_text_determines_units()
    ensures same { (bytes bytes' rate rate' : ℕ) (units units' : List Unit) → bytes < 2 ^ 64 →
        bytes' < 2 ^ 64 → rate < 2 ^ 64 → rate' < 2 ^ 64 → length units < 2 ^ 64 →
        length units' < 2 ^ 64 → All IsShortUnit units → All IsShortUnit units' →
        scan_text bytes rate units ≡ scan_text bytes' rate' units' →
        IsSameScan bytes bytes' rate rate' units units' }
    ensures film { (bytes rate pictures : ℕ) → bytes < 2 ^ 64 → rate < 2 ^ 64 →
        pictures < 2 ^ 64 → LineShowsFilm bytes rate pictures (film_line bytes rate pictures) }
    ensures unit { (number : ℕ) (unit : Unit) → number < 2 ^ 64 → IsShortUnit unit →
        LineShowsUnit number unit (unit_line number unit) }
{}

/// A law: the line of a refused certificate determines its fault, with its number, and differs from
/// that of the best plan.
pub fn law_verdict_text_determines_fault()
    ensures tells { (fault fault' : CertFault) → IsShortFault fault → IsShortFault fault' →
        refused_line fault ≡ refused_line fault' → fault ≡ fault' }
    ensures not_least { (fault : CertFault) → refused_line fault ≢ codes "least\n" }
{}

/// A law: `--help` names each command in a line of its own and each key that a command takes, says
/// in the row of a key what holds where it is left out, and fits into 79 columns.
pub fn law_help_shows_each_command_and_key()
    ensures commands { (order : Invocation) → shows_command help_text (name_of order) ≡ true }
    ensures keys { (command : Subcommand) →
        list_all (shows_key help_text) (keys_of command) ≡ true }
    ensures defaults { list_all (shows_default help_text) defaults ≡ true }
    ensures columns { fits_into 79 help_text ≡ true }
{}
