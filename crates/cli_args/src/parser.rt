//! What the arguments of the command line mean.

ghost use Rattle.std.specs.Prelude.{◌≡◌, Some, option_map, codes, IfSome};
ghost use Rattle.cli_args.specs.Settings.{texts, values_of};
ghost use Rattle.cli_args.specs.Ranges.{IsInvocationInRange};
ghost use Rattle.cli_args.specs.Invocations.{Invocation as Asked, check_given, make_given};
ghost use Rattle.cli_args.specs.Invocations.{invocation_given};
ghost use Rattle.cli_args.specs.Invocations.{command_invocation, lone_invocation, invocation_from};
ghost use Rattle.cli_args.specs.InvocationViews.{invocation_view};
ghost use Rattle.cli_args.specs.ArgumentText.{IsValidInvocation, args_of};

use crate::client_args::{client_given, fair_run_given, script_run_given};
use crate::invocations::Invocation;
use crate::key_values::{cert_given, film_given, one_kind, pictures_given, seed_given};
use crate::server_args::{serve_args_given, watch_args_given};
use crate::subcommands::{Subcommand, are_settings_of, subcommand_named};

/// Reads what the arguments of the command line ask for, or None where they mean nothing.
pub fn parse_args<'a>(words: &'a [String]) -> Option<Invocation<'a>>
    ensures order { option_map invocation_view result ≡ invocation_from (texts words.entry.now) }
    ensures range { IfSome result IsInvocationInRange }
{
    let (command, rest) = words.split_first()?;
    match command.as_str() {
        "--help" => lone_invocation(Invocation::Help, rest),
        "--version" => lone_invocation(Invocation::Version, rest),
        name => command_invocation(subcommand_named(name)?, rest),
    }
}

/// A law: a command in range is what its arguments mean, in which each key has its value.
pub fn law_written_arguments_read_back()
    ensures { (order : Asked) → IsValidInvocation order → invocation_from (args_of order) ≡ Some
        order }
{}

/// What the settings of `check` ask for.
fn check_given<'a>(words: &'a [String]) -> Option<Invocation<'a>>
    ensures order { option_map invocation_view result ≡ check_given (texts words.entry.now) }
    ensures range { IfSome result IsInvocationInRange }
{
    let viewer = client_given(words)?;
    let cert = cert_given(words)?;
    Some(Invocation::Check(viewer, cert))
}

/// Reads what the settings of `make` ask for.
fn make_given<'a>(words: &[String]) -> Option<Invocation<'a>>
    ensures order { option_map invocation_view result ≡ make_given (texts words.now) }
    ensures range { IfSome result IsInvocationInRange }
{
    let kind = one_kind(words, "kind")?;
    let seed = seed_given(words)?;
    let pictures = pictures_given(words)?;
    Some(Invocation::Make(kind, seed, pictures))
}

/// What the settings of a command ask for.
fn invocation_given<'a>(command: Subcommand, words: &'a [String]) -> Option<Invocation<'a>>
    ensures order { option_map invocation_view result ≡ invocation_given command (texts
        words.entry.now) }
    ensures range { IfSome result IsInvocationInRange }
{
    match command {
        Subcommand::Plan => Some(Invocation::Plan(client_given(words)?)),
        Subcommand::Check => check_given(words),
        Subcommand::Scan => Some(Invocation::Scan(film_given(words)?)),
        Subcommand::Make => make_given(words),
        Subcommand::Day => Some(Invocation::Day(script_run_given(words)?)),
        Subcommand::Fair => Some(Invocation::Fair(fair_run_given(words)?)),
        Subcommand::Serve => Some(Invocation::Serve(serve_args_given(words)?)),
        Subcommand::Watch => Some(Invocation::Watch(watch_args_given(words)?)),
    }
}

/// Reads what a command asks for, where each argument gives a value to one of its keys.
fn command_invocation<'a>(command: Subcommand, words: &'a [String]) -> Option<Invocation<'a>>
    ensures order { option_map invocation_view result ≡ command_invocation (texts words.entry.now)
        command }
    ensures range { IfSome result IsInvocationInRange }
{
    // Asked first: the readers below pass over keys that they don't know, and a misspelled key
    // would leave its default without a word.
    if are_settings_of(command, words) {
        invocation_given(command, words)
    } else {
        None
    }
}

/// Returns the command, where no argument follows.
fn lone_invocation<'a>(order: Invocation<'a>, rest: &[String]) -> Option<Invocation<'a>>
    requires { IsInvocationInRange order }
    ensures order { option_map invocation_view result ≡
        lone_invocation (invocation_view order.entry) (texts rest.now) }
    ensures range { IfSome result IsInvocationInRange }
{
    match rest {
        // Any more arguments would be ignored, so there may be none.
        [] => Some(order),
        _ => None,
    }
}
