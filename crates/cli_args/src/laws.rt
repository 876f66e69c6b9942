//! Laws on what arguments mean: which have a meaning, what they may ask for, what applies where one
//! is left out, and that their order is free. With
//! [`law_written_arguments_read_back`](crate::laws::law_written_arguments_read_back) they leave one
//! meaning.

ghost use Rattle.std.specs.Prelude.{◌≡◌, ◌∷◌, ◌++◌, ℕ, List, Some};
ghost use Rattle.cli_args.specs.Invocations.{Invocation as Asked, invocation_from};
ghost use Rattle.cli_args.specs.Subcommands.{subcommand_named};
ghost use Rattle.cli_args.specs.declared.subcommands.Subcommand.{Subcommand as Named};
ghost use Rattle.cli_args.specs.ArgumentSyntax.{AreValidArgs, HaveDistinctKeys, IsLeftOut};
ghost use Rattle.cli_args.specs.ArgumentText.{IsValidInvocation, Setting, setting_text};

pub use crate::parser::law_written_arguments_read_back;

/// A law: arguments with a meaning are `--help` or `--version` alone, or a command's: each is
/// `key=value` with a key that the command takes, each key comes at most once, except `film` in
/// `serve`, where no two are alike, and each key that the command needs is given.
pub fn law_accepted_arguments_are_well_formed()
    ensures { (words : List (List ℕ)) (order : Asked) → invocation_from words ≡ Some order →
        AreValidArgs words }
{}

/// A law: what arguments mean is in range: each file of the command has a good name, and each
/// number is within its range, in its unit. With
/// [`law_written_arguments_read_back`](crate::laws::law_written_arguments_read_back) the commands
/// that arguments can mean are exactly those in range.
pub fn law_accepted_values_are_in_range()
    ensures { (words : List (List ℕ)) (order : Asked) → invocation_from words ≡ Some order →
        IsValidInvocation order }
{}

/// A law: a command without a key means what it means with that key and its default.
pub fn law_omitted_keys_have_defaults()
    ensures { (name : List ℕ) (command : Named) (words : List (List ℕ)) (default : Setting) →
        subcommand_named name ≡ Some command → IsLeftOut command words default →
        invocation_from (name ∷ setting_text default ∷ words) ≡ invocation_from (name ∷ words) }
{}

/// A law: two arguments of different keys, one after the other, mean the same in the other order.
pub fn law_argument_order_is_free()
    ensures { (name : List ℕ) (command : Named) (front : List (List ℕ)) (word other : List ℕ)
        (rest : List (List ℕ)) → subcommand_named name ≡ Some command → HaveDistinctKeys word other
        →
        invocation_from (name ∷ front ++ word ∷ other ∷ rest)
        ≡ invocation_from (name ∷ front ++ other ∷ word ∷ rest) }
{}
