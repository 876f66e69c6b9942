//! The arguments of the command line of `vodserve`: a command, and its settings `key=value`.
#![tactic(auto)]

mod capacities;
mod capacity_steps;
mod client_args;
mod film_names;
mod invocations;
mod key_values;
pub mod laws;
mod parser;
mod server_args;
mod settings;
mod subcommands;

pub use capacities::profile_of;
pub use capacity_steps::Steps;
pub use film_names::film_named;
pub use invocations::{
    ClientParams, FairRun, Invocation, ListenSettings, MediaKind, PlanSettings, PlanSource,
    ScriptRun, ServeArgs, WatchArgs,
};
pub use key_values::{MAX_JOURNAL_ENTRIES, MAX_WORKERS};
pub use parser::parse_args;
pub use subcommands::{Subcommand, keys_of, subcommand_named};

#[cfg(test)]
mod tests;
