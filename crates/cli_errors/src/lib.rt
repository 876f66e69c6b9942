//! The errors of `vodserve`: what each is, the line that names it on the error stream, and its exit
//! status.
#![tactic(auto)]

mod error_causes;
mod error_lines;
mod errors;
mod exit_statuses;
mod parts;

pub use error_lines::{write_error, write_number};
pub use errors::{CliError, InputError};
pub use exit_statuses::status_of;

#[cfg(test)]
pub mod laws;
mod tests;
