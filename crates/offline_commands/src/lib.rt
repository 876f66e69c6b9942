//! The commands that need no connection: `plan`, `check`, `scan` and `make` read their inputs and
//! return the text for the output, `day` and `fair` run a link's day, and `--help` and `--version`
//! have their texts. `vodserve` writes what they return.
#![tactic(auto)]

mod checks;
mod command_output;
mod curves;
mod days;
mod generators;
pub mod laws;
mod line_parts;
mod plans;
mod scan_text;
mod scans;
mod text_laws;
mod texts;
mod traces;

pub use checks::check_plan;
pub use command_output::{CommandOutput, output_with_text};
pub use days::{load_script, load_sources, run_day, run_fair};
pub use generators::make;
pub use plans::plan_source;
pub use scans::write_units;
pub use texts::{help, version};
