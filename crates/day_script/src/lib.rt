//! The texts of a simulated day: the script that it is read from, and the lines that it prints.
#![tactic(auto)]

mod fair_totals;
pub mod laws;
mod line_split;
mod line_texts;
mod messages;
mod script_reader;
mod scripts;

pub use fair_totals::{EntryCounts, FairTotals};
pub use line_texts::{push_fair, push_fault, push_full, push_offer, push_slot, push_state};
pub use script_reader::read_script;
pub use scripts::{CLIENTS, Line, Named, Script, ScriptRefused, SourceKind};

#[cfg(test)]
mod tests;
