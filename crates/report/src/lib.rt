//! What `vodserve` prints of its journal and its calendar.
#![tactic(auto)]

mod calendars;
mod entries;
mod journals;
pub mod laws;
mod number_fields;

pub use calendars::calendar_text;
pub use entries::entry_line;
pub use journals::journal_text;

#[cfg(test)]
mod tests;
