//! Traces, films and system streams that a number determines, so that everyone has the same test
//! material: the number seeds a generator, and each size and each byte is one of its draws.
#![tactic(auto)]

mod draws;
mod films;
pub mod laws;
mod pictures;
mod system_streams;
mod traces;

pub use draws::Draws;
pub use films::make_film;
pub use system_streams::make_system;
pub use traces::{draw_sizes, draw_trace, make_trace};

#[cfg(test)]
mod tests;
