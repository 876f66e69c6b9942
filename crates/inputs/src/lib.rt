//! The inputs that `vodserve` reads from a library: complete files, traces of picture sizes, and
//! films.
#![tactic(auto)]

mod collectors;
mod files;
mod films;
pub mod laws;
mod pack_search;
mod scans;
mod streams;
mod traces;

pub use collectors::{ScannedFilm, SizedFilm, scan_film, size_film};
pub use files::read_input;
pub use films::{load_film, load_script_film};
pub use traces::{TraceRefused, read_trace};

#[cfg(test)]
mod tests;
