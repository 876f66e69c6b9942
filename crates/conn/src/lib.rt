//! One RTSP connection over a link, from its first event to its report, and one worker's
//! connections, one after another.
#![tactic(auto)]

mod agreement;
mod connections;
mod film_laws;
pub mod laws;
mod parts;
mod play_answers;
mod reports;
mod service;
#[cfg(test)]
mod tests;
mod words;

pub use parts::serve_part;
pub use reports::{ConnEnd, ConnReport, PartEnd, PartReport};
pub use service::serve_connection;
pub use words::connection_words;
