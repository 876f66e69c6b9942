//! One RTSP session (RFC 2326): its requests, its replies, and the play that it sends.
#![tactic(auto)]

mod commands;
mod films;
pub mod laws;
mod plans;
mod play_infos;
mod play_requests;
mod refusals;
mod requests;
mod sessions;
mod slots;
mod states;
mod station_answers;

pub use commands::{Ask, Slotted};
pub use film_streams::{Asked, Settings};
pub use plans::Planned;
pub use play_requests::PlayRequest;
pub use refusals::Task;
pub use session_records::{Notes, OfferNote, PlayNote, Receipt};
pub use sessions::Session;

#[cfg(test)]
mod tests;
