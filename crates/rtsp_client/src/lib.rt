//! A client of RTSP 1.0 (RFC 2326) that watches a film over one connection and measures the buffer
//! that it needs: it asks for the film, hands its bytes on as they come, and reads at each slot how
//! much of it waits to be played.
#![tactic(auto)]

mod clients;
mod frames;
pub mod laws;
mod play_reply;
mod replies;
mod requests;
mod watch_loop;
mod watch_request;
mod watch_state;

pub use watch_loop::watch;
pub use watch_request::{WatchEnd, WatchFault, Watched, Wish};

#[cfg(test)]
mod tests;
