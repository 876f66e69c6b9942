//! The replies of an RTSP server of stored video, from the status line to the body (RFC 2326
//! sections 7 and 10).
#![tactic(auto)]

pub mod laws;
mod parameter_bodies;
mod replies;
mod text_buffers;

pub use parameter_bodies::{put_look, put_offer};
pub use replies::{
    PlayInfo, put_description, put_full, put_overflow, put_parameters, put_plain, put_play,
    put_public, put_refusal, put_session, put_setup, put_start,
};
pub use text_buffers::{MAX_TEXT_BYTES, Text};

#[cfg(test)]
mod tests;
