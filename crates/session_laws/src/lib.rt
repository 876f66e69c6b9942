//! Laws of an RTSP session, in the terms of RFC 2326, on every session of the crate `session`.
#![tactic(auto)]

mod end_laws;
pub mod laws;
mod look_laws;
mod method_laws;
mod offer_laws;
mod play_laws;
mod refusal_laws;
