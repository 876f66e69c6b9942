//! The fields of RTSP 1.0 requests (RFC 2326) that a server of stored video reads: URLs, Transport,
//! Range, Session and numbers; and the description of a film (RFC 4566).
#![tactic(auto)]

pub mod laws;
mod npt_times;
mod ranges;
mod sdp;
mod seconds;
mod separated_parts;
mod session_ids;
mod transports;
mod urls;
mod x_headers;

pub use ranges::{Origin, Span, read_range};
pub use sdp::description;
pub use seconds::seconds_text;
pub use session_ids::{session_id, session_matches};
pub use transports::{Channels, read_transport};
pub use urls::{Url, read_url};
pub use x_headers::{read_buffer, read_delay, read_wait};

#[cfg(test)]
mod tests;
