//! Requests and replies of RTSP 1.0 as text (RFC 2326 sections 4 to 7, 12 and 15.1).
#![tactic(auto)]

mod fields;
mod grammar;
pub mod laws;
mod lines;
mod replies;
mod requests;
mod status_lines;

pub use grammar::{RTSP_SCHEME, has_url_bytes};
pub use replies::{
    MAX_NUMBER_FIELD_BYTES, MAX_PHRASE_BYTES, MAX_REPLY_BYTES, MAX_REPLY_START_BYTES,
    MAX_STATUS_LINE_BYTES, Reply,
};
pub use requests::{Request, RequestFault, header, header_of, read_request, sequence_of};
pub use status_lines::{ReplyParts, read_reply};

#[cfg(test)]
mod tests;
